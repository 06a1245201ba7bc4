//! The structures of a DMAR and the blocks of an IVRS at fault, and the bytes in which none begins.
ghost use Rattle.std.specs.Prelude.{◌≡◌, ◌+◌, ◌^◌, ◌<◌, ◌≤◌, length};
ghost use Rattle.acpi_c_lib.specs.Words.{Fills, Writes};
ghost use Rattle.acpi_c_devices.specs.Words.{dmar_faults_below, dmar_faults_of, iommu_fault, ivrs_faults_below, ivrs_faults_of};

use acpi_base::bytes::field;
use acpi_c_lib::entry_faults::{EntryFault, entry_fault};
use acpi_c_lib::lists::put;
use acpi_c_lib::opening::first;
use acpi_c_lib::records::Source;
use acpi_c_lib::refusal::Refusal;
use acpi_c_lib::regions::Mapped;
use acpi_iommu::{Dmar, DmarUnits, IommuError, Ivrs, IvrsBlocks};

/// Lists the structures of the first valid DMAR at fault and, last, the bytes in which none begins.
pub fn dmar_faults(source: &Source<'_>, out: &mut [EntryFault]) -> Result<usize, Refusal>
    ensures { Fills result out.old out.new (dmar_faults_below source.now) }
{
    let memory = Mapped::new(source.regions);
    let dmar = first::<Dmar>(&memory, source)?;
    Ok(fill_dmar_faults(dmar.bytes(), dmar.physical_start(), out))
}

/// Lists the blocks of the first valid IVRS at fault and, last, the bytes in which none begins.
pub fn ivrs_faults(source: &Source<'_>, out: &mut [EntryFault]) -> Result<usize, Refusal>
    ensures { Fills result out.old out.new (ivrs_faults_below source.now) }
{
    let memory = Mapped::new(source.regions);
    let ivrs = first::<Ivrs>(&memory, source)?;
    Ok(fill_ivrs_faults(ivrs.bytes(), ivrs.physical_start(), out))
}

/// Writes the faults of a DMAR's bytes at an address.
fn fill_dmar_faults(table: &[u8], address: u64, out: &mut [EntryFault]) -> usize
    requires fixed { 48 ≤ length table.now }
    requires ends { address + length table.now < 2 ^ 64 }
    ensures { Writes result out.old out.new (dmar_faults_of (address, table.now)) }
{
    let mut structures = DmarUnits::over(table).structures();
    let mut at = address + 48;
    let mut count = 0;
    while let Some(structure) = structures.next() {
        if let Some(error) = structure.fault() {
            put(out, count, fault(at, structure.kind(), error));
            count += 1;
        }
        at += structure.length() as u64;
    }
    let rest = structures.rest();
    if !rest.is_empty() {
        let structure_type = field(rest, 0, 2) as u16; // Type
        put(
            out,
            count,
            fault(at, structure_type, IommuError::InvalidStructureLength),
        );
        count += 1;
    }
    count
}

/// Writes the faults of an IVRS' bytes at an address.
fn fill_ivrs_faults(table: &[u8], address: u64, out: &mut [EntryFault]) -> usize
    requires fixed { 48 ≤ length table.now }
    requires ends { address + length table.now < 2 ^ 64 }
    ensures { Writes result out.old out.new (ivrs_faults_of (address, table.now)) }
{
    let mut blocks = IvrsBlocks::over(table).blocks();
    let mut at = address + 48;
    let mut count = 0;
    while let Some(block) = blocks.next() {
        if let Some(error) = block.fault() {
            put(out, count, fault(at, block.kind() as u16, error));
            count += 1;
        }
        at += block.length() as u64;
    }
    let rest = blocks.rest();
    if !rest.is_empty() {
        let block_type = field(rest, 0, 1) as u16; // Type
        put(
            out,
            count,
            fault(at, block_type, IommuError::InvalidStructureLength),
        );
        count += 1;
    }
    count
}

/// One of a type, at an address, with its error.
fn fault(address: u64, entry_type: u16, error: IommuError) -> EntryFault
    ensures { result ≡ iommu_fault address entry_type error }
{
    entry_fault(address, entry_type, Refusal::from(error))
}
