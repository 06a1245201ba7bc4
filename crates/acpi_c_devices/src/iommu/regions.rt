//! The lists of a DMAR's structures and of an IVRS' blocks of one type: units, memory that is reserved or has its own
//! rules, root ports, and the domains of units, each as it is.
ghost use Rattle.std.specs.Prelude.{◌≡◌, ℕ, List, Option, filter_map, refl};
ghost use Rattle.acpi_iommu.specs.Words.{block_bytes, blocks_left, blocks_of, structure_bytes, structures_left, structures_of};
ghost use Rattle.acpi_c_lib.specs.Words.{Fills, Writes, lists_by};
ghost use Rattle.acpi_c_devices.specs.Words.{below_dmar, below_ivrs, dmar_affinity_shown, drhd_shown, ivhd_shown, ivmd_shown, rmrr_shown, root_ports_shown};

use crate::iommu::records::{
    DmarAffinity, DmarReserved, DmarRootPorts, DmarUnit, IvrsMemory, IvrsUnit,
};
use crate::iommu::shown::{block_record, memory_record, reserved_record, unit_record};
use crate::known::Nothing;
use acpi_c_lib::lists::{Listing, fill};
use acpi_c_lib::opening::first;
use acpi_c_lib::records::Source;
use acpi_c_lib::refusal::Refusal;
use acpi_c_lib::regions::Mapped;
use acpi_iommu::{
    Dmar, DmarFields, DmarStructure, DmarStructureIter, DmarUnits, Ivrs, IvrsBlock, IvrsBlockIter,
    IvrsBlocks, IvrsFields,
};

// ---- the DMAR

/// What a structure of one type contains.
pub trait DmarRecord: Copy {
    // The record of a structure of these bytes, if it is of this type.
    ghost shown: { List ℕ → Option Self };

    /// The record of a structure, if it is of this type.
    fn of(structure: &DmarStructure<'_>) -> Option<Self>
        ensures { result ≡ shown (structure_bytes structure.now) };
}

impl<R: DmarRecord> Listing<Nothing, R> for DmarStructureIter<'_> {
    ghost record_of = { λ known x. R.shown (structure_bytes x) };

    ghost left = { λ known s. filter_map R.shown (structures_left s) };

    ghost gives_first = { λ known s item t given. lists_by structure_bytes R.shown (filter_map R.shown)
        (λ u. structures_left u) refl (λ x xs. refl) s item t given.0 };

    fn record(_known: &Nothing, structure: DmarStructure<'_>) -> Option<R>
        ensures { result ≡ R.shown (structure_bytes structure.entry) }
    {
        R::of(&structure)
    }
}

/// Lists the structures of one type of the first valid DMAR.
pub fn dmar_structures<R: DmarRecord>(source: &Source<'_>, out: &mut [R]) -> Result<usize, Refusal>
    ensures { Fills result out.old out.new (below_dmar source.now R.shown) }
{
    let memory = Mapped::new(source.regions);
    let dmar = first::<Dmar>(&memory, source)?;
    Ok(fill_structures(dmar.bytes(), out))
}

fn fill_structures<R: DmarRecord>(table: &[u8], out: &mut [R]) -> usize
    ensures { Writes result out.old out.new (filter_map R.shown (structures_of table.now)) }
{
    fill(DmarUnits::over(table).structures(), &Nothing, out)
}

// A DRHD is a unit (section 8.3).
impl DmarRecord for DmarUnit {
    ghost shown = { drhd_shown };

    fn of(structure: &DmarStructure<'_>) -> Option<DmarUnit> {
        Some(unit_record(&structure.drhd()?))
    }
}

// An RMRR reserves memory (section 8.4).
impl DmarRecord for DmarReserved {
    ghost shown = { rmrr_shown };

    fn of(structure: &DmarStructure<'_>) -> Option<DmarReserved> {
        match structure.fields()? {
            DmarFields::Rmrr(range) => Some(reserved_record(&range)),
            _ => None,
        }
    }
}

// An ATSR has root ports (section 8.5).
impl DmarRecord for DmarRootPorts {
    ghost shown = { root_ports_shown };

    fn of(structure: &DmarStructure<'_>) -> Option<DmarRootPorts> {
        match structure.fields()? {
            DmarFields::Atsr(ports) => Some(DmarRootPorts {
                segment: ports.segment,
                includes_all: ports.has_all_ports() as u8,
                flags: ports.flags,
            }),
            _ => None,
        }
    }
}

// An RHSA puts a unit into a domain (section 8.6).
impl DmarRecord for DmarAffinity {
    ghost shown = { dmar_affinity_shown };

    fn of(structure: &DmarStructure<'_>) -> Option<DmarAffinity> {
        match structure.fields()? {
            DmarFields::Rhsa(unit) => Some(DmarAffinity {
                register_base: unit.register_base,
                domain: unit.domain,
                reserved: [0; 4],
            }),
            _ => None,
        }
    }
}

// ---- the IVRS

/// What a block of one type contains.
pub trait IvrsRecord: Copy {
    // The record of a block of these bytes, if it is of this type.
    ghost shown: { List ℕ → Option Self };

    /// The record of a block, if it is of this type.
    fn of(block: &IvrsBlock<'_>) -> Option<Self>
        ensures { result ≡ shown (block_bytes block.now) };
}

impl<R: IvrsRecord> Listing<Nothing, R> for IvrsBlockIter<'_> {
    ghost record_of = { λ known x. R.shown (block_bytes x) };

    ghost left = { λ known s. filter_map R.shown (blocks_left s) };

    ghost gives_first = { λ known s item t given. lists_by block_bytes R.shown (filter_map R.shown)
        (λ u. blocks_left u) refl (λ x xs. refl) s item t given.0 };

    fn record(_known: &Nothing, block: IvrsBlock<'_>) -> Option<R>
        ensures { result ≡ R.shown (block_bytes block.entry) }
    {
        R::of(&block)
    }
}

/// Lists the blocks of one type of the first valid IVRS.
pub fn ivrs_blocks<R: IvrsRecord>(source: &Source<'_>, out: &mut [R]) -> Result<usize, Refusal>
    ensures { Fills result out.old out.new (below_ivrs source.now R.shown) }
{
    let memory = Mapped::new(source.regions);
    let ivrs = first::<Ivrs>(&memory, source)?;
    Ok(fill_blocks(ivrs.bytes(), out))
}

fn fill_blocks<R: IvrsRecord>(table: &[u8], out: &mut [R]) -> usize
    ensures { Writes result out.old out.new (filter_map R.shown (blocks_of table.now)) }
{
    fill(IvrsBlocks::over(table).blocks(), &Nothing, out)
}

// An IVHD, of each of its types, is a unit (section 5.2).
impl IvrsRecord for IvrsUnit {
    ghost shown = { ivhd_shown };

    fn of(block: &IvrsBlock<'_>) -> Option<IvrsUnit> {
        Some(block_record(&block.ivhd()?))
    }
}

// An IVMD is memory that has its own rules (section 5.2).
impl IvrsRecord for IvrsMemory {
    ghost shown = { ivmd_shown };

    fn of(block: &IvrsBlock<'_>) -> Option<IvrsMemory> {
        match block.fields()? {
            IvrsFields::Ivmd(range) => Some(memory_record(&range)),
            IvrsFields::Ivhd(_) => None,
        }
    }
}
