//! The entries of a MADT at fault, and the malformed front that ends them.
ghost use Rattle.std.specs.Prelude.{◌≡◌, ◌+◌, ◌^◌, ◌<◌, ◌≤◌, length};
ghost use Rattle.acpi_c_lib.specs.Words.{Fills, Writes};
ghost use Rattle.acpi_c_interrupts.specs.Words.{IsEntry, madt_layout, madt_fault, madt_faults_below, madt_faults_of, madt_refusal};

use acpi::madt::Madt;
use acpi::{AcpiError, MadtError};
use acpi_base::bytes::skip;
use acpi_base::entries::split_front;
use acpi_base::madt::MADT_GRAMMAR;
use acpi_base::model::MadtItem;
use acpi_c_lib::entry_faults::{EntryFault, entry_fault};
use acpi_c_lib::lists::put;
use acpi_c_lib::opening::first;
use acpi_c_lib::records::Source;
use acpi_c_lib::refusal::Refusal;
use acpi_c_lib::regions::Mapped;
use acpi_riscv::RiscvEntry;

/// Lists the entries of the first valid MADT at fault and, last, the malformed front.
pub fn madt_faults(source: &Source<'_>, out: &mut [EntryFault]) -> Result<usize, Refusal>
    ensures { Fills result out.old out.new (madt_faults_below source.now) }
{
    let memory = Mapped::new(source.regions);
    let madt = first::<Madt>(&memory, source)?;
    Ok(fill_faults(madt.bytes(), madt.physical_start(), out))
}

/// Writes the faults of a MADT's bytes at an address.
#[tactic(auto, using(acpi_c_lib::proofs::FaultLists::front_whole))]
fn fill_faults(table: &[u8], address: u64, out: &mut [EntryFault]) -> usize
    requires fixed { 44 ≤ length table.now }
    requires ends { address + length table.now < 2 ^ 64 }
    ensures { Writes result out.old out.new (madt_faults_of (address, table.now)) }
{
    let grammar = MADT_GRAMMAR;
    let mut rest = skip(table, 44);
    let mut at = address + 44;
    let mut count = 0;
    while let Some((entry, others)) = split_front(&grammar, rest) {
        if let Some(error) = fault_in(entry) {
            put(out, count, entry_fault(at, entry[0] as u16, error));
            count += 1;
        }
        at += entry.len() as u64;
        rest = others;
    }
    if let [kind, ..] = rest {
        let error = refusal(MadtError::InvalidEntryLength);
        put(out, count, entry_fault(at, *kind as u16, error));
        count += 1;
    }
    count
}

fn refusal(error: MadtError) -> Refusal
    ensures { result ≡ madt_refusal error }
{
    Refusal::Acpi(AcpiError::InvalidMadt(error))
}

/// Why an entry is at fault, or `None` if it isn't.
fn fault_in(entry: &[u8]) -> Option<Refusal>
    requires { IsEntry madt_layout entry.now }
    ensures { result ≡ madt_fault entry.now }
{
    if RiscvEntry::is_short(entry) {
        return Some(Refusal::ShortRiscvEntry);
    }
    Some(refusal(MadtItem::fault(entry)?))
}
