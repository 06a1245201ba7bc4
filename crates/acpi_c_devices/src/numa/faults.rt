//! The entries of a SRAT at fault, and the malformed front that ends them.
ghost use Rattle.std.specs.Prelude.{◌≡◌, ◌+◌, ◌^◌, ◌<◌, ◌≤◌, length};
ghost use Rattle.acpi_c_lib.specs.Words.{Fills, Writes};
ghost use Rattle.acpi_c_devices.specs.Words.{IsEntry, srat_layout, srat_fault, srat_faults_below, srat_faults_of};

use acpi_base::bytes::{field, skip};
use acpi_base::entries::split_front;
use acpi_c_lib::entry_faults::{EntryFault, entry_fault};
use acpi_c_lib::lists::put;
use acpi_c_lib::opening::first;
use acpi_c_lib::records::Source;
use acpi_c_lib::refusal::Refusal;
use acpi_c_lib::regions::Mapped;
use acpi_numa::Srat;
use acpi_numa::srat::{SRAT_GRAMMAR, SratEntry};

/// Lists the entries of the first valid SRAT at fault and, last, the malformed front.
pub fn srat_faults(source: &Source<'_>, out: &mut [EntryFault]) -> Result<usize, Refusal>
    ensures { Fills result out.old out.new (srat_faults_below source.now) }
{
    let memory = Mapped::new(source.regions);
    let srat = first::<Srat>(&memory, source)?;
    Ok(fill_faults(srat.bytes(), srat.physical_start(), out))
}

/// Writes the faults of a SRAT's bytes at an address.
#[tactic(auto, using(acpi_c_lib::proofs::FaultLists::front_whole))]
fn fill_faults(table: &[u8], address: u64, out: &mut [EntryFault]) -> usize
    requires fixed { 48 ≤ length table.now }
    requires ends { address + length table.now < 2 ^ 64 }
    ensures { Writes result out.old out.new (srat_faults_of (address, table.now)) }
{
    let grammar = SRAT_GRAMMAR;
    let revision = field(table, 8, 1) as u8; // Revision
    let mut rest = skip(table, 48);
    let mut at = address + 48;
    let mut count = 0;
    while let Some((entry, others)) = split_front(&grammar, rest) {
        if let Some(error) = fault_in(revision, entry) {
            put(out, count, entry_fault(at, entry[0] as u16, error));
            count += 1;
        }
        at += entry.len() as u64;
        rest = others;
    }
    if let [kind, ..] = rest {
        let front = entry_fault(at, *kind as u16, Refusal::InvalidSratEntryLength);
        put(out, count, front);
        count += 1;
    }
    count
}

/// Why an entry is at fault in a table of a revision, or `None` if it isn't.
fn fault_in(revision: u8, entry: &[u8]) -> Option<Refusal>
    requires { IsEntry srat_layout entry.now }
    ensures { result ≡ srat_fault revision entry.now }
{
    let range = SratEntry::read(revision, entry)?.memory_range()?;
    if range.ends_below() {
        return None;
    }
    Some(Refusal::InvalidMemoryRange)
}
