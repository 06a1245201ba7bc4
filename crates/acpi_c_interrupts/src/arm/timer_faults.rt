//! The structures of platform timers of a GTDT at fault, and where none begins.
ghost use Rattle.std.specs.Prelude.{◌+◌, ◌^◌, ◌<◌, length};
ghost use Rattle.acpi_c_lib.specs.Words.{Fills, Writes};
ghost use Rattle.acpi_c_interrupts.specs.Words.{gtdt_faults_below, gtdt_faults_of};

use acpi_arm::gtdt::{
    Gtdt, frames_end, is_sound, timer_bytes, timer_count, timers_grammar, timers_offset,
};
use acpi_base::bytes::field;
use acpi_base::entries::split_front;
use acpi_c_lib::entry_faults::{EntryFault, entry_fault};
use acpi_c_lib::lists::put;
use acpi_c_lib::opening::first;
use acpi_c_lib::records::Source;
use acpi_c_lib::refusal::Refusal;
use acpi_c_lib::regions::Mapped;

/// Lists of the structures of the first valid GTDT at fault where no frame begins and, last, where no structure does.
pub fn gtdt_faults(source: &Source<'_>, out: &mut [EntryFault]) -> Result<usize, Refusal>
    ensures { Fills result out.old out.new (gtdt_faults_below source.now) }
{
    let memory = Mapped::new(source.regions);
    let gtdt = first::<Gtdt>(&memory, source)?;
    Ok(fill_faults(gtdt.bytes(), gtdt.physical_start(), out))
}

/// Writes the faults of a GTDT's bytes at an address.
#[tactic(auto, using(acpi_c_lib::proofs::FaultLists::front_whole))]
fn fill_faults(table: &[u8], address: u64, out: &mut [EntryFault]) -> usize
    requires { address + length table.now < 2 ^ 64 }
    ensures { Writes result out.old out.new (gtdt_faults_of (address, table.now)) }
{
    let mut rest = timer_bytes(table);
    let mut left = timer_count(table);
    let mut at = address + timers_offset(table) as u64;
    let mut count = 0;
    while let Some((structure, others)) = split_front(&timers_grammar(left), rest) {
        if !is_sound(structure) {
            let end = at + frames_end(structure) as u64;
            let fault = entry_fault(end, structure[0] as u16, Refusal::InvalidTimerLength);
            put(out, count, fault);
            count += 1;
        }
        at += structure.len() as u64;
        left = left.saturating_sub(1);
        rest = others;
    }
    if left > 0 {
        let kind = field(rest, 0, 1) as u16; // Type
        let front = entry_fault(at, kind, Refusal::InvalidTimerLength);
        put(out, count, front);
        count += 1;
    }
    count
}
