//! Waking a processor by the Multiprocessor Wakeup Mailbox (section 5.2.12.19).
ghost use Rattle.std.specs.Prelude.{◌≡◌, ℕ, [], MatchResult, Ok};
ghost use Rattle.acpi.specs.Words.{AllowsBelow, FootprintBelow, IsWakeup, lookup_ranges, madt_kind, of_tables, Makes, MakesUntilWoken, WakesOrWaits, mailbox_found, reads};

use super::mailbox::Mailbox;
use crate::tables::AcpiTables;
use acpi_base::madt::{Madt, MadtError, MpProtectedModeWakeupCommand};
use acpi_base::{AcpiError, AcpiResult, Lender};

/// Wakes the processor with a local APIC id by the Multiprocessor Wakeup Mailbox (section 5.2.12.19): the
/// firmware is requested to let it run at the vector, a physical address. The mailbox is that of the first
/// Multiprocessor Wakeup entry of the first valid MADT. It gets Command 0 (Noop), ApicId, WakeupVector and
/// Command 1 (Wakeup), in this order; then Command is read until it is 0, at most `timeout_loops` times.
///
/// Fails, in this order, with `TableMissing` if no valid MADT is listed, with the error of
/// `get_mpwk_mailbox_addr`, with that of the mailbox's `open`, each without a write or
/// a read, and with `InvalidMadt(WakeupApsTimeout)` if no read is 0.
pub fn wakeup_aps<H: Lender, M: Mailbox>(
    tables: &AcpiTables<'_, H>,
    mailbox: &mut M,
    apic_id: u32,
    wakeup_vector: u64,
    timeout_loops: u64,
) -> AcpiResult<()>
    requires { AllowsBelow tables.now (λ m. lookup_ranges m madt_kind) }
    ensures woken { IsWakeup M.open_answer M.opened M.writes M.answer M.called (of_tables tables.now mailbox_found)
        apic_id wakeup_vector timeout_loops mailbox.old result mailbox.new }
    // Where the mailbox is, or why none is found, depends on what the lookup of the MADT depends on.
    ensures footprint { FootprintBelow tables.now (λ m. lookup_ranges m madt_kind) mailbox_found
        (λ expected. of_tables tables.now mailbox_found ≡ expected) }
{
    let address = mailbox_address(tables)?;
    wake(mailbox, address, apic_id, wakeup_vector, timeout_loops)
}

/// The address of the mailbox of the first valid MADT.
///
/// Fails with `TableMissing` if no valid MADT is listed, and then with the error of
/// `get_mpwk_mailbox_addr`.
fn mailbox_address<H: Lender>(tables: &AcpiTables<'_, H>) -> AcpiResult<u64>
    requires { AllowsBelow tables.now (λ m. lookup_ranges m madt_kind) }
    ensures { result ≡ of_tables tables.now mailbox_found }
{
    tables.find_table::<Madt>()?.get_mpwk_mailbox_addr()
}

/// Wakes a processor by the mailbox at an address.
#[tactic(auto, using(crate::proofs::Calls::woken_after, crate::proofs::Calls::makes_append))]
fn wake<M: Mailbox>(
    mailbox: &mut M,
    address: u64,
    apic_id: u32,
    wakeup_vector: u64,
    timeout_loops: u64,
) -> AcpiResult<()>
    ensures { IsWakeup M.open_answer M.opened M.writes M.answer M.called (Ok address) apic_id wakeup_vector
        timeout_loops mailbox.old result mailbox.new }
{
    mailbox.open(address)?;
    mailbox.write_command(MpProtectedModeWakeupCommand::Noop as u16);
    mailbox.write_apic_id(apic_id);
    mailbox.write_wakeup_vector(wakeup_vector);
    mailbox.write_command(MpProtectedModeWakeupCommand::Wakeup as u16);
    wait(mailbox, timeout_loops)
}

/// Reads the command until it is 0, at most `timeout_loops` times. Fails with
/// `InvalidMadt(WakeupApsTimeout)` if no read is 0.
fn wait<M: Mailbox>(mailbox: &mut M, timeout_loops: u64) -> AcpiResult<()>
    ensures answered { WakesOrWaits (M.answer mailbox.old) timeout_loops result (M.answer mailbox.new) }
    ensures made { MatchResult result
        (λ _. MakesUntilWoken M.called (M.answer mailbox.old) mailbox.old [] mailbox.new)
        (λ _. Makes M.called mailbox.old (reads timeout_loops) mailbox.new) }
    ensures opened_kept { M.opened mailbox.new ≡ M.opened mailbox.old }
    ensures written_kept { M.writes mailbox.new ≡ M.writes mailbox.old }
    ensures answers_kept { (a : ℕ) → M.open_answer mailbox.new a ≡ M.open_answer mailbox.old a }
{
    for _read in 0..timeout_loops {
        if mailbox.read_command() == MpProtectedModeWakeupCommand::Noop as u16 {
            return Ok(());
        }
    }
    Err(AcpiError::InvalidMadt(MadtError::WakeupApsTimeout))
}
