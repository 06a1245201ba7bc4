//! The Multiprocessor Wakeup Mailbox, by which the firmware wakes processors (section 5.2.12.19).
ghost use Rattle.std.specs.Prelude.{◌≡◌, ◌+◌, ◌++◌, ◌<◌, ◌∷◌, ℕ, List, [], length, OnErr, OnOk, Option, Result, Some};
ghost use Rattle.acpi.specs.Types.{AcpiError};
ghost use Rattle.acpi.specs.declared.platform.mailbox.MailboxCall.{MailboxCall};
ghost use Rattle.acpi.specs.declared.platform.mailbox.MailboxWrite.{MailboxWrite};

use acpi_base::AcpiResult;

/// One write to a field of a Multiprocessor Wakeup Mailbox (section 5.2.12.19).
#[derive(Clone, Copy, Debug, PartialEq, Eq)]
pub enum MailboxWrite {
    /// Command: what the firmware is to do.
    Command(u16),
    /// ApicId: the id of the local APIC of the processor that the command is for.
    ApicId(u32),
    /// WakeupVector: the physical address that the processor begins to run at.
    WakeupVector(u64),
}

/// One call of a Multiprocessor Wakeup Mailbox (section 5.2.12.19): it is opened, written to, or read.
#[derive(Clone, Copy, Debug, PartialEq, Eq)]
pub enum MailboxCall {
    /// The mailbox was opened at this physical address.
    Opened(u64),
    /// This field of the mailbox was written, with this value.
    Wrote(MailboxWrite),
    /// Command was read.
    Read,
}

/// A Multiprocessor Wakeup Mailbox (section 5.2.12.19), as a kernel or a test reaches it.
///
/// It means five things: for each address what `open` returns there, the address that was
/// opened, the writes since then, for each number i the result of the i-th read from now, and to
/// which state a call leads from which one. Only `open` can fail.
///
/// The values of reads are those that the mailbox is still going to return, whatever is written to it. Who
/// implements this over a real mailbox therefore states beforehand what the firmware is going to write.
/// No proof shows that a real mailbox does so, or reacts at all.
pub trait Mailbox {
    // What `open` returns at each address.
    ghost open_answer: { Self → ℕ → Result (Unit {0}) AcpiError };

    // The address that was opened.
    ghost opened: { Self → Option ℕ };

    // The writes since it was opened, in order.
    ghost writes: { Self → List MailboxWrite };

    // The result of the i-th read from now, counted from 0.
    ghost answer: { Self → ℕ → ℕ };

    // This call leads from the one state to the other.
    ghost called: { Self → MailboxCall → Self → Type 0 };

    /// Opens the mailbox at a physical address, the MailBoxAddress of a Multiprocessor Wakeup entry
    /// (section 5.2.12.19). It then has no writes.
    ///
    /// Fails with any error that its implementor chooses, and then changes nothing.
    fn open(&mut self, address: u64) -> AcpiResult<()>
        ensures answered { result ≡ open_answer self.old address }
        ensures made { OnOk result (called self.old (MailboxCall.Opened address) self.new) }
        ensures unchanged { OnErr result (self.new ≡ self.old) }
        ensures ok { OnOk result ((opened self.new ≡ Some address) × (writes self.new ≡ [])) }
        ensures refused { OnErr result
            ((opened self.new ≡ opened self.old) × (writes self.new ≡ writes self.old)) }
        ensures reads_kept { (i : ℕ) → answer self.new i ≡ answer self.old i }
        ensures answers_kept { (a : ℕ) → open_answer self.new a ≡ open_answer self.old a };

    /// Writes Command, of two bytes (section 5.2.12.19).
    fn write_command(&mut self, command: u16)
        requires { length (writes self.old) < 4 }
        ensures made { called self.old (MailboxCall.Wrote (MailboxWrite.Command command)) self.new }
        ensures written { writes self.new ≡ writes self.old ++ MailboxWrite.Command command ∷ [] }
        ensures opened_kept { opened self.new ≡ opened self.old }
        ensures reads_kept { (i : ℕ) → answer self.new i ≡ answer self.old i }
        ensures answers_kept { (a : ℕ) → open_answer self.new a ≡ open_answer self.old a };

    /// Writes ApicId: the id of the local APIC of the processor that the command is for (section
    /// 5.2.12.19).
    fn write_apic_id(&mut self, id: u32)
        requires { length (writes self.old) < 4 }
        ensures made { called self.old (MailboxCall.Wrote (MailboxWrite.ApicId id)) self.new }
        ensures written { writes self.new ≡ writes self.old ++ MailboxWrite.ApicId id ∷ [] }
        ensures opened_kept { opened self.new ≡ opened self.old }
        ensures reads_kept { (i : ℕ) → answer self.new i ≡ answer self.old i }
        ensures answers_kept { (a : ℕ) → open_answer self.new a ≡ open_answer self.old a };

    /// Writes WakeupVector: the physical address that the processor begins to run at (section 5.2.12.19).
    fn write_wakeup_vector(&mut self, vector: u64)
        requires { length (writes self.old) < 4 }
        ensures made { called self.old (MailboxCall.Wrote (MailboxWrite.WakeupVector vector)) self.new }
        ensures written { writes self.new
            ≡ writes self.old ++ MailboxWrite.WakeupVector vector ∷ [] }
        ensures opened_kept { opened self.new ≡ opened self.old }
        ensures reads_kept { (i : ℕ) → answer self.new i ≡ answer self.old i }
        ensures answers_kept { (a : ℕ) → open_answer self.new a ≡ open_answer self.old a };

    /// Reads Command (section 5.2.12.19). The firmware sets it to 0, Noop, when it has taken the command.
    fn read_command(&mut self) -> u16
        ensures answered { result ≡ answer self.old 0 }
        ensures made { called self.old MailboxCall.Read self.new }
        ensures moved { (i : ℕ) → answer self.new i ≡ answer self.old (i + 1) }
        ensures opened_kept { opened self.new ≡ opened self.old }
        ensures written_kept { writes self.new ≡ writes self.old }
        ensures answers_kept { (a : ℕ) → open_answer self.new a ≡ open_answer self.old a };
}
