//! A Multiprocessor Wakeup Mailbox whose reads come from a script, for tests and dry runs.
ghost use Rattle.std.specs.Prelude.{◌≤◌, ◌≡◌, ◌<◌, ◌++◌, ◌∷◌, ℕ, [], None, slice_index_or, take, ◌+◌, ◌-◌, ◌^◌, Ok, Some, length, min};

use super::mailbox::{Mailbox, MailboxCall, MailboxWrite};
use acpi_base::AcpiResult;

/// A `Mailbox` (section 5.2.12.19) for tests and dry runs. It can be opened at every address, and its reads
/// return the numbers of its script, in order, and after these with 1 each time. It shows what was done to
/// it: the first 32 calls, the address opened last, the writes since then, and how many reads there were.
#[derive(Drop)]
pub struct ScriptedMailbox<'a> {
    answers: &'a [u16],
    opened: Option<u64>,
    writes: [MailboxWrite; 4],
    written: usize,
    reads: u64,
    calls: [MailboxCall; 32],
    called: usize,
    ghost room: { written ≤ 4 },
    ghost listed: { called ≤ 32 },
}

impl<'a> ScriptedMailbox<'a> {
    ghost use Rattle.acpi.specs.Scripted.{Lists, calls_of, reads_of};
    ghost use Rattle.acpi.specs.declared.platform.mailbox.MailboxCall.{MailboxCall};

    /// A mailbox whose reads return these numbers, in order, and after these 1 each time. It
    /// isn't opened yet.
    pub fn new(answers: &'a [u16]) -> ScriptedMailbox<'a>
        ensures answers { (i : ℕ) → ⟦<ScriptedMailbox<'a> as Mailbox>⟧.answer result i
            ≡ slice_index_or answers.now i 1 }
        ensures opened { ⟦<ScriptedMailbox<'a> as Mailbox>⟧.opened result ≡ None }
        ensures writes { ⟦<ScriptedMailbox<'a> as Mailbox>⟧.writes result ≡ [] }
        ensures reads { reads_of result ≡ 0 }
        ensures calls { calls_of result ≡ [] }
    {
        ScriptedMailbox {
            answers,
            opened: None,
            writes: [MailboxWrite::Command(0); 4],
            written: 0,
            reads: 0,
            calls: [MailboxCall::Read; 32],
            called: 0,
        }
    }

    /// The physical address that was opened last, or `None` if none was.
    pub fn opened(&self) -> Option<u64>
        ensures { result ≡ ⟦<ScriptedMailbox<'a> as Mailbox>⟧.opened self.now }
    {
        self.opened
    }

    /// The writes since the mailbox was opened last, in order.
    pub fn writes(&self) -> &[MailboxWrite]
        ensures { result.now ≡ ⟦<ScriptedMailbox<'a> as Mailbox>⟧.writes self.now }
    {
        &self.writes[..self.written]
    }

    /// The calls that were made of the mailbox, in order: all of them, or the first 32 if there were more.
    pub fn calls(&self) -> &[MailboxCall]
        ensures { result.now ≡ calls_of self.now }
    {
        &self.calls[..self.called]
    }

    /// How many reads there were since the mailbox was made. At 2^64 - 1 the number stays.
    pub fn reads(&self) -> u64
        ensures { result ≡ reads_of self.now }
    {
        self.reads
    }

    /// Lists one more call, if there is room for it.
    fn list(&mut self, call: MailboxCall)
        ensures listed { Lists self.old call self.new }
        ensures written { take self.new.written self.new.writes
            ≡ take self.old.written self.old.writes }
        ensures opened { self.new.opened ≡ self.old.opened }
        ensures answers { self.new.answers.now ≡ self.old.answers.now }
        ensures reads { self.new.reads ≡ self.old.reads }
    {
        if self.called < self.calls.len() {
            self.calls[self.called] = call;
            self.called += 1;
        }
    }

    /// Keeps one more write.
    fn put(&mut self, write: MailboxWrite)
        requires { self.old.written < 4 }
        ensures written { take self.new.written self.new.writes
            ≡ take self.old.written self.old.writes ++ write ∷ [] }
        ensures opened { self.new.opened ≡ self.old.opened }
        ensures answers { self.new.answers.now ≡ self.old.answers.now }
        ensures reads { self.new.reads ≡ self.old.reads }
        ensures listed { Lists self.old (MailboxCall.Wrote write) self.new }
    {
        self.writes[self.written] = write;
        self.written += 1;
        self.list(MailboxCall::Wrote(write));
    }
}

impl<'a> Mailbox for ScriptedMailbox<'a> {
    ghost use Rattle.acpi.specs.Scripted.{Lists, Puts, answer_of, opened_of, reads_of, writes_of};
    ghost use Rattle.acpi.specs.declared.platform.mailbox.MailboxCall.{MailboxCall};
    ghost use Rattle.acpi.specs.declared.platform.mailbox.MailboxWrite.{MailboxWrite};

    ghost open_answer = { λ _ _. Ok tt };

    ghost opened = { λ s. opened_of s };

    ghost writes = { λ s. writes_of s };

    ghost answer = { λ s i. answer_of s i };

    ghost called = { λ s c t. Lists s c t };

    fn open(&mut self, address: u64) -> AcpiResult<()>
        ensures answered { result ≡ Ok tt }
        ensures opened { (opened_of self.new ≡ Some address) × (writes_of self.new ≡ []) }
        ensures reads_kept { (i : ℕ) → answer_of self.new i ≡ answer_of self.old i }
        ensures count_kept { reads_of self.new ≡ reads_of self.old }
        ensures made { Lists self.old (MailboxCall.Opened address) self.new }
    {
        self.opened = Some(address);
        self.written = 0;
        self.list(MailboxCall::Opened(address));
        Ok(())
    }

    fn write_command(&mut self, command: u16)
        requires { length (writes_of self.old) < 4 }
        ensures { Puts self.old (MailboxWrite.Command command) self.new }
    {
        self.put(MailboxWrite::Command(command));
    }

    fn write_apic_id(&mut self, id: u32)
        requires { length (writes_of self.old) < 4 }
        ensures { Puts self.old (MailboxWrite.ApicId id) self.new }
    {
        self.put(MailboxWrite::ApicId(id));
    }

    fn write_wakeup_vector(&mut self, vector: u64)
        requires { length (writes_of self.old) < 4 }
        ensures { Puts self.old (MailboxWrite.WakeupVector vector) self.new }
    {
        self.put(MailboxWrite::WakeupVector(vector));
    }

    fn read_command(&mut self) -> u16
        ensures answered { result ≡ answer_of self.old 0 }
        ensures moved { (i : ℕ) → answer_of self.new i ≡ answer_of self.old (i + 1) }
        ensures opened_kept { opened_of self.new ≡ opened_of self.old }
        ensures written_kept { writes_of self.new ≡ writes_of self.old }
        ensures counted { reads_of self.new ≡ min (reads_of self.old + 1) (2 ^ 64 - 1) }
        ensures made { Lists self.old MailboxCall.Read self.new }
    {
        self.list(MailboxCall::Read);
        self.reads = self.reads.saturating_add(1);
        match self.answers {
            [] => 1,
            [first, rest @ ..] => {
                self.answers = rest;
                *first
            }
        }
    }
}
