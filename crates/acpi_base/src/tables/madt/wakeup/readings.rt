//! Made by scripts/readings: records, as their definitions in specs/ read them from bytes.
ghost use Rattle.acpi_base.specs.MadtEntries.{multiprocessor_wakeup_at};

use super::{EntryHeader, MultiprocessorWakeupEntry};
use crate::PhysicalRecord;
use crate::bytes::{field_in, u16_in};

impl PhysicalRecord for MultiprocessorWakeupEntry {
    const MIN_LENGTH: usize = 16;

    ghost MIN_LENGTH = { 16 };

    ghost reading = { multiprocessor_wakeup_at };

    fn read(bytes: &[u8]) -> Self {
        MultiprocessorWakeupEntry {
            header: EntryHeader::read(bytes),
            mailbox_version: u16_in(bytes, 2), // MailBoxVersion
            mailbox_address: field_in(bytes, 8, 8), // MailBoxAddress
        }
    }
}
