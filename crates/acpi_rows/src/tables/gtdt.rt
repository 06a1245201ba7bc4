//! The timers that a GTDT describes: `record`, for each processor, and `platform`, for the machine.

use crate::out::Out;
use acpi::{AcpiTable, PhysicalRecord};
use acpi_arm::gtdt::{Gtdt, PlatformTimer, PlatformTimerIter};

/// Prints what a GTDT contains.
pub(super) fn answer(out: Out<'_>, bytes: &[u8], call: &str) {
    if bytes.len() < 96 {
        return out.print(&"short");
    }
    if call == "platform" {
        return platform(out, PlatformTimerIter::over(bytes));
    }
    let table = Gtdt::read(bytes);
    out.spread(&(
        table.validate(bytes),
        (table.counter_control_base(), table.counter_read_base()),
        ("secure el1", table.secure_el1_timer),
        ("non-secure el1", table.non_secure_el1_timer),
        ("virtual el1", table.virtual_el1_timer),
        ("el2", table.el2_timer),
        ("virtual el2", table.virtual_el2_timer()),
    ));
}

/// Blocks of timers, each with its address and its frames, and watchdogs, and whether they end malformed.
fn platform(out: Out<'_>, mut timers: PlatformTimerIter<'_>) {
    for timer in timers.by_ref() {
        if let PlatformTimer::SbsaWatchdog(watchdog) = timer {
            out.show(&watchdog);
        } else if let PlatformTimer::GtBlock(block) = timer {
            out.show(&("block", block.address));
            out.list(block.frames);
        }
    }
    out.show(&timers.ended_malformed());
}
