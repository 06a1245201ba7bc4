//! Made by scripts/shown: records for C, and what is written of C's, as definitions in specs/ have them.
ghost use Rattle.std.specs.Prelude.{◌≡◌};
ghost use Rattle.acpi_c_interrupts.specs.ArmTimers.{arm_timer_record, frame_record, timers_record, watchdog_record};

use crate::arm::records::{ArmTimer, ArmTimers, GtFrame, Watchdog};
use crate::arm::timers::{or_ones, timer_or};
use acpi_arm::gtdt::{Gtdt, SbsaWatchdog};

pub(crate) fn arm_timer_record(t: &acpi_arm::gtdt::ArmTimer) -> ArmTimer
    ensures { result ≡ arm_timer_record t.now }
{
    ArmTimer {
        interrupt: t.interrupt,
        polarity: t.polarity.code(),
        trigger: t.trigger_mode.code(),
        always_on: t.always_on as u8,
        present: 1,
    }
}

/// A table's fixed fields, and whether its platform timers end malformed.
pub(crate) fn timers_record(t: &Gtdt, is_malformed: bool) -> ArmTimers
    ensures { result ≡ timers_record t.now is_malformed }
{
    ArmTimers {
        control_base: or_ones(t.counter_control_base()),
        read_base: or_ones(t.counter_read_base()),
        secure_el1: arm_timer_record(&t.secure_el1_timer),
        non_secure_el1: arm_timer_record(&t.non_secure_el1_timer),
        virtual_el1: arm_timer_record(&t.virtual_el1_timer),
        el2: arm_timer_record(&t.el2_timer),
        virtual_el2: timer_or(t.virtual_el2_timer()),
        platform_timers_malformed: is_malformed as u8,
        reserved: [0; 7],
    }
}

/// A frame of the block at an address.
pub(crate) fn frame_record(block: u64, f: &acpi_arm::gtdt::GtFrame) -> GtFrame
    ensures { result ≡ frame_record block f.now }
{
    GtFrame {
        block_address: block,
        address: f.base,
        el0_address: or_ones(f.el0_base),
        physical_interrupt: f.physical_timer.interrupt,
        virtual_interrupt: f.virtual_timer.interrupt,
        number: f.number,
        physical_polarity: f.physical_timer.polarity.code(),
        physical_trigger: f.physical_timer.trigger_mode.code(),
        virtual_polarity: f.virtual_timer.polarity.code(),
        virtual_trigger: f.virtual_timer.trigger_mode.code(),
        is_secure: f.is_secure as u8,
        is_always_on: f.is_always_on as u8,
        reserved: 0,
    }
}

pub(crate) fn watchdog_record(w: &SbsaWatchdog) -> Watchdog
    ensures { result ≡ watchdog_record w.now }
{
    Watchdog {
        refresh_frame: w.refresh_frame,
        control_frame: w.control_frame,
        interrupt: w.interrupt,
        polarity: w.polarity.code(),
        trigger: w.trigger_mode.code(),
        is_secure: w.is_secure as u8,
        reserved: 0,
    }
}
