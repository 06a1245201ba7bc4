//! Made by scripts/shown: records for C, and what is written of C's, as definitions in specs/ have them.
ghost use Rattle.std.specs.Prelude.{◌≡◌};
ghost use Rattle.acpi_c_interrupts.specs.WrittenGtdt.{frame_of, timer_of, watchdog_of};

use crate::arm::records::{ArmTimer, GtFrame, Watchdog};
use crate::writing::gtdt::base;
use crate::writing::madt::{polarity, trigger};
use acpi_arm::gtdt::{SbsaWatchdog, TimerInterrupt};

pub(crate) fn timer_of(t: &ArmTimer) -> acpi_arm::gtdt::ArmTimer
    ensures { result ≡ timer_of t.now }
{
    acpi_arm::gtdt::ArmTimer {
        interrupt: t.interrupt,
        trigger_mode: trigger(t.trigger),
        polarity: polarity(t.polarity),
        always_on: t.always_on != 0,
    }
}

pub(crate) fn frame_of(f: &GtFrame) -> acpi_arm::gtdt::GtFrame
    ensures { result ≡ frame_of f.now }
{
    acpi_arm::gtdt::GtFrame {
        number: f.number,
        base: f.address,
        el0_base: base(f.el0_address),
        physical_timer: TimerInterrupt {
            interrupt: f.physical_interrupt,
            trigger_mode: trigger(f.physical_trigger),
            polarity: polarity(f.physical_polarity),
        },
        virtual_timer: TimerInterrupt {
            interrupt: f.virtual_interrupt,
            trigger_mode: trigger(f.virtual_trigger),
            polarity: polarity(f.virtual_polarity),
        },
        is_secure: f.is_secure != 0,
        is_always_on: f.is_always_on != 0,
    }
}

pub(crate) fn watchdog_of(w: &Watchdog) -> SbsaWatchdog
    ensures { result ≡ watchdog_of w.now }
{
    SbsaWatchdog {
        refresh_frame: w.refresh_frame,
        control_frame: w.control_frame,
        interrupt: w.interrupt,
        trigger_mode: trigger(w.trigger),
        polarity: polarity(w.polarity),
        is_secure: w.is_secure != 0,
    }
}
