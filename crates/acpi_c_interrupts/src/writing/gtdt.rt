//! The GTDT that is written for C (section 5.2.24), from the records as which C reads it.
ghost use Rattle.std.specs.Prelude.{◌≡◌};
ghost use Rattle.acpi_base.specs.FromStd.{list_all};
ghost use Rattle.acpi_table_writer.specs.Gtdt.{FitsStructureBy};
ghost use Rattle.acpi_table_writer.specs.Words.{FitsFrame, frame_bytes, frame_checked};
ghost use Rattle.acpi_c_interrupts.specs.WrittenGtdt as written;

mod shown;

use super::madt::is_wiring;
use crate::arm::records::{ArmTimer, GtFrame};
use crate::written_records::{GtdtContents, PlatformTimer};
use acpi_arm::gtdt;
use acpi_base::model::{Polarity, TriggerMode};
use acpi_table_writer::spelled::Spelled;
use acpi_table_writer::{Checked, GtBlockContents, PlatformTimerContents, WriterError};
use shown::{frame_of, timer_of, watchdog_of};

/// An address, of which all ones mean none.
fn base(address: u64) -> Option<u64>
    ensures { result ≡ written.base address }
{
    (address != u64::MAX).then_some(address)
}

/// The Virtual EL2 Timer, if it is present.
fn virtual_el2(given: &ArmTimer) -> gtdt::ArmTimer
    ensures { result ≡ written.virtual_el2_of given.now }
{
    if given.present == 0 {
        gtdt::ArmTimer {
            interrupt: 0,
            trigger_mode: TriggerMode::Level,
            polarity: Polarity::ActiveHigh,
            always_on: false,
        }
    } else {
        timer_of(given)
    }
}

impl Checked for GtFrame {
    ghost checked = { λ f. frame_checked (written.frame_of f) };

    fn check(&self) -> Result<(), WriterError> {
        frame_of(self).check()
    }
}

impl Spelled for GtFrame {
    ghost spelled = { λ f. frame_bytes (written.frame_of f) };

    ghost fits = { λ f. FitsFrame (written.frame_of f) };

    fn measure(&self, room: usize) -> Option<usize> {
        frame_of(self).measure(room)
    }

    fn put(&self, out: &mut [u8]) {
        frame_of(self).put(out);
    }
}

impl<'a> PlatformTimer<'a> {
    /// The timer of the platform, as the writer has it.
    fn contents(&self) -> PlatformTimerContents<'a, GtFrame>
        ensures { result ≡ written.platform_of self.now }
    {
        if self.kind == 0 {
            PlatformTimerContents::GtBlock(GtBlockContents {
                address: self.block_address,
                frames: self.frames,
            })
        } else {
            PlatformTimerContents::SbsaWatchdog(watchdog_of(&self.watchdog))
        }
    }
}

impl Checked for PlatformTimer<'_> {
    ghost checked = { written.platform_checked };

    fn check(&self) -> Result<(), WriterError> {
        self.contents().check()
    }
}

impl Spelled for PlatformTimer<'_> {
    ghost spelled = { written.platform_bytes };

    ghost fits = { λ t. FitsStructureBy (λ f. FitsFrame (written.frame_of f)) (written.platform_of t) };

    fn measure(&self, room: usize) -> Option<usize> {
        self.contents().measure(room)
    }

    fn put(&self, out: &mut [u8]) {
        self.contents().put(out);
    }
}

/// What the GTDT is to contain, as the writer has it.
pub fn contents<'a>(
    given: &GtdtContents<'a>,
) -> acpi_table_writer::GtdtContents<'a, PlatformTimer<'a>>
    ensures { result ≡ written.contents given.now }
{
    let timers = &given.timers;
    acpi_table_writer::GtdtContents {
        counter_control_base: base(timers.control_base),
        secure_el1_timer: timer_of(&timers.secure_el1),
        non_secure_el1_timer: timer_of(&timers.non_secure_el1),
        virtual_el1_timer: timer_of(&timers.virtual_el1),
        el2_timer: timer_of(&timers.el2),
        counter_read_base: base(timers.read_base),
        virtual_el2_timer: virtual_el2(&timers.virtual_el2),
        platform_timers: given.platform_timers,
    }
}

fn is_wired(timer: &ArmTimer) -> bool
    ensures { result ≡ written.is_wired timer.now }
{
    is_wiring(timer.polarity) && is_wiring(timer.trigger)
}

fn is_frame_wired(frame: &GtFrame) -> bool
    ensures { result ≡ written.is_frame_wired frame.now }
{
    is_wiring(frame.physical_polarity)
        && is_wiring(frame.physical_trigger)
        && is_wiring(frame.virtual_polarity)
        && is_wiring(frame.virtual_trigger)
}

fn are_frames_wired(frames: &[GtFrame]) -> bool
    ensures { result ≡ list_all written.is_frame_wired frames.now }
{
    frames.iter().all(|frame| is_frame_wired(frame))
}

/// Whether the kind of a timer of the platform is one that there is, and so is each polarity and trigger mode.
fn is_platform_wired(timer: &PlatformTimer<'_>) -> bool
    ensures { result ≡ written.is_platform_wired timer.now }
{
    if timer.kind == 0 {
        are_frames_wired(timer.frames)
    } else {
        timer.kind == 1 && is_wiring(timer.watchdog.polarity) && is_wiring(timer.watchdog.trigger)
    }
}

fn are_platform_wired(timers: &[PlatformTimer<'_>]) -> bool
    ensures { result ≡ list_all written.is_platform_wired timers.now }
{
    timers.iter().all(|timer| is_platform_wired(timer))
}

/// Whether each kind, polarity and trigger mode is one that there is, but in a timer that isn't written.
pub fn has_codes(given: &GtdtContents<'_>) -> bool
    ensures { result ≡ written.has_codes given.now }
{
    is_wired(&given.timers.secure_el1)
        && is_wired(&given.timers.non_secure_el1)
        && is_wired(&given.timers.virtual_el1)
        && is_wired(&given.timers.el2)
        && (given.timers.virtual_el2.present == 0 || is_wired(&given.timers.virtual_el2))
        && are_platform_wired(given.platform_timers)
}
