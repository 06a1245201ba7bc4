//! The generic timers of an Arm machine, by the GTDT.
ghost use Rattle.std.specs.Prelude.{◌≡◌, nat_lt, Some, map, refl};
ghost use Rattle.acpi_c_lib.specs.Words.{Fills, Writes, lists_each, lists_by};
ghost use Rattle.acpi_c_interrupts.specs.Words.{each_left, missing_left, frames_left, shown_in, arm_timer_or, arm_timer_record, frame_record, frames_shown, gtdt_below, or_ones, timers_record, timers_shown, watchdog_in, watchdogs_of, watchdogs_shown};

mod shown;

use crate::arm::records;
use crate::arm::records::{ArmTimers, Watchdog};
use acpi_arm::gtdt::{
    ArmTimer, GtFrame, GtFrameIter, Gtdt, PlatformTimer, PlatformTimerIter, TimerStructureIter,
};
use acpi_c_lib::lists::{Listing, fill, fill_from};
use acpi_c_lib::opening::first;
use acpi_c_lib::records::Source;
use acpi_c_lib::refusal::Refusal;
use acpi_c_lib::regions::Mapped;
use shown::{arm_timer_record, frame_record, timers_record, watchdog_record};

/// The timers of every processor, as the first valid GTDT has them.
pub fn arm_timers(source: &Source<'_>) -> Result<ArmTimers, Refusal>
    ensures { result ≡ gtdt_below source.now timers_shown }
{
    let memory = Mapped::new(source.regions);
    let gtdt = first::<Gtdt>(&memory, source)?;
    let is_malformed = end_malformed(PlatformTimerIter::over(gtdt.bytes()));
    Ok(timers_record(&gtdt, is_malformed))
}

/// Whether platform timers end malformed.
fn end_malformed(timers: PlatformTimerIter<'_>) -> bool
    ensures { result ≡ nat_lt 0 (missing_left timers.entry) }
{
    let mut timers = timers;
    'all: while let Some(_) = timers.next() {}
    timers.ended_malformed()
}

/// An address, or all ones for none.
fn or_ones(address: Option<u64>) -> u64
    ensures { result ≡ or_ones address }
{
    address.unwrap_or(u64::MAX)
}

/// A timer, or zeros for none.
fn timer_or(timer: Option<ArmTimer>) -> records::ArmTimer
    ensures { result ≡ arm_timer_or timer }
{
    match timer {
        Some(timer) => arm_timer_record(&timer),
        None => records::ArmTimer::default(),
    }
}

/// Lists the frames of the blocks of timers that the first valid GTDT has.
pub fn frames(source: &Source<'_>, out: &mut [records::GtFrame]) -> Result<usize, Refusal>
    ensures { Fills result out.old out.new (gtdt_below source.now frames_shown) }
{
    let memory = Mapped::new(source.regions);
    let gtdt = first::<Gtdt>(&memory, source)?;
    Ok(fill_frames(gtdt.bytes(), out))
}

/// The frames of all blocks of a GTDT.
#[tactic(auto, using(crate::proofs::TimerLists::frames_few, acpi_c_lib::proofs::Written::put_parts))]
fn fill_frames(table: &[u8], out: &mut [records::GtFrame]) -> usize
    ensures { Writes result out.old out.new (frames_shown table.now) }
{
    let mut count = 0;
    for timer in TimerStructureIter::over(table) {
        if let PlatformTimer::GtBlock(block) = timer {
            count = fill_from(block.frames, &block.address, out, count);
        }
    }
    count
}

impl Listing<u64, records::GtFrame> for GtFrameIter<'_> {
    ghost record_of = { λ block f. Some (frame_record block f) };

    ghost left = { λ block s. map (frame_record block) (frames_left s) };

    ghost gives_first = { λ block. lists_each (frame_record block) (λ s. frames_left s) };

    fn record(block: &u64, frame: GtFrame) -> Option<records::GtFrame>
        ensures { result ≡ Some (frame_record block.now frame) }
    {
        Some(frame_record(*block, &frame))
    }
}

/// Lists the watchdogs that the first valid GTDT has.
#[tactic(auto, using(crate::proofs::TimerLists::watchdogs_few))]
pub fn watchdogs(source: &Source<'_>, out: &mut [Watchdog]) -> Result<usize, Refusal>
    ensures { Fills result out.old out.new (gtdt_below source.now watchdogs_shown) }
{
    let memory = Mapped::new(source.regions);
    let gtdt = first::<Gtdt>(&memory, source)?;
    Ok(fill(TimerStructureIter::over(gtdt.bytes()), &(), out))
}

impl Listing<(), Watchdog> for TimerStructureIter<'_> {
    ghost record_of = { λ known x. watchdog_in (shown_in x) };

    ghost left = { λ known s. watchdogs_of (each_left s) };

    ghost gives_first = { λ known s item t given. lists_by shown_in watchdog_in watchdogs_of (λ x. each_left x)
        refl (λ x xs. refl) s item t given };

    fn record(_known: &(), timer: PlatformTimer<'_>) -> Option<Watchdog> {
        match timer {
            PlatformTimer::SbsaWatchdog(watchdog) => Some(watchdog_record(&watchdog)),
            PlatformTimer::GtBlock(_) => None,
        }
    }
}
