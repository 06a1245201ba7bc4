//! Made by scripts/exports of include/zacpi.h, which has what each call does.
ghost use Rattle.acpi_c_interrupts.specs.Words.{frames_shown, gtdt_below, gtdt_faults_below, timers_shown, watchdogs_shown};
ghost use Rattle.acpi_c_lib.specs.Words.{Answers, AnswersList};

use acpi_c_interrupts::arm::records::{ArmTimers, GtFrame, Watchdog};
use acpi_c_interrupts::arm::timer_faults::gtdt_faults;
use acpi_c_interrupts::arm::timers::{arm_timers, frames, watchdogs};
use acpi_c_lib::answer::answer;
use acpi_c_lib::entry_faults::EntryFault;
use acpi_c_lib::records::{Signature, Source};

/// Returns the timers of every processor.
#[unsafe(no_mangle)]
pub extern "C" fn zacpi_1_get_arm_timers(
    source: &Source<'_>,
    out: &mut ArmTimers,
    named: &mut Signature,
) -> u32
    ensures { Answers result out.old out.new named.old named.new (gtdt_below source.now timers_shown) }
{
    answer(arm_timers(source), out, named)
}

/// Lists the frames that are in their GT Blocks, up to where no structure begins; below revision 2 none.
#[unsafe(no_mangle)]
pub extern "C" fn zacpi_1_list_gt_frames(
    source: &Source<'_>,
    out: &mut [GtFrame],
    count: &mut usize,
    named: &mut Signature,
) -> u32
    ensures { AnswersList result out.old out.new count.old count.new named.old named.new
        (gtdt_below source.now frames_shown) }
{
    answer(frames(source, out), count, named)
}

/// Lists the Arm Generic Watchdogs, up to where no structure begins; below revision 2 none.
#[unsafe(no_mangle)]
pub extern "C" fn zacpi_1_list_watchdogs(
    source: &Source<'_>,
    out: &mut [Watchdog],
    count: &mut usize,
    named: &mut Signature,
) -> u32
    ensures { AnswersList result out.old out.new count.old count.new named.old named.new
        (gtdt_below source.now watchdogs_shown) }
{
    answer(watchdogs(source, out), count, named)
}

/// Lists where none begins: of each GT Block with frames that aren't in it, no frame, after the frames that are or else
/// at GT Block Timer Offset, at most at the block's end; and last, if structures are missing, no structure, after the
/// structures before or else at Platform Timer Offset, at most at the table's end. entry_type is 0 if Platform Timer
/// Offset is below 96.
#[unsafe(no_mangle)]
pub extern "C" fn zacpi_1_list_gtdt_faults(
    source: &Source<'_>,
    out: &mut [EntryFault],
    count: &mut usize,
    named: &mut Signature,
) -> u32
    ensures { AnswersList result out.old out.new count.old count.new named.old named.new
        (gtdt_faults_below source.now) }
{
    answer(gtdt_faults(source, out), count, named)
}
