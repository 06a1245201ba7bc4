//! Made by scripts/exports of include/zacpi.h, which has what each call does.
ghost use Rattle.acpi_c_devices.specs.Words.{console_below, fixed_below, graphic_below, hpet_below, hpets_below, timer_below};
ghost use Rattle.acpi_c_lib.specs.Words.{Answers, AnswersList, facs_below};

use acpi_c_devices::console::console;
use acpi_c_devices::devices::{graphic, hpet, hpets, timer};
use acpi_c_devices::fixed::fixed;
use acpi_c_devices::fixed::records::{Console, FixedHardware};
use acpi_c_devices::records::{BootGraphic, HpetInfo, PmTimer};
use acpi_c_lib::answer::answer;
use acpi_c_lib::facs::facs;
use acpi_c_lib::records::{Facs, Signature, Source};

/// Returns the fixed hardware of the FADT.
#[unsafe(no_mangle)]
pub extern "C" fn zacpi_1_get_fixed_hardware(
    source: &Source<'_>,
    out: &mut FixedHardware,
    named: &mut Signature,
) -> u32
    ensures { Answers result out.old out.new named.old named.new (fixed_below source.now) }
{
    answer(fixed(source), out, named)
}

/// Returns the FACS of the FADT.
#[unsafe(no_mangle)]
pub extern "C" fn zacpi_1_get_facs(
    source: &Source<'_>,
    out: &mut Facs,
    named: &mut Signature,
) -> u32
    ensures { Answers result out.old out.new named.old named.new (facs_below source.now) }
{
    answer(facs(source), out, named)
}

/// Returns the serial console that the firmware used, by the SPCR.
#[unsafe(no_mangle)]
pub extern "C" fn zacpi_1_get_console(
    source: &Source<'_>,
    out: &mut Console,
    named: &mut Signature,
) -> u32
    ensures { Answers result out.old out.new named.old named.new (console_below source.now) }
{
    answer(console(source), out, named)
}

/// Returns the power management timer of the FADT, which counts at 3.579545 MHz (sections 4.8.3.3 and 5.2.9).
#[unsafe(no_mangle)]
pub extern "C" fn zacpi_1_get_pm_timer(
    source: &Source<'_>,
    out: &mut PmTimer,
    named: &mut Signature,
) -> u32
    ensures { Answers result out.old out.new named.old named.new (timer_below source.now) }
{
    answer(timer(source), out, named)
}

/// Returns the block of event timers of the HPET (IA-PC HPET Specification).
#[unsafe(no_mangle)]
pub extern "C" fn zacpi_1_get_hpet(
    source: &Source<'_>,
    out: &mut HpetInfo,
    named: &mut Signature,
) -> u32
    ensures { Answers result out.old out.new named.old named.new (hpet_below source.now) }
{
    answer(hpet(source), out, named)
}

/// Lists the blocks of all HPETs, but those that aren't in memory.
#[unsafe(no_mangle)]
pub extern "C" fn zacpi_1_list_hpets(
    source: &Source<'_>,
    out: &mut [HpetInfo],
    count: &mut usize,
    named: &mut Signature,
) -> u32
    ensures { AnswersList result out.old out.new count.old count.new named.old named.new (hpets_below source.now) }
{
    answer(hpets(source, out), count, named)
}

/// Returns the image that the firmware showed, by the BGRT (section 5.2.22).
#[unsafe(no_mangle)]
pub extern "C" fn zacpi_1_get_boot_graphic(
    source: &Source<'_>,
    out: &mut BootGraphic,
    named: &mut Signature,
) -> u32
    ensures { Answers result out.old out.new named.old named.new (graphic_below source.now) }
{
    answer(graphic(source), out, named)
}
