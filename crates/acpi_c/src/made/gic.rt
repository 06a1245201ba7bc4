//! Made by scripts/exports of include/zacpi.h, which has what each call does.
ghost use Rattle.acpi_c_interrupts.specs.Words.{below_gic, cpu_interfaces_shown, distributor_below, msi_frames_shown, redistributors_shown, translation_services_shown};
ghost use Rattle.acpi_c_lib.specs.Words.{Answers, AnswersList, AnswersListFrom};

use acpi_c_interrupts::arm::gic::{distributor, parts, parts_from};
use acpi_c_interrupts::arm::records::{
    GicCpuInterface, GicDistributor, GicMsiFrame, GicTranslationService,
};
use acpi_c_lib::answer::answer;
use acpi_c_lib::records::{Range, Signature, Source};

/// Returns the distributor of the first GICD.
#[unsafe(no_mangle)]
pub extern "C" fn zacpi_1_get_gic_distributor(
    source: &Source<'_>,
    out: &mut GicDistributor,
    named: &mut Signature,
) -> u32
    ensures { Answers result out.old out.new named.old named.new (distributor_below source.now) }
{
    answer(distributor(source), out, named)
}

/// Lists the GICCs.
#[unsafe(no_mangle)]
pub extern "C" fn zacpi_1_list_gic_cpu_interfaces(
    source: &Source<'_>,
    out: &mut [GicCpuInterface],
    count: &mut usize,
    named: &mut Signature,
) -> u32
    ensures { AnswersList result out.old out.new count.old count.new named.old named.new
        (below_gic source.now cpu_interfaces_shown) }
{
    answer(parts(source, out), count, named)
}

/// Lists the items of zacpi_list_gic_cpu_interfaces from the `from`-th on, from 0 on; `count` is of all.
#[unsafe(no_mangle)]
pub extern "C" fn zacpi_1_list_gic_cpu_interfaces_from(
    source: &Source<'_>,
    from: usize,
    out: &mut [GicCpuInterface],
    count: &mut usize,
    named: &mut Signature,
) -> u32
    ensures { AnswersListFrom from result out.old out.new count.old count.new named.old named.new
        (below_gic source.now cpu_interfaces_shown) }
{
    answer(parts_from(source, from, out), count, named)
}

/// Lists the memory that contains redistributors.
#[unsafe(no_mangle)]
pub extern "C" fn zacpi_1_list_gic_redistributors(
    source: &Source<'_>,
    out: &mut [Range],
    count: &mut usize,
    named: &mut Signature,
) -> u32
    ensures { AnswersList result out.old out.new count.old count.new named.old named.new
        (below_gic source.now redistributors_shown) }
{
    answer(parts(source, out), count, named)
}

/// Lists the ITS entries.
#[unsafe(no_mangle)]
pub extern "C" fn zacpi_1_list_gic_translation_services(
    source: &Source<'_>,
    out: &mut [GicTranslationService],
    count: &mut usize,
    named: &mut Signature,
) -> u32
    ensures { AnswersList result out.old out.new count.old count.new named.old named.new
        (below_gic source.now translation_services_shown) }
{
    answer(parts(source, out), count, named)
}

/// Lists the GIC MSI Frames.
#[unsafe(no_mangle)]
pub extern "C" fn zacpi_1_list_gic_msi_frames(
    source: &Source<'_>,
    out: &mut [GicMsiFrame],
    count: &mut usize,
    named: &mut Signature,
) -> u32
    ensures { AnswersList result out.old out.new count.old count.new named.old named.new
        (below_gic source.now msi_frames_shown) }
{
    answer(parts(source, out), count, named)
}
