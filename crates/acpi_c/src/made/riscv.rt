//! Made by scripts/exports of include/zacpi.h, which has what each call does.
ghost use Rattle.acpi_c_interrupts.specs.Words.{aplic_in, below_riscv, imsic_in, plic_in, rintc_in};
ghost use Rattle.acpi_c_lib.specs.Words.{AnswersList, AnswersListFrom};

use acpi_c_interrupts::riscv::{riscv_entries, riscv_entries_from};
use acpi_c_lib::answer::answer;
use acpi_c_lib::records::{Signature, Source};
use acpi_riscv::{Aplic, Imsic, Plic, Rintc};

/// Each lists the MADT's entries of one Type, up to where none begins, since Length is above the bytes left or below
/// the least of its Type (at ZACPI_NO_APICS). zacpi_list_madt_faults lists the skipped ones, with
/// ZACPI_SHORT_RISCV_ENTRY.
#[unsafe(no_mangle)]
pub extern "C" fn zacpi_1_list_rintcs(
    source: &Source<'_>,
    out: &mut [Rintc],
    count: &mut usize,
    named: &mut Signature,
) -> u32
    ensures { AnswersList result out.old out.new count.old count.new named.old named.new
        (below_riscv source.now rintc_in) }
{
    answer(riscv_entries(source, out), count, named)
}

/// Each lists the MADT's entries of one Type, up to where none begins, since Length is above the bytes left or below
/// the least of its Type (at ZACPI_NO_APICS). zacpi_list_madt_faults lists the skipped ones, with
/// ZACPI_SHORT_RISCV_ENTRY.
#[unsafe(no_mangle)]
pub extern "C" fn zacpi_1_list_imsics(
    source: &Source<'_>,
    out: &mut [Imsic],
    count: &mut usize,
    named: &mut Signature,
) -> u32
    ensures { AnswersList result out.old out.new count.old count.new named.old named.new
        (below_riscv source.now imsic_in) }
{
    answer(riscv_entries(source, out), count, named)
}

/// Each lists the MADT's entries of one Type, up to where none begins, since Length is above the bytes left or below
/// the least of its Type (at ZACPI_NO_APICS). zacpi_list_madt_faults lists the skipped ones, with
/// ZACPI_SHORT_RISCV_ENTRY.
#[unsafe(no_mangle)]
pub extern "C" fn zacpi_1_list_aplics(
    source: &Source<'_>,
    out: &mut [Aplic],
    count: &mut usize,
    named: &mut Signature,
) -> u32
    ensures { AnswersList result out.old out.new count.old count.new named.old named.new
        (below_riscv source.now aplic_in) }
{
    answer(riscv_entries(source, out), count, named)
}

/// Each lists the MADT's entries of one Type, up to where none begins, since Length is above the bytes left or below
/// the least of its Type (at ZACPI_NO_APICS). zacpi_list_madt_faults lists the skipped ones, with
/// ZACPI_SHORT_RISCV_ENTRY.
#[unsafe(no_mangle)]
pub extern "C" fn zacpi_1_list_plics(
    source: &Source<'_>,
    out: &mut [Plic],
    count: &mut usize,
    named: &mut Signature,
) -> u32
    ensures { AnswersList result out.old out.new count.old count.new named.old named.new
        (below_riscv source.now plic_in) }
{
    answer(riscv_entries(source, out), count, named)
}

/// Lists the items of zacpi_list_rintcs from the `from`-th on, from 0 on; `count` is of all.
#[unsafe(no_mangle)]
pub extern "C" fn zacpi_1_list_rintcs_from(
    source: &Source<'_>,
    from: usize,
    out: &mut [Rintc],
    count: &mut usize,
    named: &mut Signature,
) -> u32
    ensures { AnswersListFrom from result out.old out.new count.old count.new named.old named.new
        (below_riscv source.now rintc_in) }
{
    answer(riscv_entries_from(source, from, out), count, named)
}
