//! Calls about a type of table: `find` (where the first valid one is), `faults` and `all` (where each is, with the
//! most items to print), `whole` (its bytes), `lent` (how many are mapped of it), and those over
//! its bytes (`tables`).

use crate::out::Out;
use crate::tables;
use crate::words::{first_word, number_of};
use crate::wsmt::Wsmt;
use acpi::bgrt::Bgrt;
use acpi::fadt::Fadt;
use acpi::hpet::HpetTable;
use acpi::madt::Madt;
use acpi::mcfg::Mcfg;
use acpi::spcr::Spcr;
use acpi::{AcpiHandler, AcpiTable, AcpiTables};
use acpi_arm::gtdt::Gtdt;
use acpi_iommu::{Dmar, Ivrs};
use acpi_numa::{Slit, Srat};

/// Prints what a call returns about a type of table.
pub(super) fn answer<H: AcpiHandler>(
    out: Out<'_>,
    tables: &AcpiTables<'_, H>,
    kind: &str,
    call: &str,
) {
    match kind {
        "fadt" => of_type::<Fadt, H>(out, tables, kind, call),
        "madt" => of_type::<Madt, H>(out, tables, kind, call),
        "hpet" => of_type::<HpetTable, H>(out, tables, kind, call),
        "mcfg" => of_type::<Mcfg, H>(out, tables, kind, call),
        "bgrt" => of_type::<Bgrt, H>(out, tables, kind, call),
        "spcr" => of_type::<Spcr, H>(out, tables, kind, call),
        "wsmt" => of_type::<Wsmt, H>(out, tables, kind, call),
        "gtdt" => of_type::<Gtdt, H>(out, tables, kind, call),
        "srat" => of_type::<Srat, H>(out, tables, kind, call),
        "slit" => of_type::<Slit, H>(out, tables, kind, call),
        "dmar" => of_type::<Dmar, H>(out, tables, kind, call),
        "ivrs" => of_type::<Ivrs, H>(out, tables, kind, call),
        _ => out.print(&"no such call"),
    }
}

fn of_type<T: AcpiTable, H: AcpiHandler>(
    out: Out<'_>,
    tables: &AcpiTables<'_, H>,
    kind: &str,
    call: &str,
) {
    let (call, rest) = first_word(call);
    let most = number_of(rest) as usize;
    match call {
        "faults" => out.list(tables.faults::<T>().take(most)),
        "all" => {
            for table in tables.find_tables::<T>().take(most) {
                out.place(&table);
            }
        }
        _ => match tables.find_table::<T>() {
            Err(refusal) => out.show(&refusal),
            Ok(table) => match call {
                "find" => out.place(&table),
                "whole" => out.bytes(table.bytes()),
                "lent" => out.show(&table.mapped_length()),
                _ => tables::answer(out, kind, table.bytes(), (call, rest)),
            },
        },
    }
}
