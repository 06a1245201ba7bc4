//! Calls over tables that are open.
//!
//! - `root`: revision, address, length and signature of the root table;
//! - `headers`, `whole_headers`, `members`, `ssdts` and `ranges`, each of them with the most items to print, and
//!   `after_last`: how many headers and SSDTs there are, and what is returned after the last;
//! - `dsdt`, `facs`, `sleep STATE`, `sdt SIGNATURE` (where the first of these is), `fadt_view` (where the FADT is, and
//!   then, while its bytes are mapped, where it places the DSDT) and `checks` (how often the returned table was
//!   checked);
//! - `hpet_info`, `hpet_address` (where its registers are), and `wake ID READS COMMAND ..`, by a mailbox that has these
//!   commands when read, as often at most;
//! - calls that need memory (`gathered`), and `platforms WAY`, by each of the four calls for a platform;
//! - `KIND CALL`, about a type of table (`types`).

use super::gathered::{InMemory, print_platform};
use super::types;
use crate::heaps::{self, Gathers};
use crate::out::Out;
use crate::watched::Watched;
use crate::words::{first_word, id_of, number_of, signature_of};
use acpi::platform::{PlatformInfo, ScriptedMailbox, wakeup_aps};
use acpi::sdt::{SdtHeader, Signature};
use acpi::{AcpiHandler, AcpiResult, AcpiTables, HpetInfo, TableMember};
use acpi_cli::parse_address;
use acpi_sleep::SleepTables;
use std::alloc::{AllocError, Global};

/// Prints what a call returns over tables.
pub(super) fn answer<H: AcpiHandler>(
    out: Out<'_>,
    tables: &AcpiTables<'_, H>,
    call: &str,
    rest: &str,
) {
    let most = number_of(rest) as usize;
    match call {
        "root" => {
            let place = (tables.root_address(), tables.root_length());
            out.show(&(tables.revision(), place, tables.root_signature()));
        }
        "headers" => out.list(tables.headers().map(front_of).take(most)),
        "whole_headers" => out.list(tables.headers().take(most)),
        "members" => out.list(tables.members().map(member_of).take(most)),
        "ssdts" => out.list(tables.ssdts().take(most)),
        "ranges" => out.list(tables.ranges().take(most)),
        "after_last" => after_last(out, tables),
        "dsdt" => out.show(&tables.dsdt()),
        "facs" => out.show(&tables.facs()),
        "sleep" => out.show(&tables.sleep_types((number_of(rest) % 0x100) as u8)),
        "sdt" => match tables.find_sdt(signature_of(rest)) {
            Ok(table) => out.place(&table),
            Err(refusal) => out.show(&refusal),
        },
        _ => alone(out, tables, call, rest),
    }
}

/// Prints what a call returns that sums tables up, or is about a type of table.
fn alone<H: AcpiHandler>(out: Out<'_>, tables: &AcpiTables<'_, H>, call: &str, rest: &str) {
    match call {
        "fadt_view" => view_fadt(out, tables),
        "checks" => match tables.find_table::<Watched>() {
            Ok(table) => out.show(&table.checks()),
            Err(refusal) => out.show(&refusal),
        },
        "hpet_info" => print_timers(out, HpetInfo::new(tables)),
        "hpet_address" => match HpetInfo::new(tables) {
            Ok(info) => out.show(&info.base_address),
            Err(refusal) => out.show(&refusal),
        },
        "wake" => wake(out, tables, rest),
        "platforms" => platforms(out, tables, number_of(rest)),
        "platform" | "regions" | "gic" | "memory" | "address" | "ecam" | "domain" | "processor" => {
            InMemory { tables, call, rest }.gather(out, out.alloc(), None);
        }
        "heap" => {
            let (size, rest) = first_word(rest);
            let (call, rest) = first_word(rest);
            heaps::over(out, &InMemory { tables, call, rest }, number_of(size));
        }
        _ => types::answer(out, tables, call, rest),
    }
}

/// The signature, length, revision and checksum in a header.
fn front_of(header: SdtHeader) -> (Signature, u32, u8, u8) {
    (
        header.signature,
        header.length,
        header.revision,
        header.checksum,
    )
}

/// Where a member is, and the signature and the length in its header.
fn member_of(member: TableMember) -> (u64, AcpiResult<(Signature, u32)>) {
    let front = match member.header {
        Ok(header) => Ok((header.signature, header.length)),
        Err(refusal) => Err(refusal),
    };
    (member.address, front)
}

fn after_last<H: AcpiHandler>(out: Out<'_>, tables: &AcpiTables<'_, H>) {
    let (mut headers, mut ssdts) = (tables.headers(), tables.ssdts());
    let counts = (headers.by_ref().count(), ssdts.by_ref().count());
    out.show(&(counts, headers.next(), ssdts.next()));
}

fn view_fadt<H: AcpiHandler>(out: Out<'_>, tables: &AcpiTables<'_, H>) {
    match tables.find_fadt() {
        Ok(fadt) => {
            out.show(&fadt.physical_start());
            out.show(&fadt.dsdt_address());
        }
        Err(refusal) => out.show(&refusal),
    }
}

/// Prints a block of timers, and what its id contains.
fn print_timers(out: Out<'_>, info: AcpiResult<HpetInfo>) {
    out.show(&info);
    if let Ok(info) = info {
        let counts = (info.hardware_rev(), info.num_comparators());
        let flags = (info.main_counter_is_64bits(), info.legacy_irq_capable());
        out.show(&("id", counts, flags, info.pci_vendor_id()));
    }
}

/// Prints whether a processor is woken, the mailbox' address, how many writes came, and what else was done to it.
fn wake<H: AcpiHandler>(out: Out<'_>, tables: &AcpiTables<'_, H>, rest: &str) {
    let (apic_id, rest) = first_word(rest);
    let (timeout, answers) = first_word(rest);
    if let Ok(answers) = commands_of(out.alloc(), answers) {
        let mut mailbox = ScriptedMailbox::new(&answers);
        let woken = wakeup_aps(
            tables,
            &mut mailbox,
            id_of(apic_id),
            0x8000,
            number_of(timeout),
        );
        out.spread(&(
            (woken, mailbox.opened(), mailbox.writes().len()),
            mailbox.calls(),
        ));
    }
}

/// The commands that a text lists.
fn commands_of(alloc: Global, text: &str) -> Result<Vec<u16>, AllocError> {
    let mut commands = Vec::new(alloc);
    for word in text.split(' ') {
        if let Some(number) = parse_address(word) {
            commands.push((number % 0x10000) as u16)?;
        }
    }
    Ok(commands)
}

/// Prints what one of the four calls for a platform returns.
fn platforms<H: AcpiHandler>(out: Out<'_>, tables: &AcpiTables<'_, H>, way: u64) {
    let alloc = out.alloc();
    match way {
        0 => print_platform(out, PlatformInfo::new(alloc, tables), None),
        1 => print_platform(out, PlatformInfo::new_in(tables, alloc), None),
        2 => print_platform(out, tables.platform_info(alloc), None),
        _ => print_platform(out, tables.platform_info_in(alloc), None),
    }
}
