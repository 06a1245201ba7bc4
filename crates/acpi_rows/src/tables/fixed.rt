//! Calls over small tables and structures: each prints all that these contain.

use super::front;
use crate::out::Out;
use crate::words::{first_word, signature_of};
use acpi::address::{AccessSize, AddressSpace, GenericAddress};
use acpi::bgrt::Bgrt;
use acpi::mcfg::McfgEntryIter;
use acpi::rsdp::Rsdp;
use acpi::sdt::{SdtHeader, byte_sum};
use acpi::{AcpiTable, PhysicalRecord};
use acpi_base::madt::MpProtectedModeWakeupCommand;

/// Prints what bytes of a kind mean.
pub(super) fn answer(out: Out<'_>, kind: &str, bytes: &[u8], rest: &str) {
    match (kind, bytes) {
        ("address", [..]) => address(out, bytes),
        ("command", [low, high]) => command(out, u16::from_le_bytes([*low, *high])),
        ("bytes", _) => sum(out, bytes, rest),
        ("bgrt", _) => graphic(out, bytes),
        ("header", _) if bytes.len() >= SdtHeader::MIN_LENGTH => {
            out.show(&SdtHeader::read(bytes).validate(signature_of(rest), bytes));
        }
        ("mcfg", _) => regions(out, bytes),
        ("rsdp", _) => rsdp(out, bytes),
        _ => out.print(&"short"),
    }
}

/// The codes in a generic address, and the address.
fn address(out: Out<'_>, bytes: &[u8]) {
    if let Some(raw) = bytes.first_chunk::<12>() {
        out.spread(&(
            AddressSpace::try_from(raw[0]),
            AccessSize::try_from(raw[3]),
            GenericAddress::from_raw(*raw),
        ));
    }
}

/// A wakeup command of a number, and its own number.
fn command(out: Out<'_>, number: u16) {
    match MpProtectedModeWakeupCommand::try_from(number) {
        Ok(command) => out.show(&(command, command as u16)),
        Err(refusal) => out.show(&refusal),
    }
}

/// The sum of `length` bytes from an offset on.
fn sum(out: Out<'_>, bytes: &[u8], range: &str) {
    let (offset, count) = first_word(range);
    let rest = bytes.get(front(bytes, offset).len()..).unwrap_or(&[]);
    out.show(&byte_sum(front(rest, count)));
}

fn graphic(out: Out<'_>, bytes: &[u8]) {
    if bytes.len() < 56 {
        return out.print(&"short");
    }
    let table = Bgrt::read(bytes);
    out.spread(&(
        table.validate(bytes),
        (table.was_displayed(), table.orientation_offset()),
        (table.image_type(), table.image_offset()),
        &table,
    ));
}

/// How many regions there are, each region, and how many are left before the first, after it and after the second.
fn regions(out: Out<'_>, bytes: &[u8]) {
    let mut regions = McfgEntryIter::over(bytes);
    let before = regions.len();
    let first = (regions.next(), regions.len());
    let second = regions.next().is_some();
    let all = McfgEntryIter::over(bytes);
    out.spread(&(
        (before, first, second, regions.len()),
        (all.count(), McfgEntryIter::over(bytes).last()),
    ));
    if before <= 16 {
        out.list(McfgEntryIter::over(bytes));
    }
}

/// Revision and length, both checksums, and the addresses of both root tables.
fn rsdp(out: Out<'_>, bytes: &[u8]) {
    if bytes.len() < 36 {
        return out.print(&"short");
    }
    let rsdp = Rsdp::read(bytes);
    out.spread(&(
        rsdp.validate(bytes),
        (rsdp.signature(), rsdp.oem_id()),
        (rsdp.revision(), rsdp.length()),
        (rsdp.checksum(), rsdp.ext_checksum()),
        (rsdp.rsdt_address(), rsdp.xsdt_address()),
    ));
}
