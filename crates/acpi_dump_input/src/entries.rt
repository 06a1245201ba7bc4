//! The tables that an input has, with what their checks say.
ghost use Rattle.std.specs.Prelude.{◌≡◌, ◌++◌, ◌<◌, ◌≤◌, All, IfNone, IfOk, IfSome, OnOk, drop, length, map};
ghost use Rattle.acpi_base.specs.Words.{part, rest_from};
ghost use Rattle.acpi.specs.Words.{pointers_of, root_address_of};
ghost use Rattle.acpi_image_reader.specs.Words.{memory_of};
ghost use Rattle.acpi_dump_input.specs.Inputs.{IsPart, IsRest, tables_in};
ghost use Rattle.acpi_dump_input.specs.Listed.{first_fadt, has_facs, led_to, listed_at, seen, tables_led_to, tables_listed, tables_of};

use crate::candidates::rsdp_in;
use crate::checks::{check_at, check_bytes, check_rsdp, cut_to_length, looked_over};
use crate::status::Status;
use crate::tables::TableFile;
use acpi::fadt::Fadt;
use acpi::sdt::{SdtHeader, Signature};
use acpi::{AcpiError, AcpiResult, AcpiTables, PhysicalRecord};
use acpi_dump_walk::out::Out;
use acpi_dump_walk::walk::has_aml;
use acpi_image_reader::MemoryImage;
use std::alloc::{AllocError, Global};

/// Where a table is.
#[derive(Clone, Copy)]
pub enum Place<'a> {
    /// At a physical address.
    Address(u64),
    /// In a file.
    File(&'a str),
    /// That isn't known.
    Nowhere,
}

impl Place<'_> {
    /// The physical address, if it is at one.
    pub fn address(self) -> Option<u64> {
        match self {
            Place::Address(address) => Some(address),
            _ => None,
        }
    }
}

/// A table of an input, valid or not.
#[derive(Clone, Copy)]
pub struct Entry<'a> {
    pub place: Place<'a>,
    /// The signature that it should have, if that is known.
    pub sought: Option<Signature>,
    /// Its bytes up to its length, as far as they are there.
    pub bytes: &'a [u8],
    pub status: Status,
}

impl<'a> Entry<'a> {
    /// Its bytes up to its Length, or all of them if fewer are there.
    pub fn table(&self) -> &'a [u8] {
        cut_to_length(self.bytes)
    }

    /// The signature that it begins with, if it has four bytes.
    pub fn signature(&self) -> Option<Signature> {
        signature_of(self.bytes)
    }

    /// Whether it contains AML, by the signature that it begins with: also if a check of it fails, or if it should have
    /// another signature.
    pub fn has_aml(&self) -> bool {
        has_aml(own_signature(self.bytes)) && self.bytes.len() >= SdtHeader::MIN_LENGTH
    }

    /// Whether it has a signature, or should have it, in either case.
    pub fn has(&self, wanted: Signature) -> bool {
        let wanted = wanted.to_bytes();
        is_same(self.signature(), &wanted) || is_same(self.sought, &wanted)
    }
}

/// The signature that bytes begin with, if there are four.
pub(crate) fn signature_of(bytes: &[u8]) -> Option<Signature>
    ensures some { IfSome result (λ s. (4 ≤ length bytes.now) × (s.0 ≡ part bytes.now 0 4)) }
    ensures none { IfNone result (length bytes.now < 4) }
{
    match bytes {
        [a, b, c, d, ..] => Some(Signature::from_bytes([*a, *b, *c, *d])),
        _ => None,
    }
}

/// The signature that bytes begin with, or four zeros.
pub fn own_signature(bytes: &[u8]) -> Signature {
    signature_of(bytes).unwrap_or(Signature::from_bytes([0, 0, 0, 0]))
}

/// The header of a table, unless it has none or is cut in it.
pub fn header_of(entry: &Entry<'_>) -> Option<SdtHeader> {
    let is_headless = entry.bytes.starts_with(b"FACS") || entry.bytes.starts_with(b"RSD PTR ");
    if is_headless || entry.bytes.len() < SdtHeader::MIN_LENGTH {
        None
    } else {
        Some(SdtHeader::read(entry.bytes))
    }
}

/// Prints what a table is called and where it is.
pub fn print_name(entry: &Entry<'_>, out: &mut Out) {
    match entry.signature().or(entry.sought) {
        Some(signature) => out.escaped(&signature.to_bytes()),
        None => out.text("-"),
    }
    match entry.place {
        Place::Address(address) => write!(out, " at {address:016x}"),
        Place::File(name) => {
            out.text(" in ");
            out.escaped(name.as_bytes())
        }
        Place::Nowhere => {}
    }
}

/// Whether a signature is these letters in either case.
fn is_same(signature: Option<Signature>, letters: &[u8; 4]) -> bool {
    match signature {
        Some(found) => found
            .to_bytes()
            .as_slice()
            .eq_ignore_ascii_case(letters.as_slice()),
        None => false,
    }
}

/// The RSDP at an address of a memory, in the way of a table.
pub fn rsdp_at<'i>(image: &MemoryImage<'i>, address: u64) -> Entry<'i> {
    let bytes = rsdp_in(bytes_from(image, address));
    Entry {
        place: Place::Address(address),
        sought: None,
        bytes,
        status: check_rsdp(bytes),
    }
}

/// The table in a file.
fn entry_of_file(alloc: Global, file: &TableFile) -> Entry<'_>
    ensures { result.bytes.now ≡ file.now.bytes.items }
{
    let lent = file.bytes.as_slice();
    let place = match file.address {
        Some(address) => Place::Address(address),
        None => Place::File(file.name.as_str()),
    };
    let status = if lent.starts_with(b"RSD PTR ") {
        check_rsdp(lent)
    } else {
        check_bytes(lent)
    };
    Entry {
        place,
        sought: None,
        bytes: lent,
        status: looked_over(alloc, status, lent),
    }
}

/// The tables in files, in order.
///
/// Fails if memory runs out.
pub fn entries_of_files(alloc: Global, files: &[TableFile]) -> Result<Vec<Entry<'_>>, AllocError>
    ensures { IfOk result (λ v. map (λ e. e.bytes.now) v.items ≡ tables_in files.now) }
{
    let mut entries = Vec::new(alloc);
    for file in files {
        entries.push(entry_of_file(alloc, file))?;
    }
    Ok(entries)
}

/// Bytes without the first `count` of them.
fn bytes_after(bytes: &[u8], count: u64) -> &[u8]
    ensures { result.now ≡ drop count bytes.now }
{
    if count <= bytes.len() as u64 {
        &bytes[count as usize..]
    } else {
        &[]
    }
}

/// The bytes of a memory from an address to the end of its record, or none if it is in no record. They are the file's
/// own: the memory isn't asked for them as a handler is, so no notice is due.
pub fn bytes_from<'i>(image: &MemoryImage<'i>, address: u64) -> &'i [u8]
    ensures rest { IsRest (memory_of image.now) result.now }
    ensures exact { result.now ≡ rest_from (memory_of image.now) address }
{
    for record in image.records() {
        if record.start <= address {
            let rest = bytes_after(record.bytes, address - record.start);
            if !rest.is_empty() {
                return rest;
            }
        }
    }
    &[]
}

/// The table at an address, checked under the signature that it should have, or under its own.
#[tactic(auto, using(crate::proofs::Parts::is_table_part))]
pub fn entry_at<'i>(
    alloc: Global,
    image: &MemoryImage<'i>,
    address: u64,
    sought: Option<Signature>,
) -> Entry<'i>
    ensures part { IsPart (memory_of image.now) result.bytes.now }
    ensures exact { seen result ≡ listed_at (memory_of image.now) sought address }
{
    let lent = bytes_from(image, address);
    let bytes = cut_to_length(lent);
    let status = check_at(image, address, sought, lent);
    Entry {
        place: Place::Address(address),
        sought,
        bytes,
        status: looked_over(alloc, status, bytes),
    }
}

/// The table that a FADT leads to, or its refusal to say where.
fn entry_led_to<'i>(
    alloc: Global,
    image: &MemoryImage<'i>,
    address: AcpiResult<u64>,
    signature: Signature,
) -> Entry<'i>
    ensures part { IsPart (memory_of image.now) result.bytes.now }
    ensures exact { seen result ≡ led_to (memory_of image.now) signature address }
{
    match address {
        Ok(address) => entry_at(alloc, image, address, Some(signature)),
        Err(refusal) => Entry {
            place: Place::Nowhere,
            sought: Some(signature),
            bytes: &[],
            status: Status::Refused(refusal),
        },
    }
}

/// The root table, and each table that it lists, once for each of its pointers.
///
/// Fails if memory runs out.
fn entries_listed<'i>(
    alloc: Global,
    image: &MemoryImage<'i>,
    tables: &AcpiTables<'_, MemoryImage<'_>>,
) -> Result<Vec<Entry<'i>>, AllocError>
    ensures parts { IfOk result (λ v. All (IsPart (memory_of image.now)) (map (λ e. e.bytes.now) v.items)) }
    ensures some { IfOk result (λ v. 0 < length v.items) }
    ensures exact { IfOk result (λ v. map seen v.items
        ≡ tables_listed (memory_of image.now) (root_address_of tables.now) (pointers_of tables.now)) }
{
    let mut entries = vec![in alloc; entry_at(alloc, image, tables.root_address(), None)]?;
    for address in tables.addresses() {
        entries.push(entry_at(alloc, image, address, None))?;
    }
    Ok(entries)
}

/// Whether a FADT leads to a FACS. A machine of reduced hardware needn't have one: both fields of its address are 0
/// then (section 5.2.9).
fn has_facs(fadt: &Fadt) -> bool
    ensures { result ≡ has_facs fadt.now }
{
    fadt.facs_address().is_ok() || !fadt.flags.system_is_hw_reduced_acpi()
}

/// Adds the tables that a FADT leads to.
///
/// Fails if memory runs out.
#[tactic(auto, using(crate::proofs::Listing::parts_more, crate::proofs::Listing::seen_more))]
fn push_led_to<'i>(
    entries: &mut Vec<Entry<'i>>,
    alloc: Global,
    image: &MemoryImage<'i>,
    fadt: &Fadt,
) -> Result<(), AllocError>
    ensures parts { All (IsPart (memory_of image.now)) (map (λ e. e.bytes.now) entries.old.items)
        → All (IsPart (memory_of image.now)) (map (λ e. e.bytes.now) entries.new.items) }
    ensures more { length entries.old.items ≤ length entries.new.items }
    ensures exact { OnOk result (map seen entries.new.items
        ≡ map seen entries.old.items ++ tables_led_to (memory_of image.now) fadt.now) }
{
    entries.push(entry_led_to(alloc, image, fadt.dsdt_address(), Signature::DSDT))?;
    if !has_facs(fadt) {
        return Ok(());
    }
    Ok(entries.push(entry_led_to(alloc, image, fadt.facs_address(), Signature::FACS))?)
}

/// The tables that a memory has: the root table, each that it lists, once for each of its pointers, and, if a valid
/// FADT is listed, the DSDT and the FACS that the first one leads to.
///
/// Fails if memory runs out.
pub fn entries_of<'i>(
    alloc: Global,
    image: &MemoryImage<'i>,
    tables: &AcpiTables<'_, MemoryImage<'_>>,
) -> Result<Vec<Entry<'i>>, AllocError>
    ensures parts { IfOk result (λ v. All (IsPart (memory_of image.now)) (map (λ e. e.bytes.now) v.items)) }
    ensures some { IfOk result (λ v. 0 < length v.items) }
    ensures exact { IfOk result (λ v. map seen v.items ≡ tables_of (memory_of image.now)
        (root_address_of tables.now) (pointers_of tables.now) (first_fadt tables.now)) }
{
    let mut entries = entries_listed(alloc, image, tables)?;
    let Ok(fadt) = &tables.find_table::<Fadt>() else {
        return Ok(entries);
    };
    push_led_to(&mut entries, alloc, image, fadt.get())?;
    Ok(entries)
}
