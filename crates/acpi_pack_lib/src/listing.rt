//! The lines of the records of an image that is packed.
ghost use Rattle.std.specs.Prelude.{◌≡◌, ◌≢◌, ◌++◌, IfErr, IfOk, None, OnOk, Ok, Err, map, string_bytes};
ghost use Rattle.acpi_base.specs.Words.{Memory};
ghost use Rattle.acpi_image_reader.specs.Words.{records_in, regions_of};
ghost use Rattle.acpi_image_reader.specs.declared.error.ImageError.TheVariants.{OutOfMemory};
ghost use Rattle.acpi_pack_lib.specs.Words.{contents, entries_left, entry_of, AreNamed, label_text, labels_of, name_of, table_label, packed_by, addresses_of};
ghost use Rattle.acpi_pack_lib.specs.Listing as listing;
ghost use Rattle.acpi_pack_lib.specs.declared.listing.Label.TheVariants as label;

use crate::arguments::{Command, Form};
use crate::plain::first_address;
use crate::sources::{FileBytes, FileRole, FilesOfRole, IndexedFile, of_role};
use acpi_base::Signature;
use acpi_base::bytes::filled;
use acpi_image::{ImageError, MemoryImage, Record};
use std::alloc::{AllocError, Global};
use std::fmt;
use std::fmt::Write;

/// The label of a record.
#[derive(Clone, Copy)]
pub(crate) enum Label<'w> {
    /// A name alone.
    Name(&'w str),
    /// The signature of a table, and the name of its file.
    Table(Signature, &'w str),
}

impl fmt::Display for Label<'_> {
    ghost use Rattle.std.specs.Prelude.{Some};

    ghost output = { λ l. Some (label_text l) };

    fn fmt<W: fmt::Write>(&self, f: &mut fmt::Formatter<W>) -> fmt::Result {
        match self {
            Label::Name(name) => f.write_str(name),
            Label::Table(signature, name) => write!(f, "{signature} {name}"),
        }
    }
}

/// The name of the file of this index.
pub(crate) fn name_of<'w>(names: &[&'w str], index: usize) -> &'w str
    ensures { result.now ≡ name_of (map (λ n. n.now) names.now) index }
{
    match names.get(index) {
        Some(name) => *name,
        None => "",
    }
}

/// The label of a table.
fn table_label<'w>(names: &[&'w str], entry: IndexedFile<'_>) -> Label<'w>
    ensures { label_text result ≡ table_label (map (λ n. n.now) names.now) (entry_of entry.entry) }
{
    let signature = Signature::from_bytes(filled(entry.bytes, 0));
    Label::Table(signature, name_of(names, entry.index))
}

/// Puts the labels of the files of a role after those that are there.
///
/// Fails if it runs out of memory.
fn put_labels<'w>(
    labels: &mut Vec<Label<'w>>,
    names: &[&'w str],
    files: FilesOfRole<'_, '_>,
) -> Result<(), AllocError>
    ensures { OnOk result (map label_text labels.new.items ≡ map label_text labels.old.items
        ++ map (table_label (map (λ n. n.now) names.now)) (entries_left files.entry)) }
{
    for table in files {
        labels.push(table_label(names, table))?;
    }
    Ok(())
}

/// The labels of files at addresses: their names.
///
/// Fails if it runs out of memory.
fn range_labels<'w>(alloc: Global, names: &[&'w str]) -> Result<Vec<Label<'w>>, AllocError>
    ensures { IfOk result (λ v. v.items ≡ map (λ n. label.Name n) names.now) }
{
    names.iter().map(|name| Label::Name(*name)).collect(alloc)
}

/// The labels of the records of an image of tables.
///
/// Fails if it runs out of memory.
fn tables_labels<'w>(
    alloc: Global,
    names: &[&'w str],
    files: &[FileBytes<'_>],
) -> Result<Vec<Label<'w>>, AllocError>
    ensures { IfOk result (λ v. map label_text v.items
        ≡ labels_of None (map (λ n. n.now) names.now) (contents files.now)) }
{
    let mut labels = Vec::new(alloc);
    labels.push(Label::Name("RSDP"))?;
    labels.push(Label::Name("XSDT"))?;
    put_labels(&mut labels, names, of_role(files, FileRole::Listed))?;
    put_labels(&mut labels, names, of_role(files, FileRole::Dsdt))?;
    Ok(labels)
}

/// The labels of the records of an image, in order.
///
/// Fails if it runs out of memory.
#[tactic(auto, using(crate::proofs::Packed::names_shown))]
fn labels_of<'w>(
    alloc: Global,
    command: &Command<'w>,
    files: &[FileBytes<'_>],
) -> Result<Vec<Label<'w>>, AllocError>
    ensures { IfOk result (λ v. map label_text v.items ≡ labels_of (addresses_of command.now.form)
        (map (λ n. n.now) command.now.names.items) (contents files.now)) }
{
    match &command.form {
        Form::Memory(_) => range_labels(alloc, &command.names),
        Form::Tables => tables_labels(alloc, &command.names, files),
    }
}

/// The label of the record of this index, or an empty one.
fn label_at<'w>(labels: &[Label<'w>], index: usize) -> Label<'w>
    ensures { label_text result ≡ name_of (map label_text labels.now) index }
{
    match labels.get(index) {
        Some(label) => *label,
        None => Label::Name(""),
    }
}

/// Puts the lines of these records, one for each, in order.
///
/// Fails if it runs out of memory.
fn put_lines(
    text: &mut String,
    labels: &[Label<'_>],
    records: &[Record<'_>],
) -> Result<(), AllocError>
    ensures { OnOk result (string_bytes text.new ≡ string_bytes text.old
        ++ listing.record_lines (map label_text labels.now) 0 (regions_of records.now)) }
{
    for (index, record) in records.iter().enumerate() {
        let label = label_at(labels, index);
        writeln!(text, "0x{:x} {label}", record.start)?;
    }
    Ok(())
}

/// The line of plain memory, if a command requests it, and the lines of the records.
///
/// Fails if it runs out of memory.
fn lines_of(
    alloc: Global,
    command: &Command<'_>,
    labels: &[Label<'_>],
    records: &[Record<'_>],
) -> Result<String, AllocError>
    ensures { IfOk result (λ t. string_bytes t
        ≡ listing.plain_line command.now.options.is_plain command.now.out.now (regions_of records.now)
        ++ listing.record_lines (map label_text labels.now) 0 (regions_of records.now)) }
{
    let mut text = String::new(alloc);
    if command.options.is_plain {
        let name = command.out;
        writeln!(text, "0x{:x} raw {name}", first_address(records))?;
    }
    put_lines(&mut text, labels, records)?;
    Ok(text)
}

/// The lines of the records of an image that a command packed of these files, one for each, in order: the
/// physical address, in hexadecimal digits, and the label. For files at addresses that is the file's name;
/// for tables it is `RSDP`, `XSDT`, or the signature and the file's name. If plain memory is requested, a line comes
/// first with its first address, `raw` and its name.
///
/// Fails as `MemoryImage::from_bytes` does.
#[tactic(auto, using(crate::proofs::Packed::are_named))]
pub fn record_lines(
    alloc: Global,
    command: &Command<'_>,
    files: &[FileBytes<'_>],
    image: &[u8],
) -> Result<String, ImageError>
    // There is a line for each record that is read in the image.
    ensures exact { IfOk result (λ t. listing.listing command.now.options.is_plain command.now.out.now
        (labels_of (addresses_of command.now.form) (map (λ n. n.now) command.now.names.items)
        (contents files.now)) image.now ≡ Ok (string_bytes t)) }
    ensures refused { IfErr result (λ e. e ≢ OutOfMemory → records_in image.now ≡ Err e) }
    // The image that is packed of these files has the bytes of the files that the lines name.
    ensures law { (m : Memory)
        → packed_by (addresses_of command.now.form) (contents files.now) ≡ Ok m
        → AreNamed (addresses_of command.now.form) (contents files.now) m }
{
    let memory = MemoryImage::from_bytes(alloc, image)?;
    let Ok(labels) = labels_of(alloc, command, files) else {
        return Err(ImageError::OutOfMemory);
    };
    match lines_of(alloc, command, &labels, memory.records()) {
        Ok(text) => Ok(text),
        Err(_) => Err(ImageError::OutOfMemory),
    }
}
