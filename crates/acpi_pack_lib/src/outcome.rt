//! What becomes of a run: what is printed, what is saved, and the status.
ghost use Rattle.std.specs.Prelude.{◌≡◌, ◌++◌, true, IfErr, IfOk, OnOk, Ok, map, string_bytes};
ghost use Rattle.acpi_pack_lib.specs.Words.{contents, entries_left, HasNoPlain, IsFormOf, Packs, RefusesOrRunsOut, file_of, left_out_by, left_out_lines, packed_by, refusal_text, refused_line, refused_name, addresses_of, request_of, sources_for};

use crate::arguments::{Command, Form, Options};
use crate::error::Refusal;
use crate::listing::{name_of, record_lines};
use crate::pack::{dsdt_address, pack_files, pack_tables};
use crate::plain::plain_of;
use crate::sources::{FileBytes, FileRole, FilesOfRole, of_role};
use crate::sums::{all_summed, lent};
use std::alloc::{AllocError, Global};
use std::fmt::Write;

/// What becomes of a run.
#[derive(Drop)]
pub enum Outcome<'w> {
    /// Help or the version is requested: a text for standard output. The status is 0.
    Shown(&'static str),
    /// Nothing is saved: a text for standard error, and the status, 1, or 2 if the arguments are not a command.
    Refused(String, u8),
    /// A file is to be saved. The status is 0 if it is, and else 1.
    Packed {
        /// The command, with the name of the file and the names of those that it is made from.
        command: Command<'w>,
        /// A line for each file that is left out, for standard error.
        left_out: String,
        /// The bytes of the file.
        bytes: Vec<u8>,
        /// The lines of the image's records, for standard output once the file is saved.
        lines: String,
    },
}

/// The image that a command requests.
///
/// Fails as `pack_files` and `pack_tables` do.
fn packed(alloc: Global, form: &Form, files: &[FileBytes<'_>]) -> Result<Vec<u8>, Refusal>
    ensures exact { IfOk result (λ v.
        file_of (packed_by (addresses_of form.now) (contents files.now)) ≡ Ok v.items) }
    ensures refused { IfErr result (λ e.
        RefusesOrRunsOut (packed_by (addresses_of form.now) (contents files.now)) e) }
{
    match form {
        Form::Memory(addresses) => pack_files(alloc, addresses, files),
        Form::Tables => pack_tables(alloc, files),
    }
}

/// Puts a line for each of these files, which are left out.
///
/// Fails if it runs out of memory.
fn put_left_out(
    text: &mut String,
    names: &[&str],
    files: FilesOfRole<'_, '_>,
) -> Result<(), AllocError>
    ensures { OnOk result (string_bytes text.new ≡ string_bytes text.old
        ++ left_out_lines (map (λ n. n.now) names.now) (entries_left files.entry)) }
{
    for file in files {
        let name = name_of(names, file.index);
        writeln!(text, "left out {name}")?;
    }
    Ok(())
}

/// A line for each file of a command that is left out.
///
/// Fails if it runs out of memory.
fn left_out(
    alloc: Global,
    form: &Form,
    names: &[&str],
    files: &[FileBytes<'_>],
) -> Result<String, AllocError>
    ensures { IfOk result (λ t. string_bytes t ≡ left_out_lines (map (λ n. n.now) names.now)
        (left_out_by (addresses_of form.now) (contents files.now))) }
{
    let mut text = String::new(alloc);
    if let Form::Memory(_) = form {
        return Ok(text);
    }
    put_left_out(&mut text, names, of_role(files, FileRole::Unlisted))?;
    if dsdt_address(files).is_none() {
        put_left_out(&mut text, names, of_role(files, FileRole::Dsdt))?;
    }
    Ok(text)
}

/// The name of the file that an error is about.
fn refused_name<'w>(command: &Command<'w>, refusal: Refusal) -> &'w str
    ensures { result.now ≡ refused_name (request_of command.now) refusal }
{
    match refusal {
        Refusal::File(index, _) => name_of(&command.names, index),
        Refusal::NoRoom | Refusal::TooLarge | Refusal::OutOfMemory => command.out,
    }
}

/// Puts the line on a file and its error.
///
/// Fails if it runs out of memory.
fn put_refused(text: &mut String, name: &str, refusal: Refusal) -> Result<(), AllocError>
    ensures { OnOk result (string_bytes text.new ≡ string_bytes text.old
        ++ refused_line name.now (refusal_text refusal)) }
{
    writeln!(text, "refused {name}: {refusal}")?;
    Ok(())
}

/// What is saved of an image: its plain memory if that is requested, and else the image.
///
/// Fails as `plain_of` does.
fn form_of(alloc: Global, options: Options, image: Vec<u8>) -> Result<Vec<u8>, Refusal>
    ensures exact { IfOk result (λ v. IsFormOf options.is_plain image.items v.items) }
    ensures refused { IfErr result (λ e. (options.is_plain ≡ true) × HasNoPlain image.items e) }
{
    if options.is_plain {
        plain_of(alloc, &image)
    } else {
        Ok(image)
    }
}

/// What becomes of a command's files as they are.
///
/// Fails if memory for the lines runs out.
fn outcome_as_is<'w>(
    alloc: Global,
    command: Command<'w>,
    files: &[FileBytes<'_>],
) -> Result<Outcome<'w>, AllocError>
    ensures { IfOk result (λ o. Packs (request_of command.entry) (contents files.now) o) }
{
    let image = match packed(alloc, &command.form, files) {
        Ok(image) => image,
        Err(refusal) => {
            let mut text = String::new(alloc);
            put_refused(&mut text, refused_name(&command, refusal), refusal)?;
            return Ok(Outcome::Refused(text, 1));
        }
    };
    let mut left_out = left_out(alloc, &command.form, &command.names, files)?;
    let Ok(lines) = record_lines(alloc, &command, files, &image) else {
        return Err(AllocError);
    };
    match form_of(alloc, command.options, image) {
        Ok(bytes) => Ok(Outcome::Packed {
            command,
            left_out,
            bytes,
            lines,
        }),
        Err(refusal) => {
            put_refused(&mut left_out, command.out, refusal)?;
            Ok(Outcome::Refused(left_out, 1))
        }
    }
}

/// What becomes of a command's files, with the sums of tables set if that is requested. Faults are found in this
/// order: the errors of `pack_files` or `pack_tables`, and then of plain memory.
///
/// Fails if memory for the lines or for copies of the files runs out.
pub(crate) fn outcome_of<'w>(
    alloc: Global,
    command: Command<'w>,
    files: &[FileBytes<'_>],
) -> Result<Outcome<'w>, AllocError>
    ensures { IfOk result (λ o.
        Packs (request_of command.entry) (sources_for (request_of command.entry) (contents files.now)) o) }
{
    if !command.options.fixes_sums {
        return outcome_as_is(alloc, command, files);
    }
    let copies = all_summed(alloc, files)?;
    let summed = lent(alloc, &copies)?;
    outcome_as_is(alloc, command, &summed)
}
