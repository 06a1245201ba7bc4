//! The program over any files, any storage and any writers.
ghost use Rattle.std.specs.Prelude.{◌≡◌, ◌⊎◌, IfOk, OnErr, map};
ghost use Rattle.acpi_pack_lib.specs.Reads.{AsksFront};
ghost use Rattle.acpi_pack_lib.specs.Words.{Does, IsOutcome, Runs, SavesOutcome, SavesRead, files_named};

use crate::arguments::parse_command;
use crate::files::{Files, count};
use crate::help::{USAGE, help_or_version};
use crate::outcome::{Outcome, outcome_of};
use crate::reading::{contents_from, read_all};
use acpi_cli::storage::Storage;
use std::alloc::{AllocError, Global};
use std::io;
use std::io::Write;

/// What becomes of a run on the arguments after the program's name. If they are a command, the files that it names
/// are read, in order, and else none.
///
/// Fails if memory for anything but the image itself runs out, and requests no other file then.
fn outcome_for<'w, F: Files>(
    alloc: Global,
    arguments: &[&'w str],
    files: &mut F,
) -> Result<Outcome<'w>, AllocError>
    ensures exact { IfOk result (λ o. IsOutcome (map (λ w. w.now) arguments.now)
        (F.asked files.old) (F.asked files.new) o) }
    ensures refused { OnErr result (AsksFront (files_named (map (λ w. w.now) arguments.now))
        (F.asked files.old) (F.asked files.new)) }
{
    if let Some(text) = help_or_version(arguments) {
        return Ok(Outcome::Shown(text));
    }
    let Some(command) = parse_command(alloc, arguments)? else {
        return Ok(Outcome::Refused(String::from_str(alloc, USAGE)?, 2));
    };
    let start = count(files);
    read_all(files, &command.names)?;
    let sources = contents_from(alloc, files, start)?;
    outcome_of(alloc, command, &sources)
}

/// Prints what an outcome has for the outputs, and saves its file, if it has one. It returns the status.
///
/// Fails if a write fails or memory runs out.
pub fn carry_out<S: Storage, W: Write, E: Write>(
    outcome: Outcome<'_>,
    storage: &mut S,
    out: &mut W,
    err: &mut E,
) -> io::Result<u8>
    ensures exact { IfOk result (λ s. Does outcome.entry s
        (record { saved = S.saved storage.old; out = W.contents out.old; err = E.contents err.old })
        (record { saved = S.saved storage.new; out = W.contents out.new; err = E.contents err.new })) }
    ensures failed { OnErr result ((S.saved storage.new ≡ S.saved storage.old)
        ⊎ SavesOutcome outcome.entry (S.saved storage.old) (S.saved storage.new)) }
{
    match outcome {
        Outcome::Shown(text) => {
            out.write_all(text.as_bytes())?;
            Ok(0)
        }
        Outcome::Refused(text, status) => {
            err.write_all(text.as_bytes())?;
            Ok(status)
        }
        Outcome::Packed {
            command,
            left_out,
            bytes,
            lines,
        } => {
            let name = command.out;
            err.write_all(left_out.as_bytes())?;
            match storage.save(name, &command.names, bytes)? {
                Ok(()) => {
                    out.write_all(lines.as_bytes())?;
                    Ok(0)
                }
                Err(refusal) => {
                    writeln!(err, "refused {name}: {refusal}")?;
                    Ok(1)
                }
            }
        }
    }
}

/// Runs the program on the arguments after its name, and returns the status. `--help` and `--version` alone
/// print how the program is called and its version, on the output, and nothing else is done: the status is
/// 0. If other arguments are a command, the files that it names are read, in order, and the image that is
/// made of them is saved; then the lines of its records are printed on the output. The status is 0 if the
/// image is saved, 1 if something fails, and 2 if the arguments are not a command.
///
/// Fails if a write fails, or memory for anything but the image itself. The image is saved by then if its lines, or why
/// it isn't saved, can't be printed; after any other error it isn't.
pub fn pack<F: Files, S: Storage, W: Write, E: Write>(
    alloc: Global,
    arguments: &[&str],
    files: &mut F,
    storage: &mut S,
    out: &mut W,
    err: &mut E,
) -> io::Result<u8>
    // What is read, printed, saved and returned is what is defined.
    ensures exact { IfOk result (λ s. Runs (map (λ w. w.now) arguments.now)
        (F.asked files.old) (F.asked files.new) s
        (record { saved = S.saved storage.old; out = W.contents out.old; err = E.contents err.old })
        (record { saved = S.saved storage.new; out = W.contents out.new; err = E.contents err.new })) }
    // No other file is requested if it fails.
    ensures refused { OnErr result (AsksFront (files_named (map (λ w. w.now) arguments.now))
        (F.asked files.old) (F.asked files.new)) }
    // After an error nothing was to be saved, but for the image if its lines, or why it isn't saved, can't be printed.
    ensures failed { OnErr result ((S.saved storage.new ≡ S.saved storage.old)
        ⊎ SavesRead (map (λ w. w.now) arguments.now) (F.asked files.old) (F.asked files.new)
        (S.saved storage.old) (S.saved storage.new)) }
{
    let outcome = outcome_for(alloc, arguments, files)?;
    carry_out(outcome, storage, out, err)
}
