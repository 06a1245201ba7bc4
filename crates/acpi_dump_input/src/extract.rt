//! Files that are saved: tables in one folder, and a page.
ghost use Rattle.std.specs.Prelude.{◌≡◌, ◌∷◌, [], IfOk, IfSome, OnErr, false, true, map, string_bytes};
ghost use Rattle.acpi_dump_input.specs.Extract.{IsNamed, SavesFile, SavesTables, is_partial};

use crate::dumped::print_letters;
use crate::entries::Entry;
use crate::errors::{Log, Stop, fail, fail_with};
use crate::sources::{Kind, Sources, reason_of};
use acpi_cli::storage::Storage;
use acpi_dump_walk::out::Out;
use std::alloc::{AllocError, Global};
use std::io::ErrorKind;

/// How files are saved.
#[derive(Clone, Copy)]
pub struct Saving<'s> {
    pub alloc: Global,
    /// Whether the files replace those that are there.
    pub is_forced: bool,
    /// The names of what the tables were read from.
    pub inputs: &'s [&'s str],
}

/// The path of a file in a folder, or `None` if the name would lead out of it.
fn path_within(alloc: Global, folder: &str, name: &str) -> Result<Option<String>, AllocError>
    ensures { IfOk result (λ o. IfSome o (λ p. IsNamed folder.now name.now (string_bytes p))) }
{
    if name.as_bytes().contains(&b'/') || name.as_bytes().contains(&0) {
        return Ok(None);
    }
    Ok(Some(format!(in alloc; "{folder}/{name}.dat")?))
}

/// Whether files can be saved in a folder. It is made if nothing has its name; if it can't be, that is printed.
fn has_folder<S: Sources, T: Storage>(
    folder: &str,
    sources: &mut S,
    storage: &mut T,
    log: &mut Log,
) -> bool
    ensures none { T.saved storage.new ≡ T.saved storage.old }
    ensures reported { result ≡ false → log.new.is_incomplete ≡ true }
    ensures keeps { log.old.is_incomplete ≡ true → log.new.is_incomplete ≡ true }
{
    let why = match sources.kind_of(folder) {
        Ok(Kind::Folder) => return true,
        Ok(_) => "not a folder",
        Err(refusal) if refusal.kind() == ErrorKind::NotFound => {
            if storage.make_folder(folder).is_ok() {
                return true;
            }
            "no folder can be made there"
        }
        Err(refusal) => reason_of(&refusal),
    };
    fail(log, folder, &why);
    false
}

/// The names of tables' files, less the numbers, each on its line.
fn names_of(alloc: Global, entries: &[Entry<'_>]) -> Out {
    let mut names = Out::new(alloc);
    for entry in entries {
        print_letters(entry.bytes, &mut names);
        names.text("\n");
    }
    names
}

/// Prints the name on a line, with its number among those that are the same if there are several.
fn print_numbered(names: &str, line: usize, out: &mut Out) {
    let Some(name) = names.lines().nth(line) else {
        return;
    };
    let (mut before, mut all) = (0u64, 0u64);
    for (number, other) in names.lines().enumerate() {
        if other == name {
            all = all.saturating_add(1);
            before = before.saturating_add((number <= line) as u64);
        }
    }
    out.text(name);
    if all > 1 {
        write!(out, "{before}");
    }
}

/// Saves a file, or prints why it isn't saved. Returns whether it is.
///
/// Fails if memory runs out.
pub fn save_file<S: Sources, T: Storage>(
    saving: Saving<'_>,
    path: &str,
    bytes: &[u8],
    sources: &mut S,
    storage: &mut T,
    log: &mut Log,
) -> Result<bool, AllocError>
    ensures exact { IfOk result (SavesFile (map (λ i. i.now) saving.entry.inputs.now) path.now bytes.now
        log.new.is_incomplete (T.saved storage.old) (T.saved storage.new)) }
    ensures failed { OnErr result (T.saved storage.new ≡ T.saved storage.old) }
    ensures keeps { log.old.is_incomplete ≡ true → log.new.is_incomplete ≡ true }
{
    match sources.kind_of(path) {
        Ok(_) if !saving.is_forced => {
            fail(log, path, &"it is there: --force replaces it");
            return Ok(false);
        }
        Err(refusal) if refusal.kind() != ErrorKind::NotFound => {
            fail(log, path, &reason_of(&refusal));
            return Ok(false);
        }
        _ => {}
    }
    let bytes = Vec::from_slice(saving.alloc, bytes)?;
    if let Err(refusal) = storage.save(path, saving.inputs, bytes)? {
        fail_with(log, path, &refusal);
        return Ok(false);
    }
    Ok(true)
}

/// Saves a table under a name in a folder, and prints it with the result of its checks, or prints why it isn't saved.
#[tactic(auto, using(crate::proofs::Within::no_table, crate::proofs::Within::one_table))]
fn save_table<S: Sources, T: Storage>(
    saving: Saving<'_>,
    folder: &str,
    name: &str,
    entry: &Entry<'_>,
    sources: &mut S,
    storage: &mut T,
    out: &mut Out,
    log: &mut Log,
) -> Result<(), AllocError>
    ensures exact { SavesTables (map (λ i. i.now) saving.entry.inputs.now) folder.now (entry.now.bytes.now ∷ [])
        (is_partial result log.new.is_incomplete) (T.saved storage.old) (T.saved storage.new) }
    ensures keeps { log.old.is_incomplete ≡ true → log.new.is_incomplete ≡ true }
{
    let Some(path) = path_within(saving.alloc, folder, name)? else {
        fail(log, name, &"not a name of a file");
        return Ok(());
    };
    if save_file(saving, path.as_str(), entry.bytes, sources, storage, log)? {
        write!(out, "{name}.dat: ");
        out.value(&entry.status);
        out.text("\n");
    }
    Ok(())
}

/// Saves each table of which some byte is there as a file of a folder, which is made if it isn't there, or prints why
/// it isn't saved.
///
/// Fails if memory runs out.
#[tactic(auto, using(crate::proofs::Within::no_table, crate::proofs::Within::none_wanted))]
pub fn save_tables<S: Sources, T: Storage>(
    saving: Saving<'_>,
    folder: &str,
    entries: &[Entry<'_>],
    sources: &mut S,
    storage: &mut T,
    out: &mut Out,
    log: &mut Log,
) -> Result<(), Stop>
    ensures { SavesTables (map (λ i. i.now) saving.entry.inputs.now) folder.now (map (λ e. e.bytes.now) entries.now)
        (is_partial result log.new.is_incomplete) (T.saved storage.old) (T.saved storage.new) }
{
    let names = names_of(saving.alloc, entries);
    let Some(names) = names.printed() else {
        return Err(Stop::OutOfMemory);
    };
    if !entries.is_empty() && !has_folder(folder, sources, storage, log) {
        return Ok(());
    }
    for (line, entry) in entries.iter().enumerate() {
        if entry.bytes.is_empty() {
            continue;
        }
        let mut file = Out::new(saving.alloc);
        print_numbered(names, line, &mut file);
        let Some(file) = file.printed() else {
            return Err(Stop::OutOfMemory);
        };
        save_table(saving, folder, file, entry, sources, storage, out, log)?;
    }
    Ok(())
}
