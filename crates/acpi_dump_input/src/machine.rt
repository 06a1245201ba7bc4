//! The tables of which a machine has one each.
ghost use Rattle.std.specs.Prelude.{◌<◌, All, Contains, IfOk, length};
ghost use Rattle.acpi_dump_input.specs.Inputs.{tables_in};

use crate::errors::{Log, fail};
use crate::tables::TableFile;
use std::alloc::{AllocError, Global};

/// The letters that a table begins with.
pub fn letters_of(bytes: &[u8]) -> &[u8] {
    bytes.get(..4).unwrap_or(bytes)
}

/// The signatures of which a machine has one table each.
const SINGLE: [&[u8]; 6] = [b"FACP", b"DSDT", b"FACS", b"RSDT", b"XSDT", b"RSD "];

/// The number of the signature of which a machine has one table, if bytes begin with one.
fn single_of(bytes: &[u8]) -> Option<usize> {
    SINGLE
        .iter()
        .position(|letters| letters_of(bytes) == *letters)
}

/// These tables, less each one whose signature another one before it has: it prints which these are.
pub(crate) fn of_one_machine(
    alloc: Global,
    tables: Vec<TableFile>,
    log: &mut Log,
) -> Result<Vec<TableFile>, AllocError>
    ensures same { IfOk result (λ v. All (Contains (tables_in tables.items)) (tables_in v.items)) }
    ensures some { IfOk result (λ v. 0 < length tables.items → 0 < length v.items) }
{
    let mut kept: Vec<TableFile> = Vec::new(alloc);
    let mut firsts = [usize::MAX; 6];
    for table in tables {
        if let Some(single) = single_of(&table.bytes)
            && let Some(place) = firsts.get_mut(single)
        {
            if let Some(first) = kept.get(*place) {
                tell_second(&table, first, log);
                continue;
            }
            *place = kept.len();
        }
        kept.push(table)?;
    }
    Ok(kept)
}

/// Prints that a table isn't shown, beside the first of its signature.
fn tell_second(table: &TableFile, first: &TableFile, log: &mut Log) {
    let (name, other) = (table.name.as_str(), first.name.as_str());
    let letters = str::from_utf8(letters_of(&table.bytes))
        .unwrap_or("")
        .trim_ascii();
    fail(
        log,
        name,
        &format_args!("a second {letters} beside {other}: not shown"),
    );
}
