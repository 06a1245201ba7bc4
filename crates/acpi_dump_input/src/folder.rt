//! The tables of a folder.
ghost use Rattle.std.specs.Prelude.{◌≡◌, ◌⊎◌, ◌++◌, ◌<◌, IfOk, OnOk, codes, length, string_bytes};
ghost use Rattle.acpi_dump_input.specs.Given.{GivesTable, GivesTableAt, Grows};
ghost use Rattle.acpi_dump_input.specs.Inputs.{tables_in};

use crate::errors::{Stop, fail, tell};
use crate::kind::Kind;
use crate::order::in_order;
use crate::read::{Reader, Reading};
use crate::sources;
use crate::sources::{Listing, Sources};
use acpi_cli::borrowed;
use std::alloc::{AllocError, Global};

/// The folders beside Linux's tables: of those that were loaded later, and of what tables point to, which may be none.
const INNER: [&str; 2] = ["data", "dynamic"];

/// The name of a folder less a slash at its end.
fn without_slash(folder: &str) -> &str
    ensures { (folder.now ≡ result.now) ⊎ (folder.now ≡ result.now ++ codes "/") }
{
    match folder.strip_suffix('/') {
        Some(name) => name,
        None => folder,
    }
}

/// The path of a file of this name in a folder.
fn path_in(alloc: Global, folder: &str, name: &str) -> Result<String, AllocError>
    ensures { IfOk result (λ p. string_bytes p ≡ folder.now ++ codes "/" ++ name.now) }
{
    Ok(format!(in alloc; "{folder}/{name}")?)
}

impl<S: Sources> Reader<'_, S> {
    /// Adds the tables of a file in a folder. A folder in it is skipped, and so is what is no file or has no tables,
    /// with a message. A file with `.dat` after its name is a table, if it is nothing else.
    #[tactic(auto, using(crate::proofs::Growing::grows_none, crate::proofs::Growing::grows_at))]
    fn add_within(&mut self, path: &str) -> Result<(), Stop>
        ensures { Grows (GivesTableAt S.gives path.now) (tables_in self.old.tables.items)
            (tables_in self.new.tables.items) }
    {
        match self.sources.kind_of(path) {
            Ok(sources::Kind::Folder) => return Ok(()),
            Ok(sources::Kind::Other) => return Ok(tell(self.log, path, &"not a file: skipped")),
            _ => {}
        }
        let reading = Reading {
            kind: None,
            at: None,
            ..self.reading
        };
        let (kind, bytes) = self.read(path, reading)?;
        let kind = match kind {
            None if path.ends_with(".dat") => Some(Kind::Table),
            kind => kind,
        };
        if let Some(Kind::Table | Kind::Text) = kind {
            return self.add(path, kind, bytes);
        }
        tell(self.log, path, &"not a table: skipped");
        Ok(())
    }

    /// Adds the tables of the files of these names in a folder, in the order of their names. What isn't added leaves
    /// the others as they are.
    #[tactic(auto, using(crate::proofs::Growing::grows_none))]
    fn add_names(&mut self, folder: &str, names: &[&str]) -> Result<(), Stop>
        ensures grows { Grows (GivesTable S.gives folder.now) (tables_in self.old.tables.items)
            (tables_in self.new.tables.items) }
        ensures some { OnOk result (length self.old.tables.items < length self.new.tables.items) }
    {
        let before = self.tables.len();
        let mut last = Ok(());
        let place = without_slash(folder);
        for name in &in_order(self.alloc, names)? {
            let name = *name;
            let path = path_in(self.alloc, place, name)?;
            if let Err(stop) = self.add_within(path.as_str()) {
                if let Stop::OutOfMemory = stop {
                    return Err(stop);
                }
                last = Err(stop);
            }
        }
        if self.tables.len() > before {
            return Ok(());
        }
        last?;
        Err(fail(self.log, folder, &"no table in it"))
    }

    /// Adds to the names of what is in a folder those of the files in its folders of tables, after the folder's name.
    fn push_inner(&mut self, folder: &str, names: &mut Vec<String>) -> Result<(), Stop>
        ensures { self.new.tables ≡ self.old.tables }
    {
        for inner in &INNER {
            let path = path_in(self.alloc, without_slash(folder), *inner)?;
            if !matches!(
                self.sources.kind_of(path.as_str()),
                Ok(sources::Kind::Folder)
            ) {
                continue;
            }
            let listing = self.sources.names_in(self.alloc, path.as_str());
            for name in &self.or_report(path.as_str(), listing)?.names {
                let within = path_in(self.alloc, *inner, name.as_str())?;
                names.push(within).map_err(AllocError::from)?;
            }
        }
        Ok(())
    }

    /// Adds the tables of a folder, and of the folders in it in which Linux has more of them.
    ///
    /// Fails, after printing why, if there are none.
    #[tactic(auto, using(crate::proofs::Growing::grows_none))]
    pub(crate) fn add_folder(&mut self, folder: &str) -> Result<(), Stop>
        ensures grows { Grows (GivesTable S.gives folder.now) (tables_in self.old.tables.items)
            (tables_in self.new.tables.items) }
        ensures some { OnOk result (length self.old.tables.items < length self.new.tables.items) }
    {
        let listing = self.sources.names_in(self.alloc, folder);
        let Listing { mut names, unnamed } = self.or_report(folder, listing)?;
        self.push_inner(folder, &mut names)?;
        if unnamed > 0 {
            let what = format_args!("names that are not UTF-8, not shown: {unnamed}");
            fail(self.log, folder, &what);
        }
        let names = borrowed(self.alloc, &names)?;
        self.add_names(folder, &names)
    }
}
