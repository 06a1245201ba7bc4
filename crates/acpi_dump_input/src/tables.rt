//! Tables without memory around them, as files and texts have them.
ghost use Rattle.std.specs.Prelude.{◌≡◌, ◌<◌, OnOk, length};
ghost use Rattle.acpi_dump_input.specs.Given.{Grows, HasTable};
ghost use Rattle.acpi_dump_input.specs.Inputs.{tables_in as bytes_of_tables};

use crate::errors::{Stop, fail};
use crate::kind::{Kind, text_in};
use crate::read::Reader;
use crate::text::{TextError, tables_in, why_wrong};
use std::alloc::AllocError;

/// A table that comes as a file, or as a part of a text.
#[derive(Drop)]
pub struct TableFile {
    /// The name of the file.
    pub name: String,
    /// The physical address that a text has for it.
    pub address: Option<u64>,
    /// Its bytes.
    pub bytes: Vec<u8>,
}

impl<S> Reader<'_, S> {
    /// Adds a table.
    #[tactic(auto, using(crate::proofs::Growing::grows_none, crate::proofs::Growing::grows_one))]
    fn push(&mut self, name: &str, address: Option<u64>, bytes: Vec<u8>) -> Result<(), AllocError>
        ensures grows { Grows (λ t. t ≡ bytes.items) (bytes_of_tables self.old.tables.items)
            (bytes_of_tables self.new.tables.items) }
        ensures some { OnOk result (length self.old.tables.items < length self.new.tables.items) }
    {
        let name = String::from_str(self.alloc, name)?;
        let table = TableFile {
            name,
            address,
            bytes,
        };
        Ok(self.tables.push(table)?)
    }

    /// Adds the tables that a text spells.
    ///
    /// Fails, after saying where it is wrong, if it spells none.
    #[tactic(auto, using(crate::proofs::Growing::grows_none))]
    fn add_text(&mut self, name: &str, bytes: &[u8]) -> Result<(), Stop>
        ensures grows { Grows (HasTable bytes.now) (bytes_of_tables self.old.tables.items)
            (bytes_of_tables self.new.tables.items) }
        ensures some { OnOk result (length self.old.tables.items < length self.new.tables.items) }
    {
        let Some(text) = text_in(bytes) else {
            return Err(fail(self.log, name, &"not a text"));
        };
        match tables_in(self.alloc, text) {
            Ok(spelled) => {
                if spelled.is_empty() {
                    return Err(fail(self.log, name, &"no table in it"));
                }
                for table in spelled {
                    self.push(name, Some(table.address), table.bytes)?;
                }
                Ok(())
            }
            Err(TextError::OutOfMemory) => Err(Stop::OutOfMemory),
            Err(TextError::Line(number)) => {
                let why = why_wrong(self.alloc, text, number)?;
                Err(fail(
                    self.log,
                    name,
                    &format_args!("line {number} is wrong: {why}"),
                ))
            }
        }
    }

    /// Adds the tables that bytes of this kind are.
    ///
    /// Fails, after printing why, if they are none.
    #[tactic(auto, using(crate::proofs::Growing::grows_none, crate::proofs::Growing::grows_whole))]
    pub(crate) fn add(&mut self, name: &str, kind: Option<Kind>, bytes: Vec<u8>) -> Result<(), Stop>
        ensures grows { Grows (HasTable bytes.items) (bytes_of_tables self.old.tables.items)
            (bytes_of_tables self.new.tables.items) }
        ensures some { OnOk result (length self.old.tables.items < length self.new.tables.items) }
    {
        match kind {
            Some(Kind::Text) => self.add_text(name, &bytes),
            Some(Kind::Table) => Ok(self.push(name, None, bytes)?),
            _ => {
                let why = if kind.is_some() {
                    "memory, which stands alone and not beside other inputs"
                } else {
                    "not recognised: --as image, memory, text or table says what it is"
                };
                Err(fail(self.log, name, &why))
            }
        }
    }
}
