//! Reading the inputs that the arguments name.
ghost use Rattle.std.specs.Prelude.{◌≡◌, ◌∷◌, ◌<◌, [], IfOk, OnOk, length, map};
ghost use Rattle.acpi_dump_input.specs.Given.{GivesTable, Grows, inputs_read};
ghost use Rattle.acpi_dump_input.specs.Inputs.{AreOf, IsImageOf, IsInput, IsMemory, tables_in};

use crate::errors::{Log, Stop, fail, tell};
use crate::kind::Kind;
use crate::machine::of_one_machine;
use crate::memory::image_of;
use crate::order::in_order;
use crate::read::{Reader, Reading};
use crate::sources::Sources;
use crate::tables::TableFile;
use std::alloc::Global;

/// Where Linux shows the machine's own tables.
const OWN: &str = "/sys/firmware/acpi/tables";

/// What inputs are.
#[derive(Drop)]
pub enum Input {
    /// Memory, as an image of `acpi_pack`.
    Memory(Vec<u8>),
    /// Tables without memory around them, in the order in which they are shown.
    Tables(Vec<TableFile>),
}

/// Memory from an address on, as an image.
///
/// Fails, after printing that, if it would end too high.
fn memory_from(name: &str, address: u64, bytes: Vec<u8>, log: &mut Log) -> Result<Input, Stop>
    ensures { IfOk result (IsMemory (IsImageOf bytes.items)) }
{
    if bytes.len() as u64 > u64::MAX - address {
        let why = format_args!("memory from 0x{address:x} on would end above 2^64 - 1");
        return Err(fail(log, name, &why));
    }
    Ok(Input::Memory(image_of(address, bytes)?))
}

impl<S: Sources> Reader<'_, S> {
    /// The input that one word names, which is no folder.
    #[tactic(auto, using(crate::proofs::Growing::image_is_input, crate::proofs::Growing::memory_is_input, crate::proofs::Growing::file_is_input))]
    fn file(mut self, name: &str) -> Result<Input, Stop>
        ensures { IfOk result (λ i. self.entry.tables.items ≡ [] → IsInput S.gives (name.now ∷ []) i) }
    {
        let reading = self.reading;
        // What is said to be an image may be empty.
        if let Some(Kind::Image) = reading.kind {
            return Ok(Input::Memory(self.bytes_of(name)?));
        }
        let (kind, bytes) = self.read(name, reading)?;
        match kind {
            Some(Kind::Image) => Ok(Input::Memory(bytes)),
            Some(Kind::Memory) => memory_from(name, reading.at.unwrap_or(0), bytes, self.log),
            _ => {
                self.add(name, kind, bytes)?;
                self.all()
            }
        }
    }

    /// Adds the tables of a file or a folder.
    #[tactic(auto, using(crate::proofs::Growing::grows_none, crate::proofs::Growing::grows_file))]
    fn add_word(&mut self, name: &str) -> Result<(), Stop>
        ensures grows { Grows (GivesTable S.gives name.now) (tables_in self.old.tables.items)
            (tables_in self.new.tables.items) }
        ensures some { OnOk result (length self.old.tables.items < length self.new.tables.items) }
    {
        let reading = self.reading;
        if self.is_folder(name)? {
            if reading.at.is_some() {
                let why = "a folder, which has no address: --at is for memory";
                return Err(fail(self.log, name, &why));
            }
            return self.add_folder(name);
        }
        let (kind, bytes) = self.read(name, reading)?;
        self.add(name, kind, bytes)
    }

    /// The tables that words name, or folders, in the order of the files' names.
    fn words(mut self, names: &[&str]) -> Result<Input, Stop>
        ensures { IfOk result (λ i. self.entry.tables.items ≡ [] → 0 < length names.now
            → IsInput S.gives (map (λ n. n.now) names.now) i) }
    {
        for name in &in_order(self.alloc, names)? {
            self.add_word(*name)?;
        }
        self.all()
    }

    /// The tables of one machine among those that were read.
    fn all(self) -> Result<Input, Stop>
        ensures { IfOk result (AreOf (tables_in self.entry.tables.items)) }
    {
        let Reader {
            alloc,
            tables,
            log,
            ..
        } = self;
        Ok(Input::Tables(of_one_machine(alloc, tables, log)?))
    }
}

/// The input that words name, or the machine's own tables if there are no words.
///
/// Fails, after printing why, if something isn't there or isn't what it should be, or if memory runs out.
pub fn gather<S: Sources>(
    alloc: Global,
    names: &[&str],
    reading: Reading,
    sources: &mut S,
    log: &mut Log,
) -> Result<Input, Stop>
    ensures { IfOk result (IsInput S.gives (inputs_read (map (λ n. n.now) names.now))) }
{
    let mut reader = Reader {
        alloc,
        reading,
        sources,
        log: &mut *log,
        tables: Vec::new(alloc),
    };
    if names.is_empty() {
        let own = reader.words(&[OWN]);
        if own.is_err() {
            let what = "Linux shows the machine's tables there, to root alone";
            tell(log, OWN, &what);
        }
        return own;
    }
    match names {
        [name] if !reader.is_folder(*name)? => reader.file(*name),
        _ => reader.words(names),
    }
}
