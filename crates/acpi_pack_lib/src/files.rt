//! Files as a program requests them: each name that it requests is listed, with the bytes that were read.
ghost use Rattle.std.specs.Prelude.{◌≡◌, ◌++◌, ◌∷◌, ℕ, List, [], OnErr, OnOk, Option, length, map, option_copied};
ghost use Rattle.acpi_pack_lib.specs.Reads.{FileRead, read_of};

use std::alloc::AllocError;
use std::fs;

/// A file that was requested: its name, and the bytes that were read of it, if it can be read.
#[derive(Drop)]
pub struct Reading {
    name: String,
    content: Option<Vec<u8>>,
}

impl Reading {
    /// The bytes of the file, or `None` if it can't be read.
    pub fn content(&self) -> Option<&[u8]>
        ensures { option_copied result ≡ (read_of self.now).content }
    {
        match &self.content {
            Some(bytes) => Some(bytes.as_slice()),
            None => None,
        }
    }
}

/// Files, as a program or a test reaches them. It means one thing: the list of all files that were
/// requested, in order, each by its name, with what was read of it.
pub trait Files {
    ghost asked: { Self → List FileRead };

    /// Reads the file of a name, and keeps its bytes.
    ///
    /// Fails if memory for the list runs out, and then requests no file.
    fn read(&mut self, name: &str) -> Result<(), AllocError>
        ensures asked { OnOk result ((content : Option (List ℕ)) × (asked self.new
            ≡ asked self.old ++ record { name = name.now; content = content } ∷ [])) }
        ensures refused { OnErr result (asked self.new ≡ asked self.old) };

    /// All files that were requested, in order, each with the bytes that were read of it.
    fn readings(&self) -> &[Reading]
        ensures { map read_of result.now ≡ asked self.now };
}

/// The files of the system that the program runs on.
#[derive(Drop)]
pub struct HostFiles<'r> {
    rt: &'r HostRuntime,
    readings: Vec<Reading>,
}

impl<'r> HostFiles<'r> {
    ghost use Rattle.std.specs.Prelude.{◌≡◌, []};

    /// The files of the system, of which none was requested yet.
    pub fn new(rt: &'r HostRuntime) -> HostFiles<'r>
        ensures { ⟦<HostFiles<'r> as Files>⟧.asked result ≡ [] }
    {
        HostFiles {
            rt,
            readings: Vec::new(rt.alloc()),
        }
    }
}

/// Lists each name with the bytes that the system gave for it.
impl Files for HostFiles<'_> {
    ghost use Rattle.std.specs.Prelude.{map};
    ghost use Rattle.acpi_pack_lib.specs.Reads.{read_of};

    ghost asked = { λ f. map read_of f.readings.items };

    fn read(&mut self, name: &str) -> Result<(), AllocError> {
        let kept = String::from_str(self.rt.alloc(), name)?;
        self.readings.reserve(1)?;
        let content = fs::read(self.rt, name).ok();
        let reading = Reading {
            name: kept,
            content,
        };
        let Ok(()) = self.readings.push(reading) else {
            unreachable!()
        };
        Ok(())
    }

    fn readings(&self) -> &[Reading] {
        &self.readings
    }
}

/// How many files were requested.
pub fn count<F: Files>(files: &F) -> usize
    ensures { result ≡ length (F.asked files.now) }
{
    files.readings().len()
}

/// The bytes that were read of the file that was requested last, or `None` if it can't be read.
pub fn last_content<F: Files>(files: &F) -> Option<&[u8]>
    ensures { (before : List FileRead) (last : FileRead) → F.asked files.now ≡ before ++ last ∷ []
        → option_copied result ≡ last.content }
{
    files.readings().last()?.content()
}
