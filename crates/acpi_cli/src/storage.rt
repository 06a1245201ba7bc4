//! Storages, in which files are saved: each file that was to be saved is listed, with the result.
ghost use Rattle.std.specs.Prelude.{◌≡◌, ◌++◌, ◌∷◌, List, [], IfOk, OnErr, map, string_bytes};
ghost use Rattle.acpi_cli.specs.Saves.{FileSaved};

use crate::save::{SaveError, save};
use std::alloc::{AllocError, Global};
use std::fs::DirBuilder;
use std::io;
use std::os::unix::fs::DirBuilderExt;

/// A storage in which files are saved, as a program or a test reaches it. It means one thing: the list of all
/// files that were to be saved, in order, each with the result.
pub trait Storage {
    ghost saved: { Self → List FileSaved };

    /// Saves these bytes, which were made of the files of the names in `sources`, under a name, and
    /// returns that they are saved, or the error, as the function `save` does.
    ///
    /// Fails if memory for the list runs out, and then saves nothing.
    fn save(
        &mut self,
        name: &str,
        sources: &[&str],
        bytes: Vec<u8>,
    ) -> Result<Result<(), SaveError>, AllocError>
        ensures saved { IfOk result (λ a. saved self.new ≡ saved self.old ++ record {
          name = name.now;
          sources = map (λ s. s.now) sources.now;
          bytes = bytes.items;
          answer = a;
        } ∷ []) }
        ensures refused { OnErr result (saved self.new ≡ saved self.old) };

    /// Makes a folder that only its owner may use.
    ///
    /// Fails with the error of the system.
    fn make_folder(&mut self, name: &str) -> io::Result<()>
        ensures { saved self.new ≡ saved self.old };
}

/// A file that was to be saved, with the result of `save`.
#[derive(Drop)]
pub(crate) struct Saved {
    name: String,
    sources: Vec<String>,
    bytes: Vec<u8>,
    answer: Result<(), SaveError>,
}

/// The storage of the system that the program runs on.
#[derive(Drop)]
pub struct HostStorage<'r> {
    rt: &'r HostRuntime,
    saved: Vec<Saved>,
}

impl<'r> HostStorage<'r> {
    ghost use Rattle.std.specs.Prelude.{◌≡◌, []};

    /// The storage of the system, in which nothing was saved yet.
    pub fn new(rt: &'r HostRuntime) -> HostStorage<'r>
        ensures { ⟦<HostStorage<'r> as Storage>⟧.saved result ≡ [] }
    {
        HostStorage {
            rt,
            saved: Vec::new(rt.alloc()),
        }
    }
}

/// Copies of these texts.
///
/// Fails if it runs out of memory.
fn copies_of(alloc: Global, texts: &[&str]) -> Result<Vec<String>, AllocError>
    ensures { IfOk result (λ v. map string_bytes v.items ≡ map (λ t. t.now) texts.now) }
{
    let mut copies = Vec::new(alloc);
    for text in texts {
        copies.push(String::from_str(alloc, text)?)?;
    }
    Ok(copies)
}

/// Lists each file with its name, its sources, its bytes, and the result of `save`.
impl Storage for HostStorage<'_> {
    ghost use Rattle.std.specs.Prelude.{map};
    ghost use Rattle.acpi_cli.specs.Saves.{saved_of};

    ghost saved = { λ s. map saved_of s.saved.items };

    fn save(
        &mut self,
        name: &str,
        sources: &[&str],
        bytes: Vec<u8>,
    ) -> Result<Result<(), SaveError>, AllocError> {
        let kept_name = String::from_str(self.rt.alloc(), name)?;
        let kept_sources = copies_of(self.rt.alloc(), sources)?;
        self.saved.reserve(1)?;
        let answer = save(self.rt, name, sources, &bytes);
        let saved = Saved {
            name: kept_name,
            sources: kept_sources,
            bytes,
            answer,
        };
        let Ok(()) = self.saved.push(saved) else {
            unreachable!()
        };
        Ok(answer)
    }

    fn make_folder(&mut self, name: &str) -> io::Result<()> {
        let mut builder = DirBuilder::new();
        builder.mode(0o700);
        builder.create(self.rt, name)
    }
}
