//! The files that a command names, as they are read.
ghost use Rattle.std.specs.Prelude.{◌≡◌, IfOk, OnErr, OnOk, drop, map, option_copied};
ghost use Rattle.acpi_pack_lib.specs.Reads.{Asks, AsksFront, contents_of, read_of};

use crate::files::{Files, Reading};
use std::alloc::{AllocError, Global};

/// Reads the files of these names, each once and in order.
///
/// Fails if memory for the list runs out, and then requests no further file.
pub(crate) fn read_all<F: Files>(files: &mut F, names: &[&str]) -> Result<(), AllocError>
    ensures asked { OnOk result (Asks (map (λ n. n.now) names.now) (F.asked files.old) (F.asked files.new)) }
    ensures refused { OnErr result (AsksFront (map (λ n. n.now) names.now) (F.asked files.old) (F.asked files.new)) }
{
    for name in names {
        files.read(name)?;
    }
    Ok(())
}

/// The bytes that were read of the files that were requested after the first `start` of them, in order, each
/// `None` if the file can't be read.
///
/// Fails if it runs out of memory.
#[tactic(auto, using(std::proofs::lemmas::Grind::common_steps, crate::proofs::Placing::later_read))]
pub(crate) fn contents_from<F: Files>(
    alloc: Global,
    files: &F,
    start: usize,
) -> Result<Vec<Option<&[u8]>>, AllocError>
    ensures { IfOk result (λ v.
        map option_copied v.items ≡ contents_of (drop start (F.asked files.now))) }
{
    let readings = files.readings();
    if start < readings.len() {
        contents(alloc, &readings[start..])
    } else {
        Ok(Vec::new(alloc))
    }
}

/// The bytes that were read of these files, in order.
///
/// Fails if it runs out of memory.
fn contents(alloc: Global, readings: &[Reading]) -> Result<Vec<Option<&[u8]>>, AllocError>
    ensures { IfOk result (λ v.
        map option_copied v.items ≡ map (λ r. (read_of r).content) readings.now) }
{
    let mut contents = Vec::new(alloc);
    for reading in readings {
        contents.push(reading.content())?;
    }
    Ok(contents)
}
