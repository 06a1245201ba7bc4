//! What the program prints, and what it does if a write fails or memory runs out.
//!
//! A call's words are each after a `|`. The bytes are the file (`file`), or the table that the file is an image of
//! (`written-REVISION`); the file of the kind `unreadable` is not read.
//!
//! - `run OUT ERR|WORD..`: the status, the file that the words name, and what is printed to standard output and to
//!   standard error, where the writes or the flush of these numbers fail; then how many writes and flushes of
//!   both came;
//! - `command |WORD..`: the command that the words give;
//! - `heap SIZE TAKEN`: the lines of the platform and of the PCI regions over a heap of SIZE bytes, some of which are
//!   taken before, where the file has an RSDT at 0x1000;
//! - `no_memory`: the status that a run ends with where there is no memory for the image, and the line.

use crate::out::Out;
use crate::words::{first_word, number_of};
use acpi::{AcpiTables, ManagedSlice};
use acpi_cli::root::Root;
use acpi_image::{ImageError, MemoryImage, PlacedTable, write_image};
use acpi_view_lib::arguments::{file_named, parse_command};
use acpi_view_lib::lines::{print_pci, print_platform};
use acpi_view_lib::run::{refused, run};
use linked_list_allocator::LocalHeap;
use std::alloc::{AllocError, Global};
use std::io::{ErrorKind, Write};
use std::{io, str};

/// Prints what a call returns.
pub(crate) fn answer(out: Out<'_>, kind: &str, bytes: &[u8], call: &str, rest: &str) {
    let alloc = out.alloc();
    let file = file_of(alloc, bytes, kind);
    let image = file.as_deref();
    let Ok(words) = split_words(alloc, rest) else {
        return;
    };
    let (first, second) = numbers_before(rest);
    match call {
        "command" => command(out, &words),
        "heap" => over_heap(out, image.unwrap_or(&[]), first, second),
        "no_memory" => {
            if let Ok(report) = refused(alloc, ImageError::OutOfMemory) {
                out.spread(&(report.status, report.complaints.as_str()));
            }
        }
        _ => {
            let (mut printed, mut errors) = (
                Refusing::new(alloc, first),
                Refusing::new(alloc, second),
            );
            let status = run(alloc, &words, image, &mut printed, &mut errors);
            out.spread(&(
                status,
                file_named(&words),
                str::from_utf8(&printed.bytes),
                str::from_utf8(&errors.bytes),
                (printed.steps, errors.steps),
            ));
        }
    }
}

/// The two numbers before the words.
fn numbers_before(rest: &str) -> (u64, u64) {
    let (numbers, _) = rest.split_once('|').unwrap_or((rest, ""));
    let (first, second) = first_word(numbers);
    (number_of(first), number_of(second))
}

/// The file of a kind: the bytes, or the image that `write_image` makes of a table at 0x2000, with an RSDP of a
/// revision at 0x500 and a root table at 0x1000.
fn file_of(alloc: Global, bytes: &[u8], kind: &str) -> Option<Vec<u8>> {
    if kind == "file" {
        return bytes.to_vec(alloc).ok();
    }
    let placed = PlacedTable {
        address: 0x2000,
        bytes,
    };
    let revision = kind.strip_prefix("written-")?.parse::<u8>().ok()?;
    write_image(alloc, 0x500, 0x1000, revision, &[placed]).ok()
}

/// The words, without what comes before the first `|`.
fn split_words(alloc: Global, words: &str) -> Result<Vec<&str>, AllocError> {
    let mut split = Vec::new(alloc);
    for word in words.split('|').skip(1) {
        split.push(word)?;
    }
    Ok(split)
}

/// The command that words give.
fn command(out: Out<'_>, words: &[&str]) {
    match parse_command(words) {
        Some(Root::Rsdt { revision, address }) => out.show(&("rsdt", revision, address)),
        Some(Root::Rsdp { address }) => out.show(&("rsdp", address)),
        Some(Root::Bios) => out.show(&"bios"),
        None => out.print(&"no command"),
    }
}

/// The lines over a heap of `size` bytes, of which some are taken before.
fn over_heap(out: Out<'_>, file: &[u8], size: u64, taken: u64) {
    let Ok(image) = MemoryImage::from_bytes(out.alloc(), file) else {
        return;
    };
    let (Ok(heap), Ok(tables)) = (
        LocalHeap::new(out.alloc(), size as usize),
        AcpiTables::from_rsdt(&image, 0, 0x1000),
    ) else {
        return;
    };
    let _filled = ManagedSlice::new_in(taken as usize, 0u8, &heap);
    let mut lines = String::new(out.alloc());
    let platform = print_platform(&heap, &tables, &mut lines);
    if platform.and(print_pci(&heap, &tables, &mut lines)).is_ok() {
        out.show(&lines.as_str());
    }
}

/// A writer that keeps what it takes, and of which one step fails: a write or a flush.
#[derive(Drop)]
struct Refusing {
    refused: u64,
    steps: u64,
    bytes: Vec<u8>,
}

impl Refusing {
    fn new(alloc: Global, refused: u64) -> Self {
        Refusing {
            refused,
            steps: 0,
            bytes: Vec::new(alloc),
        }
    }

    /// Counts a step, and fails if it is the one that has to.
    fn step(&mut self) -> io::Result<()> {
        let number = self.steps;
        self.steps = number.saturating_add(1);
        if number == self.refused {
            Err(io::Error::from(ErrorKind::Other))
        } else {
            Ok(())
        }
    }
}

impl Write for Refusing {
    fn write(&mut self, buf: &[u8]) -> io::Result<usize> {
        self.step()?;
        match self.bytes.extend_from_slice(buf) {
            Ok(()) => Ok(buf.len()),
            Err(refusal) => Err(io::Error::from(refusal)),
        }
    }

    fn flush(&mut self) -> io::Result<()> {
        self.step()
    }
}
