//! Prints what calls return over tables' bytes and memories, and what `acpi_view` prints of files. `scripts/check/rows`
//! passes it the rows in `data/`, and compares what it prints with theirs.
//!
//! An argument is a file of parts, with a blank line between them. The first line of a part has a kind and the name of
//! a file: of a memory as an image, mapped by the handler whose name is the kind (`memory`), or of a table (`tables`).
//! Each other line is a call: its name, and its arguments. All numbers are `0x` and hexadecimal digits.
//!
//! What is printed begins with a mark (`out`), and ends with one for each call, and for each part.
#![tactic(auto)]

mod checked;
mod handlers;
mod heaps;
mod memory;
mod models;
mod out;
mod runs;
mod tables;
mod watched;
mod words;
mod wsmt;

use acpi_cli::args;
use out::Out;
use std::{fs, io};
use words::first_word;

fn main(rt: HostRuntime) -> io::Result<()> {
    for file in &args(&rt)? {
        let text = fs::read_to_string(&rt, file.as_str())?;
        for part in text.split("\n\n") {
            ask(&rt, part)?;
        }
    }
    Ok(())
}

/// Makes the calls of a part.
///
/// Fails if the file that it names can't be read.
fn ask(rt: &HostRuntime, part: &str) -> io::Result<()> {
    let (first, lines) = part.split_once('\n').unwrap_or((part, ""));
    let (kind, name) = first_word(first);
    let bytes = fs::read(rt, name)?;
    let out = Out { rt };
    if kind == "exact" || kind == "generous" {
        memory::answer(out, kind, &bytes, lines);
    } else {
        for line in lines.lines() {
            tables::answer(out, kind, &bytes, first_word(line));
            out.end();
        }
    }
    out.end();
    Ok(())
}
