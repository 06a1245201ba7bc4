//! What is printed, piece by piece, without asking after each piece whether memory sufficed for it.

ghost use Rattle.std.specs.Prelude.{◌||◌, ◌≡◌};
ghost use Rattle.acpi_dump_walk.specs.Printed.{Prints};

use std::alloc::{AllocError, Global};
use std::fmt::Display;
use std::io;
use std::io::Write;

/// A text that gets nothing more after memory for a piece was refused.
#[derive(Drop)]
pub struct Out {
    bytes: Vec<u8>,
    is_refused: bool,
    alloc: Global,
}

impl Out {
    /// No text.
    pub fn new(alloc: Global) -> Out {
        Out {
            bytes: Vec::new(alloc),
            is_refused: false,
            alloc,
        }
    }

    /// Prints a piece: what `write!` and `writeln!` call.
    pub fn write_fmt<D: Display + Drop>(&mut self, piece: D) {
        if !self.is_refused {
            self.is_refused = self.bytes.write_fmt(piece).is_err();
        }
    }

    /// If memory was refused to another output, it counts as refused here too.
    pub fn refuse_as(&mut self, other: &Out)
        ensures bytes { self.new.bytes ≡ self.old.bytes }
        ensures refused { self.new.is_refused ≡ self.old.is_refused || other.now.is_refused }
    {
        self.is_refused |= other.is_refused;
    }

    /// Prints what another output has. If memory was refused to that one, it counts as refused here too.
    pub fn append(&mut self, other: &Out)
        ensures { Prints self.old self.new other.now.bytes.items }
    {
        self.refuse_as(other);
        self.bytes(&other.bytes);
    }

    /// Takes back what was printed, but not that memory was refused.
    pub fn clear(&mut self) {
        self.bytes.clear();
    }

    /// Prints a text.
    pub fn text(&mut self, text: &str)
        ensures { Prints self.old self.new text.now }
    {
        self.bytes(text.as_bytes());
    }

    /// Prints bytes as they are.
    pub fn bytes(&mut self, bytes: &[u8])
        ensures { Prints self.old self.new bytes.now }
    {
        if !self.is_refused {
            self.is_refused = self.bytes.extend_from_slice(bytes).is_err();
        }
    }

    /// Prints bytes, each one that isn't printable ASCII as `\x1b`.
    pub fn escaped(&mut self, bytes: &[u8]) {
        for byte in bytes {
            if (0x20..0x7f).contains(byte) {
                self.bytes(&[*byte]);
            } else {
                write!(self, "\\x{byte:02x}");
            }
        }
    }

    /// Prints what a value is, each byte that isn't printable ASCII as `\x1b`.
    pub fn value<D: Display>(&mut self, value: &D) {
        let mut text = Out::new(self.alloc);
        write!(text, "{value}");
        self.refuse_as(&text);
        self.escaped(&text.bytes);
    }

    /// Prints words, with the next number in place of each `#` (in hexadecimal digits) and `%` (in decimal ones).
    pub fn words(&mut self, words: &str, numbers: &[u64]) {
        let mut rest = numbers;
        for letter in words.as_bytes() {
            match (*letter, rest) {
                (b'#', [number, others @ ..]) => {
                    write!(self, "0x{number:x}");
                    rest = others;
                }
                (b'%', [number, others @ ..]) => {
                    write!(self, "{number}");
                    rest = others;
                }
                _ => self.bytes(&[*letter]),
            }
        }
    }

    /// Prints words, with the next text in place of each `$`.
    pub fn fill(&mut self, words: &str, texts: &[&str]) {
        let mut rest = texts;
        for letter in words.as_bytes() {
            match (*letter, rest) {
                (b'$', [text, others @ ..]) => {
                    self.text(*text);
                    rest = others;
                }
                _ => self.bytes(&[*letter]),
            }
        }
    }

    /// Keeps that memory for a piece was refused.
    pub fn refuse(&mut self) {
        self.is_refused = true;
    }

    /// Its allocator.
    pub fn allocator(&self) -> Global {
        self.alloc
    }

    /// How many bytes were printed.
    pub fn length(&self) -> usize {
        self.bytes.len()
    }

    /// What was printed after the first `start` bytes.
    pub fn since(&self, start: usize) -> &[u8] {
        self.bytes.get(start..).unwrap_or(&[])
    }

    /// What was printed, if memory sufficed for it.
    pub fn printed(&self) -> Option<&str> {
        if self.is_refused {
            return None;
        }
        str::from_utf8(&self.bytes).ok()
    }

    /// Writes what was printed, and flushes the writer, also if it refused that.
    ///
    /// Fails with the error of the write, or else of the flush, or if memory for a piece was refused.
    pub fn write_to<W: Write + Drop>(&self, mut writer: W) -> io::Result<()> {
        let written = writer.write_all(&self.bytes);
        let flushed = writer.flush();
        written.and(flushed)?;
        if self.is_refused {
            return Err(io::Error::from(AllocError));
        }
        Ok(())
    }
}
