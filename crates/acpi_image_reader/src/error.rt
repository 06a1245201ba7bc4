//! The errors of a file of memory.

use std::fmt;

/// Why a file encodes no memory, by the first record that is at fault.
#[derive(Clone, Copy, Debug, PartialEq, Eq)]
pub enum ImageError {
    /// Fewer than 16 bytes are left for the record's start and length, or fewer bytes than that length
    /// after them.
    Truncated,
    /// The record's start and length add up to more than 2^64 - 1.
    EndTooLarge,
    /// The record shares a byte with an earlier one.
    Overlap,
    /// Memory for the record ran out.
    OutOfMemory,
}

/// Prints the variant's name.
impl fmt::Display for ImageError {
    ghost use Rattle.std.specs.Prelude.{Some};
    ghost use Rattle.acpi_image_reader.specs.Words.{image_error_text};

    ghost output = { λ e. Some (image_error_text e) };

    fn fmt<W: fmt::Write>(&self, f: &mut fmt::Formatter<W>) -> fmt::Result {
        f.write_str(match self {
            ImageError::Truncated => "Truncated",
            ImageError::EndTooLarge => "EndTooLarge",
            ImageError::Overlap => "Overlap",
            ImageError::OutOfMemory => "OutOfMemory",
        })
    }
}
