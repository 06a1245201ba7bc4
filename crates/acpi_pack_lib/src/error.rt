//! The errors of files that are packed.

use acpi_image::WriteError;
use std::alloc::AllocFailed;
use std::fmt;

/// Why a file can't be packed.
#[derive(Clone, Copy, Debug, PartialEq, Eq)]
pub enum FileError {
    /// The file can't be read.
    Unreadable,
    /// The file has no bytes.
    Empty,
    /// The file of a table has fewer than the 36 bytes of a header, or ends before the length in it.
    Short,
    /// The file of a table goes on after the length in its header.
    Long,
    /// The file's address and the number of its bytes add up to more than 2^64 - 1.
    EndTooLarge,
    /// The file would share a byte with an earlier one, or as the DSDT with the RSDP; or it is a second DSDT.
    Overlap,
}

/// Prints the variant's name.
impl fmt::Display for FileError {
    ghost use Rattle.std.specs.Prelude.{Some};
    ghost use Rattle.acpi_pack_lib.specs.Words.{file_error_text};

    ghost output = { λ e. Some (file_error_text e) };

    fn fmt<W: fmt::Write>(&self, f: &mut fmt::Formatter<W>) -> fmt::Result {
        f.write_str(match self {
            FileError::Unreadable => "Unreadable",
            FileError::Empty => "Empty",
            FileError::Short => "Short",
            FileError::Long => "Long",
            FileError::EndTooLarge => "EndTooLarge",
            FileError::Overlap => "Overlap",
        })
    }
}

/// Why nothing is packed.
#[derive(Clone, Copy, Debug, PartialEq, Eq)]
pub enum Refusal {
    /// The file of this index, counted from 0, is an error.
    File(usize, FileError),
    /// The tables are more than the XSDT can list, or one would be placed so that it ends above 2^64 - 1.
    NoRoom,
    /// There are more than 2^30 bytes from the first address of plain memory to the last.
    TooLarge,
    /// The allocator had no memory.
    OutOfMemory,
}

/// Prints the error of the file, or the variant's name.
impl fmt::Display for Refusal {
    ghost use Rattle.std.specs.Prelude.{Some};
    ghost use Rattle.acpi_pack_lib.specs.Words.{refusal_text};

    ghost output = { λ e. Some (refusal_text e) };

    fn fmt<W: fmt::Write>(&self, f: &mut fmt::Formatter<W>) -> fmt::Result {
        match self {
            Refusal::File(_, error) => write!(f, "{error}"),
            Refusal::NoRoom => f.write_str("NoRoom"),
            Refusal::TooLarge => f.write_str("TooLarge"),
            Refusal::OutOfMemory => f.write_str("OutOfMemory"),
        }
    }
}

/// Makes `OutOfMemory`, if memory runs out for one more item.
impl<T: Drop> From<AllocFailed<T>> for Refusal {
    ghost use Rattle.std.specs.Prelude.{◌≡◌};
    ghost use Rattle.acpi_pack_lib.specs.Words.{OutOfMemory};

    ghost from_gives = { λ _ r. r ≡ OutOfMemory };

    fn from(_error: AllocFailed<T>) -> Self {
        Refusal::OutOfMemory
    }
}

/// Makes `OutOfMemory`, if memory runs out for one more record: the only error of functions that put
/// records into a file.
impl From<WriteError> for Refusal {
    ghost use Rattle.std.specs.Prelude.{◌≡◌};
    ghost use Rattle.acpi_pack_lib.specs.Words.{OutOfMemory};

    ghost from_gives = { λ _ r. r ≡ OutOfMemory };

    fn from(_error: WriteError) -> Self {
        Refusal::OutOfMemory
    }
}
