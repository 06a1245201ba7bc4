//! The High Precision Event Timer table (HPET), from what it contains of its event timer block.
ghost use Rattle.std.specs.Prelude.{length, take, IfOk, Ok};
ghost use Rattle.acpi_table_writer.specs.Hpet as bytes;
ghost use Rattle.acpi_table_writer.specs.Words.{HPET, Gives, IsHpet, Keeps};

use crate::error::WriterError;
use crate::ids::TableIds;
use crate::table::{Table, write};
use acpi::HpetInfo;
use acpi_base::Signature;

impl Table for HpetInfo {
    type Body = HpetInfo;

    ghost head_of = { λ _. (HPET, 1) };

    ghost checked = { λ _. Ok tt };

    ghost body_of = { bytes.hpet_body };

    ghost fits = { bytes.FitsHpet };

    fn head(&self) -> (Signature, u8) {
        (Signature::HPET, 1)
    }

    fn check(&self) -> Result<(), WriterError> {
        Ok(())
    }

    fn body(&self) -> HpetInfo {
        *self
    }
}

/// Writes an HPET of revision 1, 56 bytes, to the front of a slice, and returns how many bytes it has. A page
/// protection of `Other` is written as 3. OEM Attribute is 0, and so is all of BASE_ADDRESS but its address, which is
/// one in memory: Register Bit Width too.
///
/// Returns, in this order, `BadName` if a name of the ids is not valid UTF-8, and `NoRoom` if the slice is shorter
/// than the table.
pub fn write_hpet(out: &mut [u8], ids: &TableIds, info: &HpetInfo) -> Result<usize, WriterError>
    // The bytes, or the error, are those that are defined.
    ensures exact { Gives (λ n. take n out.new) result
        (bytes.hpet_written (length out.old) ids.now info.now) }
    // What is after the table is unchanged, and after an error the whole slice is.
    ensures keeps { Keeps result out.old out.new }
    // The numbers that were given fit, so that what was given is what is read (`tables_are_read`).
    ensures fits { IfOk result (λ n. IsHpet ids.now info.now (take n out.new)) }
{
    write(out, ids, info)
}
