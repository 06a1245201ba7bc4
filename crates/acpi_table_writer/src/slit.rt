//! The System Locality Information Table (SLIT, section 5.2.17), from the distances between localities.
ghost use Rattle.std.specs.Prelude.{◌≡◌, ◌*◌, ◌==◌, ◌^◌, ◌<◌, length, take, IfOk};
ghost use Rattle.acpi_table_writer.specs.Words.{SLIT, Gives, IsSlit, slit_body, slit_checked, slit_written, Keeps};

use crate::checked::require;
use crate::contents::SlitContents;
use crate::error::WriterError;
use crate::ids::TableIds;
use crate::spelled::{Bytes, Then};
use crate::table::{Table, write};
use acpi_base::Signature;

/// Whether there is a distance for each pair of localities.
fn is_square(localities: u64, distances: &[u8]) -> bool
    ensures { result ≡ (localities * localities == length distances.now) }
{
    match localities.checked_mul(localities) {
        Some(pairs) => pairs == distances.len() as u64,
        None => false,
    }
}

impl<'a> Table for SlitContents<'a> {
    type Body = Then<u64, Bytes<'a>>;

    ghost head_of = { λ _. (SLIT, 1) };

    ghost checked = { λ c. slit_checked c.localities c.distances.now };

    ghost body_of = { λ c. slit_body c.localities c.distances.now };

    ghost fits = { λ c. c.localities < 2 ^ 64 };

    fn head(&self) -> (Signature, u8) {
        (Signature::SLIT, 1)
    }

    fn check(&self) -> Result<(), WriterError> {
        require(
            is_square(self.localities, self.distances),
            WriterError::BadMatrix,
        )
    }

    fn body(&self) -> Then<u64, Bytes<'a>> {
        Then(self.localities, Bytes(self.distances))
    }
}

/// Writes a SLIT of revision 1 to the front of a slice, and returns how many bytes it has: 44, and one for each
/// distance. The distances from the first locality come first, in order. Whether there is a locality, and whether each
/// is at 10 from itself, isn't checked.
///
/// Returns, in this order, `BadMatrix` if there isn't a distance for each pair of localities, `BadName` if a name of
/// the ids is not valid UTF-8, `NoRoom` if the slice is shorter than the table, and `TooLong` if the table has 2^32
/// bytes or more.
#[tactic(auto, unfolding(crate::specs::Slit::slit_written))]
pub fn write_slit(
    out: &mut [u8],
    ids: &TableIds,
    localities: u64,
    distances: &[u8],
) -> Result<usize, WriterError>
    // The bytes, or the first error, are those that are defined.
    ensures exact { Gives (λ n. take n out.new) result
        (slit_written (length out.old) ids.now localities distances.now) }
    // What is after the table is unchanged, and after an error the whole slice is.
    ensures keeps { Keeps result out.old out.new }
    // The numbers that were given fit, so that the distances are those that are read (`tables_are_read`).
    ensures fits { IfOk result (λ n. IsSlit ids.now localities distances.now (take n out.new)) }
{
    let contents = SlitContents {
        localities,
        distances,
    };
    write(out, ids, &contents)
}
