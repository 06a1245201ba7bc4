//! The PCI Express memory mapped configuration space table (MCFG), from its regions.
ghost use Rattle.std.specs.Prelude.{length, map, take, IfOk, Ok, All};
ghost use Rattle.acpi_table_writer.specs.Words.{MCFG, Gives, FitsMcfg, IsMcfg, Keeps};
ghost use Rattle.acpi_table_writer.specs.Mcfg as bytes;

use crate::error::WriterError;
use crate::fields::Field;
use crate::ids::TableIds;
use crate::spelled::{EachItem, StandsFor, Then};
use crate::table::{Table, write};
use acpi_base::Signature;
use acpi_base::mcfg::McfgEntry;
use std::marker::PhantomData;

/// The regions of an MCFG.
#[derive(Clone, Copy)]
pub struct Regions<'a, E>(pub &'a [E]);

impl<'a, E: StandsFor<McfgEntry>> Table for Regions<'a, E> {
    type Body = Then<Field, EachItem<'a, McfgEntry, E>>;

    ghost head_of = { λ _. (MCFG, 1) };

    ghost checked = { λ _. Ok tt };

    ghost body_of = { λ t. bytes.mcfg_body (map E.meant t.0.now) };

    ghost fits = { λ t. All FitsMcfg (map E.meant t.0.now) };

    fn head(&self) -> (Signature, u8) {
        (Signature::MCFG, 1)
    }

    fn check(&self) -> Result<(), WriterError> {
        Ok(())
    }

    fn body(&self) -> Then<Field, EachItem<'a, McfgEntry, E>> {
        Then(Field::Zeros(8), EachItem(self.0, PhantomData)) // Reserved
    }
}

/// Writes an MCFG of revision 1 to the front of a slice, and returns how many bytes it has: 44, and 16 for each region.
/// No region, and one whose last bus is below its first, are written as they are.
///
/// Returns, in this order, `BadName` if a name of the ids is not valid UTF-8, `NoRoom` if the slice is shorter than
/// the table, and `TooLong` if the table has 2^32 bytes or more.
pub fn write_mcfg<E: StandsFor<McfgEntry>>(
    out: &mut [u8],
    ids: &TableIds,
    regions: &[E],
) -> Result<usize, WriterError>
    // The bytes, or the first error, are those that are defined.
    ensures exact { Gives (λ n. take n out.new) result
        (bytes.mcfg_written (length out.old) ids.now (map E.meant regions.now)) }
    // What is after the table is unchanged, and after an error the whole slice is.
    ensures keeps { Keeps result out.old out.new }
    // The numbers that were given fit, so that what was given is what is read (`tables_are_read`).
    ensures fits { IfOk result (λ n. IsMcfg ids.now (map E.meant regions.now) (take n out.new)) }
{
    write(out, ids, &Regions(regions))
}
