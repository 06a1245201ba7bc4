//! The root tables: the RSDT (section 5.2.7) and the XSDT (section 5.2.8), from the addresses of the tables.
ghost use Rattle.std.specs.Prelude.{length, take, IfOk};
ghost use Rattle.acpi_writer.specs.Words.{Rsdt, Xsdt, Gives, IsRoot, root_written, Keeps};

use acpi_base::Signature;
use acpi_table_writer::error::WriterError;
use acpi_table_writer::ids::TableIds;
use acpi_table_writer::spelled::Each;
use acpi_table_writer::table::write_table;

/// Writes an RSDT of revision 1 to the front of a slice, and returns how many bytes it has: 36, and 4 for each address.
/// No address, and one of 0, are written as they are.
///
/// Returns, in this order, `BadName` if a name of the ids is not valid UTF-8, `NoRoom` if the slice is shorter than
/// the table, and `TooLong` if the table has 2^32 bytes or more.
pub fn write_rsdt(out: &mut [u8], ids: &TableIds, addresses: &[u32]) -> Result<usize, WriterError>
    // The bytes, or the first error, are those that are defined.
    ensures exact { Gives (λ n. take n out.new) result
        (root_written Rsdt (length out.old) ids.now addresses.now) }
    // What is after the table is unchanged, and after an error the whole slice is.
    ensures keeps { Keeps result out.old out.new }
    // The numbers that were given fit, so that the addresses are the table's pointers (`tables_are_read`).
    ensures fits { IfOk result (λ n. IsRoot Rsdt ids.now addresses.now (take n out.new)) }
{
    write_table(out, Signature::RSDT, 1, ids, &Each(addresses))
}

/// Writes an XSDT of revision 1 to the front of a slice, and returns how many bytes it has: 36, and 8 for each address.
/// No address, and one of 0, are written as they are.
///
/// Returns, in this order, `BadName` if a name of the ids is not valid UTF-8, `NoRoom` if the slice is shorter than
/// the table, and `TooLong` if the table has 2^32 bytes or more.
pub fn write_xsdt(out: &mut [u8], ids: &TableIds, addresses: &[u64]) -> Result<usize, WriterError>
    // The bytes, or the first error, are those that are defined.
    ensures exact { Gives (λ n. take n out.new) result
        (root_written Xsdt (length out.old) ids.now addresses.now) }
    // What is after the table is unchanged, and after an error the whole slice is.
    ensures keeps { Keeps result out.old out.new }
    // The numbers that were given fit, so that the addresses are the table's pointers (`tables_are_read`).
    ensures fits { IfOk result (λ n. IsRoot Xsdt ids.now addresses.now (take n out.new)) }
{
    write_table(out, Signature::XSDT, 1, ids, &Each(addresses))
}
