//! A table from its header's fields and the bytes after its header (section 5.2.6).
ghost use Rattle.std.specs.Prelude.{◌≡◌, ℕ, ◌+◌, ◌^◌, ◌<◌, ◌≤◌, ◌++◌, length, take, true, IfOk, List, Ok, Result};
ghost use Rattle.acpi_table_writer.specs.Words.{Gives, most, AreIds, are_texts, sized, IsTableOf, Keeps, checked_written, table_bytes, table_head, table_written, Signature, WriterError};

use crate::checked::require;
use crate::error::WriterError;
use crate::ids::TableIds;
use crate::listed::Listed;
use crate::numbers::dword;
use crate::spelled::Spelled;
use acpi_base::Signature;
use acpi_image::sums::set_sum;

/// The header of a table of a length, with a Checksum of 0.
#[tactic(auto, unfolding(crate::specs::Table::table_head))]
pub fn table_head(signature: Signature, revision: u8, ids: &TableIds, count: u32) -> [u8; 36]
    ensures bytes { result ≡ table_head signature revision ids.now count }
    ensures length { length result ≡ 36 }
{
    let mut head = [0; 36];
    head[32..].copy_from_slice(&dword(ids.creator_revision)); // Creator Revision
    head[28..32].copy_from_slice(&ids.creator_id); // Creator ID
    head[24..28].copy_from_slice(&dword(ids.oem_revision)); // OEM Revision
    head[16..24].copy_from_slice(&ids.oem_table_id); // OEM Table ID
    head[10..16].copy_from_slice(&ids.oem_id); // OEMID
    head[8] = revision; // Revision
    head[4..8].copy_from_slice(&dword(count)); // Length
    head[..4].copy_from_slice(&signature.to_bytes()); // Signature
    head
}

/// Fills a slice with the header of a table, and the bytes after it.
fn join<B: Spelled>(table: &mut [u8], head: &[u8], body: &B)
    requires { length table.old ≡ length head.now + length (B.spelled body.now) }
    ensures { table.new ≡ head.now ++ B.spelled body.now }
{
    table[..head.len()].copy_from_slice(head);
    body.put(&mut table[head.len()..]);
}

/// Fills a slice with a table.
#[tactic(auto, using(crate::proofs::Tables::table_length), unfolding(crate::specs::Table::table_bytes))]
fn fill<B: Spelled>(table: &mut [u8], signature: Signature, revision: u8, ids: TableIds, body: &B)
    requires whole { length table.old ≡ length (table_bytes signature revision ids (B.spelled body.now)) }
    requires short { 36 + length (B.spelled body.now) < 2 ^ 32 }
    ensures bytes { table.new ≡ table_bytes signature revision ids (B.spelled body.now) }
    ensures length { length table.new ≡ length table.old }
{
    let head = table_head(signature, revision, &ids, table.len() as u32);
    join(table, &head, body);
    set_sum(table, 9); // Checksum
}

/// How many bytes a table has, or the first error of `write_table` in a slice of that length.
#[tactic(auto, using(crate::proofs::Tables::table_length), unfolding(crate::specs::Table::table_written))]
fn table_size<B: Spelled>(
    room: usize,
    signature: Signature,
    revision: u8,
    ids: &TableIds,
    body: &B,
) -> Result<usize, WriterError>
    ensures exact { result ≡ sized (table_written room signature revision ids.now (B.spelled body.now)) }
    ensures size { IfOk result (λ n. (n ≡ 36 + length (B.spelled body.now)) × (n ≤ room) × (n < 2 ^ 32)) }
    ensures ids { IfOk result (λ n. AreIds ids.now × (are_texts ids.now ≡ true)) }
    ensures fits { IfOk result (λ n. B.fits body.now) }
{
    require(ids.are_texts(), WriterError::BadName)?;
    require(room >= 36, WriterError::NoRoom)?;
    let size = body.measure(room - 36).ok_or(WriterError::NoRoom)?;
    require(size < 0xffffffdc, WriterError::TooLong)?; // 2^32, less the header
    Ok(36 + size)
}

/// Writes a table to the front of a slice, and returns how many bytes it has.
///
/// Returns, in this order, `BadName` if a name of the ids is not valid UTF-8, `NoRoom` if the slice is shorter than
/// the table, and `TooLong` if the table has 2^32 bytes or more.
#[tactic(auto, using(crate::proofs::Tables::table_length), unfolding(crate::specs::Table::table_written))]
pub fn write_table<B: Spelled>(
    out: &mut [u8],
    signature: Signature,
    revision: u8,
    ids: &TableIds,
    body: &B,
) -> Result<usize, WriterError>
    ensures exact { Gives (λ n. take n out.new) result
        (table_written (length out.old) signature revision ids.now (B.spelled body.now)) }
    ensures keeps { Keeps result out.old out.new }
    ensures table { IfOk result (λ n.
        IsTableOf signature revision ids.now (B.spelled body.now) (take n out.new)) }
    ensures fits { IfOk result (λ n. B.fits body.now) }
{
    let size = table_size(out.len(), signature, revision, ids, body)?;
    fill(&mut out[..size], signature, revision, *ids, body);
    Ok(size)
}

/// The contents of a table.
pub trait Table {
    /// All after the header.
    type Body: Spelled + Copy;

    // Signature and Revision.
    ghost head_of: { Self → Signature × ℕ };

    // The error, if a table has no place for it.
    ghost checked: { Self → Result (Unit {0}) WriterError };

    // The bytes after the header.
    ghost body_of: { Self → List ℕ };

    // Each of its numbers has a place there.
    ghost fits: { Self → Type 0 };

    /// Signature and Revision.
    fn head(&self) -> (Signature, u8)
        ensures { result ≡ head_of self.now };

    /// Returns an error if a table has no place for it.
    fn check(&self) -> Result<(), WriterError>
        ensures { result ≡ checked self.now };

    /// All after the header.
    fn body(&self) -> Self::Body
        ensures bytes { Self.Body.spelled result ≡ body_of self.now }
        ensures fits { Self.Body.fits result → fits self.now };
}

/// Writes the table of these contents to the front of a slice, and returns how many bytes it has.
///
/// Returns the error of the contents, if a table has no place for them, and then `write_table`'s.
pub fn write<T: Table>(out: &mut [u8], ids: &TableIds, contents: &T) -> Result<usize, WriterError>
    ensures exact { Gives (λ n. take n out.new) result
        (checked_written T.checked T.head_of T.body_of (length out.old) ids.now contents.now) }
    ensures keeps { Keeps result out.old out.new }
    ensures table { IfOk result (λ n. IsTableOf (T.head_of contents.now).0 (T.head_of contents.now).1 ids.now
        (T.body_of contents.now) (take n out.new)) }
    ensures fits { IfOk result (λ n. T.fits contents.now) }
    ensures checked { IfOk result (λ n. T.checked contents.now ≡ Ok tt) }
{
    contents.check()?;
    let (signature, revision) = contents.head();
    write_table(out, signature, revision, ids, &contents.body())
}

impl<T: Table> Listed for T {
    ghost written = { λ ids c. checked_written T.checked T.head_of T.body_of most ids c };

    ghost fits = { λ c. T.Table.fits c };

    fn size(&self, ids: &TableIds) -> Result<usize, WriterError> {
        self.check()?;
        let (signature, revision) = self.head();
        table_size(usize::MAX, signature, revision, ids, &self.body())
    }

    fn put(&self, out: &mut [u8], ids: &TableIds) {
        let (signature, revision) = self.head();
        fill(out, signature, revision, *ids, &self.body());
    }
}
