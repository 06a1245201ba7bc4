//! The Root System Description Pointer (RSDP, section 5.2.5.3), from the address of an XSDT.
ghost use Rattle.std.specs.Prelude.{◌≡◌, ◌+◌, ◌<◌, length, take, drop, ◌++◌, IfOk};
ghost use Rattle.acpi_writer.specs.Rsdp as rsdp;
ghost use Rattle.acpi_writer.specs.Words.{Gives, Keeps, front_written};

use acpi_image::sums::rsdp_to;
use acpi_table_writer::error::WriterError;
use acpi_table_writer::ids::TableIds;

/// An RSDP of revision 2.
#[tactic(auto, unfolding(crate::specs::Rsdp::rsdp_bytes))]
pub(crate) fn rsdp_bytes(ids: &TableIds, xsdt: u64) -> [u8; 36]
    ensures { result ≡ rsdp.rsdp_bytes ids.now.oem_id xsdt }
{
    rsdp_to(ids.oem_id, 2, xsdt)
}

/// Writes an RSDP of revision 2 that leads to an XSDT at a physical address to the front of a slice, and returns how
/// many bytes it has, 36. Of the ids it has OEMID alone. No RSDP that leads to an RSDT is written yet.
///
/// Returns, in this order, `NoAddress` if the address is 0, `BadName` if a name of the ids, even one that the RSDP
/// hasn't, is not valid UTF-8, and `NoRoom` if the slice is shorter than the RSDP.
#[tactic(auto, using(crate::proofs::Headless::rsdp_long), unfolding(crate::specs::Rsdp::rsdp_written))]
pub fn write_rsdp(out: &mut [u8], ids: &TableIds, xsdt: u64) -> Result<usize, WriterError>
    // The bytes, or the first error, are those that are defined.
    ensures exact { Gives (λ n. take n out.new) result
        (rsdp.rsdp_written (length out.old) ids.now xsdt) }
    // What is after the RSDP is unchanged, and after an error the whole slice is.
    ensures keeps { Keeps result out.old out.new }
    // The address fits, so that the RSDP is valid and leads there (`tables_are_read`).
    ensures fits { IfOk result (λ n. rsdp.IsRsdp ids.now xsdt (take n out.new)) }
{
    if xsdt == 0 {
        return Err(WriterError::NoAddress);
    }
    if !ids.are_texts() {
        return Err(WriterError::BadName);
    }
    write_front(out, &rsdp_bytes(ids, xsdt))
}

/// Puts bytes to the front of a slice.
pub(crate) fn put_front(out: &mut [u8], bytes: &[u8])
    requires { length bytes.now < length out.old + 1 }
    ensures { out.new ≡ bytes.now ++ drop (length bytes.now) out.old }
{
    out[..bytes.len()].copy_from_slice(bytes);
}

/// Writes bytes to the front of a slice, and returns how many there are.
///
/// Returns `NoRoom` if the slice is shorter.
pub(crate) fn write_front(out: &mut [u8], bytes: &[u8]) -> Result<usize, WriterError>
    ensures exact { Gives (λ n. take n out.new) result (front_written (length out.old) bytes.now) }
    ensures keeps { Keeps result out.old out.new }
    ensures front { IfOk result (λ n. take n out.new ≡ bytes.now) }
{
    if out.len() < bytes.len() {
        return Err(WriterError::NoRoom);
    }
    put_front(out, bytes);
    Ok(bytes.len())
}
