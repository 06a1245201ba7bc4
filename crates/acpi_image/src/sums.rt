//! Checksums that are set in bytes, and the RSDP (sections 5.2.5.3 and 5.2.6).
ghost use Rattle.std.specs.Prelude.{◌≡◌, ◌<◌, length};
ghost use Rattle.acpi_base.specs.Words.{spelling};
ghost use Rattle.acpi_image.specs.Words.{rsdp_to, rsdp_unsummed, with_sum};

use acpi_base::bytes::byte_sum;

/// Sets the byte at an offset, a checksum, so that all bytes sum to 0 modulo 256 (sections 5.2.5.3 and 5.2.6).
#[tactic(auto, unfolding(crate::specs::Written::with_sum, crate::specs::Written::sum_byte))]
pub fn set_sum(bytes: &mut [u8], offset: usize)
    requires { offset < length bytes.old }
    ensures { bytes.new ≡ with_sum offset bytes.old }
{
    bytes[offset] = 0;
    bytes[offset] = 0u8.wrapping_sub(byte_sum(bytes));
}

/// The low four bytes of a number, the lowest first.
#[tactic(auto, using(crate::proofs::Written::low_four))]
pub(crate) fn dword(number: u64) -> [u8; 4]
    ensures { result ≡ spelling 4 number }
{
    let mut bytes = [0; 4];
    bytes.copy_from_slice(&number.to_le_bytes()[..4]);
    bytes
}

/// The eight bytes of a number, the lowest first.
#[tactic(auto, using(crate::proofs::Written::le_bytes))]
fn qword(number: u64) -> [u8; 8]
    ensures { result ≡ spelling 8 number }
{
    number.to_le_bytes()
}

/// An RSDP whose checksums are 0 (section 5.2.5.3).
#[tactic(auto, unfolding(crate::specs::Written::rsdp_unsummed, acpi_bytes::specs::Bytes::spelling))]
fn rsdp_unsummed(oem_id: [u8; 6], revision: u8, rsdt: u64, count: u64, xsdt: u64) -> [u8; 36]
    ensures { result ≡ rsdp_unsummed oem_id revision rsdt count xsdt }
{
    // From the last field to the first: what is set is always put before what is set already, as the definition joins
    // them.
    let mut rsdp = [0; 36];
    rsdp[24..32].copy_from_slice(&qword(xsdt)); // XsdtAddress
    rsdp[20..24].copy_from_slice(&dword(count)); // Length
    rsdp[16..20].copy_from_slice(&dword(rsdt)); // RsdtAddress
    rsdp[15] = revision; // Revision
    rsdp[9..15].copy_from_slice(&oem_id); // OEMID
    rsdp[..8].copy_from_slice(b"RSD PTR "); // Signature
    rsdp
}

/// The RSDP of an OEMID and a revision that leads to the root table at an address (section 5.2.5.3): the RSDT for
/// revision 0, otherwise the XSDT.
#[tactic(auto, unfolding(crate::specs::Written::rsdp_to, crate::specs::Written::with_first_sum))]
pub fn rsdp_to(oem_id: [u8; 6], revision: u8, root: u64) -> [u8; 36]
    ensures { result ≡ rsdp_to oem_id revision root }
{
    if revision == 0 {
        let mut rsdp = rsdp_unsummed(oem_id, 0, root, 0, 0);
        set_sum(&mut rsdp[..20], 8); // Checksum
        rsdp
    } else {
        let mut rsdp = rsdp_unsummed(oem_id, revision, 0, 36, root);
        set_sum(&mut rsdp[..20], 8); // Checksum
        set_sum(&mut rsdp, 32); // Extended Checksum
        rsdp
    }
}
