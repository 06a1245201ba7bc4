//! The Root System Description Pointer (RSDP), which leads to the root table (section 5.2.5).
ghost use Rattle.std.specs.Prelude.{◌≡◌, IfOk, Ok, ◌≤◌, ℕ, length, IfSome, IsOk, Some};
ghost use Rattle.acpi_base.specs.Words.{Footprint, IsOfMemory, start_of, bytes_of, handler_of, Allows, Gives, lent, Memory, at, IsTextOf};
ghost use Rattle.acpi.specs.Words.{accepted_length, accepted_rsdp, accepted_rsdp_at, accepted_rsdp_ranges, check_extended, check_length, check_rsdp, check_sum, check_whole, extended_length_of, extended_ranges, is_first_enough, length_ranges, reading_ranges, rsdp_at, rsdp_of, rsdp_ranges, unless_first};
ghost use Rattle.acpi.specs.Rsdp.{root_of};

mod areas;
mod bios;
mod readings;

use crate::root::{RootKind, RootPointer};
use acpi_base::bytes::{byte_sum, has_bit, is_text, text_of};
use acpi_base::{AcpiError, AcpiResult, Lender, PhysicalMapping, PhysicalRecord};
pub use areas::bios_areas;
pub use bios::{Area, second_area};

/// The Root System Description Pointer (RSDP), by its 36 bytes (section 5.2.5.3). Revision 0 has only the
/// first 20 of them: the fields after these mean nothing there.
#[derive(Clone, Copy, Debug)]
pub struct Rsdp {
    signature: [u8; 8],
    checksum: u8,
    /// OEMID: the bytes of the OEM's name. `oem_id()` is their text.
    pub oem_id: [u8; 6],
    revision: u8,
    rsdt_address: u32,
    length: u32,
    xsdt_address: u64,
    ext_checksum: u8,
}

impl Rsdp {
    /// Signature: `RSD PTR ` if the RSDP is valid (section 5.2.5.3).
    pub fn signature(&self) -> [u8; 8]
        ensures { result ≡ self.now.signature }
    {
        self.signature
    }

    /// Checksum: the byte by which the first 20 bytes of a valid RSDP sum to 0 modulo 256 (section
    /// 5.2.5.3).
    pub fn checksum(&self) -> u8
        ensures { result ≡ self.now.checksum }
    {
        self.checksum
    }

    /// OEMID: the OEM's name, or `None` if it is not valid UTF-8 (section 5.2.5.3).
    pub fn oem_id(&self) -> Option<&str>
        ensures { IsTextOf result self.now.oem_id }
    {
        text_of(&self.oem_id)
    }

    /// Revision: the revision of the RSDP, 0 in ACPI 1.0 and 2 since (section 5.2.5.3).
    pub fn revision(&self) -> u8
        ensures { result ≡ self.now.revision }
    {
        self.revision
    }

    /// RsdtAddress: the physical address of the RSDT (section 5.2.5.3).
    pub fn rsdt_address(&self) -> u32
        ensures { result ≡ self.now.rsdt_address }
    {
        self.rsdt_address
    }

    /// Length: how many bytes the whole RSDP has, or `None` for revision 0 (section 5.2.5.3).
    pub fn length(&self) -> Option<u32>
        ensures { result ≡ extended_length_of self.now }
    {
        (self.revision != 0).then_some(self.length)
    }

    /// XsdtAddress: the physical address of the XSDT, or `None` for revision 0 (section 5.2.5.3).
    pub fn xsdt_address(&self) -> Option<u64>
        ensures { result ≡ unless_first self.now self.now.xsdt_address }
    {
        (self.revision != 0).then_some(self.xsdt_address)
    }

    /// Extended Checksum: the byte by which all bytes of a valid RSDP sum to 0 modulo 256, or `None` for
    /// revision 0 (section 5.2.5.3).
    pub fn ext_checksum(&self) -> Option<u8>
        ensures { result ≡ unless_first self.now self.now.ext_checksum }
    {
        (self.revision != 0).then_some(self.ext_checksum)
    }

    /// The root table that a valid RSDP leads to: the RSDT if the revision or the XSDT's address is 0,
    /// else the XSDT, however bad the table there is.
    pub fn root(&self) -> RootPointer
        ensures { result ≡ root_of self.now }
    {
        let (kind, address) = match self.xsdt_address() {
            None | Some(0) => (RootKind::Rsdt, self.rsdt_address as u64),
            Some(address) => (RootKind::Xsdt, address),
        };
        RootPointer {
            revision: self.revision,
            kind,
            address,
        }
    }

    /// Checks an RSDP (section 5.2.5.3) by the bytes that it was read from, at least 36. Bytes after its length don't
    /// count.
    ///
    /// Fails, in this order, with `RsdpIncorrectSignature` if the signature is not `RSD PTR `,
    /// `RsdpInvalidOemId` if the OEM id is not valid UTF-8, and `RsdpInvalidChecksum` if the first
    /// 20 bytes do not sum to 0 modulo 256. For a revision above 0 it also fails with
    /// `RsdpInvalidChecksum` if the length is under 36 or above the number of bytes, or if that many
    /// bytes do not sum to 0 modulo 256.
    #[tactic(auto, using(crate::proofs::Search::valid_there, crate::proofs::Search::validated), unfolding(crate::specs::Rsdp::check_rsdp))]
    pub fn validate(&self, bytes: &[u8]) -> AcpiResult<()>
        requires least { 36 ≤ length bytes.now }
        requires read { self.now ≡ rsdp_of bytes.now }
        ensures exact { result ≡ check_rsdp bytes.now }
        // Bytes that a memory has at an address, and that hold all checks, are a valid RSDP there,
        // as `AcpiTables::from_validated_rsdp` wants it.
        ensures valid { (m : Memory) (a : ℕ) → at m a (length bytes.now) ≡ Some bytes.now
            → IfOk result (λ _. IsOk (rsdp_at m a)) }
    {
        match self.summed_length(bytes, 0)? {
            None => Ok(()),
            Some(length) if length > bytes.len() => Err(AcpiError::RsdpInvalidChecksum),
            Some(length) => check_sum(&bytes[..length]),
        }
    }

    /// How many bytes are to sum to 0 by an RSDP's length: `None` for revision 0.
    fn extended_length(&self) -> AcpiResult<Option<usize>>
        ensures long { IfOk result (λ o. IfSome o (λ n. 36 ≤ n)) }
        ensures length { Gives (λ o. o) result (check_length (extended_length_of self.now)) }
    {
        match self.length() {
            None => Ok(None),
            Some(length) if length < 36 => Err(AcpiError::RsdpInvalidChecksum),
            Some(length) => Ok(Some(length as usize)),
        }
    }

    /// Whether by the bits of `accept` it is accepted by its first 20 bytes.
    fn is_first_enough(&self, accept: u32) -> bool
        ensures { result ≡ is_first_enough accept self.now }
    {
        has_bit(accept as u64, 4) || (has_bit(accept as u64, 3) && self.revision == 1)
    }

    /// Checks the first 20 bytes, which every revision has, and returns how many bytes are to sum to 0 after
    /// that: `None` for revision 0 and if the bits of `accept` give their checks up, else the length.
    #[tactic(auto, unfolding(crate::specs::Rsdp::check_first, crate::specs::Rsdp::accepted_length))]
    fn summed_length(&self, bytes: &[u8], accept: u32) -> AcpiResult<Option<usize>>
        requires least { 36 ≤ length bytes.now }
        requires read { self.now ≡ rsdp_of bytes.now }
        ensures long { IfOk result (λ o. IfSome o (λ n. 36 ≤ n)) }
        ensures length { Gives (λ o. o) result (accepted_length accept bytes.now) }
    {
        if self.signature != *b"RSD PTR " {
            return Err(AcpiError::RsdpIncorrectSignature);
        }
        if !has_bit(accept as u64, 2) && !is_text(&self.oem_id) {
            return Err(AcpiError::RsdpInvalidOemId);
        }
        check_sum(&bytes[..20])?;
        if self.is_first_enough(accept) {
            return Ok(None);
        }
        self.extended_length()
    }
}

/// A record that means nothing: a mapping of it shows the bytes, at least one, as they are.
#[derive(Clone, Copy)]
struct RawBytes;

impl PhysicalRecord for RawBytes {
    const MIN_LENGTH: usize = 1;

    ghost MIN_LENGTH = { 1 };

    ghost reading = { λ b. record {} };

    fn read(_bytes: &[u8]) -> Self {
        RawBytes
    }
}

/// Checks that bytes of an RSDP sum to 0 modulo 256.
#[tactic(auto, unfolding(crate::specs::Rsdp::check_sum))]
fn check_sum(bytes: &[u8]) -> AcpiResult<()>
    ensures { result ≡ check_sum bytes.now }
{
    if byte_sum(bytes) != 0 {
        return Err(AcpiError::RsdpInvalidChecksum);
    }
    Ok(())
}

/// Checks that the bytes of an RSDP at an address sum to 0, if it has a length.
fn check_whole<H: Lender>(handler: &H, address: u64, length: Option<usize>) -> AcpiResult<()>
    requires some { IfSome length (λ n. 36 ≤ n) }
    requires asked { Allows (H.may handler.now) (length_ranges address length) }
    ensures { result ≡ check_whole (lent (H.memory handler.now) address) length }
{
    let Some(length) = length else {
        return Ok(());
    };
    let whole = PhysicalMapping::<'_, H, RawBytes>::map(handler, address, length)?;
    check_sum(whole.bytes())
}

/// The checks that the bits of `accept` leave of an RSDP whose 36 bytes are mapped. For the sum of the whole, as many
/// bytes are mapped as its length.
#[tactic(auto, unfolding(crate::specs::Rsdp::accepted_rsdp_at))]
fn check_mapped<H: Lender>(
    handler: &H,
    rsdp: &PhysicalMapping<'_, H, Rsdp>,
    accept: u32,
) -> AcpiResult<()>
    requires lent { lent (H.memory handler.now) (start_of rsdp.now) 36 ≡ Ok (bytes_of rsdp.now) }
    requires asked { Allows (H.may handler.now)
        (accepted_rsdp_ranges accept (H.memory handler.now) (start_of rsdp.now)) }
    ensures { Gives (λ _. bytes_of rsdp.now) result
        (accepted_rsdp_at accept (H.memory handler.now) (start_of rsdp.now)) }
{
    let length = rsdp.get().summed_length(rsdp.bytes(), accept)?;
    check_whole(handler, rsdp.physical_start(), length)
}

/// The checks of an RSDP's whole bytes, of which the first 36 are mapped.
fn check_extended<H: Lender>(handler: &H, rsdp: &PhysicalMapping<'_, H, Rsdp>) -> AcpiResult<()>
    requires { Allows (H.may handler.now) (extended_ranges (start_of rsdp.now) (rsdp_of (bytes_of rsdp.now))) }
    ensures { result ≡ check_extended (H.memory handler.now) (start_of rsdp.now) (rsdp_of (bytes_of rsdp.now)) }
{
    let length = rsdp.get().extended_length()?;
    check_whole(handler, rsdp.physical_start(), length)
}

/// The RSDP whose 36 bytes are mapped, as it is read if the bits of `accept` accept it. It is read as one of revision
/// 0, of which only the first 20 bytes count, by bit 3 if its revision is 1, and by bit 4 if its whole fails its
/// checks: the length is under 36, or as many bytes aren't mapped or don't sum to 0 modulo 256.
pub fn read_accepted<H: Lender>(
    handler: &H,
    rsdp: &PhysicalMapping<'_, H, Rsdp>,
    accept: u32,
) -> Rsdp
    requires { Allows (H.may handler.now) (reading_ranges accept (start_of rsdp.now, bytes_of rsdp.now)) }
    ensures { result ≡ accepted_rsdp accept (H.memory handler.now) (start_of rsdp.now, bytes_of rsdp.now) }
{
    let record = *rsdp.get();
    if (has_bit(accept as u64, 3) && record.revision == 1)
        || (has_bit(accept as u64, 4) && check_extended(handler, rsdp).is_err())
    {
        return Rsdp {
            revision: 0,
            ..record
        };
    }
    record
}

/// The RSDP at an address, if the bits of `accept` accept it: a mapping of its 36 bytes. `read_accepted` reads it. By
/// bit 2 its OEM id may be any. By bit 3 one of revision 1 is accepted by its first 20 bytes, and by bit 4 each.
///
/// Fails as `map_rsdp` does, but for the checks that are given up.
#[tactic(auto, using(crate::proofs::Agreed::same_rsdp), unfolding(crate::specs::Rsdp::accepted_rsdp_at))]
pub fn map_accepted_rsdp<'h, H: Lender>(
    handler: &'h H,
    address: u64,
    accept: u32,
) -> AcpiResult<PhysicalMapping<'h, H, Rsdp>>
    requires { Allows (H.may handler.now) (accepted_rsdp_ranges accept (H.memory handler.now) address) }
    ensures place { IfOk result (λ m. start_of m ≡ address) }
    ensures handler { IfOk result (λ m. handler_of m ≡ handler.now) }
    ensures lent { IfOk result (λ m. IsOfMemory (H.memory handler.now) m) }
    ensures rsdp { Gives (λ m. bytes_of m) result (accepted_rsdp_at accept (H.memory handler.now) address) }
    // It depends on the 36 bytes and, if the checks come to that, on as many as its length.
    ensures footprint { let m = H.memory handler.now in
        Footprint m (accepted_rsdp_ranges accept m address) (λ n. accepted_rsdp_at accept n address)
        (Gives (λ m. bytes_of m) result) }
{
    let rsdp = PhysicalMapping::<'h, H, Rsdp>::map(handler, address, 36)?;
    check_mapped(handler, &rsdp, accept)?;
    Ok(rsdp)
}

/// The valid RSDP at an address: a mapping of its 36 bytes.
///
/// Fails, in this order, with `MapFailed` if 36 bytes aren't mapped, `RsdpIncorrectSignature`
/// if the signature is not `RSD PTR `, `RsdpInvalidOemId` if the OEM id is not valid UTF-8, and
/// `RsdpInvalidChecksum` if the first 20 bytes do not sum to 0 modulo 256. For a revision above
/// 0 it goes on with `RsdpInvalidChecksum` if the length is under 36, `MapFailed` if that
/// many bytes aren't mapped, and `RsdpInvalidChecksum` if they do not sum to 0 modulo 256.
pub fn map_rsdp<'h, H: Lender>(
    handler: &'h H,
    address: u64,
) -> AcpiResult<PhysicalMapping<'h, H, Rsdp>>
    requires { Allows (H.may handler.now) (rsdp_ranges (H.memory handler.now) address) }
    ensures place { IfOk result (λ m. start_of m ≡ address) }
    ensures handler { IfOk result (λ m. handler_of m ≡ handler.now) }
    ensures lent { IfOk result (λ m. IsOfMemory (H.memory handler.now) m) }
    ensures rsdp { Gives (λ m. bytes_of m) result (rsdp_at (H.memory handler.now) address) }
    // It depends on the 36 bytes and, if the checks come to that, on as many as its length.
    ensures footprint { let m = H.memory handler.now in
        Footprint m (rsdp_ranges m address) (λ n. rsdp_at n address) (Gives (λ m. bytes_of m) result) }
{
    map_accepted_rsdp(handler, address, 0)
}
