//! The table at an address (section 5.2.6).
ghost use Rattle.std.specs.Prelude.{◌≡◌, ℕ, true, ◌+◌, ◌^◌, ◌<◌, ◌≤◌, ◌||◌, length, IfErr, IfOk, Ok, Err};
ghost use Rattle.acpi_base.specs.Words.{Footprint, IsLentOf, IsWholeClaim, accepted, check_of, has_bit, left_of, claimed_at, claimed_from, header_at, own_accepted, own_accepted_ranges, own_table_at, own_table_ranges, sdt_kind, shown_by, unchecked, all_of, IsOfMemory, start_of, bytes_of, handler_of, lent_of, Allows, table_ranges, whole_ranges, Gives, lent, Kind, plain_kind, table_at, check_names};

use super::AcpiTable;
use super::header::SdtHeader;
use super::signature::Signature;
use crate::bytes::{byte_sum, has_bit};
use crate::error::{AcpiError, AcpiResult};
use crate::memory::claim::Claim;
use crate::memory::handler::{Lender, PhysicalRecord};
use crate::memory::mapping::PhysicalMapping;

/// The header's bytes at an address, if they begin with this signature. Most members that a
/// lookup skips have another one: so that is compared before anything else is made of them.
#[inline(always)]
#[tactic(auto, using(crate::proofs::OwnTable::no_header, crate::proofs::Accepted::another_accepted))]
fn claim_header<'h, H: Lender>(
    handler: &'h H,
    address: u64,
    signature: Signature,
) -> AcpiResult<Claim<'h, H>>
    requires { H.may handler.now address 36 ≡ true }
    ensures start { IfOk result (λ c. claimed_at c ≡ address) }
    ensures handler { IfOk result (λ c. claimed_from c ≡ handler.now) }
    ensures size { IfOk result (λ c. length (shown_by c) ≡ 36) }
    ensures shown { IfOk result (λ c. lent (H.memory handler.now) address 36 ≡ Ok (shown_by c)) }
    ensures all { IfOk result (λ c. IsLentOf (H.memory handler.now) c) }
    ensures signature { IfOk result (λ c. (header_at (shown_by c)).signature ≡ signature) }
    ensures unaccepted { IfErr result (λ e. (accept : ℕ) (k : Kind) → k.signature ≡ signature
        → k.names ≡ check_names signature → table_at (H.memory handler.now) (accepted accept k) address ≡ Err e) }
{
    let head = Claim::request(handler, address, SdtHeader::MIN_LENGTH)?;
    if !Signature::leading(head.shown()).is(signature) {
        head.end();
        return Err(AcpiError::SdtInvalidSignature(signature));
    }
    Ok(head)
}

/// The bytes of the table whose header is claimed and has this signature, as many as its Length, if it passes the
/// checks that the bits of `accept` leave and has the least length. The sum is still to be checked. If the bytes mapped
/// for the header contain the whole table, they are shown; else the header's claim ends before the request.
#[inline(always)]
fn claim_whole<'h, H: Lender>(
    head: Claim<'h, H>,
    signature: Signature,
    least: usize,
    accept: u32,
) -> AcpiResult<Claim<'h, H>>
    requires header { length (shown_by head) ≡ 36 }
    requires lent { IsLentOf (H.memory (claimed_from head)) head }
    requires signature { (header_at (shown_by head)).signature ≡ signature }
    requires some { 0 < least }
    requires asked { Allows (H.may (claimed_from head))
        (whole_ranges (accepted accept (sdt_kind signature least)) (claimed_at head) (shown_by head)) }
    ensures whole { let m = H.memory (claimed_from head.entry) in
        IfOk result (λ c. IsWholeClaim m head.entry least c) }
    ensures shown { let m = H.memory (claimed_from head.entry) in Gives (λ c. shown_by c) result
        (table_at m (unchecked (accepted accept (sdt_kind signature least))) (claimed_at head.entry)) }
{
    match SdtHeader::read(head.shown()).table_length(signature, least, accept) {
        Ok(length) => head.widen(length),
        Err(error) => {
            head.end();
            Err(error)
        }
    }
}

/// The bytes of a table that is accepted for some type, as they are mapped: small, so that a walk along
/// many addresses makes nothing as big as a record of the ones that it skips.
pub struct ValidTable<'h, H: Lender> {
    claim: Claim<'h, H>,
}

impl<'h, H: Lender> ValidTable<'h, H> {
    /// The mapping of these bytes: the table's record, and its bytes.
    #[inline(always)]
    pub fn mapping<T: PhysicalRecord>(self) -> PhysicalMapping<'h, H, T>
        requires { T.MIN_LENGTH ≤ length (shown_by self.claim) }
        ensures start { start_of result ≡ claimed_at self.entry.claim }
        ensures bytes { bytes_of result ≡ shown_by self.entry.claim }
        ensures lent { lent_of result ≡ all_of self.entry.claim }
        ensures handler { handler_of result ≡ claimed_from self.entry.claim }
    {
        let ValidTable { claim } = self;
        PhysicalMapping::of_claim(claim)
    }
}

/// What the checks of bytes return for a table of type `T` whose header has the names, and a length that is their
/// number.
#[inline(always)]
#[tactic(auto, using(crate::proofs::OwnTable::own_after))]
fn check_valid<T: AcpiTable>(bytes: &[u8]) -> AcpiResult<()>
    requires least { T.MIN_LENGTH ≤ length bytes.now }
    requires names { check_names T.SIGNATURE (header_at bytes.now) ≡ Ok tt }
    requires length { (header_at bytes.now).length ≡ length bytes.now }
    ensures { result ≡ check_of T.kind bytes.now }
{
    T::validate_rest(bytes)?;
    T::check_own(bytes)
}

/// The bytes of the table whose header is claimed, if it is valid for `T`. No record is made of them here:
/// they are small to pass on, and the record is read where it is to be.
#[inline(never)]
fn claim_valid<'h, H: Lender, T: AcpiTable>(head: Claim<'h, H>) -> AcpiResult<ValidTable<'h, H>>
    requires header { length (shown_by head) ≡ 36 }
    requires lent { IsLentOf (H.memory (claimed_from head)) head }
    requires signature { (header_at (shown_by head)).signature ≡ T.SIGNATURE }
    requires asked { Allows (H.may (claimed_from head))
        (whole_ranges T.kind (claimed_at head) (shown_by head)) }
    ensures whole { let m = H.memory (claimed_from head.entry) in
        IfOk result (λ v. IsWholeClaim m head.entry T.MIN_LENGTH v.claim) }
    ensures shown { let m = H.memory (claimed_from head.entry) in Gives (λ v. shown_by v.claim) result
        (table_at m T.kind (claimed_at head.entry)) }
{
    let claim = claim_whole(head, T::SIGNATURE, T::MIN_LENGTH, 0)?;
    match check_valid::<T>(claim.shown()) {
        Ok(()) => Ok(ValidTable { claim }),
        Err(error) => {
            claim.end();
            Err(error)
        }
    }
}

/// The bytes of the table at a physical address, if it is valid for `T` (section 5.2.6).
///
/// Fails as `map_table` does.
#[inline(always)]
#[tactic(auto, using(crate::proofs::AllowedRanges::asked_header, crate::proofs::AllowedRanges::asked_whole, crate::proofs::OwnTable::same_table))]
pub fn valid_at<'h, H: Lender, T: AcpiTable>(
    handler: &'h H,
    address: u64,
) -> AcpiResult<ValidTable<'h, H>>
    requires { Allows (H.may handler.now) (table_ranges (H.memory handler.now) T.kind address) }
    ensures place { IfOk result (λ v. claimed_at v.claim ≡ address) }
    ensures handler { IfOk result (λ v. claimed_from v.claim ≡ handler.now) }
    ensures least { IfOk result (λ v. T.MIN_LENGTH ≤ length (shown_by v.claim)) }
    // However many bytes are mapped, all of them are the memory's.
    ensures lent { IfOk result (λ v. IsLentOf (H.memory handler.now) v.claim) }
    ensures table { Gives (λ v. shown_by v.claim) result
        (table_at (H.memory handler.now) T.kind address) }
    // It depends on the table's header and, if this has the names and the least length, on the table.
    ensures footprint { let m = H.memory handler.now in
        Footprint m (table_ranges m T.kind address) (λ n. table_at n T.kind address)
        (Gives (λ v. shown_by v.claim) result) }
{
    let head = claim_header(handler, address, T::SIGNATURE)?;
    claim_valid::<H, T>(head)
}

/// What is left of the result of a type's check of a table's bytes by the bits of `accept`: by bit 0 an error of
/// the sum doesn't count, by bit 1 one of an id, after which only the sum is left to check.
fn left_of(
    checked: AcpiResult<()>,
    signature: Signature,
    bytes: &[u8],
    accept: u32,
) -> AcpiResult<()>
    ensures { result ≡ left_of (has_bit accept 0) (has_bit accept 1) signature bytes.now checked }
{
    match checked {
        Err(AcpiError::SdtInvalidChecksum(_)) if has_bit(accept as u64, 0) => Ok(()),
        Err(AcpiError::SdtInvalidOemId(_) | AcpiError::SdtInvalidTableId(_))
            if has_bit(accept as u64, 1) => {
            if !has_bit(accept as u64, 0) && byte_sum(bytes) != 0 {
                return Err(AcpiError::SdtInvalidChecksum(signature));
            }
            Ok(())
        }
        other => other,
    }
}

/// What the checks of bytes return for `T` that are left by the bits of `accept`, of which some are set.
#[tactic(auto, using(crate::proofs::OwnTable::own_after, crate::proofs::Accepted::left_decides))]
fn check_accepted<T: AcpiTable>(bytes: &[u8], accept: u32) -> AcpiResult<()>
    requires least { T.MIN_LENGTH ≤ length bytes.now }
    requires some { (has_bit accept 0 || has_bit accept 1) ≡ true }
    ensures { result ≡ check_of (accepted accept T.kind) bytes.now }
{
    let checked = T::read(bytes).validate(bytes);
    left_of(checked, T::SIGNATURE, bytes, accept)?;
    T::check_own(bytes)
}

/// The bytes of the table whose header is claimed, if by the bits of `accept`, of which some are set, it is accepted
/// for `T`.
#[inline(never)]
fn claim_accepted<'h, H: Lender, T: AcpiTable>(
    head: Claim<'h, H>,
    accept: u32,
) -> AcpiResult<ValidTable<'h, H>>
    requires header { length (shown_by head) ≡ 36 }
    requires lent { IsLentOf (H.memory (claimed_from head)) head }
    requires signature { (header_at (shown_by head)).signature ≡ T.SIGNATURE }
    requires some { (has_bit accept 0 || has_bit accept 1) ≡ true }
    requires asked { Allows (H.may (claimed_from head))
        (whole_ranges (accepted accept T.kind) (claimed_at head) (shown_by head)) }
    ensures whole { let m = H.memory (claimed_from head.entry) in
        IfOk result (λ v. IsWholeClaim m head.entry T.MIN_LENGTH v.claim) }
    ensures shown { let m = H.memory (claimed_from head.entry) in Gives (λ v. shown_by v.claim) result
        (table_at m (accepted accept T.kind) (claimed_at head.entry)) }
{
    let claim = claim_whole(head, T::SIGNATURE, T::MIN_LENGTH, accept)?;
    match check_accepted::<T>(claim.shown(), accept) {
        Ok(()) => Ok(ValidTable { claim }),
        Err(error) => {
            claim.end();
            Err(error)
        }
    }
}

/// The bytes of the table at a physical address, if it is accepted for `T` (section 5.2.6): if it is valid, or only
/// checks fail that are given up. By bit 0 of `accept` its sum may be any, by bit 1 both of its ids, and by 0 it has to
/// be valid. Of the result of `T::validate` an error of the sum or of an id doesn't count that is given up, and after
/// one of an id only the sum is left to check. `T::check_own` stays.
///
/// Fails as `map_table` does, but for those errors.
#[inline(always)]
#[tactic(auto, using(crate::proofs::AllowedRanges::asked_header, crate::proofs::AllowedRanges::asked_whole, crate::proofs::OwnTable::same_table))]
pub fn accepted_at<'h, H: Lender, T: AcpiTable>(
    handler: &'h H,
    address: u64,
    accept: u32,
) -> AcpiResult<ValidTable<'h, H>>
    requires { Allows (H.may handler.now) (table_ranges (H.memory handler.now) (accepted accept T.kind) address) }
    ensures place { IfOk result (λ v. claimed_at v.claim ≡ address) }
    ensures handler { IfOk result (λ v. claimed_from v.claim ≡ handler.now) }
    ensures least { IfOk result (λ v. T.MIN_LENGTH ≤ length (shown_by v.claim)) }
    // However many bytes are mapped, all of them are the memory's.
    ensures lent { IfOk result (λ v. IsLentOf (H.memory handler.now) v.claim) }
    ensures table { Gives (λ v. shown_by v.claim) result
        (table_at (H.memory handler.now) (accepted accept T.kind) address) }
    // It depends on the table's header and, if this has the names and the least length, on the table.
    ensures footprint { let m = H.memory handler.now in
        Footprint m (table_ranges m (accepted accept T.kind) address) (λ n. table_at n (accepted accept T.kind) address)
        (Gives (λ v. shown_by v.claim) result) }
{
    let head = claim_header(handler, address, T::SIGNATURE)?;
    if has_bit(accept as u64, 0) || has_bit(accept as u64, 1) {
        claim_accepted::<H, T>(head, accept)
    } else {
        // A `return`, so that the second lemma is tried for this value alone.
        #[tactic(auto, using(crate::proofs::AllowedRanges::asked_whole, crate::proofs::Accepted::none_given_up))]
        return claim_valid::<H, T>(head);
    }
}

/// The table at a physical address, if it is valid for `T` (sections 5.2.5 and 5.2.6).
///
/// Fails, in this order, with `MapFailed` if 36 bytes aren't mapped, `SdtInvalidSignature` if the signature
/// is another or is not valid UTF-8, `SdtInvalidOemId` and `SdtInvalidTableId` if that id is not valid
/// UTF-8, `SdtInvalidLength` if the length in the header is under `T::MIN_LENGTH`, `MapFailed` if that many
/// bytes aren't mapped, and with the error of `T::validate` for these bytes.
#[inline(always)]
#[tactic(auto, using(crate::proofs::OwnTable::same_table))]
pub fn map_table<'h, H: Lender, T: AcpiTable>(
    handler: &'h H,
    address: u64,
) -> AcpiResult<PhysicalMapping<'h, H, T>>
    requires { Allows (H.may handler.now) (table_ranges (H.memory handler.now) T.kind address) }
    ensures place { IfOk result (λ m. start_of m ≡ address) }
    ensures handler { IfOk result (λ m. handler_of m ≡ handler.now) }
    // However many bytes are mapped, all of them are the memory's.
    ensures lent { IfOk result (λ m. IsOfMemory (H.memory handler.now) m) }
    ensures table { Gives (λ m. bytes_of m) result
        (table_at (H.memory handler.now) T.kind address) }
    // It depends on the table's header and, if this has the names and the least length, on the table.
    ensures footprint { let m = H.memory handler.now in
        Footprint m (table_ranges m T.kind address) (λ n. table_at n T.kind address)
        (Gives (λ m. bytes_of m) result) }
{
    let valid = valid_at::<H, T>(handler, address)?;
    Ok(valid.mapping())
}

/// The bytes of the table whose header is claimed and has this signature, if by the bits of `accept` it is accepted as
/// one of a least length of which only the header and the sum matter.
#[inline(never)]
fn claim_by<'h, H: Lender>(
    head: Claim<'h, H>,
    signature: Signature,
    least: usize,
    accept: u32,
) -> AcpiResult<ValidTable<'h, H>>
    requires header { length (shown_by head) ≡ 36 }
    requires lent { IsLentOf (H.memory (claimed_from head)) head }
    requires signature { (header_at (shown_by head)).signature ≡ signature }
    requires least { 36 ≤ least }
    requires asked { Allows (H.may (claimed_from head))
        (whole_ranges (accepted accept (sdt_kind signature least)) (claimed_at head) (shown_by head)) }
    ensures whole { let m = H.memory (claimed_from head.entry) in
        IfOk result (λ v. IsWholeClaim m head.entry least v.claim) }
    ensures shown { let m = H.memory (claimed_from head.entry) in Gives (λ v. shown_by v.claim) result
        (table_at m (accepted accept (sdt_kind signature least)) (claimed_at head.entry)) }
{
    let claim = claim_whole(head, signature, least, accept)?;
    if !has_bit(accept as u64, 0) && byte_sum(claim.shown()) != 0 {
        claim.end();
        return Err(AcpiError::SdtInvalidChecksum(signature));
    }
    Ok(ValidTable { claim })
}

/// The bytes of the table at a physical address, if it is accepted under a signature that is known only at run time, as
/// one of a least length, of at least 36, of which only the header and the sum matter (section 5.2.6). By bit 0 of
/// `accept` its sum may be any, by bit 1 both of its ids, and by 0 it has to be valid.
///
/// Fails as `map_table` does for a type with that signature and least length, but for the checks that are skipped.
#[inline(always)]
#[tactic(auto, using(crate::proofs::AllowedRanges::asked_header, crate::proofs::AllowedRanges::asked_whole, crate::proofs::OwnTable::same_table))]
pub fn valid_by<'h, H: Lender>(
    handler: &'h H,
    address: u64,
    signature: Signature,
    least: usize,
    accept: u32,
) -> AcpiResult<ValidTable<'h, H>>
    requires least { 36 ≤ least }
    requires asked { Allows (H.may handler.now) (table_ranges (H.memory handler.now)
        (accepted accept (sdt_kind signature least)) address) }
    ensures place { IfOk result (λ v. claimed_at v.claim ≡ address) }
    ensures handler { IfOk result (λ v. claimed_from v.claim ≡ handler.now) }
    ensures least { IfOk result (λ v. least ≤ length (shown_by v.claim)) }
    ensures short { IfOk result (λ v. length (shown_by v.claim) < 2 ^ 32) }
    ensures ends { IfOk result (λ v. claimed_at v.claim + length (shown_by v.claim) < 2 ^ 64) }
    // However many bytes are mapped, all of them are the memory's.
    ensures lent { IfOk result (λ v. IsLentOf (H.memory handler.now) v.claim) }
    ensures table { Gives (λ v. shown_by v.claim) result
        (table_at (H.memory handler.now) (accepted accept (sdt_kind signature least)) address) }
    // It depends on the table's header and, if this has the names and the least length, on the table.
    ensures footprint { let m = H.memory handler.now in
        Footprint m (table_ranges m (accepted accept (sdt_kind signature least)) address)
        (λ n. table_at n (accepted accept (sdt_kind signature least)) address)
        (Gives (λ v. shown_by v.claim) result) }
{
    let head = claim_header(handler, address, signature)?;
    claim_by(head, signature, least, accept)
}

/// The bytes of the table at a physical address, if it is accepted in this way under the signature that it has itself,
/// whatever that is, with the least length 36 (section 5.2.6).
///
/// Fails as `valid_by` does for that signature.
#[inline(always)]
#[tactic(auto, using(crate::proofs::OwnTable::same_own_accepted), unfolding(acpi_bytes::specs::Accepted::own_accepted))]
pub fn own_valid_by<'h, H: Lender>(
    handler: &'h H,
    address: u64,
    accept: u32,
) -> AcpiResult<ValidTable<'h, H>>
    requires { Allows (H.may handler.now) (own_accepted_ranges accept (H.memory handler.now) address) }
    ensures place { IfOk result (λ v. claimed_at v.claim ≡ address) }
    ensures handler { IfOk result (λ v. claimed_from v.claim ≡ handler.now) }
    ensures least { IfOk result (λ v. 36 ≤ length (shown_by v.claim)) }
    ensures short { IfOk result (λ v. length (shown_by v.claim) < 2 ^ 32) }
    ensures ends { IfOk result (λ v. claimed_at v.claim + length (shown_by v.claim) < 2 ^ 64) }
    // However many bytes are mapped, all of them are the memory's.
    ensures lent { IfOk result (λ v. IsLentOf (H.memory handler.now) v.claim) }
    ensures table { Gives (λ v. shown_by v.claim) result (own_accepted accept (H.memory handler.now) address) }
    // It depends on the table's header and, if this has the names and the least length, on the table.
    ensures footprint { let m = H.memory handler.now in
        Footprint m (own_accepted_ranges accept m address) (λ n. own_accepted accept n address)
        (Gives (λ v. shown_by v.claim) result) }
{
    let head = Claim::request(handler, address, SdtHeader::MIN_LENGTH)?;
    let signature = Signature::leading(head.shown());
    claim_by(head, signature, SdtHeader::MIN_LENGTH, accept)
}

/// The table at a physical address under a signature that is known only at run time, mapped as its header
/// (section 5.2.6): of least length 36, and with only the checks of `SdtHeader::validate`.
///
/// Fails as `map_table` does for a type with that signature, the least length 36 and these checks.
#[inline(always)]
#[tactic(auto, using(crate::proofs::OwnTable::same_table))]
pub fn map_sdt<'h, H: Lender>(
    handler: &'h H,
    address: u64,
    signature: Signature,
) -> AcpiResult<PhysicalMapping<'h, H, SdtHeader>>
    requires { Allows (H.may handler.now) (table_ranges (H.memory handler.now)
        (plain_kind signature) address) }
    ensures place { IfOk result (λ m. start_of m ≡ address) }
    ensures handler { IfOk result (λ m. handler_of m ≡ handler.now) }
    // However many bytes are mapped, all of them are the memory's.
    ensures lent { IfOk result (λ m. IsOfMemory (H.memory handler.now) m) }
    ensures short { IfOk result (λ m. length (bytes_of m) < 2 ^ 32) }
    ensures ends { IfOk result (λ m. start_of m + length (bytes_of m) < 2 ^ 64) }
    ensures table { Gives (λ m. bytes_of m) result
        (table_at (H.memory handler.now) (plain_kind signature) address) }
    // It depends on the table's header and, if this has the names and the least length, on the table.
    ensures footprint { let m = H.memory handler.now in
        Footprint m (table_ranges m (plain_kind signature) address) (λ n. table_at n (plain_kind signature) address)
        (Gives (λ m. bytes_of m) result) }
{
    let valid = valid_by(handler, address, signature, SdtHeader::MIN_LENGTH, 0)?;
    Ok(valid.mapping())
}

/// The table at a physical address under the signature that it has itself, whatever that is, mapped as
/// its header (section 5.2.6).
///
/// Fails as `map_sdt` does for that signature.
#[inline(always)]
#[tactic(auto, using(crate::proofs::OwnTable::same_own_table))]
pub fn map_own_sdt<'h, H: Lender>(
    handler: &'h H,
    address: u64,
) -> AcpiResult<PhysicalMapping<'h, H, SdtHeader>>
    requires { Allows (H.may handler.now) (own_table_ranges (H.memory handler.now) address) }
    ensures place { IfOk result (λ m. start_of m ≡ address) }
    ensures handler { IfOk result (λ m. handler_of m ≡ handler.now) }
    // However many bytes are mapped, all of them are the memory's.
    ensures lent { IfOk result (λ m. IsOfMemory (H.memory handler.now) m) }
    ensures short { IfOk result (λ m. length (bytes_of m) < 2 ^ 32) }
    ensures table { Gives (λ m. bytes_of m) result (own_table_at (H.memory handler.now) address) }
    // It depends on the table's header and, if this has the names and the least length, on the table.
    ensures footprint { let m = H.memory handler.now in
        Footprint m (own_table_ranges m address) (λ n. own_table_at n address)
        (Gives (λ m. bytes_of m) result) }
{
    let valid = own_valid_by(handler, address, 0)?;
    Ok(valid.mapping())
}
