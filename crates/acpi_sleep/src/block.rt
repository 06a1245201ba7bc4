//! Bytes, and blocks that begin with their own length (section 20.2.4).
ghost use Rattle.std.specs.Prelude.{◌≡◌, ◌+◌, ◌^◌, ◌<◌, ◌≤◌, length, IfOk};
ghost use Rattle.acpi_bytes.specs.Bytes.{field_of};
ghost use Rattle.acpi_sleep.specs.Words.{block_at, byte_at, bytes_end, package_size};

use crate::error::AmlError;
use acpi_base::bytes::field;

/// The byte at an offset.
pub(crate) fn byte_at(aml: &[u8], at: usize) -> Result<u8, AmlError>
    ensures exact { result ≡ byte_at aml.now at }
    ensures within { IfOk result (λ b. at < length aml.now) }
{
    match aml.get(at) {
        Some(byte) => Ok(*byte),
        None => Err(AmlError::PastEnd(at)),
    }
}

/// Where `n` bytes end that begin at an offset.
pub(crate) fn bytes_end(aml: &[u8], at: usize, n: usize) -> Result<usize, AmlError>
    requires at { at ≤ length aml.now }
    requires few { n ≤ 8 }
    ensures exact { result ≡ bytes_end aml.now at n }
    ensures after { IfOk result (λ end. end ≡ at + n) }
    ensures within { IfOk result (λ end. end ≤ length aml.now) }
{
    if at + n <= aml.len() {
        Ok(at + n)
    } else {
        Err(AmlError::PastEnd(at))
    }
}

/// The number of one to three bytes.
fn short_field(aml: &[u8], at: usize, n: usize) -> usize
    requires { n ≤ 3 }
    ensures value { result ≡ field_of aml.now at n }
    ensures fits { result < 2 ^ 24 }
{
    match n {
        0 => field(aml, at, 0) as usize,
        1 => field(aml, at, 1) as usize,
        2 => field(aml, at, 2) as usize,
        _ => field(aml, at, 3) as usize,
    }
}

/// What the PkgLength at an offset contains, of which this is the lead byte.
fn package_size(aml: &[u8], at: usize, lead: u8) -> usize
    requires { at ≤ length aml.now }
    ensures value { result ≡ package_size aml.now at lead }
    ensures fits { result < 2 ^ 29 }
{
    if lead < 64 {
        lead as usize
    } else {
        lead as usize % 16 + 16 * short_field(aml, at + 1, lead as usize / 64)
    }
}

/// What a PkgLength is before.
#[derive(Clone, Copy)]
pub struct Block {
    /// The offset of the first byte after the PkgLength.
    pub start: usize,
    /// The offset after the last.
    pub end: usize,
}

/// The block whose PkgLength begins at an offset, which is at most the length of the AML.
///
/// Fails with `PastEnd` if the AML ends there, and with `InvalidLength` if the length is less than its own bytes or
/// goes past the end.
#[tactic(auto, unfolding(crate::specs::Blocks::block_at))]
pub fn block_at(aml: &[u8], at: usize) -> Result<Block, AmlError>
    requires { at ≤ length aml.now }
    ensures exact { result ≡ block_at aml.now at }
    ensures after { IfOk result (λ b. at < b.start) }
    ensures ordered { IfOk result (λ b. b.start ≤ b.end) }
    ensures within { IfOk result (λ b. b.end ≤ length aml.now) }
{
    let lead = byte_at(aml, at)?;
    let start = at + 1 + lead as usize / 64;
    let end = at + package_size(aml, at, lead);
    if start <= end && end <= aml.len() {
        Ok(Block { start, end })
    } else {
        Err(AmlError::InvalidLength(at))
    }
}
