//! The sum of bytes modulo 256 in lanes: sixteen bytes are added at once, each to a sum of its own.
ghost use Rattle.std.specs.Prelude.{◌≡◌, ◌⊎◌, ◌-◌, ◌+◌, ◌<◌, ◌≤◌, length, take, ℕ};
ghost use Rattle.acpi_bytes.specs.FromStd.{chunk};
ghost use Rattle.acpi_bytes.specs.Words.{sum_of, AddsUp};

use std::simd::prelude::*;

/// As many bytes as a vector has.
pub(super) const LANES: usize = 16;

/// As many bytes as one turn of the loop adds.
const BLOCK: usize = 4 * LANES;

/// From place `n` on, these are the lanes that keep the last `n` of sixteen.
static TAIL_MASKS: [u8; 32] = [
    0, 0, 0, 0, 0, 0, 0, 0, 0, 0, 0, 0, 0, 0, 0, 0, 255, 255, 255, 255, 255, 255, 255, 255, 255,
    255, 255, 255, 255, 255, 255, 255,
];

/// The sum of the bytes of at least one vector modulo 256.
#[inline(always)]
#[tactic(auto, using(crate::proofs::Sums::adds_up_nothing))]
pub(super) fn lane_sum(bytes: &[u8]) -> u8
    requires { LANES ≤ length bytes.now }
    ensures { result ≡ sum_of bytes.now }
{
    if bytes.len() < BLOCK {
        finished(u8x16::splat(0), bytes, 0)
    } else {
        long_sum(bytes)
    }
}

/// The sum of many bytes modulo 256, out of line, so that callers hold the code for few alone.
#[inline(never)]
#[tactic(auto, using(crate::proofs::Sums::adds_up_nothing))]
fn long_sum(bytes: &[u8]) -> u8
    requires { BLOCK ≤ length bytes.now }
    ensures { result ≡ sum_of bytes.now }
{
    let mut lanes = u8x16::splat(0);
    let mut at = 0;
    while bytes.len() - at >= BLOCK {
        lanes = with_vector(lanes, bytes, at);
        lanes = with_vector(lanes, bytes, at + LANES);
        lanes = with_vector(lanes, bytes, at + 2 * LANES);
        lanes = with_vector(lanes, bytes, at + 3 * LANES);
        at += BLOCK;
    }
    finished(lanes, bytes, at)
}

/// The sum of all bytes, if lanes contain that of the bytes before a place and less than a block
/// is after it.
#[inline(always)]
fn finished(begun: u8x16, bytes: &[u8], begin: usize) -> u8
    requires long { LANES ≤ length bytes.now }
    requires within { begin ≤ length bytes.now }
    requires short { length bytes.now - begin < BLOCK }
    requires sums { AddsUp begun (take begin bytes.now) }
    ensures { result ≡ sum_of bytes.now }
{
    // At most three vectors are after the blocks.
    let (lanes, at) = one_more(begun, bytes, begin);
    let (lanes, at) = one_more(lanes, bytes, at);
    let (lanes, at) = one_more(lanes, bytes, at);
    // The last vector, of which the lanes that are counted already are 0.
    let last = vector_at(bytes, bytes.len() - LANES) & vector_at(&TAIL_MASKS, bytes.len() - at);
    (lanes + last).reduce_sum()
}

/// One vector more, if a whole one is at the place.
#[inline(always)]
fn one_more(lanes: u8x16, bytes: &[u8], at: usize) -> (u8x16, usize)
    requires within { at ≤ length bytes.now }
    requires sums { AddsUp lanes (take at bytes.now) }
    ensures within { result.1 ≤ length bytes.now }
    ensures left { (length bytes.now - result.1 < LANES)
        ⊎ (length bytes.now - result.1 + LANES ≡ length bytes.now - at) }
    ensures sums { AddsUp result.0 (take result.1 bytes.now) }
{
    if bytes.len() - at < LANES {
        (lanes, at)
    } else {
        (with_vector(lanes, bytes, at), at + LANES)
    }
}

/// The lanes with the vector at a place added.
#[inline(always)]
fn with_vector(lanes: u8x16, bytes: &[u8], at: usize) -> u8x16
    requires there { at + LANES ≤ length bytes.now }
    requires sums { AddsUp lanes (take at bytes.now) }
    ensures { (end : ℕ) → at + LANES ≡ end → AddsUp result (take end bytes.now) }
{
    lanes + vector_at(bytes, at)
}

/// The sixteen bytes at a place.
#[inline(always)]
fn vector_at(bytes: &[u8], at: usize) -> u8x16
    requires { at + LANES ≤ length bytes.now }
    ensures { result ≡ chunk at LANES bytes.now }
{
    u8x16::from_slice(&bytes[at..])
}
