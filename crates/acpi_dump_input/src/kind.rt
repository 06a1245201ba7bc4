//! Which kind of input bytes are.
ghost use Rattle.std.specs.Prelude.{◌≡◌, IfSome};

use crate::candidates::has_valid_rsdp;
use crate::text::heading_in;
use acpi::sdt::field;
use acpi_image_reader::MemoryImage;
use std::alloc::Global;

/// A kind of input.
#[derive(Clone, Copy)]
pub enum Kind {
    /// An image of `acpi_pack`.
    Image,
    /// Memory as it is.
    Memory,
    /// The text of acpidump or acpiview.
    Text,
    /// One table.
    Table,
}

/// The kind that a word names.
pub fn parse_kind(word: &str) -> Option<Kind> {
    match word {
        "image" => Some(Kind::Image),
        "memory" => Some(Kind::Memory),
        "text" => Some(Kind::Text),
        "table" => Some(Kind::Table),
        _ => None,
    }
}

/// Whether a byte can stand in the signature of a table in a file: an upper-case letter, a digit, or one of
/// those that firmware uses besides.
fn is_letter(byte: u8) -> bool {
    byte.is_ascii_uppercase()
        || byte.is_ascii_digit()
        || matches!(byte, b'_' | b'!' | b'#' | b'$' | b'@')
}

/// Whether bytes begin as a table does: with the RSDP's signature, or with four letters and room for a header.
pub(crate) fn begins_as_table(bytes: &[u8]) -> bool {
    match bytes {
        [a, b, c, d, ..] if is_letter(*a) && is_letter(*b) && is_letter(*c) => {
            (is_letter(*d) || *d == b' ') && bytes.len() >= 8
        }
        _ => false,
    }
}

/// Whether bytes are a table by their length field, which is at offset 4, or an RSDP.
fn is_whole_table(bytes: &[u8]) -> bool {
    begins_as_table(bytes) && field(bytes, 4, 4) == bytes.len() as u64
}

/// The text that bytes are, if they are one without a NUL.
pub(crate) fn text_in(bytes: &[u8]) -> Option<&str>
    ensures { IfSome result (λ t. t.now ≡ bytes.now) }
{
    if bytes.contains(&0) {
        return None;
    }
    str::from_utf8(bytes).ok()
}

/// Whether bytes are a text with a heading of a table in it.
fn is_text(bytes: &[u8]) -> bool {
    match text_in(bytes) {
        Some(text) => text.split('\n').any(|line| heading_in(line).is_some()),
        None => false,
    }
}

/// Whether bytes are an image that lends some.
fn is_image(alloc: Global, bytes: &[u8]) -> bool {
    match &MemoryImage::from_bytes(alloc, bytes) {
        Ok(image) => image
            .records()
            .iter()
            .any(|record| !record.bytes.is_empty()),
        Err(_) => false,
    }
}

/// The kind of input that bytes are, or `None` if they are none. A table whose length isn't that of the bytes
/// comes after all that is surer, and memory last: it has to have a valid RSDP at a multiple of 16.
pub(crate) fn kind_of(alloc: Global, bytes: &[u8]) -> Option<Kind> {
    if bytes.is_empty() {
        return None;
    }
    if is_whole_table(bytes) {
        return Some(Kind::Table);
    }
    if is_image(alloc, bytes) {
        return Some(Kind::Image);
    }
    if is_text(bytes) {
        return Some(Kind::Text);
    }
    if begins_as_table(bytes) {
        return Some(Kind::Table);
    }
    if has_valid_rsdp(bytes) {
        return Some(Kind::Memory);
    }
    None
}
