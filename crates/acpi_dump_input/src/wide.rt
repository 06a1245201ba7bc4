//! Texts in UTF-16, as PowerShell writes what a command prints.
ghost use Rattle.std.specs.Prelude.{◌≡◌, ◌∷◌, ◌<◌, IfOk, drop, length};
ghost use Rattle.acpi_dump_input.specs.Given.{is_wide as has_wide_mark, letter_of as wide_letter, letters_of};

use std::alloc::{AllocError, Global};

/// Whether bytes begin with the mark of a text in UTF-16 whose lower bytes come first.
pub(crate) fn is_wide(bytes: &[u8]) -> bool
    ensures { result ≡ has_wide_mark bytes.now }
{
    matches!(bytes, [0xff, 0xfe, ..])
}

/// The letter that two bytes are, or `?` if it isn't ASCII.
fn letter_of(low: u8, high: u8) -> u8
    ensures { result ≡ wide_letter low high }
{
    if high == 0 && low.is_ascii() {
        low
    } else {
        b'?'
    }
}

/// The first letter of a text that isn't empty, and what comes after it.
fn first_letter(text: &[u8]) -> (u8, &[u8])
    ensures first { 0 < length text.now → letters_of text.now ≡ result.0 ∷ letters_of result.1.now }
    ensures shorter { 0 < length text.now → length result.1.now < length text.now }
{
    match text {
        [low, high, rest @ ..] => (letter_of(*low, *high), rest),
        _ => (b'?', &[]),
    }
}

/// The text after the mark, with `?` in place of what isn't ASCII.
pub(crate) fn narrowed(alloc: Global, bytes: &[u8]) -> Result<Vec<u8>, AllocError>
    ensures { IfOk result (λ v. v.items ≡ letters_of (drop 2 bytes.now)) }
{
    let mut text = Vec::new(alloc);
    let mut rest = bytes.get(2..).unwrap_or(&[]);
    while !rest.is_empty() {
        let (letter, after) = first_letter(rest);
        text.push(letter)?;
        rest = after;
    }
    Ok(text)
}
