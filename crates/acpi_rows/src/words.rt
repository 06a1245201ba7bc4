//! Words of a call.

use acpi::AddressRange;
use acpi::sdt::Signature;
use acpi_cli::parse_address;
use std::alloc::{AllocError, Global};

/// The first word of a text, and what comes after the blank that ends it.
pub(crate) fn first_word(text: &str) -> (&str, &str) {
    text.split_once(' ').unwrap_or((text, ""))
}

/// The number of a word. What isn't one is 0.
pub(crate) fn number_of(word: &str) -> u64 {
    parse_address(word).unwrap_or(0)
}

/// The low bits of a word's number.
pub(crate) fn id_of(word: &str) -> u32 {
    (number_of(word) % 0x1_0000_0000) as u32
}

/// The signature whose letters are the bytes of a word's number, the highest first.
pub(crate) fn signature_of(word: &str) -> Signature {
    Signature::from_bytes(id_of(word).to_be_bytes())
}

/// The areas that a text lists: the address and the length of each, and `, ` between them.
pub(crate) fn areas_of(alloc: Global, text: &str) -> Result<Vec<AddressRange>, AllocError> {
    let mut areas = Vec::new(alloc);
    for area in text.split(", ") {
        let (address, length) = first_word(area);
        if let Some(address) = parse_address(address) {
            let length = number_of(length);
            areas.push(AddressRange { address, length })?;
        }
    }
    Ok(areas)
}
