//! Raw memory as an image.
ghost use Rattle.std.specs.Prelude.{◌≡◌, IfOk};
ghost use Rattle.acpi_image_reader.specs.Words.{record_spelling};

use std::alloc::AllocError;

/// The image whose one record has these bytes from a physical address on. They are moved, since memory may be so much
/// that two of it are too much.
#[tactic(auto, using(crate::proofs::Reading::number_spelled, crate::proofs::Reading::to_front))]
pub(crate) fn image_of(address: u64, bytes: Vec<u8>) -> Result<Vec<u8>, AllocError>
    ensures { IfOk result (λ v. v.items
        ≡ record_spelling (record { start = address; bytes = bytes.items })) }
{
    let mut image = bytes;
    let length = image.len() as u64;
    image.extend_from_slice(&address.to_le_bytes()[..8])?;
    image.extend_from_slice(&length.to_le_bytes()[..8])?;
    image.rotate_right(16);
    Ok(image)
}
