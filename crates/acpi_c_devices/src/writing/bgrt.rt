//! The BGRT that is written for C (section 5.2.22), from the record as which C reads it.
ghost use Rattle.std.specs.Prelude.{◌≡◌};
ghost use Rattle.acpi_c_devices.specs.WrittenBgrt as written;

mod shown;

use crate::records::BootGraphic;
use acpi_writer::bgrt::BgrtOrientation;
pub use shown::contents;

/// The orientation by its degrees; what any other number returns isn't used.
fn orientation(degrees: u16) -> BgrtOrientation
    ensures { result ≡ written.orientation degrees }
{
    match degrees {
        90 => BgrtOrientation::Degrees90,
        180 => BgrtOrientation::Degrees180,
        270 => BgrtOrientation::Degrees270,
        _ => BgrtOrientation::Degrees0,
    }
}

/// Whether the image has an orientation that there is, and is a bitmap.
pub fn has_codes(graphic: &BootGraphic) -> bool
    ensures { result ≡ written.has_codes graphic.now }
{
    matches!(graphic.orientation, 0 | 90 | 180 | 270) && graphic.image_type == 0
}
