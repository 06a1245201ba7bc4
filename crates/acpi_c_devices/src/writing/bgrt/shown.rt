//! Made by scripts/shown: records for C, and what is written of C's, as definitions in specs/ have them.
ghost use Rattle.std.specs.Prelude.{◌≡◌};
ghost use Rattle.acpi_c_devices.specs.WrittenBgrt.{contents};

use crate::records::BootGraphic;
use crate::writing::bgrt::orientation;
use acpi_writer::BgrtContents;

pub fn contents(g: &BootGraphic) -> BgrtContents
    ensures { result ≡ contents g.now }
{
    BgrtContents {
        was_displayed: g.displayed != 0,
        orientation_offset: orientation(g.orientation),
        image_address: g.address,
        image_offset: (g.x, g.y),
    }
}
