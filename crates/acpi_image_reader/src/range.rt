//! Whether two ranges of addresses share a byte.
ghost use Rattle.std.specs.Prelude.{◌≡◌};
ghost use Rattle.acpi_image_reader.specs.Words.{share, region_in};

use acpi_base::AddressRange;

/// Whether some byte is in both of two ranges of addresses. One without bytes shares none.
#[tactic(auto, unfolding(crate::specs::Image::share))]
pub fn shares_byte(one: AddressRange, other: AddressRange) -> bool
    ensures { result ≡ share (region_in one) (region_in other) }
{
    one.length > 0 && other.length > 0 && (one.holds(other.address) || other.holds(one.address))
}
