//! The serial console.
ghost use Rattle.std.specs.Prelude.{◌≡◌};
ghost use Rattle.acpi_c_devices.specs.Words.{console_below};

mod shown;

use crate::fixed::records::Console;
use acpi::spcr::Spcr;
use acpi_base::bytes::field;
use acpi_c_lib::opening::first;
use acpi_c_lib::records::Source;
use acpi_c_lib::refusal::Refusal;
use acpi_c_lib::regions::Mapped;
use shown::console_record;

/// The serial console that the first valid SPCR describes.
pub fn console(source: &Source<'_>) -> Result<Console, Refusal>
    ensures { result ≡ console_below source.now }
{
    let memory = Mapped::new(source.regions);
    let spcr = first::<Spcr>(&memory, source)?;
    let interface_type = field(spcr.bytes(), 36, 1) as u8; // Interface Type
    Ok(console_record(&spcr, interface_type))
}
