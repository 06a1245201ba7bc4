//! The RSDP of a source (section 5.2.5.3).
ghost use Rattle.std.specs.Prelude.{◌≡◌};
ghost use Rattle.acpi_c_lib.specs.Words.{rsdp_below, rsdp_record};

use crate::opening::{check_policy, find_rsdp};
use crate::records::{self, Source};
use crate::refusal::Refusal;
use crate::regions::Mapped;
use acpi::rsdp::{Rsdp, read_accepted};

/// The RSDP of a source. The root table isn't looked at.
pub fn rsdp(source: &Source<'_>) -> Result<records::Rsdp, Refusal>
    ensures { result ≡ rsdp_below source.now }
{
    let memory = Mapped::new(source.regions)?;
    check_policy(source)?;
    let found = find_rsdp(&memory, source)?;
    let rsdp = read_accepted(&memory, &found, source.accept);
    Ok(rsdp_record(found.physical_start(), &rsdp))
}

/// An RSDP at an address.
fn rsdp_record(address: u64, rsdp: &Rsdp) -> records::Rsdp
    ensures { result ≡ rsdp_record address rsdp.now }
{
    records::Rsdp {
        address,
        xsdt_address: rsdp.xsdt_address().unwrap_or(0),
        rsdt_address: rsdp.rsdt_address(),
        length: rsdp.length().unwrap_or(20),
        revision: rsdp.revision(),
        oem_id: rsdp.oem_id,
        reserved: 0,
    }
}
