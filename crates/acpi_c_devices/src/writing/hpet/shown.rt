//! Made by scripts/shown: records for C, and what is written of C's, as definitions in specs/ have them.
ghost use Rattle.std.specs.Prelude.{◌≡◌};
ghost use Rattle.acpi_c_devices.specs.Devices.{hpet_info_of};

use crate::records::HpetInfo;
use acpi::hpet::PageProtection;

/// The HPET to be written, which is described as C reads it.
pub fn hpet_info_of(i: &HpetInfo) -> acpi::HpetInfo
    ensures { result ≡ hpet_info_of i.now }
{
    acpi::HpetInfo {
        base_address: i.base_address,
        event_timer_block_id: i.event_timer_block_id,
        clock_tick_unit: i.clock_tick_unit,
        hpet_number: i.number,
        page_protection: PageProtection::from(i.page_protection),
    }
}
