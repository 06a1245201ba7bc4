//! Devices that tables of their own describe.
ghost use Rattle.std.specs.Prelude.{◌≡◌, ◌≤◌, length};
ghost use Rattle.acpi.specs.Words.{accept_of, memory_of};
ghost use Rattle.acpi_c_lib.specs.Words.{Fills, lists_some};
ghost use Rattle.acpi_c_devices.specs.Words.{generic_record, graphic_below, graphic_record, no_register, optional_register, register_if, required_register, timer_below, timer_record, hpet_below, hpet_in, hpet_shown, hpets_below, hpets_in, pointers_left};

mod shown;

use crate::records::{self, BootGraphic, HpetInfo, Register};
use acpi::address::GenericAddress;
use acpi::bgrt::{Bgrt, ImageType};
use acpi::hpet::{HpetTable, PageProtection};
use acpi::platform::PmTimer;
use acpi::{Accept, AcpiError, AcpiHandler, AcpiResult, AcpiTables, Pointers};
use acpi_base::bytes::{bits, field_in, u8_in, u16_in, u32_in};
use acpi_c_lib::lists::{Listing, fill};
use acpi_c_lib::opening::{find_fadt, first, open};
use acpi_c_lib::records::Source;
use acpi_c_lib::refusal::Refusal;
use acpi_c_lib::regions::Mapped;
use shown::generic_record;

/// The block of event timers that the first valid HPET describes.
pub fn hpet(source: &Source<'_>) -> Result<HpetInfo, Refusal>
    ensures { result ≡ hpet_below source.now }
{
    let memory = Mapped::new(source.regions)?;
    let tables = open(&memory, source)?;
    let table = tables.find_table::<HpetTable>()?;
    let block = hpet_shown(table.bytes())?;
    Ok(block)
}

/// The block of event timers that the bytes of an HPET describe.
///
/// Fails with `InvalidGenericAddress` if its registers aren't in memory.
#[tactic(auto, unfolding(acpi::specs::Hpet::hpet_at))]
fn hpet_shown(table: &[u8]) -> AcpiResult<HpetInfo>
    requires { 56 ≤ length table.now }
    ensures { result ≡ hpet_shown table.now }
{
    // BASE_ADDRESS: Address Space ID, system memory
    if u8_in(table, 40) != 0 {
        return Err(AcpiError::InvalidGenericAddress);
    }
    // Page Protection And OEM Attribute, of which bits 0 to 3 are the former
    let protection = PageProtection::from(bits(u8_in(table, 55) as u64, 0, 4) as u8);
    Ok(HpetInfo {
        base_address: field_in(table, 44, 8), // BASE_ADDRESS: Address
        event_timer_block_id: u32_in(table, 36), // Event Timer Block ID
        clock_tick_unit: u16_in(table, 53), // Main Counter Minimum Clock_tick in Periodic Mode
        number: u8_in(table, 52), // HPET Number
        page_protection: protection.code(),
    })
}

/// Lists the blocks of event timers of all valid HPETs whose registers are in memory.
#[tactic(auto, using(acpi::proofs::First::filter_map_few))]
pub fn hpets(source: &Source<'_>, out: &mut [HpetInfo]) -> Result<usize, Refusal>
    ensures { Fills result out.old out.new (hpets_below source.now) }
{
    let memory = Mapped::new(source.regions)?;
    let tables = open(&memory, source)?;
    Ok(fill(tables.addresses(), &tables, out))
}

impl<H: AcpiHandler> Listing<AcpiTables<'_, H, Accept>, HpetInfo> for Pointers<'_> {
    ghost record_of = { λ t p. hpet_in (accept_of t) (memory_of t) p };

    ghost left = { λ t s. hpets_in (accept_of t) (memory_of t) (pointers_left s) };

    ghost gives_first = { λ t. lists_some (hpet_in (accept_of t) (memory_of t)) (λ s. pointers_left s) };

    fn record(tables: &AcpiTables<'_, H, Accept>, address: u64) -> Option<HpetInfo>
        ensures { result ≡ hpet_in (accept_of tables.now) (memory_of tables.now) address }
    {
        let table = tables.table_at::<HpetTable>(address).ok()?;
        hpet_shown(table.bytes()).ok()
    }
}

/// The power management timer of the first valid FADT.
pub fn timer(source: &Source<'_>) -> Result<records::PmTimer, Refusal>
    ensures { result ≡ timer_below source.now }
{
    let memory = Mapped::new(source.regions)?;
    let tables = open(&memory, source)?;
    let fadt = find_fadt(&tables)?;
    let timer = PmTimer::of(&fadt)?;
    Ok(timer_record(timer))
}

fn timer_record(timer: Option<PmTimer>) -> records::PmTimer
    ensures { result ≡ timer_record timer }
{
    match timer {
        Some(timer) => records::PmTimer {
            base: generic_record(&timer.base),
            present: 1,
            is_32_bit: timer.supports_32bit as u8,
            reserved: [0; 6],
        },
        None => records::PmTimer {
            base: no_register(),
            present: 0,
            is_32_bit: 0,
            reserved: [0; 6],
        },
    }
}

/// A register, or that there is none, or that its address is an error. Apart, as a call may have a dozen.
#[inline(never)]
pub(crate) fn optional_register(register: AcpiResult<Option<GenericAddress>>) -> Register
    ensures { result ≡ optional_register register }
{
    let (at, present) = match register {
        Ok(Some(at)) => (generic_record(&at), 1),
        Ok(None) => (no_register(), 0),
        Err(_) => (no_register(), 2),
    };
    Register {
        at,
        present,
        reserved: [0; 7],
    }
}

/// The address of a register that there isn't: zeros.
fn no_register() -> records::GenericAddress
    ensures { result ≡ no_register }
{
    records::GenericAddress {
        address: 0,
        space: 0,
        bit_width: 0,
        bit_offset: 0,
        access_size: 0,
        reserved: [0; 4],
    }
}

/// A register, or that its address is an error.
pub(crate) fn required_register(register: AcpiResult<GenericAddress>) -> Register
    ensures { result ≡ required_register register }
{
    optional_register(register.map(Some))
}

/// A register, or that there is none, or that its address is an error: for a call that reads the address only if
/// there is one.
pub(crate) fn register_if(register: Option<AcpiResult<GenericAddress>>) -> Register
    ensures { result ≡ register_if register }
{
    optional_register(register.transpose())
}

/// The image that the firmware showed, by the first valid BGRT.
pub fn graphic(source: &Source<'_>) -> Result<BootGraphic, Refusal>
    ensures { result ≡ graphic_below source.now }
{
    let memory = Mapped::new(source.regions);
    let bgrt = first::<Bgrt>(&memory, source)?;
    Ok(graphic_record(&bgrt))
}

fn graphic_record(bgrt: &Bgrt) -> BootGraphic
    ensures { result ≡ graphic_record bgrt.now }
{
    let (x, y) = bgrt.image_offset();
    BootGraphic {
        address: bgrt.image_address,
        x,
        y,
        orientation: bgrt.orientation_offset(),
        displayed: bgrt.was_displayed() as u8,
        image_type: match bgrt.image_type() {
            ImageType::Bitmap => 0,
            ImageType::Reserved => 1,
        },
        reserved: [0; 4],
    }
}
