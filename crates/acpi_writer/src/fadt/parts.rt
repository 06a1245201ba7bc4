//! The parts of a FADT, each with its bytes (section 5.2.9).
ghost use Rattle.std.specs.Prelude.{◌≡◌, ◌<◌, flat_map, All};
ghost use Rattle.acpi_writer.specs.Fadt as bytes;
ghost use Rattle.acpi_writer.specs.Words.{SystemIo, FitsRegister, register_bytes};

use super::contents::{FadtContents, FadtHardware, FixedHardware};
use crate::made::fadt::{flags_with, front_fields, wide_fields};
use acpi_base::address::{AccessSize, AddressSpace, GenericAddress};
use acpi_fixed::fadt::GpeBlock;
use acpi_table_writer::fields::{Field, Record};
use acpi_table_writer::flags::flag_number;
use acpi_table_writer::generic::register_or_zeros;
use acpi_table_writer::spelled::{Each, Spelled};

/// The fixed hardware, with zeros throughout if there is none.
fn fixed_of(hardware: &FadtHardware) -> FixedHardware
    ensures { result ≡ bytes.fixed_of hardware.now }
{
    match *hardware {
        FadtHardware::Fixed(given) => given,
        FadtHardware::Reduced => FixedHardware {
            smi_cmd_port: 0,
            acpi_enable: 0,
            acpi_disable: 0,
            s4bios_req: 0,
            pstate_control: 0,
            c_state_control: 0,
            pm1a_event: register_or_zeros(None),
            pm1b_event: None,
            pm1a_control: register_or_zeros(None),
            pm1b_control: None,
            pm2_control: None,
            pm_timer: None,
            gpe0: None,
            gpe1: None,
            gpe1_base: 0,
        },
    }
}

/// A block of general purpose events, as a register.
pub(crate) fn gpe_register(block: Option<GpeBlock>) -> Option<GenericAddress>
    ensures { result ≡ bytes.gpe_register block }
{
    match block {
        Some(given) => Some(GenericAddress {
            address_space: given.space,
            bit_width: if given.byte_length < 32 {
                8 * given.byte_length
            } else {
                255
            },
            bit_offset: 0,
            access_size: AccessSize::Undefined,
            address: given.address,
        }),
        None => None,
    }
}

/// The length of a block of general purpose events, in bytes.
pub(crate) fn gpe_length(block: Option<GpeBlock>) -> u8
    ensures { result ≡ bytes.gpe_length block }
{
    match block {
        Some(given) => given.byte_length,
        None => 0,
    }
}

/// The whole bytes of a register.
pub(crate) fn bytes_wide(register: Option<GenericAddress>) -> u8
    ensures { result ≡ bytes.bytes_wide register }
{
    register_or_zeros(register).bit_width / 8
}

/// The bytes of the timer, if there is one.
pub(crate) fn timer_length(timer: Option<GenericAddress>) -> u8
    ensures { result ≡ bytes.timer_length timer }
{
    if timer.is_some() { 4 } else { 0 }
}

/// An address, if a field of 32 bits has a place for it, else 0.
pub(crate) fn narrow(address: u64) -> u32
    ensures { result ≡ bytes.narrow address }
{
    if address < 0x100000000 {
        address as u32
    } else {
        0
    }
}

/// The port of a register, if it has one that a field of 32 bits has a place for, else 0.
pub(crate) fn port_of(register: Option<GenericAddress>) -> u32
    ensures { result ≡ bytes.port_of register }
{
    match register {
        Some(given) => match given.address_space {
            AddressSpace::SystemIo => narrow(given.address),
            _ => 0,
        },
        None => 0,
    }
}

/// An address, or 0.
pub(crate) fn address_or_zero(address: Option<u64>) -> u64
    ensures { result ≡ bytes.address_or_zero address }
{
    match address {
        Some(given) => given,
        None => 0,
    }
}

/// Whether there is no fixed hardware.
fn is_reduced(hardware: &FadtHardware) -> bool
    ensures { result ≡ bytes.is_reduced hardware.now }
{
    match *hardware {
        FadtHardware::Reduced => true,
        FadtHardware::Fixed(_) => false,
    }
}

/// Flags, as a number.
pub(crate) fn feature_number(contents: &FadtContents) -> u32
    ensures { result ≡ bytes.feature_number contents.now }
{
    flag_number(&flags_with(
        &contents.features,
        contents.reset_register.is_some(), // RESET_REG_SUP
        is_reduced(&contents.hardware), // HW_REDUCED_ACPI
    ))
}

/// The fields before RESET_REG.
#[derive(Clone, Copy)]
pub struct Front(pub(super) FadtContents);

impl Record for Front {
    type Fields = [Field; 38];

    ghost fields_of = { λ s. bytes.front_fields s.0 (bytes.fixed_of s.0.hardware) };

    fn fields(&self) -> [Field; 38] {
        front_fields(&self.0, &fixed_of(&self.0.hardware))
    }
}

/// The fields between RESET_REG and the registers.
#[derive(Clone, Copy)]
pub struct Wide(pub(super) FadtContents);

impl Record for Wide {
    type Fields = [Field; 5];

    ghost fields_of = { λ s. bytes.wide_fields s.0 };

    fn fields(&self) -> [Field; 5] {
        wide_fields(&self.0)
    }
}

/// The registers from X_PM1a_EVT_BLK to SLEEP_STATUS_REG.
fn registers(c: &FadtContents) -> [Option<GenericAddress>; 10]
    ensures { result ≡ bytes.registers c.now (bytes.fixed_of c.now.hardware) }
{
    let h = fixed_of(&c.hardware);
    [
        Some(h.pm1a_event),
        h.pm1b_event,
        Some(h.pm1a_control),
        h.pm1b_control,
        h.pm2_control,
        h.pm_timer,
        gpe_register(h.gpe0),
        gpe_register(h.gpe1),
        c.sleep_control,
        c.sleep_status,
    ]
}

/// The registers from X_PM1a_EVT_BLK to SLEEP_STATUS_REG, each with its bytes.
#[derive(Clone, Copy)]
pub struct WideRegisters(pub(super) FadtContents);

impl Spelled for WideRegisters {
    ghost spelled = { λ s. flat_map register_bytes (bytes.registers s.0 (bytes.fixed_of s.0.hardware)) };

    ghost fits = { λ s. All FitsRegister (bytes.registers s.0 (bytes.fixed_of s.0.hardware)) };

    fn measure(&self, room: usize) -> Option<usize> {
        Each(&registers(&self.0)).measure(room)
    }

    fn put(&self, out: &mut [u8]) {
        Each(&registers(&self.0)).put(out);
    }
}
