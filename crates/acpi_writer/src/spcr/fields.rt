//! The fields of an SPCR, each with its bytes.
ghost use Rattle.std.specs.Prelude.{◌≡◌, IsUtf8, ◌++◌, [], ◌∷◌};
ghost use Rattle.acpi_base.specs.Words.{flow_bits, interrupt_bits, terminal_bits};
ghost use Rattle.acpi_writer.specs.Spcr as spcr;

use super::{SpcrContents, SpcrPciDevice};
use acpi_base::bytes::{bits, has_bit};
use acpi_base::spcr::{SpcrFlowControl, SpcrInterruptType, SpcrTerminalType};
use acpi_table_writer::fields::Field;
use acpi_table_writer::spelled::{Bytes, Spelled, Then};
use bitflags::Flags;

/// The PCI device, or the numbers of a port that is none.
pub(crate) fn device_of(device: Option<SpcrPciDevice>) -> SpcrPciDevice
    ensures { result ≡ spcr.device_written device }
{
    match device {
        Some(device) => device,
        None => SpcrPciDevice {
            device_id: 0xffff,
            vendor_id: 0xffff,
            bus: 0,
            device: 0,
            function: 0,
            flags: 0,
            segment: 0,
        },
    }
}

/// The code of a rate, or 0, which leaves it as it is.
pub(crate) fn baud_code(rate: u32) -> u8
    ensures { result ≡ spcr.baud_code rate }
{
    if rate == 9600 {
        3
    } else if rate == 19200 {
        4
    } else if rate == 57600 {
        6
    } else if rate == 115200 {
        7
    } else {
        0
    }
}

/// The byte Interrupt Type.
pub(crate) fn interrupt_byte(interrupt_type: SpcrInterruptType) -> u8
    ensures { result ≡ interrupt_bits interrupt_type }
{
    interrupt_type.bits()
}

/// IRQ, or 0 if the port has none on the 8259s.
pub(crate) fn irq_of(contents: &SpcrContents<'_>) -> u8
    ensures { result ≡ spcr.irq_written contents.now }
{
    if has_bit(interrupt_byte(contents.interrupt_type) as u64, 0) {
        contents.irq
    } else {
        0
    }
}

/// Global System Interrupt, or 0 if the port has none on another controller.
pub(crate) fn interrupt_of(contents: &SpcrContents<'_>) -> u32
    ensures { result ≡ spcr.interrupt_written contents.now }
{
    if bits(interrupt_byte(contents.interrupt_type) as u64, 1, 4) == 0 {
        0
    } else {
        contents.global_system_interrupt
    }
}

/// The byte Flow Control.
pub(crate) fn flow_byte(flow_control: SpcrFlowControl) -> u8
    ensures { result ≡ flow_bits flow_control }
{
    flow_control.bits()
}

/// The byte Terminal Type.
pub(crate) fn terminal_byte(terminal_type: SpcrTerminalType) -> u8
    ensures { result ≡ terminal_bits terminal_type }
{
    terminal_type.bits()
}

/// NamespaceStringLength: with the zero that ends the name.
pub(crate) fn name_length(contents: &SpcrContents<'_>) -> u16
    ensures { result ≡ spcr.name_length contents.now }
{
    let length = contents.namespace_string.len() as u64 + 1;
    (length % 0x10000) as u16
}

/// NamespaceString, which a zero ends.
#[derive(Clone, Copy)]
pub struct Name<'a>(pub(super) &'a str);

impl Spelled for Name<'_> {
    ghost spelled = { λ s. s.0.now ++ (0 ∷ []) };

    ghost fits = { λ s. IsUtf8 s.0.now };

    fn measure(&self, room: usize) -> Option<usize> {
        let text = self.0.as_bytes();
        let size = text.len() + 1;
        if room < size { None } else { Some(size) }
    }

    fn put(&self, out: &mut [u8]) {
        Then(Bytes(self.0.as_bytes()), Field::U8(0)).put(out);
    }
}
