//! The Serial Port Console Redirection Table (SPCR): the serial console that the firmware used.
ghost use Rattle.std.specs.Prelude.{◌≡◌, Some, None, if◌then◌else◌};
ghost use Rattle.acpi_base.specs.FromStd.{bit_and};
ghost use Rattle.acpi_base.specs.Words.{name_of, namespace_in, baud_of, bus_of, clock_of, device_id_of, device_of, function_of, interface_in, interrupt_of, irq_of, vendor_id_of, flow_byte, interrupt_byte, terminal_byte, namespace_of, Shows, flow_bits, interrupt_bits, terminal_bits, bytes_of};
ghost use Rattle.acpi_base.specs.Spcr.{base_of};

mod flags;
mod interface;
mod readings;

use crate::address::{GenericAddress, RawAddress};
use crate::bytes::{bits, has_bit, text_of};
use crate::error::{AcpiError, AcpiResult};
use crate::memory::handler::Lender;
use crate::memory::mapping::PhysicalMapping;
use crate::table::header::SdtHeader;
use bitflags::Flags;
pub use flags::{SpcrFlowControl, SpcrInterruptType, SpcrTerminalType};
pub use interface::SpcrInterfaceType;

/// The Serial Port Console Redirection Table (SPCR): the serial console that the firmware used. Section
/// 5.2.6 reserves its signature, and its layout is Microsoft's. A field that reaches past the table's end is
/// read as if zeros followed.
#[derive(Debug, Drop)]
pub struct Spcr {
    /// The header that every table begins with.
    pub header: SdtHeader,
    interface_type: u8,
    base_address: RawAddress,
    interrupt_type: u8,
    irq: u8,
    global_system_interrupt: u32,
    configured_baud_rate: u8,
    /// Parity: 0 is no parity; other codes are reserved, and kept as they are.
    pub parity: u8,
    /// Stop Bits: 1 is one stop bit; other codes are reserved, and kept as they are.
    pub stop_bits: u8,
    flow_control: u8,
    terminal_type: u8,
    /// Language: that of the texts that the firmware printed, 0 by the layout. It is kept as it is.
    pub language: u8,
    pci_device_id: u16,
    pci_vendor_id: u16,
    pci_bus_number: u8,
    pci_device_number: u8,
    pci_function_number: u8,
    /// PCI Flags: bit 0 set means that the operating system must neither suppress the device's enumeration
    /// nor disable its power management.
    pub pci_flags: u32,
    /// PCI Segment: the PCI segment group of the device.
    pub pci_segment: u8,
    uart_clock_frequency: u32,
    precise_baud_rate: u32,
    namespace_length: u16,
    namespace_offset: u16,
}

impl Spcr {
    /// Interface Type: the interface of the serial port's registers.
    pub fn interface_type(&self) -> SpcrInterfaceType
        ensures { result ≡ interface_in self.now }
    {
        SpcrInterfaceType::from(self.interface_type)
    }

    /// Base Address: the generic address (section 5.2.3.2) of the serial port's registers, or `None` if all
    /// twelve bytes are zero: console redirection is then off.
    ///
    /// Fails with `InvalidGenericAddress` if the address has a reserved code.
    pub fn base_address(&self) -> Option<AcpiResult<GenericAddress>>
        ensures { result ≡ base_of self.now }
    {
        if self.base_address == [0; 12] {
            return None;
        }
        Some(GenericAddress::read(&self.base_address))
    }

    /// Precise Baud Rate or Configured Baud Rate: the rate in bits per second. It is the precise one if that
    /// isn't 0, else that of the configured code (3, 4, 6 and 7: 9600, 19200, 57600 and 115200), or `None`
    /// for every other code.
    pub fn baud_rate(&self) -> Option<u32>
        ensures { result ≡ baud_of self.now }
    {
        if self.precise_baud_rate != 0 {
            return Some(self.precise_baud_rate);
        }
        match self.configured_baud_rate {
            3 => Some(9600),
            4 => Some(19200),
            6 => Some(57600),
            7 => Some(115200),
            _ => None,
        }
    }

    /// IRQ: the interrupt on the pair of 8259 controllers, or `None` if bit 0 of Interrupt Type isn't set:
    /// the port has none there.
    pub fn irq(&self) -> Option<u8>
        ensures { result ≡ irq_of self.now }
    {
        // Interrupt Type, bit 0: the 8259 controllers.
        if has_bit(self.interrupt_type as u64, 0) {
            Some(self.irq)
        } else {
            None
        }
    }

    /// Global System Interrupt: that of the port, or `None` if none of bits 1 to 4 of Interrupt Type is set:
    /// the port has no interrupt on another controller than the 8259s.
    pub fn global_system_interrupt(&self) -> Option<u32>
        ensures { result ≡ interrupt_of self.now }
    {
        // Interrupt Type, bits 1 to 4: the other controllers.
        if bits(self.interrupt_type as u64, 1, 4) == 0 {
            return None;
        }
        Some(self.global_system_interrupt)
    }

    /// Interrupt Type: the controllers that the port's interrupt comes to, by the lowest 5 bits of the
    /// table's byte.
    #[tactic(auto, unfolding(bitflags::specs::Sets::known_from))]
    pub fn interrupt_type(&self) -> SpcrInterruptType
        ensures { interrupt_bits result ≡ bit_and (interrupt_byte self.now) 0x1f }
    {
        SpcrInterruptType::from_bits_truncate(self.interrupt_type)
    }

    /// Terminal Type: the terminals that the firmware spoke to, by the lowest 4 bits of the table's byte.
    #[tactic(auto, unfolding(bitflags::specs::Sets::known_from))]
    pub fn terminal_type(&self) -> SpcrTerminalType
        ensures { terminal_bits result ≡ bit_and (terminal_byte self.now) 0x0f }
    {
        SpcrTerminalType::from_bits_truncate(self.terminal_type)
    }

    /// Flow Control: the ways in which the flow of bytes is controlled, by the lowest 3 bits of the table's
    /// byte.
    #[tactic(auto, unfolding(bitflags::specs::Sets::known_from))]
    pub fn flow_control(&self) -> SpcrFlowControl
        ensures { flow_bits result ≡ bit_and (flow_byte self.now) 0x07 }
    {
        SpcrFlowControl::from_bits_truncate(self.flow_control)
    }

    /// PCI Device ID: that of the port, or `None` if that is 0xffff: the port is not a PCI device.
    pub fn pci_device_id(&self) -> Option<u16>
        ensures { result ≡ device_id_of self.now }
    {
        unless(self.pci_device_id, 0xffff)
    }

    /// PCI Vendor ID: that of the port, or `None` if that is 0xffff: the port is not a PCI device.
    pub fn pci_vendor_id(&self) -> Option<u16>
        ensures { result ≡ vendor_id_of self.now }
    {
        unless(self.pci_vendor_id, 0xffff)
    }

    /// PCI Bus Number: that of the port, or `None` if that is 0.
    pub fn pci_bus_number(&self) -> Option<u8>
        ensures { result ≡ bus_of self.now }
    {
        unless(self.pci_bus_number, 0)
    }

    /// PCI Device Number: that of the port, or `None` if that is 0.
    pub fn pci_device_number(&self) -> Option<u8>
        ensures { result ≡ device_of self.now }
    {
        unless(self.pci_device_number, 0)
    }

    /// PCI Function Number: that of the port, or `None` if that is 0.
    pub fn pci_function_number(&self) -> Option<u8>
        ensures { result ≡ function_of self.now }
    {
        unless(self.pci_function_number, 0)
    }

    /// UART Clock Frequency: the clock of the port in Hz, or `None` if that is 0 or the table's revision is
    /// 2 or below.
    pub fn uart_clock_frequency(&self) -> Option<u32>
        ensures { result ≡ clock_of self.now }
    {
        if self.header.revision > 2 {
            unless(self.uart_clock_frequency, 0)
        } else {
            None
        }
    }
}

/// A number, unless it is the one that means none.
fn unless<N: Copy + PartialEq>(number: N, none: N) -> Option<N>
    ensures { result ≡ (if N.PartialEq.eq number none then None else Some number) }
{
    if number == none { None } else { Some(number) }
}

/// The name that a table's bytes contain at the place that its fields have.
fn namespace_in<'t>(spcr: &Spcr, table: &'t [u8]) -> AcpiResult<&'t str>
    ensures { Shows result (namespace_in spcr.now table.now) }
{
    let (offset, length) = (
        spcr.namespace_offset as usize,
        spcr.namespace_length as usize,
    );
    if offset + length > table.len() {
        return Err(AcpiError::InvalidNamespaceString);
    }
    name_of(&table[offset..offset + length])
}

/// The name that bytes encode.
#[tactic(auto, using(acpi_bytes::proofs::Spelling::is_text, acpi_bytes::proofs::Spelling::no_text))]
fn name_of(bytes: &[u8]) -> AcpiResult<&str>
    ensures { Shows result (name_of bytes.now) }
{
    match text_of(bytes) {
        Some(text) => Ok(text),
        None => Err(AcpiError::InvalidNamespaceString),
    }
}

impl<'h, H: Lender> PhysicalMapping<'h, H, Spcr> {
    /// NamespaceString: the name of the port's object in the ACPI namespace, or `.` if it has none. It has
    /// NamespaceStringLength bytes, from NamespaceStringOffset on, counted from the table's first byte.
    ///
    /// Fails with `InvalidNamespaceString` if these bytes reach past the table's end, or are not valid
    /// UTF-8.
    pub fn namespace_string(&self) -> AcpiResult<&str>
        ensures { Shows result (namespace_of (bytes_of self.now)) }
    {
        namespace_in(self.get(), self.bytes())
    }
}
