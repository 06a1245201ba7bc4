//! The serial console.
//!
//! - `record`: whether the table is valid, and its fields;
//! - `console`: its interface, base address, interrupts, rates and PCI device, its sets of flags, and
//!   of a mapping the name in the namespace;
//! - `interrupt_type WORD`, `terminal_type WORD` and `flow_control WORD`: the bits of the set that a flag's name or
//!   bits mean.
ghost use Rattle.std.specs.Prelude.{◌≤◌, length};

use crate::out::Out;
use acpi::handler::MappedRegion;
use acpi::spcr::{Spcr, SpcrFlowControl, SpcrInterruptType, SpcrTerminalType};
use acpi::{AcpiTable, PhysicalMapping, PhysicalRecord};
use acpi_cli::parse_address;
use bitflags::Flags;
use bitflags::parser::to_writer;

/// Prints what the table of a serial console contains.
pub(super) fn answer(out: Out<'_>, bytes: &[u8], call: &str, rest: &str) {
    match call {
        "interrupt_type" => out.show(&bits_of::<SpcrInterruptType>(rest)),
        "terminal_type" => out.show(&bits_of::<SpcrTerminalType>(rest)),
        "flow_control" => out.show(&bits_of::<SpcrFlowControl>(rest)),
        _ if bytes.len() < 80 => out.print(&"short"),
        "record" => {
            let table = Spcr::read(bytes);
            out.spread(&(table.validate(bytes), &table));
        }
        _ => {
            console(out, &Spcr::read(bytes));
            name(out, bytes);
        }
    }
}

/// The bits of the set that a word names.
fn bits_of<F: Flags<Bits = u8>>(word: &str) -> Option<u8> {
    let set = match parse_address(word) {
        None => F::from_name(word),
        Some(bits) => F::from_bits(u8::try_from(bits).ok()?),
    };
    Some(set?.bits())
}

fn console(out: Out<'_>, table: &Spcr) {
    let (bus, device) = (table.pci_bus_number(), table.pci_device_number());
    let place = (bus, device, table.pci_function_number());
    out.spread(&(
        table.interface_type(),
        table.base_address(),
        (table.irq(), table.global_system_interrupt()),
        (table.baud_rate(), table.uart_clock_frequency()),
        (table.pci_device_id(), table.pci_vendor_id(), place),
    ));
    names(out, &table.interrupt_type());
    names(out, &table.terminal_type());
    names(out, &table.flow_control());
}

/// The names of the flags in a set, and the bits that have none.
fn names<F: Flags<Bits = u8>>(out: Out<'_>, set: &F) {
    let mut text = String::new(out.alloc());
    if to_writer(set, &mut text).is_ok() {
        out.show(&text);
    }
}

/// The name of its device in the namespace, which a mapping returns.
fn name(out: Out<'_>, bytes: &[u8])
    requires { 80 ≤ length bytes.now }
{
    if let Ok(region) = MappedRegion::new(0, bytes) {
        let console: PhysicalMapping<MappedRegion<'_>, Spcr> = PhysicalMapping::new(
            0,
            bytes,
            bytes.len(),
            &region,
        );
        out.show(&console.namespace_string());
    }
}
