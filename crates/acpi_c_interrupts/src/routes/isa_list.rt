//! How all ISA interrupts come to the I/O APICs, by one walk along the overrides and one along the I/O APICs.
ghost use Rattle.std.specs.Prelude.{◌≡◌, ◌<◌, ℕ, None, map, slice_index_or};
ghost use Rattle.acpi_base.specs.FromStd.{result_unwrap_or};
ghost use Rattle.acpi_base.specs.Words.{entries_of};
ghost use Rattle.acpi_c_lib.specs.Words.{Answers, result_map};
ghost use Rattle.acpi_c_interrupts.specs.Words.{isa_in, isa_list_below, isa_numbers, isa_route, nearer_of, no_route, number_of, route_of};

use crate::apics::apics;
use crate::apics::madt::io_apic_record;
use crate::apics::records::{self, Interrupt, IoApicPin, IsaInterrupts, IsaRoute};
use crate::routes::io_apic;
use crate::routes::wirings::Wirings;
use acpi::platform::interrupt::IoApic;
use acpi_base::madt::MadtEntryIter;
use acpi_c_lib::answer::answer;
use acpi_c_lib::records::{Signature, Source};
use acpi_c_lib::refusal::Refusal;
use acpi_c_lib::regions::Mapped;

/// The number that C gets of the 16 ISA interrupts, each with its pin.
pub fn isa_interrupts(source: &Source<'_>, out: &mut IsaInterrupts, named: &mut Signature) -> u32
    ensures { Answers result out.old out.new named.old named.new (isa_list_below source.now) }
{
    answer(isa_list(source, out), &mut (), named)
}

/// Writes the 16 ISA interrupts, each with its pin. They are written in place, since a copy takes much of the stack.
fn isa_list(source: &Source<'_>, out: &mut IsaInterrupts) -> Result<(), Refusal>
    ensures status { result ≡ result_map (λ list. tt) (isa_list_below source.now) }
    ensures written { out.new ≡ result_unwrap_or (isa_list_below source.now) out.old }
{
    let memory = Mapped::new(source.regions);
    let madt = apics(&memory, source)?;
    write_routes(madt.bytes(), &mut out.routes);
    Ok(())
}

/// Writes the routes of a MADT that describes APICs.
fn write_routes(table: &[u8], routes: &mut [IsaRoute; 16])
    ensures { routes.new ≡ map (isa_route (entries_of table.now)) isa_numbers }
{
    write_interrupts(table, routes);
    for entry in MadtEntryIter::over(table) {
        if let Some(io_apic) = io_apic(&entry) {
            meet_all(routes, &io_apic);
        }
    }
}

/// Writes each ISA interrupt, without its pin.
fn write_interrupts(table: &[u8], routes: &mut [IsaRoute; 16])
    ensures { (irq : ℕ) → irq < 16
        → slice_index_or routes.new irq no_route ≡ route_of (isa_in (entries_of table.now) irq) None }
{
    let wirings = Wirings::among(table);
    for irq in 0..16 {
        routes[irq] = without_pin(wirings.isa(irq as u8));
    }
}
/// Of each interrupt, the pin of this I/O APIC if it is nearer than the one so far.
fn meet_all(routes: &mut [IsaRoute; 16], io_apic: &IoApic)
    ensures { (irq : ℕ) → irq < 16 → (interrupt : _) (found : _)
        → slice_index_or routes.old irq no_route ≡ route_of interrupt found
        → slice_index_or routes.new irq no_route
        ≡ route_of interrupt (nearer_of (number_of interrupt) found io_apic.now) }
{
    for irq in 0..16 {
        routes[irq] = meet(routes[irq], io_apic);
    }
}

/// Of an interrupt, the pin of this I/O APIC if it is nearer than the one so far.
fn meet(route: IsaRoute, io_apic: &IoApic) -> IsaRoute
    ensures { (interrupt : _) (found : _) → route ≡ route_of interrupt found
        → result ≡ route_of interrupt (nearer_of (number_of interrupt) found io_apic.now) }
{
    let interrupt = route.interrupt.global_system_interrupt;
    let base = io_apic.global_system_interrupt_base;
    let is_nearer = route.has_pin == 0 || route.pin.io_apic.global_system_interrupt_base < base;
    if route.present == 0 || base > interrupt || !is_nearer {
        return route;
    }
    let pin = IoApicPin {
        io_apic: io_apic_record(io_apic),
        pin: interrupt - base,
    };
    IsaRoute {
        interrupt: route.interrupt,
        pin,
        present: 1,
        has_pin: 1,
        reserved: [0; 2],
    }
}

/// An interrupt, if there is one, that comes to no I/O APIC so far.
fn without_pin(interrupt: Result<Interrupt, Refusal>) -> IsaRoute
    ensures { result ≡ route_of interrupt None }
{
    match interrupt {
        Ok(interrupt) => IsaRoute {
            interrupt,
            present: 1,
            ..no_route()
        },
        Err(_) => no_route(),
    }
}

/// No interrupt: zeros.
fn no_route() -> IsaRoute
    ensures { result ≡ no_route }
{
    IsaRoute {
        interrupt: Interrupt {
            global_system_interrupt: 0,
            polarity: 0,
            trigger: 0,
            reserved: [0; 2],
        },
        pin: IoApicPin {
            io_apic: records::IoApic {
                address: 0,
                global_system_interrupt_base: 0,
                id: 0,
                reserved: [0; 3],
            },
            pin: 0,
        },
        present: 0,
        has_pin: 0,
        reserved: [0; 2],
    }
}
