//! Interrupt controllers, and how interrupts come to them (section 5.2.12): the types of
//! `acpi_base::model`.

pub use acpi_base::model::{
    Apic, InterruptModel, InterruptSourceOverride, IoApic, IoApicPin, IsaInterrupt,
    LocalInterruptLine, LocalNmiLines, NmiLine, NmiProcessor, NmiSource, Polarity, TriggerMode,
};
