//! The entries of a GIC, each with its bytes (sections 5.2.12.14 to 5.2.12.18).
ghost use Rattle.std.specs.Prelude.{◌≡◌};
ghost use Rattle.acpi_table_writer.specs.GicMadt as gic;

use crate::arm::{flags_of, has_trigger, is_edge};
use crate::checked::{Checked, require};
use crate::error::WriterError;
use crate::fields::Field;
use acpi_arm::gic::{GicCpuInterface, SpiRange};

impl Checked for GicCpuInterface {
    ghost checked = { gic.interface_checked };

    fn check(&self) -> Result<(), WriterError> {
        require(
            has_trigger(self.performance_trigger) && has_trigger(self.maintenance_trigger),
            WriterError::SameAsBus,
        )
    }
}

/// The flags of a processor.
pub(crate) fn gicc_flags(x: &GicCpuInterface) -> u8
    ensures { result ≡ gic.gicc_flags x.now }
{
    flags_of(
        x.is_enabled,
        is_edge(x.performance_trigger),
        is_edge(x.maintenance_trigger),
        x.is_online_capable,
    )
}

/// The length of a GICC.
pub(crate) fn gicc_length(trace_buffer_interrupt: Option<u16>) -> u8
    ensures { result ≡ gic.gicc_length trace_buffer_interrupt }
{
    match trace_buffer_interrupt {
        Some(_) => 82,
        None => 80,
    }
}

/// TRBE Interrupt, if a GICC has it.
pub(crate) fn trace_field(trace_buffer_interrupt: Option<u16>) -> Field
    ensures { result ≡ gic.trace_field trace_buffer_interrupt }
{
    match trace_buffer_interrupt {
        Some(interrupt) => Field::U16(interrupt),
        None => Field::Zeros(0),
    }
}

/// The interrupts of a frame, or none of them.
pub(crate) fn spis_of(spis: Option<SpiRange>) -> SpiRange
    ensures { result ≡ gic.spis_of spis }
{
    match spis {
        Some(range) => range,
        None => SpiRange { base: 0, count: 0 },
    }
}

/// Whether the entry of a frame has its interrupts.
pub(crate) fn has_spis(spis: Option<SpiRange>) -> bool
    ensures { result ≡ gic.has_spis spis }
{
    match spis {
        Some(_) => true,
        None => false,
    }
}
