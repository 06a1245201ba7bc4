//! The MADT of an Arm machine that is written for C (sections 5.2.12.14 to 5.2.12.18), from its records of the GIC.
ghost use Rattle.std.specs.Prelude.{◌≡◌, ◌&&◌, ◌<◌};
ghost use Rattle.acpi_c_lib.specs.Words.{is_short};
ghost use Rattle.acpi_c_interrupts.specs.Words.{list_all, is_wiring};
ghost use Rattle.acpi_c_interrupts.specs.WrittenGic as written;

mod shown;

use super::madt::is_wiring;
use crate::arm::records::{GicCpuInterface, GicMsiFrame, GicTranslationService};
use crate::written_records::GicContents;
use acpi_arm::gic;
use acpi_c_lib::records::Range;
use acpi_c_lib::refusal::Refusal;
use acpi_table_writer::spelled::StandsFor;
use acpi_table_writer::{WriterError, require};
use shown::{cpu_interface_of, distributor_of, msi_frame_of, translation_service_of};

impl StandsFor<gic::GicCpuInterface> for GicCpuInterface {
    ghost meant = { written.cpu_interface_of };

    fn item(&self) -> gic::GicCpuInterface {
        cpu_interface_of(self)
    }
}

impl StandsFor<gic::GicTranslationService> for GicTranslationService {
    ghost meant = { written.translation_service_of };

    fn item(&self) -> gic::GicTranslationService {
        translation_service_of(self)
    }
}

impl StandsFor<gic::GicMsiFrame> for GicMsiFrame {
    ghost meant = { written.msi_frame_of };

    fn item(&self) -> gic::GicMsiFrame {
        msi_frame_of(self)
    }
}

fn has_codes(interfaces: &[GicCpuInterface]) -> bool
    ensures { result ≡ list_all (λ x. is_wiring x.performance_trigger && is_wiring x.maintenance_trigger)
        interfaces.now }
{
    interfaces.iter().all(|x| is_wiring(x.performance_trigger) && is_wiring(x.maintenance_trigger))
}

fn are_short(ranges: &[Range]) -> bool
    ensures { result ≡ list_all is_short ranges.now }
{
    ranges.iter().all(|x| x.length < 0x100000000)
}

/// The contents, as the writer has them.
pub fn contents<'a>(
    given: &GicContents<'a>,
) -> acpi_table_writer::GicContents<'a, GicCpuInterface, Range, GicTranslationService, GicMsiFrame>
    ensures { result ≡ written.contents_of given.now }
{
    acpi_table_writer::GicContents {
        distributor: distributor_of(&given.distributor),
        cpu_interfaces: given.cpu_interfaces,
        redistributors: given.redistributors,
        translation_services: given.translation_services,
        msi_frames: given.msi_frames,
    }
}

/// Checks what the writer can't see: returns `UnknownCode` if a trigger mode isn't one that there is, and then
/// `BadRange` if a range of redistributors has 2^32 bytes or more.
pub fn check(given: &GicContents<'_>) -> Result<(), Refusal>
    ensures { result ≡ written.checked given.now }
{
    require(has_codes(given.cpu_interfaces), Refusal::UnknownCode)?;
    require(are_short(given.redistributors), WriterError::BadRange)?;
    Ok(())
}
