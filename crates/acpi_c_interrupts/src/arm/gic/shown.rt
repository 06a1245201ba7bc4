//! Made by scripts/shown: records for C, and what is written of C's, as definitions in specs/ have them.
ghost use Rattle.std.specs.Prelude.{◌≡◌};
ghost use Rattle.acpi_c_interrupts.specs.Arm.{cpu_interface_record, distributor_record, msi_frame_record, redistributors_record, translation_service_record};

use crate::arm::gic::spis_or;
use crate::arm::records::{GicCpuInterface, GicDistributor, GicMsiFrame, GicTranslationService};
use acpi_arm::gic::GicRedistributors;
use acpi_c_lib::records::Range;

pub(crate) fn distributor_record(d: &acpi_arm::gic::GicDistributor) -> GicDistributor
    ensures { result ≡ distributor_record d.now }
{
    GicDistributor {
        address: d.address,
        id: d.id,
        system_vector_base: d.system_vector_base,
        version: d.version,
        reserved: [0; 7],
    }
}

#[tactic(auto, unfolding(crate::specs::Arm::cpu_interface_record))]
pub(crate) fn cpu_interface_record(x: &acpi_arm::gic::GicCpuInterface) -> GicCpuInterface
    ensures { result ≡ cpu_interface_record x.now }
{
    GicCpuInterface {
        mpidr: x.mpidr,
        parked_address: x.parked_address,
        address: x.address,
        virtual_address: x.virtual_address,
        hypervisor_address: x.hypervisor_address,
        redistributor_address: x.redistributor_address,
        number: x.number,
        processor_uid: x.processor_uid,
        performance_interrupt: x.performance_interrupt,
        maintenance_interrupt: x.maintenance_interrupt,
        parking_protocol_version: x.parking_protocol_version,
        spe_overflow_interrupt: x.spe_overflow_interrupt,
        trace_buffer_interrupt: x.trace_buffer_interrupt.unwrap_or(0),
        is_enabled: x.is_enabled as u8,
        is_online_capable: x.is_online_capable as u8,
        performance_trigger: x.performance_trigger.code(),
        maintenance_trigger: x.maintenance_trigger.code(),
        efficiency_class: x.efficiency_class,
        reserved: [0; 3],
    }
}

pub(crate) fn redistributors_record(r: &GicRedistributors) -> Range
    ensures { result ≡ redistributors_record r.now }
{
    Range {
        address: r.address,
        length: r.length as u64,
    }
}

pub(crate) fn translation_service_record(
    t: &acpi_arm::gic::GicTranslationService,
) -> GicTranslationService
    ensures { result ≡ translation_service_record t.now }
{
    GicTranslationService {
        address: t.address,
        id: t.id,
        reserved: [0; 4],
    }
}

pub(crate) fn msi_frame_record(f: &acpi_arm::gic::GicMsiFrame) -> GicMsiFrame
    ensures { result ≡ msi_frame_record f.now }
{
    GicMsiFrame {
        address: f.address,
        id: f.id,
        spi_base: spis_or(f.spis).base,
        spi_count: spis_or(f.spis).count,
        has_spis: f.spis.is_some() as u8,
        reserved: [0; 7],
    }
}
