//! The parts of a GIC, each as one entry of a MADT describes it (sections 5.2.12.14 to 5.2.12.18).
ghost use Rattle.std.specs.Prelude.{◌≡◌};
ghost use Rattle.acpi_arm.specs.Gic.{cpu_interface_of, distributor_in, spis_of};

use crate::interrupt::trigger_in;
use acpi_base::bytes::has_bit;
use acpi_base::madt::{GicMsiFrameEntry, GiccEntry, MadtEntry};
use acpi_base::model::TriggerMode;

/// GIC Distributor (GICD): the distributor of interrupts (section 5.2.12.15).
#[derive(Clone, Copy, Debug)]
pub struct GicDistributor {
    /// GIC ID: the id of the distributor.
    pub id: u32,
    /// Physical Base Address: that of the distributor's registers.
    pub address: u64,
    /// GIC version: that of the controller, 1 to 4. 0: the hardware has it. Others are kept as they are.
    pub version: u8,
    /// System Vector Base: reserved, and 0 by the specification. It is kept as it is.
    pub system_vector_base: u32,
}

/// GIC CPU Interface (GICC): a processor, and its interface to the GIC (section 5.2.12.14). A field that
/// reaches past the end of a short entry is read as if zeros followed.
#[derive(Clone, Copy, Debug)]
pub struct GicCpuInterface {
    /// CPU Interface Number: the number of the interface. In a GIC of version 1 or 2 it is the processor's
    /// bit in the distributor's registers.
    pub number: u32,
    /// ACPI Processor UID: the `_UID` of the processor's object in the namespace.
    pub processor_uid: u32,
    /// MPIDR: the processor's affinity, as in its register of that name.
    pub mpidr: u64,
    /// Enabled (bit 0 of the flags): the processor can be used.
    pub is_enabled: bool,
    /// Online Capable (bit 3 of the flags, since ACPI 6.5): a processor that isn't enabled can be enabled
    /// later. False for a MADT below revision 6, in which the bit is reserved.
    pub is_online_capable: bool,
    /// Performance Interrupt GSIV: the interrupt of the performance counters. 0: there is none.
    pub performance_interrupt: u32,
    /// Performance Interrupt Mode (bit 1 of the flags, set if it is edge-triggered): what raises the
    /// performance interrupt.
    pub performance_trigger: TriggerMode,
    /// Parking Protocol Version: that of the processor. 0: it has none, and is woken by PSCI.
    pub parking_protocol_version: u32,
    /// Parked Address: the physical address of the parking protocol's mailbox.
    pub parked_address: u64,
    /// Physical Base Address (GICC): that of the interface's registers. 0: there are none in memory.
    pub address: u64,
    /// GICV: the physical address of the virtual interface's registers. 0: there are none.
    pub virtual_address: u64,
    /// GICH: the physical address of the registers that control the virtual interface. 0: there are none.
    pub hypervisor_address: u64,
    /// VGIC Maintenance interrupt: that of the virtual interface. 0: there is none.
    pub maintenance_interrupt: u32,
    /// VGIC Maintenance Interrupt Mode (bit 2 of the flags, set if it is edge-triggered): what raises the
    /// maintenance interrupt.
    pub maintenance_trigger: TriggerMode,
    /// GICR Base Address: that of the processor's redistributor. 0: there is none, or it is in one of
    /// the ranges of `GicRedistributors`.
    pub redistributor_address: u64,
    /// Processor Power Efficiency Class: how much power the processor takes next to the others; less is
    /// less.
    pub efficiency_class: u8,
    /// SPE overflow Interrupt: that of the statistical profiling extension. 0: there is none.
    pub spe_overflow_interrupt: u16,
    /// TRBE Interrupt: that of the trace buffer, or `None` for a MADT below revision 6 and for an entry
    /// that ends before its byte 82. 0: there is none.
    pub trace_buffer_interrupt: Option<u16>,
}

/// GIC Redistributor (GICR): a range of memory that holds redistributors (section 5.2.12.17).
#[derive(Clone, Copy, Debug)]
pub struct GicRedistributors {
    /// Discovery Range Base Address: the physical address of the range's first byte.
    pub address: u64,
    /// Discovery Range Length: the range's length in bytes, which can be 0.
    pub length: u32,
}

/// GIC Interrupt Translation Service (ITS): it translates messages to interrupts (section 5.2.12.18).
#[derive(Clone, Copy, Debug)]
pub struct GicTranslationService {
    /// GIC ITS ID: the id of the service.
    pub id: u32,
    /// Physical Base Address: that of the service's registers.
    pub address: u64,
}

/// SPI Base and SPI Count: the shared peripheral interrupts (SPIs) of a GIC MSI Frame (section 5.2.12.16).
#[derive(Clone, Copy, Debug)]
pub struct SpiRange {
    /// SPI Base: the number of the first interrupt.
    pub base: u16,
    /// SPI Count: how many interrupts there are.
    pub count: u16,
}

/// GIC MSI Frame: a frame that turns messages into interrupts (section 5.2.12.16).
#[derive(Clone, Copy, Debug)]
pub struct GicMsiFrame {
    /// GIC MSI Frame ID: the id of the frame.
    pub id: u32,
    /// Physical Base Address: that of the frame's registers.
    pub address: u64,
    /// SPI Base and SPI Count: the frame's interrupts, or `None` if SPI Count/Base Select (bit 0 of the
    /// flags) isn't set: the registers then have them.
    pub spis: Option<SpiRange>,
}

/// The distributor that an entry describes, or `None` if it is of another kind.
pub fn distributor_in(entry: &MadtEntry) -> Option<GicDistributor>
    ensures { result ≡ distributor_in entry.now }
{
    match entry {
        MadtEntry::Gicd(e) => Some(GicDistributor {
            id: e.gic_id,
            address: e.physical_base_address,
            version: e.gic_version,
            system_vector_base: e.system_vector_base,
        }),
        _ => None,
    }
}

/// An item of a list of the model.
pub trait GicPart: Drop {
    ghost use Rattle.std.specs.Prelude.{ℕ, Option};
    ghost use Rattle.acpi.specs.Types.{MadtEntry};

    // What an entry of a table of a revision contains.
    ghost part_in: { ℕ → MadtEntry → Option Self };

    /// What an entry of a table of a revision contains, or `None` if it is of another kind.
    fn said(entry: &MadtEntry, revision: u8) -> Option<Self>
        ensures { result ≡ part_in revision entry.now };
}

impl GicPart for GicCpuInterface {
    ghost use Rattle.acpi_arm.specs.Gic.{cpu_interface_in};

    ghost part_in = { cpu_interface_in };

    fn said(entry: &MadtEntry, revision: u8) -> Option<Self> {
        match entry {
            MadtEntry::Gicc(e) => Some(cpu_interface_of(e, revision)),
            _ => None,
        }
    }
}

impl GicPart for GicRedistributors {
    ghost use Rattle.acpi_arm.specs.Gic.{redistributors_in};

    ghost part_in = { redistributors_in };

    fn said(entry: &MadtEntry, _revision: u8) -> Option<Self> {
        match entry {
            MadtEntry::GicRedistributor(e) => Some(GicRedistributors {
                address: e.discovery_range_base_address,
                length: e.discovery_range_length,
            }),
            _ => None,
        }
    }
}

impl GicPart for GicTranslationService {
    ghost use Rattle.acpi_arm.specs.Gic.{translation_service_in};

    ghost part_in = { translation_service_in };

    fn said(entry: &MadtEntry, _revision: u8) -> Option<Self> {
        match entry {
            MadtEntry::GicInterruptTranslationService(e) => Some(GicTranslationService {
                id: e.id,
                address: e.physical_base_address,
            }),
            _ => None,
        }
    }
}

impl GicPart for GicMsiFrame {
    ghost use Rattle.acpi_arm.specs.Gic.{msi_frame_in};

    ghost part_in = { msi_frame_in };

    fn said(entry: &MadtEntry, _revision: u8) -> Option<Self> {
        match entry {
            MadtEntry::GicMsiFrame(e) => Some(GicMsiFrame {
                id: e.frame_id,
                address: e.physical_base_address,
                spis: spis_of(e),
            }),
            _ => None,
        }
    }
}

/// What an entry contains of a processor, in a table of a revision.
fn cpu_interface_of(entry: &GiccEntry, revision: u8) -> GicCpuInterface
    ensures { result ≡ cpu_interface_of revision entry.now }
{
    GicCpuInterface {
        number: entry.cpu_interface_number,
        processor_uid: entry.processor_uid,
        mpidr: entry.mpidr,
        is_enabled: has_bit(entry.flags as u64, 0), // Enabled
        // Online Capable, since ACPI 6.5.
        is_online_capable: revision >= 6 && has_bit(entry.flags as u64, 3),
        performance_interrupt: entry.performance_interrupt_gsiv,
        performance_trigger: trigger_in(entry.flags, 1), // Performance Interrupt Mode
        parking_protocol_version: entry.parking_protocol_version,
        parked_address: entry.parked_address,
        address: entry.gic_registers_address,
        virtual_address: entry.gic_virtual_registers_address,
        hypervisor_address: entry.gic_hypervisor_registers_address,
        maintenance_interrupt: entry.vgic_maintenance_interrupt,
        maintenance_trigger: trigger_in(entry.flags, 2), // VGIC Maintenance interrupt Mode Flags
        redistributor_address: entry.gicr_base_address,
        efficiency_class: entry.processor_power_efficiency_class,
        spe_overflow_interrupt: entry.spe_overflow_interrupt,
        trace_buffer_interrupt: entry.trbe_interrupt.access(revision),
    }
}

/// The interrupts of a frame, or `None` if its entry doesn't have them.
fn spis_of(entry: &GicMsiFrameEntry) -> Option<SpiRange>
    ensures { result ≡ spis_of entry.now }
{
    // SPI Count/Base Select.
    if has_bit(entry.flags as u64, 0) {
        Some(SpiRange {
            base: entry.spi_base,
            count: entry.spi_count,
        })
    } else {
        None
    }
}
