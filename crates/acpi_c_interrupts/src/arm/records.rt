//! Made by scripts/records: what C sees of an Arm machine.
//! `include/zacpi.h` has what each field is.

/// `struct zacpi_gic_distributor`.
#[repr(C)]
#[derive(Clone, Copy)]
pub struct GicDistributor {
    pub address: u64,
    pub id: u32,
    pub system_vector_base: u32,
    pub version: u8,
    pub reserved: [u8; 7],
}

/// `struct zacpi_gic_cpu_interface`.
#[repr(C)]
#[derive(Clone, Copy)]
pub struct GicCpuInterface {
    pub mpidr: u64,
    pub parked_address: u64,
    pub address: u64,
    pub virtual_address: u64,
    pub hypervisor_address: u64,
    pub redistributor_address: u64,
    pub number: u32,
    pub processor_uid: u32,
    pub performance_interrupt: u32,
    pub maintenance_interrupt: u32,
    pub parking_protocol_version: u32,
    pub spe_overflow_interrupt: u16,
    pub trace_buffer_interrupt: u16,
    pub is_enabled: u8,
    pub is_online_capable: u8,
    pub performance_trigger: u8,
    pub maintenance_trigger: u8,
    pub efficiency_class: u8,
    pub reserved: [u8; 3],
}

/// `struct zacpi_gic_translation_service`.
#[repr(C)]
#[derive(Clone, Copy)]
pub struct GicTranslationService {
    pub address: u64,
    pub id: u32,
    pub reserved: [u8; 4],
}

/// `struct zacpi_gic_msi_frame`.
#[repr(C)]
#[derive(Clone, Copy)]
pub struct GicMsiFrame {
    pub address: u64,
    pub id: u32,
    pub spi_base: u16,
    pub spi_count: u16,
    pub has_spis: u8,
    pub reserved: [u8; 7],
}

/// `struct zacpi_arm_timer`.
#[repr(C)]
#[derive(Clone, Copy, Default)]
pub struct ArmTimer {
    pub interrupt: u32,
    pub polarity: u8,
    pub trigger: u8,
    pub always_on: u8,
    pub present: u8,
}

/// `struct zacpi_arm_timers`.
#[repr(C)]
#[derive(Clone, Copy)]
pub struct ArmTimers {
    pub control_base: u64,
    pub read_base: u64,
    pub secure_el1: ArmTimer,
    pub non_secure_el1: ArmTimer,
    pub virtual_el1: ArmTimer,
    pub el2: ArmTimer,
    pub virtual_el2: ArmTimer,
    pub platform_timers_malformed: u8,
    pub reserved: [u8; 7],
}

/// `struct zacpi_gt_frame`.
#[repr(C)]
#[derive(Clone, Copy)]
pub struct GtFrame {
    pub block_address: u64,
    pub address: u64,
    pub el0_address: u64,
    pub physical_interrupt: u32,
    pub virtual_interrupt: u32,
    pub number: u8,
    pub physical_polarity: u8,
    pub physical_trigger: u8,
    pub virtual_polarity: u8,
    pub virtual_trigger: u8,
    pub is_secure: u8,
    pub is_always_on: u8,
    pub reserved: u8,
}

/// `struct zacpi_watchdog`.
#[repr(C)]
#[derive(Clone, Copy)]
pub struct Watchdog {
    pub refresh_frame: u64,
    pub control_frame: u64,
    pub interrupt: u32,
    pub polarity: u8,
    pub trigger: u8,
    pub is_secure: u8,
    pub reserved: u8,
}
