//! Made by scripts/shown: records for C, and what is written of C's, as definitions in specs/ have them.
ghost use Rattle.std.specs.Prelude.{◌≡◌};
ghost use Rattle.acpi_c_devices.specs.WrittenFadt.{contents, gpe, hardware, legacy, optional, register, reset};

use crate::fixed::records::{FixedHardware, GpeBlock};
use crate::records::{GenericAddress, Register};
use crate::writing::fadt::{is_there, space};
use acpi_base::address::AccessSize;
use acpi_base::bytes::has_bit;
use acpi_fixed::fadt::PowerProfile;
use acpi_writer::fadt::{ArmBootFeatures, FixedFeatures, LegacyFields, PcBootFeatures};
use acpi_writer::{FadtContents, FadtHardware};

pub(crate) fn register(g: &GenericAddress) -> acpi_base::address::GenericAddress
    ensures { result ≡ register g.now }
{
    acpi_base::address::GenericAddress {
        address_space: space(g.space),
        bit_width: g.bit_width,
        bit_offset: g.bit_offset,
        access_size: AccessSize::try_from(g.access_size).unwrap_or(AccessSize::Undefined),
        address: g.address,
    }
}

pub(crate) fn optional(r: &Register) -> Option<acpi_base::address::GenericAddress>
    ensures { result ≡ optional r.now }
{
    is_there(r.present, r.at.address).then_some(register(&r.at))
}

pub(crate) fn gpe(b: &GpeBlock) -> Option<acpi_fixed::fadt::GpeBlock>
    ensures { result ≡ gpe b.now }
{
    is_there(b.present, b.address).then_some(acpi_fixed::fadt::GpeBlock {
        space: space(b.space),
        address: b.address,
        byte_length: b.byte_length,
    })
}

/// HW_REDUCED_ACPI means that there is no fixed hardware.
pub(crate) fn hardware(h: &FixedHardware) -> FadtHardware
    ensures { result ≡ hardware h.now }
{
    if has_bit(h.flags as u64, 20) {
        FadtHardware::Reduced
    } else {
        FadtHardware::Fixed(acpi_writer::fadt::FixedHardware {
            smi_cmd_port: h.smi_command,
            acpi_enable: h.acpi_enable,
            acpi_disable: h.acpi_disable,
            s4bios_req: h.s4bios_request,
            pstate_control: h.pstate_control,
            c_state_control: h.c_state_control,
            pm1a_event: register(&h.pm1a_event.at),
            pm1b_event: optional(&h.pm1b_event),
            pm1a_control: register(&h.pm1a_control.at),
            pm1b_control: optional(&h.pm1b_control),
            pm2_control: optional(&h.pm2_control),
            pm_timer: optional(&h.pm_timer),
            gpe0: gpe(&h.gpe0_block),
            gpe1: gpe(&h.gpe1_block),
            gpe1_base: h.gpe1_base,
        })
    }
}

pub(crate) fn legacy(h: &FixedHardware) -> LegacyFields
    ensures { result ≡ legacy h.now }
{
    LegacyFields {
        worst_c2_latency: h.c2_latency,
        worst_c3_latency: h.c3_latency,
        flush_size: h.flush_size,
        flush_stride: h.flush_stride,
        duty_offset: h.duty_offset,
        duty_width: h.duty_width,
        day_alarm: h.day_alarm,
        month_alarm: h.month_alarm,
        century: h.century,
    }
}

/// RESET_REG_SUP means that there is a register that resets the machine.
pub(crate) fn reset(h: &FixedHardware) -> Option<acpi_base::address::GenericAddress>
    ensures { result ≡ reset h.now }
{
    has_bit(h.flags as u64, 10).then_some(register(&h.reset.at))
}

pub fn contents(h: &FixedHardware) -> FadtContents
    ensures { result ≡ contents h.now }
{
    FadtContents {
        dsdt: h.dsdt_address,
        facs: (h.facs_address != 0).then_some(h.facs_address),
        power_profile: PowerProfile::from(h.power_profile),
        sci_interrupt: h.sci_interrupt,
        hardware: hardware(h),
        reset_register: reset(h),
        reset_value: h.reset_value,
        sleep_control: optional(&h.sleep_control),
        sleep_status: optional(&h.sleep_status),
        features: FixedFeatures {
            supports_equivalent_to_wbinvd: has_bit(h.flags as u64, 0), // WBINVD
            wbinvd_flushes_all_caches: has_bit(h.flags as u64, 1), // WBINVD_FLUSH
            all_procs_support_c1_power_state: has_bit(h.flags as u64, 2), // PROC_C1
            c2_configured_for_mp_system: has_bit(h.flags as u64, 3), // P_LVL2_UP
            power_button_is_control_method: has_bit(h.flags as u64, 4), // PWR_BUTTON
            sleep_button_is_control_method: has_bit(h.flags as u64, 5), // SLP_BUTTON
            no_rtc_wake_in_fixed_register_space: has_bit(h.flags as u64, 6), // FIX_RTC
            rtc_wakes_system_from_s4: has_bit(h.flags as u64, 7), // RTC_S4
            pm_timer_is_32_bit: has_bit(h.flags as u64, 8), // TMR_VAL_EXT
            supports_docking: has_bit(h.flags as u64, 9), // DCK_CAP
            case_is_sealed: has_bit(h.flags as u64, 11), // SEALED_CASE
            system_is_headless: has_bit(h.flags as u64, 12), // HEADLESS
            use_instr_after_write_to_slp_typx: has_bit(h.flags as u64, 13), // CPU_SW_SLP
            supports_pciexp_wake_in_pm1: has_bit(h.flags as u64, 14), // PCI_EXP_WAK
            use_pm_or_hpet_for_monotonically_decreasing_timers: has_bit(h.flags as u64, 15), // USE_PLATFORM_CLOCK
            rtc_sts_is_valid_after_wakeup_from_s4: has_bit(h.flags as u64, 16), // S4_RTC_STS_VALID
            ospm_may_leave_gpe_wake_events_armed_before_s5: has_bit(h.flags as u64, 17), // REMOTE_POWER_ON_CAPABLE
            lapics_must_use_cluster_model_for_logical_mode: has_bit(h.flags as u64, 18), // FORCE_APIC_CLUSTER_MODEL
            // FORCE_APIC_PHYSICAL_DESTINATION_MODE
            local_xapics_must_use_physical_destination_mode: has_bit(h.flags as u64, 19),
            no_benefit_to_s3: has_bit(h.flags as u64, 21), // LOW_POWER_S0_IDLE_CAPABLE
        },
        pc_boot: PcBootFeatures {
            legacy_devices_are_accessible: has_bit(h.x86_boot_flags as u64, 0), // LEGACY_DEVICES
            motherboard_implements_8042: has_bit(h.x86_boot_flags as u64, 1), // 8042
            dont_probe_vga: has_bit(h.x86_boot_flags as u64, 2), // VGA Not Present
            dont_enable_msi: has_bit(h.x86_boot_flags as u64, 3), // MSI Not Supported
            dont_enable_pcie_aspm: has_bit(h.x86_boot_flags as u64, 4), // PCIe ASPM Controls
            use_time_and_alarm_namespace_for_rtc: has_bit(h.x86_boot_flags as u64, 5), // CMOS RTC Not Present
        },
        arm_boot: ArmBootFeatures {
            implements_psci: has_bit(h.arm_boot_flags as u64, 0), // PSCI_COMPLIANT
            use_hvc_as_psci_conduit: has_bit(h.arm_boot_flags as u64, 1), // PSCI_USE_HVC
        },
        legacy: legacy(h),
    }
}
