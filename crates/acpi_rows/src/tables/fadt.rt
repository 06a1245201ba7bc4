//! The fixed hardware.
//!
//! - `record`: whether the table is valid, its header and its fields;
//! - `facts`: its profile, the addresses of FACS and DSDT, its timer, and its general-purpose events;
//! - `blocks`: the blocks of registers;
//! - `flags`: each flag, and whether it is set.

use crate::out::Out;
use acpi::fadt::Fadt;
use acpi::platform::PmTimer;
use acpi::{AcpiTable, PhysicalRecord};

/// Prints what a FADT contains.
pub(super) fn answer(out: Out<'_>, bytes: &[u8], call: &str) {
    if bytes.len() < 116 {
        return out.print(&"short");
    }
    let table = Fadt::read(bytes);
    match call {
        "record" => out.spread(&(table.validate(bytes), table.header(), &table)),
        "facts" => out.spread(&(
            table.power_profile(),
            (table.facs_address(), table.dsdt_address()),
            PmTimer::new(&table),
            (table.gpe0(), table.gpe1(), table.gpe1_base()),
        )),
        "blocks" => blocks(out, &table),
        _ => flags(out, &table),
    }
}

#[rattlefmt::skip]
fn blocks(out: Out<'_>, table: &Fadt) {
    out.spread(&[
        ("pm1a event", table.pm1a_event_block().map(Some)),
        ("pm1b event", table.pm1b_event_block()),
        ("pm1a control", table.pm1a_control_block().map(Some)),
        ("pm1b control", table.pm1b_control_block()),
        ("pm2 control", table.pm2_control_block()),
        ("pm timer", table.pm_timer_block()),
        ("gpe0", table.gpe0_block()),
        ("gpe1", table.gpe1_block()),
        ("reset", table.reset_register().map(Some)),
        ("sleep control", table.sleep_control_register()),
        ("sleep status", table.sleep_status_register()),
    ]);
}

/// Prints the flags of caches, processors, buttons, timers and docking, of the whole machine, and of a PC
/// and of an Arm machine.
#[rattlefmt::skip]
fn flags(out: Out<'_>, table: &Fadt) {
    let (flags, pc, arm) = (&table.flags, &table.iapc_boot_arch, &table.arm_boot_arch);
    out.spread(&[
        ("wbinvd_equivalent", flags.supports_equivalent_to_wbinvd()),
        ("wbinvd_flushes", flags.wbinvd_flushes_all_caches()),
        ("c1", flags.all_procs_support_c1_power_state()),
        ("c2_multiprocessor", flags.c2_configured_for_mp_system()),
        ("power_button_method", flags.power_button_is_control_method()),
        ("sleep_button_method", flags.sleep_button_is_control_method()),
        ("rtc_wake_not_fixed", flags.no_rtc_wake_in_fixed_register_space()),
        ("rtc_wakes_s4", flags.rtc_wakes_system_from_s4()),
        ("timer_32_bit", flags.pm_timer_is_32_bit()),
        ("docking", flags.supports_docking()),
        ("reset_register", flags.supports_system_reset_via_fadt()),
        ("sealed_case", flags.case_is_sealed()),
        ("headless", flags.system_is_headless()),
        ("slp_typ_instruction", flags.use_instr_after_write_to_slp_typx()),
        ("pciexp_wake", flags.supports_pciexp_wake_in_pm1()),
        ("platform_clock", flags.use_pm_or_hpet_for_monotonically_decreasing_timers()),
        ("s4_rtc_status", flags.rtc_sts_is_valid_after_wakeup_from_s4()),
        ("remote_power_on", flags.ospm_may_leave_gpe_wake_events_armed_before_s5()),
        ("apic_cluster", flags.lapics_must_use_cluster_model_for_logical_mode()),
        ("apic_physical", flags.local_xapics_must_use_physical_destination_mode()),
        ("hardware_reduced", flags.system_is_hw_reduced_acpi()),
        ("s0_is_lower", flags.no_benefit_to_s3()),
        ("legacy_devices", pc.legacy_devices_are_accessible()),
        ("i8042", pc.motherboard_implements_8042()),
        ("no_vga", pc.dont_probe_vga()),
        ("no_msi", pc.dont_enable_msi()),
        ("no_aspm", pc.dont_enable_pcie_aspm()),
        ("no_cmos_rtc", pc.use_time_and_alarm_namespace_for_rtc()),
        ("psci", arm.implements_psci()),
        ("hvc", arm.use_hvc_as_psci_conduit()),
    ]);
}
