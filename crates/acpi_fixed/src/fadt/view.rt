//! A FADT whose fields are read when they are requested.
#![tactic(auto, unfolding(crate::specs::Fadt::fadt_at))]

ghost use Rattle.std.specs.Prelude.{◌≡◌, ◌+◌, ◌≤◌, length};
ghost use Rattle.acpi_base.specs.Words.{bytes_of};
ghost use Rattle.acpi_fixed.specs.Registers.{reach_of};

use super::registers::{
    BlockFields, BlockPlace, address_from, base_beside, extended_number_in, raw_in, reach_in,
    register_from,
};
use super::{
    ArmBootArchFlags, Fadt, FixedFeatureFlags, GpeBlock, IaPcBootArchFlags, PowerProfile, offsets,
};
use acpi_base::address::GenericAddress;
use acpi_base::bytes::{field, filled, u8_in, u16_in, u32_in};
use acpi_base::table::ValidTable;
use acpi_base::{AcpiError, AcpiResult, Lender, PhysicalMapping, PhysicalRecord};

/// The record of a mapping that reads none: its bytes are mapped, and that is all.
#[derive(Clone, Copy)]
struct Unread;

impl PhysicalRecord for Unread {
    const MIN_LENGTH: usize = 116;

    ghost MIN_LENGTH = { 116 };

    ghost reading = { λ _. record {} };

    fn read(_bytes: &[u8]) -> Self {
        Unread
    }
}

/// A Fixed ACPI Description Table in its mapped bytes (section 5.2.9), which stay mapped until this is dropped. A
/// call reads from them, and returns the value or the error of the call or the field of that name of
/// `Fadt` does.
#[derive(Drop)]
pub struct FadtView<'h, H: Lender> {
    mapping: PhysicalMapping<'h, H, Unread>,
    reach: usize,
    ghost reaches: { reach ≡ reach_of (bytes_of mapping) },
}

impl<'h, H: Lender> FadtView<'h, H> {
    ghost use Rattle.acpi_base.specs.Words.{generic_address_of, all_of, claimed_at, claimed_from, shown_by, handler_of, lent_of, start_of};
    ghost use Rattle.acpi_fixed.specs.Words.{dsdt_address_of, facs_address_of, pm_timer_of, profile_of, registers_of, gpe1_base_of, gpe_of, block_at, block_of, extended_of, optional_block_of, port_of, register_of, usable_extended, viewed};

    /// The view of a table that is valid for `Fadt`: its bytes stay mapped.
    pub fn new(table: ValidTable<'h, H>) -> Self
        requires { 116 ≤ length (shown_by table.claim) }
        ensures start { start_of result.mapping ≡ claimed_at table.entry.claim }
        ensures bytes { bytes_of result.mapping ≡ shown_by table.entry.claim }
        ensures lent { lent_of result.mapping ≡ all_of table.entry.claim }
        ensures handler { handler_of result.mapping ≡ claimed_from table.entry.claim }
    {
        let mapping: PhysicalMapping<'h, H, Unread> = table.mapping();
        let reach = reach_in(mapping.bytes());
        FadtView { mapping, reach }
    }

    /// The physical address of the table.
    pub fn physical_start(&self) -> u64
        ensures { result ≡ start_of self.now.mapping }
    {
        self.mapping.physical_start()
    }

    /// The bytes of the table.
    pub fn bytes(&self) -> &[u8]
        ensures value { result.now ≡ bytes_of self.now.mapping }
        ensures least { 116 ≤ length result.now }
    {
        self.mapping.bytes()
    }

    /// The whole record, for a caller that uses most of it.
    pub fn record(&self) -> Fadt
        ensures { result ≡ viewed self.now }
    {
        Fadt::read(self.bytes())
    }

    /// What the table has of a block of registers.
    #[inline(always)]
    fn fields(&self, place: BlockPlace) -> BlockFields<'_>
        requires address { place.address + 4 ≤ 116 }
        requires size { place.size + 1 ≤ 116 }
        requires extended { place.extended + 12 ≤ 244 }
        ensures extended { extended_of result ≡ usable_extended
            (block_at (bytes_of self.now.mapping) place.address place.size place.extended).extended }
        ensures port { result.port
            ≡ port_of (block_at (bytes_of self.now.mapping) place.address place.size place.extended) }
        ensures size { result.size
            ≡ (block_at (bytes_of self.now.mapping) place.address place.size place.extended).size }
    {
        BlockFields::read(self.bytes(), self.reach, place)
    }

    /// Preferred_PM_Profile: the machine's purpose.
    pub fn power_profile(&self) -> PowerProfile
        ensures { result ≡ profile_of (viewed self.now) }
    {
        PowerProfile::from(u8_in(self.bytes(), offsets::PREFERRED_PM_PROFILE))
    }

    /// SCI_INT: the interrupt that carries the machine's events.
    pub fn sci_interrupt(&self) -> u16
        ensures { result ≡ (viewed self.now).sci_interrupt }
    {
        u16_in(self.bytes(), offsets::SCI_INT)
    }

    /// SMI_CMD: the port that commands to the firmware are written to.
    pub fn smi_cmd_port(&self) -> u32
        ensures { result ≡ (viewed self.now).smi_cmd_port }
    {
        u32_in(self.bytes(), offsets::SMI_CMD)
    }

    /// ACPI_ENABLE: the command that takes the hardware registers from the firmware.
    pub fn acpi_enable(&self) -> u8
        ensures { result ≡ (viewed self.now).acpi_enable }
    {
        u8_in(self.bytes(), offsets::ACPI_ENABLE)
    }

    /// ACPI_DISABLE: the command that returns the hardware registers to the firmware.
    pub fn acpi_disable(&self) -> u8
        ensures { result ≡ (viewed self.now).acpi_disable }
    {
        u8_in(self.bytes(), offsets::ACPI_DISABLE)
    }

    /// IAPC_BOOT_ARCH: the devices of a PC.
    pub fn iapc_boot_arch(&self) -> IaPcBootArchFlags
        ensures { result ≡ (viewed self.now).iapc_boot_arch }
    {
        IaPcBootArchFlags(u16_in(self.bytes(), offsets::IAPC_BOOT_ARCH))
    }

    /// ARM_BOOT_ARCH: the way in which the firmware of an Arm machine is called.
    pub fn arm_boot_arch(&self) -> ArmBootArchFlags
        ensures { result ≡ (viewed self.now).arm_boot_arch }
    {
        ArmBootArchFlags(field(self.bytes(), offsets::ARM_BOOT_ARCH, 2) as u16)
    }

    /// Flags (Fixed Feature Flags): what the fixed hardware does and needs.
    pub fn flags(&self) -> FixedFeatureFlags
        ensures { result ≡ (viewed self.now).flags }
    {
        FixedFeatureFlags(u32_in(self.bytes(), offsets::FLAGS))
    }

    /// X_FIRMWARE_CTRL or FIRMWARE_CTRL: the physical address of the FACS.
    #[inline(always)]
    pub fn facs_address(&self) -> AcpiResult<u64>
        ensures { result ≡ facs_address_of (viewed self.now) }
    {
        let wide = extended_number_in(self.bytes(), self.reach, offsets::X_FIRMWARE_CTRL);
        let narrow = u32_in(self.bytes(), offsets::FIRMWARE_CTRL);
        address_from(AcpiError::InvalidFacsAddress, wide, narrow)
    }

    /// X_DSDT or DSDT: the physical address of the DSDT.
    #[inline(always)]
    pub fn dsdt_address(&self) -> AcpiResult<u64>
        ensures { result ≡ dsdt_address_of (viewed self.now) }
    {
        let wide = extended_number_in(self.bytes(), self.reach, offsets::X_DSDT);
        let narrow = u32_in(self.bytes(), offsets::DSDT);
        address_from(AcpiError::InvalidDsdtAddress, wide, narrow)
    }

    /// X_PM1a_EVT_BLK or PM1a_EVT_BLK: the registers of the fixed events.
    #[inline(always)]
    pub fn pm1a_event_block(&self) -> AcpiResult<GenericAddress>
        ensures { result ≡ block_of (registers_of (viewed self.now)).pm1a_event }
    {
        self.fields(offsets::PM1A_EVENT).block()
    }

    /// X_PM1b_EVT_BLK or PM1b_EVT_BLK: the second block of event registers.
    #[inline(always)]
    pub fn pm1b_event_block(&self) -> AcpiResult<Option<GenericAddress>>
        ensures { result ≡ optional_block_of (registers_of (viewed self.now)).pm1b_event }
    {
        self.fields(offsets::PM1B_EVENT).optional_block()
    }

    /// X_PM1a_CNT_BLK or PM1a_CNT_BLK: the control registers of the fixed hardware.
    #[inline(always)]
    pub fn pm1a_control_block(&self) -> AcpiResult<GenericAddress>
        ensures { result ≡ block_of (registers_of (viewed self.now)).pm1a_control }
    {
        self.fields(offsets::PM1A_CONTROL).block()
    }

    /// X_PM1b_CNT_BLK or PM1b_CNT_BLK: the second block of control registers.
    #[inline(always)]
    pub fn pm1b_control_block(&self) -> AcpiResult<Option<GenericAddress>>
        ensures { result ≡ optional_block_of (registers_of (viewed self.now)).pm1b_control }
    {
        self.fields(offsets::PM1B_CONTROL).optional_block()
    }

    /// X_PM2_CNT_BLK or PM2_CNT_BLK: the second control register.
    #[inline(always)]
    pub fn pm2_control_block(&self) -> AcpiResult<Option<GenericAddress>>
        ensures { result ≡ optional_block_of (registers_of (viewed self.now)).pm2_control }
    {
        self.fields(offsets::PM2_CONTROL).optional_block()
    }

    /// X_PM_TMR_BLK or PM_TMR_BLK: the register of the power management timer.
    #[inline(always)]
    pub fn pm_timer_block(&self) -> AcpiResult<Option<GenericAddress>>
        ensures { result ≡ pm_timer_of (viewed self.now) }
    {
        self.fields(offsets::PM_TIMER).timer_block()
    }

    /// X_GPE0_BLK or GPE0_BLK: the registers of the first general purpose events.
    #[inline(always)]
    pub fn gpe0_block(&self) -> AcpiResult<Option<GenericAddress>>
        ensures { result ≡ optional_block_of (registers_of (viewed self.now)).gpe0 }
    {
        self.fields(offsets::GPE0).optional_block()
    }

    /// X_GPE1_BLK or GPE1_BLK: the registers of further general purpose events.
    #[inline(always)]
    pub fn gpe1_block(&self) -> AcpiResult<Option<GenericAddress>>
        ensures { result ≡ optional_block_of (registers_of (viewed self.now)).gpe1 }
    {
        self.fields(offsets::GPE1).optional_block()
    }

    /// X_GPE0_BLK or GPE0_BLK with GPE0_BLK_LEN: a block of any length.
    pub fn gpe0(&self) -> AcpiResult<Option<GpeBlock>>
        ensures { result ≡ gpe_of (registers_of (viewed self.now)).gpe0 }
    {
        self.fields(offsets::GPE0).gpe()
    }

    /// X_GPE1_BLK or GPE1_BLK with GPE1_BLK_LEN: a block of any length.
    pub fn gpe1(&self) -> AcpiResult<Option<GpeBlock>>
        ensures { result ≡ gpe_of (registers_of (viewed self.now)).gpe1 }
    {
        self.fields(offsets::GPE1).gpe()
    }

    /// GPE1_BASE: the number of the first event of `gpe1`.
    pub fn gpe1_base(&self) -> Option<u8>
        ensures { result ≡ gpe1_base_of (viewed self.now) }
    {
        base_beside(u8_in(self.bytes(), offsets::GPE1_BASE), self.gpe1())
    }

    /// RESET_REG: the register that resets the machine.
    #[inline(always)]
    pub fn reset_register(&self) -> AcpiResult<GenericAddress>
        ensures { result ≡ generic_address_of (registers_of (viewed self.now)).reset }
    {
        let table = self.bytes();
        match raw_in(table, table.len(), offsets::RESET_REG) {
            Some(raw) => GenericAddress::read(raw),
            None => GenericAddress::from_raw(filled(table, offsets::RESET_REG)),
        }
    }

    /// RESET_VALUE: the value that resets the machine if it is written to RESET_REG.
    pub fn reset_value(&self) -> u8
        ensures { result ≡ (viewed self.now).reset_value }
    {
        field(self.bytes(), offsets::RESET_VALUE, 1) as u8
    }

    /// SLEEP_CONTROL_REG: the register that puts a machine of reduced hardware to sleep.
    pub fn sleep_control_register(&self) -> AcpiResult<Option<GenericAddress>>
        ensures { result ≡ register_of (registers_of (viewed self.now)).sleep_control }
    {
        register_from(raw_in(self.bytes(), self.reach, offsets::SLEEP_CONTROL_REG))
    }

    /// SLEEP_STATUS_REG: the wake status of a machine of reduced hardware.
    pub fn sleep_status_register(&self) -> AcpiResult<Option<GenericAddress>>
        ensures { result ≡ register_of (registers_of (viewed self.now)).sleep_status }
    {
        register_from(raw_in(self.bytes(), self.reach, offsets::SLEEP_STATUS_REG))
    }
}
