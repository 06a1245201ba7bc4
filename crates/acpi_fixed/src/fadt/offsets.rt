//! Made by scripts/readings: the offsets of what is read alone, as definitions in specs/ have them.

use super::registers::BlockPlace;

pub(super) const FIRMWARE_CTRL: usize = 36;

pub(super) const DSDT: usize = 40;

pub(super) const PREFERRED_PM_PROFILE: usize = 45;

pub(super) const SCI_INT: usize = 46;

pub(super) const SMI_CMD: usize = 48;

pub(super) const ACPI_ENABLE: usize = 52;

pub(super) const ACPI_DISABLE: usize = 53;

pub(super) const GPE1_BASE: usize = 94;

pub(super) const IAPC_BOOT_ARCH: usize = 109;

pub(super) const FLAGS: usize = 112;

pub(super) const RESET_VALUE: usize = 128;

pub(super) const ARM_BOOT_ARCH: usize = 129;

pub(super) const X_FIRMWARE_CTRL: usize = 132;

pub(super) const X_DSDT: usize = 140;
/// PM1a_EVT_BLK, PM1_EVT_LEN, X_PM1a_EVT_BLK.
pub(super) const PM1A_EVENT: BlockPlace = BlockPlace {
    address: 56,
    size: 88,
    extended: 148,
};
/// PM1b_EVT_BLK, PM1_EVT_LEN, X_PM1b_EVT_BLK.
pub(super) const PM1B_EVENT: BlockPlace = BlockPlace {
    address: 60,
    size: 88,
    extended: 160,
};
/// PM1a_CNT_BLK, PM1_CNT_LEN, X_PM1a_CNT_BLK.
pub(super) const PM1A_CONTROL: BlockPlace = BlockPlace {
    address: 64,
    size: 89,
    extended: 172,
};
/// PM1b_CNT_BLK, PM1_CNT_LEN, X_PM1b_CNT_BLK.
pub(super) const PM1B_CONTROL: BlockPlace = BlockPlace {
    address: 68,
    size: 89,
    extended: 184,
};
/// PM2_CNT_BLK, PM2_CNT_LEN, X_PM2_CNT_BLK.
pub(super) const PM2_CONTROL: BlockPlace = BlockPlace {
    address: 72,
    size: 90,
    extended: 196,
};
/// PM_TMR_BLK, PM_TMR_LEN, X_PM_TMR_BLK.
pub(super) const PM_TIMER: BlockPlace = BlockPlace {
    address: 76,
    size: 91,
    extended: 208,
};
/// GPE0_BLK, GPE0_BLK_LEN, X_GPE0_BLK.
pub(super) const GPE0: BlockPlace = BlockPlace {
    address: 80,
    size: 92,
    extended: 220,
};
/// GPE1_BLK, GPE1_BLK_LEN, X_GPE1_BLK.
pub(super) const GPE1: BlockPlace = BlockPlace {
    address: 84,
    size: 93,
    extended: 232,
};

pub(super) const RESET_REG: usize = 116;

pub(super) const SLEEP_CONTROL_REG: usize = 244;

pub(super) const SLEEP_STATUS_REG: usize = 256;
