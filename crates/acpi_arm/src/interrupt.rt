//! The trigger mode and the polarity of an interrupt of an Arm machine, by bits of its flags.
ghost use Rattle.std.specs.Prelude.{◌≡◌, ◌<◌};
ghost use Rattle.acpi_arm.specs.Gtdt.{polarity_in, trigger_in, unless_ones};

use acpi_base::bytes::has_bit;
use acpi_base::model::{Polarity, TriggerMode};

/// The trigger mode of a bit of the flags: 1 is edge-triggered.
pub(crate) fn trigger_in(flags: u32, bit: u32) -> TriggerMode
    requires { bit < 64 }
    ensures { result ≡ trigger_in flags bit }
{
    if has_bit(flags as u64, bit) {
        TriggerMode::Edge
    } else {
        TriggerMode::Level
    }
}

/// The polarity of a bit of the flags: 1 is active low.
pub(crate) fn polarity_in(flags: u32, bit: u32) -> Polarity
    requires { bit < 64 }
    ensures { result ≡ polarity_in flags bit }
{
    if has_bit(flags as u64, bit) {
        Polarity::ActiveLow
    } else {
        Polarity::ActiveHigh
    }
}

/// An address, unless all its bits are ones, which mean none.
pub(crate) fn unless_ones(address: u64) -> Option<u64>
    ensures { result ≡ unless_ones address }
{
    if address == u64::MAX {
        None
    } else {
        Some(address)
    }
}
