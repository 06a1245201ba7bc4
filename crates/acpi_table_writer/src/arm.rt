//! What the tables of an Arm machine share: flags, the trigger mode and the polarity of an interrupt in them, and
//! addresses that may be missing.
ghost use Rattle.std.specs.Prelude.{◌≡◌};
ghost use Rattle.acpi_table_writer.specs.Words.{base_checked, flags_of, has_polarity, has_trigger, is_edge, is_low, modes_checked};

use crate::checked::require;
use crate::error::WriterError;
use crate::numbers::bit_of;
use acpi_base::model::{Polarity, TriggerMode};

/// Four flags, from bit 0 on.
pub(crate) fn flags_of(a: bool, b: bool, c: bool, d: bool) -> u8
    ensures { result ≡ flags_of a b c d }
{
    bit_of(a) + 2 * bit_of(b) + 4 * bit_of(c) + 8 * bit_of(d)
}

/// Whether the flag of a trigger mode is set: it is for edge-triggered interrupts.
pub(crate) fn is_edge(trigger_mode: TriggerMode) -> bool
    ensures { result ≡ is_edge trigger_mode }
{
    match trigger_mode {
        TriggerMode::Edge => true,
        _ => false,
    }
}

/// Whether a flag can express the trigger mode, since there is no bus of which it could be.
pub(crate) fn has_trigger(trigger_mode: TriggerMode) -> bool
    ensures { result ≡ has_trigger trigger_mode }
{
    match trigger_mode {
        TriggerMode::SameAsBus => false,
        _ => true,
    }
}

/// Whether the flag of a polarity is set: it is for interrupts that are active low.
pub(crate) fn is_low(polarity: Polarity) -> bool
    ensures { result ≡ is_low polarity }
{
    match polarity {
        Polarity::ActiveLow => true,
        _ => false,
    }
}

/// Whether a flag can express the polarity.
fn has_polarity(polarity: Polarity) -> bool
    ensures { result ≡ has_polarity polarity }
{
    match polarity {
        Polarity::SameAsBus => false,
        _ => true,
    }
}

/// Returns `SameAsBus` if flags can't express the trigger mode and the polarity.
pub(crate) fn check_modes(trigger_mode: TriggerMode, polarity: Polarity) -> Result<(), WriterError>
    ensures { result ≡ modes_checked trigger_mode polarity }
{
    require(
        has_trigger(trigger_mode) && has_polarity(polarity),
        WriterError::SameAsBus,
    )
}

/// Returns `NoAddress` if there is an address whose bits are all ones, which means none.
pub(crate) fn check_base(base: Option<u64>) -> Result<(), WriterError>
    ensures { result ≡ base_checked base }
{
    match base {
        Some(address) => require(address < u64::MAX, WriterError::NoAddress),
        None => Ok(()),
    }
}
