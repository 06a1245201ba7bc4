//! The package that a sleep state's name is set to (section 7.4.2).
ghost use Rattle.std.specs.Prelude.{◌≡◌, ◌≤◌, length};
ghost use Rattle.acpi_sleep.specs.Words.{elements_at, types_at};

use crate::argument::{integer_at, operand_end};
use crate::block::{block_at, byte_at};
use crate::error::AmlError;
use crate::sleep::SleepTypes;

/// The sleep types of a package's elements, of which there is this number, the first at an offset.
fn elements_at(aml: &[u8], at: usize, count: u8) -> Result<SleepTypes, AmlError>
    requires { at ≤ length aml.now }
    ensures exact { result ≡ elements_at aml.now at count }
{
    if count == 0 {
        return Err(AmlError::NotRead(at));
    }
    let first = integer_at(aml, at)?;
    if count == 1 {
        return Ok(SleepTypes {
            a: first.value % 256,
            b: first.value / 256,
        });
    }
    let second = integer_at(aml, first.end)?;
    Ok(SleepTypes {
        a: first.value,
        b: second.value,
    })
}

/// The sleep types of the package at an offset. Fails with `NotRead` for another value.
#[tactic(auto, unfolding(crate::specs::Sleep::types_at))]
pub(crate) fn types_at(aml: &[u8], at: usize) -> Result<SleepTypes, AmlError>
    requires { at ≤ length aml.now }
    ensures exact { result ≡ types_at aml.now at }
{
    if byte_at(aml, at)? != 0x12 {
        operand_end(aml, at)?;
        return Err(AmlError::NotRead(at));
    }
    let block = block_at(aml, at + 1)?;
    let contents = &aml[..block.end];
    let count = byte_at(contents, block.start)?;
    elements_at(contents, block.start + 1, count)
}
