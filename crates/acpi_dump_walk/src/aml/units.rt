//! The units of a field: the list that follows its flags (section 20.2.5.2).
ghost use Rattle.std.specs.Prelude.{◌<◌, ◌≤◌, length, IfOk, IfSome};

use crate::fields::number_of;
use acpi_sleep::AmlError;
use acpi_sleep::block::block_at;
use acpi_sleep::name::{Name, name_at};

/// A unit of a field: its name, if it has one, how many bits it takes, and where it ends.
#[derive(Clone, Copy)]
pub struct Unit {
    pub name: Option<Name>,
    pub bits: u64,
    pub end: usize,
}

/// The unit at an offset.
pub fn unit_at(aml: &[u8], at: usize) -> Result<Unit, AmlError>
    requires { at < length aml.now }
    ensures after { IfOk result (λ unit. at < unit.end) }
    ensures within { IfOk result (λ unit. IfSome unit.name (λ name. unit.end ≤ length aml.now)) }
{
    let (mut name, mut bits) = (None, 0);
    let end = match aml[at] {
        // ReservedField
        0x00 => {
            let (count, end) = bits_at(aml, at + 1)?;
            bits = count;
            end
        }
        // AccessField
        0x01 => at + 3,
        // ConnectField: a buffer or a name
        0x02 if aml.get(at + 1) == Some(&0x11) && at + 2 <= aml.len() => block_at(aml, at + 2)?.end,
        0x02 => name_at(aml, at + 1)?.end,
        // ExtendedAccessField
        0x03 => at + 4,
        // NamedField
        _ => {
            let found = name_at(aml, at)?;
            if found.first != at || found.segments != 1 {
                return Err(AmlError::InvalidName(at));
            }
            let (count, end) = bits_at(aml, found.end)?;
            name = Some(found);
            bits = count;
            end
        }
    };
    Ok(Unit { name, bits, end })
}

/// The number of bits that a PkgLength at an offset contains, and where it ends (section 20.2.4).
fn bits_at(aml: &[u8], at: usize) -> Result<(u64, usize), AmlError>
    requires { at ≤ length aml.now }
    ensures after { IfOk result (λ r. at < r.1) }
    ensures within { IfOk result (λ r. r.1 ≤ length aml.now) }
{
    let lead = aml.get(at).ok_or(AmlError::PastEnd(at))?;
    let end = at + 1 + *lead as usize / 64;
    let others = aml.get(at + 1..end).ok_or(AmlError::PastEnd(at))?;
    if others.is_empty() {
        return Ok((*lead as u64, end));
    }
    let higher = number_of(others).saturating_mul(16);
    Ok((higher.saturating_add(*lead as u64 % 16), end))
}
