//! Parts of operations as text: constants, names, numbers, and the units of fields.
ghost use Rattle.std.specs.Prelude.{◌<◌, length};

use acpi_dump_walk::aml::constant::name_in;
use acpi_dump_walk::fields::{number_of, print_segments};
use acpi_dump_walk::out::Out;
use acpi_sleep::AmlError;
use acpi_sleep::term::{Part, parts_end};

/// The address spaces of operation regions, from 0 on (section 20.2.5.2).
const SPACES: &str =
    "SystemMemory SystemIO PCI_Config EmbeddedControl SMBus SystemCMOS PciBarTarget IPMI \
    GeneralPurposeIO GenericSerialBus PCC";

/// The operators of a match, from 0 on (section 20.2.5.4).
const OPERATORS: &str = "MTR MEQ MLE MLT MGE MGT";

/// Where the part of an operation ends that is no operation itself and no name: a constant, a local, an argument of the
/// method, `Debug` or `Revision`. `None` if another one begins at the offset.
pub(crate) fn simple_end(aml: &[u8], at: usize) -> Result<Option<usize>, AmlError>
    requires { at < length aml.now }
{
    match aml[at] {
        0x00 | 0x01 | 0x0A..=0x0E | 0x60..=0x6E | 0xFF => {
            Ok(Some(parts_end(&[Part::Argument], aml, at)?))
        }
        0x5B if matches!(aml.get(at + 1), Some(0x30 | 0x31)) => Ok(Some(at + 2)),
        _ => Ok(None),
    }
}

/// Prints such a part, by the names of section 20.2.3. A number has the digits of its length.
pub(crate) fn print_simple(bytes: &[u8], out: &mut Out) {
    match bytes {
        [0x00] => out.text("Zero"),
        [0x01] => out.text("One"),
        [0xFF] => out.text("Ones"),
        [0x5B, 0x30] => out.text("Revision"),
        [0x5B, 0x31] => out.text("Debug"),
        [local @ 0x60..=0x67] => out.words("Local%", &[*local as u64 % 16]),
        [argument @ 0x68..=0x6E] => out.words("Arg%", &[*argument as u64 % 8]),
        [0x0D, text @ ..] => print_string(text.strip_suffix(&[0]).unwrap_or(text), out),
        [_, number @ ..] => print_number(number, out),
        [] => {}
    }
}

/// Prints a number of up to eight bytes, with all digits of its length.
pub(crate) fn print_number(bytes: &[u8], out: &mut Out) {
    let (number, digits) = (number_of(bytes), bytes.len().saturating_mul(2));
    write!(out, "0x{number:0digits$x}")
}

/// Prints a text between quotes: `"` and `\` after a `\`, and each byte that isn't printable ASCII as `\x1b`.
fn print_string(text: &[u8], out: &mut Out) {
    out.text("\"");
    for byte in text {
        if matches!(*byte, b'"' | b'\\') {
            out.text("\\");
        }
        out.escaped(&[*byte]);
    }
    out.text("\"")
}

/// Whether a name may begin with a byte.
pub(crate) fn begins_name(lead: u8) -> bool {
    matches!(lead, b'A'..=b'Z' | b'_' | b'\\' | b'^' | 0x2E | 0x2F)
}

/// Prints a name as it is written.
pub(crate) fn print_name(bytes: &[u8], out: &mut Out) {
    let Some((is_rooted, ups, segments)) = name_in(bytes) else {
        return;
    };
    if is_rooted {
        out.text("\\");
    }
    for _ in 0..ups {
        out.text("^");
    }
    print_segments(segments, out)
}

/// Prints the word of a number in a list of words, or the number if it has none.
fn print_word(words: &str, number: u8, out: &mut Out) {
    match words.split(' ').nth(number as usize) {
        Some(word) => out.text(word),
        None => print_number(&[number], out),
    }
}

/// Prints an address space.
pub(crate) fn print_space(space: u8, out: &mut Out) {
    print_word(SPACES, space, out)
}

/// Prints the operator of a match.
pub(crate) fn print_operator(operator: u8, out: &mut Out) {
    print_word(OPERATORS, operator, out)
}

/// Prints a method's flags (section 20.2.5.2).
pub(crate) fn print_flags(flags: u8, out: &mut Out) {
    out.words("arguments %", &[flags as u64 % 8]);
    if flags & 8 != 0 {
        out.text(", serialized");
    }
    if flags / 16 != 0 {
        out.words(", sync level %", &[flags as u64 / 16]);
    }
}

/// Prints a unit of a field, which are these bytes and has this number of bits (section 20.2.5.2).
pub(crate) fn print_unit(bytes: &[u8], bits: u64, out: &mut Out) {
    match bytes {
        [0x00, ..] => out.words("ReservedField % bits", &[bits]),
        [0x01, kind, attribute] => {
            out.words("AccessField #, #", &[*kind as u64, *attribute as u64])
        }
        [0x03, kind, attribute, length] => {
            let numbers = [*kind as u64, *attribute as u64, *length as u64];
            out.words("ExtendedAccessField #, #, #", &numbers)
        }
        [name @ .., _] => {
            out.text("NamedField ");
            print_name(name.get(..4).unwrap_or(name), out);
            out.words(", % bits", &[bits])
        }
        [] => {}
    }
}
