//! Numbers of flags.
ghost use Rattle.std.specs.Prelude.{◌≡◌, ◌^◌, ◌<◌, length};
ghost use Rattle.acpi_table_writer.specs.Words.{flag_number};

use crate::numbers::bit_of;

/// The number whose bits these flags are, bit 0 first.
#[tactic(auto, using(crate::proofs::Bits::flags_small, crate::proofs::Bits::flags_more))]
pub fn flag_number(flags: &[bool]) -> u32
    requires { length flags.now < 33 }
    ensures value { result ≡ flag_number flags.now }
    ensures small { result < 2 ^ length flags.now }
{
    let mut number = 0;
    let mut i = flags.len();
    while i > 0 {
        i -= 1;
        number = 2 * number + bit_of(flags[i]) as u32;
    }
    number
}
