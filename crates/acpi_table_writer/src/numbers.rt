//! The bytes of numbers, the lowest first, and of yes and no.
ghost use Rattle.std.specs.Prelude.{◌≡◌};
ghost use Rattle.acpi_table_writer.specs.Words.{spelling, bit_of};

/// The two bytes of a number, the lowest first.
#[tactic(auto, using(crate::proofs::Bits::two_bytes))]
pub(crate) fn word(number: u16) -> [u8; 2]
    ensures { result ≡ spelling 2 number }
{
    number.to_le_bytes()
}

/// The four bytes of a number, the lowest first.
#[tactic(auto, using(crate::proofs::Bits::four_bytes))]
pub fn dword(number: u32) -> [u8; 4]
    ensures { result ≡ spelling 4 number }
{
    number.to_le_bytes()
}

/// The eight bytes of a number, the lowest first.
#[tactic(auto, using(acpi_image::proofs::Written::le_bytes))]
pub fn qword(number: u64) -> [u8; 8]
    ensures { result ≡ spelling 8 number }
{
    number.to_le_bytes()
}

/// 1 for yes, 0 for no.
pub fn bit_of(b: bool) -> u8
    ensures { result ≡ bit_of b }
{
    if b { 1 } else { 0 }
}
