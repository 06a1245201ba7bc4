//! Numbers that are read through a handler of which only listed ranges may be requested.
ghost use Rattle.std.specs.Prelude.{◌≡◌, true};
ghost use Rattle.acpi_base.specs.Words.{is_listed};

use crate::out::Out;
use acpi::{AcpiHandler, AcpiResult, Guarded, Lender, PhysicalMapping};

/// The number of eight bytes at an address, from a lender of which they may be requested.
fn number_at<L: Lender>(lender: &L, address: u64) -> AcpiResult<u64>
    requires { L.may lender.now address 8 ≡ true }
{
    let number = PhysicalMapping::<L, u64>::map(lender, address, 8)?;
    Ok(*number.get())
}

/// The number of eight bytes at an address, over a handler of which only the ranges of a list may be requested.
/// For a number that isn't listed there is no proof.
fn number_within<H: AcpiHandler>(
    memory: &H,
    ranges: &[(u64, usize)],
    address: u64,
) -> AcpiResult<u64>
    requires { is_listed ranges.now address 8 ≡ true }
{
    number_at(&Guarded::new(memory, ranges), address)
}

/// Prints the numbers at 0x1000 and at 0x119c, of which both are listed.
pub(super) fn numbers<H: AcpiHandler>(out: Out<'_>, handler: &H) {
    let listed = [(0x1000, 8), (0x119C, 8)];
    out.show(&number_within(handler, &listed, 0x1000));
    out.show(&number_within(handler, &listed, 0x119C));
}
