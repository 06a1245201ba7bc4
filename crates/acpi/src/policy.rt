//! Which tables, and which RSDP, a caller accepts.
ghost use Rattle.std.specs.Prelude.{◌≡◌, ℕ, IfOk};
ghost use Rattle.acpi_base.specs.Words.{Allows, Gives, IsOfMemory, accepted, bytes_of, handler_of, start_of, table_at, table_ranges};

use acpi_base::table::accepted_at;
use acpi_base::{AcpiResult, AcpiTable, Lender, PhysicalMapping};

/// Which checks of tables and of the RSDP a caller gives up. Each table that is valid is accepted, and each that fails
/// no other check: a policy only ever accepts more. What only one type of table has to pass (`AcpiTable::check_own`) is
/// never given up.
pub trait Policy: Copy {
    // The bits of `Accept`.
    ghost bits: { Self → ℕ };

    /// The checks that are given up, as the bits of `Accept`.
    fn bits(&self) -> u32
        ensures { result ≡ bits self.now };
}

/// Accepts valid tables alone.
#[derive(Clone, Copy, Debug)]
pub struct Valid;

impl Policy for Valid {
    ghost bits = { λ _. 0 };

    #[inline(always)]
    fn bits(&self) -> u32 {
        0
    }
}

/// Accepts tables that fail some checks, as a kernel does that wants to boot on bad firmware.
#[derive(Clone, Copy, Debug)]
pub struct Accept {
    /// Its constants, or-ed: `SUMS` and `IDS` of tables (section 5.2.6), the others of an RSDP (section 5.2.5.3). No
    /// other bit counts.
    pub bits: u32,
}

impl Accept {
    /// A table's sum may be any.
    pub const SUMS: u32 = 1;
    /// A table's ids may be any.
    pub const IDS: u32 = 2;
    /// An RSDP's OEM id may be any.
    pub const RSDP_IDS: u32 = 4;
    /// An RSDP of revision 1 is read as one of revision 0.
    pub const RSDP_REVISION: u32 = 8;
    /// So is one of which only the first 20 bytes pass their checks.
    pub const RSDP_FIRST: u32 = 16;
}

impl Policy for Accept {
    ghost bits = { λ a. a.bits };

    #[inline(always)]
    fn bits(&self) -> u32 {
        self.bits
    }
}

/// The table at a physical address, if the bits of `accept` accept it for `T`.
///
/// Fails as `accepted_at` does.
#[inline(always)]
pub(crate) fn map_accepted<'h, H: Lender, T: AcpiTable>(
    handler: &'h H,
    address: u64,
    accept: u32,
) -> AcpiResult<PhysicalMapping<'h, H, T>>
    requires { Allows (H.may handler.now) (table_ranges (H.memory handler.now) (accepted accept T.kind) address) }
    ensures place { IfOk result (λ m. start_of m ≡ address) }
    ensures handler { IfOk result (λ m. handler_of m ≡ handler.now) }
    ensures lent { IfOk result (λ m. IsOfMemory (H.memory handler.now) m) }
    ensures table { Gives (λ m. bytes_of m) result
        (table_at (H.memory handler.now) (accepted accept T.kind) address) }
{
    let table = accepted_at::<H, T>(handler, address, accept)?;
    Ok(table.mapping())
}
