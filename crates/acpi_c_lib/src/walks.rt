//! Walks along the members of the root table: all tables of a signature, and the memory that the tables
//! take.
ghost use Rattle.std.specs.Prelude.{◌≡◌, filter_map};
ghost use Rattle.acpi.specs.Words.{accept_of, accepted_by, fadt_kind, lender_of, memory_of, pointers_left, pointers_of};
ghost use Rattle.acpi.specs.Lookup as reader;
ghost use Rattle.acpi_fixed.specs.Words.{viewed};
ghost use Rattle.acpi_c_lib.specs.Words.{Fills, dsdt_range, facs_range, dsdt_and_facs_ranges, nth_below, nth_in, range_in, ranges_below, lists_some};

use crate::facs::facs_at;
use crate::lists::Listing;
use crate::missing::{fill_with, put_pair, range};
use crate::opening::{find_fadt, open, open_placed};
use crate::records::{self, Range, Source, Table};
use crate::refusal::Refusal;
use crate::regions::Mapped;
use crate::tables::{entry, signature_named};
use acpi::fadt::FadtView;
use acpi::sdt::Signature;
use acpi::{Accept, AcpiError, AcpiHandler, AcpiResult, AcpiTables, Pointers};

/// The `index`-th valid table with this signature, counted from 0.
pub fn nth(source: &Source<'_>, name: records::Signature, index: usize) -> Result<Table, Refusal>
    ensures { result ≡ nth_below source.now name index }
{
    let memory = Mapped::new(source.regions)?;
    let tables = open(&memory, source)?;
    let table = nth_of(&tables, signature_named(name), index)?;
    Ok(table)
}

/// The table of a signature at an index among all of that signature.
#[tactic(auto, unfolding(acpi::specs::Members::found_at))]
fn nth_of<H: AcpiHandler>(
    tables: &AcpiTables<'_, H, Accept>,
    signature: Signature,
    index: usize,
) -> AcpiResult<Table>
    ensures { let t = tables.now in result
        ≡ nth_in (accept_of t) (memory_of t) signature index (pointers_of t) }
{
    let mut before = index;
    for address in tables.addresses() {
        if let Ok(table) = tables.sdt_at(address, signature) {
            if before == 0 {
                return Ok(entry(&table));
            }
            before -= 1;
        }
    }
    Err(AcpiError::TableMissing(signature))
}

/// Lists the memory that the RSDP and the tables take.
#[tactic(auto, using(acpi::proofs::First::filter_map_few, crate::proofs::Written::put_parts))]
pub fn ranges(source: &Source<'_>, out: &mut [Range]) -> Result<usize, Refusal>
    ensures { Fills result out.old out.new (ranges_below source.now) }
{
    let memory = Mapped::new(source.regions)?;
    let (tables, place) = open_placed(&memory, source)?;
    let rsdp = match place {
        Some((address, length)) => Some(range(address, length)),
        None => None,
    };
    let root = range(tables.root_address(), tables.root_length());
    let after_root = put_pair((rsdp, Some(root)), out, 0);
    let dsdt_and_facs = dsdt_and_facs_ranges(&memory, &tables);
    Ok(fill_with(tables.addresses(), &tables, dsdt_and_facs, out, after_root))
}

/// The range of a member of the root table, if it is accepted under its own signature.
impl<H: AcpiHandler> Listing<AcpiTables<'_, H, Accept>, Range> for Pointers<'_> {
    ghost record_of = { λ t p. range_in (accept_of t) (memory_of t) p };

    ghost left = { λ t s. filter_map (range_in (accept_of t) (memory_of t)) (pointers_left s) };

    ghost gives_first = { λ t. lists_some (range_in (accept_of t) (memory_of t)) (λ s. pointers_left s) };

    fn record(tables: &AcpiTables<'_, H, Accept>, address: u64) -> Option<Range>
        ensures { result ≡ range_in (accept_of tables.now) (memory_of tables.now) address }
    {
        let table = tables.own_sdt_at(address).ok()?;
        Some(range(address, table.bytes().len() as u32))
    }
}

/// The ranges of the DSDT and the FACS that the first accepted FADT points to.
fn dsdt_and_facs_ranges<H: AcpiHandler>(
    handler: &H,
    tables: &AcpiTables<'_, H, Accept>,
) -> (Option<Range>, Option<Range>)
    requires { lender_of tables.now ≡ handler.now }
    ensures { let t = tables.now in result ≡ dsdt_and_facs_ranges (accept_of t) (memory_of t)
        (reader.lookup (memory_of t) (accepted_by t fadt_kind) (pointers_of t)) }
{
    match find_fadt(tables) {
        Ok(fadt) => (dsdt_range(tables, &fadt), facs_range(handler, &fadt)),
        Err(_) => (None, None),
    }
}

/// The range of the DSDT that a FADT points to (section 5.2.11.1), if it is accepted.
fn dsdt_range<H: AcpiHandler>(
    tables: &AcpiTables<'_, H, Accept>,
    fadt: &FadtView<'_, H>,
) -> Option<Range>
    ensures { result ≡ dsdt_range (accept_of tables.now) (memory_of tables.now) (viewed fadt.now) }
{
    let address = fadt.dsdt_address().ok()?;
    let dsdt = tables.sdt_at(address, Signature::DSDT).ok()?;
    Some(range(address, dsdt.bytes().len() as u32))
}

/// The range of the FACS that a FADT points to (section 5.2.10), if it is valid.
#[tactic(auto, unfolding(acpi::specs::Places::facs_at))]
fn facs_range<H: AcpiHandler>(handler: &H, fadt: &FadtView<'_, H>) -> Option<Range>
    ensures { result ≡ facs_range (H.memory handler.now) (viewed fadt.now) }
{
    let address = fadt.facs_address().ok()?;
    let facs = facs_at(handler, address).ok()?;
    Some(range(address, facs.length))
}
