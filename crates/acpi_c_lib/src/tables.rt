//! The tables that the root table lists.
ghost use Rattle.std.specs.Prelude.{◌≡◌};
ghost use Rattle.acpi_base.specs.Words.{bytes_of, start_of};
ghost use Rattle.acpi.specs.Words.{accept_of, memory_of, pointers_left};
ghost use Rattle.acpi_c_lib.specs.Words.{Fills, aml_at, dsdt_below, signature_named, ssdt_in, ssdts_below, ssdts_in, table_below, table_record, table_there, tables_below, table_in, tables_in, lists_some};

use crate::lists::{Listing, fill};
use crate::opening::{check_policy, find_fadt, open};
use crate::records::{self, AmlTable, Source, Table};
use crate::refusal::Refusal;
use crate::regions::Mapped;
use acpi::sdt::{SdtHeader, Signature};
use acpi::{
    Accept, AcpiHandler, AcpiResult, AcpiTables, PhysicalMapping, PhysicalRecord, Pointers,
};
use acpi_base::bytes::filled;
use acpi_base::table::own_valid_by;

/// A table, by its mapping.
pub(crate) fn entry<H: AcpiHandler>(table: &PhysicalMapping<'_, H, SdtHeader>) -> Table
    ensures { result ≡ table_record (start_of table.now, bytes_of table.now) }
{
    let header = table.get();
    Table {
        address: table.physical_start(),
        length: header.length,
        signature: records::Signature {
            letters: header.signature.to_bytes(),
        },
        revision: header.revision,
        oem_id: header.oem_id,
        oem_table_id: header.oem_table_id,
        reserved_1: 0,
        oem_revision: header.oem_revision,
        creator_id: filled(table.bytes(), 28), // Creator ID
        creator_revision: header.creator_revision,
        reserved_2: [0; 4],
    }
}

impl<H: AcpiHandler> Listing<AcpiTables<'_, H, Accept>, Table> for Pointers<'_> {
    ghost record_of = { λ t p. table_in (accept_of t) (memory_of t) p };

    ghost left = { λ t s. tables_in (accept_of t) (memory_of t) (pointers_left s) };

    ghost gives_first = { λ t. lists_some (table_in (accept_of t) (memory_of t)) (λ s. pointers_left s) };

    fn record(tables: &AcpiTables<'_, H, Accept>, address: u64) -> Option<Table>
        ensures { result ≡ table_in (accept_of tables.now) (memory_of tables.now) address }
    {
        let table = tables.own_sdt_at(address).ok()?;
        Some(entry(&table))
    }
}

/// Lists all tables that are valid under the signatures that they bear.
#[tactic(auto, using(acpi::proofs::First::filter_map_few))]
pub fn tables(source: &Source<'_>, out: &mut [Table]) -> Result<usize, Refusal>
    ensures { Fills result out.old out.new (tables_below source.now) }
{
    let memory = Mapped::new(source.regions)?;
    let tables = open(&memory, source)?;
    Ok(fill(tables.addresses(), &tables, out))
}

/// The first valid table of a signature.
pub fn find(source: &Source<'_>, name: records::Signature) -> Result<Table, Refusal>
    ensures { result ≡ table_below source.now name }
{
    let memory = Mapped::new(source.regions)?;
    let tables = open(&memory, source)?;
    let table = tables.find_sdt(signature_named(name))?;
    Ok(entry(&table))
}

/// The table at an address, listed or not. Of a source only the regions and what it accepts count.
pub fn table_there(source: &Source<'_>, address: u64) -> Result<Table, Refusal>
    ensures { result ≡ table_there source.now address }
{
    let memory = Mapped::new(source.regions)?;
    check_policy(source)?;
    let table = own_valid_by(&memory, address, source.accept)?.mapping::<SdtHeader>();
    Ok(entry(&table))
}

/// The signature of four letters.
#[tactic(auto, using(crate::proofs::Unmapped::signature_is))]
pub fn signature_named(name: records::Signature) -> Signature
    ensures { result ≡ signature_named name }
{
    Signature::from_bytes(name.letters)
}

/// The AML of the DSDT that the first valid FADT names.
pub fn dsdt(source: &Source<'_>) -> Result<AmlTable, Refusal>
    ensures { result ≡ dsdt_below source.now }
{
    let memory = Mapped::new(source.regions)?;
    let tables = open(&memory, source)?;
    let fadt = find_fadt(&tables)?;
    let aml = aml_at(&tables, Signature::DSDT, fadt.dsdt_address()?)?;
    Ok(aml)
}

/// The AML of the table at an address, if it is accepted under a signature.
fn aml_at<H: AcpiHandler>(
    tables: &AcpiTables<'_, H, Accept>,
    signature: Signature,
    address: u64,
) -> AcpiResult<AmlTable>
    ensures { result ≡ aml_at (accept_of tables.now) (memory_of tables.now) signature address }
{
    let table = tables.sdt_at(address, signature)?;
    Ok(AmlTable {
        address: address + SdtHeader::MIN_LENGTH as u64,
        length: (table.bytes().len() - SdtHeader::MIN_LENGTH) as u32,
        revision: table.revision,
        reserved: [0; 3],
        table_address: address,
    })
}

/// Lists the AML of all valid SSDTs.
#[tactic(auto, using(acpi::proofs::First::filter_map_few))]
pub fn ssdts(source: &Source<'_>, out: &mut [AmlTable]) -> Result<usize, Refusal>
    ensures { Fills result out.old out.new (ssdts_below source.now) }
{
    let memory = Mapped::new(source.regions)?;
    let tables = open(&memory, source)?;
    Ok(fill(tables.addresses(), &tables, out))
}

impl<H: AcpiHandler> Listing<AcpiTables<'_, H, Accept>, AmlTable> for Pointers<'_> {
    ghost record_of = { λ t p. ssdt_in (accept_of t) (memory_of t) p };

    ghost left = { λ t s. ssdts_in (accept_of t) (memory_of t) (pointers_left s) };

    ghost gives_first = { λ t. lists_some (ssdt_in (accept_of t) (memory_of t)) (λ s. pointers_left s) };

    fn record(tables: &AcpiTables<'_, H, Accept>, address: u64) -> Option<AmlTable>
        ensures { result ≡ ssdt_in (accept_of tables.now) (memory_of tables.now) address }
    {
        aml_at(tables, Signature::SSDT, address).ok()
    }
}
