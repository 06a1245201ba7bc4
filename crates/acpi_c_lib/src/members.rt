//! What each pointer of the root table points to.
ghost use Rattle.std.specs.Prelude.{◌≡◌, Some, map};
ghost use Rattle.acpi.specs.Words.{pointers_left};
ghost use Rattle.acpi_base.specs.Words.{own_accepted};
ghost use Rattle.acpi_c_lib.specs.Words.{Fills, lists_each, member_at, member_status, members_below, unmapped};

use crate::lists::{Listing, fill};
use crate::opening::open;
use crate::records::{Member, Signature, Source, Table};
use crate::refusal::{Refusal, acpi_code};
use crate::regions::Mapped;
use crate::tables::entry;
use acpi::sdt::SdtHeader;
use acpi::{AcpiHandler, PhysicalMapping, PhysicalRecord, Pointers};
use acpi_base::table::own_valid_by;

/// Lists what each pointer of the root table points to.
pub fn members(source: &Source<'_>, out: &mut [Member]) -> Result<usize, Refusal>
    ensures { Fills result out.old out.new (members_below source.now) }
{
    let memory = Mapped::new(source.regions)?;
    let tables = open(&memory, source)?;
    Ok(fill(tables.addresses(), &(&memory, source.accept), out))
}

impl<'h, H: AcpiHandler> Listing<(&'h H, u32), Member> for Pointers<'_> {
    ghost record_of = { λ known p. Some (member_at known.1 (H.memory known.0.now) p) };

    ghost left = { λ known s. map (member_at known.1 (H.memory known.0.now)) (pointers_left s) };

    ghost gives_first = { λ known. lists_each (member_at known.1 (H.memory known.0.now)) (λ s. pointers_left s) };

    fn record(known: &(&'h H, u32), address: u64) -> Option<Member>
        ensures { let k = known.now in result ≡ Some (member_at k.1 (H.memory k.0.now) address) }
    {
        let (handler, accept) = *known;
        Some(member_at(handler, accept, address))
    }
}

/// What an address of the root table points to.
fn member_at<H: AcpiHandler>(handler: &H, accept: u32, address: u64) -> Member
    ensures { result ≡ member_at accept (H.memory handler.now) address }
{
    let status = member_status(handler, accept, address);
    match PhysicalMapping::<'_, H, SdtHeader>::map(handler, address, SdtHeader::MIN_LENGTH) {
        Ok(head) => Member {
            table: entry(&head),
            status,
            has_header: 1,
            reserved: [0; 3],
        },
        Err(_) => Member {
            table: unmapped(address),
            status,
            has_header: 0,
            reserved: [0; 3],
        },
    }
}

/// 0 if the table at an address is accepted under its own signature, or else the number of its error.
fn member_status<H: AcpiHandler>(handler: &H, accept: u32, address: u64) -> u32
    ensures { result ≡ member_status (own_accepted accept (H.memory handler.now) address) }
{
    match own_valid_by(handler, address, accept) {
        Ok(table) => {
            table.mapping::<SdtHeader>();
            0
        }
        Err(error) => acpi_code(error),
    }
}

/// A table whose header isn't mapped.
fn unmapped(address: u64) -> Table
    ensures { result ≡ unmapped address }
{
    Table {
        address,
        length: 0,
        signature: Signature { letters: [0; 4] },
        revision: 0,
        oem_id: [0; 6],
        oem_table_id: [0; 8],
        reserved_1: 0,
        oem_revision: 0,
        creator_id: [0; 4],
        creator_revision: 0,
        reserved_2: [0; 4],
    }
}
