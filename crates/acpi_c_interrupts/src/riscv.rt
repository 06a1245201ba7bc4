//! The harts and interrupt controllers of a RISC-V machine, with no heap: each list is written by a walk along the
//! entries of the MADT.
ghost use Rattle.std.specs.Prelude.{◌≡◌, Option, filter_map};
ghost use Rattle.acpi_riscv.specs.Words.{entries_left, entries_of};
ghost use Rattle.acpi_c_lib.specs.Words.{Fills, FillsFrom, WritesFrom, lists_some};
ghost use Rattle.acpi_c_interrupts.specs.Words.{RiscvEntry, aplic_in, below_riscv, imsic_in, plic_in, rintc_in};

use crate::known::Nothing;
use acpi::madt::Madt;
use acpi_c_lib::lists::{Listing, fill_part};
use acpi_c_lib::opening::first;
use acpi_c_lib::records::Source;
use acpi_c_lib::refusal::Refusal;
use acpi_c_lib::regions::Mapped;
use acpi_riscv::{Aplic, Imsic, Plic, Rintc, RiscvEntry, RiscvEntryIter};

/// What an entry of one type contains.
pub trait RiscvRecord: Copy {
    // The record of an entry, if it is of this type.
    ghost record_in: { RiscvEntry → Option Self };

    /// The record of an entry, if it is of this type.
    fn of(entry: &RiscvEntry) -> Option<Self>
        ensures { result ≡ record_in entry.now };
}

impl<R: RiscvRecord> Listing<Nothing, R> for RiscvEntryIter<'_> {
    ghost record_of = { λ known. R.record_in };

    ghost left = { λ known s. filter_map R.record_in (entries_left s) };

    ghost gives_first = { λ known s item t given. lists_some R.record_in (λ x. entries_left x) s item t given };

    fn record(_known: &Nothing, entry: RiscvEntry) -> Option<R>
        ensures { result ≡ R.record_in entry }
    {
        R::of(&entry)
    }
}

/// Lists the entries of one type of the first valid MADT.
///
/// Fails as `first` does, and then with `NoRiscv` if it has none of any of these types.
#[tactic(auto, using(acpi_c_lib::proofs::Parts::all_from))]
pub fn riscv_entries<R: RiscvRecord>(source: &Source<'_>, out: &mut [R]) -> Result<usize, Refusal>
    ensures { Fills result out.old out.new (below_riscv source.now R.record_in) }
{
    riscv_entries_from(source, 0, out)
}

/// Lists the entries of one type of the first valid MADT from the `from`-th on, counted from 0.
///
/// Fails as `riscv_entries` does.
#[tactic(auto, unfolding(crate::specs::Riscv::riscv_entries))]
pub fn riscv_entries_from<R: RiscvRecord>(
    source: &Source<'_>,
    from: usize,
    out: &mut [R],
) -> Result<usize, Refusal>
    ensures { FillsFrom from result out.old out.new (below_riscv source.now R.record_in) }
{
    let memory = Mapped::new(source.regions);
    let madt = first::<Madt>(&memory, source)?;
    if RiscvEntryIter::over(madt.bytes()).next().is_none() {
        return Err(Refusal::NoRiscv);
    }
    Ok(fill_entries(madt.bytes(), from, out))
}

#[tactic(auto, using(acpi::proofs::First::filter_map_few))]
fn fill_entries<R: RiscvRecord>(table: &[u8], from: usize, out: &mut [R]) -> usize
    ensures { WritesFrom from result out.old out.new (filter_map R.record_in (entries_of table.now)) }
{
    fill_part(RiscvEntryIter::over(table), &Nothing, from, out)
}

impl RiscvRecord for Rintc {
    ghost record_in = { rintc_in };

    fn of(entry: &RiscvEntry) -> Option<Rintc> {
        match entry {
            RiscvEntry::Rintc(rintc) => Some(*rintc),
            _ => None,
        }
    }
}

impl RiscvRecord for Imsic {
    ghost record_in = { imsic_in };

    fn of(entry: &RiscvEntry) -> Option<Imsic> {
        match entry {
            RiscvEntry::Imsic(imsic) => Some(*imsic),
            _ => None,
        }
    }
}

impl RiscvRecord for Aplic {
    ghost record_in = { aplic_in };

    fn of(entry: &RiscvEntry) -> Option<Aplic> {
        match entry {
            RiscvEntry::Aplic(aplic) => Some(*aplic),
            _ => None,
        }
    }
}

impl RiscvRecord for Plic {
    ghost record_in = { plic_in };

    fn of(entry: &RiscvEntry) -> Option<Plic> {
        match entry {
            RiscvEntry::Plic(plic) => Some(*plic),
            _ => None,
        }
    }
}
