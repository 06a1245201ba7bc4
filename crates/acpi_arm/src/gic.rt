//! The Generic Interrupt Controller (GIC), as the entries of a MADT describe it together (sections
//! 5.2.12.14 to 5.2.12.18).
ghost use Rattle.std.specs.Prelude.{◌≡◌, ◌<◌, IfOk, IfErr};
ghost use Rattle.acpi_base.specs.Words.{GivesOrFull};
ghost use Rattle.acpi.specs.Words.{AllowsBelow, FootprintBelow, lookup_ranges, madt_kind, Relocation, of_tables};
ghost use Rattle.acpi_arm.specs.Gic.{AsksMemory, GicAsks, found_gic, gic_of, item_count, model_beside};

mod collect;
mod part;

use acpi::AcpiTables;
use acpi_base::madt::Madt;
use acpi_base::managed_slice::ManagedSlice;
use acpi_base::{AcpiResult, Lender};
use collect::collected;
pub use collect::distributor_of;
pub use part::{
    GicCpuInterface, GicDistributor, GicMsiFrame, GicPart, GicRedistributors,
    GicTranslationService, SpiRange, distributor_in,
};
use std::alloc::{AllocError, Allocator, Global};

/// The Generic Interrupt Controller (GIC) of a machine, with the processors that have an interface to it
/// (sections 5.2.12.14 to 5.2.12.18).
#[derive(Drop)]
pub struct GicModel<A: Allocator> {
    /// GIC Distributor (GICD, section 5.2.12.15): that of the first such entry.
    pub distributor: GicDistributor,
    /// GIC CPU Interface (GICC, section 5.2.12.14): the processors with their interfaces, one for each such
    /// entry, in order.
    pub cpu_interfaces: ManagedSlice<GicCpuInterface, A>,
    /// GIC Redistributor (GICR, section 5.2.12.17): the ranges of redistributors, one for each such entry,
    /// in order.
    pub redistributors: ManagedSlice<GicRedistributors, A>,
    /// GIC Interrupt Translation Service (ITS, section 5.2.12.18): the services that translate messages to
    /// interrupts, one for each such entry, in order.
    pub translation_services: ManagedSlice<GicTranslationService, A>,
    /// GIC MSI Frame (section 5.2.12.16): the frames that turn messages into interrupts, one for each such
    /// entry, in order.
    pub msi_frames: ManagedSlice<GicMsiFrame, A>,
}

impl GicModel<Global> {
    /// The GIC that the first valid MADT describes (sections 5.2.12.14 to 5.2.12.18), in memory of the
    /// global allocator, or `None` if it describes no distributor.
    ///
    /// Fails, in this order, with `TableMissing` if no valid MADT is listed, with
    /// `InvalidMadt(InvalidEntryLength)` if the entries end malformed, and with `AllocError` if memory runs
    /// out, which it can only if there is a distributor and some list has an item.
    pub fn new<H: Lender>(alloc: Global, tables: &AcpiTables<'_, H>) -> AcpiResult<Option<Self>>
        requires { AllowsBelow tables.now (λ m. lookup_ranges m madt_kind) }
        ensures exact { GivesOrFull (of_tables tables.now GicAsks) result
            (of_tables tables.now found_gic) }
        // It depends on what the lookup of the MADT depends on.
        ensures footprint { FootprintBelow tables.now (λ m. lookup_ranges m madt_kind) found_gic
            (GivesOrFull (of_tables tables.now GicAsks) result) }
        // It is the same wherever the valid tables are.
        ensures relocation { Relocation tables.now found_gic
            (GivesOrFull (of_tables tables.now GicAsks) result) }
    {
        GicModel::new_in(tables, alloc)
    }
}

impl<A: Allocator + Copy> GicModel<A> {
    /// The GIC that a MADT's bytes describe (sections 5.2.12.14 to 5.2.12.18), in memory of an allocator,
    /// or `None` if no entry describes a distributor, as on a machine with APICs. It needs no handler.
    /// Entries of all other types are skipped, and of several distributors the first one counts.
    ///
    /// Fails, in this order, with `InvalidMadt(InvalidEntryLength)` if the entries end malformed, that is, if
    /// bytes are left in which no entry begins, and with `AllocError` if memory runs out, which it can only
    /// if there is a distributor and some list has an item.
    pub fn of(table: &[u8], allocator: A) -> AcpiResult<Option<Self>>
        ensures { GivesOrFull (AsksMemory table.now) result (gic_of table.now) }
    {
        match distributor_of(table)? {
            Some(distributor) => Ok(Some(GicModel::beside(table, distributor, allocator)?)),
            None => Ok(None),
        }
    }

    /// The GIC of a distributor, with the lists that a MADT's bytes contain.
    fn beside(table: &[u8], distributor: GicDistributor, allocator: A) -> Result<Self, AllocError>
        ensures model { IfOk result (λ m. m ≡ model_beside table.now distributor) }
        ensures refused { IfErr result (λ e. 0 < item_count table.now) }
    {
        Ok(GicModel {
            distributor,
            cpu_interfaces: collected(table, allocator)?,
            redistributors: collected(table, allocator)?,
            translation_services: collected(table, allocator)?,
            msi_frames: collected(table, allocator)?,
        })
    }

    /// The GIC that the first valid MADT describes (sections 5.2.12.14 to 5.2.12.18), in memory of an
    /// allocator, or `None` if it describes no distributor.
    ///
    /// Fails, in this order, with `TableMissing` if no valid MADT is listed, with
    /// `InvalidMadt(InvalidEntryLength)` if the entries end malformed, and with `AllocError` if memory runs
    /// out, which it can only if there is a distributor and some list has an item.
    pub fn new_in<H: Lender>(tables: &AcpiTables<'_, H>, allocator: A) -> AcpiResult<Option<Self>>
        requires { AllowsBelow tables.now (λ m. lookup_ranges m madt_kind) }
        ensures exact { GivesOrFull (of_tables tables.now GicAsks) result
            (of_tables tables.now found_gic) }
        // It depends on what the lookup of the MADT depends on.
        ensures footprint { FootprintBelow tables.now (λ m. lookup_ranges m madt_kind) found_gic
            (GivesOrFull (of_tables tables.now GicAsks) result) }
        // It is the same wherever the valid tables are.
        ensures relocation { Relocation tables.now found_gic
            (GivesOrFull (of_tables tables.now GicAsks) result) }
    {
        let madt = tables.find_table::<Madt>()?;
        GicModel::of(madt.bytes(), allocator)
    }
}
