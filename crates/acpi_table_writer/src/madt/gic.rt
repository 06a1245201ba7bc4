//! The MADT of an Arm machine, from its Generic Interrupt Controller (GIC, sections 5.2.12.14 to 5.2.12.18).
ghost use Rattle.std.specs.Prelude.{◌≡◌, length, map, take, IfOk};
ghost use Rattle.acpi_table_writer.specs.Words.{MADT, Gives, all_checked, AreGicFit, IsGicMadt, gic_body, gic_checked, gic_meant, gic_written, interface_checked, Keeps};

pub(crate) mod entries;

use super::entries::Fixed;
use super::has_some;
use crate::checked::{Checked, require};
use crate::error::WriterError;
use crate::ids::TableIds;
use crate::spelled::{EachItem, StandsFor, Then};
use crate::table::{Table, write};
use acpi_arm::gic::{
    GicCpuInterface, GicDistributor, GicMsiFrame, GicRedistributors, GicTranslationService,
};
use acpi_base::Signature;
use std::alloc::AllocError;
use std::marker::PhantomData;

/// What the MADT of an Arm machine is to contain, in the fields of `GicModel`, as which it is read; or of what is
/// written as them.
#[derive(Copy)]
pub struct GicContents<
    'a,
    C = GicCpuInterface,
    R = GicRedistributors,
    T = GicTranslationService,
    F = GicMsiFrame,
> {
    /// GIC Distributor (GICD).
    pub distributor: GicDistributor,
    /// GIC CPU Interfaces (GICC): the processors, of which the first is the boot processor.
    pub cpu_interfaces: &'a [C],
    /// GIC Redistributors (GICR).
    pub redistributors: &'a [R],
    /// GIC Interrupt Translation Services (ITS).
    pub translation_services: &'a [T],
    /// GIC MSI Frames.
    pub msi_frames: &'a [F],
}

impl<C: Copy, R: Copy, T: Copy, F: Copy> Clone for GicContents<'_, C, R, T, F> {
    ghost is_clone = { λ x y. y ≡ x };

    ghost is_infallible = { λ _. Unit {0} };

    fn clone(&self) -> Result<Self, AllocError> {
        Ok(*self)
    }
}

/// Returns the first error of an interface.
fn check_interfaces<C: StandsFor<GicCpuInterface>>(interfaces: &[C]) -> Result<(), WriterError>
    ensures { result ≡ all_checked interface_checked (map C.meant interfaces.now) }
{
    for interface in interfaces {
        interface.item().check()?;
    }
    Ok(())
}

impl<'a, C, R, T, F> Table for GicContents<'a, C, R, T, F>
where
    C: StandsFor<GicCpuInterface>,
    R: StandsFor<GicRedistributors>,
    T: StandsFor<GicTranslationService>,
    F: StandsFor<GicMsiFrame>,
{
    type Body = Then<
        Fixed,
        Then<
            GicDistributor,
            Then<
                EachItem<'a, GicCpuInterface, C>,
                Then<
                    EachItem<'a, GicRedistributors, R>,
                    Then<EachItem<'a, GicTranslationService, T>, EachItem<'a, GicMsiFrame, F>>,
                >,
            >,
        >,
    >;

    ghost head_of = { λ _. (MADT, 6) };

    ghost checked = { λ c. gic_checked (gic_meant C.meant R.meant T.meant F.meant c) };

    ghost body_of = { λ c. gic_body (gic_meant C.meant R.meant T.meant F.meant c) };

    ghost fits = { λ c. AreGicFit (gic_meant C.meant R.meant T.meant F.meant c) };

    fn head(&self) -> (Signature, u8) {
        (Signature::MADT, 6)
    }

    #[tactic(auto, using(crate::proofs::Sized::some_meant))]
    fn check(&self) -> Result<(), WriterError> {
        require(has_some(self.cpu_interfaces), WriterError::NoProcessor)?;
        check_interfaces(self.cpu_interfaces)
    }

    fn body(&self) -> Self::Body {
        let fixed = Fixed {
            local_apic_address: 0,
            also_has_legacy_pics: false,
        };
        let services = EachItem(self.translation_services, PhantomData);
        let messages = Then(services, EachItem(self.msi_frames, PhantomData));
        let redistributors = Then(EachItem(self.redistributors, PhantomData), messages);
        let interfaces = Then(EachItem(self.cpu_interfaces, PhantomData), redistributors);
        Then(fixed, Then(self.distributor, interfaces))
    }
}

/// Writes the MADT of an Arm machine, of revision 6, to the front of a slice, and returns how many bytes it has. Its
/// entries are in the order of the fields. A GICC has 80 bytes if its `trace_buffer_interrupt` is `None`, and
/// otherwise 82, as since ACPI 6.5. Local Interrupt Controller Address and Flags, which are for APICs, are 0. Two
/// processors of one uid are written as they are.
///
/// Returns, in this order, `NoProcessor` if there is no processor, `SameAsBus` if a trigger mode is a bus's,
/// `BadName` if a name of the ids is not valid UTF-8, `NoRoom` if the slice is shorter than the table, and `TooLong` if
/// the table has 2^32 bytes or more.
#[tactic(auto, unfolding(crate::specs::GicMadt::gic_written), using(crate::proofs::GicRead::gic_madt_is))]
pub fn write_gic_madt<C, R, T, F>(
    out: &mut [u8],
    ids: &TableIds,
    contents: &GicContents<'_, C, R, T, F>,
) -> Result<usize, WriterError>
where
    C: StandsFor<GicCpuInterface>,
    R: StandsFor<GicRedistributors>,
    T: StandsFor<GicTranslationService>,
    F: StandsFor<GicMsiFrame>,
    // The bytes, or the first error, are those that are defined.
    ensures exact { Gives (λ n. take n out.new) result (gic_written (length out.old) ids.now
        (gic_meant C.meant R.meant T.meant F.meant contents.now)) }
    // What is after the table is unchanged, and after an error the whole slice is.
    ensures keeps { Keeps result out.old out.new }
    // The numbers that were given fit, so that what was given is what is read (`tables_are_read`).
    ensures fits { IfOk result (λ n. IsGicMadt ids.now
        (gic_meant C.meant R.meant T.meant F.meant contents.now) (take n out.new)) }
{
    write(out, ids, contents)
}
