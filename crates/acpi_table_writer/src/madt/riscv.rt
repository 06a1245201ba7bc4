//! The MADT of a RISC-V machine, from its harts and interrupt controllers (ACPI 6.6, section 5.2.12).
ghost use Rattle.std.specs.Prelude.{length, take, IfOk};
ghost use Rattle.acpi_table_writer.specs.Words.{MADT, Gives, AreRiscvFit, IsRiscvMadt, Keeps, riscv_body, riscv_checked, riscv_written};

use super::entries::Fixed;
use super::has_some;
use crate::checked::require;
use crate::error::WriterError;
use crate::ids::TableIds;
use crate::spelled::{Each, Then};
use crate::table::{Table, write};
use acpi_base::Signature;
use acpi_riscv::{Aplic, Imsic, Plic, Rintc};

/// What the MADT of a RISC-V machine is to contain, in the order of its entries.
#[repr(C)]
#[derive(Clone, Copy)]
pub struct RiscvContents<'a> {
    /// The harts.
    pub rintcs: &'a [Rintc],
    /// What the incoming MSI controllers of all harts have in common: at most one, by the specification.
    pub imsics: &'a [Imsic],
    /// Advanced platform level interrupt controllers.
    pub aplics: &'a [Aplic],
    /// Platform level interrupt controllers.
    pub plics: &'a [Plic],
}

impl<'a> Table for RiscvContents<'a> {
    type Body = Then<
        Fixed,
        Then<Each<'a, Rintc>, Then<Each<'a, Imsic>, Then<Each<'a, Aplic>, Each<'a, Plic>>>>,
    >;

    ghost head_of = { λ _. (MADT, 7) };

    ghost checked = { riscv_checked };

    ghost body_of = { riscv_body };

    ghost fits = { AreRiscvFit };

    fn head(&self) -> (Signature, u8) {
        (Signature::MADT, 7)
    }

    fn check(&self) -> Result<(), WriterError> {
        require(has_some(self.rintcs), WriterError::NoProcessor)
    }

    fn body(&self) -> Self::Body {
        let fixed = Fixed {
            local_apic_address: 0,
            also_has_legacy_pics: false,
        };
        let controllers = Then(Each(self.aplics), Each(self.plics));
        Then(
            fixed,
            Then(Each(self.rintcs), Then(Each(self.imsics), controllers)),
        )
    }
}

/// Writes the MADT of a RISC-V machine, of revision 7, to the front of a slice, and returns how many bytes it has. Its
/// entries are in the order of the fields, a RINTC with 36 bytes; whether ids and versions are the
/// specification's isn't checked. Local Interrupt Controller Address and Flags, which are for APICs, are 0.
///
/// Returns, in this order, `NoProcessor` if there is no hart, `BadName` if a name of the ids is not valid UTF-8,
/// `NoRoom` if the slice is shorter than the table, and `TooLong` if the table has 2^32 bytes or more.
#[tactic(auto, unfolding(crate::specs::RiscvMadt::riscv_written))]
pub fn write_riscv_madt(
    out: &mut [u8],
    ids: &TableIds,
    contents: &RiscvContents<'_>,
) -> Result<usize, WriterError>
    // The bytes, or the first error, are those that are defined.
    ensures exact { Gives (λ n. take n out.new) result (riscv_written (length out.old) ids.now contents.now) }
    // What is after the table is unchanged, and after an error the whole slice is.
    ensures keeps { Keeps result out.old out.new }
    // The numbers that were passed fit, so that they are what is read (`tables_are_read`).
    ensures fits { IfOk result (λ n. IsRiscvMadt ids.now contents.now (take n out.new)) }
{
    write(out, ids, contents)
}
