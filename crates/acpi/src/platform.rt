//! A machine's purpose, interrupt controllers, processors and timer, by the FADT and the MADT.
ghost use Rattle.std.specs.Prelude.{◌≡◌};
ghost use Rattle.acpi_base.specs.Words.{GivesOrFull};
ghost use Rattle.acpi.specs.Words.{AllowsBelow, lookup_ranges, platform_ranges, ModelAsks, madt_kind, model_in, GivesPlatform, PlatformFootprint, PlatformRelocation, of_tables};

pub mod interrupt;
mod mailbox;
mod script;
mod timer;
mod wakeup;

use crate::tables::AcpiTables;
use acpi_base::madt::Madt;
pub use acpi_base::model::{ModelAndProcessors, Processor, ProcessorInfo, ProcessorState};
use acpi_base::{AcpiResult, Lender};
use acpi_fixed::fadt::PowerProfile;
use interrupt::InterruptModel;
pub use mailbox::{Mailbox, MailboxCall, MailboxWrite};
pub use script::ScriptedMailbox;
use std::alloc::{AllocError, Allocator, Global};
pub use timer::PmTimer;
pub use wakeup::wakeup_aps;

/// A machine's purpose, interrupt controllers, processors and power management timer, as its FADT (section
/// 5.2.9) and its MADT (section 5.2.12) say.
#[derive(Drop)]
pub struct PlatformInfo<A: Allocator> {
    /// Preferred_PM_Profile of the FADT: the machine's purpose (section 5.2.9).
    pub power_profile: PowerProfile,
    /// The interrupt controllers that the MADT describes (section 5.2.12), or `Unknown`.
    pub interrupt_model: InterruptModel<A>,
    /// The processors that the MADT lists (section 5.2.12), or `None` if it lists none.
    pub processor_info: Option<ProcessorInfo<A>>,
    /// The power management timer that the FADT describes (section 4.8.3.3), or `None` if it has none.
    pub pm_timer: Option<PmTimer>,
}

/// Clones with the fields of the original, or `AllocError` if memory runs out, also for a clone of the
/// allocator. If there is no interrupt model and no processor, nothing is asked for.
impl<A: Allocator + Clone> Clone for PlatformInfo<A> {
    ghost is_clone = { λ x y. y ≡ x };

    ghost is_infallible = { λ x. ⟦<InterruptModel<A> as Clone>⟧.is_infallible x.interrupt_model
        × ⟦<Option<ProcessorInfo<A>> as Clone>⟧.is_infallible x.processor_info };

    fn clone(&self) -> Result<PlatformInfo<A>, AllocError> {
        Ok(PlatformInfo {
            power_profile: self.power_profile,
            interrupt_model: self.interrupt_model.clone()?,
            processor_info: match &self.processor_info {
                Some(processors) => Some(processors.clone()?),
                None => None,
            },
            pm_timer: self.pm_timer,
        })
    }
}

impl PlatformInfo<Global> {
    /// The platform that the first valid FADT (section 5.2.9) and the first valid MADT (section 5.2.12)
    /// describe, in memory of the global allocator. If no MADT is valid, the interrupt model is `Unknown`,
    /// and there are no processors.
    ///
    /// Fails, in this order, with `TableMissing` if no valid FADT is listed, with what
    /// `parse_interrupt_model_in` refuses of the MADT, `AllocError` included, and with what
    /// `PmTimer::new` refuses.
    pub fn new<H: Lender>(alloc: Global, tables: &AcpiTables<'_, H>) -> AcpiResult<Self>
        requires { AllowsBelow tables.now platform_ranges }
        ensures exact { GivesPlatform tables.now result }
        // It depends on what the lookup of the FADT depends on, and if one is found, on what that
        // of the MADT depends on.
        ensures footprint { PlatformFootprint tables.now result }
        // It is the same wherever the valid tables lie.
        ensures relocation { PlatformRelocation tables.now result }
    {
        PlatformInfo::new_in(tables, alloc)
    }
}

impl<A: Allocator + Clone> PlatformInfo<A> {
    /// The platform that the first valid FADT (section 5.2.9) and the first valid MADT (section 5.2.12)
    /// describe, in memory of an allocator. If no MADT is valid, the interrupt model is `Unknown`, and
    /// there are no processors. A MADT with a malformed remainder is an error: a model of half the
    /// entries would be taken for the whole.
    ///
    /// Fails, in this order, with `TableMissing` if no valid FADT is listed, with what
    /// `parse_interrupt_model_in` refuses of the MADT, and with what `PmTimer::new` refuses. Memory is
    /// asked for only if the MADT describes APICs; `AllocError` then comes before any error of the
    /// timer.
    #[tactic(auto, using(crate::proofs::Agreed::platform_from_tables))]
    pub fn new_in<H: Lender>(tables: &AcpiTables<'_, H>, allocator: A) -> AcpiResult<Self>
        requires { AllowsBelow tables.now platform_ranges }
        ensures exact { GivesPlatform tables.now result }
        // It depends on what the lookup of the FADT depends on, and if one is found, on what that
        // of the MADT depends on.
        ensures footprint { PlatformFootprint tables.now result }
        // It is the same wherever the valid tables lie.
        ensures relocation { PlatformRelocation tables.now result }
    {
        let fadt = tables.find_fadt()?;
        let (interrupt_model, processor_info) = found_model(tables, allocator)?;
        let pm_timer = PmTimer::of(&fadt)?;
        Ok(PlatformInfo {
            power_profile: fadt.power_profile(),
            interrupt_model,
            processor_info,
            pm_timer,
        })
    }
}

/// The interrupt model and the processors of the first valid MADT, or `Unknown` without processors if none
/// is valid.
fn found_model<H: Lender, A: Allocator + Clone>(
    tables: &AcpiTables<'_, H>,
    allocator: A,
) -> AcpiResult<ModelAndProcessors<A>>
    requires { AllowsBelow tables.now (λ m. lookup_ranges m madt_kind) }
    ensures { GivesOrFull (of_tables tables.now ModelAsks) result
        (of_tables tables.now model_in) }
{
    match tables.find_table::<Madt>() {
        Ok(madt) => madt.parse_interrupt_model_in(allocator),
        Err(_) => Ok((InterruptModel::Unknown, None)),
    }
}
