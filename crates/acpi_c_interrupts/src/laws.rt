//! Laws of the definitions, each the contract of a call that does nothing.
ghost use Rattle.acpi_base.specs.Words.{AcceptsNothing};
ghost use Rattle.acpi_c_interrupts.specs.Words.{AcceptsAsReaders, ItemsAreAnswers, ListsAreModels};

/// Each item of `zacpi_get_isa_interrupts` is what `zacpi_get_isa_interrupt` returns for its number, and
/// `zacpi_get_io_apic_pin` for the global system interrupt of that.
#[tactic(auto, using(crate::proofs::IsaList::items_are_answers))]
pub fn items_are_answers()
    ensures { ItemsAreAnswers }
{}

/// Of a MADT none of whose entries is at fault, the lists of its entries are as in `PlatformInfo`.
pub fn lists_are_models()
    ensures { ListsAreModels }
{}

/// By an `accept` of 0 each call is that for valid tables, since each kind of tables is as it was, and the model is
/// that of `PlatformInfo`.
#[tactic(auto, using(acpi_base::proofs::Accepted::accepts_nothing, crate::proofs::Accepted::accepts_as_readers))]
pub fn nothing_else_is_accepted()
    ensures kinds { AcceptsNothing }
    ensures readers { AcceptsAsReaders }
{}
