//! Laws of the definitions. Each is the contract of a function that does nothing.
ghost use Rattle.acpi_sleep.specs.Words.{AnswerIsFirst, ArgumentsBeginNoTerm, EachArgumentEnds, NothingBehindMatters};

/// An argument is an operand, or an operator with its operands and its target, each an argument.
#[tactic(auto, using(crate::proofs::Arguments::each_argument_ends))]
pub fn each_argument_ends()
    ensures { EachArgumentEnds }
{}

/// No term begins as an argument does.
#[tactic(auto, using(crate::proofs::Apart::arguments_begin_no_term))]
pub fn arguments_begin_no_term()
    ensures { ArgumentsBeginNoTerm }
{}

/// What follows the result's package doesn't matter, nor what follows the scope of the root that it is in.
#[tactic(auto, using(crate::proofs::BehindSteps::nothing_behind_matters))]
pub fn nothing_behind_matters()
    ensures { NothingBehindMatters }
{}

/// The answer of blocks one after another is that of the first that has types, or else of the first that may have.
#[tactic(auto, using(crate::proofs::First::answer_is_first))]
pub fn answer_is_first()
    ensures { AnswerIsFirst }
{}
