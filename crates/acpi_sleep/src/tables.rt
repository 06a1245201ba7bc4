//! The sleep types that the tables of a machine contain (section 7.4.2).
ghost use Rattle.std.specs.Prelude.{◌≡◌, ◌≤◌, ℕ, Ok, length};
ghost use Rattle.acpi.specs.Words.{AllowsBelow, FootprintBelow, dsdt_ranges, of_tables};
ghost use Rattle.acpi_sleep.specs.Words.{Answer, answer_ranges, block_answer, dsdt_answer, or_after, tables_answer};

mod readings;

use crate::error::SleepError;
use crate::sleep::{SleepAnswer, sleep_types};
use acpi::AcpiTables;
use acpi::fadt::Fadt;
use acpi_base::Lender;
use acpi_base::bytes::skip;
use acpi_base::sdt::{SdtHeader, Signature, map_sdt};

/// A Secondary System Description Table (SSDT, section 5.2.11.2), whose AML is after the header.
#[derive(Debug, Drop)]
pub struct Ssdt {
    /// The header that every table begins with.
    pub header: SdtHeader,
}

/// The sleep types of tables.
pub trait SleepTables {
    // What they need may be requested.
    ghost asked: { Self → Type 0 };

    // This is what they return of a state.
    ghost answers: { Self → ℕ → Answer → Type 0 };

    /// The sleep types of a sleep state, 0 to 5, that the DSDT and the valid SSDTs contain: the types of the first of
    /// them, in the order of the root table, that has the state's package (`sleep_types`). If none has it, the first
    /// error or `NotSeen` of one, else `Absent`.
    ///
    /// Fails with `NoSuchState` if the state is above 5; else with `Acpi`, carrying the error of `AcpiTables::dsdt`, if
    /// the DSDT isn't found, and with `Aml` where the AML of a table ends the walk.
    fn sleep_types(&self, state: u8) -> Result<SleepAnswer, SleepError>
        requires { asked self.now }
        ensures { answers self.now state result };
}

impl<H: Lender> SleepTables for AcpiTables<'_, H> {
    ghost asked = { λ t. AllowsBelow t answer_ranges };

    // It depends on the root table, on the DSDT and how it is found, and on the members, each as an SSDT.
    ghost answers = { λ t state answer. (answer ≡ of_tables t (tables_answer state))
        × FootprintBelow t answer_ranges (λ n ps. Ok (tables_answer state n ps)) (λ expected. expected ≡ Ok answer) };

    fn sleep_types(&self, state: u8) -> Result<SleepAnswer, SleepError> {
        tables_answer(self, state)
    }
}

/// The result of all tables.
fn tables_answer<H: Lender>(
    tables: &AcpiTables<'_, H>,
    state: u8,
) -> Result<SleepAnswer, SleepError>
    requires { AllowsBelow tables.now answer_ranges }
    ensures { result ≡ of_tables tables.now (tables_answer state) }
{
    if state > 5 {
        return Err(SleepError::NoSuchState);
    }
    let mut answer = dsdt_answer(tables, state);
    for ssdt in tables.find_tables::<Ssdt>() {
        if let Ok(SleepAnswer::Types(_)) = answer {
            return answer;
        }
        answer = or_after(answer, block_answer(Signature::SSDT, state, ssdt.bytes()));
    }
    answer
}

/// The result of a block of AML before that of the blocks after it: types, its own first; else the first that isn't
/// `Absent`.
pub fn or_after(
    answer: Result<SleepAnswer, SleepError>,
    after: Result<SleepAnswer, SleepError>,
) -> Result<SleepAnswer, SleepError>
    ensures { result ≡ or_after answer after }
{
    match (answer, after) {
        (Ok(SleepAnswer::Types(types)), _) => Ok(SleepAnswer::Types(types)),
        (Ok(SleepAnswer::Absent), _) => after,
        (_, Ok(SleepAnswer::Types(types))) => Ok(SleepAnswer::Types(types)),
        _ => answer,
    }
}

/// The result of the DSDT that the first valid FADT leads to.
#[tactic(auto, unfolding(crate::specs::Tables::dsdt_answer))]
fn dsdt_answer<H: Lender>(tables: &AcpiTables<'_, H>, state: u8) -> Result<SleepAnswer, SleepError>
    requires asked { AllowsBelow tables.now dsdt_ranges }
    requires state { state ≤ 5 }
    ensures { result ≡ of_tables tables.now (dsdt_answer state) }
{
    let fadt = tables.find_table::<Fadt>()?;
    let dsdt = map_sdt(fadt.handler(), fadt.dsdt_address()?, Signature::DSDT)?;
    block_answer(Signature::DSDT, state, dsdt.bytes())
}

/// The result of the AML of a table of a signature, by the table's bytes: the AML is after the header.
///
/// Fails with `Aml` where the walk ends.
#[tactic(auto, unfolding(crate::specs::Tables::block_answer))]
pub fn block_answer(
    signature: Signature,
    state: u8,
    table: &[u8],
) -> Result<SleepAnswer, SleepError>
    requires state { state ≤ 5 }
    requires least { 36 ≤ length table.now }
    ensures { result ≡ block_answer signature state table.now }
{
    match sleep_types(skip(table, 36), state) {
        Ok(answer) => Ok(answer),
        Err(error) => Err(SleepError::Aml(signature, error)),
    }
}
