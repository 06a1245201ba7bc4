//! Sleep types, and what to write to sleep, to power off, to enable ACPI and to reset.
ghost use Rattle.std.specs.Prelude.{◌≡◌, ◌≤◌};
ghost use Rattle.acpi.specs.Words.{accept_of, memory_of, pointers_of};
ghost use Rattle.acpi_sleep.specs.Words.{joined};
ghost use Rattle.acpi_c_devices.specs.Words.{accepted_answer, dsdt_answer, enable_plan_below, kind_code, plan_record, plan_said, reset_plan_below, sleep_plan_below, sleep_types_below, step_record, types_below};

pub mod records;

use crate::devices::optional_register;
use crate::power::records::{Plan, SleepTypes, Step};
use acpi::sdt::Signature;
use acpi::{Accept, AcpiHandler, AcpiTables};
use acpi_c_lib::opening::{find_fadt, first_fadt, open};
use acpi_c_lib::records::Source;
use acpi_c_lib::refusal::Refusal;
use acpi_c_lib::regions::Mapped;
use acpi_sleep::tables::{block_answer, or_after};
use acpi_sleep::{PlanError, PlanStep, SleepAnswer, SleepError, StepKind};

/// The sleep types of a sleep state, by the DSDT and the SSDTs, if each fits a byte.
pub fn sleep_types(source: &Source<'_>, state: u32) -> Result<SleepTypes, Refusal>
    ensures { result ≡ sleep_types_below source.now state }
{
    let types = types_of(source, state)?;
    if types.a > 255 || types.b > 255 {
        return Err(Refusal::SleepTypeTooHigh);
    }
    Ok(SleepTypes {
        a: types.a as u8,
        b: types.b as u8,
    })
}

/// The sleep types of a sleep state, by the DSDT and the SSDTs, whether or not they fit a byte.
fn types_of(source: &Source<'_>, state: u32) -> Result<acpi_sleep::SleepTypes, Refusal>
    ensures { result ≡ types_below source.now state }
{
    let memory = Mapped::new(source.regions)?;
    let tables = open(&memory, source)?;
    if state > 5 {
        return Err(Refusal::NoSuchState);
    }
    match tables_answer(&tables, state as u8)? {
        SleepAnswer::Types(types) => Ok(types),
        SleepAnswer::Absent => Err(Refusal::SleepStateAbsent),
        SleepAnswer::NotSeen(_) => Err(Refusal::SleepStateNotSeen),
    }
}

/// The result of the DSDT and the SSDTs that are accepted.
#[tactic(auto, using(acpi_sleep::proofs::Answering::one_block, acpi_sleep::proofs::Answering::types_found, acpi_sleep::proofs::Answering::none_left))]
fn tables_answer<H: AcpiHandler>(
    tables: &AcpiTables<'_, H, Accept>,
    state: u8,
) -> Result<SleepAnswer, SleepError>
    requires { state ≤ 5 }
    ensures { let t = tables.now in
        result ≡ accepted_answer (accept_of t) state (memory_of t) (pointers_of t) }
{
    let mut answer = dsdt_answer(tables, state);
    for address in tables.addresses() {
        if let Ok(SleepAnswer::Types(_)) = answer {
            return answer;
        }
        if let Ok(ssdt) = tables.sdt_at(address, Signature::SSDT) {
            answer = or_after(answer, block_answer(Signature::SSDT, state, ssdt.bytes()));
        }
    }
    answer
}

/// The result of the DSDT that the first accepted FADT points to.
fn dsdt_answer<H: AcpiHandler>(
    tables: &AcpiTables<'_, H, Accept>,
    state: u8,
) -> Result<SleepAnswer, SleepError>
    requires { state ≤ 5 }
    ensures { let t = tables.now in
        result ≡ joined (dsdt_answer (accept_of t) state (memory_of t) (pointers_of t)) }
{
    let fadt = find_fadt(tables)?;
    let dsdt = tables.sdt_at(fadt.dsdt_address()?, Signature::DSDT)?;
    block_answer(Signature::DSDT, state, dsdt.bytes())
}

/// What to write to enter a sleep state, by the first valid FADT.
pub fn sleep_plan(source: &Source<'_>, state: u32) -> Result<Plan, Refusal>
    ensures { result ≡ sleep_plan_below source.now state }
{
    let types = types_of(source, state)?;
    let memory = Mapped::new(source.regions);
    let fadt = first_fadt(&memory, source)?;
    plan_said(acpi_sleep::sleep_plan(&fadt, types))
}

/// What to write to power the machine off: to enter S5 (section 16.1).
pub fn power_off_plan(source: &Source<'_>) -> Result<Plan, Refusal>
    ensures { result ≡ sleep_plan_below source.now 5 }
{
    sleep_plan(source, 5)
}

/// What to write to enable ACPI, by the first valid FADT.
pub fn enable_plan(source: &Source<'_>) -> Result<Plan, Refusal>
    ensures { result ≡ enable_plan_below source.now }
{
    let memory = Mapped::new(source.regions);
    let fadt = first_fadt(&memory, source)?;
    plan_said(acpi_sleep::enable_plan(&fadt))
}

/// What to write to reset the machine, by the first valid FADT.
pub fn reset_plan(source: &Source<'_>) -> Result<Plan, Refusal>
    ensures { result ≡ reset_plan_below source.now }
{
    let memory = Mapped::new(source.regions);
    let fadt = first_fadt(&memory, source)?;
    plan_said(acpi_sleep::reset_plan(&fadt))
}

/// A plan, or why there is none.
fn plan_said(outcome: Result<acpi_sleep::Plan, PlanError>) -> Result<Plan, Refusal>
    ensures { result ≡ plan_said outcome }
{
    let plan = outcome?;
    Ok(plan_record(plan))
}

/// A plan under C's names.
fn plan_record(plan: acpi_sleep::Plan) -> Plan
    ensures { result ≡ plan_record plan }
{
    let none = step_record(None);
    Plan {
        steps: [
            step_record(plan.first),
            step_record(plan.second),
            none,
            none,
            none,
            none,
            none,
            none,
        ],
        count: plan.first.is_some() as u32 + plan.second.is_some() as u32,
        reserved: [0; 4],
    }
}

/// A step under C's names, or zeros.
fn step_record(step: Option<PlanStep>) -> Step
    ensures { result ≡ step_record step }
{
    match step {
        Some(step) => Step {
            at: optional_register(Ok(Some(step.register))),
            mask: step.mask,
            value: step.value,
            width: step.width,
            kind: kind_code(step.kind),
            reserved: [0; 6],
        },
        None => Step {
            at: optional_register(Ok(None)),
            mask: 0,
            value: 0,
            width: 0,
            kind: 0,
            reserved: [0; 6],
        },
    }
}

/// The number of a step's kind.
fn kind_code(kind: StepKind) -> u8
    ensures { result ≡ kind_code kind }
{
    match kind {
        StepKind::Write => 0,
        StepKind::Wait => 1,
    }
}
