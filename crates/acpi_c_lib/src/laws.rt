//! Laws of the definitions, each the contract of a call that does nothing.
ghost use Rattle.acpi_base.specs.Words.{AcceptsValid, KeepsNames, KeepsSums};
ghost use Rattle.acpi_c_lib.specs.Words.{CandidatesLackRanges, FaultsAreTheirs, DsdtAndFacsLackRanges, MembersLackRanges, OpeningLacksRange, RangesAreTheirs, RsdpEndsRanges, TakenEndsFaults};

/// Each member of the root table that fails with `MapFailed` has a range among the ranges that
/// `zacpi_list_missing_ranges` lists, and that range is in no one region.
#[tactic(auto, using(crate::proofs::Unmapped::own_unmapped))]
pub fn members_refused_have_ranges()
    ensures { MembersLackRanges }
{}

/// If the error of the DSDT or the FACS that a FADT points to is `MapFailed`, there is the range that
/// `zacpi_list_missing_ranges` lists of it, and that range is in no one region.
#[tactic(auto, using(crate::proofs::Unmapped::accepted_unmapped), unfolding(acpi::specs::Places::facs_at, acpi::specs::Places::facs_length))]
pub fn led_tables_have_ranges()
    ensures { DsdtAndFacsLackRanges }
{}

/// If the error of a candidate of a search whose first 36 bytes are mapped is `MapFailed`, there is the range that
/// `zacpi_list_missing_ranges` lists of it, and that range is in no one region.
#[tactic(auto, using(crate::proofs::Unmapped::rsdp_not, crate::proofs::Unmapped::sum_not), unfolding(acpi::specs::Rsdp::accepted_rsdp_at, crate::specs::Missing::candidate_missing_range))]
pub fn candidates_have_ranges()
    ensures { CandidatesLackRanges }
{}

/// If opening the tables fails with `MapFailed`, `zacpi_list_missing_ranges` lists a range, and that range is in no
/// one region.
#[tactic(auto, using(crate::proofs::Unmapped::opening_unmapped))]
pub fn a_refused_opening_has_a_range()
    ensures { OpeningLacksRange }
{}

/// A table that is valid is accepted by any bits.
#[tactic(auto, using(acpi_base::proofs::Accepted::accepts_valid))]
pub fn valid_tables_are_accepted()
    ensures { AcceptsValid }
{}

/// `ZACPI_ACCEPT_IDS` drops no check of a sum, and `ZACPI_ACCEPT_SUMS` none of a name.
#[tactic(auto, using(acpi_base::proofs::Accepted::keeps_names, acpi_base::proofs::Accepted::keeps_sums))]
pub fn each_bit_keeps_the_other_check()
    ensures sums { KeepsSums }
    ensures names { KeepsNames }
{}

/// `zacpi_list_faults` lists the fault of each table that the lookup skips, in order, but of no other signature; and
/// last that of the table that it takes, if that isn't valid.
#[tactic(auto, using(crate::proofs::Skipped::faults_are_theirs, crate::proofs::Skipped::taken_ends))]
pub fn faults_are_of_tables()
    ensures skipped { FaultsAreTheirs }
    ensures taken { TakenEndsFaults }
{}

/// Of the candidates of a search, `zacpi_list_missing_ranges` lists the range of each that has one, in order, up to the
/// first that is valid.
#[tactic(auto, using(crate::proofs::Skipped::ranges_are_theirs, crate::proofs::Skipped::rsdp_ends_ranges))]
pub fn ranges_are_of_candidates()
    ensures none { RangesAreTheirs }
    ensures valid { RsdpEndsRanges }
{}
