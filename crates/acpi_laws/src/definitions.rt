//! Laws of the definitions of memory, numbers, codes, entries, pointers, lookups, what is accepted, the search, members
//! and places.
ghost use Rattle.acpi_base.specs.Words.{AcceptsNothing, AcceptsValid, CodesDecode, CutIsCut, KeepsChecks, KeepsNames, KeepsSums, OneCut, FieldPastEnd, LentIsInside, NamesAreSpelled, OwnIsValid};
ghost use Rattle.acpi_fixed.specs.Words.{ProfilesDecode};
ghost use Rattle.acpi.specs.Words.{LookupIsFirst, OnePointers, SecondAreas, SkipsInvalid};
ghost use Rattle.acpi_laws.specs.PlatformLaws.{FirstBoots, ListedOnce, PlatformIsTheirs, RegistersAreTheTables};
ghost use Rattle.acpi_laws.specs.PlaceLaws.{FirstIsFound, FoundBySignature, HeadersOfMembers, OneForEach, RootLiesInRange, TablesLieInRanges};

/// Proves that each of these laws holds.
pub fn definitions_hold()
    // Each constant of `Signature` has the four letters of its table (section 5.2.6).
    ensures names { NamesAreSpelled }
    // In a memory of disjoint regions, what is mapped is exactly a range that is whole inside one region, with the
    // bytes that the region has there.
    ensures lent { LentIsInside }
    // A number whose bytes reach past the end of a table is read as if zeros followed (section 5.2).
    ensures past_end { FieldPastEnd }
    // A code is decoded to the one value that has it, and is one error if there is none: in a generic address
    // (section 5.2.3.2), in MPS INTI Flags (section 5.2.12.5), of a LINT pin (section 5.2.12.7), of the interface in an
    // SPCR, and Preferred_PM_Profile (section 5.2.9.1).
    ensures codes { CodesDecode }
    ensures profiles { ProfilesDecode }
    // The registers in the record of a FADT are those that the table's bytes give (section 5.2.9).
    ensures registers { RegistersAreTheTables }
    // The processors are those that the entries list, each once and in order. The first alone is the boot processor,
    // and doesn't wait to be started; the others don't run yet (section 5.2.12).
    ensures listed { ListedOnce }
    ensures boots { FirstBoots }
    // The platform has the first valid FADT's profile and timer and the first valid MADT's model, an unknown one if no
    // MADT is valid.
    ensures platform { PlatformIsTheirs }
    // By a grammar, bytes are cut into entries and a remainder in one way at most.
    ensures one_cut { OneCut }
    // The cut into entries and a remainder that is computed is a cut of the bytes.
    ensures cut { CutIsCut }
    // The bytes after a root table's header encode exactly one list of pointers (sections 5.2.7 and 5.2.8).
    ensures pointers { OnePointers }
    // A lookup returns a table exactly if that is the first one that is valid for the type.
    ensures lookup { LookupIsFirst }
    // A member that isn't valid, put anywhere into the list of pointers, changes nothing in a lookup.
    ensures skips { SkipsInvalid }
    // By an `accept` of 0 a kind of tables is as it was, so each call is that for valid tables.
    ensures strict { AcceptsNothing }
    // A table is valid under its own signature if it is valid under the one that its header has.
    ensures own { OwnIsValid }
    // A table that is valid for a kind is accepted by any bits, whatever the kind checks of a table's bytes.
    ensures valid { AcceptsValid }
    // Of a table that is accepted the kind's own check has no error, or one of a check that is given up.
    ensures checks_kept { KeepsChecks }
    // Bit 0 alone drops the check of the sum, and bit 1 alone the check of the ids.
    ensures sums_kept { KeepsSums }
    ensures names_kept { KeepsNames }
    // The area that is searched second for the RSDP, for four words at 0x40e (section 5.2.5.1): the first KiB of an
    // EBDA in its place, 0x80000..0xa0000 for none and for one out of range, and the highest EBDA that is taken.
    ensures second_areas { SecondAreas }
    // `members` has exactly one item for each pointer of the root table, in order.
    ensures one_for_each { OneForEach }
    // The headers that `members` has as `Ok` are `headers`.
    ensures headers { HeadersOfMembers }
    // The first of `find_tables` is what `find_table` finds, and it has one exactly if that succeeds.
    ensures first { FirstIsFound }
    // `find_sdt` returns what `find_table` does for a type that wants 36 bytes and the checks of a header.
    ensures by_signature { FoundBySignature }
    // Each range that a lookup, `faults`, `find_tables`, `headers`, `members`, `ssdts`, `dsdt` or a summary depends on
    // or requests is inside one of `ranges`. Excepted are those that begin at a member that `members`
    // has as an error, or at the address of the DSDT in the first valid FADT, if no valid DSDT is there.
    ensures tables { TablesLieInRanges }
    // Each range that opening a root table depends on or requests at the table's address is in the first that
    // `ranges`.
    ensures root { RootLiesInRange }
{}
