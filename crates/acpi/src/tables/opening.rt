//! Opening the root table: by its address, by an RSDP, by the search for one.
ghost use Rattle.std.specs.Prelude.{◌≡◌, IfOk, IsOk};
ghost use Rattle.acpi_base.specs.Words.{Allows, Footprint, start_of, bytes_of, Gives};
ghost use Rattle.acpi.specs.Words.{accept_of, accepted_opened, accepted_opened_by_rsdp, accepted_opened_by_rsdp_ranges, accepted_opened_by_search, accepted_opened_by_search_ranges, accepted_opened_in_areas, accepted_opened_in_areas_ranges, accepted_opened_ranges, accepted_root, lender_of, opened_at, opened_by_rsdp, opened_by_rsdp_ranges, opened_by_search, opened_by_search_ranges, opened_in_areas, opened_in_areas_ranges, opened_of, opened_ranges, root_of_revision, root_ranges_of, rsdp_at, SpellsPointers};

use super::AcpiTables;
use crate::policy::{Policy, Valid};
use crate::root::{RootKind, RootPointer};
use crate::rsdp::{Rsdp, map_accepted_rsdp, read_accepted};
use acpi_base::sdt::SdtHeader;
use acpi_base::table::valid_by;
use acpi_base::{AcpiResult, AddressRange, Lender, PhysicalMapping, PhysicalRecord};

impl<'h, H: Lender> AcpiTables<'h, H> {
    /// The tables below the root table that the RSDP at a physical address leads to: the RSDT if the
    /// RSDP's revision or XSDT address is 0, else the XSDT (sections 5.2.5.3, 5.2.7 and 5.2.8).
    ///
    /// Fails first with the error of the RSDP, in this order: `MapFailed` if its 36 bytes don't lie in one region,
    /// `RsdpIncorrectSignature` if it doesn't begin with `RSD PTR `, `RsdpInvalidOemId` if the OEM id is
    /// not valid UTF-8, `RsdpInvalidChecksum` if the first 20 bytes don't sum to 0 modulo 256 or, above
    /// revision 0, the length is under 36, `MapFailed` if that many bytes aren't lent, and
    /// `RsdpInvalidChecksum` if they don't sum to 0 modulo 256. Then it refuses as `from_rsdt` does.
    pub fn from_rsdp(handler: &'h H, address: u64) -> AcpiResult<Self>
        requires { Allows (H.may handler.now) (opened_by_rsdp_ranges (H.memory handler.now) address) }
        ensures handler { IfOk result (λ t. lender_of t ≡ handler.now) }
        // No check is given up, here and in what is looked up below the root table.
        ensures strict { IfOk result (λ t. accept_of t ≡ 0) }
        ensures exact { Gives (λ t. opened_of t) result
            (opened_by_rsdp (H.memory handler.now) address) }
        // In the reader's words: the root table's bytes encode these pointers and no others.
        ensures pointers { IfOk result (λ t. SpellsPointers t) }
        // It depends on the RSDP and the root table that this leads to, and on no other byte.
        ensures footprint { let m = H.memory handler.now in
            Footprint m (opened_by_rsdp_ranges m address) (λ n. opened_by_rsdp n address)
            (Gives (λ t. opened_of t) result) }
    {
        AcpiTables::from_rsdp_accepting(handler, address, Valid)
    }

    /// The tables below the root table of the RSDP that `Rsdp::search_for_on_bios` finds (section
    /// 5.2.5.1): the RSDT if the RSDP's revision or XSDT address is 0, else the XSDT. No later candidate
    /// is tried if the root table is bad.
    ///
    /// Fails first as that search does, with `MapFailed` or `NoValidRsdp`, and then as `from_rsdt` does.
    pub fn search_for_rsdp_bios(handler: &'h H) -> AcpiResult<Self>
        requires { Allows (H.may handler.now) (opened_by_search_ranges (H.memory handler.now)) }
        ensures handler { IfOk result (λ t. lender_of t ≡ handler.now) }
        // No check is given up, here and in what is looked up below the root table.
        ensures strict { IfOk result (λ t. accept_of t ≡ 0) }
        ensures exact { Gives (λ t. opened_of t) result (opened_by_search (H.memory handler.now)) }
        // In the reader's words: the root table's bytes encode these pointers and no others.
        ensures pointers { IfOk result (λ t. SpellsPointers t) }
        // It depends on what the search asks for and the root table that the RSDP leads to.
        ensures footprint { let m = H.memory handler.now in
            Footprint m (opened_by_search_ranges m) opened_by_search
            (Gives (λ t. opened_of t) result) }
    {
        AcpiTables::search_for_rsdp_bios_accepting(handler, Valid)
    }

    /// The tables below the root table of the RSDP that `Rsdp::search_in` finds in these areas (section
    /// 5.2.5.1): the RSDT if the RSDP's revision or XSDT address is 0, else the XSDT. No later candidate
    /// is tried if the root table is bad.
    ///
    /// Fails first as that search does, with `NoValidRsdp`, and then as `from_rsdt` does.
    pub fn search_in(handler: &'h H, areas: &[AddressRange]) -> AcpiResult<Self>
        requires { Allows (H.may handler.now)
            (opened_in_areas_ranges (H.memory handler.now) areas.now) }
        ensures handler { IfOk result (λ t. lender_of t ≡ handler.now) }
        // No check is given up, here and in what is looked up below the root table.
        ensures strict { IfOk result (λ t. accept_of t ≡ 0) }
        ensures exact { Gives (λ t. opened_of t) result
            (opened_in_areas (H.memory handler.now) areas.now) }
        // In the reader's words: the root table's bytes encode these pointers and no others.
        ensures pointers { IfOk result (λ t. SpellsPointers t) }
        // It depends on the candidates up to the one found and the root table that this leads to.
        ensures footprint { let m = H.memory handler.now in
            Footprint m (opened_in_areas_ranges m areas.now) (λ n. opened_in_areas n areas.now)
            (Gives (λ t. opened_of t) result) }
    {
        AcpiTables::search_in_accepting(handler, areas, Valid)
    }

    /// The tables below the root table that a valid RSDP leads to (sections 5.2.5.3, 5.2.7 and 5.2.8). Of
    /// the mapping only the address counts: the fields are read from the handler's memory there, which
    /// passes all checks of the RSDP.
    ///
    /// Fails as `from_rsdt` does.
    pub fn from_validated_rsdp(
        handler: &'h H,
        mapping: PhysicalMapping<'h, H, Rsdp>,
    ) -> AcpiResult<Self>
        requires valid { IsOk (rsdp_at (H.memory handler.now) (start_of mapping)) }
        requires asked { Allows (H.may handler.now)
            (opened_by_rsdp_ranges (H.memory handler.now) (start_of mapping)) }
        ensures handler { IfOk result (λ t. lender_of t ≡ handler.now) }
        // No check is given up, here and in what is looked up below the root table.
        ensures strict { IfOk result (λ t. accept_of t ≡ 0) }
        ensures exact { Gives (λ t. opened_of t) result
            (opened_by_rsdp (H.memory handler.now) (start_of mapping.entry)) }
        // In the reader's words: the root table's bytes encode these pointers and no others.
        ensures pointers { IfOk result (λ t. SpellsPointers t) }
        // It depends on the RSDP and the root table that this leads to, and on no other byte.
        ensures footprint { let m = H.memory handler.now in
            Footprint m (opened_by_rsdp_ranges m (start_of mapping.entry))
            (λ n. opened_by_rsdp n (start_of mapping.entry)) (Gives (λ t. opened_of t) result) }
    {
        let address = mapping.physical_start();
        drop(mapping);
        match PhysicalMapping::map(handler, address, Rsdp::MIN_LENGTH) {
            Ok(rsdp) => AcpiTables::open_read(handler, rsdp, Valid),
            Err(error) => Err(error),
        }
    }

    /// The tables below the root table at a physical address: an RSDT, with pointers of four bytes, for
    /// revision 0, else an XSDT, with pointers of eight bytes (sections 5.2.7 and 5.2.8).
    ///
    /// Fails, in this order, with `MapFailed` if 36 bytes aren't lent there, `SdtInvalidSignature` if
    /// the signature isn't `RSDT` or `XSDT` by the kind, `SdtInvalidOemId` and `SdtInvalidTableId` if that
    /// id is not valid UTF-8, `SdtInvalidLength` if the length is under 36, `MapFailed` if that many bytes
    /// aren't lent, and `SdtInvalidChecksum` if they don't sum to 0 modulo 256.
    #[tactic(auto, using(crate::proofs::Agreed::same_opened_at))]
    pub fn from_rsdt(handler: &'h H, revision: u8, address: u64) -> AcpiResult<Self>
        requires { Allows (H.may handler.now)
            (opened_ranges (H.memory handler.now) (root_of_revision revision address)) }
        ensures handler { IfOk result (λ t. lender_of t ≡ handler.now) }
        // No check is given up, here and in what is looked up below the root table.
        ensures strict { IfOk result (λ t. accept_of t ≡ 0) }
        ensures exact { Gives (λ t. opened_of t) result
            (opened_at (H.memory handler.now) (revision, address)) }
        // In the reader's words: the root table's bytes encode these pointers and no others.
        ensures pointers { IfOk result (λ t. SpellsPointers t) }
        // It depends on the root table and on no other byte.
        ensures footprint { let m = H.memory handler.now in
            Footprint m (opened_ranges m (root_of_revision revision address))
            (λ n. opened_at n (revision, address)) (Gives (λ t. opened_of t) result) }
    {
        let root_pointer = RootPointer {
            revision,
            kind: RootKind::of_revision(revision),
            address,
        };
        AcpiTables::open_accepting(handler, root_pointer, Valid)
    }
}

impl<'h, H: Lender, P: Policy> AcpiTables<'h, H, P> {
    /// The tables below a root table (sections 5.2.7 and 5.2.8), which is accepted by a policy, as then its members
    /// are. `Rsdp::root` has the root table that an RSDP leads to.
    ///
    /// Fails as `from_rsdt` does, but for the checks that the policy gives up.
    pub fn open_accepting(handler: &'h H, root_pointer: RootPointer, policy: P) -> AcpiResult<Self>
        requires { Allows (H.may handler.now)
            (accepted_opened_ranges (P.bits policy) (H.memory handler.now) root_pointer) }
        ensures handler { IfOk result (λ t. lender_of t ≡ handler.now) }
        ensures accept { IfOk result (λ t. accept_of t ≡ P.bits policy) }
        ensures exact { Gives (λ t. opened_of t) result
            (accepted_opened (P.bits policy) (H.memory handler.now) root_pointer) }
        // In the reader's words: the root table's bytes encode these pointers and no others.
        ensures pointers { IfOk result (λ t. SpellsPointers t) }
        // It depends on the root table and on no other byte.
        ensures footprint { let m = H.memory handler.now in
            Footprint m (accepted_opened_ranges (P.bits policy) m root_pointer)
            (λ n. accepted_opened (P.bits policy) n root_pointer) (Gives (λ t. opened_of t) result) }
    {
        let signature = root_pointer.kind.signature();
        let least = SdtHeader::MIN_LENGTH;
        match valid_by(
            handler,
            root_pointer.address,
            signature,
            least,
            policy.bits(),
        ) {
            Ok(root) => Ok(AcpiTables {
                policy,
                revision: root_pointer.revision,
                kind: root_pointer.kind,
                root: root.mapping(),
            }),
            Err(error) => Err(error),
        }
    }

    /// The tables below the root table that the RSDP at a physical address leads to, which a policy accepts, as then
    /// the root table and its members are: by `map_accepted_rsdp`, `read_accepted` and `open_accepting`.
    ///
    /// Fails as `from_rsdp` does, but for the checks that the policy gives up.
    pub fn from_rsdp_accepting(handler: &'h H, address: u64, policy: P) -> AcpiResult<Self>
        requires { Allows (H.may handler.now)
            (accepted_opened_by_rsdp_ranges (P.bits policy) (H.memory handler.now) address) }
        ensures handler { IfOk result (λ t. lender_of t ≡ handler.now) }
        ensures accept { IfOk result (λ t. accept_of t ≡ P.bits policy) }
        ensures exact { Gives (λ t. opened_of t) result
            (accepted_opened_by_rsdp (P.bits policy) (H.memory handler.now) address) }
        // In the reader's words: the root table's bytes encode these pointers and no others.
        ensures pointers { IfOk result (λ t. SpellsPointers t) }
        // It depends on the RSDP and the root table that this leads to, and on no other byte.
        ensures footprint { let m = H.memory handler.now in
            Footprint m (accepted_opened_by_rsdp_ranges (P.bits policy) m address)
            (λ n. accepted_opened_by_rsdp (P.bits policy) n address) (Gives (λ t. opened_of t) result) }
    {
        let rsdp = map_accepted_rsdp(handler, address, policy.bits())?;
        AcpiTables::open_read(handler, rsdp, policy)
    }

    /// The tables below the root table of the RSDP that `Rsdp::search_for_on_bios_accepting` finds by a policy.
    ///
    /// Fails as `search_for_rsdp_bios` does, but for the checks that the policy gives up.
    pub fn search_for_rsdp_bios_accepting(handler: &'h H, policy: P) -> AcpiResult<Self>
        requires { Allows (H.may handler.now)
            (accepted_opened_by_search_ranges (P.bits policy) (H.memory handler.now)) }
        ensures handler { IfOk result (λ t. lender_of t ≡ handler.now) }
        ensures accept { IfOk result (λ t. accept_of t ≡ P.bits policy) }
        ensures exact { Gives (λ t. opened_of t) result
            (accepted_opened_by_search (P.bits policy) (H.memory handler.now)) }
        // In the reader's words: the root table's bytes encode these pointers and no others.
        ensures pointers { IfOk result (λ t. SpellsPointers t) }
        // It depends on what the search requests and the root table that the RSDP leads to.
        ensures footprint { let m = H.memory handler.now in
            Footprint m (accepted_opened_by_search_ranges (P.bits policy) m)
            (accepted_opened_by_search (P.bits policy)) (Gives (λ t. opened_of t) result) }
    {
        let rsdp = Rsdp::search_for_on_bios_accepting(handler, policy.bits())?;
        AcpiTables::open_read(handler, rsdp, policy)
    }

    /// The tables below the root table of the RSDP that `Rsdp::search_in_accepting` finds by a policy.
    ///
    /// Fails as `search_in` does, but for the checks that the policy gives up.
    pub fn search_in_accepting(
        handler: &'h H,
        areas: &[AddressRange],
        policy: P,
    ) -> AcpiResult<Self>
        requires { Allows (H.may handler.now)
            (accepted_opened_in_areas_ranges (P.bits policy) (H.memory handler.now) areas.now) }
        ensures handler { IfOk result (λ t. lender_of t ≡ handler.now) }
        ensures accept { IfOk result (λ t. accept_of t ≡ P.bits policy) }
        ensures exact { Gives (λ t. opened_of t) result
            (accepted_opened_in_areas (P.bits policy) (H.memory handler.now) areas.now) }
        // In the reader's words: the root table's bytes encode these pointers and no others.
        ensures pointers { IfOk result (λ t. SpellsPointers t) }
        // It depends on the candidates up to the one found and the root table that this leads to.
        ensures footprint { let m = H.memory handler.now in
            Footprint m (accepted_opened_in_areas_ranges (P.bits policy) m areas.now)
            (λ n. accepted_opened_in_areas (P.bits policy) n areas.now) (Gives (λ t. opened_of t) result) }
    {
        let rsdp = Rsdp::search_in_accepting(handler, areas, policy.bits())?;
        AcpiTables::open_read(handler, rsdp, policy)
    }

    /// The tables below the root table that an accepted RSDP leads to, which is unmapped first.
    fn open_read(handler: &'h H, rsdp: PhysicalMapping<'h, H, Rsdp>, policy: P) -> AcpiResult<Self>
        requires { Allows (H.may handler.now)
            (root_ranges_of (P.bits policy) (H.memory handler.now) (start_of rsdp, bytes_of rsdp)) }
        ensures handler { IfOk result (λ t. lender_of t ≡ handler.now) }
        ensures accept { IfOk result (λ t. accept_of t ≡ P.bits policy) }
        ensures exact { Gives (λ t. opened_of t) result (accepted_opened (P.bits policy) (H.memory handler.now)
            (accepted_root (P.bits policy) (H.memory handler.now) (start_of rsdp.entry, bytes_of rsdp.entry))) }
        ensures pointers { IfOk result (λ t. SpellsPointers t) }
    {
        let root_pointer = read_accepted(handler, &rsdp, policy.bits()).root();
        drop(rsdp);
        AcpiTables::open_accepting(handler, root_pointer, policy)
    }
}
