//! The places of the tables, all tables of a type, and a lookup by a signature.
ghost use Rattle.std.specs.Prelude.{◌≡◌, ◌^◌, ◌<◌, ◌≤◌, ◌+◌, Ok, IfOk, length, map};
ghost use Rattle.acpi_base.specs.FromStd.{result_ok};
ghost use Rattle.acpi_base.specs.Words.{IsLentOf, claimed_at, claimed_from, own_accepted, own_accepted_ranges, sdt_kind, shown_by, table_at, table_ranges, IsOfMemory, bytes_of, handler_of, start_of, Allows, Footprint, Gives, plain_kind};
ghost use Rattle.acpi_fixed.specs.Words.{viewed};
ghost use Rattle.acpi.specs.Words.{AllowsBelow, FootprintBelow, header_ranges, lookup_ranges, lookup, kind_ranges, members_of, tables_found, found_left, members_left, places_left, root_place, pointers_left, dsdt_place, dsdt_place_ranges, facs_place, facs_place_ranges, by_accepted_fadt, by_accepted_fadt_ranges, by_first_fadt, dsdt_and_facs_ranges, place_ranges, places_of, signature_of, accept_of, accepted_by, kind_of, lender_of, may_of, memory_of, of_tables, pointers_of, root_address_of, root_of};

use super::AcpiTables;
use crate::matches::FoundTables;
use crate::members::TableMembers;
use crate::pointers::Pointers;
use crate::policy::{Policy, map_accepted};
use crate::ranges::{TableRanges, facs_at};
use crate::root::RootKind;
use acpi_base::sdt::{SdtHeader, map_sdt};
use acpi_base::table::{ValidTable, own_valid_by, valid_by};
use acpi_base::{
    AcpiError, AcpiResult, AcpiTable, AddressRange, Lender, PhysicalMapping, PhysicalRecord,
    Signature,
};
use acpi_fixed::fadt::FadtView;

impl<'h, H: Lender, P: Policy> AcpiTables<'h, H, P> {
    /// The physical address of the root table (sections 5.2.7 and 5.2.8).
    pub fn root_address(&self) -> u64
        ensures { result ≡ root_address_of self.now }
    {
        self.root.physical_start()
    }

    /// How many bytes the root table has, with its header (sections 5.2.7 and 5.2.8).
    pub fn root_length(&self) -> u32
        ensures { result ≡ length (root_of self.now) }
    {
        self.root.region_length() as u32
    }

    /// The signature of the root table: `RSDT` (section 5.2.7) or `XSDT` (section 5.2.8).
    pub fn root_signature(&self) -> Signature
        ensures { result ≡ signature_of (kind_of self.now) }
    {
        self.kind.signature()
    }

    /// The kind of the root table: its signature, and the width of its pointers.
    pub fn root_kind(&self) -> RootKind
        ensures { result ≡ kind_of self.now }
    {
        self.kind
    }

    /// The physical addresses that the root table lists, in order. Nothing is looked at there.
    #[tactic(auto, using(crate::proofs::First::pointers_short))]
    pub fn addresses(&self) -> Pointers<'_>
        ensures items { pointers_left result ≡ pointers_of self.now }
        ensures fits { length (pointers_left result) < 2 ^ 32 }
    {
        self.pointers()
    }

    /// The first member of the root table that is accepted under a signature that is known only at run time
    /// (section 5.2.6), with at least the 36 bytes of a header, mapped as its header.
    ///
    /// Fails with `TableMissing`, carrying the signature, if no member is accepted so. A member that
    /// isn't lent, or fails another check, is passed over.
    pub fn find_sdt(&self, signature: Signature) -> AcpiResult<PhysicalMapping<'h, H, SdtHeader>>
        requires { AllowsBelow self.now (λ m. lookup_ranges m (accepted_by self.now (plain_kind signature))) }
        ensures handler { IfOk result (λ m. handler_of m ≡ lender_of self.now) }
        // However many bytes were lent, all of them are the memory's.
        ensures lent { IfOk result (λ m. IsOfMemory (memory_of self.now) m) }
        ensures exact { Gives (λ m. (start_of m, bytes_of m)) result
            (of_tables self.now (λ m. lookup m (accepted_by self.now (plain_kind signature)))) }
        // It depends on what a lookup depends on.
        ensures footprint { FootprintBelow self.now (λ m. lookup_ranges m (accepted_by self.now (plain_kind signature)))
            (λ n. lookup n (accepted_by self.now (plain_kind signature)))
            (Gives (λ m. (start_of m, bytes_of m)) result) }
    {
        let found = self.find_bytes(signature, SdtHeader::MIN_LENGTH)?;
        Ok(found.mapping())
    }

    /// The bytes of the first member of the root table that is accepted under a signature and a least length, of at
    /// least 36, that are known only at run time (section 5.2.6).
    ///
    /// Fails as `find_sdt` does.
    #[inline(never)]
    pub fn find_bytes(&self, signature: Signature, least: usize) -> AcpiResult<ValidTable<'h, H>>
        requires least { 36 ≤ least }
        requires asked { AllowsBelow self.now (λ m. lookup_ranges m (accepted_by self.now (sdt_kind signature least))) }
        ensures handler { IfOk result (λ v. claimed_from v.claim ≡ lender_of self.now) }
        ensures lent { IfOk result (λ v. IsLentOf (memory_of self.now) v.claim) }
        ensures least { IfOk result (λ v. least ≤ length (shown_by v.claim)) }
        ensures ends { IfOk result (λ v. claimed_at v.claim + length (shown_by v.claim) < 2 ^ 64) }
        ensures found { Gives (λ v. (claimed_at v.claim, shown_by v.claim)) result
            (of_tables self.now (λ m. lookup m (accepted_by self.now (sdt_kind signature least)))) }
        // It depends on what a lookup depends on.
        ensures footprint { FootprintBelow self.now
            (λ m. lookup_ranges m (accepted_by self.now (sdt_kind signature least)))
            (λ n. lookup n (accepted_by self.now (sdt_kind signature least)))
            (Gives (λ v. (claimed_at v.claim, shown_by v.claim)) result) }
    {
        for address in self.pointers() {
            if let Ok(found) = valid_by(
                self.root.handler(),
                address,
                signature,
                least,
                self.policy.bits(),
            ) {
                return Ok(found);
            }
        }
        Err(AcpiError::TableMissing(signature))
    }

    /// The table at a physical address, whether it is a member or not, mapped as its header, if it is accepted under a
    /// signature that is known only at run time (section 5.2.6).
    ///
    /// Fails as `sdt::map_sdt` does, but for the checks that are given up.
    pub fn sdt_at(
        &self,
        address: u64,
        signature: Signature,
    ) -> AcpiResult<PhysicalMapping<'h, H, SdtHeader>>
        requires { Allows (may_of self.now) (table_ranges (memory_of self.now)
            (accepted_by self.now (plain_kind signature)) address) }
        ensures place { IfOk result (λ m. start_of m ≡ address) }
        ensures handler { IfOk result (λ m. handler_of m ≡ lender_of self.now) }
        // However many bytes were lent, all of them are the memory's.
        ensures lent { IfOk result (λ m. IsOfMemory (memory_of self.now) m) }
        ensures short { IfOk result (λ m. length (bytes_of m) < 2 ^ 32) }
        ensures ends { IfOk result (λ m. start_of m + length (bytes_of m) < 2 ^ 64) }
        ensures table { Gives (λ m. bytes_of m) result
            (table_at (memory_of self.now) (accepted_by self.now (plain_kind signature)) address) }
        // It depends on that table and on no other byte.
        ensures footprint { let m = memory_of self.now in let k = accepted_by self.now (plain_kind signature) in
            Footprint m (table_ranges m k address) (λ n. table_at n k address) (Gives (λ m. bytes_of m) result) }
    {
        let accept = self.policy.bits();
        let table = valid_by(
            self.root.handler(),
            address,
            signature,
            SdtHeader::MIN_LENGTH,
            accept,
        )?;
        Ok(table.mapping())
    }

    /// The table at a physical address, whether it is a member or not, mapped as its header, if it is accepted under
    /// the signature that it has itself (section 5.2.6).
    ///
    /// Fails as `sdt_at` does for that signature.
    pub fn own_sdt_at(&self, address: u64) -> AcpiResult<PhysicalMapping<'h, H, SdtHeader>>
        requires { Allows (may_of self.now) (own_accepted_ranges (accept_of self.now) (memory_of self.now) address) }
        ensures place { IfOk result (λ m. start_of m ≡ address) }
        ensures handler { IfOk result (λ m. handler_of m ≡ lender_of self.now) }
        // However many bytes were lent, all of them are the memory's.
        ensures lent { IfOk result (λ m. IsOfMemory (memory_of self.now) m) }
        ensures short { IfOk result (λ m. length (bytes_of m) < 2 ^ 32) }
        ensures ends { IfOk result (λ m. start_of m + length (bytes_of m) < 2 ^ 64) }
        ensures table { Gives (λ m. bytes_of m) result
            (own_accepted (accept_of self.now) (memory_of self.now) address) }
        // It depends on that table and on no other byte.
        ensures footprint { let m = memory_of self.now in let accept = accept_of self.now in
            Footprint m (own_accepted_ranges accept m address) (λ n. own_accepted accept n address)
            (Gives (λ m. bytes_of m) result) }
    {
        let table = own_valid_by(self.root.handler(), address, self.policy.bits())?;
        Ok(table.mapping())
    }

    /// The table at a physical address, whether it is a member or not, if it is accepted for `T` (section 5.2.6).
    ///
    /// Fails as `sdt::map_table` does, but for the checks that are given up.
    pub fn table_at<T: AcpiTable>(&self, address: u64) -> AcpiResult<PhysicalMapping<'h, H, T>>
        requires { Allows (may_of self.now) (table_ranges (memory_of self.now) (accepted_by self.now T.kind) address) }
        ensures place { IfOk result (λ m. start_of m ≡ address) }
        ensures handler { IfOk result (λ m. handler_of m ≡ lender_of self.now) }
        // However many bytes were lent, all of them are the memory's.
        ensures lent { IfOk result (λ m. IsOfMemory (memory_of self.now) m) }
        ensures table { Gives (λ m. bytes_of m) result
            (table_at (memory_of self.now) (accepted_by self.now T.kind) address) }
        // It depends on that table and on no other byte.
        ensures footprint { let m = memory_of self.now in let k = accepted_by self.now T.kind in
            Footprint m (table_ranges m k address) (λ n. table_at n k address) (Gives (λ m. bytes_of m) result) }
    {
        map_accepted(self.root.handler(), address, self.policy.bits())
    }

    /// All members of the root table that are accepted for `T`, in order. It gives at most one for each
    /// pointer.
    pub fn find_tables<T: AcpiTable>(&self) -> FoundTables<'_, 'h, H, T>
        requires { AllowsBelow self.now (λ m. kind_ranges m (accepted_by self.now T.kind)) }
        ensures items { found_left H.memory T.kind result
            ≡ of_tables self.now (λ m. tables_found m (accepted_by self.now T.kind)) }
        ensures few { length (found_left H.memory T.kind result) ≤ length (pointers_of self.now) }
        ensures fits { length (found_left H.memory T.kind result) < 2 ^ 32 }
        // They depend on the root table and the members, each as a table of this type.
        ensures footprint { FootprintBelow self.now (λ m. kind_ranges m (accepted_by self.now T.kind))
            (λ n ps. Ok (tables_found n (accepted_by self.now T.kind) ps))
            (λ expected. expected ≡ Ok (found_left H.memory T.kind result)) }
    {
        FoundTables::new(self.root.handler(), self.pointers(), self.policy.bits())
    }

    /// Where the FACS is, as many bytes as its Length has (section 5.2.10): that of the first accepted FADT (section
    /// 5.2.9).
    ///
    /// Fails, in this order, with `TableMissing` if no accepted FADT is listed, `InvalidFacsAddress` if that FADT has
    /// no address, `MapFailed` if 36 bytes aren't lent there, as `facs_length` does, and with `MapFailed` if as many
    /// bytes as the length has aren't lent.
    #[tactic(auto, using(crate::proofs::Agreed::facs_from_tables))]
    pub fn facs(&self) -> AcpiResult<AddressRange>
        requires { AllowsBelow self.now (by_accepted_fadt_ranges (accept_of self.now) facs_place_ranges) }
        ensures exact { result ≡ of_tables self.now (by_accepted_fadt (accept_of self.now) facs_place) }
        // It depends on what the lookup of the FADT depends on, and on the FACS that this leads to.
        ensures footprint { FootprintBelow self.now (by_accepted_fadt_ranges (accept_of self.now) facs_place_ranges)
            (by_accepted_fadt (accept_of self.now) facs_place)
            (λ expected. result ≡ expected) }
    {
        self.facs_place(&self.find_fadt()?)
    }

    /// Where the FACS lies that a FADT leads to.
    fn facs_place(&self, fadt: &FadtView<'_, H>) -> AcpiResult<AddressRange>
        requires { Allows (may_of self.now) (facs_place_ranges (memory_of self.now) (viewed fadt.now)) }
        ensures { result ≡ facs_place (memory_of self.now) (viewed fadt.now) }
    {
        facs_at(self.root.handler(), fadt.facs_address()?)
    }
}

impl<'h, H: Lender> AcpiTables<'h, H> {
    /// The members of the root table, in order: the address that each pointer gives, and the header
    /// (section 5.2.6) of the table there if that is valid under the signature that it has, or else the
    /// first error. There is exactly one item for each pointer.
    pub fn members(&self) -> TableMembers<'_, 'h, H>
        requires { AllowsBelow self.now header_ranges }
        ensures items { members_left H.memory result
            ≡ of_tables self.now members_of }
        // In the reader's words: their addresses are the pointers.
        ensures each { map (λ x. x.address) (members_left H.memory result) ≡ pointers_of self.now }
        ensures fits { length (members_left H.memory result) < 2 ^ 32 }
        // They depend on the root table and the members, each under its own signature.
        ensures footprint { FootprintBelow self.now header_ranges (λ n ps. Ok (members_of n ps))
            (λ expected. expected ≡ Ok (members_left H.memory result)) }
    {
        TableMembers::new(self.root.handler(), self.pointers())
    }

    /// The ranges of physical memory in which the tables lie (sections 5.2.6, 5.2.9 and 5.2.10): the root
    /// table, then each valid member in order, then, if a valid FADT is listed, the DSDT that the first
    /// FADT leads to if that is valid, and the FACS at that FADT's `facs_address` if 36 bytes are lent
    /// there that begin with `FACS` and give a length of at least 64, and that many bytes lie in one region. It gives
    /// at most three more ranges than there are pointers. The FADT, the DSDT and the FACS are looked at by
    /// this call, and each member when its range is asked for.
    ///
    /// A boot loader that reserves these reserves besides what is no table: the RSDP, the image of
    /// the boot graphic, and the mailbox by which processors are woken. A FACS is written by the
    /// firmware and by the system, so a copy of it is not a FACS.
    pub fn ranges(&self) -> TableRanges<'_, 'h, H>
        requires { AllowsBelow self.now place_ranges }
        ensures items { places_left H.memory result
            ≡ of_tables self.now (places_of (root_place self.now)) }
        ensures few { length (places_left H.memory result) ≤ length (pointers_of self.now) + 3 }
        ensures fits { length (places_left H.memory result) < 2 ^ 32 }
        // They depend on the root table, the members, each under its own signature, and what the
        // FADT leads to.
        ensures footprint { FootprintBelow self.now place_ranges
            (λ n ps. Ok (places_of (root_place self.now) n ps))
            (λ expected. expected ≡ Ok (places_left H.memory result)) }
    {
        let root = AddressRange {
            address: self.root_address(),
            length: self.root_length() as u64,
        };
        let (dsdt, facs) = self.dsdt_and_facs();
        TableRanges::new(self.root.handler(), root, self.pointers(), dsdt, facs)
    }

    /// Where the DSDT and the FACS lie that the first valid FADT leads to.
    fn dsdt_and_facs(&self) -> (Option<AddressRange>, Option<AddressRange>)
        requires { AllowsBelow self.now dsdt_and_facs_ranges }
        ensures dsdt { result.0
            ≡ result_ok (of_tables self.now (by_first_fadt dsdt_place)) }
        ensures facs { result.1
            ≡ result_ok (of_tables self.now (by_first_fadt facs_place)) }
    {
        match self.find_fadt() {
            Ok(fadt) => (self.dsdt_place(&fadt).ok(), self.facs_place(&fadt).ok()),
            Err(_) => (None, None),
        }
    }

    /// Where the DSDT lies that a FADT leads to, if it is valid.
    #[tactic(auto, unfolding(crate::specs::Places::dsdt_place))]
    fn dsdt_place(&self, fadt: &FadtView<'_, H>) -> AcpiResult<AddressRange>
        requires { Allows (may_of self.now) (dsdt_place_ranges (memory_of self.now) (viewed fadt.now)) }
        ensures { result ≡ dsdt_place (memory_of self.now) (viewed fadt.now) }
    {
        let address = fadt.dsdt_address()?;
        let dsdt = map_sdt(self.root.handler(), address, Signature::DSDT)?;
        Ok(AddressRange {
            address,
            length: dsdt.region_length() as u64,
        })
    }
}
