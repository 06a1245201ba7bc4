//! The root table (sections 5.2.7 and 5.2.8), and the tables that it leads to.
ghost use Rattle.std.specs.Prelude.{◌≡◌, ◌^◌, ◌<◌, length, Some, ◌≤◌, ◌∷◌, ◌++◌, ℕ, List, IfErr, IsErr, IfOk, Ok, Err};
ghost use Rattle.acpi_base.specs.FromStd.{result_ok};
ghost use Rattle.std.proofs.Props.{props};
ghost use Rattle.acpi_base.specs.Words.{IsLentOf, claimed_at, claimed_from, shown_by, IsOfMemory, start_of, bytes_of, handler_of, Gives, table_at};
ghost use Rattle.acpi.specs.Types.{TableMissing};
ghost use Rattle.acpi.specs.Root.{accepted_root_at};

mod opening;
mod places;

use crate::faults::TableFaults;
use crate::headers::SdtHeaderIterator;
use crate::platform::PlatformInfo;
use crate::pointers::Pointers;
use crate::policy::{Policy, Valid};
use crate::records::{AmlTable, stream_at};
use crate::root::RootKind;
use crate::ssdts::SsdtIterator;
use acpi_base::bytes::skip;
use acpi_base::sdt::SdtHeader;
use acpi_base::table::{ValidTable, accepted_at};
use acpi_base::{AcpiError, AcpiResult, AcpiTable, Lender, PhysicalMapping, Signature};
use acpi_fixed::fadt::{Fadt, FadtView};
use std::alloc::{Allocator, Global};

/// The tables that a root table leads to: an RSDT (section 5.2.7) or an XSDT (section 5.2.8). Its pointers
/// are physical addresses, and what they lead to are its members, in the order of the pointers. The root
/// table stays mapped until this is dropped.
///
/// A table is accepted if it passes all checks but those that the policy `P` leaves out. The default, `Valid`, leaves
/// out none.
#[derive(Drop)]
pub struct AcpiTables<'h, H: Lender, P: Policy = Valid> {
    policy: P,
    revision: u8,
    kind: RootKind,
    root: PhysicalMapping<'h, H, SdtHeader>,
    ghost valid: { result_ok (accepted_root_at (P.bits policy) (H.memory (handler_of root)) kind (start_of root))
        ≡ Some (bytes_of root) } by { Prim.hlevel props },
    ghost short: { length (bytes_of root) < 2 ^ 32 },
}

impl<'h, H: Lender, P: Policy> AcpiTables<'h, H, P> {
    ghost use Rattle.acpi_base.specs.Words.{plain_kind};
    ghost use Rattle.acpi.specs.Types.{SSDT};
    ghost use Rattle.acpi.specs.Footprint.{AllowsBelow, FootprintBelow, accepted_dsdt_ranges, lookup_ranges};
    ghost use Rattle.acpi.specs.Lists.{accepted_dsdt, fadt_kind, faults_of, streams_by};
    ghost use Rattle.acpi.specs.Members.{kind_ranges};
    ghost use Rattle.acpi.specs.Lookup.{IsFirstValid, NoneValid, lookup};
    ghost use Rattle.acpi.specs.Pointers.{pointers_left};
    ghost use Rattle.acpi.specs.Tables.{accept_of, accepted_by, lender_of, memory_of, of_tables, pointers_of, revision_of};
    ghost use Rattle.acpi.specs.Walks.{faults_left, ssdts_left};

    /// The revision that the tables were opened with: that of the RSDP (section 5.2.5.3), or the one that
    /// `from_rsdt` was passed.
    pub fn revision(&self) -> u8
        ensures { result ≡ revision_of self.now }
    {
        self.revision
    }

    /// The pointers of the root table, in order.
    fn pointers(&self) -> Pointers<'_>
        ensures { pointers_left result ≡ pointers_of self.now }
    {
        Pointers::new(self.kind.width(), skip(self.root.bytes(), 36))
    }

    /// The bytes of the first member that is accepted for `T`.
    fn first_valid<T: AcpiTable>(&self) -> AcpiResult<ValidTable<'h, H>>
        requires { AllowsBelow self.now (λ m. lookup_ranges m (accepted_by self.now T.kind)) }
        ensures handler { IfOk result (λ v. claimed_from v.claim ≡ lender_of self.now) }
        ensures lent { IfOk result (λ v. IsLentOf (memory_of self.now) v.claim) }
        ensures least { IfOk result (λ v. T.MIN_LENGTH ≤ length (shown_by v.claim)) }
        ensures found { Gives (λ v. (claimed_at v.claim, shown_by v.claim)) result
            (of_tables self.now (λ m. lookup m (accepted_by self.now T.kind))) }
    {
        for address in self.pointers() {
            if let Ok(found) = accepted_at::<H, T>(
                self.root.handler(),
                address,
                self.policy.bits(),
            ) {
                return Ok(found);
            }
        }
        Err(AcpiError::TableMissing(T::SIGNATURE))
    }

    /// The first member of the root table that is accepted for `T` (sections 5.2.7 and 5.2.8): its address
    /// is the mapping's `physical_start`, and its bytes are the mapping's.
    ///
    /// Fails with `TableMissing`, with `T::SIGNATURE`, if no member is accepted for `T`. A member that isn't mapped, or
    /// fails another check, is skipped.
    #[inline(always)]
    pub fn find_table<T: AcpiTable>(&self) -> AcpiResult<PhysicalMapping<'h, H, T>>
        requires { AllowsBelow self.now (λ m. lookup_ranges m (accepted_by self.now T.kind)) }
        ensures handler { IfOk result (λ m. handler_of m ≡ lender_of self.now) }
        // However many bytes were lent, all of them are the memory's.
        ensures lent { IfOk result (λ m. IsOfMemory (memory_of self.now) m) }
        ensures exact { Gives (λ m. (start_of m, bytes_of m)) result
            (of_tables self.now (λ m. lookup m (accepted_by self.now T.kind))) }
        // Of tables that were opened without a policy: the first that is valid for the type. Then the clauses below
        // have the plain kind too, since by 0 it is as it was (`AcceptsNothing`).
        ensures strict { accept_of self.now ≡ 0
            → Gives (λ m. (start_of m, bytes_of m)) result (of_tables self.now (λ m. lookup m T.kind)) }
        // In the reader's words: the table found is accepted, and none listed before it is.
        ensures first { IfOk result (λ m.
            IsFirstValid (memory_of self.now) (accepted_by self.now T.kind) (pointers_of self.now) (start_of m) (bytes_of m)) }
        // A member that isn't accepted, put anywhere into the list, changes nothing.
        ensures skips { (before after : List ℕ) (p : ℕ) → pointers_of self.now ≡ before ++ after
            → IsErr (table_at (memory_of self.now) (accepted_by self.now T.kind) p)
            → Gives (λ m. (start_of m, bytes_of m)) result
            (lookup (memory_of self.now) (accepted_by self.now T.kind) (before ++ p ∷ after)) }
        ensures missing { IfErr result (λ e. (e ≡ TableMissing T.SIGNATURE)
            × NoneValid (memory_of self.now) (accepted_by self.now T.kind) (pointers_of self.now)) }
        ensures absent { NoneValid (memory_of self.now) (accepted_by self.now T.kind) (pointers_of self.now)
            → result ≡ Err (TableMissing T.SIGNATURE) }
        // It depends on the root table, and of the members up to the one found on the header and,
        // if this has the names and the least length, on the table.
        ensures footprint { FootprintBelow self.now (λ m. lookup_ranges m (accepted_by self.now T.kind)) (λ n. lookup n (accepted_by self.now T.kind))
            (Gives (λ m. (start_of m, bytes_of m)) result) }
    {
        match self.first_valid::<T>() {
            Ok(found) => Ok(found.mapping()),
            Err(error) => Err(error),
        }
    }

    /// The first member of the root table that is accepted as a FADT (section 5.2.9), as `find_table` finds it: a
    /// field of it is read when it is requested.
    ///
    /// Fails as `find_table` does.
    #[tactic(auto, using(crate::proofs::Agreed::fadt_from_tables))]
    pub fn find_fadt(&self) -> AcpiResult<FadtView<'h, H>>
        requires { AllowsBelow self.now (λ m. lookup_ranges m (accepted_by self.now fadt_kind)) }
        ensures handler { IfOk result (λ v. handler_of v.mapping ≡ lender_of self.now) }
        // However many bytes were lent, all of them are the memory's.
        ensures lent { IfOk result (λ v. IsOfMemory (memory_of self.now) v.mapping) }
        ensures exact { Gives (λ v. (start_of v.mapping, bytes_of v.mapping)) result
            (of_tables self.now (λ m. lookup m (accepted_by self.now fadt_kind))) }
        // It depends on what that lookup depends on.
        ensures footprint { FootprintBelow self.now (λ m. lookup_ranges m (accepted_by self.now fadt_kind))
            (λ n. lookup n (accepted_by self.now fadt_kind))
            (Gives (λ v. (start_of v.mapping, bytes_of v.mapping)) result) }
    {
        Ok(FadtView::new(self.first_valid::<Fadt>()?))
    }

    /// The AML of all members that are accepted as SSDTs, in order (section 5.2.11.2), at most
    /// one for each pointer.
    pub fn ssdts(&self) -> SsdtIterator<'_, 'h, H>
        requires { AllowsBelow self.now (λ m. kind_ranges m (accepted_by self.now (plain_kind SSDT))) }
        ensures items { ssdts_left H.memory result
            ≡ of_tables self.now (λ m. streams_by m (accepted_by self.now (plain_kind SSDT))) }
        ensures few { length (ssdts_left H.memory result) ≤ length (pointers_of self.now) }
        ensures fits { length (ssdts_left H.memory result) < 2 ^ 32 }
        // They depend on the root table and the members, each as an SSDT.
        ensures footprint { FootprintBelow self.now (λ m. kind_ranges m (accepted_by self.now (plain_kind SSDT)))
            (λ n ps. Ok (streams_by n (accepted_by self.now (plain_kind SSDT)) ps))
            (λ expected. expected ≡ Ok (ssdts_left H.memory result)) }
    {
        SsdtIterator::new(self.root.handler(), self.pointers(), self.policy.bits())
    }

    /// The AML of the DSDT (section 5.2.11.1): that of the table at the address in the first accepted FADT
    /// (section 5.2.9).
    ///
    /// Fails, in this order, with `TableMissing` if no accepted FADT is listed, `InvalidDsdtAddress` if that FADT
    /// has no address of a DSDT, and with the error of the table there: `MapFailed`, `SdtInvalidSignature` and so
    /// on, with the DSDT's signature.
    #[tactic(auto, using(crate::proofs::Agreed::dsdt_from_tables))]
    pub fn dsdt(&self) -> AcpiResult<AmlTable>
        requires { AllowsBelow self.now (accepted_dsdt_ranges (accept_of self.now)) }
        ensures exact { result ≡ of_tables self.now (accepted_dsdt (accept_of self.now)) }
        // It depends on what the lookup of the FADT depends on, and on the DSDT.
        ensures footprint { FootprintBelow self.now (accepted_dsdt_ranges (accept_of self.now))
            (accepted_dsdt (accept_of self.now))
            (λ expected. result ≡ expected) }
    {
        let fadt = self.find_fadt()?;
        let accept = self.policy.bits();
        stream_at(
            self.root.handler(),
            Signature::DSDT,
            fadt.dsdt_address()?,
            accept,
        )
    }

    /// Why a lookup of `T` skipped members: the address and the error of each member before the first one that is
    /// accepted for `T`, or of all members if none is, in order. A member with another signature
    /// (`SdtInvalidSignature`) is left out. There is at most one for each pointer.
    pub fn faults<T: AcpiTable>(&self) -> TableFaults<'_, 'h, H, T>
        requires { AllowsBelow self.now (λ m. lookup_ranges m (accepted_by self.now T.kind)) }
        ensures items { faults_left H.memory T.kind result
            ≡ of_tables self.now (λ m. faults_of m (accepted_by self.now T.kind)) }
        ensures few { length (faults_left H.memory T.kind result) ≤ length (pointers_of self.now) }
        ensures fits { length (faults_left H.memory T.kind result) < 2 ^ 32 }
        // They depend on the bytes that the lookup depends on.
        ensures footprint { FootprintBelow self.now (λ m. lookup_ranges m (accepted_by self.now T.kind)) (λ n ps. Ok (faults_of n (accepted_by self.now T.kind) ps))
            (λ expected. expected ≡ Ok (faults_left H.memory T.kind result)) }
    {
        TableFaults::new(self.root.handler(), self.pointers(), self.policy.bits())
    }
}

impl<'h, H: Lender> AcpiTables<'h, H> {
    ghost use Rattle.acpi.specs.Footprint.{AllowsBelow, FootprintBelow, header_ranges, platform_ranges};
    ghost use Rattle.acpi.specs.Lists.{valid_headers};
    ghost use Rattle.acpi.specs.PlatformAnswer.{GivesPlatform, PlatformFootprint, PlatformRelocation};
    ghost use Rattle.acpi.specs.Pointers.{pointers_left};
    ghost use Rattle.acpi.specs.Relocation.{Relocation};
    ghost use Rattle.acpi.specs.Tables.{of_tables, pointers_of};
    ghost use Rattle.acpi.specs.Walks.{headers_left};

    /// The headers (section 5.2.6) of all members that are valid under the signatures that they have, in
    /// order, at most one for each pointer.
    pub fn headers(&self) -> SdtHeaderIterator<'_, 'h, H>
        requires { AllowsBelow self.now header_ranges }
        ensures items { headers_left H.memory result
            ≡ of_tables self.now valid_headers }
        ensures few { length (headers_left H.memory result) ≤ length (pointers_of self.now) }
        ensures fits { length (headers_left H.memory result) < 2 ^ 32 }
        // They depend on the root table and the members, each under its own signature.
        ensures footprint { FootprintBelow self.now header_ranges (λ n ps. Ok (valid_headers n ps))
            (λ expected. expected ≡ Ok (headers_left H.memory result)) }
        // They are the same wherever the valid tables lie.
        ensures relocation { Relocation self.now (λ n ps. Ok (valid_headers n ps))
            (λ expected. expected ≡ Ok (headers_left H.memory result)) }
    {
        SdtHeaderIterator::new(self.root.handler(), self.pointers())
    }

    /// The platform that the first valid FADT (section 5.2.9) and the first valid MADT (section 5.2.12)
    /// describe, in memory of the global allocator: `PlatformInfo::new` of these tables.
    ///
    /// Fails as `PlatformInfo::new` does.
    pub fn platform_info(&self, alloc: Global) -> AcpiResult<PlatformInfo<Global>>
        requires { AllowsBelow self.now platform_ranges }
        ensures exact { GivesPlatform self.now result }
        ensures footprint { PlatformFootprint self.now result }
        ensures relocation { PlatformRelocation self.now result }
    {
        PlatformInfo::new(alloc, self)
    }

    /// The platform that the first valid FADT (section 5.2.9) and the first valid MADT (section 5.2.12)
    /// describe, in memory of an allocator: `PlatformInfo::new_in` of these tables.
    ///
    /// Fails as `PlatformInfo::new_in` does.
    pub fn platform_info_in<A: Allocator + Clone>(
        &self,
        allocator: A,
    ) -> AcpiResult<PlatformInfo<A>>
        requires { AllowsBelow self.now platform_ranges }
        ensures exact { GivesPlatform self.now result }
        ensures footprint { PlatformFootprint self.now result }
        ensures relocation { PlatformRelocation self.now result }
    {
        PlatformInfo::new_in(self, allocator)
    }
}
