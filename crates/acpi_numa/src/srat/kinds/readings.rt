//! Made by scripts/readings: records, as their definitions in specs/ read them from bytes.
ghost use Rattle.std.specs.Prelude.{length, ◌≡◌, ◌≤◌};
ghost use Rattle.acpi_numa.specs.SratEntries.{generic_affinity_at, gic_its_affinity_at, gicc_affinity_at, local_apic_affinity_at, local_x2apic_affinity_at, memory_affinity_at};

use super::{
    GenericAffinity, GicItsAffinity, GiccAffinity, LocalApicAffinity, LocalX2ApicAffinity,
    MemoryAffinity, domain_since_2,
};
use acpi_base::bytes::{field_in, filled_in, u8_in, u32_in};

pub(crate) fn local_apic_affinity_at(revision: u8, bytes: &[u8]) -> LocalApicAffinity
    requires { 16 ≤ length bytes.now }
    ensures { result ≡ local_apic_affinity_at revision bytes.now }
{
    LocalApicAffinity {
        domain: domain_since_2(
            revision,
            field_in(bytes, 2, 1) as u32,
            field_in(bytes, 2, 1) as u32 + 256 * field_in(bytes, 9, 3) as u32,
        ),
        apic_id: u8_in(bytes, 3), // APIC ID
        flags: u32_in(bytes, 4), // Flags
        sapic_eid: u8_in(bytes, 8), // Local SAPIC EID
        clock_domain: u32_in(bytes, 12), // Clock Domain
    }
}

pub(crate) fn memory_affinity_at(revision: u8, bytes: &[u8]) -> MemoryAffinity
    requires { 40 ≤ length bytes.now }
    ensures { result ≡ memory_affinity_at revision bytes.now }
{
    MemoryAffinity {
        domain: domain_since_2(revision, field_in(bytes, 2, 1) as u32, u32_in(bytes, 2)), // Proximity Domain
        base: field_in(bytes, 8, 8), // Base Address Low, Base Address High
        length: field_in(bytes, 16, 8), // Length Low, Length High
        flags: u32_in(bytes, 28), // Flags
    }
}

pub(crate) fn local_x2apic_affinity_at(bytes: &[u8]) -> LocalX2ApicAffinity
    requires { 24 ≤ length bytes.now }
    ensures { result ≡ local_x2apic_affinity_at bytes.now }
{
    LocalX2ApicAffinity {
        domain: u32_in(bytes, 4), // Proximity Domain
        x2apic_id: u32_in(bytes, 8), // X2APIC ID
        flags: u32_in(bytes, 12), // Flags
        clock_domain: u32_in(bytes, 16), // Clock Domain
    }
}

pub(crate) fn gicc_affinity_at(bytes: &[u8]) -> GiccAffinity
    requires { 18 ≤ length bytes.now }
    ensures { result ≡ gicc_affinity_at bytes.now }
{
    GiccAffinity {
        domain: u32_in(bytes, 2), // Proximity Domain
        processor_uid: u32_in(bytes, 6), // ACPI Processor UID
        flags: u32_in(bytes, 10), // Flags
        clock_domain: u32_in(bytes, 14), // Clock Domain
    }
}

pub(crate) fn gic_its_affinity_at(bytes: &[u8]) -> GicItsAffinity
    requires { 12 ≤ length bytes.now }
    ensures { result ≡ gic_its_affinity_at bytes.now }
{
    GicItsAffinity {
        domain: u32_in(bytes, 2), // Proximity Domain
        its_id: u32_in(bytes, 8), // ITS ID
    }
}

pub(crate) fn generic_affinity_at(bytes: &[u8]) -> GenericAffinity
    requires { 32 ≤ length bytes.now }
    ensures { result ≡ generic_affinity_at bytes.now }
{
    GenericAffinity {
        handle_type: u8_in(bytes, 3), // Device Handle Type
        domain: u32_in(bytes, 4), // Proximity Domain
        device_handle: filled_in(bytes, 8), // Device Handle
        flags: u32_in(bytes, 24), // Flags
    }
}
