//! Made by scripts/readings: records, as their definitions in specs/ read them from bytes.
ghost use Rattle.std.proofs.Common.{lit≤};
ghost use Rattle.acpi.specs.Types.{GTDT};
ghost use Rattle.acpi_arm.specs.Gtdt.{gtdt_at};

use super::{ExtendedField, Gtdt, SdtHeader, arm_timer_at};
use acpi_base::bytes::{field_in, u32_in};
use acpi_base::{PhysicalRecord, SdtTable, Signature};

impl PhysicalRecord for Gtdt {
    const MIN_LENGTH: usize = 96;

    ghost MIN_LENGTH = { 96 };

    ghost reading = { gtdt_at };

    #[tactic(auto, unfolding(crate::specs::Gtdt::gtdt_at))]
    fn read(bytes: &[u8]) -> Self {
        Gtdt {
            header: SdtHeader::read(bytes),
            control_base: field_in(bytes, 36, 8), // CntControlBase Physical Address
            secure_el1_timer: arm_timer_at(bytes, 48), // Secure EL1 Timer GSIV, Secure EL1 Timer Flags
            non_secure_el1_timer: arm_timer_at(bytes, 56), // Non-Secure EL1 Timer GSIV, Non-Secure EL1 Timer Flags
            virtual_el1_timer: arm_timer_at(bytes, 64), // Virtual EL1 Timer GSIV, Virtual EL1 Timer Flags
            el2_timer: arm_timer_at(bytes, 72), // EL2 Timer GSIV, EL2 Timer Flags
            read_base: field_in(bytes, 80, 8), // CntReadBase Physical Address
            platform_timer_count: u32_in(bytes, 88), // Platform Timer Count
            platform_timer_offset: u32_in(bytes, 92), // Platform Timer Offset
            el2_virtual: ExtendedField::read(bytes, 96), // Virtual EL2 Timer GSIV, Flags
        }
    }
}

impl SdtTable for Gtdt {
    const NAME: Signature = Signature::GTDT;

    ghost NAME = { GTDT };

    #[tactic(auto, unfolding(crate::specs::Gtdt::gtdt_at))]
    fn sdt_header(&self) -> &SdtHeader {
        &self.header
    }

    ghost least = { lit≤ tt };
}
