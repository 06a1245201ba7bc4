//! The entries of a MADT that describe a RISC-V machine (section 5.2.12).
ghost use Rattle.std.specs.Prelude.{◌≡◌};
ghost use Rattle.acpi_base.specs.Words.{IsEntry, madt_layout};
ghost use Rattle.acpi_riscv.specs.Words.{entry_of, is_short, least_of};

mod readings;

use readings::{aplic_at, imsic_at, plic_at, rintc_at};

/// RISC-V Interrupt Controller (RINTC), type 0x18: a hart and its interrupt controller. An entry of 20 bytes has no
/// External Interrupt Controller ID and no IMSIC: these fields are 0.
#[repr(C)]
#[derive(Clone, Copy, Debug)]
pub struct Rintc {
    /// Hart ID: the hart's `mhartid`.
    pub hart_id: u64,
    /// IMSIC Base Address: the physical address of the hart's IMSIC in supervisor mode. 0: it has none.
    pub imsic_address: u64,
    /// Flags: bit 0 Enabled, bit 1 Online Capable.
    pub flags: u32,
    /// ACPI Processor UID: the `_UID` of the processor's object in the namespace.
    pub processor_uid: u32,
    /// External Interrupt Controller ID: with a PLIC its id in bits 24 to 31 and the context in bits 0 to 15, with an
    /// APLIC its id in bits 24 to 31 and the IDC in bits 0 to 15.
    pub external_interrupt_controller_id: u32,
    /// IMSIC Size: its size in bytes.
    pub imsic_size: u32,
    /// Version: 1.
    pub version: u8,
    /// 0: no byte of the record is padding.
    pub reserved: [u8; 7],
}

/// Incoming MSI Controller (IMSIC), type 0x19: what the IMSICs of all harts have in common.
#[repr(C)]
#[derive(Clone, Copy, Debug)]
pub struct Imsic {
    /// Flags: reserved.
    pub flags: u32,
    /// Number of Supervisor Mode Interrupt Identities.
    pub supervisor_identities: u16,
    /// Number of Guest Mode Interrupt Identities.
    pub guest_identities: u16,
    /// Guest Index Bits: how many bits of the address select a guest's file.
    pub guest_index_bits: u8,
    /// Hart Index Bits: how many select the hart.
    pub hart_index_bits: u8,
    /// Group Index Bits: how many select the group of harts.
    pub group_index_bits: u8,
    /// Group Index Shift: the lowest bit that selects the group.
    pub group_index_shift: u8,
    /// Version: 1.
    pub version: u8,
    /// 0: no byte of the record is padding.
    pub reserved: [u8; 3],
}

/// Advanced Platform Level Interrupt Controller (APLIC), type 0x1a.
#[repr(C)]
#[derive(Clone, Copy, Debug)]
pub struct Aplic {
    /// APLIC Address: the physical address of its registers.
    pub address: u64,
    /// Hardware ID: its eight bytes as a number, the first one the lowest.
    pub hardware_id: u64,
    /// Flags: reserved.
    pub flags: u32,
    /// Global System Interrupt Base: the global system interrupt of its first source.
    pub global_system_interrupt_base: u32,
    /// APLIC Size: how many bytes they have.
    pub size: u32,
    /// Number of IDCs: how many harts' interrupts it delivers itself. 0: it sends messages to the IMSICs.
    pub idc_count: u16,
    /// Total External Interrupt Sources Supported.
    pub source_count: u16,
    /// APLIC ID.
    pub id: u8,
    /// Version: 1.
    pub version: u8,
    /// 0: no byte of the record is padding.
    pub reserved: [u8; 6],
}

/// Platform Level Interrupt Controller (PLIC), type 0x1b.
#[repr(C)]
#[derive(Clone, Copy, Debug)]
pub struct Plic {
    /// PLIC Address: the physical address of its registers.
    pub address: u64,
    /// Hardware ID: its eight bytes as a number, the first one the lowest.
    pub hardware_id: u64,
    /// Flags: reserved.
    pub flags: u32,
    /// Global System Interrupt Vector Base: the global system interrupt of its first source.
    pub global_system_interrupt_base: u32,
    /// PLIC Size: how many bytes its registers have.
    pub size: u32,
    /// Total External Interrupt Sources Supported.
    pub source_count: u16,
    /// Max Priority.
    pub max_priority: u16,
    /// PLIC ID.
    pub id: u8,
    /// Version: 1.
    pub version: u8,
    /// 0: no byte of the record is padding.
    pub reserved: [u8; 6],
}

/// An entry of a MADT that describes a RISC-V machine, with its fields.
#[derive(Clone, Copy, Debug)]
pub enum RiscvEntry {
    /// RISC-V Interrupt Controller, type 0x18.
    Rintc(Rintc),
    /// Incoming MSI Controller, type 0x19.
    Imsic(Imsic),
    /// Advanced Platform Level Interrupt Controller, type 0x1a.
    Aplic(Aplic),
    /// Platform Level Interrupt Controller, type 0x1b.
    Plic(Plic),
}

impl RiscvEntry {
    /// Whether an entry is of one of these types and has fewer bytes than its layout: 20, 16, 36 and 36 for types 0x18
    /// to 0x1b.
    pub fn is_short(entry: &[u8]) -> bool
        requires { IsEntry madt_layout entry.now }
        ensures { result ≡ is_short entry.now }
    {
        entry.len() < least_of(entry[0])
    }

    /// The entry that bytes mean, or `None` if it is of another type, or is short.
    pub(crate) fn read(entry: &[u8]) -> Option<RiscvEntry>
        requires { IsEntry madt_layout entry.now }
        ensures { result ≡ entry_of entry.now }
    {
        if RiscvEntry::is_short(entry) {
            return None;
        }
        match entry[0] {
            0x18 => Some(RiscvEntry::Rintc(rintc_at(entry))),
            0x19 => Some(RiscvEntry::Imsic(imsic_at(entry))),
            0x1a => Some(RiscvEntry::Aplic(aplic_at(entry))),
            0x1b => Some(RiscvEntry::Plic(plic_at(entry))),
            _ => None,
        }
    }
}

/// How many bytes an entry of a type has at least, by its layout; of other types than these none are required.
fn least_of(kind: u8) -> usize
    ensures { result ≡ least_of kind }
{
    match kind {
        0x18 => 20,
        0x19 => 16,
        0x1a | 0x1b => 36,
        _ => 0,
    }
}
