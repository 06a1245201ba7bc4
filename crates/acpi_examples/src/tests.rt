//! What the examples find in a machine's memory and write, byte by byte.

use crate::caller::graphic_address;
use crate::machine::write_processors;
use crate::processors::print_processors;
use crate::reserved::{MemoryMap, reserve_tables};
use crate::resolved::isa_pin;
use crate::table_type::find_both;
use crate::writer::{GuestError, tables_of_guest};
use acpi::handler::MappedRegion;
use acpi::madt::Madt;
use acpi::platform::interrupt::InterruptModel;
use acpi::sdt::Signature;
use acpi::{AcpiError, AcpiResult, AcpiTables};
use acpi_image::{MemoryImage, PlacedTable, WriteError};
use acpi_writer::{MadtProcessor, TableIds};
use std::alloc::Global;
use std::fmt::Debug;
use std::process::Abort;
use std::test::Fail;

/// The first `count` bytes, or all if there are fewer.
fn front(memory: &[u8], count: usize) -> &[u8] {
    &memory[..count.min(memory.len())]
}

/// Checks what was found against what is wanted.
fn check<T: Copy + Debug + PartialEq>(rt: &impl Abort, name: &str, found: T, wanted: T) {
    assert!(rt;
        found == wanted,
        "{name}: {found:?}, but {wanted:?} is wanted"
    );
}

/// An RSDP at 0x500, and memory from 0x1000 to 0x11A0: an RSDT that lists a boot graphic of an image at 0xC00000, a
/// WSMT, a FADT of zeros and a MADT.
#[rattlefmt::skip]
static FILE: [u8; 484] = [
    0, 5, 0, 0, 0, 0, 0, 0, 36, 0, 0, 0, 0, 0, 0, 0, // a record from 0x500 on, of 36 bytes
    b'R', b'S', b'D', b' ', b'P', b'T', b'R', b' ', 0x11, // Signature, Checksum
    b' ', b' ', b' ', b' ', b' ', b' ', 0, // OEMID, Revision
    0, 0x10, 0, 0, 0, 0, 0, 0, 0, 0, 0, 0, 0, 0, 0, 0, 0, 0, 0, 0, // RsdtAddress, up to 36
    0, 0x10, 0, 0, 0, 0, 0, 0, 0xA0, 1, 0, 0, 0, 0, 0, 0, // a record from 0x1000 on, of 416 bytes
    b'R', b'S', b'D', b'T', 52, 0, 0, 0, 0, 0x8E, // 0x1000: Signature, Length, Revision, Checksum
    0, 0, 0, 0, 0, 0, 0, 0, 0, 0, 0, 0, 0, 0, 0, 0, 0, 0, 0, 0, 0, 0, 0, 0, 0, 0, // up to 36
    0x40, 0x10, 0, 0, 0x80, 0x10, 0, 0, 0xC0, 0x10, 0, 0, 0x40, 0x11, 0, 0, // Entry
    0, 0, 0, 0, 0, 0, 0, 0, 0, 0, 0, 0, // up to 0x1040
    b'B', b'G', b'R', b'T', 56, 0, 0, 0, 0, 0xD3, // 0x1040: Signature, Length, Revision, Checksum
    0, 0, 0, 0, 0, 0, 0, 0, 0, 0, 0, 0, 0, 0, 0, 0, 0, 0, 0, 0, 0, 0, 0, 0, 0, 0, // up to 36
    1, 0, 5, 0, 0, 0, 0xC0, 0, 0, 0, 0, 0, 0, 0, 0, 0, 0, 0, 0, 0, // Version, Status, Image Type, Image Address
    0, 0, 0, 0, 0, 0, 0, 0, // up to 0x1080
    b'W', b'S', b'M', b'T', 40, 0, 0, 0, 0, 0x86, // 0x1080: Signature, Length, Revision, Checksum
    0, 0, 0, 0, 0, 0, 0, 0, 0, 0, 0, 0, 0, 0, 0, 0, 0, 0, 0, 0, 0, 0, 0, 0, 0, 0, // up to 36
    7, 0, 0, 0, // Protection Flags
    0, 0, 0, 0, 0, 0, 0, 0, 0, 0, 0, 0, 0, 0, 0, 0, 0, 0, 0, 0, 0, 0, 0, 0, // up to 0x10C0
    b'F', b'A', b'C', b'P', 116, 0, 0, 0, 0, 0x72, // 0x10C0: Signature, Length, FADT Major Version, Checksum
    0, 0, 0, 0, 0, 0, 0, 0, 0, 0, 0, 0, 0, 0, 0, 0, 0, 0, 0, 0, 0, 0, 0, 0, 0, 0, // up to 36
    0, 0, 0, 0, 0, 0, 0, 0, 0, 0, 0, 0, 0, 0, 0, 0, 0, 0, 0, 0, 0, 0, 0, 0, 0, 0, 0, 0, 0, 0, 0, 0, // up to 68
    0, 0, 0, 0, 0, 0, 0, 0, 0, 0, 0, 0, 0, 0, 0, 0, 0, 0, 0, 0, 0, 0, 0, 0, 0, 0, 0, 0, 0, 0, 0, 0, // up to 100
    0, 0, 0, 0, 0, 0, 0, 0, 0, 0, 0, 0, 0, 0, 0, 0, 0, 0, 0, 0, 0, 0, 0, 0, 0, 0, 0, 0, // up to 0x1140
    b'A', b'P', b'I', b'C', 96, 0, 0, 0, 0, 0x15, // 0x1140: Signature, Length, Revision, Checksum
    0, 0, 0, 0, 0, 0, 0, 0, 0, 0, 0, 0, 0, 0, 0, 0, 0, 0, 0, 0, 0, 0, 0, 0, 0, 0, // up to 36
    0, 0, 0, 0, 0, 0, 0, 0, // Local Interrupt Controller Address, Flags
    0, 8, 1, 0, 1, 0, 0, 0, 0, 8, 2, 4, 1, 0, 0, 0, // Processor Local APIC: uid 1, id 0, Enabled; uid 2, id 4, Enabled
    0, 8, 3, 6, 0, 0, 0, 0, // uid 3, id 6
    1, 12, 7, 0, 0, 0, 0xC0, 0xFE, 2, 0, 0, 0, // I/O APIC: id 7 at 0xFEC00000, whose first pin is interrupt 2
    16, 16, 0, 0, 0, 0, 0, 0, 0, 0x50, 0, 0, 0, 0, 0, 0, // Multiprocessor Wakeup: a mailbox at 0x5000
];

/// The memory from 0x1000 on.
fn memory() -> &'static [u8] {
    &FILE[68..]
}

/// The boot graphic.
fn graphic() -> &'static [u8] {
    &FILE[132..188]
}

/// How many bytes a kernel maps from 0x1000 on, the address at which it looks for the root table, and its result.
#[rattlefmt::skip]
static KERNELS: [(usize, u64, AcpiResult<(u64, u32)>); 3] = [
    (416, 0x1000, Ok((0xC0_0000, 7))),
    (416, 0x1004, Err(AcpiError::SdtInvalidSignature(Signature::RSDT))),
    (128, 0x1000, Err(AcpiError::TableMissing(Signature::WSMT))),
];

#[test]
fn a_kernel_finds_a_table_of_its_own(rt: HostRuntime) -> Result<(), Fail> {
    for (count, root, wanted) in &KERNELS {
        let region = MappedRegion::new(0x1000, front(memory(), *count))?;
        check(&rt, "kernel", find_both(&region, *root), *wanted);
    }
    Ok(())
}

/// How many ranges were reserved, the bytes in them, and where the last one begins.
#[derive(Drop)]
struct Reserved((u32, u64, u64));

impl MemoryMap for Reserved {
    fn reserve(&mut self, address: u64, length: u64) {
        let (ranges, bytes, _) = self.0;
        self.0 = (ranges.wrapping_add(1), bytes.wrapping_add(length), address);
    }
}

#[test]
fn the_memory_of_the_tables_is_reserved(rt: HostRuntime) -> Result<(), Fail> {
    let region = MappedRegion::new(0x1000, memory())?;
    let tables = AcpiTables::from_rsdt(&region, 0, 0x1000)?;
    let mut map = Reserved((0, 0, 0));
    reserve_tables(&tables, &mut map);
    // They have 52, 56, 40, 116 and 96 bytes.
    check(&rt, "reserved", map.0, (5, 360, 0x1140));
    Ok(())
}

/// Addresses of RSDPs, the results that are found from them, and what is printed of their processors.
#[rattlefmt::skip]
static FOUND: [(u64, AcpiResult<u64>, &str); 2] = [
    (0x500, Ok(0xC0_0000), "processor 1 0 running\nprocessor 2 4 waiting\nprocessor 3 6 disabled\n"),
    (0x501, Err(AcpiError::MapFailed), "platform: MapFailed\n"),
];

#[test]
fn the_graphic_and_the_processors_are_found_from_an_rsdp(rt: HostRuntime) -> Result<(), Fail> {
    for (rsdp, address, printed) in &FOUND {
        let image = MemoryImage::from_bytes(rt.alloc(), &FILE)?;
        check(&rt, "graphic", graphic_address(&image, *rsdp), *address);
        let mut out = Vec::new(rt.alloc());
        print_processors(rt.alloc(), &FILE, *rsdp, &mut out)?;
        check(&rt, "processors", &out[..], printed.as_bytes());
    }
    Ok(())
}

/// ISA interrupts, and the id of the I/O APIC that each comes to and its pin there. No entry overrides
/// one, so each is the interrupt of its own number.
static PINS: [(u8, Option<(u8, u32)>); 3] = [(2, Some((7, 0))), (9, Some((7, 7))), (1, None)];

/// The I/O APIC and the pin that an ISA interrupt comes to in a model.
fn pin_in(model: &InterruptModel<Global>, irq: u8) -> Option<(u8, u32)> {
    match model {
        InterruptModel::Apic(apic) => isa_pin(apic, irq),
        InterruptModel::Unknown => None,
    }
}

#[test]
fn an_isa_interrupt_comes_to_a_pin(rt: HostRuntime) -> Result<(), Fail> {
    let region = MappedRegion::new(0x1000, memory())?;
    let tables = AcpiTables::from_rsdt(&region, 0, 0x1000)?;
    let madt = tables.find_table::<Madt>()?;
    let (model, _) = madt.parse_interrupt_model_in(rt.alloc())?;
    for (irq, wanted) in &PINS {
        check(&rt, "pin", pin_in(&model, *irq), *wanted);
    }
    Ok(())
}

/// How many tables are placed, the address of the second, and how many are found. The first is from
/// 0x2000 to 0x2038.
#[rattlefmt::skip]
static GUESTS: [(usize, u64, Result<usize, GuestError>); 3] = [
    (2, 0x3000, Ok(2)),
    (0, 0x3000, Ok(0)),
    (2, 0x2037, Err(GuestError::Unwritten(WriteError::Overlap))),
];

#[test]
fn a_guest_finds_the_tables_that_were_placed(rt: HostRuntime) {
    for (count, second, wanted) in &GUESTS {
        let mut tables = [PlacedTable {
            address: 0x2000,
            bytes: graphic(),
        }; 2];
        tables[1].address = *second;
        let found = tables_of_guest(rt.alloc(), &tables[..(*count).min(2)]);
        check(&rt, "guest", found, *wanted);
    }
}

const IDS: TableIds = TableIds {
    oem_id: *b"GUEST ",
    oem_table_id: *b"MACHINE ",
    oem_revision: 0x01020304,
    creator_id: *b"ZUGZ",
    creator_revision: 0x05060708,
};

/// One that will be online, by both flags, and one whose ids are too large for a Processor Local APIC.
#[rattlefmt::skip]
const PROCESSORS: [MadtProcessor; 2] = [
    MadtProcessor {
        processor_uid: 254, local_apic_id: 254, is_enabled: true, is_online_capable: true, is_x2apic: false,
    },
    MadtProcessor {
        processor_uid: 255, local_apic_id: 0x1234, is_enabled: false, is_online_capable: true, is_x2apic: false,
    },
];

/// Their MADT, with one I/O APIC.
#[rattlefmt::skip]
const MADT_BYTES: [u8; 80] = [
    b'A', b'P', b'I', b'C', 80, 0, 0, 0, 5, 0x4d, // Signature, Length, Revision, Checksum
    b'G', b'U', b'E', b'S', b'T', b' ', // OEMID
    b'M', b'A', b'C', b'H', b'I', b'N', b'E', b' ', // OEM Table ID
    4, 3, 2, 1, b'Z', b'U', b'G', b'Z', 8, 7, 6, 5, // OEM Revision, Creator ID, Creator Revision
    0, 0, 0xe0, 0xfe, 0, 0, 0, 0, // Local Interrupt Controller Address, Flags
    0, 8, 254, 254, 3, 0, 0, 0, // Processor Local APIC: Enabled, Online Capable
    9, 16, 0, 0, 0x34, 0x12, 0, 0, 2, 0, 0, 0, 255, 0, 0, 0, // Processor Local x2APIC: Online Capable
    1, 12, 0, 0, 0, 0, 0xc0, 0xfe, 0, 0, 0, 0, // I/O APIC
];

#[test]
fn the_processors_of_a_machine_are_written(rt: HostRuntime) {
    let mut out = [7; 288];
    let found = write_processors(&mut out, &IDS, &PROCESSORS);
    check(&rt, "MADT", found, Ok(80));
    check(&rt, "MADT", out.get(..80), Some(&MADT_BYTES[..]));
    check(&rt, "the rest", out.get(80..), Some(&[7; 208][..]));
}
