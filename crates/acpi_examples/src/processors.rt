//! A program's body that prints the processors of a machine, by the tables in an image of its memory.

use acpi::platform::{Processor, ProcessorState};
use acpi::{AcpiHandler, AcpiResult, AcpiTables, PlatformInfo};
use acpi_image_reader::MemoryImage;
use std::alloc::Global;
use std::io;
use std::io::Write;

/// Prints a line for each processor of the tables below the RSDP at an address, the boot processor first; or
/// one line with the error of the image or of the tables.
///
/// Fails with the error of a write.
pub fn print_processors<W: Write>(
    alloc: Global,
    image: &[u8],
    rsdp: u64,
    out: &mut W,
) -> io::Result<()> {
    match MemoryImage::from_bytes(alloc, image) {
        Ok(memory) => print_platform(&platform_of(alloc, &memory, rsdp), out),
        Err(error) => writeln!(out, "image: {error}"),
    }
}

/// The platform that the tables below an RSDP describe.
fn platform_of<H: AcpiHandler>(
    alloc: Global,
    memory: &H,
    rsdp: u64,
) -> AcpiResult<PlatformInfo<Global>> {
    let tables = AcpiTables::from_rsdp(memory, rsdp)?;
    tables.platform_info(alloc)
}

/// Prints the processors of a platform, if the MADT lists any, or the error.
fn print_platform<W: Write>(
    found: &AcpiResult<PlatformInfo<Global>>,
    out: &mut W,
) -> io::Result<()> {
    match found {
        Ok(platform) => match &platform.processor_info {
            Some(processors) => {
                print_processor(&processors.boot_processor, out)?;
                for other in processors.application_processors.as_slice() {
                    print_processor(other, out)?;
                }
                Ok(())
            }
            None => Ok(()),
        },
        Err(error) => writeln!(out, "platform: {error}"),
    }
}

/// Prints `processor UID ID STATE`: the ACPI processor UID, the id of the local APIC, and the state.
fn print_processor<W: Write>(processor: &Processor, out: &mut W) -> io::Result<()> {
    let state = match processor.state {
        ProcessorState::Disabled => "disabled",
        ProcessorState::WaitingForSipi => "waiting",
        ProcessorState::Running => "running",
    };
    let (uid, id) = (processor.processor_uid, processor.local_apic_id);
    writeln!(out, "processor {uid} {id} {state}")
}
