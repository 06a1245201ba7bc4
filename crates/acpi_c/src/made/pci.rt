//! Made by scripts/exports of include/zacpi.h, which has what each call does.
ghost use Rattle.acpi_c_devices.specs.Words.{ecam_below, ecam_ranges_below, pci_regions_below};
ghost use Rattle.acpi_c_lib.specs.Words.{Answers, AnswersList};

use acpi_c_devices::fixed::records::EcamRange;
use acpi_c_devices::pci::{ecam_address, ecam_ranges, pci_regions};
use acpi_c_devices::records::PciRegion;
use acpi_c_lib::answer::answer;
use acpi_c_lib::records::{Signature, Source};

/// Lists the regions of PCI configuration space of the MCFG: 16 bytes for each from byte 44 on; fewer at the end are
/// none.
#[unsafe(no_mangle)]
pub extern "C" fn zacpi_1_list_pci_regions(
    source: &Source<'_>,
    out: &mut [PciRegion],
    count: &mut usize,
    named: &mut Signature,
) -> u32
    ensures { AnswersList result out.old out.new count.old count.new named.old named.new
        (pci_regions_below source.now) }
{
    answer(pci_regions(source, out), count, named)
}

/// Lists the memory of each item of zacpi_list_pci_regions, with its base as bus 0's.
#[unsafe(no_mangle)]
pub extern "C" fn zacpi_1_list_ecam_ranges(
    source: &Source<'_>,
    out: &mut [EcamRange],
    count: &mut usize,
    named: &mut Signature,
) -> u32
    ensures { AnswersList result out.old out.new count.old count.new named.old named.new
        (ecam_ranges_below source.now) }
{
    answer(ecam_ranges(source, out), count, named)
}

/// Returns the address of a function's 4096 bytes of configuration space, by the first region of the MCFG that contains
/// the bus, with its base as bus 0's.
#[unsafe(no_mangle)]
pub extern "C" fn zacpi_1_pci_ecam_address(
    source: &Source<'_>,
    segment: u16,
    bus: u8,
    device: u8,
    function: u8,
    out: &mut u64,
    named: &mut Signature,
) -> u32
    ensures { Answers result out.old out.new named.old named.new (ecam_below source.now segment bus device function) }
{
    answer(
        ecam_address(source, segment, bus, device, function),
        out,
        named,
    )
}
