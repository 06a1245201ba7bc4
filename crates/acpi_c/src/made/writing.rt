//! Made by scripts/exports of include/zacpi.h, which has what each call does.
ghost use Rattle.acpi.specs.Types.{DSDT, SSDT};
ghost use Rattle.acpi.specs.declared.root.RootKind.TheVariants.{Rsdt, Xsdt};
ghost use Rattle.acpi_c_devices.specs.Words.{facs_contents};
ghost use Rattle.acpi_c_lib.specs.Words.{AnswersPlain, signature_named};
ghost use Rattle.acpi_c_machine.specs.Words.{WritesTable, dsdt_said, facs_said, machine_said, size_said, table_said, tree_said, writer_refused};
ghost use Rattle.acpi_c_machine.specs.declared.machine.Contents.TheVariants.{Bgrt, Fadt, Gic, Gtdt, Hpet, Madt, Mcfg, Spcr, Srat};
ghost use Rattle.acpi_table_writer.specs.Words.{rhct_written, riscv_written, slit_written, table_written};
ghost use Rattle.acpi_writer.specs.Words.{aml_written, facs_written, root_written, rsdp_written};
ghost use Rattle.std.specs.Prelude.{length};

use acpi_c_devices::fixed::records::FixedHardware;
use acpi_c_devices::records::{BootGraphic, HpetInfo, PciRegion};
use acpi_c_devices::written_records::{FacsContents, SpcrContents, SratContents};
use acpi_c_interrupts::written_records::{GicContents, GtdtContents, MadtContents};
use acpi_c_lib::answer::answer_plain;
use acpi_c_lib::records::Signature;
use acpi_c_machine::machine::{
    Contents, dsdt_place, facs_place, tables_size, write_contents, write_hardware, write_tables,
    write_tables_without_rsdp,
};
use acpi_c_machine::writing::{
    write_dsdt, write_facs, write_rhct, write_riscv_madt, write_rsdp, write_rsdt, write_slit,
    write_ssdt, write_table, write_xsdt, written,
};
use acpi_c_machine::written_records::{
    AmlContents, Machine, RhctContents, RiscvContents, TableIds,
};

/// Writes an RSDP of revision 2 that points to an XSDT (section 5.2.5.3): 36 bytes.
#[unsafe(no_mangle)]
pub extern "C" fn zacpi_1_write_rsdp(
    ids: &TableIds,
    xsdt: u64,
    out: &mut [u8],
    count: &mut usize,
) -> u32
    ensures { WritesTable result out.old out.new count.old count.new
        (writer_refused (rsdp_written (length out.old) ids.now xsdt)) }
{
    written(write_rsdp(out, ids, xsdt), count)
}

/// Write an RSDT, and an XSDT, of these addresses, in order, also of 0 (sections 5.2.7 and 5.2.8).
#[unsafe(no_mangle)]
pub extern "C" fn zacpi_1_write_rsdt(
    ids: &TableIds,
    addresses: &[u32],
    out: &mut [u8],
    count: &mut usize,
) -> u32
    ensures { WritesTable result out.old out.new count.old count.new
        (writer_refused (root_written Rsdt (length out.old) ids.now addresses.now)) }
{
    written(write_rsdt(out, ids, addresses), count)
}

/// Write an RSDT, and an XSDT, of these addresses, in order, also of 0 (sections 5.2.7 and 5.2.8).
#[unsafe(no_mangle)]
pub extern "C" fn zacpi_1_write_xsdt(
    ids: &TableIds,
    addresses: &[u64],
    out: &mut [u8],
    count: &mut usize,
) -> u32
    ensures { WritesTable result out.old out.new count.old count.new
        (writer_refused (root_written Xsdt (length out.old) ids.now addresses.now)) }
{
    written(write_xsdt(out, ids, addresses), count)
}

/// Write a DSDT, and an SSDT, of these bytes of AML, whose integers have 32 bits with a revision of 1, 64 with 2
/// (section 5.2.11).
#[unsafe(no_mangle)]
pub extern "C" fn zacpi_1_write_dsdt(
    ids: &TableIds,
    revision: u8,
    aml: &[u8],
    out: &mut [u8],
    count: &mut usize,
) -> u32
    ensures { WritesTable result out.old out.new count.old count.new
        (writer_refused (aml_written (length out.old) DSDT revision ids.now aml.now)) }
{
    written(write_dsdt(out, ids, revision, aml), count)
}

/// Write a DSDT, and an SSDT, of these bytes of AML, whose integers have 32 bits with a revision of 1, 64 with 2
/// (section 5.2.11).
#[unsafe(no_mangle)]
pub extern "C" fn zacpi_1_write_ssdt(
    ids: &TableIds,
    revision: u8,
    aml: &[u8],
    out: &mut [u8],
    count: &mut usize,
) -> u32
    ensures { WritesTable result out.old out.new count.old count.new
        (writer_refused (aml_written (length out.old) SSDT revision ids.now aml.now)) }
{
    written(write_ssdt(out, ids, revision, aml), count)
}

/// Writes a table of any signature and revision: a header (section 5.2.6) and these bytes.
#[unsafe(no_mangle)]
pub extern "C" fn zacpi_1_write_table(
    ids: &TableIds,
    signature: Signature,
    revision: u8,
    body: &[u8],
    out: &mut [u8],
    count: &mut usize,
) -> u32
    ensures { WritesTable result out.old out.new count.old count.new
        (writer_refused (table_written (length out.old) (signature_named signature) revision ids.now body.now)) }
{
    written(write_table(out, ids, signature, revision, body), count)
}

/// Writes a MADT of revision 5 (section 5.2.12): its entries kind by kind in the order of the lists, the mailbox last.
#[unsafe(no_mangle)]
pub extern "C" fn zacpi_1_write_madt(
    ids: &TableIds,
    contents: &MadtContents<'_>,
    out: &mut [u8],
    count: &mut usize,
) -> u32
    ensures { WritesTable result out.old out.new count.old count.new
        (table_said (length out.old) ids.now (Madt contents.now)) }
{
    answer_plain(write_contents(out, ids, &Contents::Madt(*contents)), count)
}

/// Writes a MADT of revision 6 of an Arm machine (sections 5.2.12.14 to 5.2.12.18): the distributor, and the lists in
/// their order.
#[unsafe(no_mangle)]
pub extern "C" fn zacpi_1_write_gic_madt(
    ids: &TableIds,
    contents: &GicContents<'_>,
    out: &mut [u8],
    count: &mut usize,
) -> u32
    ensures { WritesTable result out.old out.new count.old count.new
        (table_said (length out.old) ids.now (Gic contents.now)) }
{
    answer_plain(write_contents(out, ids, &Contents::Gic(*contents)), count)
}

/// Writes a MADT of revision 7 of a RISC-V machine (ACPI 6.6, section 5.2.12): the lists in their order, a RINTC with
/// 36 bytes.
#[unsafe(no_mangle)]
pub extern "C" fn zacpi_1_write_riscv_madt(
    ids: &TableIds,
    contents: &RiscvContents<'_>,
    out: &mut [u8],
    count: &mut usize,
) -> u32
    ensures { WritesTable result out.old out.new count.old count.new
        (writer_refused (riscv_written (length out.old) ids.now contents.now)) }
{
    written(write_riscv_madt(out, ids, contents), count)
}

/// Writes an RHCT of revision 1 (ACPI 6.6): an ISA String Node, whose string is filled up with one or two zeros to an
/// even length, and for each hart a Hart Info Node of it.
#[unsafe(no_mangle)]
pub extern "C" fn zacpi_1_write_rhct(
    ids: &TableIds,
    contents: &RhctContents<'_>,
    out: &mut [u8],
    count: &mut usize,
) -> u32
    ensures { WritesTable result out.old out.new count.old count.new
        (writer_refused (rhct_written (length out.old) ids.now contents.now)) }
{
    written(write_rhct(out, ids, contents), count)
}

/// Writes an MCFG of these regions, in order (PCI Firmware Specification, section 4.1.2).
#[unsafe(no_mangle)]
pub extern "C" fn zacpi_1_write_mcfg(
    ids: &TableIds,
    regions: &[PciRegion],
    out: &mut [u8],
    count: &mut usize,
) -> u32
    ensures { WritesTable result out.old out.new count.old count.new
        (table_said (length out.old) ids.now (Mcfg regions.entry)) }
{
    answer_plain(write_contents(out, ids, &Contents::Mcfg(regions)), count)
}

/// Writes an HPET of revision 1 (IA-PC HPET Specification), with registers in memory of a Register Bit Width of 0.
#[unsafe(no_mangle)]
pub extern "C" fn zacpi_1_write_hpet(
    ids: &TableIds,
    info: &HpetInfo,
    out: &mut [u8],
    count: &mut usize,
) -> u32
    ensures { WritesTable result out.old out.new count.old count.new
        (table_said (length out.old) ids.now (Hpet info.now)) }
{
    answer_plain(write_contents(out, ids, &Contents::Hpet(*info)), count)
}

/// Writes a SLIT (section 5.2.17) of `localities` times `localities` distances, those from locality 0 first.
#[unsafe(no_mangle)]
pub extern "C" fn zacpi_1_write_slit(
    ids: &TableIds,
    localities: u64,
    distances: &[u8],
    out: &mut [u8],
    count: &mut usize,
) -> u32
    ensures { WritesTable result out.old out.new count.old count.new
        (writer_refused (slit_written (length out.old) ids.now localities distances.now)) }
{
    written(write_slit(out, ids, localities, distances), count)
}

/// Writes an SRAT of revision 3 (section 5.2.16): its entries kind by kind, all enabled, with a Clock Domain of 0.
#[unsafe(no_mangle)]
pub extern "C" fn zacpi_1_write_srat(
    ids: &TableIds,
    contents: &SratContents<'_>,
    out: &mut [u8],
    count: &mut usize,
) -> u32
    ensures { WritesTable result out.old out.new count.old count.new
        (table_said (length out.old) ids.now (Srat contents.now)) }
{
    answer_plain(write_contents(out, ids, &Contents::Srat(*contents)), count)
}

/// Writes a BGRT of revision 1, 56 bytes (section 5.2.22).
#[unsafe(no_mangle)]
pub extern "C" fn zacpi_1_write_bgrt(
    ids: &TableIds,
    graphic: &BootGraphic,
    out: &mut [u8],
    count: &mut usize,
) -> u32
    ensures { WritesTable result out.old out.new count.old count.new
        (table_said (length out.old) ids.now (Bgrt graphic.now)) }
{
    answer_plain(write_contents(out, ids, &Contents::Bgrt(*graphic)), count)
}

/// Writes an SPCR of revision 4, 90 bytes, with a Language of 0, the NamespaceString "." of a port with no object, and
/// in Configured Baud Rate the rate's code, or 0 if it has none.
#[unsafe(no_mangle)]
pub extern "C" fn zacpi_1_write_spcr(
    ids: &TableIds,
    contents: &SpcrContents,
    out: &mut [u8],
    count: &mut usize,
) -> u32
    ensures { WritesTable result out.old out.new count.old count.new
        (table_said (length out.old) ids.now (Spcr contents.now)) }
{
    answer_plain(write_contents(out, ids, &Contents::Spcr(*contents)), count)
}

/// Writes a GTDT of revision 3 (section 5.2.24): 104 bytes, 28 for each watchdog, 20 for each GT Block, and 40 for each
/// frame, in order, with a Platform Timer Offset of 104.
#[unsafe(no_mangle)]
pub extern "C" fn zacpi_1_write_gtdt(
    ids: &TableIds,
    contents: &GtdtContents<'_>,
    out: &mut [u8],
    count: &mut usize,
) -> u32
    ensures { WritesTable result out.old out.new count.old count.new
        (table_said (length out.old) ids.now (Gtdt contents.now)) }
{
    answer_plain(write_contents(out, ids, &Contents::Gtdt(*contents)), count)
}

/// Writes a FADT of version 6.4, 276 bytes (section 5.2.9).
#[unsafe(no_mangle)]
pub extern "C" fn zacpi_1_write_fadt(
    ids: &TableIds,
    hardware: &FixedHardware,
    out: &mut [u8],
    count: &mut usize,
) -> u32
    ensures { WritesTable result out.old out.new count.old count.new
        (table_said (length out.old) ids.now (Fadt hardware.now)) }
{
    answer_plain(write_hardware(out, ids, hardware), count)
}

/// Writes a FACS of version 2, 64 bytes, with a Global Lock of 0 (section 5.2.10).
#[unsafe(no_mangle)]
pub extern "C" fn zacpi_1_write_facs(
    contents: &FacsContents,
    out: &mut [u8],
    count: &mut usize,
) -> u32
    ensures { WritesTable result out.old out.new count.old count.new
        (writer_refused (facs_written (length out.old) (facs_contents contents.now))) }
{
    written(write_facs(out, contents), count)
}

/// Writes all tables of a machine, for memory from `address` on: the RSDP, after 48 bytes the XSDT, the DSDT, 128 bytes
/// with the FACS at their first multiple of 64, and the listed tables in order, each table at a multiple of 16 and
/// filled up with zeros to the next.
#[unsafe(no_mangle)]
pub extern "C" fn zacpi_1_write_tables(
    machine: &Machine<'_>,
    address: u64,
    out: &mut [u8],
    count: &mut usize,
) -> u32
    ensures { WritesTable result out.old out.new count.old count.new
        (machine_said (length out.old) address machine.now) }
{
    answer_plain(write_tables(out, address, machine), count)
}

/// Writes what zacpi_write_tables writes after the RSDP's 48 bytes, with the XSDT at `address`.
#[unsafe(no_mangle)]
pub extern "C" fn zacpi_1_write_tables_without_rsdp(
    machine: &Machine<'_>,
    address: u64,
    out: &mut [u8],
    count: &mut usize,
) -> u32
    ensures { WritesTable result out.old out.new count.old count.new (tree_said (length out.old) address machine.now) }
{
    answer_plain(write_tables_without_rsdp(out, address, machine), count)
}

/// Returns how many bytes zacpi_write_tables writes.
#[unsafe(no_mangle)]
pub extern "C" fn zacpi_1_tables_size(machine: &Machine<'_>, count: &mut usize) -> u32
    ensures { AnswersPlain result count.old count.new (size_said machine.now) }
{
    answer_plain(tables_size(machine), count)
}

/// Returns the address of the DSDT that zacpi_write_tables writes for this address and this number of listed tables.
#[unsafe(no_mangle)]
pub extern "C" fn zacpi_1_dsdt_address(address: u64, tables: usize, out: &mut u64) -> u32
    ensures { AnswersPlain result out.old out.new (dsdt_said address tables) }
{
    answer_plain(dsdt_place(address, tables), out)
}

/// Returns the address of the FACS that zacpi_write_tables writes for this address, this number of listed tables, and
/// the length of the first of `dsdts`, the DSDT, if there is one.
#[unsafe(no_mangle)]
pub extern "C" fn zacpi_1_facs_address(
    address: u64,
    tables: usize,
    dsdts: &[AmlContents<'_>],
    out: &mut u64,
) -> u32
    ensures { AnswersPlain result out.old out.new (facs_said address tables dsdts.now) }
{
    answer_plain(facs_place(address, tables, dsdts), out)
}
