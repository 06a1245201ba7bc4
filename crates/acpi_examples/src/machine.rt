//! A caller that writes the processors of a guest's machine.
ghost use Rattle.std.specs.Prelude.{take, IfOk};
ghost use Rattle.acpi_bytes.specs.declared.signature.TheConstants.Signature.{MADT};
ghost use Rattle.acpi_table_writer.specs.Table.{IsValid};

use acpi_base::model::IoApic;
use acpi_writer::laws::tables_are_valid;
use acpi_writer::{MadtContents, MadtProcessor, TableIds, WriterError, write_madt};

/// The MADT of a machine with these processors and one I/O APIC, and how many bytes it has.
pub fn write_processors(
    out: &mut [u8],
    ids: &TableIds,
    processors: &[MadtProcessor],
) -> Result<usize, WriterError>
    ensures { IfOk result (λ n. IsValid MADT (take n out.new)) }
{
    let machine: MadtContents<'_> = MadtContents {
        local_apic_address: 0xfee00000,
        also_has_legacy_pics: false,
        processors,
        io_apics: &[IoApic {
            id: 0,
            address: 0xfec00000,
            global_system_interrupt_base: 0,
        }],
        interrupt_source_overrides: &[],
        nmi_sources: &[],
        local_apic_nmi_lines: &[],
        wakeup_mailbox: None,
    };
    tables_are_valid();
    write_madt(out, ids, &machine)
}
