//! Tables that are written for C, from its records, as `acpi_writer` writes them.
ghost use Rattle.std.specs.Prelude.{length, take};
ghost use Rattle.acpi_c_lib.specs.Words.{AnswersPlain, signature_named};
ghost use Rattle.acpi_c_devices.specs.Words.{facs_contents};
ghost use Rattle.acpi_c_machine.specs.Words.{Gives, Keeps, facs_written, table_written};
ghost use Rattle.acpi_c_machine.specs.Writing as writing;

use acpi_c_devices::writing::facs;
use acpi_c_devices::written_records::FacsContents;
use acpi_c_lib::answer::answer_plain;
use acpi_c_lib::records;
use acpi_c_lib::refusal::Refusal;
use acpi_c_lib::tables::signature_named;
use acpi_writer::spelled::Bytes;
pub use acpi_writer::{
    write_dsdt, write_rhct, write_riscv_madt, write_rsdp, write_rsdt, write_slit, write_ssdt,
    write_xsdt,
};
use acpi_writer::{TableIds, WriterError};

/// The number that C gets: 0, with the length of the table, or that of the error.
pub fn written(said: Result<usize, WriterError>, length: &mut usize) -> u32
    ensures { AnswersPlain result length.old length.new (writing.writer_refused said) }
{
    answer_plain(said.map_err(Refusal::Writer), length)
}

/// Writes a table of this signature, whatever it is, with these bytes after its header, as `acpi_writer::write_table`
/// does.
pub fn write_table(
    out: &mut [u8],
    ids: &TableIds,
    signature: records::Signature,
    revision: u8,
    body: &[u8],
) -> Result<usize, WriterError>
    ensures exact { Gives (λ n. take n out.new) result
        (table_written (length out.old) (signature_named signature) revision ids.now body.now) }
    ensures keeps { Keeps result out.old out.new }
{
    acpi_writer::write_table(out, signature_named(signature), revision, ids, &Bytes(body))
}

/// Writes a FACS, as `acpi_writer::write_facs` does.
pub fn write_facs(out: &mut [u8], contents: &FacsContents) -> Result<usize, WriterError>
    ensures exact { Gives (λ n. take n out.new) result
        (facs_written (length out.old) (facs_contents contents.now)) }
    ensures keeps { Keeps result out.old out.new }
{
    acpi_writer::write_facs(out, &facs::facs_contents(contents))
}
