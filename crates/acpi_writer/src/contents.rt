//! The tables that an XSDT can list, each from its contents.
ghost use Rattle.acpi_writer.specs.Words.{FitsContents, contents_written};

use crate::aml::Aml;
use crate::bgrt::BgrtContents;
use crate::fadt::FadtContents;
use crate::spcr::SpcrContents;
use acpi::HpetInfo;
use acpi_base::Signature;
use acpi_base::mcfg::McfgEntry;
pub use acpi_table_writer::contents::SlitContents;
use acpi_table_writer::error::WriterError;
use acpi_table_writer::gtdt::GtdtContents;
use acpi_table_writer::ids::TableIds;
use acpi_table_writer::listed::Listed;
use acpi_table_writer::madt::MadtContents;
use acpi_table_writer::madt::gic::GicContents;
use acpi_table_writer::mcfg::Regions;
use acpi_table_writer::srat::SratContents;

/// What a table of AML is to have after its header (section 5.2.11).
#[derive(Clone, Copy)]
pub struct AmlContents<'a> {
    /// Revision: by 1 AML's integers have 32 bits, by 2 they have 64.
    pub revision: u8,
    /// The AML bytes, taken as they are.
    pub bytes: &'a [u8],
}

/// A table that an XSDT can list, with its contents. Each is written as the function of its name writes it.
#[derive(Clone, Copy)]
pub enum TableContents<'a> {
    /// `write_madt`.
    Madt(MadtContents<'a>),
    /// `write_mcfg`.
    Mcfg(&'a [McfgEntry]),
    /// `write_hpet`.
    Hpet(HpetInfo),
    /// `write_slit`.
    Slit(SlitContents<'a>),
    /// `write_ssdt`.
    Ssdt(AmlContents<'a>),
    /// `write_fadt`. `dsdt_address` is where the machine's DSDT is.
    Fadt(FadtContents),
    /// `write_srat`.
    Srat(SratContents<'a>),
    /// `write_spcr`.
    Spcr(SpcrContents<'a>),
    /// `write_bgrt`.
    Bgrt(BgrtContents),
    /// `write_gtdt`.
    Gtdt(GtdtContents<'a>),
    /// `write_gic_madt`.
    GicMadt(GicContents<'a>),
}

impl Listed for TableContents<'_> {
    ghost written = { contents_written };

    ghost fits = { FitsContents };

    #[tactic(auto, using(acpi_table_writer::proofs::Sized::itself), unfolding(crate::specs::Fadt::fadt_written, acpi_table_writer::specs::GicMadt::gic_written, acpi_table_writer::specs::Gtdt::gtdt_written_by, acpi_table_writer::specs::MadtBytes::madt_written, acpi_table_writer::specs::Slit::slit_written, crate::specs::Spcr::spcr_written, acpi_table_writer::specs::Srat::srat_written))]
    fn size(&self, ids: &TableIds) -> Result<usize, WriterError> {
        match self {
            TableContents::Madt(contents) => contents.size(ids),
            TableContents::Mcfg(regions) => Regions(regions).size(ids),
            TableContents::Hpet(info) => info.size(ids),
            TableContents::Slit(contents) => contents.size(ids),
            TableContents::Ssdt(contents) => Aml(Signature::SSDT, *contents).size(ids),
            TableContents::Fadt(contents) => contents.size(ids),
            TableContents::Srat(contents) => contents.size(ids),
            TableContents::Spcr(contents) => contents.size(ids),
            TableContents::Bgrt(contents) => contents.size(ids),
            TableContents::Gtdt(contents) => contents.size(ids),
            TableContents::GicMadt(contents) => contents.size(ids),
        }
    }

    #[tactic(auto, using(acpi_table_writer::proofs::Sized::itself), unfolding(crate::specs::Fadt::fadt_written, acpi_table_writer::specs::GicMadt::gic_written, acpi_table_writer::specs::Gtdt::gtdt_written_by, acpi_table_writer::specs::MadtBytes::madt_written, acpi_table_writer::specs::Slit::slit_written, crate::specs::Spcr::spcr_written, acpi_table_writer::specs::Srat::srat_written))]
    fn put(&self, out: &mut [u8], ids: &TableIds) {
        match self {
            TableContents::Madt(contents) => contents.put(out, ids),
            TableContents::Mcfg(regions) => Regions(regions).put(out, ids),
            TableContents::Hpet(info) => Listed::put(info, out, ids),
            TableContents::Slit(contents) => contents.put(out, ids),
            TableContents::Ssdt(contents) => Aml(Signature::SSDT, *contents).put(out, ids),
            TableContents::Fadt(contents) => contents.put(out, ids),
            TableContents::Srat(contents) => contents.put(out, ids),
            TableContents::Spcr(contents) => Listed::put(contents, out, ids),
            TableContents::Bgrt(contents) => Listed::put(contents, out, ids),
            TableContents::Gtdt(contents) => Listed::put(contents, out, ids),
            TableContents::GicMadt(contents) => contents.put(out, ids),
        }
    }
}
