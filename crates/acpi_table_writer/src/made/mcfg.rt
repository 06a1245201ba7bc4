//! Made by scripts/written of specs/Mcfg.antt.
ghost use Rattle.acpi_table_writer.specs.Mcfg.{mcfg_fields};

use crate::fields::{Field, Record};
use acpi_base::mcfg::McfgEntry;

/// A region.
impl Record for McfgEntry {
    type Fields = [Field; 5];

    ghost fields_of = { mcfg_fields };

    #[tactic(auto, unfolding(crate::specs::Mcfg::mcfg_fields))]
    fn fields(&self) -> [Field; 5] {
        [
            // 0: Base Address, 8: PCI Segment Group Number
            Field::U64(self.base_address),
            Field::U16(self.pci_segment_group),
            // 10: Start Bus Number, 11: End Bus Number, 12: Reserved
            Field::U8(self.bus_number_start),
            Field::U8(self.bus_number_end),
            Field::Zeros(4),
        ]
    }
}
