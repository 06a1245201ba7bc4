//! The redistributors of a GIC that are written for C from a range of memory (section 5.2.12.17): the crate of a record
//! is the one that can implement another crate's trait for it.
ghost use Rattle.acpi_c_lib.specs.Words.{redistributors_of};

use crate::records::Range;
use acpi_arm::gic;
use acpi_table_writer::spelled::StandsFor;

impl StandsFor<gic::GicRedistributors> for Range {
    ghost meant = { redistributors_of };

    fn item(&self) -> gic::GicRedistributors {
        gic::GicRedistributors {
            address: self.address,
            length: if self.length <= 0xffffffff {
                self.length as u32
            } else {
                0
            },
        }
    }
}
