//! The header that every table begins with (section 5.2.6), and what a type of table is made with.

pub use crate::bytes::{byte_sum, field};
pub use crate::extended::ExtendedField;
pub use crate::table::signature::Signature;
pub use crate::table::{AcpiTable, map_own_sdt, map_sdt, map_table};
pub use acpi_bytes::header::SdtHeader;
