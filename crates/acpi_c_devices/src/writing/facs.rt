//! The FACS that is written for C (section 5.2.10).

mod shown;

pub use shown::facs_contents;
