//! Images of memory from files: the command that the arguments are, the places of the files, and the file
//! that is made.
#![tactic(auto)]

pub mod arguments;
mod error;
pub mod files;
mod help;
pub mod listing;
pub mod outcome;
mod pack;
mod place;
mod plain;
pub mod program;
mod reading;
mod sources;
mod sums;

pub use error::{FileError, Refusal};
pub use pack::{pack_files, pack_tables};
pub use sources::FileBytes;
