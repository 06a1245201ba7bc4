//! Laws of the definitions that the library's contracts cite. No function of the library needs this crate.
//!
//! What holds of the definitions is the contract of `definitions_hold`. That they depend on their ranges alone, and
//! on the valid tables, is shown at memories that are written out: the lemmas of `proofs/Instances.antt`.
#![tactic(auto)]

pub mod definitions;
pub mod devices;
