//! A walk over the bytes of a table by the layout of its type, and over the objects of AML: what there is, in the order
//! of the bytes, and how a field is printed.
//!
//! Every function returns for every input, without fault. The walk over AML passes each byte in exactly one term, up to
//! the place where it stops, which it names. What else is shown is tested, and not proved.
#![tactic(auto)]

pub mod aml;
pub mod fault;
pub mod fields;
pub mod hex;
pub mod language;
pub mod layouts;
pub mod matrix;
pub mod out;
pub mod share;
pub mod text;
pub mod walk;
