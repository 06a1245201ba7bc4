//! Laws of written images: each is the contract of a function.

pub mod written;
