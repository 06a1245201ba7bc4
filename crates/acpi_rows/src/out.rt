//! What is printed: lines, each of which begins with a mark.
//!
//! - `?` a result by `Debug`, and `*` a tuple of results; `.` a result by `Display`;
//! - `x` bytes;
//! - `@` where a mapping is, and how many bytes it shows and how many are mapped;
//! - `+` a request that a handler grants, `!` one that fails, and `-` a notice: the address, how many bytes are
//!   requested or shown, and how many are mapped;
//! - `|` the end of a call or of a part.
//!
//! A line that can't be written is missed by who reads them.
ghost use Rattle.acpi_base.specs.FromStd.{IsFinite};

use acpi::{AcpiHandler, PhysicalMapping, PhysicalRecord};
use std::alloc::Global;
use std::fmt::{Debug, Display};

/// Where lines are printed.
#[derive(Clone, Copy)]
pub(crate) struct Out<'r> {
    pub(crate) rt: &'r HostRuntime,
}

impl Out<'_> {
    /// The memory for what a call returns.
    pub(crate) fn alloc(self) -> Global {
        self.rt.alloc()
    }

    /// Prints a result by `Debug`.
    pub(crate) fn show<T: Debug>(self, value: &T) {
        let rt = self.rt;
        let _printed = println!(rt; "? {value:?}");
    }

    /// Prints a tuple of results.
    pub(crate) fn spread<T: Debug>(self, values: &T) {
        let rt = self.rt;
        let _printed = println!(rt; "* {values:?}");
    }

    /// Prints a result by `Display`.
    pub(crate) fn print<T: Display>(self, value: &T) {
        let rt = self.rt;
        let _printed = println!(rt; ". {value}");
    }

    /// Prints each item of an iterator.
    pub(crate) fn list<I: Iterator + Drop>(self, items: I)
    where
        I::Item: Debug + Drop,
        requires can { I.can_next items }
        requires ends { IsFinite (I.remaining items) }
    {
        for item in items {
            self.show(&item);
        }
    }

    /// Prints bytes.
    pub(crate) fn bytes(self, bytes: &[u8]) {
        let rt = self.rt;
        let _printed = println!(rt; "x {bytes:?}");
    }

    /// Prints where a mapping is.
    pub(crate) fn place<H: AcpiHandler, T: PhysicalRecord>(
        self,
        mapping: &PhysicalMapping<'_, H, T>,
    ) {
        let shown = mapping.region_length();
        self.event(
            '@',
            mapping.physical_start(),
            shown,
            mapping.mapped_length(),
        );
    }

    /// Prints what happens at a handler.
    pub(crate) fn event(self, mark: char, address: u64, length: usize, lent: usize) {
        let rt = self.rt;
        let _printed = println!(rt; "{mark} {address:#x} {length}/{lent}");
    }

    /// Ends a call or a part.
    pub(crate) fn end(self) {
        let rt = self.rt;
        let _printed = println!(rt; "|");
    }
}
