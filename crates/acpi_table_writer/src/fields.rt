//! Records that are fields in a row: one list of them is what is measured, written and read.
ghost use Rattle.std.specs.Prelude.{◌≡◌, ◌^◌, ◌<◌, List, flat_map, length, All};
ghost use Rattle.acpi_table_writer.specs.Fields.{FitsField, field_bytes, fields_or_none};
ghost use Rattle.acpi_table_writer.specs.Words.{spelling};
ghost use Rattle.acpi_table_writer.specs.declared.fields.Field.{Field};

use crate::numbers::{dword, qword, word};
use crate::spelled::{Each, Spelled};

/// A field: a number in a number of bytes, the lowest first, or a number of zeros.
#[derive(Clone, Copy)]
pub enum Field {
    /// A number in one byte.
    U8(u8),
    /// A number in two bytes.
    U16(u16),
    /// A number in four bytes.
    U32(u32),
    /// A number in eight bytes.
    U64(u64),
    /// A number of zeros.
    Zeros(u8),
}

impl Field {
    /// How many bytes it has.
    #[tactic(auto, unfolding(acpi_bytes::specs::Bytes::spelling))]
    fn size(&self) -> usize
        ensures size { result ≡ length (field_bytes self.now) }
        ensures fits { FitsField self.now }
    {
        match *self {
            Field::U8(_n) => 1,
            Field::U16(_n) => 2,
            Field::U32(_n) => 4,
            Field::U64(_n) => 8,
            Field::Zeros(n) => n as usize,
        }
    }
}

impl Spelled for Field {
    ghost spelled = { field_bytes };

    ghost fits = { FitsField };

    fn measure(&self, room: usize) -> Option<usize> {
        let size = self.size();
        if room < size { None } else { Some(size) }
    }

    #[tactic(auto, unfolding(acpi_bytes::specs::Bytes::spelling))]
    fn put(&self, out: &mut [u8]) {
        match *self {
            Field::U8(n) => out[0] = n,
            Field::U16(n) => out.copy_from_slice(&word(n)),
            Field::U32(n) => out.copy_from_slice(&dword(n)),
            Field::U64(n) => out.copy_from_slice(&qword(n)),
            Field::Zeros(_) => out.fill(0),
        }
    }
}

impl Spelled for u32 {
    ghost spelled = { λ n. spelling 4 n };

    ghost fits = { λ n. n < 256 ^ 4 };

    fn measure(&self, room: usize) -> Option<usize> {
        Field::U32(*self).measure(room)
    }

    fn put(&self, out: &mut [u8]) {
        Field::U32(*self).put(out)
    }
}

impl Spelled for u64 {
    ghost spelled = { λ n. spelling 8 n };

    ghost fits = { λ n. n < 256 ^ 8 };

    fn measure(&self, room: usize) -> Option<usize> {
        Field::U64(*self).measure(room)
    }

    fn put(&self, out: &mut [u8]) {
        Field::U64(*self).put(out)
    }
}

/// Fields in a row.
pub trait FieldList: Drop {
    // The fields.
    ghost list: { Self → List Field };

    /// The fields.
    fn as_fields(&self) -> &[Field]
        ensures { result.now ≡ list self.now };
}

impl<const N: usize> FieldList for [Field; N] {
    ghost list = { λ fields. fields };

    fn as_fields(&self) -> &[Field] {
        self
    }
}

impl<F: FieldList> FieldList for Option<F> {
    ghost list = { λ o. fields_or_none F.list o };

    fn as_fields(&self) -> &[Field] {
        match self {
            Some(fields) => fields.as_fields(),
            None => &[],
        }
    }
}

/// What is fields in a row.
pub trait Record {
    /// An array of this number of fields.
    type Fields: FieldList;

    // Its fields.
    ghost fields_of: { Self → List Field };

    /// Its fields.
    fn fields(&self) -> Self::Fields
        ensures { Self.Fields.list result ≡ fields_of self.now };
}

impl<T: Record> Spelled for T {
    ghost spelled = { λ x. flat_map field_bytes (T.fields_of x) };

    ghost fits = { λ x. All FitsField (T.fields_of x) };

    fn measure(&self, room: usize) -> Option<usize> {
        Each(self.fields().as_fields()).measure(room)
    }

    fn put(&self, out: &mut [u8]) {
        Each(self.fields().as_fields()).put(out);
    }
}
