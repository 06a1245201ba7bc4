//! How a list is written for C: the records that its capacity holds are written, and all are counted.
ghost use Rattle.std.specs.Prelude.{◌≡◌, ◌+◌, ◌^◌, ◌<◌, drop, length, slice_set, List, Option};
ghost use Rattle.acpi_base.specs.FromStd.{IsFinite};
ghost use Rattle.acpi_c_lib.specs.Answers.{Writes, put_from};
ghost use Rattle.acpi_c_lib.specs.Listed.{ListsFirst};

/// Writes an item at an index, if the capacity is above it.
pub fn put<T: Copy>(out: &mut [T], index: usize, item: T)
    ensures { out.new ≡ slice_set out.old index item }
{
    if index < out.len() {
        out[index] = item;
    }
}

/// A walk along items of the library's, some of which have a record for C, by what else is to be known.
pub trait Listing<C, R>: Iterator {
    // The record of an item, if it has one.
    ghost record_of: { C → Self.Item → Option R };

    // The records that are left.
    ghost left: { C → Self → List R };

    /// The record of an item, if it has one.
    fn record(known: &C, item: Self::Item) -> Option<R>
        ensures { result ≡ record_of known.now item };

    // Each call returns the item of the first of them, or one that has none.
    ghost gives_first: { (known : C) (s : Self) (item : Option Self.Item) (t : Self) → Self.next_gives s item t
        → ListsFirst (record_of known) (left known) s item t };
}

/// Writes the records of a walk's items from an index on, and returns the next index.
pub fn fill_from<R: Copy, C, W: Listing<C, R>>(
    walk: W,
    known: &C,
    out: &mut [R],
    from: usize,
) -> usize
    requires goes_on { W.can_next walk × IsFinite (W.remaining walk) }
    requires few { from + length (W.left known.now walk) < 2 ^ 64 }
    ensures count { result ≡ from + length (W.left known.now walk) }
    ensures items { out.new ≡ put_from out.old from (W.left known.now walk) }
{
    let mut count = from;
    for item in walk {
        if let Some(record) = W::record(known, item) {
            put(out, count, record);
            count += 1;
        }
    }
    count
}

/// Writes the records of a walk's items from the `from`-th on, counted from 0, and counts all.
pub fn fill_part<R: Copy, C, W: Listing<C, R>>(
    walk: W,
    known: &C,
    from: usize,
    out: &mut [R],
) -> usize
    requires goes_on { W.can_next walk × IsFinite (W.remaining walk) }
    requires few { length (W.left known.now walk) < 2 ^ 63 }
    ensures count { result ≡ length (W.left known.now walk) }
    ensures items { out.new ≡ put_from out.old 0 (drop from (W.left known.now walk)) }
{
    let mut all = 0;
    for item in walk {
        if let Some(record) = W::record(known, item) {
            if all >= from {
                put(out, all - from, record);
            }
            all += 1;
        }
    }
    all
}

/// Writes the records of a walk's items, and counts them.
pub fn fill<R: Copy, C, W: Listing<C, R>>(walk: W, known: &C, out: &mut [R]) -> usize
    requires goes_on { W.can_next walk × IsFinite (W.remaining walk) }
    requires few { length (W.left known.now walk) < 2 ^ 63 }
    ensures { Writes result out.old out.new (W.left known.now walk) }
{
    fill_from(walk, known, out, 0)
}
