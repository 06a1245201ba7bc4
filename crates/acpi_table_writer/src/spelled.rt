//! What has bytes in a table: an entry, entries in a row, one part after another, and bytes that are given.
ghost use Rattle.std.specs.Prelude.{◌≡◌, ℕ, List, ◌++◌, length, flat_map, map, All};
ghost use Rattle.acpi_table_writer.specs.Spelled.{Measures};

use std::marker::PhantomData;

/// Something that has bytes in a table.
pub trait Spelled {
    // Its bytes.
    ghost spelled: { Self → List ℕ };

    // Each of its numbers has a place there.
    ghost fits: { Self → Type 0 };

    /// How many bytes it has, or `None` if these are more than there is room for.
    fn measure(&self, room: usize) -> Option<usize>
        ensures { Measures result room (spelled self.now) (fits self.now) };

    /// Puts its bytes in place of all bytes of a slice that is as long.
    fn put(&self, out: &mut [u8])
        requires { length out.old ≡ length (spelled self.now) }
        ensures { out.new ≡ spelled self.now };
}

/// What is written as an item of a table: the item itself, or a record of a caller's own.
pub trait StandsFor<T: Copy>: Copy {
    // The item.
    ghost meant: { Self → T };

    /// The item.
    fn item(&self) -> T
        ensures { result ≡ meant self.now };
}

impl<T: Copy> StandsFor<T> for T {
    ghost meant = { λ x. x };

    fn item(&self) -> T {
        *self
    }
}

/// The items that the things of a list mean, one after the other.
#[derive(Clone, Copy)]
pub struct EachItem<'a, T, R>(pub &'a [R], pub PhantomData<T>);

impl<T: Spelled + Copy, R: StandsFor<T>> Spelled for EachItem<'_, T, R> {
    ghost spelled = { λ s. flat_map T.spelled (map R.meant s.0.now) };

    ghost fits = { λ s. All T.fits (map R.meant s.0.now) };

    fn measure(&self, room: usize) -> Option<usize> {
        let things = self.0;
        let mut size = 0;
        for x in things {
            match x.item().measure(room - size) {
                Some(more) => size += more,
                None => return None,
            }
        }
        Some(size)
    }

    fn put(&self, out: &mut [u8]) {
        let things = self.0;
        let mut at = 0;
        for x in things {
            let item = x.item();
            match item.measure(out.len() - at) {
                Some(size) => {
                    item.put(&mut out[at..at + size]);
                    at += size;
                }
                None => return,
            }
        }
    }
}

/// The things of a list, one after the other.
#[derive(Clone, Copy)]
pub struct Each<'a, T>(pub &'a [T]);

impl<T: Spelled + Copy> Spelled for Each<'_, T> {
    ghost spelled = { λ s. flat_map T.spelled s.0.now };

    ghost fits = { λ s. All T.fits s.0.now };

    #[tactic(auto, using(crate::proofs::Sized::map_same))]
    fn measure(&self, room: usize) -> Option<usize> {
        EachItem::<T, T>(self.0, PhantomData).measure(room)
    }

    #[tactic(auto, using(crate::proofs::Sized::map_same))]
    fn put(&self, out: &mut [u8]) {
        EachItem::<T, T>(self.0, PhantomData).put(out);
    }
}

/// One thing, and after it another.
#[derive(Clone, Copy)]
pub struct Then<A, B>(pub A, pub B);

impl<A: Spelled, B: Spelled> Spelled for Then<A, B> {
    ghost spelled = { λ s. A.spelled s.0 ++ B.spelled s.1 };

    ghost fits = { λ s. A.fits s.0 × B.fits s.1 };

    fn measure(&self, room: usize) -> Option<usize> {
        match self.0.measure(room) {
            Some(first) => match self.1.measure(room - first) {
                Some(second) => Some(first + second),
                None => None,
            },
            None => None,
        }
    }

    fn put(&self, out: &mut [u8]) {
        match self.0.measure(out.len()) {
            Some(first) => {
                self.0.put(&mut out[..first]);
                self.1.put(&mut out[first..]);
            }
            None => {}
        }
    }
}

/// Bytes, as they are.
#[derive(Clone, Copy)]
pub struct Bytes<'a>(pub &'a [u8]);

impl<'a> Spelled for Bytes<'a> {
    ghost spelled = { λ s. s.0.now };

    ghost fits = { λ _. Unit {0} };

    fn measure(&self, room: usize) -> Option<usize> {
        if room < self.0.len() {
            None
        } else {
            Some(self.0.len())
        }
    }

    fn put(&self, out: &mut [u8]) {
        out.copy_from_slice(self.0);
    }
}
