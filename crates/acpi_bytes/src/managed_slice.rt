//! Slices that are owned, in memory of any allocator.
ghost use Rattle.std.specs.Prelude.{◌≡◌, List, Contains, IfOk, IfErr, IsOk, replicate};
ghost use Rattle.acpi_bytes.specs.declared.error.AcpiError.TheVariants.{AllocError as NoMemory};

use crate::error::AcpiResult;
use std::alloc::{AllocError, Allocator, Global};
use std::marker::Model;

/// A slice of fixed length, which owns its items and the memory that they are in. Both end with
/// the slice: each item is dropped once.
#[derive(Drop)]
pub struct ManagedSlice<T, A: Allocator> {
    items: Vec<T, A>,
}

/// In contracts a `ManagedSlice` is the list of its items.
impl<T, A: Allocator> Model for ManagedSlice<T, A> {
    ghost Value = { List T };

    ghost view = { λ s. s.items.items };
}

impl<T: Clone + Drop, A: Allocator> ManagedSlice<T, A> {
    /// `len` items, each of them equal to `value`, whose clones have to equal it, in memory of an allocator.
    ///
    /// Fails with `AllocError` if memory runs out, also for a clone of `value`, and only if `len` isn't 0.
    pub fn new_in(len: usize, value: T, allocator: A) -> AcpiResult<ManagedSlice<T, A>>
        requires { (y : T) → T.is_clone value y → y ≡ value }
        ensures items { IfOk result (λ s. s ≡ replicate len value) }
        ensures refused { IfErr result (λ e. e ≡ NoMemory) }
        ensures empty { len ≡ 0 → IsOk result }
    {
        if len == 0 {
            return Ok(ManagedSlice {
                items: Vec::new(allocator),
            });
        }
        let items = Vec::from_elem(allocator, value, len)?;
        Ok(ManagedSlice { items })
    }
}

impl<T: Clone + Drop> ManagedSlice<T, Global> {
    /// `len` items, each of them equal to `value`, whose clones have to equal it, in memory of the global
    /// allocator.
    ///
    /// Fails with `AllocError` if memory runs out, also for a clone of `value`, and only if `len` isn't 0.
    pub fn new(alloc: Global, len: usize, value: T) -> AcpiResult<ManagedSlice<T, Global>>
        requires { (y : T) → T.is_clone value y → y ≡ value }
        ensures items { IfOk result (λ s. s ≡ replicate len value) }
        ensures refused { IfErr result (λ e. e ≡ NoMemory) }
        ensures empty { len ≡ 0 → IsOk result }
    {
        ManagedSlice::new_in(len, value, alloc)
    }
}

impl<T, A: Allocator> ManagedSlice<T, A> {
    ghost use Rattle.acpi_bytes.specs.FromStd.{sem};
    ghost use Rattle.acpi_bytes.specs.Lends.{lends_slice};

    /// The items of a vector, in the memory that they are in already.
    pub fn from_vec(items: Vec<T, A>) -> ManagedSlice<T, A>
        ensures { result ≡ items.items }
    {
        ManagedSlice { items }
    }

    /// The items, in order.
    pub fn as_slice(&self) -> &[T]
        ensures { result.now ≡ self.now }
    {
        self.items.as_slice()
    }

    /// The items, in order, to be written. Their number stays.
    pub fn as_mut_slice(&mut self) -> &mut [T]
        ensures* writes_back { sem 𝓛 (lends_slice T.row A.row A.Allocator self.entry result) }
        ensures value { result.now ≡ self.old }
    {
        self.items.as_mut_slice()
    }
}

impl<T: Clone + Drop, A: Allocator + Clone> ManagedSlice<T, A> {
    /// Clones of the items, which have to equal them, in order, in memory of a clone of the allocator.
    ///
    /// Fails with `AllocError` if memory runs out, also for the clone of the allocator or of an item.
    #[tactic(auto, using(crate::proofs::Clones::clones_equal))]
    pub fn clone(&self) -> Result<ManagedSlice<T, A>, AllocError>
        requires { (x y : T) → Contains self.now x → T.is_clone x y → y ≡ x }
        ensures { IfOk result (λ s. s ≡ self.now) }
    {
        let allocator = self.items.allocator().clone()?;
        let items = Vec::from_clones(allocator, self.items.as_slice())?;
        Ok(ManagedSlice { items })
    }
}
