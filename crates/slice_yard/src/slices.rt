//! Slices of the entries.
ghost use Rattle.std.specs.Prelude.{◌≡◌, ◌<◌, ◌*◌, ℕ, IfOk, length, slice_index_or};
ghost use Rattle.slice_yard.specs.Cut.{slice_number, first_entry, slice_len, IsSliceOf, slice_count, entries_of};
ghost use Rattle.std.specs.List.{range_with_len};

use std::alloc::{AllocError, Global};

/// A run of entries with a number. It is made by `cut` alone, and is not copied.
#[derive(Debug, Drop)]
pub struct Slice {
    pub(crate) number: usize,
    pub(crate) from: usize,
    pub(crate) count: usize,
}

impl Slice {
    /// Its place in its cut, from 0 on.
    pub fn number(&self) -> usize
        ensures { result ≡ slice_number self.now }
    {
        self.number
    }

    /// Its first entry, unless it holds none.
    pub fn first(&self) -> usize
        ensures { result ≡ first_entry self.now }
    {
        self.from
    }

    /// How many entries it holds.
    pub fn len(&self) -> usize
        ensures { result ≡ slice_len self.now }
    {
        self.count
    }
}

/// Slice number k holds `size` entries from k times `size` on, or what is left. `size` is at least 1. Refused for want
/// of memory.
pub fn cut(alloc: Global, entries: usize, size: usize) -> Result<Vec<Slice>, AllocError>
    requires { 0 < size }
    ensures each { IfOk result (λ v. (k : ℕ) (d : Slice) → k < length v.items
        → IsSliceOf entries size k (slice_index_or v.items k d)) }
    ensures count { IfOk result (λ v. length v.items ≡ slice_count entries size) }
    ensures entries { IfOk result (λ v. entries_of v.items ≡ range_with_len 0 entries) }
{
    let mut slices = Vec::new(alloc);
    for number in 0..count_of(entries, size) {
        let from = number * size;
        let count = size.min(entries - from);
        slices.push(Slice {
            number,
            from,
            count,
        })?;
    }
    Ok(slices)
}

fn count_of(entries: usize, size: usize) -> usize
    requires { 0 < size }
    ensures is { result ≡ slice_count entries size }
    ensures inside { (n : ℕ) → n < result → n * size < entries }
{
    entries.div_ceil(size)
}
