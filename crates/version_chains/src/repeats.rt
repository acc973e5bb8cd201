//! The first number that stands twice.

ghost use Rattle.std.specs.Prelude.{◌≡◌, ◌≤◌, [], IfOk, length, nat_eq, take};
ghost use Rattle.std.specs.List.{list_any};
ghost use Rattle.std.specs.List.Sorted.{IsStrictlyIncreasing};
ghost use Rattle.version_chains.specs.Appends.{repeat_from};

use std::alloc::{AllocError, Global};
use std::collections::BTreeSet;

/// How many of the numbers from the front rise, each above the one before it.
fn rising_len(numbers: &[usize]) -> usize
    ensures within { result ≤ length numbers.now }
    ensures rising { IsStrictlyIncreasing (take result numbers.now) }
{
    for place in 1..numbers.len() {
        if numbers[place] <= numbers[place - 1] {
            return place;
        }
    }
    numbers.len()
}

/// Whether the number is one of those that rise.
fn is_among(rising: &[usize], number: usize) -> bool
    requires { IsStrictlyIncreasing rising.now }
    ensures { result ≡ list_any (λ s. nat_eq s number) rising.now }
{
    rising.binary_search(&number).is_ok()
}

/// The place, from 0, of the first of these numbers that stands earlier too.
///
/// Tuples that are new to the store have numbers that rise, so that most commits need no set of the numbers seen.
pub fn first_repeat(alloc: Global, numbers: &[usize]) -> Result<Option<usize>, AllocError>
    ensures { IfOk result (λ place. place ≡ repeat_from nat_eq [] 0 numbers.now) }
{
    let len = rising_len(numbers);
    let rising = &numbers[..len];
    let mut seen = BTreeSet::new(alloc);
    for place in len..numbers.len() {
        let number = numbers[place];
        if is_among(rising, number) || !seen.insert(number)? {
            return Ok(Some(place));
        }
    }
    Ok(None)
}
