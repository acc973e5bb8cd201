//! Tables of names.

ghost use Rattle.std.specs.Prelude.{◌≡◌, ◌<◌, [], ◌∷◌, ◌++◌, length, true, false, Some, is_some, not, slice_get, option_map, option_copied, string_bytes, IfOk, IfSome, OnOk, OnErr};
ghost use Rattle.std.specs.Map.Iter.{deref_pair};
ghost use Rattle.names.specs.Names.{place_of, value_of, with_value};

use std::alloc::{AllocError, Global};
use std::collections::BTreeMap;
use std::marker::Model;
use std::mem::replace;

/// Up to how many names are compared one by one, which is quicker than to go down a tree.
const FEW: usize = 8;

/// Names in the order in which they were put, each once, with what is kept under each.
#[derive(Drop)]
pub struct Names<V> {
    entries: Vec<(String, V)>,
    // where each name stands
    places: BTreeMap<String, usize>,
}

impl<V> Model for Names<V> {
    ghost use Rattle.names.specs.Names.{NamesValue};

    ghost Value = { NamesValue V };

    ghost use Rattle.names.specs.Names.{ArePlaces, StandOnce};

    ghost view = { λ n. record { entries = n.entries.items } };

    ghost invariant = { λ n. ArePlaces n.places n.entries.items × StandOnce n.entries.items };
}

impl<V> Names<V> {
    /// No names. Nothing is allocated before the first is put.
    pub fn new(alloc: Global) -> Names<V>
        ensures { result.entries ≡ [] }
    {
        Names {
            entries: Vec::new(alloc),
            places: BTreeMap::new(alloc),
        }
    }

    /// The names in order, with what is kept under each.
    pub fn entries(&self) -> &[(String, V)]
        ensures { result.now ≡ self.now.entries }
    {
        self.entries.as_slice()
    }

    /// How many names there are.
    pub fn len(&self) -> usize
        ensures len { result ≡ length self.now.entries }
    {
        self.entries.len()
    }

    /// Where a name stands, by comparing it with the names on its way down the tree.
    fn place_in_tree(&self, name: &str) -> Option<usize>
        ensures { result ≡ place_of name.now self.now.entries }
    {
        self.places.get(name).copied()
    }

    /// Where a name stands, by comparing it with each.
    fn place_among_few(&self, name: &str) -> Option<usize>
        ensures { result ≡ place_of name.now self.now.entries }
    {
        self.entries
            .iter()
            .position(|entry| name == entry.0.as_str())
    }

    /// Where a name stands, from 0. `None` where it does not.
    pub fn place(&self, name: &str) -> Option<usize>
        ensures index { result ≡ place_of name.now self.now.entries }
        ensures within { IfSome result (λ i. i < length self.now.entries) }
    {
        if self.entries.len() > FEW {
            self.place_in_tree(name)
        } else {
            self.place_among_few(name)
        }
    }

    /// Whether a name is there.
    pub fn contains(&self, name: &str) -> bool
        ensures { result ≡ is_some (value_of name.now self.now.entries) }
    {
        self.place(name).is_some()
    }

    /// The name at a place, from 0, and what is kept under it. `None` past the last.
    pub fn at(&self, place: usize) -> Option<(&String, &V)>
        ensures entry { option_map deref_pair result ≡ slice_get self.now.entries place }
        ensures value { IfSome result (λ e. value_of (string_bytes e.0.now) self.now.entries ≡ Some e.1.now) }
    {
        let entry = self.entries.get(place)?;
        Some((&entry.0, &entry.1))
    }

    /// What is kept under a name. `None` where it is not there.
    pub fn get(&self, name: &str) -> Option<&V>
        ensures value { option_copied result ≡ value_of name.now self.now.entries }
    {
        let (_, value) = self.at(self.place(name)?)?;
        Some(value)
    }

    /// Puts a name last, with what is kept under it. Where it is there already nothing changes, and `false` is
    /// answered.
    ///
    /// Refusals: OutOfMemory, after which nothing has changed.
    pub fn put(&mut self, name: String, value: V) -> Result<bool, AllocError>
    where
        V: Drop,
        ensures new { IfOk result (λ put. put ≡ not (is_some (value_of (string_bytes name) self.old.entries))) }
        ensures put { IfOk result (λ put. put ≡ true → self.new.entries ≡ self.old.entries ++ (name, value) ∷ []) }
        ensures there { IfOk result (λ put. put ≡ false → self.new ≡ self.old) }
        ensures unchanged { OnErr result (self.new ≡ self.old) }
    {
        if self.contains(name.as_str()) {
            return Ok(false);
        }
        let key = name.clone()?;
        self.entries.reserve(1)?;
        let _ = self.places.insert(key, self.entries.len())?;
        self.entries.push_reserved((name, value));
        Ok(true)
    }

    /// Keeps another value under the name at a place, and gives the one that was kept there.
    pub fn replace(&mut self, place: usize, value: V) -> V
        requires { place < length self.old.entries }
        ensures was { option_map (λ e. e.1) (slice_get self.old.entries place) ≡ Some result }
        ensures new { self.new.entries ≡ with_value place value self.old.entries }
        ensures len { length self.new.entries ≡ length self.old.entries }
    {
        replace(&mut self.entries[place].1, value)
    }
}
