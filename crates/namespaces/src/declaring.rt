//! Which namespaces declare a relation of a name: a table that grows with each declaration, so that none is asked for
//! one namespace after the other.

ghost use Rattle.std.specs.Prelude.{◌≡◌, ◌%◌, ◌⊎◌, ℕ, List, Contains, true, is_some, OnOk};
ghost use Rattle.names.specs.Names.{value_of};
ghost use Rattle.namespaces.specs.Declaring.{HasUnder, SameUnder};
ghost use Rattle.namespaces.specs.Lookup.{relation_names};
ghost use Rattle.namespaces.specs.Shown.{show_relations};

use crate::number_set::Numbers;
use crate::relation::Relation;
use names::Names;
use std::alloc::{AllocError, Global};

/// Makes a place for a name, if it has none, which has no namespace yet.
fn make_place(alloc: Global, table: &mut Names<Numbers>, name: &str) -> Result<(), AllocError>
    ensures same { SameUnder table.old.entries table.new.entries }
    ensures kept { (q : List ℕ) → is_some (value_of q table.old.entries) ≡ true → is_some (value_of q table.new.entries) ≡ true }
    ensures there { OnOk result (is_some (value_of name.now table.new.entries) ≡ true) }
{
    if table.contains(name) {
        return Ok(());
    }
    let name = String::from_str(alloc, name)?;
    let _ = table.put(name, Numbers::none())?;
    Ok(())
}

/// Makes a place for the name of each of some relations. What is said of each name stays.
pub(crate) fn make_places(
    alloc: Global,
    table: &mut Names<Numbers>,
    relations: &Names<Relation>,
) -> Result<(), AllocError>
    ensures same { SameUnder table.old.entries table.new.entries }
    ensures there { OnOk result ((q : List ℕ) → Contains (relation_names (show_relations relations.now.entries)) q
        → is_some (value_of q table.new.entries) ≡ true) }
{
    // a declaration has 256 relations at most
    for (name, _) in relations.entries() {
        make_place(alloc, table, name.as_str())?;
    }
    Ok(())
}

/// Notes that a namespace declares a relation of a name, where that has a place.
fn note_declarer(table: &mut Names<Numbers>, name: &str, number: u16)
    ensures has { is_some (value_of name.now table.old.entries) ≡ true → HasUnder table.new.entries name.now number }
    ensures kept { (q : List ℕ) (n : ℕ) → HasUnder table.old.entries q n → HasUnder table.new.entries q n }
    ensures only { (q : List ℕ) (n : ℕ) → HasUnder table.new.entries q n
        → HasUnder table.old.entries q n ⊎ ((q ≡ name.now) × (n % 256 ≡ number % 256)) }
    ensures there { (q : List ℕ) → is_some (value_of q table.old.entries) ≡ true → is_some (value_of q table.new.entries) ≡ true }
{
    let Some(place) = table.place(name) else {
        return;
    };
    let numbers = table.replace(place, Numbers::none());
    let _ = table.replace(place, numbers.with(number));
}

/// Notes that a namespace declares some relations, whose names have places.
pub(crate) fn note_declarers(table: &mut Names<Numbers>, relations: &Names<Relation>, number: u16)
    requires { (q : List ℕ) → Contains (relation_names (show_relations relations.now.entries)) q
        → is_some (value_of q table.old.entries) ≡ true }
    ensures has { (q : List ℕ) → Contains (relation_names (show_relations relations.now.entries)) q
        → HasUnder table.new.entries q number }
    ensures kept { (q : List ℕ) (n : ℕ) → HasUnder table.old.entries q n → HasUnder table.new.entries q n }
    ensures only { (q : List ℕ) (n : ℕ) → HasUnder table.new.entries q n
        → HasUnder table.old.entries q n
        ⊎ (Contains (relation_names (show_relations relations.now.entries)) q × (n % 256 ≡ number % 256)) }
{
    // a declaration has 256 relations at most
    for (name, _) in relations.entries() {
        note_declarer(table, name.as_str(), number);
    }
}
