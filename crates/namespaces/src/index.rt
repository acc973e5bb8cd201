//! Where the declarations of each namespace stand.
ghost use Rattle.std.specs.Prelude.{◌≡◌, ◌<◌, length, [], ◌∷◌, ◌++◌, slice_get, None, false, is_some, nat_le, nat_lt, filter, string_bytes, IfErr, OnOk, OnErr};
ghost use Rattle.std.specs.List.{last_or};
ghost use Rattle.std.specs.List.Sorted.{IsNonDecreasingBy};
ghost use Rattle.names.specs.Names.{value_of};
ghost use Rattle.namespaces.specs.Index as spec;
ghost use Rattle.namespaces.specs.Index.{show_index};

use crate::fault::RulesFault;
use names::Names;
use std::alloc::Global;

/// A declaration of a namespace: from when it is in force, how many relations it has, and at which line it stands.
#[derive(Clone, Copy)]
pub(crate) struct Revision {
    pub(crate) at: u64,
    pub(crate) relations: usize,
    pub(crate) line: usize,
}

/// The last of the revisions that are in force at a timestamp.
pub(crate) fn revision_at(revisions: &[Revision], at: u64) -> Option<Revision>
    requires { IsNonDecreasingBy (λ (v : Revision). v.at) revisions.now }
    ensures { result ≡ last_or None (filter (λ (v : Revision). nat_le v.at at) revisions.now) }
{
    let count = revisions.partition_point(|revision| revision.at <= at);
    let last = count.checked_sub(1)?;
    revisions.get(last).copied()
}

/// The k-th of the revisions that have a relation at `index`, counted from 0.
pub(crate) fn revision_with(revisions: &[Revision], index: usize, k: usize) -> Option<Revision>
    requires { IsNonDecreasingBy (λ (v : Revision). v.relations) revisions.now }
    ensures { result ≡ slice_get (filter (λ (v : Revision). nat_lt index v.relations) revisions.now) k }
{
    let first = revisions.partition_point(|revision| revision.relations <= index);
    revisions[first..].get(k).copied()
}

/// Notes a revision of a namespace.
pub(crate) fn note(
    alloc: Global,
    namespaces: &mut Names<Vec<Revision>>,
    name: String,
    revision: Revision,
) -> Result<(), RulesFault>
    ensures ok { OnOk result (show_index namespaces.new.entries
        ≡ spec.with_revision (string_bytes name) revision (show_index namespaces.old.entries)) }
    ensures unchanged { OnErr result (show_index namespaces.new.entries ≡ show_index namespaces.old.entries) }
    ensures memory { IfErr result (λ e. e ≡ RulesFault.OutOfMemory) }
{
    match namespaces.place(name.as_str()) {
        Some(index) => note_further(alloc, namespaces, index, revision),
        None => note_first(alloc, namespaces, name, revision),
    }
}

/// Notes a revision of the namespace at a place.
fn note_further(
    alloc: Global,
    namespaces: &mut Names<Vec<Revision>>,
    index: usize,
    revision: Revision,
) -> Result<(), RulesFault>
    requires { index < length namespaces.old.entries }
    ensures ok { OnOk result (show_index namespaces.new.entries
        ≡ spec.with_revision_at index revision (show_index namespaces.old.entries)) }
    ensures unchanged { OnErr result (show_index namespaces.new.entries ≡ show_index namespaces.old.entries) }
    ensures memory { IfErr result (λ e. e ≡ RulesFault.OutOfMemory) }
{
    let mut revisions = namespaces.replace(index, Vec::new(alloc));
    let pushed = revisions.push(revision);
    let _ = namespaces.replace(index, revisions);
    pushed?;
    Ok(())
}

/// Notes the first revision of a namespace.
fn note_first(
    alloc: Global,
    namespaces: &mut Names<Vec<Revision>>,
    name: String,
    revision: Revision,
) -> Result<(), RulesFault>
    requires { is_some (value_of (string_bytes name) namespaces.old.entries) ≡ false }
    ensures ok { OnOk result (show_index namespaces.new.entries
        ≡ show_index namespaces.old.entries ++ (string_bytes name, revision ∷ []) ∷ []) }
    ensures unchanged { OnErr result (show_index namespaces.new.entries ≡ show_index namespaces.old.entries) }
    ensures memory { IfErr result (λ e. e ≡ RulesFault.OutOfMemory) }
{
    let mut revisions = Vec::new(alloc);
    revisions.push(revision)?;
    let _ = namespaces.put(name, revisions)?;
    Ok(())
}
