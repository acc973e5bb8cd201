//! Which namespaces declare a relation that is read through a tupleset.

ghost use Rattle.std.specs.Prelude.{◌≡◌, ◌<◌, ◌^◌, ℕ, suc, List, Contains, None, Some, false, true, slice_get, option_map, IfOk};
ghost use Rattle.namespaces.specs.Declaring.{declares};
ghost use Rattle.namespaces.specs.Lookup.{rule_at};
ghost use Rattle.namespaces.specs.WellFormed.{IsWellFormed};
ghost use Rattle.rewrites.specs.Parts.{computed_names};
ghost use Rattle.namespaces.specs.Numbers.{Has};
ghost use Rattle.wide_rules.specs.Declaring.{AreDeclaring, DeclaresNone, HaveDeclaring};

use namespaces::{MAX_NUMBER, Numbers, Rules};
use rewrites::Through;
use std::alloc::{AllocError, Global};
use tuple_text::SetRef;

/// Whether a namespace declares, at a timestamp, one of the relations that are read, asked for these: at most as many
/// as it declares.
fn declares_name(rules: &Rules, through: &Through, namespace: &str, at: u64) -> bool
    ensures { result ≡ false → DeclaresNone (rule_at rules.now at) (computed_names through.now) namespace.now }
{
    for k in 0..through.computed.len() {
        if let Some(relation) = through.name(k) {
            let set = SetRef {
                namespace,
                id: "",
                relation,
            };
            if rules.body(set, at).is_some() {
                return true;
            }
        }
    }
    false
}

/// The same, asked for those that it declares, of which there are 256 at most.
fn declares_read(rules: &Rules, through: &Through, namespace: &str, at: u64) -> bool
    ensures { result ≡ false → DeclaresNone (rule_at rules.now at) (computed_names through.now) namespace.now }
{
    for k in 0..rules.count_in_force(namespace, at) {
        if let Some(name) = rules.name_in_force(namespace, at, k) {
            if through.reads(name) {
                return true;
            }
        }
    }
    false
}

/// The same, asked for the shorter of both lists.
pub(crate) fn declares_some(rules: &Rules, through: &Through, namespace: &str, at: u64) -> bool
    ensures { result ≡ false → DeclaresNone (rule_at rules.now at) (computed_names through.now) namespace.now }
{
    if through.computed.len() < rules.count_in_force(namespace, at) {
        declares_name(rules, through, namespace, at)
    } else {
        declares_read(rules, through, namespace, at)
    }
}

/// Declarations are well formed. That is a law: it computes nothing.
fn are_well_formed(rules: &Rules)
    ensures { IsWellFormed rules.now }
{
    let _ = rules.namespace(1);
}

/// The namespaces that ever declare the relation at a place of those that are read.
fn declaring_at(rules: &Rules, through: &Through, place: usize) -> Numbers
    ensures { (relation : List ℕ) (n : ℕ) → slice_get (computed_names through.now) place ≡ Some relation → n < 256
        → declares (suc n) relation rules.now ≡ true → Has result (suc n) }
{
    match through.name(place) {
        Some(relation) => rules.declaring(relation),
        None => Numbers::none(),
    }
}

/// The namespaces that ever declare one of the relations that are read.
fn declaring_one(rules: &Rules, through: &Through) -> Numbers
    ensures { (relation : List ℕ) (n : ℕ) → Contains (computed_names through.now) relation → n < 256
        → declares (suc n) relation rules.now ≡ true → Has result (suc n) }
{
    let mut all = Numbers::none();
    // as many as the rule names, and one look-up for each
    for k in 0..through.computed.len() {
        all = all.joined(declaring_at(rules, through, k));
    }
    all
}

/// The numbers of the namespaces that declare a relation that is read, at whatever time.
pub(crate) fn declaring(
    alloc: Global,
    rules: &Rules,
    through: &Through,
) -> Result<Vec<u16>, AllocError>
    ensures { IfOk result (λ numbers. AreDeclaring rules.now (computed_names through.now) numbers.items) }
{
    are_well_formed(rules);
    let all = declaring_one(rules, through);
    let mut numbers = Vec::new(alloc);
    for before in 0..MAX_NUMBER {
        if all.has(before + 1) {
            numbers.push(before + 1)?;
        }
    }
    Ok(numbers)
}

/// Whether the namespace of this name is among some.
pub(crate) fn is_among(rules: &Rules, namespace: &str, numbers: &[u16]) -> bool
    ensures { result ≡ false → (names : List (List ℕ)) (at : ℕ) → AreDeclaring rules.now names numbers.now → at < 2 ^ 64
        → DeclaresNone (rule_at rules.now at) names namespace.now }
{
    match rules.namespace_number(namespace) {
        Some(number) => numbers.contains(&number),
        None => false,
    }
}

/// These numbers as a set. They are 256 at most.
pub(crate) fn numbers_of(numbers: &[u16]) -> Numbers
    ensures { (n : ℕ) → Contains numbers.now n → Has result n }
{
    let mut all = Numbers::none();
    for number in numbers {
        all = all.with(*number);
    }
    all
}

/// The namespaces that declare, at whatever time, a relation that is read through a tupleset, and maybe others.
///
/// Refusals: OutOfMemory.
pub fn namespaces_declaring(
    alloc: Global,
    rules: &Rules,
    through: &Through,
) -> Result<Numbers, AllocError>
    ensures { IfOk result (HaveDeclaring rules.now (computed_names through.now)) }
{
    let numbers = declaring(alloc, rules, through)?;
    Ok(numbers_of(&numbers))
}
