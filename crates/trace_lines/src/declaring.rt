//! The rules of a trace, as its lines declare them. Where a line is refused no rule is left, for the trace is refused
//! with it.

ghost use Rattle.std.specs.Prelude.{◌≡◌, option_map, ℕ, ◌<◌, [], OnOk, OnErr};
ghost use Rattle.serde_json.specs.View.{view};
ghost use Rattle.json_lines.specs.Fields.{text_at};
ghost use Rattle.namespaces.specs.Changing.{IsLater};
ghost use Rattle.trace_lines.specs.Causes.{Gives, Fails, namespace_cause};
ghost use Rattle.edge_checks.specs.Indexed.{IsIndex};
ghost use Rattle.trace_lines.specs.Declaring.{AreUnbroken, IsDeclaredLast, MayChange, checked, changed_rules, refused_late};
ghost use Rattle.trace_lines.specs.Traces.{with_namespace, rules_checked};

use crate::cause::Cause;
use edge_checks::{EdgeIndex, Sample};
use namespaces::{Rules, RulesFault};
use serde_json::Value;
use std::alloc::Global;
use strata::{ChangeFault, check_change, check_declared};
use version_chains::AppendFault;

fn text_at<'a>(value: &'a Value, name: &str) -> Option<&'a str>
    ensures { option_map (λ s. s.now) result ≡ text_at name.now (view value.now) }
{
    value.get(name).and_then(Value::as_str)
}

/// The first broken edge of the rules, after a value declared a namespace: it is one of that namespace.
fn check(rules: &Rules, value: &Value) -> Result<(), Cause>
    requires { IsDeclaredLast rules.now (view value.now) }
    ensures { result ≡ rules_checked rules.now }
{
    match text_at(value, "name") {
        Some(namespace) => check_declared(rules, namespace).map_err(Cause::Strata),
        None => unreachable!(),
    }
}

fn add(rules: &mut Rules, begun: bool, value: &Value) -> Result<(), Cause>
    requires { AreUnbroken rules.old }
    ensures answer { Gives (λ _. rules.new) result (with_namespace begun rules.old (view value.now)) }
    ensures later { (at : ℕ) → IsLater at rules.old → IsLater at rules.new }
{
    match rules.add(value) {
        Ok(()) => {}
        Err(RulesFault::OutOfMemory) => return Err(Cause::OutOfMemory),
        Err(fault) => return Err(Cause::Namespace(fault)),
    }
    if begun {
        return Err(Cause::Late);
    }
    check(rules, value)
}

fn add_indexed(
    rules: &mut Rules,
    index: &mut EdgeIndex,
    sample: &Sample,
    begun: bool,
    value: &Value,
) -> Result<(), Cause>
    requires unbroken { AreUnbroken rules.old }
    requires index { IsIndex rules.old index.old sample.now }
    ensures answer { Gives (λ _. rules.new) result (with_namespace begun rules.old (view value.now)) }
    ensures index { OnOk result (IsIndex rules.new index.new sample.now) }
    ensures later { (at : ℕ) → IsLater at rules.old → IsLater at rules.new }
{
    let namespace = text_at(value, "name").unwrap_or("");
    let known = rules.relation_count(namespace);
    add(rules, begun, value)?;
    index.begin(rules, sample, namespace, known)?;
    Ok(())
}

/// Declares a namespace that is in force from the start on.
pub(crate) fn declare(
    alloc: Global,
    rules: &mut Rules,
    index: &mut EdgeIndex,
    sample: &Sample,
    begun: bool,
    value: &Value,
) -> Result<(), Cause>
    requires unbroken { AreUnbroken rules.old }
    requires index { IsIndex rules.old index.old sample.now }
    ensures answer { Gives (λ _. rules.new) result (with_namespace begun rules.old (view value.now)) }
    ensures index { IsIndex rules.new index.new sample.now }
    ensures dropped { OnErr result (rules.new ≡ []) }
    ensures later { OnOk result ((at : ℕ) → IsLater at rules.old → IsLater at rules.new) }
{
    let answer = add_indexed(rules, index, sample, begun, value);
    if answer.is_err() {
        index.give_up();
        *rules = Rules::new(alloc);
    }
    answer
}

fn make_change(
    rules: &mut Rules,
    index: &mut EdgeIndex,
    sample: &Sample,
    at: u64,
    value: &Value,
) -> Result<(), Cause>
    requires { MayChange at rules.old index.old sample.now }
    ensures answer { Gives (λ _. rules.new) result (changed_rules at rules.old sample.now (view value.now)) }
    ensures index { OnOk result (IsIndex rules.new index.new sample.now) }
    ensures later { (next : ℕ) → at < next → IsLater next rules.new }
{
    let namespace = text_at(value, "name").unwrap_or("");
    let known = rules.relation_count(namespace);
    match rules.change(at, value) {
        Ok(()) => {}
        Err(RulesFault::OutOfMemory) => return Err(Cause::OutOfMemory),
        Err(fault) => return Err(Cause::Namespace(fault)),
    }
    check(rules, value)?;
    let has_more = rules.relation_count(namespace) != known;
    index.follow(rules, sample, namespace, known, has_more)?;
    Ok(())
}

/// Declares a namespace, or gives one a new list of relations, in force from a timestamp on.
pub(crate) fn change(
    alloc: Global,
    rules: &mut Rules,
    index: &mut EdgeIndex,
    sample: &Sample,
    at: u64,
    value: &Value,
) -> Result<(), Cause>
    requires { MayChange at rules.old index.old sample.now }
    ensures answer { Gives (λ _. rules.new) result (changed_rules at rules.old sample.now (view value.now)) }
    ensures index { IsIndex rules.new index.new sample.now }
    ensures dropped { OnErr result (rules.new ≡ []) }
    ensures later { OnOk result ((next : ℕ) → at < next → IsLater next rules.new) }
{
    let answer = make_change(rules, index, sample, at, value);
    if answer.is_err() {
        index.give_up();
        *rules = Rules::new(alloc);
    }
    answer
}

/// Why a change that is not later than the last commit is refused.
pub(crate) fn late_change(rules: &Rules, last: u64, value: &Value) -> Cause
    ensures { (at : ℕ) → Fails result (refused_late last at rules.now (view value.now)) }
{
    match rules.try_change(value) {
        Ok(()) => {}
        Err(RulesFault::OutOfMemory) => return Cause::OutOfMemory,
        Err(fault) => return Cause::Namespace(fault),
    }
    match check_change(rules, value) {
        Ok(()) => Cause::Commit(AppendFault::NotLater { last }),
        Err(ChangeFault::Strata(edge)) => Cause::Strata(edge),
        Err(ChangeFault::OutOfMemory) => Cause::OutOfMemory,
    }
}
