//! Whether two logs say the same from a timestamp on, and store the same there.

ghost use Rattle.std.specs.Prelude.{◌≡◌, ◌∷◌, ◌≤◌, ◌<◌, ℕ, [], true, length, drop, filter, map, slice_get, Some, IfSome, option_map};
ghost use Rattle.tuple_text.specs.FactRefs.{fact_value};
ghost use Rattle.tuple_text.specs.Order.{fact_eq, user_eq};
ghost use Rattle.tuple_text.specs.Refs.{set_value, user_value};
ghost use Rattle.tuple_text.specs.Sets.{set_eq};
ghost use Rattle.tuple_text.specs.Tuples.{TupleValue};
ghost use Rattle.version_chains.specs.Commits.{changelog, is_stored};
ghost use Rattle.version_chains.specs.Touches.{touch_value};
ghost use Rattle.trace_lines.specs.Values.{EntryValue};
ghost use Rattle.token_order.specs.Order.{commit_lines_of};
ghost use Rattle.carry_laws.specs.Carried.{placeless};
ghost use Rattle.runs.specs.Alike.{commits_above, goes_on, is_above, is_open, issues_some, last_time, touch_eq, touches_above};

use marks::MarkedSet;
use trace_lines::laws::stand_in_order;
use trace_lines::{EntryKind, Trace};
use tuple_text::{FactRef, SetRef, UserRef};
use version_chains::{Chains, TouchRef};
use zookie::Zookie;

fn is_same_set(one: SetRef<'_>, other: SetRef<'_>) -> bool
    ensures { result ≡ set_eq (set_value one.entry) (set_value other.entry) }
{
    one == other
}

fn is_same_user(one: UserRef<'_>, other: UserRef<'_>) -> bool
    ensures { result ≡ user_eq (user_value one.entry) (user_value other.entry) }
{
    match (one, other) {
        (UserRef::Id(one), UserRef::Id(other)) => one == other,
        (UserRef::Set(one), UserRef::Set(other)) => is_same_set(one, other),
        (UserRef::Id(_), UserRef::Set(_)) | (UserRef::Set(_), UserRef::Id(_)) => false,
    }
}

fn is_same_touch(one: TouchRef<'_>, other: TouchRef<'_>) -> bool
    ensures { result ≡ touch_eq (touch_value one.entry) (touch_value other.entry) }
{
    let live = if one.live { other.live } else { !other.live };
    let tuple = is_same_set(one.set, other.set) && is_same_user(one.user.user, other.user.user);
    one.at == other.at && (live && tuple)
}

/// The first touch above a timestamp from an index on, and the index behind it.
fn next_above(chains: &Chains, from: usize, base: u64) -> Option<(usize, TouchRef<'_>)>
    ensures { IfSome result (λ x. touches_above base (drop from (changelog chains.now.commits))
        ≡ touch_value x.1 ∷ touches_above base (drop x.0 (changelog chains.now.commits))) }
{
    // bounded by the touches: each turn passes over one
    for i in from..usize::MAX {
        let touch = chains.touch(i)?;
        if base < touch.at {
            return Some((i + 1, touch));
        }
    }
    None
}

/// Whether no touch from an index on is above a timestamp.
fn is_none_above(chains: &Chains, from: usize, base: u64) -> bool
    ensures { result ≡ true → touches_above base (drop from (changelog chains.now.commits)) ≡ [] }
{
    // bounded by the touches: each turn passes over one
    for i in from..usize::MAX {
        let Some(touch) = chains.touch(i) else {
            return true;
        };
        if base < touch.at {
            return false;
        }
    }
    false
}

/// Whether both have the same touches above a timestamp, in the same order.
pub(crate) fn are_touches_alike(log: &Chains, other: &Chains, base: u64) -> bool
    ensures { result ≡ true → touches_above base (changelog log.now.commits)
        ≡ touches_above base (changelog other.now.commits) }
{
    let mut j = 0;
    // bounded by the touches of the log: each turn passes over one
    for i in 0..usize::MAX {
        let Some(touch) = log.touch(i) else {
            return is_none_above(other, j, base);
        };
        if base < touch.at {
            let Some((behind, same)) = next_above(other, j, base) else {
                return false;
            };
            if !is_same_touch(touch, same) {
                return false;
            }
            j = behind;
        }
    }
    false
}

/// Whether the tuple of a touch is stored at a timestamp.
pub(crate) fn stores(chains: &Chains, touch: TouchRef<'_>, at: u64) -> bool
    ensures { result ≡ is_stored chains.now.commits at (touch_value touch.entry).tuple }
{
    let set = MarkedSet::of(touch.set);
    match touch.user.user {
        UserRef::Id(user) => chains.has_id(set, user, at),
        UserRef::Set(user) => chains.has_set(set, MarkedSet::of(user), at),
    }
}

/// Whether all that one stores at a timestamp is stored in the other then.
pub(crate) fn are_all_stored(log: &Chains, other: &Chains, at: u64) -> bool
    ensures { result ≡ true → (t : TupleValue) → is_stored log.now.commits at t ≡ true
        → is_stored other.now.commits at t ≡ true }
{
    // bounded by the touches of the log: each turn looks at one
    for i in 0..usize::MAX {
        let Some(touch) = log.touch(i) else {
            return true;
        };
        if stores(log, touch, at) && !stores(other, touch, at) {
            return false;
        }
    }
    false
}

/// The number of the first commit above a timestamp, or of all commits.
fn first_above(log: &Trace, base: u64) -> usize
    ensures within { result ≤ length log.now.commits }
    ensures same { commits_above base (drop result (commit_lines_of log.now))
        ≡ commits_above base (commit_lines_of log.now) }
{
    stand_in_order(log);
    let times = log.chains().commits();
    let mut first = 0;
    // bounded by the commits: each turn passes over one
    while first < times.len() && times[first] <= base {
        first += 1;
    }
    first
}

/// Whether both have commits at the same timestamps above one, on the same lines.
pub(crate) fn are_lines_alike(log: &Trace, other: &Trace, base: u64) -> bool
    ensures { result ≡ true → commits_above base (commit_lines_of log.now)
        ≡ commits_above base (commit_lines_of other.now) }
{
    stand_in_order(log);
    stand_in_order(other);
    let times = log.chains().commits();
    let others = other.chains().commits();
    let i = first_above(log, base);
    let j = first_above(other, base);
    if times.len() - i != others.len() - j {
        return false;
    }
    // bounded by the commits: each turn compares one
    for k in 0..times.len() - i {
        if times[i + k] != others[j + k] || log.commit_line(i + k) != other.commit_line(j + k) {
            return false;
        }
    }
    true
}

fn is_same_goal(one: FactRef<'_>, other: FactRef<'_>) -> bool
    ensures { result ≡ fact_eq (fact_value one.entry) (fact_value other.entry) }
{
    is_same_set(one.set(), other.set()) && one.user() == other.user()
}

fn is_same_zookie(one: Option<Zookie>, other: Option<Zookie>) -> bool
    ensures { result ≡ true → one ≡ other }
{
    one == other
}

fn is_same_label(one: Option<&str>, other: Option<&str>) -> bool
    ensures { result ≡ true → option_map (λ s. s.now) one.entry ≡ option_map (λ s. s.now) other.entry }
{
    match (one, other) {
        (None, None) => true,
        (Some(one), Some(other)) => one == other,
        (None, Some(_)) | (Some(_), None) => false,
    }
}

/// Whether an entry of each says the same on the same line.
fn is_same_entry(log: &Trace, i: usize, other: &Trace, j: usize) -> bool
    requires entry { i < length log.now.entries }
    requires other { j < length other.now.entries }
    ensures { result ≡ true → (d e : EntryValue) → slice_get log.now.entries i ≡ Some d
        → slice_get other.now.entries j ≡ Some e → placeless d ≡ placeless e }
{
    let one = log.entry(i);
    let two = other.entry(j);
    one.kind == two.kind
        && one.line == two.line
        && one.reply == two.reply
        && one.snapshot == two.snapshot
        && is_same_goal(one.goal, two.goal)
        && is_same_zookie(one.zookie, two.zookie)
        && is_same_label(one.version, two.version)
}

/// Whether no commit is at or above a timestamp.
pub(crate) fn is_above_all(log: &Trace, at: u64) -> bool
    ensures { result ≡ is_above (last_time log.now) at }
{
    match log.chains().commits().last() {
        Some(last) => *last < at,
        None => true,
    }
}

/// Whether an entry issues a version.
pub(crate) fn issues_some(log: &Trace, i: usize) -> bool
    requires { i < length log.now.entries }
    ensures { (e : EntryValue) → slice_get log.now.entries i ≡ Some e → result ≡ issues_some e.kind e.version }
{
    let entry = log.entry(i);
    match entry.kind {
        EntryKind::Check => false,
        EntryKind::Content => entry.version.is_some(),
    }
}

/// Whether an entry is still to be judged, or a later check may name its version, of those issued from a line on.
pub(crate) fn goes_on(log: &Trace, from: u64, i: usize) -> bool
    requires { i < length log.now.entries }
    ensures { (e : EntryValue) → slice_get log.now.entries i ≡ Some e → result ≡ goes_on from log.now e }
{
    let entry = log.entry(i);
    is_above_all(log, entry.snapshot) || (issues_some(log, i) && from <= entry.line)
}

/// Whether the entries of the other are those of the log that go on, of versions those issued from a line on.
pub(crate) fn are_entries_alike(log: &Trace, other: &Trace, from: u64) -> bool
    ensures { result ≡ true → map placeless (filter (goes_on from log.now) log.now.entries)
        ≡ map placeless other.now.entries }
{
    let mut j = 0;
    // bounded by the entries of the log: each turn looks at one
    for i in 0..log.len() {
        if goes_on(log, from, i) {
            if j == other.len() || !is_same_entry(log, i, other, j) {
                return false;
            }
            j += 1;
        }
    }
    j == other.len()
}

/// Whether the entries that are not settled stand from a line on.
pub(crate) fn are_open_from(log: &Trace, first: u64) -> bool
    ensures { result ≡ true → (i : ℕ) (e : EntryValue) → slice_get log.now.entries i ≡ Some e
        → is_open log.now e ≡ true → first ≤ e.line }
{
    // bounded by the entries: each turn looks at one
    for i in 0..log.len() {
        let entry = log.entry(i);
        if entry.line < first && is_above_all(log, entry.snapshot) {
            return false;
        }
    }
    true
}
