//! What findings on tokens say of a trace, and what a trace without them is. Each function computes nothing: what it
//! ensures is the law.

ghost use Rattle.std.specs.Prelude.{◌≡◌, ℕ, Some, slice_get};
ghost use Rattle.trace_lines.specs.Values.{EntryValue};
ghost use Rattle.token_order.specs.Denied.{AreDenied};
ghost use Rattle.token_order.specs.Order.{IsInOrder};
ghost use Rattle.token_order.specs.Found.{order_of, HasNoOrderFindings};
ghost use Rattle.token_order.specs.Upheld.{AreUpheld};

use trace_lines::Trace;
use trace_lines::laws::{entries_rise, versions_issued_once};

/// Where nothing is found on the tokens of any entry, every content check covers all commits on earlier lines, every
/// entry is below all commits on later lines, and every check is as new as its zookie and as the content check of the
/// version that it names: it is at or above that check's snapshot, and covers all commits before it. Where content
/// was authorized, the token that was issued carries the snapshot (Zanzibar, section 2.4).
pub fn fresh_without_findings(trace: &Trace)
    ensures { HasNoOrderFindings trace.now → IsInOrder trace.now }
{
    unfound_is_upheld(trace);
}

/// Each finding on tokens denies what it is named for: F1 that the snapshot reaches the zookie, F2 that the check's
/// zookie demands the snapshot of its version, F3 that the content check is latest, F4 that the entry is closed, F5
/// that the token issued is a zookie which carries the snapshot, F6 that the version was issued on an earlier line
/// for the goal's object.
pub fn findings_deny(trace: &Trace)
    ensures { (i : ℕ) (e : EntryValue) → slice_get trace.now.entries i ≡ Some e
        → AreDenied trace.now e (order_of trace.now i e) }
{
    entries_rise(trace);
}

/// And nothing is missed: where a finding on tokens is not found on an entry, what it is named for holds of the entry,
/// whatever else is found. So the six findings on an entry are exactly what is wrong with its tokens.
pub fn unfound_is_upheld(trace: &Trace)
    ensures { (i : ℕ) (e : EntryValue) → slice_get trace.now.entries i ≡ Some e
        → AreUpheld trace.now e (order_of trace.now i e) }
{
    entries_rise(trace);
    versions_issued_once(trace);
}
