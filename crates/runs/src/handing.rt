//! The carry of a log.

ghost use Rattle.std.specs.Prelude.{◌≡◌, ◌≤◌, true, IfOk, IfSome, option_map};
ghost use Rattle.carry.specs.Values.{carry_value, item_values};
ghost use Rattle.runs.specs.DeclaredTexts.{declared_in, texts_of};
ghost use Rattle.runs.specs.Handed.{AreDeclarationsOf, IsCarryOf, IsHandedOn};

use crate::beginning::begin;
use crate::declared::DeclaredLine;
use crate::fault::BeginFault;
use crate::known::{stays_known, versions_from};
use crate::making::{base_of, items_of};
use crate::standing::stands_in_from;
use carry::{Carry, Item, Said};
use carry_laws::Known;
use std::alloc::{AllocError, Global};
use trace_lines::Trace;

/// Whether the items declare these lines, one behind the other.
fn are_declaring(items: &[Item<'_>], declared: &[DeclaredLine]) -> bool
    ensures { result ≡ true → declared_in (item_values items.now) ≡ texts_of declared.now }
{
    let mut k = 0;
    // bounded by the items: each turn looks at one
    for item in items {
        match item.said {
            Said::Declares(text) => {
                if k == declared.len() || declared[k].text.as_str() != text {
                    return false;
                }
                k += 1;
            }
            Said::Commits(_) => {}
            Said::Records(_) => {}
        }
    }
    k == declared.len()
}

/// Whether what a carry begins stands in for a log, whoever made the carry. It looks for the entries that [`hand_on`]
/// keeps, so of a carry with others it says no.
///
/// It is refused only where memory runs out.
pub fn is_carry_of(
    alloc: Global,
    log: &Trace,
    declared: &[DeclaredLine],
    carry: &Carry<'_>,
) -> Result<bool, AllocError>
    requires { AreDeclarationsOf log.now (texts_of declared.now) }
    ensures { IfOk result (λ b. b ≡ true → IsCarryOf log.now (carry_value carry.now)) }
{
    if !are_declaring(&carry.items, declared) {
        return Ok(false);
    }
    let begun = match begin(alloc, carry) {
        Ok(begun) => begun.finish(),
        Err(BeginFault::OutOfMemory) => return Err(AllocError),
        Err(_) => return Ok(false),
    };
    let known = Known {
        base: carry.base,
        versions: carry.versions,
    };
    match stands_in_from(log, &begun, known) {
        // a line behind the last one is no line of the log that goes on
        Some(first) => Ok(first.saturating_sub(1) <= carry.lines),
        None => Ok(false),
    }
}

/// What of a log is to be handed on.
#[derive(Clone, Copy)]
pub struct Wanted<'a> {
    /// How many lines of the whole log came before the next run's.
    pub lines: u64,
    /// The base is up to this timestamp.
    pub oldest: u64,
    /// So many of the versions that were issued last are carried, and more where waiting entries name earlier ones; all
    /// where it is `None`.
    pub versions: Option<u64>,
    /// What tells the carry before from others, where there is one.
    pub before: Option<&'a str>,
}

/// What a run hands to the next that knows so much of its log: a carry whose log stands in for this one. Its base is the
/// last commit up to the wanted timestamp that no entry which is not settled stands in front of, and no change of the
/// rules makes; where there is none, or it is below the base that is known, there is no carry. The lines that declare
/// namespaces are given in their order.
///
/// It is refused only where memory runs out.
pub fn hand_on<'a>(
    alloc: Global,
    log: &'a Trace,
    declared: &'a [DeclaredLine],
    known: Known,
    wanted: Wanted<'a>,
) -> Result<Option<Carry<'a>>, AllocError>
    requires { AreDeclarationsOf log.now (texts_of declared.now) }
    ensures carry { IfOk result (λ o. IfSome o (λ c. IsHandedOn known log.now (carry_value c))) }
    ensures names { IfOk result (λ o. IfSome o (λ c. (c.lines ≡ wanted.entry.lines) × (c.base ≤ wanted.entry.oldest)
        × (option_map (λ s. s.now) c.before ≡ option_map (λ s. s.now) wanted.entry.before))) }
{
    let Some((commit, base)) = base_of(log, declared, wanted.oldest) else {
        return Ok(None);
    };
    let versions = versions_from(log, known.versions, wanted.versions, wanted.lines);
    if base < known.base
        || versions < known.versions
        || !stays_known(log, known.versions, versions)
    {
        return Ok(None);
    }
    let carry = Carry {
        lines: wanted.lines,
        base,
        versions,
        before: wanted.before,
        items: items_of(alloc, log, declared, commit, versions)?,
    };
    if is_carry_of(alloc, log, declared, &carry)? {
        Ok(Some(carry))
    } else {
        Ok(None)
    }
}
