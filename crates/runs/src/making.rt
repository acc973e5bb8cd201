//! The items of a carry. Nothing is promised of them: what they begin is compared with the log.

ghost use Rattle.std.specs.Prelude.{◌<◌, ◌≤◌, length, IfSome};
ghost use Rattle.runs.specs.Making.{IsBelow, IsThere};

use crate::alike::{goes_on, is_above_all, stores};
use crate::declared::DeclaredLine;
use carry::{CarriedCheck, CarriedCommit, CheckKind, Item, Said};
use std::alloc::{AllocError, Global};
use trace_lines::{Entry, EntryKind, Trace};
use tuple_text::TupleRef;
use version_chains::{Chains, TouchRef};

/// The line of the first entry that is not settled, or the greatest number.
fn first_open(log: &Trace) -> u64 {
    // bounded by the entries: each turn looks at one
    for i in 0..log.len() {
        let entry = log.entry(i);
        if is_above_all(log, entry.snapshot) {
            return entry.line;
        }
    }
    u64::MAX
}

/// How many of the first declarations stand up to a line, where no more than so many do.
fn count_up_to(declared: &[DeclaredLine], count: usize, line: u64) -> usize
    requires { count ≤ length declared.now }
    ensures { result ≤ count }
{
    let mut count = count;
    // all calls of one carry together take a turn for a declaration at most
    while count > 0 && line < declared[count - 1].line {
        count -= 1;
    }
    count
}

/// The last commit that the base may be, by its number and its timestamp: it is up to another timestamp, no entry that
/// is not settled stands in front of it, and it is none that a change of the rules makes.
pub(crate) fn base_of(log: &Trace, declared: &[DeclaredLine], oldest: u64) -> Option<(usize, u64)>
    ensures there { IfSome result (λ c. c.0 < length log.now.commits) }
    ensures base { IfSome result (λ c. c.1 ≤ oldest) }
{
    let times = log.chains().commits();
    let open = first_open(log);
    let mut earlier = declared.len();
    let mut c = times.len();
    // bounded by the commits: each turn looks at one
    while c > 0 {
        c -= 1;
        let line = log.commit_line(c);
        earlier = count_up_to(declared, earlier, line);
        let is_change = earlier > 0 && declared[earlier - 1].line == line;
        if times[c] <= oldest && line < open && !is_change {
            return Some((c, times[c]));
        }
    }
    None
}

fn push_tuple<'a>(touch: TouchRef<'a>, tuples: &mut Vec<TupleRef<'a>>) -> Result<(), AllocError> {
    if let Some(tuple) = TupleRef::of(touch.set, touch.user.user) {
        tuples.push(tuple)?;
    }
    Ok(())
}

/// The commit that stores what is stored at a timestamp.
fn store_at<'a>(
    alloc: Global,
    chains: &'a Chains,
    at: u64,
) -> Result<CarriedCommit<'a>, AllocError> {
    let mut adds = Vec::new(alloc);
    // bounded by the touches: each turn looks at one
    for i in 0..usize::MAX {
        let Some(touch) = chains.touch(i) else {
            break;
        };
        if touch.older == 0 && stores(chains, touch, at) {
            push_tuple(touch, &mut adds)?;
        }
    }
    let removes = Vec::new(alloc);
    Ok(CarriedCommit { at, adds, removes })
}

/// The commit at a timestamp, whose touches stand from an index on, which is then behind them.
fn commit_at<'a>(
    alloc: Global,
    chains: &'a Chains,
    at: u64,
    from: &mut usize,
) -> Result<CarriedCommit<'a>, AllocError> {
    let mut adds = Vec::new(alloc);
    let mut removes = Vec::new(alloc);
    // all calls of one carry together take a turn for a touch, and one for a commit
    for i in *from..usize::MAX {
        let Some(touch) = chains.touch(i) else {
            break;
        };
        if at < touch.at {
            break;
        }
        if touch.at == at {
            if touch.live {
                push_tuple(touch, &mut adds)?;
            } else {
                push_tuple(touch, &mut removes)?;
            }
        }
        *from = i + 1;
    }
    Ok(CarriedCommit { at, adds, removes })
}

fn check_of<'a>(entry: &Entry<'a>) -> CarriedCheck<'a> {
    CarriedCheck {
        kind: match entry.kind {
            EntryKind::Check => CheckKind::Check,
            EntryKind::Content => CheckKind::Content,
        },
        reply: entry.reply,
        goal: entry.goal,
        snapshot: entry.snapshot,
        zookie: entry.zookie,
        version: entry.version,
    }
}

/// What the next line says.
#[derive(Clone, Copy, Drop)]
enum Next {
    Declares,
    Commits,
    Records,
}

/// What stands on the least line from a declaration, a commit and an entry on, if there is one of these. A change of
/// the rules comes before the commit that it makes.
fn next_of(
    log: &Trace,
    declared: &[DeclaredLine],
    declaration: usize,
    commit: usize,
    entry: usize,
) -> Option<Next>
    ensures { IfSome result (IsThere (IsBelow declaration (length declared.now))
        (IsBelow commit (length log.now.commits)) (IsBelow entry (length log.now.entries))) }
{
    let mut next = None;
    let mut line = u64::MAX;
    if entry < log.len() {
        line = log.entry(entry).line;
        next = Some(Next::Records);
    }
    if commit < log.chains().commits().len() && log.commit_line(commit) <= line {
        line = log.commit_line(commit);
        next = Some(Next::Commits);
    }
    if declaration < declared.len() && declared[declaration].line <= line {
        next = Some(Next::Declares);
    }
    next
}

/// Commit `c` of a log, where the one that the base is stores all that is stored then.
fn committed<'a>(
    alloc: Global,
    log: &'a Trace,
    c: usize,
    base: usize,
    touch: &mut usize,
) -> Result<Item<'a>, AllocError>
    requires { c < length log.now.commits }
{
    let at = log.chains().commits()[c];
    let commit = if c == base {
        store_at(alloc, log.chains(), at)?
    } else {
        commit_at(alloc, log.chains(), at, touch)?
    };
    Ok(Item {
        line: log.commit_line(c),
        said: Said::Commits(commit),
    })
}

/// The items of a carry of which a commit of the log is the base, and which has the versions issued from a line on.
pub(crate) fn items_of<'a>(
    alloc: Global,
    log: &'a Trace,
    declared: &'a [DeclaredLine],
    base: usize,
    versions: u64,
) -> Result<Vec<Item<'a>>, AllocError> {
    let mut items = Vec::new(alloc);
    let mut d = 0;
    let mut c = base;
    let mut e = 0;
    let mut touch = 0;
    // bounded by the log: each turn goes over a declaration, a commit or an entry
    while let Some(next) = next_of(log, declared, d, c, e) {
        match next {
            Next::Declares => {
                let line = declared[d].line;
                let text = declared[d].text.as_str();
                items.push(Item {
                    line,
                    said: Said::Declares(text),
                })?;
                d += 1;
                if c < log.chains().commits().len() && log.commit_line(c) == line {
                    c += 1;
                }
            }
            Next::Commits => {
                items.push(committed(alloc, log, c, base, &mut touch)?)?;
                c += 1;
            }
            Next::Records => {
                if goes_on(log, versions, e) {
                    let entry = log.entry(e);
                    items.push(Item {
                        line: entry.line,
                        said: Said::Records(check_of(&entry)),
                    })?;
                }
                e += 1;
            }
        }
    }
    Ok(items)
}
