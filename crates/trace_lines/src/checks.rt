//! Lines that record a check, of content or not.

ghost use Rattle.std.specs.Prelude.{◌≡◌, ℕ, Some};
ghost use Rattle.serde_json.specs.View.{view};
ghost use Rattle.trace_lines.specs.Causes.{Gives};
ghost use Rattle.trace_lines.specs.Said.{entry_said};
ghost use Rattle.trace_lines.specs.EntryViews.{entry_value};
ghost use Rattle.trace_lines.specs.Traces.{entry_of};

use crate::cause::Cause;
use crate::entry::{Entry, EntryKind};
use crate::texts::{goal_of, token_of, version_at};
use json_lines::fields::{flag_at, number_at, optional_text_at, text_at};
use serde_json::Value;

/// What the fields of a check say.
#[derive(Clone, Copy)]
pub(crate) struct Said<'a> {
    pub(crate) goal: &'a str,
    pub(crate) snapshot: u64,
    pub(crate) reply: bool,
    pub(crate) zookie: Option<&'a str>,
    pub(crate) version: Option<&'a str>,
}

/// What the fields of a line say, where each is of its shape.
#[tactic(auto, unfolding(crate::specs::Traces::entry_of))]
fn said_in<'a>(kind: EntryKind, value: &'a Value) -> Option<Said<'a>>
    ensures { (line before : ℕ) → entry_of kind line before (view value.now) ≡ entry_said kind line before result }
{
    let goal = text_at(value, "goal")?;
    let snapshot = number_at(value, "snapshot")?;
    let reply = flag_at(value, "reply")?;
    let zookie = optional_text_at(value, "zookie")?;
    let version = version_at(kind, reply, value)?;
    Some(Said {
        goal,
        snapshot,
        reply,
        zookie,
        version,
    })
}

/// The check that a line records.
pub(crate) fn entry_of<'a>(
    kind: EntryKind,
    line: u64,
    before: usize,
    value: &'a Value,
) -> Result<Entry<'a>, Cause>
    ensures { Gives entry_value result (entry_of kind line before (view value.now)) }
{
    let said = said_in(kind, value).ok_or(Cause::Shape)?;
    entry_from(kind, line, before, said)
}

/// The check that says this.
pub(crate) fn entry_from<'a>(
    kind: EntryKind,
    line: u64,
    before: usize,
    said: Said<'a>,
) -> Result<Entry<'a>, Cause>
    ensures { Gives entry_value result (entry_said kind line before (Some said.entry)) }
{
    let goal = goal_of(said.goal)?;
    let zookie = token_of(said.zookie)?;
    Ok(Entry {
        kind,
        line,
        goal,
        snapshot: said.snapshot,
        reply: said.reply,
        zookie,
        version: said.version,
        before,
    })
}
