//! Lines that commit changes.

ghost use Rattle.serde_json.specs.View.{view};
ghost use Rattle.trace_lines.specs.Causes.{Gives};
ghost use Rattle.trace_lines.specs.LineViews.{commit_value};
ghost use Rattle.trace_lines.specs.Traces.{commit_of};

use crate::cause::Cause;
use crate::texts::tuples_of;
use json_lines::fields::{number_at, strings_at};
use serde_json::Value;
use std::alloc::Global;
use tuple_text::TupleRef;

/// What a line commits. The tuples borrow from the line.
pub(crate) struct CommitRef<'a> {
    pub(crate) at: u64,
    pub(crate) adds: Vec<TupleRef<'a>>,
    pub(crate) removes: Vec<TupleRef<'a>>,
}

impl<'a> Drop for CommitRef<'a> {
    fn drop(self) {
        let CommitRef {
            at: _,
            adds,
            removes,
        } = self;
        drop(adds);
        drop(removes);
    }
}

/// What a line commits.
#[tactic(auto, unfolding(crate::specs::Traces::commit_of))]
pub(crate) fn commit_of<'a>(alloc: Global, value: &'a Value) -> Result<CommitRef<'a>, Cause>
    ensures { Gives commit_value result (commit_of (view value.now)) }
{
    let at = number_at(value, "at").ok_or(Cause::Shape)?;
    let add = strings_at(value, "add").ok_or(Cause::Shape)?;
    let remove = strings_at(value, "remove").ok_or(Cause::Shape)?;
    let adds = tuples_of(alloc, add)?;
    let removes = tuples_of(alloc, remove)?;
    Ok(CommitRef { at, adds, removes })
}
