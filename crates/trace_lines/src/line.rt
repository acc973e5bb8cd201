//! A line of a trace by itself, whatever stands before it.

ghost use Rattle.std.specs.Prelude.{◌≡◌, IfOk, IfSome, Some};
ghost use Rattle.serde_json.specs.Read.{read};
ghost use Rattle.serde_json.specs.View.{view};
ghost use Rattle.trace_lines.specs.Causes.{Gives};
ghost use Rattle.tuple_text.specs.TupleRefs.{tuple_values};
ghost use Rattle.trace_lines.specs.EntryViews.{entry_value};
ghost use Rattle.trace_lines.specs.LineValues.{commits, declares, entry_in, line_of_text, line_said, records};
ghost use Rattle.trace_lines.specs.LineViews.{IsOfItsText, line_value, said_value};

use crate::cause::Cause;
use crate::checks::{entry_from, entry_of};
use crate::commits::{CommitRef, commit_of};
use crate::entries::OwnedEntry;
use crate::entry::{Entry, EntryKind};
use crate::owned::OwnedCommit;
use crate::written::{check_written, commit_written};
use json_lines::fields::text_at;
use json_lines::read_value;
use serde_json::Value;
use std::alloc::{AllocError, Global};
use std::marker::Model;
use tuple_text::TupleRef;

/// A line that declares a namespace: its text, and the value that this is.
#[derive(Clone, Copy, Drop)]
pub(crate) struct DeclarationRef<'a> {
    text: &'a str,
    pub(crate) value: &'a Value,
}

/// What a line says, borrowed from where it was read.
#[derive(Drop)]
pub(crate) enum Line<'a> {
    Declares(DeclarationRef<'a>),
    Commits(CommitRef<'a>),
    /// An entry, whose place is not known.
    Records(Entry<'a>),
}

/// What a line of this value says that records a check.
fn entry_in<'a>(kind: EntryKind, value: &'a Value) -> Result<Line<'a>, Cause>
    ensures said { Gives line_value result (entry_in kind (view value.now)) }
    ensures of_text { IfOk result IsOfItsText }
{
    match entry_of(kind, 0, 0, value) {
        Ok(entry) => Ok(Line::Records(entry)),
        Err(cause) => Err(cause),
    }
}

/// What a line of this text and value says.
#[tactic(auto, unfolding(crate::specs::LineValues::line_said))]
fn line_of<'a>(alloc: Global, text: &'a str, value: &'a Value) -> Result<Line<'a>, Cause>
    requires { read text.now ≡ Some (view value.now) }
    ensures said { Gives line_value result (line_said text.now (view value.now)) }
    ensures of_text { IfOk result IsOfItsText }
{
    match text_at(value, "kind") {
        Some(kind) => {
            if kind == "namespace" {
                Ok(Line::Declares(DeclarationRef { text, value }))
            } else if kind == "commit" {
                Ok(Line::Commits(commit_of(alloc, value)?))
            } else if kind == "content" {
                entry_in(EntryKind::Content, value)
            } else if kind == "check" {
                entry_in(EntryKind::Check, value)
            } else {
                Err(Cause::Kind)
            }
        }
        None => Err(Cause::Kind),
    }
}

/// What a line of this text says, where it is written plainly.
fn written_line<'a>(alloc: Global, text: &'a str) -> Option<Result<Line<'a>, Cause>>
    ensures said { IfSome result (λ r. Gives line_value r (line_of_text text.now)) }
    ensures of_text { IfSome result (λ r. IfOk r IsOfItsText) }
{
    if let Some((kind, check)) = check_written(text) {
        return match entry_from(kind, 0, 0, check) {
            Ok(entry) => Some(Ok(Line::Records(entry))),
            Err(cause) => Some(Err(cause)),
        };
    }
    match commit_written(alloc, text) {
        Ok(Some(commit)) => Some(Ok(Line::Commits(commit))),
        Ok(None) => None,
        Err(_) => Some(Err(Cause::OutOfMemory)),
    }
}

/// What a line of this text says. Where the text is not written plainly, it is read as JSON into `value`, from which
/// the line borrows then.
pub(crate) fn parse_line<'a>(
    alloc: Global,
    text: &'a str,
    value: &'a mut Option<Value>,
) -> Result<Line<'a>, Cause>
    ensures said { Gives line_value result (line_of_text text.now) }
    ensures of_text { IfOk result IsOfItsText }
{
    if let Some(line) = written_line(alloc, text) {
        return line;
    }
    *value = read_value(alloc, text)?;
    match value {
        Some(value) => line_of(alloc, text, value),
        None => Err(Cause::NotJson),
    }
}

/// What a line says, in texts of its own.
#[derive(Drop)]
pub(crate) enum Said {
    /// It declares a namespace; the text is that of the line.
    Declares(String),
    Commits(OwnedCommit),
    /// An entry, whose place is not known.
    Records(OwnedEntry),
}

/// What a line of a trace says by itself, in texts of its own.
#[derive(Drop)]
pub struct TraceLine {
    said: Said,
}

impl Model for TraceLine {
    ghost use Rattle.trace_lines.specs.LineValues.{LineValue};
    ghost use Rattle.trace_lines.specs.LineCode.{line_code};

    ghost Value = { LineValue };

    ghost coded = { line_code };

    ghost use Rattle.trace_lines.specs.LineViews.{commit_value, said_value};

    ghost view = { λ l. said_value l.said };
}

impl TraceLine {
    /// The line, copied.
    fn of(alloc: Global, line: &Line<'_>) -> Result<TraceLine, AllocError>
        ensures { IfOk result (λ l. l ≡ line_value line.now) }
    {
        match line {
            Line::Declares(declaration) => TraceLine::declaring(alloc, declaration.text),
            Line::Commits(commit) => {
                TraceLine::committing(alloc, commit.at, &commit.adds, &commit.removes)
            }
            Line::Records(entry) => TraceLine::recording(alloc, entry),
        }
    }

    /// The line that declares the namespace which this text describes.
    pub fn declaring(alloc: Global, text: &str) -> Result<TraceLine, AllocError>
        ensures { IfOk result (λ l. l ≡ declares text.now) }
    {
        let said = Said::Declares(String::from_str(alloc, text)?);
        Ok(TraceLine { said })
    }

    /// The line that commits these changes at a timestamp.
    pub fn committing(
        alloc: Global,
        at: u64,
        adds: &[TupleRef<'_>],
        removes: &[TupleRef<'_>],
    ) -> Result<TraceLine, AllocError>
        ensures { IfOk result (λ l. l ≡ commits (record {
          at = at;
          adds = tuple_values adds.now;
          removes = tuple_values removes.now;
        })) }
    {
        let said = Said::Commits(OwnedCommit::of(alloc, at, adds, removes)?);
        Ok(TraceLine { said })
    }

    /// The line that records an entry, whatever place that has.
    pub fn recording(alloc: Global, entry: &Entry<'_>) -> Result<TraceLine, AllocError>
        ensures { IfOk result (λ l. l ≡ records (entry_value entry.now)) }
    {
        let said = Said::Records(OwnedEntry::of(alloc, entry)?);
        Ok(TraceLine { said })
    }

    /// What a line says.
    pub fn read(alloc: Global, text: &str) -> Result<TraceLine, Cause>
        ensures { Gives (λ l. l) result (line_of_text text.now) }
    {
        let mut value = None;
        let line = parse_line(alloc, text, &mut value)?;
        Ok(TraceLine::of(alloc, &line)?)
    }

    pub(crate) fn into_said(self) -> Said
        ensures { said_value result ≡ self }
    {
        self.said
    }
}
