//! Recorded decisions.

ghost use Rattle.std.specs.Prelude.{◌≡◌};
ghost use Rattle.trace_lines.specs.EntryViews.{entry_value};
ghost use Rattle.trace_lines.specs.LineValues.{placed_at};

use tuple_text::FactRef;
use zookie::Zookie;

/// What was asked (Zanzibar, section 2.4).
#[derive(Clone, Copy, Debug, PartialEq, Eq)]
pub enum EntryKind {
    /// A check at the snapshot of a request's zookie, or a later one.
    Check,
    /// A check before a change of content, at the latest snapshot.
    Content,
}

/// A recorded decision. Its texts are borrowed from the trace that keeps it, or from the line that says it.
#[derive(Clone, Copy, Debug)]
pub struct Entry<'a> {
    pub kind: EntryKind,
    pub reply: bool,
    /// The line that it stands on, from 1.
    pub line: u64,
    pub goal: FactRef<'a>,
    /// The timestamp at which it was evaluated.
    pub snapshot: u64,
    /// The zookie of a check's request, or the one that a content check issued.
    pub zookie: Option<Zookie>,
    /// The label of the content's version, 1 to 128 bytes.
    pub version: Option<&'a str>,
    /// How many commits stand on earlier lines.
    pub before: usize,
}

impl<'a> Entry<'a> {
    /// The same decision on this line, behind so many commits.
    pub(crate) fn placed(&self, line: u64, before: usize) -> Entry<'a>
        ensures { entry_value result ≡ placed_at line before (entry_value self.now) }
    {
        Entry {
            kind: self.kind,
            reply: self.reply,
            line,
            goal: self.goal,
            snapshot: self.snapshot,
            zookie: self.zookie,
            version: self.version,
            before,
        }
    }
}
