//! Findings, and their lines in the report.

ghost use Rattle.std.specs.Prelude.{◌≡◌, ◌++◌, string_bytes, is_ok, OnOk, if◌then◌else◌};
ghost use Rattle.findings.specs.Report.{what_text, line_text};

use std::alloc::AllocError;

/// What is wrong with a recorded decision. A number L is a line of the trace, and K a step of the evidence, from 1.
#[derive(Clone, Copy, Debug, PartialEq, Eq)]
pub enum What {
    /// A check at a snapshot before its zookie.
    Stale,
    /// A check of a content version whose zookie is absent or older than the version, issued on line L.
    OldToken(u64),
    /// A content check that was not evaluated at the latest snapshot, where line L has the last commit before it.
    NotLatest(u64),
    /// A decision at a snapshot that a later commit, on line L, could still change.
    OpenSnapshot(u64),
    /// A content check that issued no zookie of its snapshot.
    WrongToken,
    /// A check of a version that nobody issued before.
    UnknownVersion,
    NoEvidence,
    /// Step K is not accepted.
    BadEvidence(u64),
    /// The evidence does not settle the decision.
    Silent,
    /// The evidence proves the other reply.
    WrongReply,
}

/// Something that is wrong with the decision on a line of the trace.
#[derive(Clone, Copy, Debug, PartialEq, Eq)]
pub struct Finding {
    pub line: u64,
    pub what: What,
}

fn push_what(what: What, text: &mut String) -> Result<(), AllocError>
    ensures { OnOk result (string_bytes text.new ≡ string_bytes text.old ++ what_text what) }
{
    match what {
        What::Stale => text.push_str("F1 stale"),
        What::OldToken(l) => write!(text, "F2 old token, see line {l}"),
        What::NotLatest(l) => write!(text, "F3 not latest, see line {l}"),
        What::OpenSnapshot(l) => write!(text, "F4 open snapshot, see line {l}"),
        What::WrongToken => text.push_str("F5 wrong token"),
        What::UnknownVersion => text.push_str("F6 unknown version"),
        What::NoEvidence => text.push_str("F7 no evidence"),
        What::BadEvidence(k) => write!(text, "F8 bad evidence at step {k}"),
        What::Silent => text.push_str("F9 silent evidence"),
        What::WrongReply => text.push_str("F10 wrong reply"),
    }
}

/// Appends the report's line of a finding. Where memory runs out, the string stays as it was.
pub fn report_line(finding: &Finding, out: &mut String) -> Result<(), AllocError>
    ensures { string_bytes out.new ≡ (if is_ok result then string_bytes out.old
        ++ line_text finding.now else string_bytes out.old) }
{
    let mut text = String::new(*out.allocator());
    let line = finding.line;
    write!(text, "line {line}: ")?;
    push_what(finding.what, &mut text)?;
    text.push('\n')?;
    out.push_str(text.as_str())
}
