//! A log with the texts of the lines that declare its namespaces.

ghost use Rattle.std.specs.Prelude.{◌≡◌, ◌≤◌, ◌+◌, IfOk, OnOk};
ghost use Rattle.serde_json.specs.Read.{read};
ghost use Rattle.carry.specs.Values.{carry_value, item_values};
ghost use Rattle.json_lines.specs.Json.{of_json};
ghost use Rattle.trace_lines.specs.Causes.{Gives as Taken};
ghost use Rattle.trace_lines.specs.Values.{next_line};
ghost use Rattle.trace_lines.specs.declared.cause.Cause.TheVariants as causes;
ghost use Rattle.runs.specs.Begins.{log_of};
ghost use Rattle.runs.specs.DeclaredTexts.{declared_in, texts_of};
ghost use Rattle.runs.specs.Faults.{Gives};
ghost use Rattle.runs.specs.Handed.{AreDeclarationsOf};
ghost use Rattle.runs.specs.Kept.{kept_line, nothing_kept};
ghost use Rattle.userset_index.specs.Growth.{IsGrowing};

use crate::beginning::begin;
use crate::declared::DeclaredLine;
use crate::fault::BeginFault;
use carry::{Carry, Item, Said};
use json_lines::TakeJson;
use std::alloc::{AllocError, Global};
use std::marker::Model;
use trace_lines::{Cause, TraceBuilder};
use userset_index::UsersetIndex;

/// A log that grows by the lines of a run, and keeps the texts of those that declare namespaces: so it can be handed on.
/// Its lines have the numbers of the whole log; a run counts its own from 1.
#[derive(Drop)]
pub struct KeptLog {
    alloc: Global,
    /// How many lines came before those of the run.
    lines: u64,
    log: TraceBuilder,
    declared: Vec<DeclaredLine>,
}

impl Model for KeptLog {
    ghost use Rattle.std.specs.Prelude.{◌≡◌};
    ghost use Rattle.runs.specs.DeclaredTexts.{texts_of};
    ghost use Rattle.runs.specs.Handed.{AreDeclarationsOf};
    ghost use Rattle.runs.specs.Kept.{KeptValue, kept_code};

    ghost Value = { KeptValue };

    ghost coded = { kept_code };

    ghost view = { λ k. record { lines = k.lines; log = k.log } };

    ghost invariant = { λ k. AreDeclarationsOf k.log (texts_of k.declared.items) };
}

/// The lines of a carry that declare namespaces, copied.
fn declared_lines(alloc: Global, items: &[Item<'_>]) -> Result<Vec<DeclaredLine>, AllocError>
    ensures { IfOk result (λ ds. texts_of ds.items ≡ declared_in (item_values items.now)) }
{
    let mut declared = Vec::new(alloc);
    // bounded by the items: each turn looks at one
    for item in items {
        if let Said::Declares(text) = item.said {
            let text = String::from_str(alloc, text)?;
            let line = item.line;
            declared.push(DeclaredLine { line, text })?;
        }
    }
    Ok(declared)
}

impl KeptLog {
    /// The empty log, behind no line.
    pub fn new(alloc: Global) -> KeptLog
        ensures { result ≡ nothing_kept }
    {
        KeptLog {
            alloc,
            lines: 0,
            log: TraceBuilder::new(alloc),
            declared: Vec::new(alloc),
        }
    }

    /// The log that a carry begins, behind the lines that it counts. It is refused as by [`begin`].
    pub fn resume(alloc: Global, carry: &Carry<'_>) -> Result<KeptLog, BeginFault>
        ensures begun { Gives (λ k. k.log) result (log_of (carry_value carry.now)) }
        ensures lines { IfOk result (λ k. k.lines ≡ carry.now.lines) }
        ensures further { IfOk result (λ k. next_line k.log ≤ carry.now.lines + 1) }
    {
        let declared = declared_lines(alloc, &carry.items)?;
        let log = begin(alloc, carry)?;
        Ok(KeptLog {
            alloc,
            lines: carry.lines,
            log,
            declared,
        })
    }

    /// A log behind so many lines, and the lines of it that declare its namespaces.
    pub fn from_parts(
        alloc: Global,
        lines: u64,
        log: TraceBuilder,
        declared: Vec<DeclaredLine>,
    ) -> KeptLog
        requires { AreDeclarationsOf log (texts_of declared.items) }
        ensures lines { result.lines ≡ lines }
        ensures log { result.log ≡ log }
    {
        KeptLog {
            alloc,
            lines,
            log,
            declared,
        }
    }

    /// How many lines came before those of the run, the log, and the lines that declare its namespaces.
    pub fn into_parts(self) -> (u64, TraceBuilder, Vec<DeclaredLine>)
        ensures lines { result.0 ≡ self.lines }
        ensures log { result.1 ≡ self.log }
        ensures declared { AreDeclarationsOf self.log (texts_of result.2.items) }
    {
        let KeptLog {
            alloc: _,
            lines,
            log,
            declared,
        } = self;
        (lines, log, declared)
    }

    /// How many lines came before those of the run.
    pub fn lines(&self) -> u64
        ensures { result ≡ self.now.lines }
    {
        self.lines
    }

    /// An index of its usersets that grows with it.
    pub fn usersets(&self) -> UsersetIndex
        ensures { IsGrowing self.now.log.declarations self.now.log.commits result }
    {
        self.log.usersets()
    }
}

/// Takes a line of a run behind so many others, and keeps its text where it declares a namespace.
fn take_kept(
    alloc: Global,
    lines: u64,
    log: &mut TraceBuilder,
    declared: &mut Vec<DeclaredLine>,
    number: u64,
    text: &str,
) -> Result<(), Cause>
    requires next { next_line log.old ≤ lines + number }
    requires kept { AreDeclarationsOf log.old (texts_of declared.old.items) }
    ensures answer { Taken (λ _. record { lines = lines; log = log.new }) result
        (of_json causes.NotJson (kept_line number (record { lines = lines; log = log.old })) (read text.now)) }
    ensures further { OnOk result (next_line log.new ≤ lines + number + 1) }
    ensures kept { OnOk result (AreDeclarationsOf log.new (texts_of declared.new.items)) }
{
    // no memory holds a log whose lines have no number
    let Some(line) = lines.checked_add(number) else {
        return Err(Cause::OutOfMemory);
    };
    let before = log.declared();
    log.take(line, text)?;
    if log.declared() > before {
        let text = String::from_str(alloc, text)?;
        declared.push(DeclaredLine { line, text })?;
    }
    Ok(())
}

// Behind a refusal it is an empty log.
impl TakeJson for KeptLog {
    ghost use Rattle.std.specs.Prelude.{◌≡◌};
    ghost use Rattle.runs.specs.Kept.{kept_line, next_kept};

    type Cause = Cause;

    ghost next = { next_kept };

    ghost taken = { kept_line };

    fn take(&mut self, number: u64, text: &str) -> Result<(), Cause> {
        let answer = take_kept(
            self.alloc,
            self.lines,
            &mut self.log,
            &mut self.declared,
            number,
            text,
        );
        if answer.is_err() {
            self.log = TraceBuilder::new(self.alloc);
            self.declared = Vec::new(self.alloc);
        }
        answer
    }
}
