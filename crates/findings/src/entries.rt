//! Finding what is wrong with the recorded decisions.

ghost use Rattle.std.specs.Prelude.{◌≡◌, ◌<◌, ◌++◌, ℕ, List, Option, Some, length, slice_get, unwrap_or, IfOk, string_bytes, OnOk, OnErr};
ghost use Rattle.std.specs.List.{flat_map};
ghost use Rattle.trace_lines.specs.Values.{TraceValue, EntryValue};
ghost use Rattle.evidence_check.specs.Evidences.{evidence_value};
ghost use Rattle.evidence_check.specs.Judging.{AreJudged};
ghost use Rattle.evidence_check.specs.Steps.{StepValue};
ghost use Rattle.evidence_check.specs.declared.judged.Judged.TheVariants.{Missing};
ghost use Rattle.findings.specs.Findings.{found_by, if_told, found_where, found_on, on_line, findings_of};
ghost use Rattle.findings.specs.Report.{line_text, last_lines, verdict_text, report_text};

use crate::finding::{Finding, What, report_line};
use evidence_check::{Evidence, Judged, judge_entry};
use std::alloc::{AllocError, Global};
use token_order::order_of;
use trace_lines::Trace;

fn found_by(judged: Judged) -> Option<What>
    ensures { result ≡ found_by judged }
{
    match judged {
        Judged::Supported => None,
        Judged::Contradicted => Some(What::WrongReply),
        Judged::Silent => Some(What::Silent),
        Judged::Bad { step } => Some(What::BadEvidence(step)),
        Judged::Missing => Some(What::NoEvidence),
    }
}

fn if_told(what: What, told: bool) -> Option<What>
    ensures { result ≡ if_told what told }
{
    if told { Some(what) } else { None }
}

/// What is found on entry `i`, from 0, where its evidence judges it so: a place for each finding on tokens, by the
/// findings' numbers, and then what the judgement says.
pub fn found_where(trace: &Trace, i: usize, judged: Judged) -> [Option<What>; 7]
    requires { i < length trace.now.entries }
    ensures { (e : EntryValue) → slice_get trace.now.entries i ≡ Some e → result ≡ found_where trace.now judged i e }
{
    let order = order_of(trace, i);
    [
        if_told(What::Stale, order.stale),
        order.old_token.map(What::OldToken),
        order.not_latest.map(What::NotLatest),
        order.open_snapshot.map(What::OpenSnapshot),
        if_told(What::WrongToken, order.wrong_token),
        if_told(What::UnknownVersion, order.unknown_version),
        found_by(judged),
    ]
}

/// What is found on entry `i`, from 0: on its tokens, and by what its evidence says. It is refused only where memory
/// runs out.
pub fn found_on(
    trace: &Trace,
    evidence: &Evidence,
    i: usize,
) -> Result<[Option<What>; 7], AllocError>
    requires { i < length trace.now.entries }
    ensures { IfOk result (λ found. (e : EntryValue) → slice_get trace.now.entries i ≡ Some e
        → found ≡ found_on trace.now (evidence_value evidence.now) i e) }
{
    let judged = judge_entry(trace, evidence, i)?;
    Ok(found_where(trace, i, judged))
}

/// Appends a finding on this line for each thing that was found, in their order. Where memory runs out, the findings
/// stay as they were.
pub fn push_found(
    line: u64,
    found: &[Option<What>],
    findings: &mut Vec<Finding>,
) -> Result<(), AllocError>
    ensures pushes { OnOk result (findings.new.items ≡ findings.old.items ++ on_line line found.now) }
    ensures unchanged { OnErr result (findings.new.items ≡ findings.old.items) }
{
    findings.reserve(found.len())?;
    for what in found {
        if let Some(what) = *what {
            findings.push_reserved(Finding { line, what });
        }
    }
    Ok(())
}

/// The findings on each entry, in line order and by their numbers. It is refused only where memory runs out.
pub fn findings_of(
    alloc: Global,
    trace: &Trace,
    evidence: &Evidence,
) -> Result<Vec<Finding>, AllocError>
    ensures { IfOk result (λ v. v.items ≡ findings_of trace.now (evidence_value evidence.now)) }
{
    let mut findings = Vec::new(alloc);
    for i in 0..trace.len() {
        let found = found_on(trace, evidence, i)?;
        push_found(trace.entry(i).line, &found, &mut findings)?;
    }
    Ok(findings)
}

fn judged_at(judgements: &[Judged], i: usize) -> Judged
    ensures { result ≡ unwrap_or (slice_get judgements.now i) Missing }
{
    match judgements.get(i) {
        Some(judged) => *judged,
        None => Judged::Missing,
    }
}

/// What is found on entry `i`, from 0, where the entries are judged so. One beyond the judgements counts as `Missing`.
pub fn found_judged(trace: &Trace, judgements: &[Judged], i: usize) -> [Option<What>; 7]
    requires { i < length trace.now.entries }
    ensures { (e : EntryValue) → slice_get trace.now.entries i ≡ Some e
        → result ≡ found_where trace.now (unwrap_or (slice_get judgements.now i) Missing) i e }
{
    found_where(trace, i, judged_at(judgements, i))
}

/// The findings on each entry, in line order and by their numbers, where each entry is judged so. One beyond the
/// judgements counts as `Missing`. It is refused only where memory runs out.
pub fn findings_judged(
    alloc: Global,
    trace: &Trace,
    judgements: &[Judged],
) -> Result<Vec<Finding>, AllocError>
    ensures { (evidence : List (Option (List StepValue))) → AreJudged trace.now evidence judgements.now
        → IfOk result (λ v. v.items ≡ findings_of trace.now evidence) }
{
    let mut findings = Vec::new(alloc);
    for i in 0..trace.len() {
        let found = found_judged(trace, judgements, i);
        push_found(trace.entry(i).line, &found, &mut findings)?;
    }
    Ok(findings)
}

/// Appends the line of each finding. It is refused only where memory runs out.
pub fn push_lines(findings: &[Finding], text: &mut String) -> Result<(), AllocError>
    ensures { OnOk result (string_bytes text.new ≡ string_bytes text.old ++ flat_map line_text findings.now) }
{
    for finding in findings {
        report_line(finding, text)?;
    }
    Ok(())
}

/// Appends how many entries and findings there are, and the verdict. It is refused only where memory runs out.
pub fn push_last_lines(
    findings: &[Finding],
    entries: usize,
    text: &mut String,
) -> Result<(), AllocError>
    ensures { OnOk result (string_bytes text.new ≡ string_bytes text.old ++ last_lines findings.now entries) }
{
    let count = findings.len();
    writeln!(text, "entries {entries}")?;
    writeln!(text, "findings {count}")?;
    text.push_str(verdict_line(findings))
}

fn verdict_line(findings: &[Finding]) -> &str
    ensures { result.now ≡ verdict_text findings.now }
{
    match findings {
        [] => "verdict clean\n",
        [_, ..] => "verdict dirty\n",
    }
}

/// The text of the report on a trace with so many entries. It is refused only where memory runs out.
pub fn report_of(alloc: Global, findings: &[Finding], entries: usize) -> Result<String, AllocError>
    ensures { IfOk result (λ s. string_bytes s ≡ report_text findings.now entries) }
{
    let mut text = String::new(alloc);
    push_lines(findings, &mut text)?;
    push_last_lines(findings, entries, &mut text)?;
    Ok(text)
}
