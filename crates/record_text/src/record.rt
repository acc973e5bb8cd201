//! Writing a record.

ghost use Rattle.std.specs.Prelude.{◌≡◌, List, ◌++◌, ◌∷◌, [], string_bytes, is_ok, true, IfOk, OnOk, if◌then◌else◌};
ghost use Rattle.std.specs.List.{AllByRecursion, list_all};
ghost use Rattle.serde_json.specs.Written.{comma_if, compact_text};
ghost use Rattle.trace_lines.specs.Values.{EntryValue};
ghost use Rattle.tuple_text.specs.Grammar.{IsFact};
ghost use Rattle.tuple_text.specs.Quoted.{is_plain_byte};
ghost use Rattle.evidence_check.specs.RecordData.{fact_data, facts_data, step_data, steps_data, HasFacts, HaveFacts};
ghost use Rattle.evidence_check.specs.Steps.{yes_step, no_step, step_value, step_values};
ghost use Rattle.record_text.specs.Record.{record_text};
ghost use Rattle.record_text.specs.ReadBack.{IsTaken, IsReadBack};

use crate::laws::{fact_is_in_form, read_back, taken};
use evidence_check::Step;
use itoa::Buffer;
use serde_json::Value;
use std::alloc::{AllocError, Global};
use tuple_text::{Fact, push_set, write_fact};

/// How much room a record begins with, in bytes. Most records need no more.
const ROOM: usize = 512;

/// Whether a byte stands for itself in a text of JSON.
fn is_plain(byte: u8) -> bool
    ensures { result ≡ is_plain_byte byte }
{
    byte >= 32 && byte != b'"' && byte != b'\\'
}

/// Whether each byte of a text does.
pub(crate) fn are_plain(text: &str) -> bool
    ensures { result ≡ list_all is_plain_byte text.now }
{
    // an object id has 128 bytes at most
    for byte in text.as_bytes() {
        if !is_plain(*byte) {
            return false;
        }
    }
    true
}

/// Appends a fact of an object id that does not stand for itself.
fn push_escaped(fact: &Fact, out: &mut String) -> Result<(), AllocError>
    ensures { OnOk result (string_bytes out.new ≡ string_bytes out.old ++ compact_text (fact_data fact.now)) }
{
    let alloc = *out.allocator();
    let mut text = String::new(alloc);
    write_fact(fact, &mut text)?;
    let text = Value::String(text).to_string(alloc)?;
    out.push_str(text.as_str())
}

/// Appends a fact of an object id that stands for itself, as its other parts do by their forms.
fn push_plain(fact: &Fact, out: &mut String) -> Result<(), AllocError>
    requires { list_all is_plain_byte fact.now.set.id ≡ true }
    ensures { OnOk result (string_bytes out.new ≡ string_bytes out.old ++ compact_text (fact_data fact.now)) }
{
    fact_is_in_form(fact);
    let mut digits = Buffer::new();
    out.push('"')?;
    push_set(fact.set(), out)?;
    out.push('@')?;
    out.push_str(digits.format(fact.user()))?;
    out.push('"')
}

fn push_fact(fact: &Fact, out: &mut String) -> Result<(), AllocError>
    ensures text { OnOk result (string_bytes out.new ≡ string_bytes out.old ++ compact_text (fact_data fact.now)) }
    ensures form { IsFact fact.now }
{
    fact_is_in_form(fact);
    if are_plain(fact.set().id) {
        push_plain(fact, out)
    } else {
        push_escaped(fact, out)
    }
}

/// Appends a comma, where something stands before.
fn push_comma(later: bool, out: &mut String) -> Result<(), AllocError>
    ensures { OnOk result (string_bytes out.new ≡ string_bytes out.old ++ comma_if later) }
{
    if later { out.push(',') } else { Ok(()) }
}

fn push_facts(facts: &[Fact], out: &mut String) -> Result<(), AllocError>
    ensures text { OnOk result (string_bytes out.new ≡ string_bytes out.old ++ compact_text (facts_data facts.now)) }
    ensures form { OnOk result (AllByRecursion IsFact facts.now) }
{
    out.push('[')?;
    let mut later = false;
    // a record has 100,000 facts at most
    for fact in facts {
        push_comma(later, out)?;
        push_fact(fact, out)?;
        later = true;
    }
    out.push(']')
}

fn push_yes(fact: &Fact, out: &mut String) -> Result<(), AllocError>
    ensures text { OnOk result (string_bytes out.new
        ≡ string_bytes out.old ++ compact_text (step_data (yes_step fact.now))) }
    ensures form { OnOk result (IsFact fact.now) }
{
    out.push_str("{\"yes\":")?;
    push_fact(fact, out)?;
    out.push('}')
}

fn push_no(facts: &[Fact], out: &mut String) -> Result<(), AllocError>
    ensures text { OnOk result (string_bytes out.new
        ≡ string_bytes out.old ++ compact_text (step_data (no_step facts.now))) }
    ensures form { OnOk result (AllByRecursion IsFact facts.now) }
{
    out.push_str("{\"no\":")?;
    push_facts(facts, out)?;
    out.push('}')
}

fn push_step(step: &Step, out: &mut String) -> Result<(), AllocError>
    ensures text { OnOk result (string_bytes out.new
        ≡ string_bytes out.old ++ compact_text (step_data (step_value step.now))) }
    ensures form { OnOk result (HasFacts (step_value step.now)) }
{
    match step {
        Step::Yes(fact) => push_yes(fact, out),
        Step::No(facts) => push_no(facts, out),
    }
}

fn push_steps(steps: &[Step], out: &mut String) -> Result<(), AllocError>
    ensures text { OnOk result (string_bytes out.new
        ≡ string_bytes out.old ++ compact_text (steps_data (step_values steps.now))) }
    ensures form { OnOk result (HaveFacts (step_values steps.now)) }
{
    out.push('[')?;
    let mut later = false;
    // each step that is made has a fact
    for step in steps {
        push_comma(later, out)?;
        push_step(step, out)?;
        later = true;
    }
    out.push(']')
}

fn text_of(alloc: Global, line: u64, steps: &[Step]) -> Result<String, AllocError>
    ensures text { IfOk result (λ s. string_bytes s ≡ record_text line (step_values steps.now)) }
    ensures form { OnOk result (HaveFacts (step_values steps.now)) }
{
    let mut text = String::with_capacity(alloc, ROOM)?;
    let mut digits = Buffer::new();
    text.push_str("{\"line\":")?;
    text.push_str(digits.format(line))?;
    text.push_str(",\"steps\":")?;
    push_steps(steps, &mut text)?;
    text.push('}')?;
    Ok(text)
}

/// Appends the record of the steps for the entry on a line, and a newline. Where memory runs out, the string stays as
/// it was.
pub fn write_record(line: u64, steps: &[Step], out: &mut String) -> Result<(), AllocError>
    ensures text { string_bytes out.new
        ≡ (if is_ok result then string_bytes out.old
        ++ (record_text line (step_values steps.now) ++ 10 ∷ []) else string_bytes out.old) }
    // As a line of evidence it says the same steps.
    ensures taken { OnOk result (IsTaken line (step_values steps.now)) }
    // Within the limits, for the line of an entry, it is read back as one record.
    ensures read_back { OnOk result ((entries : List EntryValue) → IsReadBack entries line (step_values steps.now)) }
{
    taken();
    read_back();
    let mut text = text_of(*out.allocator(), line, steps)?;
    text.push('\n')?;
    out.push_str(text.as_str())
}
