//! Measuring a record without its text.

ghost use Rattle.std.specs.Prelude.{◌≡◌, ◌-◌, ◌^◌, length, min, nat_lt};
ghost use Rattle.json.specs.Print.{escape_letter, escape_byte, escape};
ghost use Rattle.serde_json.specs.Written.{compact_text};
ghost use Rattle.evidence_check.specs.Reading.{count_of, fact_count};
ghost use Rattle.evidence_check.specs.RecordData.{fact_data, facts_data, step_data, steps_data};
ghost use Rattle.evidence_check.specs.Steps.{step_value, step_values};
ghost use Rattle.record_text.specs.Record.{record_length};

use crate::laws::fact_is_in_form;
use crate::record::are_plain;
use evidence_check::Step;
use itoa::Buffer;
use tuple_text::Fact;

/// Whether a byte is written as a backslash and a letter.
fn has_letter(byte: u8) -> bool
    ensures { result ≡ nat_lt 0 (escape_letter byte) }
{
    byte == b'"'
        || byte == b'\\'
        || byte == 8
        || byte == 12
        || byte == 10
        || byte == 13
        || byte == 9
}

/// How many bytes stand in a text of JSON for one byte.
#[tactic(auto, unfolding(json::specs::Print::escape_byte))]
fn escaped_byte(byte: u8) -> u64
    ensures { result ≡ length (escape_byte byte) }
{
    if has_letter(byte) {
        2
    } else if byte < 32 {
        6
    } else {
        1
    }
}

/// How many bytes stand in a text of JSON for a text, without the two quotes.
#[tactic(auto, using(crate::proofs::Pieces::plain_length))]
fn escaped_bytes(text: &str) -> u64
    ensures { result ≡ min (length (escape text.now)) (2 ^ 64 - 1) }
{
    if are_plain(text) {
        return text.len() as u64;
    }
    let mut count: u64 = 0;
    for byte in text.as_bytes() {
        count = count.saturating_add(escaped_byte(*byte));
    }
    count
}

#[tactic(auto, using(crate::proofs::Pieces::plain_fact_length))]
fn fact_bytes(fact: &Fact) -> u64
    ensures { result ≡ min (length (compact_text (fact_data fact.now))) (2 ^ 64 - 1) }
{
    fact_is_in_form(fact);
    let set = fact.set();
    let mut digits = Buffer::new();
    // the two quotes, and the three marks between the parts, of which the object id alone may have escapes
    5u64.saturating_add(set.namespace.len() as u64)
        .saturating_add(escaped_bytes(set.id))
        .saturating_add(set.relation.len() as u64)
        .saturating_add(digits.format(fact.user()).len() as u64)
}

fn facts_bytes(facts: &[Fact]) -> u64
    ensures { result ≡ min (length (compact_text (facts_data facts.now))) (2 ^ 64 - 1) }
{
    if facts.is_empty() {
        return 2;
    }
    let mut count: u64 = 1;
    for fact in facts {
        count = count.saturating_add(fact_bytes(fact)).saturating_add(1);
    }
    count
}

fn step_bytes(step: &Step) -> u64
    ensures { result ≡ min (length (compact_text (step_data (step_value step.now)))) (2 ^ 64 - 1) }
{
    match step {
        Step::Yes(fact) => fact_bytes(fact).saturating_add(8),
        Step::No(facts) => facts_bytes(facts).saturating_add(7),
    }
}

fn steps_bytes(steps: &[Step]) -> u64
    ensures { result ≡ min (length (compact_text (steps_data (step_values steps.now)))) (2 ^ 64 - 1) }
{
    if steps.is_empty() {
        return 2;
    }
    let mut count: u64 = 1;
    for step in steps {
        count = count.saturating_add(step_bytes(step)).saturating_add(1);
    }
    count
}

/// How many bytes the record of the steps for the entry on a line has, without its newline; 2^64 - 1 where there are
/// more.
pub fn record_bytes(line: u64, steps: &[Step]) -> u64
    ensures { result ≡ min (record_length line (step_values steps.now)) (2 ^ 64 - 1) }
{
    let mut digits = Buffer::new();
    let digits = digits.format(line).len() as u64;
    // the braces, the two keys with their quotes and colons, and the comma
    steps_bytes(steps).saturating_add(digits).saturating_add(18)
}

/// How many facts the steps have, each fact of a `No` counted; 2^64 - 1 where there are more.
pub fn fact_count(steps: &[Step]) -> u64
    ensures { result ≡ min (fact_count (step_values steps.now)) (2 ^ 64 - 1) }
{
    let mut count: u64 = 0;
    for step in steps {
        let facts = match step {
            Step::Yes(_) => 1,
            Step::No(facts) => facts.len() as u64,
        };
        count = count.saturating_add(facts);
    }
    count
}
