//! A record by itself, whatever it is evidence for.

ghost use Rattle.std.specs.Prelude.{◌≡◌};
ghost use Rattle.serde_json.specs.View.{view};
ghost use Rattle.evidence_check.specs.Causes.{Gives};
ghost use Rattle.evidence_check.specs.Reading.{record_in, record_of_text};
ghost use Rattle.evidence_check.specs.Steps.{record_value};

use crate::cause::EvidenceCause;
use crate::records::steps_of;
use crate::step::StepRef;
use crate::written::written_record;
use json_lines::fields::number_at;
use json_lines::read_value;
use serde_json::Value;
use std::alloc::Global;

/// A record: the line that it names, and its steps. Their texts are borrowed from where it was read.
#[derive(Drop)]
pub(crate) struct RecordRef<'a> {
    pub(crate) line: u64,
    pub(crate) steps: Vec<StepRef<'a>>,
}

/// The record that a value is.
#[tactic(auto, unfolding(crate::specs::Reading::record_in))]
fn record_of<'a>(alloc: Global, value: &'a Value) -> Result<RecordRef<'a>, EvidenceCause>
    ensures { Gives record_value result (record_in (view value.now)) }
{
    let line = number_at(value, "line").ok_or(EvidenceCause::Shape)?;
    let steps = steps_of(alloc, value)?;
    Ok(RecordRef { line, steps })
}

/// The record that a text is. Where the text is not written plainly, it is read as JSON into `value`, from which the
/// record borrows then.
pub(crate) fn parse_record<'a>(
    alloc: Global,
    text: &'a str,
    value: &'a mut Option<Value>,
) -> Result<RecordRef<'a>, EvidenceCause>
    ensures { Gives record_value result (record_of_text text.now) }
{
    if let Some(record) = written_record(alloc, text) {
        return Ok(record);
    }
    *value = read_value(alloc, text)?;
    match value {
        Some(value) => record_of(alloc, value),
        None => Err(EvidenceCause::NotJson),
    }
}
