//! Evidence.

ghost use Rattle.std.specs.Prelude.{◌≡◌, option_map};
ghost use Rattle.evidence_check.specs.Evidences.{evidence_value, steps_of};
ghost use Rattle.evidence_check.specs.Steps.{step_values};

use crate::step::Steps;

/// The steps that were given for each entry of a trace. Contracts see it by `evidence_value` as the list of
/// these, None where no record names the entry.
#[derive(Drop)]
pub struct Evidence {
    pub(crate) steps: Vec<Option<Steps>>,
}

impl Evidence {
    /// The steps that were given for entry `i`; None where no record names it.
    pub fn steps(&self, i: usize) -> Option<&Steps>
        ensures { option_map (λ s. step_values s.now.items) result ≡ steps_of (evidence_value self.now) i }
    {
        match self.steps.get(i) {
            Some(Some(steps)) => Some(steps),
            Some(None) => None,
            None => None,
        }
    }
}
