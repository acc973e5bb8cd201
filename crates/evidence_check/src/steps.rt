//! Lists of steps, kept and borrowed.

ghost use Rattle.std.specs.Prelude.{◌≡◌, IfOk};
ghost use Rattle.evidence_check.specs.Steps.{step_values, borrowed_steps};

use crate::step::{Step, StepRef, Steps};
use std::alloc::{AllocError, Global};

/// The steps, their facts borrowed.
pub(crate) fn borrowed_steps(alloc: Global, steps: &[Step]) -> Result<Vec<StepRef<'_>>, AllocError>
    ensures { IfOk result (λ v. borrowed_steps v.items ≡ step_values steps.now) }
{
    let mut borrowed = Vec::with_capacity(alloc, steps.len())?;
    for step in steps {
        borrowed.push(step.as_ref(alloc)?)?;
    }
    Ok(borrowed)
}

/// The steps, their facts copied.
pub(crate) fn copied_steps(alloc: Global, steps: &[StepRef<'_>]) -> Result<Steps, AllocError>
    ensures { IfOk result (λ v. step_values v.items ≡ borrowed_steps steps.now) }
{
    let mut copied = Vec::with_capacity(alloc, steps.len())?;
    for step in steps {
        copied.push(step.to_step(alloc)?)?;
    }
    Ok(copied)
}
