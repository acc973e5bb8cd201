//! A judge that makes its evidence.

ghost use Rattle.std.specs.Prelude.{◌≡◌};

use crate::finds::Finds;
use crate::made_audit::judgement_made;
use evidence_check::Judged;
use evidence_maker::{Maker, PausedMaker};
use monitor::Judge;
use std::alloc::{AllocError, Global};
use trace_lines::Trace;

/// It judges the entries of a trace by evidence that it makes. What it made for others is tried first.
#[derive(Drop)]
pub struct MakingJudge<'t> {
    pub maker: Maker<'t>,
    pub finds: Finds,
}

/// What such a judge found of rules and made for entries of a trace, while more of that comes.
#[derive(Drop)]
pub struct PausedJudge {
    pub maker: PausedMaker,
    pub finds: Finds,
}

impl<'t> MakingJudge<'t> {
    /// What was found and made, while more of the trace comes.
    pub fn pause(self) -> PausedJudge {
        PausedJudge {
            maker: self.maker.pause(),
            finds: self.finds,
        }
    }
}

impl PausedJudge {
    /// Nothing was found or made.
    pub fn new(alloc: Global) -> PausedJudge {
        PausedJudge {
            maker: PausedMaker::new(alloc),
            finds: Finds::new(alloc),
        }
    }

    /// A judge for the trace as far as it came.
    pub fn resume(self, alloc: Global, trace: &Trace) -> MakingJudge<'_>
        ensures { result.maker ≡ trace.now }
    {
        MakingJudge {
            maker: self.maker.resume(alloc, trace),
            finds: self.finds,
        }
    }
}

impl<'t> Judge for MakingJudge<'t> {
    ghost use Rattle.audit.specs.Made.{IsMade};

    ghost of = { λ j. j.maker };

    ghost allows = { IsMade };

    fn judge(&mut self, trace: &Trace, i: usize) -> Result<Judged, AllocError> {
        let entry = trace.entry(i);
        let found = self.finds.found(trace, entry.goal, entry.reply);
        let (judged, made) = judgement_made(&mut self.maker, i, found)?;
        self.finds.keep(entry.goal, entry.reply, i, made)?;
        Ok(judged)
    }
}
