//! Commits with texts of their own.

ghost use Rattle.std.specs.Prelude.{◌≡◌, ◌++◌, All, IfOk, OnOk, length};
ghost use Rattle.tuple_text.specs.Grammar.{IsTuple};
ghost use Rattle.tuple_text.specs.TupleRefs.{tuple_values};
ghost use Rattle.version_chains.specs.Arena.{tuples_of};

use marks::MarkedUser;
use std::alloc::{AllocError, Global};
use std::marker::Model;
use tuple_text::TupleRef;
use version_chains::Rows;

/// For how many bytes of text of a tuple there is room at first.
const TEXT_OF_TUPLE: usize = 24;

/// What a line commits, with the texts of its tuples.
#[derive(Drop)]
pub(crate) struct OwnedCommit {
    at: u64,
    // those added, and behind them those removed
    tuples: Rows,
    adds: usize,
}

impl Model for OwnedCommit {
    ghost use Rattle.std.specs.Prelude.{◌≤◌, All, drop, length, take};
    ghost use Rattle.tuple_text.specs.Grammar.{IsTuple};
    ghost use Rattle.version_chains.specs.Arena.{tuples_of};
    ghost use Rattle.version_chains.specs.Commits.{Commit};

    ghost Value = { Commit };

    ghost view = { λ c. record {
      at = c.at;
      adds = take c.adds (tuples_of c.tuples);
      removes = drop c.adds (tuples_of c.tuples);
    } };

    ghost invariant = { λ c. All IsTuple (tuples_of c.tuples) × (c.adds ≤ length (tuples_of c.tuples)) };
}

/// Adds tuples to others. Where one has the userset of that before it, the two share its texts.
fn push_tuples(tuples: &mut Rows, more: &[TupleRef<'_>]) -> Result<(), AllocError>
    requires { All IsTuple (tuples_of tuples.old) }
    ensures tuples { OnOk result (tuples_of tuples.new ≡ tuples_of tuples.old ++ tuple_values more.now) }
    ensures in_form { OnOk result (All IsTuple (tuples_of tuples.new)) }
{
    for tuple in more {
        let user = MarkedUser::of(tuple.user());
        let last = tuples.len();
        tuples.push(*tuple, user.mark, last)?;
    }
    Ok(())
}

/// Tuples, borrowed.
fn tuple_refs(alloc: Global, tuples: &Rows) -> Result<Vec<TupleRef<'_>>, AllocError>
    requires { All IsTuple (tuples_of tuples.now) }
    ensures { IfOk result (λ v. tuple_values v.items ≡ tuples_of tuples.now) }
{
    let mut refs = Vec::with_capacity(alloc, tuples.len())?;
    // bounded by the tuples: each turn borrows one
    while let Some(row) = tuples.get(refs.len()) {
        refs.push(TupleRef::from_parts(row.set, row.user.user))?;
    }
    Ok(refs)
}

impl OwnedCommit {
    /// The commit of these tuples, copied.
    pub(crate) fn of(
        alloc: Global,
        at: u64,
        adds: &[TupleRef<'_>],
        removes: &[TupleRef<'_>],
    ) -> Result<OwnedCommit, AllocError>
        ensures { IfOk result (λ c. c
            ≡ record { at = at; adds = tuple_values adds.now; removes = tuple_values removes.now }) }
    {
        let count = adds.len() + removes.len();
        let mut tuples = Rows::with_room(alloc, count, count.saturating_mul(TEXT_OF_TUPLE))?;
        push_tuples(&mut tuples, adds)?;
        push_tuples(&mut tuples, removes)?;
        Ok(OwnedCommit {
            at,
            tuples,
            adds: adds.len(),
        })
    }

    pub(crate) fn at(&self) -> u64
        ensures { result ≡ self.now.at }
    {
        self.at
    }

    /// How many tuples are added.
    pub(crate) fn adds(&self) -> usize
        ensures { result ≡ length self.now.adds }
    {
        self.adds
    }

    /// Those added, and behind them those removed.
    pub(crate) fn tuples(&self, alloc: Global) -> Result<Vec<TupleRef<'_>>, AllocError>
        ensures { IfOk result (λ v. tuple_values v.items ≡ self.now.adds ++ self.now.removes) }
    {
        tuple_refs(alloc, &self.tuples)
    }
}
