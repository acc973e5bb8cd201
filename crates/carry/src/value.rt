//! What a carry holds. Its texts are borrowed, from the trace that it is taken of or from the text that it is read of.

use tuple_text::{FactRef, TupleRef};
use zookie::Zookie;

/// What an entry records: a check, or a check before a change of content.
#[derive(Clone, Copy, Debug, PartialEq, Eq)]
pub enum CheckKind {
    Check,
    Content,
}

/// An entry that goes on to the next run: it is still to be judged, or its version may be named.
#[derive(Clone, Copy, Debug)]
pub struct CarriedCheck<'a> {
    pub kind: CheckKind,
    pub reply: bool,
    pub goal: FactRef<'a>,
    /// The timestamp at which it was evaluated.
    pub snapshot: u64,
    pub zookie: Option<Zookie>,
    /// The label of the content's version.
    pub version: Option<&'a str>,
}

/// A commit; the store at the base is one too.
pub struct CarriedCommit<'a> {
    pub at: u64,
    pub adds: Vec<TupleRef<'a>>,
    pub removes: Vec<TupleRef<'a>>,
}

impl<'a> Drop for CarriedCommit<'a> {
    fn drop(self) {
        let CarriedCommit {
            at: _,
            adds,
            removes,
        } = self;
        drop(adds);
        drop(removes);
    }
}

/// What a line of the log says that goes on to the next run.
#[derive(Drop)]
pub enum Said<'a> {
    /// It declares a namespace: the text of the line.
    Declares(&'a str),
    Commits(CarriedCommit<'a>),
    Records(CarriedCheck<'a>),
}

/// A line of the log that goes on to the next run, by its number in the whole log.
#[derive(Drop)]
pub struct Item<'a> {
    pub line: u64,
    pub said: Said<'a>,
}

/// The state that one run hands to the next.
#[derive(Drop)]
pub struct Carry<'a> {
    /// How many lines of the whole log came before.
    pub lines: u64,
    /// The timestamp at which the store is carried.
    pub base: u64,
    /// The line of the whole log from which on the versions that it issued are carried: from line 0 on all are.
    pub versions: u64,
    /// What tells the carry before from others, where there is one.
    pub before: Option<&'a str>,
    pub items: Vec<Item<'a>>,
}
