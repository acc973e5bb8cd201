//! A fact that a rule is asked for.

use crate::fact::KnownFact;
use crate::known::Known;
use marks::MarkedSet;
use snapshots::Snapshot;

/// That a user is in a userset, as it is asked for: by what is known, and over what is declared and stored at a
/// timestamp. It is lent.
#[derive(Drop)]
pub struct AskedFact<'a, F: KnownFact> {
    pub snapshot: &'a Snapshot<'a>,
    pub known: &'a Known<F>,
    pub set: MarkedSet<'a>,
    pub user: u64,
}
