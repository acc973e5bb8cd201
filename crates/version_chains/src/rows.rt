//! Tuples as they are kept.

ghost use Rattle.std.specs.Prelude.{◌≡◌, true, ◌<◌, ◌∷◌, ◌++◌, [], Some, length, slice_get, slice_set, option_map, string_bytes, IfOk, IfSome, OnOk, OnErr};
ghost use Rattle.tuple_text.specs.Grammar.{IsUser};
ghost use Rattle.tuple_text.specs.Refs.{set_value, user_value};
ghost use Rattle.tuple_text.specs.TupleRefs.{tuple_value};
ghost use Rattle.marks.specs.Marks as marks;
ghost use Rattle.version_chains.specs.Rows.{AreRows, Kept, IsRow, kept_in, row_value, user_in};
ghost use Rattle.version_chains.specs.Texts.{GoesOn, IsSpan, IsSpanOf};

use crate::row::{Row, RowRef};
use crate::texts::{Span, is_same_span, place_set, push_set, set_at};
use marks::MarkedUser;
use std::alloc::{AllocError, Global};
use std::marker::Model;
use tuple_text::{SetRef, TupleRef, UserRef};

/// Tuples, each with the mark of its user and the place of its newest touch. Their texts stand one behind the other in
/// one, so that a tuple wants no memory of its own.
#[derive(Drop)]
pub struct Rows {
    text: String,
    rows: Vec<Row>,
}

impl Model for Rows {
    ghost use Rattle.std.specs.Prelude.{List, map, string_bytes};
    ghost use Rattle.version_chains.specs.Rows.{AreRows, Kept, kept_in};

    ghost Value = { List Kept };

    ghost view = { λ s. map (kept_in (string_bytes s.text)) s.rows.items };

    ghost invariant = { λ s. AreRows (string_bytes s.text) s.rows.items };
}

/// The tuple of a row.
#[inline(always)]
fn read(text: &str, row: Row) -> RowRef<'_>
    requires { IsRow text.now row }
    ensures { row_value result ≡ kept_in text.now row }
{
    let user = match row.user {
        Some(span) => UserRef::Set(set_at(text, span)),
        None => UserRef::Id(row.user_mark),
    };
    RowRef {
        set: set_at(text, row.set),
        user: MarkedUser {
            user,
            mark: row.user_mark,
        },
        latest: row.latest,
    }
}

/// Adds the text of a user at the end, where it is a userset, and says where it stands.
fn push_user(text: &mut String, user: UserRef<'_>) -> Result<Option<Span>, AllocError>
    requires { IsUser (user_value user) }
    ensures goes_on { GoesOn (string_bytes text.old) (string_bytes text.new) }
    ensures spans { IfOk result (λ user. IfSome user (IsSpan (string_bytes text.new))) }
    ensures user { IfOk result (λ span. user_in (string_bytes text.new) span (marks.user_mark (user_value user.entry))
        ≡ user_value user.entry) }
{
    match user {
        UserRef::Id(_) => Ok(None),
        UserRef::Set(set) => {
            let span = push_set(text, set)?;
            Ok(Some(span))
        }
    }
}

/// Where the userset of the row at a place stands, if it is this one.
fn known_set(text: &str, rows: &[Row], place: usize, set: SetRef<'_>) -> Option<Span>
    requires { AreRows text.now rows.now }
    ensures { IfSome result (IsSpanOf text.now (set_value set.entry)) }
{
    if place == 0 {
        return None;
    }
    let row = rows.get(place - 1)?;
    if set_at(text, row.set) == set {
        Some(row.set)
    } else {
        None
    }
}

/// Adds the texts of a tuple at the end, and gives its row. Its userset may stand there already.
fn push_texts(
    text: &mut String,
    tuple: TupleRef<'_>,
    user_mark: u64,
    known: Option<Span>,
) -> Result<Row, AllocError>
    requires mark { user_mark ≡ marks.user_mark (tuple_value tuple).user }
    requires known { IfSome known (IsSpanOf (string_bytes text.old) (tuple_value tuple).set) }
    ensures goes_on { GoesOn (string_bytes text.old) (string_bytes text.new) }
    ensures row { IfOk result (IsRow (string_bytes text.new)) }
    ensures kept { IfOk result (λ row. kept_in (string_bytes text.new) row
        ≡ record { tuple = tuple_value tuple.entry; latest = 0 }) }
{
    let set = place_set(text, tuple.set(), known)?;
    let user = push_user(text, tuple.user())?;
    Ok(Row {
        set,
        user,
        latest: 0,
        user_mark,
    })
}

impl Rows {
    pub fn new(alloc: Global) -> Rows
        ensures { result ≡ [] }
    {
        Rows {
            text: String::new(alloc),
            rows: Vec::new(alloc),
        }
    }

    /// No tuple, and memory for so many with so many bytes of text.
    pub fn with_room(alloc: Global, tuples: usize, bytes: usize) -> Result<Rows, AllocError>
        ensures { IfOk result (λ rows. rows ≡ []) }
    {
        Ok(Rows {
            text: String::with_capacity(alloc, bytes)?,
            rows: Vec::with_capacity(alloc, tuples)?,
        })
    }

    pub fn len(&self) -> usize
        ensures { result ≡ length self.now }
    {
        self.rows.len()
    }

    /// The tuple of a number.
    #[inline(always)]
    pub fn get(&self, number: usize) -> Option<RowRef<'_>>
        ensures { option_map row_value result ≡ slice_get self.now number }
    {
        match self.rows.get(number) {
            Some(row) => Some(read(&self.text, *row)),
            None => None,
        }
    }

    /// Whether two tuples share the texts of their userset.
    #[inline(always)]
    pub fn share_set(&self, one: usize, other: usize) -> bool
        ensures { result ≡ true → (a : Kept) → slice_get self.now one ≡ Some a
            → (b : Kept) × (slice_get self.now other ≡ Some b) × (a.tuple.set ≡ b.tuple.set) }
    {
        let Some(first) = self.rows.get(one) else {
            return false;
        };
        let Some(second) = self.rows.get(other) else {
            return false;
        };
        is_same_span(first.set, second.set)
    }

    /// The place of the tuple's newest touch.
    pub fn latest(&self, number: usize) -> u32
        ensures { (r : Kept) → slice_get self.now number ≡ Some r → result ≡ r.latest }
    {
        match self.rows.get(number) {
            Some(row) => row.latest,
            None => 0,
        }
    }

    /// Adds a tuple without a touch. It shares the texts of its userset with the tuple at the place `near`, if that
    /// has the same one. Where memory runs out, nothing changes.
    pub fn push(
        &mut self,
        tuple: TupleRef<'_>,
        user_mark: u64,
        near: usize,
    ) -> Result<(), AllocError>
        requires { user_mark ≡ marks.user_mark (tuple_value tuple).user }
        ensures ok { OnOk result (self.new ≡ self.old ++ record { tuple = tuple_value tuple.entry; latest = 0 } ∷ []) }
        ensures err { OnErr result (self.new ≡ self.old) }
    {
        let known = known_set(&self.text, &self.rows, near, tuple.set());
        let row = push_texts(&mut self.text, tuple, user_mark, known)?;
        self.rows.push(row)?;
        Ok(())
    }

    /// Makes another place that of the tuple's newest touch.
    pub fn set_latest(&mut self, number: usize, latest: u32)
        requires { number < length self.old }
        ensures { (r : Kept) → slice_get self.old number ≡ Some r
            → self.new ≡ slice_set self.old number (record { tuple = r.tuple; latest = latest }) }
    {
        self.rows[number].latest = latest;
    }
}
