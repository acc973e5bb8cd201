//! One tuple as it is kept, and as it is read.

use crate::texts::Span;
use marks::MarkedUser;
use tuple_text::SetRef;

/// A tuple: where its userset stands in the text of all rows, and its user where that is a userset too; the mark of its
/// user, which of an id is the id; and the place of its newest touch, or 0 where it has none.
#[derive(Clone, Copy, Drop)]
pub struct Row {
    pub set: Span,
    pub user: Option<Span>,
    pub latest: u32,
    pub user_mark: u64,
}

/// A tuple with the mark of its user, and the place of its newest touch.
#[derive(Clone, Copy, Drop)]
pub struct RowRef<'a> {
    pub set: SetRef<'a>,
    pub user: MarkedUser<'a>,
    pub latest: u32,
}
