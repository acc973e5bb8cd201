//! How long a userset that is stored in another can matter.

/// A touch that adds a tuple, by its index in the changelog; the mark under which it is looked for; and the first and
/// the last timestamp at which it can matter.
#[derive(Clone, Copy, Drop)]
pub struct Life {
    pub mark: u64,
    pub touch: usize,
    pub from: u64,
    pub until: u64,
}

/// How a userset that is stored in another is looked for: for its own members, or by its object.
#[derive(Clone, Copy, Drop)]
pub enum Way {
    Own,
    Object,
}
