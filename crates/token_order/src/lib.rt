//! The order of tokens in a trace: whether each check was evaluated at a snapshot that its zookie, and the version
//! that it names, allow (Zanzibar, sections 2.2 and 2.4).
//!
//! [`order_of`] says of an entry which of six things are found on it, each exactly where its sentence in `Order` is
//! true, with the line that the sentence names. The sentences speak of all commits; the code compares an entry with
//! the commits next to it, its zookie and one content check, so it takes no memory and its cost does not grow with
//! the trace.
//!
//! By the law [`laws::fresh_without_findings`] a trace without such findings is in order: every content check covers
//! all commits before it, no commit behind an entry changes what its snapshot has, every check is as new as its
//! zookie and as the content check of its version, and each token that was issued for content carries the snapshot of
//! its check. By the laws [`laws::findings_deny`] and [`laws::unfound_is_upheld`] each finding denies what it is named
//! for, and where it is not found, that holds.
//!
//! ```text
//! let findings = order_of(&trace, 0);
//! ```
#![tactic(auto)]

mod findings;
pub mod laws;
mod order;

pub use findings::OrderFindings;
pub use order::order_of;
