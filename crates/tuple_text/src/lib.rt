//! Relation tuples as texts: `namespace:object_id#relation@user`, where a user is an id or a userset
//! (Zanzibar, section 2.1).
//!
//! A [`Userset`], a [`Tuple`] and a [`Fact`] are valid by their type: whoever holds one knows that each of
//! its parts is in the form of the grammar. Contracts see them as records of byte lists: a userset as
//! `SetValue`, a tuple as `TupleValue`, a fact as `FactValue`, and a user as the enum itself.
//! [`SetRef`] and [`UserRef`] borrow the parts and promise nothing of them. A [`FactRef`] and a [`TupleRef`] borrow
//! parts that are in form; contracts see them by `fact_value` and `tuple_value` as the fact and the tuple.
//!
//! Callers may rely on this: reading answers a value exactly where the text is the value's text, each
//! value has one spelling, a refusal names the leftmost part that fails and the byte at which it begins,
//! and writing a tuple or a fact appends the text or changes nothing. Equality is equality of values. The order
//! goes by the bytes of namespace, object id and relation, and then by the user, ids first and as numbers.
//! Memory is asked for by parsing, `of`, `to_fact`, `to_tuple`, clones and writing alone: [`read_fact`] and
//! [`read_tuple`] ask for none. [`quoted_fact`] and [`quoted_tuple`] read from the front of a text, up to the quote
//! that ends the fact or tuple in JSON: where they answer, its text stands so in JSON.
//!
//! ```text
//! let tuple = parse_tuple(alloc, "doc:plan#viewer@20")?;
//! write_tuple(&tuple, &mut text)?;
//! ```
#![tactic(auto)]

mod fact_refs;
mod facts;
mod fault;
mod forms;
mod quoted;
mod reading;
mod sets;
mod tuple_refs;
mod tuples;
mod users;
mod writing;

pub use fact_refs::FactRef;
pub use facts::Fact;
pub use fault::TupleFault;
pub use forms::{is_name, number_before};
pub use quoted::{quoted_fact, quoted_tuple};
pub use reading::{parse_fact, parse_tuple, parse_userset, read_fact, read_tuple};
pub use sets::{SetRef, Userset};
pub use tuple_refs::TupleRef;
pub use tuples::Tuple;
pub use users::{User, UserRef};
pub use writing::{push_set, write_fact, write_tuple};
