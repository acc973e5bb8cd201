//! Names, each once, with what is kept under each: in the order in which they were put, and found by their texts.
//!
//! Names of namespaces and relations are a stranger's. So they stand in a tree, in the order of their texts, and in no
//! table of hashes: whatever they are, a name is found by comparing it with the logarithm of their number.
//!
//! Contracts see [`Names`] as the list of its entries. Callers may rely on this: [`Names::place`] says where a name
//! stands, and that it stands nowhere; [`Names::put`] puts a name last that is not there, and else changes nothing.
//!
//! ```text
//! if !names.put(name, relation)? {
//!     return Err(Repeated);
//! }
//! let relation = names.get("viewer");
//! ```
#![tactic(auto)]

mod table;

pub use table::Names;
