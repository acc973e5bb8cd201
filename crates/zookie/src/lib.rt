//! Zookies: texts that carry a timestamp (Zanzibar, sections 2.2 and 2.4).
//!
//! Version 1 is `z1-` and sixteen digits `0-9a-f`, the most significant first. Version 2 is `z2-`, a byte
//! for the kind of token, and sixteen such digits. Contracts see a [`Zookie`] as the record `Token` of its
//! kind, which version 1 does not have, and its timestamp.
//!
//! Callers may rely on this: a zookie is read exactly from its text, each zookie has one text, and a refusal
//! is the least-numbered fault that applies. Nothing here takes memory.
//!
//! ```text
//! let zookie = Zookie::parse("z1-000000000000000c")?; // zookie.at() is 12
//! ```
#![tactic(auto)]

mod fault;
mod token;

pub use fault::ZookieFault;
pub use token::{TokenKind, TokenText, Zookie};
