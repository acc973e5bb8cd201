//! Tests of the audit over bytes in memory, over readers and writers that fail in mid-stream, and on several workers. They use public calls alone, and nothing stands on this crate.
//!
//! No contract says at which call `Failing` fails, nor that a flush reaches the device: these tests show both.
#![tactic(auto)]

#[cfg(test)]
mod failing;
#[cfg(test)]
mod in_memory;
#[cfg(test)]
mod workers;
