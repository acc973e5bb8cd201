//! What is known of a log.

/// How much of a log is known where a shorter one stands in for it.
#[derive(Clone, Copy)]
pub struct Known {
    /// What is stored is known at this timestamp and above it.
    pub base: u64,
    /// The versions are known that were issued from this line on: from line 0 on these are all.
    pub versions: u64,
}
