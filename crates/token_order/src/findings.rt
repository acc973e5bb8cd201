//! What is found on an entry.

/// What is wrong with the tokens of an entry. A line is one of the trace, from 1.
#[derive(Clone, Copy, Debug, PartialEq, Eq)]
pub struct OrderFindings {
    /// A check below its zookie.
    pub stale: bool,
    /// A check of a version, whose zookie is absent or below the snapshot of the content check on this line, which
    /// issued it.
    pub old_token: Option<u64>,
    /// A content check below a commit on an earlier line; this is the last such line of a commit.
    pub not_latest: Option<u64>,
    /// An entry at or above a commit on a later line; this is the first such line of a commit.
    pub open_snapshot: Option<u64>,
    /// A content check that was authorized, and issued no zookie of its snapshot.
    pub wrong_token: bool,
    /// A check of a version that nobody issued on an earlier line.
    pub unknown_version: bool,
}
