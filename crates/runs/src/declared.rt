//! The lines of a log that declare namespaces.

/// A line that declares a namespace, by its number in the whole log.
#[derive(Drop)]
pub struct DeclaredLine {
    pub line: u64,
    pub text: String,
}
