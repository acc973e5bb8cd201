//! Versions of content, found by their marks.

ghost use Rattle.std.specs.Prelude.{◌≡◌, ◌∷◌, ◌++◌, [], option_map, OnOk, OnErr};
ghost use Rattle.trace_lines.specs.Issued.{AreIssued, version_value};
ghost use Rattle.trace_lines.specs.Recorded.{shown};
ghost use Rattle.trace_lines.specs.EntryViews.{entry_value};
ghost use Rattle.trace_lines.specs.VersionMarks.{version_mark};
ghost use Rattle.trace_lines.specs.Versions.{entry_version, issuer};

use crate::entries::Entries;
use crate::entry::Entry;
use crate::version_ref::VersionRef;
use marks::Places;
use std::alloc::{AllocError, Global};

/// The version that stands in an entry.
pub(crate) fn version_of<'a>(entry: &Entry<'a>) -> Option<VersionRef<'a>>
    ensures { option_map version_value result ≡ entry_version (entry_value entry.now) }
{
    match entry.version {
        Some(label) => Some(VersionRef::of(entry.goal.set(), label)),
        None => None,
    }
}

/// The versions that the entries of a trace issued, each by the number of its entry, where its texts stand.
///
/// They are found as the store finds tuples: no choice of texts makes that slower than the logarithm of their number,
/// as long as few of them have one mark.
#[derive(Drop)]
pub(crate) struct Versions {
    entries: Vec<usize>,
    marks: Places,
}

impl Versions {
    pub(crate) fn new(alloc: Global) -> Versions
        ensures { AreIssued result [] }
    {
        Versions {
            entries: Vec::new(alloc),
            marks: Places::new(alloc),
        }
    }

    /// Which of these entries issued the version.
    pub(crate) fn issuer(&self, recorded: &Entries, version: VersionRef<'_>) -> Option<usize>
        requires { AreIssued self.now (shown recorded.now) }
        ensures { result ≡ issuer (shown recorded.now) (version_value version.entry) }
    {
        for index in self.marks.with(version.mark) {
            let number = self.entries[index];
            if recorded.has_version(number, version) {
                return Some(number);
            }
        }
        None
    }

    /// Adds the version that the entry of this number issues. Where memory runs out, nothing changes.
    pub(crate) fn push(&mut self, version: VersionRef<'_>, number: usize) -> Result<(), AllocError>
        ensures entries { OnOk result (self.new.entries.items ≡ self.old.entries.items ++ number ∷ []) }
        ensures marks { OnOk result (self.new.marks
            ≡ self.old.marks ++ version_mark (version_value version.entry) ∷ []) }
        ensures same_entries { OnErr result (self.new.entries.items ≡ self.old.entries.items) }
        ensures same_marks { OnErr result (self.new.marks ≡ self.old.marks) }
    {
        self.entries.reserve(1)?;
        self.marks.push(version.mark)?;
        self.entries.push_reserved(number);
        Ok(())
    }
}
