//! Versions of content, borrowed from the texts that name them.

ghost use Rattle.std.specs.Prelude.{◌≡◌};
ghost use Rattle.trace_lines.specs.VersionMarks.{version_mark};

use marks::MarkedSet;
use tuple_text::SetRef;

/// A version by its object, which is that of a userset, and its label, with its mark: equal versions have equal marks.
#[derive(Clone, Copy, Drop)]
pub(crate) struct VersionRef<'a> {
    pub(crate) object: SetRef<'a>,
    pub(crate) label: &'a str,
    pub(crate) mark: u64,
    ghost is_its_mark: { mark
        ≡ version_mark (record { namespace = object.namespace.now; id = object.id.now; label = label.now }) },
}

impl<'a> VersionRef<'a> {
    /// The version of the userset's object that has this label.
    pub(crate) fn of(object: SetRef<'a>, label: &'a str) -> VersionRef<'a>
        ensures object { result.object ≡ object.entry }
        ensures label { result.label ≡ label.entry }
    {
        let set = MarkedSet::of(SetRef {
            namespace: object.namespace,
            id: object.id,
            relation: label,
        });
        VersionRef {
            object,
            label,
            mark: set.mark,
        }
    }
}
