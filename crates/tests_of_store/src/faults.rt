//! What faults say that no row of the program shows.

use namespaces::{RelNo, RulesFault};
use std::fmt::InlineText;
use strata::{ChangeFault, Edge};
use version_chains::AppendFault;

#[test]
fn faults_are_told(rt: HostRuntime) {
    for (fault, wanted) in [
        (AppendFault::OutOfMemory, "out of memory"),
        (AppendFault::Full, "too many changes"),
    ] {
        let text: InlineText<64> = InlineText::of(fault);
        assert!(rt; text.as_str() == wanted);
    }
    let rules: InlineText<64> = InlineText::of(RulesFault::OutOfMemory);
    assert!(rt; rules.as_str() == "out of memory");
    let change: InlineText<64> = InlineText::of(ChangeFault::OutOfMemory);
    assert!(rt; change.as_str() == "out of memory");
    let edge = Edge {
        reader: RelNo {
            namespace: 1,
            relation: 2,
        },
        premise: RelNo {
            namespace: 3,
            relation: 4,
        },
        strict: true,
    };
    let broken: InlineText<96> = InlineText::of(ChangeFault::Strata(edge));
    assert!(rt;
        broken.as_str()
            == "strata, relation 2 of namespace 1 reads relation 4 of namespace 3 strictly"
    );
}
