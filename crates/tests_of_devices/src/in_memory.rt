//! An audit of bytes in memory, as another program would make it. ARCHITECTURE.md shows this file.

use audit::{AuditFault, Verdict, audit_plain};
use devices::{Counted, Held};
use std::alloc::Global;

const TRACE: &str = "\
{\"kind\":\"namespace\",\"name\":\"doc\",\"relations\":[{\"name\":\"viewer\"},{\"name\":\"editor\"}]}
{\"kind\":\"commit\",\"at\":5,\"add\":[\"doc:plan#viewer@20\",\"doc:plan#editor@30\"]}
{\"kind\":\"commit\",\"at\":10,\"remove\":[\"doc:plan#viewer@20\"]}
{\"kind\":\"content\",\"goal\":\"doc:plan#editor@30\",\"snapshot\":12,\"reply\":true,\"zookie\":\"z1-000000000000000c\",\"version\":\"v2\"}
{\"kind\":\"check\",\"goal\":\"doc:plan#viewer@20\",\"snapshot\":9,\"reply\":true,\"version\":\"v2\"}
";

const EVIDENCE: &str = "\
{\"line\":4,\"steps\":[{\"yes\":\"doc:plan#editor@30\"}]}
{\"line\":5,\"steps\":[{\"yes\":\"doc:plan#viewer@20\"}]}
";

/// The verdict on a trace and evidence for it, and the report behind what `report` holds.
fn audit_in_memory(
    alloc: Global,
    trace: &str,
    evidence: &str,
    report: &mut Vec<u8>,
) -> Result<Verdict, AuditFault> {
    let mut trace = Held::new(trace.as_bytes());
    let mut evidence = Held::new(evidence.as_bytes());
    let mut out = Counted::new(report);
    audit_plain(alloc, &mut trace, &mut evidence, &mut out)
}

#[test]
fn a_new_enemy_in_memory(rt: HostRuntime) {
    let mut report = Vec::new(rt.alloc());
    let answer = audit_in_memory(rt.alloc(), TRACE, EVIDENCE, &mut report);
    assert!(rt; answer == Ok(Verdict::Dirty));
    let text = "line 5: F2 old token, see line 4\nentries 2\nfindings 1\nverdict dirty\n";
    assert!(rt; report.as_slice() == text.as_bytes());
}
