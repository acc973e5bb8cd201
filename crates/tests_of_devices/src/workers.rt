//! An audit by two workers whose early lines find no way out. What workers answer, and which early lines go out, is shown by rows.

use audit::{Verdict, audit_early};
use devices::{Counted, Failing, Held};
use std::test::*;

const RULES: &str =
    "{\"kind\":\"namespace\",\"name\":\"doc\",\"relations\":[{\"name\":\"viewer\"}]}\n{\"kind\":\"commit\",\"at\":5,\"add\":[\"doc:a#viewer@1\"]}\n\n";

const CHECK: &str =
    "{\"kind\":\"check\",\"goal\":\"doc:a#viewer@1\",\"snapshot\":5,\"reply\":true}\n";

const EVIDENCE: &str =
    "{\"line\":5,\"steps\":[{\"yes\":\"doc:a#viewer@1\"}]}\n{\"line\":6,\"steps\":[{\"yes\":\"doc:a#viewer@1\"}]}\n{\"line\":7,\"steps\":[{\"yes\":\"doc:a#viewer@1\"}]}\n{\"line\":8,\"steps\":[]}\n";

#[test]
fn early_fails_and_the_audit_goes_on(rt: HostRuntime) -> Result<(), Fail> {
    let alloc = rt.alloc();
    let input = format!(in alloc; "{RULES}{CHECK}{CHECK}{CHECK}{CHECK}{CHECK}")?;
    let mut trace = Held::new(input.as_bytes());
    let mut evidence = Held::new(EVIDENCE.as_bytes());
    let mut out = Counted::new(Vec::new(alloc));
    let mut early = Counted::new(Failing::at_call(Vec::new(alloc), 1));
    let answer = audit_early(
        &rt,
        alloc,
        &mut trace,
        &mut evidence,
        &mut out,
        &mut early,
        2,
        1,
    );
    assert!(rt; answer == Ok(Verdict::Dirty));
    let told: Vec<u8> = early.into_inner().into_inner();
    assert!(rt; told.is_empty());
    Ok(())
}
