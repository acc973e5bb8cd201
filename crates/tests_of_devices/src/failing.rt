//! Readers and writers that fail in mid-stream. What a run answers on its input, with which text and status, is
//! shown by rows.

use audit::{AuditFault, Verdict, audit_joined, audit_plain};
use devices::{Counted, Failing, Held};
use std::alloc::Global;
use std::test::Fail;
use trace_lines::{Cause, TraceFault};

const TRACE: &str =
    "{\"kind\":\"namespace\",\"name\":\"doc\",\"relations\":[{\"name\":\"viewer\"}]}\n{\"kind\":\"commit\",\"at\":5,\"add\":[\"doc:readme#viewer@10\"]}\n{\"kind\":\"check\",\"goal\":\"doc:readme#viewer@10\",\"snapshot\":5,\"reply\":true,\"zookie\":\"z1-0000000000000005\"}\n";

const EVIDENCE: &str = "{\"line\":3,\"steps\":[{\"yes\":\"doc:readme#viewer@10\"}]}\n";

const CLEAN: &str = "entries 1\nfindings 0\nverdict clean\n";

fn joined(alloc: Global) -> Result<String, Fail> {
    Ok(format!(in alloc; "{TRACE}---\n{EVIDENCE}")?)
}

/// Whether the joined audit stops behind these bytes of the report.
fn stops_behind(alloc: Global, input: &str, writer: Failing<Vec<u8>>, report: &str) -> bool {
    let mut reader = Held::new(input.as_bytes());
    let mut out = Counted::new(writer);
    let answer = audit_joined(alloc, &mut reader, &mut out);
    let went: Vec<u8> = out.into_inner().into_inner();
    let written = report.len();
    answer == Err(AuditFault::Write { written }) && went.as_slice() == report.as_bytes()
}

#[test]
fn writers_fail(rt: HostRuntime) -> Result<(), Fail> {
    let alloc = rt.alloc();
    let input = joined(alloc)?;
    // after ten bytes, and at the flush
    assert!(rt;
        stops_behind(
            alloc,
            &input,
            Failing::after(Vec::new(alloc), 10),
            "entries 1\n"
        )
    );
    assert!(rt; stops_behind(alloc, &input, Failing::at_call(Vec::new(alloc), 2), CLEAN));
    Ok(())
}

/// The answer of a plain audit whose trace can be read up to a place, where nothing is written.
fn cut_trace(alloc: Global, bytes: u64) -> Option<Result<Verdict, AuditFault>> {
    let mut trace = Counted::new(Failing::after(TRACE.as_bytes(), bytes));
    let mut evidence = Held::new(EVIDENCE.as_bytes());
    let mut out = Counted::new(Vec::new(alloc));
    let answer = audit_plain(alloc, &mut trace, &mut evidence, &mut out);
    let written: Vec<u8> = out.into_inner();
    if written.is_empty() {
        Some(answer)
    } else {
        None
    }
}

/// The answer of a joined audit whose input can be read up to a place.
fn cut_input(alloc: Global, input: &str, bytes: u64) -> Result<Verdict, AuditFault> {
    let mut reader = Counted::new(Failing::after(input.as_bytes(), bytes));
    let mut out = Counted::new(Vec::new(alloc));
    audit_joined(alloc, &mut reader, &mut out)
}

#[test]
fn readers_fail(rt: HostRuntime) -> Result<(), Fail> {
    let alloc = rt.alloc();
    let second_line_ends = TRACE.len() as u64 - 104;
    let fault = TraceFault {
        line: 3,
        cause: Cause::Read,
    };
    assert!(rt; cut_trace(alloc, second_line_ends) == Some(Err(AuditFault::Trace(fault))));
    let input = joined(alloc)?;
    let in_the_evidence = TRACE.len() as u64 + 4;
    assert!(rt; cut_input(alloc, &input, in_the_evidence) == Err(AuditFault::Input));
    Ok(())
}

#[test]
fn histories_take_no_memory(rt: HostRuntime) {
    assert_eq!(rt; size_of::<Counted<u64>>(), size_of::<u64>());
}
