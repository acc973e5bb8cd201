//! The program: an auditor for recorded decisions of an authorization service that works as Zanzibar does.
//!
//! Without words it reads joined input, a trace and evidence for each recorded reply, and writes a report: a line for
//! each finding, how many entries and findings there are, and the verdict. Its commands do so with files, make
//! evidence, and write a tuple's history. [`run::run_on`] is the program on its devices, and says of them what they
//! gave and took; what it audits by is the library `audit`.
//!
//! Callers may rely on this: the exit status tells what the audit answered, or why it gave no verdict. Where an audit's
//! is 0, all that was read is a trace that is right and fresh, and evidence for it, and the report on them went out
//! whole. That of a run with a carry says what `specs/Carrying.antt` has.
#![tactic(auto)]

mod carrying;
mod files;
mod joined;
mod opened;
mod run;
mod status;

use devices::Counted;
use run::run_on;
use status::refuse_words;
use std::process::ExitCode;
use std::{env, io};

fn words(rt: &HostRuntime) -> io::Result<Vec<String>> {
    let mut words = Vec::new(rt.alloc());
    for word in env::args(rt)?.skip(1) {
        words.push(word)?;
    }
    Ok(words)
}

fn main(rt: HostRuntime) -> ExitCode {
    let words = match words(&rt) {
        Ok(words) => words,
        Err(error) => {
            let mut err = Counted::new(rt.stderr());
            return ExitCode::from(refuse_words(error.kind(), &mut err));
        }
    };
    let ended = run_on(
        &rt,
        rt.alloc(),
        &words,
        rt.reader(),
        io::writer(&rt),
        rt.stderr(),
    );
    ExitCode::from(ended.status)
}
