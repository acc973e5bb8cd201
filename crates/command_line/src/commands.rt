//! The commands, as `clap` has them.

ghost use Rattle.std.specs.Prelude.{List, [], ◌∷◌, IfOk, codes};
ghost use Rattle.std.specs.List.{AllZip};
ghost use Rattle.clap.specs.Words.{Rule, new_rule};
ghost use Rattle.command_line.specs.Commands as spec;

use clap::{Arg, ArgAction, Command, value_parser};
use std::alloc::{AllocError, Global};

/// A file that a command reads.
fn file<'a>(alloc: Global, name: &'a str, help: &'a str) -> Arg<'a>
    ensures { spec.IsArg (spec.file name.entry.now) result }
{
    Arg::new(alloc, name).required(true).help(help)
}

fn optional<'a>(alloc: Global, name: &'a str, help: &'a str) -> Arg<'a>
    ensures { spec.IsArg (new_rule name.entry.now) result }
{
    Arg::new(alloc, name).help(help)
}

fn flag<'a>(alloc: Global, name: &'a str, help: &'a str) -> Arg<'a>
    ensures { spec.IsArg (spec.flag name.entry.now) result }
{
    Arg::new(alloc, name)
        .long(name)
        .action(ArgAction::SetTrue)
        .help(help)
}

/// A file that an option names.
fn path<'a>(alloc: Global, name: &'a str, help: &'a str) -> Arg<'a>
    ensures { spec.IsArg (spec.path name.entry.now) result }
{
    Arg::new(alloc, name)
        .long(name)
        .value_name("FILE")
        .help(help)
}

fn number<'a>(alloc: Global, name: &'a str, usual: &'a str, help: &'a str) -> Arg<'a>
    ensures { spec.IsArg (spec.number name.entry.now usual.entry.now) result }
{
    Arg::new(alloc, name)
        .long(name)
        .value_name("N")
        .value_parser(value_parser!(u64))
        .default_value(usual)
        .help(help)
}

fn evidence<'a>(alloc: Global) -> Arg<'a>
    ensures { spec.IsArg (new_rule (codes "EVIDENCE")) result }
{
    optional(
        alloc,
        "EVIDENCE",
        "The evidence for its replies, JSON lines; --make in its place makes it",
    )
}

fn making<'a>(alloc: Global) -> Arg<'a>
    ensures { spec.IsArg (spec.flag (codes "make")) result }
{
    flag(
        alloc,
        "make",
        "Make the evidence for each entry as it is checked",
    )
}

/// A command with these arguments.
fn command<'a>(
    alloc: Global,
    name: &'a str,
    about: &'a str,
    more: &'a str,
    args: Vec<Arg<'a>>,
) -> Result<Command<'a>, AllocError>
    ensures { (rules : List Rule) → AllZip spec.IsArg rules args.entry.items
        → IfOk result (spec.IsCommand (spec.with_rules name.entry.now rules)) }
{
    Command::new(alloc, name)
        .about(about)
        .after_help(more)
        .args(args)
}

fn audit<'a>(alloc: Global, evidence: Arg<'a>, make: Arg<'a>) -> Result<Command<'a>, AllocError>
    ensures { spec.IsArg (new_rule (codes "EVIDENCE")) evidence.entry → spec.IsArg (spec.flag (codes "make")) make.entry
        → IfOk result (spec.IsCommand spec.audit) }
{
    let args = vec![in alloc;
        trace(alloc),
        evidence,
        make,
        number(
            alloc,
            "workers",
            "1",
            "How many threads check entries, 1 to 16",
        ),
        number(
            alloc,
            "slice",
            "64",
            "How many entries a thread takes at a time, 1 to 4096",
        ),
        flag(
            alloc,
            "early",
            "Tell an entry's first finding on standard error as soon as it is seen",
        ),
    ]?;
    command(
        alloc,
        "audit",
        "Audits a trace by evidence for its replies, read or made, and writes a report",
        "Examples: new_enemy audit trace.jsonl evidence.jsonl --workers 4\n          new_enemy audit trace.jsonl --make\n\nA file that comes by a pipe is named /dev/stdin.\nExit status: 0 clean, 1 dirty, 2 the trace or the evidence is refused, 3 the words are, 4 out of memory,\n5 a file can't be opened or a device failed. With 2 to 5 there is no verdict.",
        args,
    )
}

fn trace<'a>(alloc: Global) -> Arg<'a>
    ensures { spec.IsArg (spec.file (codes "TRACE")) result }
{
    file(alloc, "TRACE", "The trace, JSON lines")
}

/// A command with a trace and one more argument.
fn of_trace<'a>(
    alloc: Global,
    name: &'a str,
    about: &'a str,
    more: &'a str,
    second: Arg<'a>,
) -> Result<Command<'a>, AllocError>
    ensures { (rule : Rule) → spec.IsArg rule second.entry
        → IfOk result (spec.IsCommand (spec.with_rules name.entry.now (spec.file (codes "TRACE") ∷ rule ∷ []))) }
{
    let args = vec![in alloc; trace(alloc), second]?;
    command(alloc, name, about, more, args)
}

fn make<'a>(alloc: Global) -> Result<Command<'a>, AllocError>
    ensures { IfOk result (spec.IsCommand spec.make) }
{
    let list = flag(
        alloc,
        "list",
        "Name the line of each entry that has no record on standard error",
    );
    of_trace(
        alloc,
        "make",
        "Writes evidence for a trace: a record for each entry that can be settled",
        "Example: new_enemy make trace.jsonl > evidence.jsonl\n\nHow many entries have no record is told on standard error. A file that comes by a pipe is named /dev/stdin.\nExit status: 0 written, 2 the trace is refused, 3 the words are, 4 out of memory,\n5 a file can't be opened or a device failed.",
        list,
    )
}

fn history<'a>(alloc: Global) -> Result<Command<'a>, AllocError>
    ensures { IfOk result (spec.IsCommand spec.history) }
{
    let tuple = file(
        alloc,
        "TUPLE",
        "The relation tuple, namespace:object_id#relation@user",
    );
    of_trace(
        alloc,
        "history",
        "Writes when a relation tuple was added and removed, newest first",
        "Example: new_enemy history trace.jsonl doc:readme#viewer@10\n\nOf a tuple that no commit touches nothing is written, also where its relation is not declared.\nA file that comes by a pipe is named /dev/stdin.\nExit status: 0 written, 2 the trace or the tuple is refused, 3 the words are, 4 out of memory,\n5 a file can't be opened or a device failed.",
        tuple,
    )
}

fn followed<'a>(alloc: Global) -> Arg<'a>
    ensures { spec.IsArg (spec.file_or (codes "TRACE") (codes "/dev/stdin")) result }
{
    Arg::new(alloc, "TRACE").default_value("/dev/stdin").help(
        "The trace, JSON lines, a file or a pipe; without one standard input",
    )
}

fn oldest<'a>(alloc: Global) -> Arg<'a>
    ensures { spec.IsArg (spec.optional_number (codes "oldest-snapshot")) result }
{
    Arg::new(alloc, "oldest-snapshot")
        .long("oldest-snapshot")
        .value_name("T")
        .value_parser(value_parser!(u64))
        .help(
            "The carry keeps the store at the last commit up to this timestamp, and what came behind it",
        )
}

fn versions<'a>(alloc: Global) -> Arg<'a>
    ensures { spec.IsArg (spec.optional_number (codes "keep-versions")) result }
{
    Arg::new(alloc, "keep-versions")
        .long("keep-versions")
        .value_name("N")
        .value_parser(value_parser!(u64))
        .help(
            "The carry keeps the content versions that were issued last, N of them, and those that waiting entries name",
        )
}

fn follow<'a>(alloc: Global, oldest: Arg<'a>, versions: Arg<'a>) -> Result<Command<'a>, AllocError>
    ensures { spec.IsArg (spec.optional_number (codes "oldest-snapshot")) oldest.entry
        → spec.IsArg (spec.optional_number (codes "keep-versions")) versions.entry
        → IfOk result (spec.IsCommand spec.follow) }
{
    let heartbeat = flag(
        alloc,
        "heartbeat",
        "Tell up to which line all entries are settled, after each read that settles any",
    );
    let from = path(
        alloc,
        "from",
        "Go on behind the log of this carry, which an earlier run wrote",
    );
    let carry = path(
        alloc,
        "carry",
        "Write a carry to this file, which must not exist: the next run begins with it",
    );
    let args = vec![in alloc; followed(alloc), heartbeat, from, carry, oldest, versions]?;
    command(
        alloc,
        "follow",
        "Audits a trace as it comes, by evidence that it makes, and tells each finding as soon as nothing can change it",
        "Examples: tail -n +1 -F trace.jsonl | new_enemy follow --heartbeat\n          new_enemy follow monday.jsonl --carry monday.carry\n          new_enemy follow tuesday.jsonl --from monday.carry --carry tuesday.carry --oldest-snapshot 90000\n\nThe lines are those of the report of audit --make, in the order in which they can be told. At the end of the\ninput come those that are left, the two counts and the verdict. A run with --from or --carry tells what its\nlines let tell: an entry that waits for a commit goes on in the carry. One that asks below the carry's store, or\nnames a version that was let go, is not audited, and is told so.\nExit status: 0 clean, 1 dirty, 2 the trace or the carry is refused, 3 the words are, 4 out of memory,\n5 a file can't be opened or a device failed, 6 nothing was found, and not all was audited. With 2 to 5 there is\nno verdict; what was told before stands.",
        args,
    )
}

/// The program before its commands are added.
fn bare<'a>(alloc: Global) -> Result<Command<'a>, AllocError>
    ensures { IfOk result (spec.IsCommand spec.bare) }
{
    let program = Command::new(alloc, "new_enemy").bin_name("new_enemy")?;
    Ok(
        program
            .version("0.3.0 (logic dac8208d650f15bf)")
            .about(
                "Audits recorded authorization decisions for ignored access changes and wrong replies",
            )
            .after_help(
                "Without a command it audits what standard input gives until its end: the trace, a line that is exactly ---, and the evidence.\nExit status: 0 clean, 1 dirty, 2 the input is refused, 4 out of memory, 5 a device failed.",
            )
            .no_binary_name(true),
    )
}

fn with_commands<'a>(
    alloc: Global,
    audit: Command<'a>,
    follow: Command<'a>,
) -> Result<Command<'a>, AllocError>
    ensures { spec.IsCommand spec.audit audit.entry → spec.IsCommand spec.follow follow.entry
        → IfOk result (spec.IsCommand spec.program) }
{
    let make = make(alloc)?;
    let history = history(alloc)?;
    let commands = vec![in alloc; audit, make, history, follow]?;
    bare(alloc)?.subcommands(commands)
}

/// The program with its commands, without rules between arguments: which words it takes its contract says.
pub(crate) fn program<'a>(alloc: Global) -> Result<Command<'a>, AllocError>
    ensures { IfOk result (spec.IsCommand spec.program) }
{
    let audit = audit(alloc, evidence(alloc), making(alloc))?;
    let follow = follow(alloc, oldest(alloc), versions(alloc))?;
    with_commands(alloc, audit, follow)
}

fn needed_evidence<'a>(alloc: Global) -> Result<Arg<'a>, AllocError> {
    evidence(alloc).required_unless_present("make")
}

fn strict_making<'a>(alloc: Global) -> Result<Arg<'a>, AllocError> {
    making(alloc)
        .conflicts_with("EVIDENCE")?
        .conflicts_with("early")
}

/// The same with the rules between arguments, for the texts of what is refused.
pub(crate) fn strict<'a>(alloc: Global) -> Result<Command<'a>, AllocError> {
    let audit = audit(alloc, needed_evidence(alloc)?, strict_making(alloc)?)?;
    let follow = follow(
        alloc,
        oldest(alloc).requires_arg("carry")?,
        versions(alloc).requires_arg("carry")?,
    )?;
    with_commands(alloc, audit, follow)
}
