//! Requests, and the words that ask for them.

ghost use Rattle.std.specs.Prelude.{◌≡◌, ◌⊎◌, ℕ, [], ◌∷◌, Ok, Some, None, true, false, not, is_some, Bool, List, Option, IfOk, IfErr, IfSome, codes, map, slice_get, string_bytes, option_map};
ghost use Rattle.clap.specs.Words.{Row, Text, rows_of, found_of, first_of, one_of, subcommand_of, subcommand_rows_of, takes, kind_of, FailsBy, fault_of};
ghost use Rattle.command_line.specs.Commands as spec;
ghost use Rattle.command_line.specs.Asked.{AreTaken, AskForHelp, Asked, GivesFlag, GivesNumber, GivesOption, IsAskedBy, IsAuditFound, IsFlagIn, IsFollowFound, IsFoundBehind, IsFoundIn, IsHistoryFound, IsMakeFound, IsNumberIn, IsOptionIn, IsWholeIn, Write, asked_by, asked_in, command_of, is_plain_word, is_to_show, audits, follows, makes, tells};
ghost use Rattle.command_line.specs.declared.request.Answer.TheVariants.{Asks};
ghost use Rattle.command_line.specs.declared.request.Request.TheVariants.{Joined};

use crate::commands::{program, strict};
use clap::error::ErrorKind;
use clap::{ArgMatches, Error};
use std::alloc::{AllocError, Global};

/// What a user asks of the program.
#[derive(Clone, Copy, Debug, PartialEq, Eq)]
pub enum Request<'a> {
    /// The audit of joined input on standard input.
    Joined,
    /// The audit of a trace by evidence, both files, on some workers that take slices of so many entries; early
    /// alerts go to standard error where they are asked for. Without a file of evidence it is made.
    Audit {
        trace: &'a str,
        evidence: Option<&'a str>,
        workers: u64,
        slice: u64,
        early: bool,
    },
    /// Evidence for the trace of a file; the lines of the entries that have none go to standard error where they are
    /// asked for.
    Make {
        trace: &'a str,
        list: bool,
    },
    /// When a tuple was added and removed in the trace of a file.
    History {
        trace: &'a str,
        tuple: &'a str,
    },
    /// The audit of the trace of a file as it comes, by evidence that is made; with heartbeats where they are asked for.
    /// It goes on behind the log of the carry in the file `from`, and hands on a carry in the file `carry`, whose base
    /// moves up to the timestamp `oldest`, and which has so many `versions` of content, or all.
    Follow {
        trace: &'a str,
        from: Option<&'a str>,
        carry: Option<&'a str>,
        oldest: Option<u64>,
        versions: Option<u64>,
        heartbeat: bool,
    },
}

/// What the words come to.
#[derive(Drop)]
pub enum Answer<'a> {
    Asks(Request<'a>),
    /// The text of help or of the version, for standard output.
    Shows(String),
    /// What is wrong with the words, for standard error.
    Refuses(String),
}

/// The matches of the words, by the commands without rules between their arguments.
fn parse<'a>(alloc: Global, words: &'a [String]) -> Result<ArgMatches<'a>, Error>
    ensures matches { IfOk result
        (λ m. subcommand_rows_of m ≡ subcommand_of spec.program (map string_bytes words.entry.now)) }
    ensures passes { IfErr result (λ e. takes spec.program (map string_bytes words.entry.now) ≡ true
        → kind_of e ≡ ErrorKind.OutOfMemory) }
    ensures kinds { FailsBy (fault_of spec.program (map string_bytes words.entry.now)) result }
{
    program(alloc)?.try_get_matches_from(words)
}

/// The text of an argument.
fn text<'a>(matches: &ArgMatches<'a>, id: &str) -> Option<&'a str>
    ensures { option_map (λ s. s.now) result ≡ first_of id.now (rows_of (found_of matches.now)) }
{
    matches.get_str(id)
}

/// The number of an argument.
fn number(matches: &ArgMatches, id: &str) -> Option<u64>
    ensures whole { (n : ℕ) → GivesNumber (rows_of (found_of matches.now)) id.now n → result ≡ Some n }
    ensures given { IfSome result (IsNumberIn (rows_of (found_of matches.now)) id.now) }
    ensures option { (o : Option ℕ) → GivesOption (rows_of (found_of matches.now)) id.now o → result ≡ o }
    ensures option_given { IsOptionIn (rows_of (found_of matches.now)) id.now result }
{
    matches.get_one::<u64>(id)
}

/// Whether a flag was given.
fn has(matches: &ArgMatches, id: &str) -> bool
    ensures whole { (b : Bool) → GivesFlag (rows_of (found_of matches.now)) id.now b → result ≡ b }
    ensures given { IsFlagIn (rows_of (found_of matches.now)) id.now result }
{
    matches.get_flag(id)
}

/// The request of what was found for `audit`, where evidence or `--make` is there, and not both, and not `--make` with
/// `--early`.
fn ask_for_audit<'a>(
    trace: Option<&'a str>,
    evidence: Option<&'a str>,
    make: bool,
    workers: Option<u64>,
    slice: Option<u64>,
    early: bool,
) -> Option<Request<'a>>
    ensures asked { (t : Text) (w n : ℕ) → option_map (λ s. s.now) trace.entry ≡ Some t
        → make ≡ not (is_some evidence.entry) → workers ≡ Some w → slice ≡ Some n
        → (early ≡ true → is_some evidence.entry ≡ true)
        → option_map asked_by result ≡ Some (audits t (option_map (λ s. s.now) evidence.entry) w n early) }
    ensures named { IfSome result (λ r. command_of (asked_by r) ≡ Some (codes "audit")) }
    ensures given { IfSome result (λ r. (t : Text) × (w : ℕ) × (n : ℕ)
        × (option_map (λ s. s.now) trace.entry ≡ Some t) × (workers ≡ Some w) × (slice ≡ Some n)
        × (asked_by r ≡ audits t (option_map (λ s. s.now) evidence.entry) w n early)) }
{
    if evidence.is_some() == make {
        return None;
    }
    if early && make {
        return None;
    }
    match (trace, workers, slice) {
        (Some(trace), Some(workers), Some(slice)) => {
            Some(Request::Audit {
                trace,
                evidence,
                workers,
                slice,
                early,
            })
        }
        _ => None,
    }
}

fn audit_of<'a>(matches: &ArgMatches<'a>) -> Option<Request<'a>>
    ensures asked { (t : Text) (e : Option Text) (w n : ℕ) (early : Bool)
        → IsAuditFound (rows_of (found_of matches.now)) t e w n early
        → option_map asked_by result ≡ Some (audits t e w n early) }
    ensures named { IfSome result (λ r. command_of (asked_by r) ≡ Some (codes "audit")) }
    ensures given { IfSome result (λ r. IsFoundIn (rows_of (found_of matches.now)) (asked_by r)) }
{
    let trace = text(matches, "TRACE");
    let evidence = text(matches, "EVIDENCE");
    let make = has(matches, "make");
    let workers = number(matches, "workers");
    let slice = number(matches, "slice");
    let early = has(matches, "early");
    ask_for_audit(trace, evidence, make, workers, slice, early)
}

fn make_of<'a>(matches: &ArgMatches<'a>) -> Option<Request<'a>>
    ensures asked { (t : Text) (list : Bool) → IsMakeFound (rows_of (found_of matches.now)) t list
        → option_map asked_by result ≡ Some (makes t list) }
    ensures named { IfSome result (λ r. command_of (asked_by r) ≡ Some (codes "make")) }
    ensures given { IfSome result (λ r. IsFoundIn (rows_of (found_of matches.now)) (asked_by r)) }
{
    let list = has(matches, "list");
    match text(matches, "TRACE") {
        Some(trace) => Some(Request::Make { trace, list }),
        None => None,
    }
}

fn history_of<'a>(matches: &ArgMatches<'a>) -> Option<Request<'a>>
    ensures asked { (t u : Text) → IsHistoryFound (rows_of (found_of matches.now)) t u
        → option_map asked_by result ≡ Some (tells t u) }
    ensures named { IfSome result (λ r. command_of (asked_by r) ≡ Some (codes "history")) }
    ensures given { IfSome result (λ r. IsFoundIn (rows_of (found_of matches.now)) (asked_by r)) }
{
    let trace = text(matches, "TRACE");
    let tuple = text(matches, "TUPLE");
    match (trace, tuple) {
        (Some(trace), Some(tuple)) => Some(Request::History { trace, tuple }),
        _ => None,
    }
}

fn follow_of<'a>(matches: &ArgMatches<'a>) -> Option<Request<'a>>
    ensures asked { (t : Text) (from carry : Option Text) (oldest versions : Option ℕ) (heartbeat : Bool)
        → IsFollowFound (rows_of (found_of matches.now)) t from carry oldest versions heartbeat
        → option_map asked_by result ≡ Some (follows t from carry oldest versions heartbeat) }
    ensures named { IfSome result (λ r. command_of (asked_by r) ≡ Some (codes "follow")) }
    ensures given { IfSome result (λ r. IsFoundIn (rows_of (found_of matches.now)) (asked_by r)) }
{
    let from = text(matches, "from");
    let carry = text(matches, "carry");
    let oldest = number(matches, "oldest-snapshot");
    let versions = number(matches, "keep-versions");
    let heartbeat = has(matches, "heartbeat");
    if (oldest.is_some() || versions.is_some()) && carry.is_none() {
        return None;
    }
    match text(matches, "TRACE") {
        Some(trace) => {
            Some(Request::Follow {
                trace,
                from,
                carry,
                oldest,
                versions,
                heartbeat,
            })
        }
        None => None,
    }
}

fn request_of<'a>(matches: &ArgMatches<'a>) -> Option<Request<'a>>
    ensures audit { (rows : List Row) (t : Text) (e : Option Text) (w n : ℕ) (early : Bool)
        → subcommand_rows_of matches.now ≡ Some (codes "audit", rows) → IsAuditFound rows t e w n early
        → option_map asked_by result ≡ Some (audits t e w n early) }
    ensures make { (rows : List Row) (t : Text) (list : Bool)
        → subcommand_rows_of matches.now ≡ Some (codes "make", rows) → IsMakeFound rows t list
        → option_map asked_by result ≡ Some (makes t list) }
    ensures history { (rows : List Row) (t u : Text)
        → subcommand_rows_of matches.now ≡ Some (codes "history", rows) → IsHistoryFound rows t u
        → option_map asked_by result ≡ Some (tells t u) }
    ensures follow { (rows : List Row) (t : Text) (from carry : Option Text) (oldest versions : Option ℕ) (heartbeat : Bool)
        → subcommand_rows_of matches.now ≡ Some (codes "follow", rows)
        → IsFollowFound rows t from carry oldest versions heartbeat
        → option_map asked_by result ≡ Some (follows t from carry oldest versions heartbeat) }
    ensures named { IfSome result
        (λ r. option_map (λ p. p.0) (subcommand_rows_of matches.now) ≡ command_of (asked_by r)) }
    ensures some { IfSome result (λ r. is_some (command_of (asked_by r)) ≡ true) }
    ensures given { IfSome result (λ r. IsFoundBehind (subcommand_rows_of matches.now) (asked_by r)) }
{
    match matches.subcommand()? {
        ("audit", found) => audit_of(found),
        ("make", found) => make_of(found),
        ("history", found) => history_of(found),
        ("follow", found) => follow_of(found),
        _ => None,
    }
}

/// The text of an error, and for an audit without evidence that `--make` is there.
fn told(alloc: Global, words: &[String], error: &Error) -> Result<String, AllocError> {
    let audits = match words.first() {
        Some(word) => word.as_str() == "audit",
        None => false,
    };
    if audits && error.kind() == ErrorKind::MissingRequiredArgument {
        return format!(in alloc;
            "{error}Without a file of evidence: new_enemy audit <TRACE> --make\n"
        );
    }
    format!(in alloc; "{error}")
}

/// What the commands with their rules say of words that ask for nothing.
fn text_for(alloc: Global, words: &[String]) -> Result<String, AllocError> {
    match strict(alloc)?.try_get_matches_from(words) {
        Ok(_matches) => format!(in alloc; "usage"),
        Err(error) if error.kind() == ErrorKind::OutOfMemory => Err(AllocError),
        Err(error) => told(alloc, words, &error),
    }
}

/// The text of an error as an answer: help and the version are shown, and any other error is a refusal.
fn told_as<'a>(error: &Error, text: String) -> Answer<'a>
    ensures nothing { asked_in result ≡ None }
    ensures shown { is_to_show result ≡ true
        → (kind_of error.now ≡ ErrorKind.DisplayHelp) ⊎ (kind_of error.now ≡ ErrorKind.DisplayVersion) }
{
    if error.use_stderr() {
        Answer::Refuses(text)
    } else {
        Answer::Shows(text)
    }
}

/// Reads the words behind the program's name.
///
/// Without words joined input is asked for. Words that name no command, lack one of its words, have one too many,
/// repeat an option or give it no number below 2^64 are refused, and so is an audit with both evidence and `--make`, or
/// with neither, or of `--make` with `--early`, and `--oldest-snapshot` or `--keep-versions` without `--carry`. Help and the
/// version are shown where they are asked for.
pub fn read_words<'a>(alloc: Global, words: &'a [String]) -> Result<Answer<'a>, AllocError>
    ensures joined { IfOk result (λ a. a ≡ Asks Joined → words.now ≡ []) }
    ensures none { words.now ≡ [] → result ≡ Ok (Asks Joined) }
    // What is asked for is what the first word names, and the audit of joined input where there is none.
    ensures first { IfOk result
        (λ a. IfSome (asked_in a) (λ r. slice_get (map string_bytes words.now) 0 ≡ command_of r)) }
    // It is what clap finds in the words: their paths, tuple and numbers.
    ensures asked { IfOk result (λ a. IfSome (asked_in a) (IsAskedBy (map string_bytes words.now))) }
    // Words that clap takes, and that write a whole request, ask for it, whatever their number.
    ensures taken { AreTaken (map string_bytes words.now) → (a : Asked) → Write (map string_bytes words.now) a
        → IfOk result (λ r. asked_in r ≡ Some a) }
    // Nothing is shown in place of an answer but what was asked for.
    ensures shown { IfOk result (λ a. is_to_show a ≡ true → AskForHelp (map string_bytes words.now)) }
    ensures audit { (t e : Text) → map string_bytes words.now ≡ codes "audit" ∷ t ∷ e ∷ []
        → is_plain_word t ≡ true → is_plain_word e ≡ true
        → IfOk result (λ a. asked_in a ≡ Some (audits t (Some e) 1 64 false)) }
    ensures audit_made { (t : Text) → map string_bytes words.now ≡ codes "audit" ∷ t ∷ codes "--make" ∷ []
        → is_plain_word t ≡ true
        → IfOk result (λ a. asked_in a ≡ Some (audits t None 1 64 false)) }
    ensures make { (t : Text) → map string_bytes words.now ≡ codes "make" ∷ t ∷ [] → is_plain_word t ≡ true
        → IfOk result (λ a. asked_in a ≡ Some (makes t false)) }
    ensures history { (t u : Text) → map string_bytes words.now ≡ codes "history" ∷ t ∷ u ∷ []
        → is_plain_word t ≡ true → is_plain_word u ≡ true
        → IfOk result (λ a. asked_in a ≡ Some (tells t u)) }
    ensures follow { (t : Text) → map string_bytes words.now ≡ codes "follow" ∷ t ∷ [] → is_plain_word t ≡ true
        → IfOk result (λ a. asked_in a ≡ Some (follows t None None None None false)) }
    ensures follow_input { map string_bytes words.now ≡ codes "follow" ∷ []
        → IfOk result (λ a. asked_in a ≡ Some (follows (codes "/dev/stdin") None None None None false)) }
{
    if words.is_empty() {
        return Ok(Answer::Asks(Request::Joined));
    }
    match parse(alloc, words) {
        Ok(matches) => match request_of(&matches) {
            Some(request) => Ok(Answer::Asks(request)),
            None => Ok(Answer::Refuses(text_for(alloc, words)?)),
        },
        Err(error) if error.kind() == ErrorKind::OutOfMemory => Err(AllocError),
        Err(error) => Ok(told_as(&error, text_for(alloc, words)?)),
    }
}
