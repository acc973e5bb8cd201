//! Traces that are read, line by line.

ghost use Rattle.std.specs.Prelude.{◌≡◌, ◌+◌, ◌≤◌, Some, None, [], length, take, true, false, ◌++◌, option_map, option_and_then, Ok, OnOk, OnErr};
ghost use Rattle.std.specs.Option.{ForSome};
ghost use Rattle.serde_json.specs.View.{view};
ghost use Rattle.tuple_text.specs.Refs.{set_value};
ghost use Rattle.tuple_text.specs.TupleRefs.{tuple_values};
ghost use Rattle.trace_lines.specs.Causes.{Gives};
ghost use Rattle.edge_checks.specs.Indexed.{IsIndex};
ghost use Rattle.trace_lines.specs.LineValues.{commits, declares, put_line, records};
ghost use Rattle.trace_lines.specs.LineViews.{IsOfItsText, line_value};
ghost use Rattle.trace_lines.specs.EntryViews.{entry_value};
ghost use Rattle.trace_lines.specs.Values.{empty_trace, next_line};
ghost use Rattle.trace_lines.specs.Traces.{is_declared, are_declared, is_begun, namespace_line, change_line, declaration_line, commit_checked, with_commit, recorded, with_entry};
ghost use Rattle.trace_lines.specs.Versions.{entry_version, version_issued, issuer, content_among};
ghost use Rattle.trace_lines.specs.declared.entry.EntryKind.TheVariants.{Content};
ghost use Rattle.version_chains.specs.Appends.{appended, late_fault, last_at};
ghost use Rattle.version_chains.specs.declared.fault.AppendFault.TheVariants.{NotLater};
ghost use Rattle.strata.specs.Edges.{first_broken, edges_of_tuples};
ghost use Rattle.edge_checks.specs.Sampled.{Represents};
ghost use Rattle.trace_lines.specs.Declaring.{rules_changed};
ghost use Rattle.namespaces.specs.Changing.{IsLater};
ghost use Rattle.userset_index.specs.Growth.{IsGrowing};
ghost use Rattle.userset_index.specs.Index.{IsUsersetIndex};

use crate::cause::Cause;
use crate::declaring::{change, declare, late_change};
use crate::entries::{Entries, OwnedEntry};
use crate::entry::{Entry, EntryKind};
use crate::line::{Line, Said, TraceLine, parse_line};
use crate::owned::OwnedCommit;
use crate::paused::PausedTrace;
use crate::trace::Trace;
use crate::versions::{Versions, version_of};
use edge_checks::{EdgeIndex, Sample, is_of_relation};
use json_lines::fields::optional_number_at;
use json_lines::{TakeJson, read_value};
use namespaces::{Rules, RulesFault};
use serde_json::Value;
use std::alloc::Global;
use std::marker::Model;
use tuple_text::{SetRef, TupleRef};
use userset_index::UsersetIndex;
use version_chains::{AppendFault, Chains};

/// What the lines so far make of a trace, with what it takes to read further ones.
pub struct TraceBuilder {
    pub(crate) alloc: Global,
    pub(crate) rules: Rules,
    pub(crate) chains: Chains,
    // of the tuples ever added
    pub(crate) sample: Sample,
    // of the rules and the sample
    pub(crate) index: EdgeIndex,
    pub(crate) commit_lines: Vec<u64>,
    pub(crate) recorded: Entries,
    pub(crate) versions: Versions,
}

impl Model for TraceBuilder {
    ghost use Rattle.std.specs.Prelude.{◌≡◌, ◌-◌, ◌^◌};
    ghost use Rattle.trace_lines.specs.Values.{TraceValue};
    ghost use Rattle.trace_lines.specs.TraceCode.{trace_code};

    ghost Value = { TraceValue };

    ghost coded = { trace_code };

    ghost use Rattle.edge_checks.specs.Indexed.{IsIndex};
    ghost use Rattle.trace_lines.specs.Issued.{AreIssued};
    ghost use Rattle.trace_lines.specs.Kept.{IsKept};
    ghost use Rattle.trace_lines.specs.Recorded.{shown, contents};
    ghost use Rattle.trace_lines.specs.Tuples.{IsOrderly};

    ghost view = { λ t. record {
      declarations = t.rules;
      commits = t.chains.commits;
      commit_lines = t.commit_lines.items;
      entries = shown t.recorded;
    } };

    ghost invariant = { λ t. (t.chains.limit ≡ 2 ^ 32 - 1)
        × IsKept t.chains.commits t.commit_lines.items (shown t.recorded) (contents t.recorded)
        × IsOrderly t.rules t.chains.commits t.sample × IsIndex t.rules t.index t.sample
        × AreIssued t.versions (shown t.recorded) };
}

// Written out, since one that is derived is a part of each function that lets a builder go, with all its parts.
impl Drop for TraceBuilder {
    fn drop(self) {
        let TraceBuilder {
            alloc: _,
            rules,
            chains,
            sample,
            index,
            commit_lines,
            recorded,
            versions,
        } = self;
        drop(rules);
        drop(chains);
        drop(sample);
        drop(index);
        drop(commit_lines);
        drop(recorded);
        drop(versions);
    }
}

/// An index of the usersets that are stored in others. Where memory is refused there is none, and whoever asks walks
/// over all usersets.
fn usersets_of(alloc: Global, chains: &Chains, rules: &Rules) -> UsersetIndex
    ensures index { IsUsersetIndex rules.now chains.now.commits result }
    ensures growing { result.is_growing ≡ false }
{
    match UsersetIndex::of(alloc, chains, rules) {
        Ok(usersets) => usersets,
        Err(_) => UsersetIndex::new(alloc),
    }
}

/// Commits changes to the chains, and takes what they add into the sample and the index. The tuples that were there
/// stay in front.
fn commit(
    rules: &Rules,
    sample: &mut Sample,
    index: &mut EdgeIndex,
    chains: &mut Chains,
    at: u64,
    adds: &[TupleRef<'_>],
    removes: &[TupleRef<'_>],
) -> Result<(), Cause>
    requires unbroken { first_broken rules.now (edges_of_tuples rules.now sample.old) ≡ Ok (tt {0}) }
    requires index { IsIndex rules.now index.old sample.old }
    ensures answer { Gives (λ u. u) result
        (commit_checked rules.now chains.old at (tuple_values adds.now) (tuple_values removes.now)) }
    ensures appended { OnOk result (chains.new
        ≡ appended chains.old at (tuple_values adds.now) (tuple_values removes.now)) }
    ensures unchanged { OnErr result (chains.new ≡ chains.old) }
    ensures taken { OnOk result (Represents sample.new (sample.old ++ tuple_values adds.now)) }
    ensures kept { take (length sample.old) sample.new ≡ sample.old }
    ensures index { OnOk result (IsIndex rules.now index.new sample.new) }
{
    sample.admit_all(rules, index, adds)?;
    match chains.append_borrowed(at, adds, removes) {
        Ok(()) => Ok(()),
        Err(AppendFault::OutOfMemory) => Err(Cause::OutOfMemory),
        Err(fault) => Err(Cause::Commit(fault)),
    }
}

impl TraceBuilder {
    /// Of no lines.
    pub fn new(alloc: Global) -> TraceBuilder
        ensures { result ≡ empty_trace }
    {
        TraceBuilder {
            alloc,
            rules: Rules::new(alloc),
            chains: Chains::new(alloc, u32::MAX),
            sample: Sample::new(alloc),
            index: EdgeIndex::new(alloc),
            commit_lines: Vec::new(alloc),
            recorded: Entries::new(alloc),
            versions: Versions::new(alloc),
        }
    }

    /// The trace of these lines. What only reading needs is let go.
    pub fn finish(self) -> Trace
        ensures { result ≡ self }
    {
        let TraceBuilder {
            alloc,
            rules,
            chains,
            sample,
            index,
            commit_lines,
            recorded,
            versions,
        } = self;
        drop(sample);
        drop(index);
        drop(versions);
        let usersets = usersets_of(alloc, &chains, &rules);
        Trace {
            rules,
            chains,
            usersets,
            commit_lines,
            recorded,
        }
    }

    /// How many declarations there are.
    pub fn declared(&self) -> usize
        ensures { result ≡ length self.now.declarations }
    {
        self.rules.len()
    }

    /// An index of its usersets that grows with it, or none.
    pub fn usersets(&self) -> UsersetIndex
        ensures { IsGrowing self.now.declarations self.now.commits result }
    {
        UsersetIndex::growing(self.alloc, &self.rules)
    }

    /// The trace of these lines, to which more may come. The index of these lines or of the first of them grows.
    pub fn pause(self, mut usersets: UsersetIndex) -> PausedTrace
        requires { IsGrowing self.declarations self.commits usersets }
        ensures { result ≡ self }
    {
        let TraceBuilder {
            alloc,
            rules,
            chains,
            sample,
            index,
            commit_lines,
            recorded,
            versions,
        } = self;
        usersets.grow(alloc, &chains, &rules);
        PausedTrace {
            alloc,
            trace: Trace {
                rules,
                chains,
                usersets,
                commit_lines,
                recorded,
            },
            sample,
            index,
            versions,
        }
    }

    fn is_declared(&self, set: SetRef<'_>) -> bool
        ensures { result ≡ is_declared self.now.declarations (set_value set.entry) }
    {
        self.rules.stratum(set).is_some()
    }

    /// Whether a userset's relation is declared, where that of another userset is: mostly it is the same.
    fn is_declared_after(&self, last: Option<SetRef<'_>>, set: SetRef<'_>) -> bool
        requires { ForSome last (λ s. is_declared self.now.declarations (set_value s) ≡ true) }
        ensures { result ≡ is_declared self.now.declarations (set_value set.entry) }
    {
        match last {
            Some(last) if is_of_relation(last, set) => true,
            _ => self.is_declared(set),
        }
    }

    fn are_declared(&self, tuples: &[TupleRef<'_>]) -> bool
        ensures { result ≡ are_declared self.now.declarations (tuple_values tuples.now) }
    {
        let mut last = None;
        for tuple in tuples {
            if !self.is_declared_after(last, tuple.set()) {
                return false;
            }
            last = Some(tuple.set());
        }
        true
    }

    /// Takes a line that declares a namespace.
    #[tactic(auto, unfolding(crate::specs::Traces::declaration_line))]
    fn take_declaration(&mut self, line: u64, value: &Value) -> Result<(), Cause>
        requires { next_line self.old ≤ line }
        ensures { Gives (λ _. self.new) result (declaration_line line self.old (view value.now)) }
    {
        let Some(at) = optional_number_at(value, "at") else {
            return Err(Cause::Namespace(RulesFault::Shape));
        };
        match at {
            Some(at) => self.take_change(line, at, value),
            None => self.take_namespace(value),
        }
    }

    /// Takes a line that declares a namespace from the start on.
    #[tactic(auto, unfolding(crate::specs::Traces::namespace_line))]
    fn take_namespace(&mut self, value: &Value) -> Result<(), Cause>
        ensures { Gives (λ _. self.new) result (namespace_line self.old (view value.now)) }
    {
        let begun = self.is_begun();
        declare(
            self.alloc,
            &mut self.rules,
            &mut self.index,
            &self.sample,
            begun,
            value,
        )
    }

    /// Whether a commit or an entry stands on an earlier line.
    fn is_begun(&self) -> bool
        ensures { result ≡ is_begun self.now }
    {
        !self.commit_lines.is_empty() || !self.recorded.is_empty()
    }

    /// Takes a line that changes the rules.
    fn take_change(&mut self, line: u64, at: u64, value: &Value) -> Result<(), Cause>
        requires { next_line self.old ≤ line }
        ensures { Gives (λ _. self.new) result (change_line at line self.old (view value.now)) }
    {
        if let Some(last) = self.not_before(at) {
            return Err(late_change(&self.rules, last, value));
        }
        // A commit without a touch that is later than all others is refused only where memory runs out.
        if self.append(line, at, &[], &[]).is_err() {
            return Err(Cause::OutOfMemory);
        }
        self.change_rules(at, value)
    }

    /// Changes the rules from the timestamp of the last commit on.
    fn change_rules(&mut self, at: u64, value: &Value) -> Result<(), Cause>
        requires later { IsLater at self.old.declarations }
        requires last { last_at self.old.commits ≡ Some at }
        ensures { Gives (λ _. self.new) result (rules_changed at self.old (view value.now)) }
    {
        change(
            self.alloc,
            &mut self.rules,
            &mut self.index,
            &self.sample,
            at,
            value,
        )
    }

    /// The timestamp of the last commit, if it is not before another.
    fn not_before(&self, at: u64) -> Option<u64>
        ensures { option_map (λ last. NotLater last) result ≡ late_fault (last_at self.now.commits) at }
    {
        let last = self.chains.commits().last()?;
        if at <= *last { Some(*last) } else { None }
    }

    #[tactic(auto, unfolding(crate::specs::Traces::with_commit))]
    fn append(
        &mut self,
        line: u64,
        at: u64,
        adds: &[TupleRef<'_>],
        removes: &[TupleRef<'_>],
    ) -> Result<(), Cause>
        requires { next_line self.old ≤ line }
        ensures { Gives (λ _. self.new) result
            (with_commit line self.old (record {
              at = at;
              adds = tuple_values adds.now;
              removes = tuple_values removes.now;
            })) }
    {
        if !self.are_declared(adds) || !self.are_declared(removes) {
            return Err(Cause::Unknown);
        }
        self.commit_lines.reserve(1)?;
        let known = self.sample.len();
        match commit(
            &self.rules,
            &mut self.sample,
            &mut self.index,
            &mut self.chains,
            at,
            adds,
            removes,
        ) {
            Ok(()) => {}
            Err(cause) => {
                self.sample.truncate(known);
                self.index.give_up();
                return Err(cause);
            }
        }
        self.commit_lines.push_reserved(line);
        Ok(())
    }

    /// Takes an entry that stands on this line, behind all others.
    #[tactic(auto, unfolding(crate::specs::Traces::with_entry))]
    fn take_entry(&mut self, line: u64, entry: &Entry<'_>) -> Result<(), Cause>
        requires { next_line self.old ≤ line }
        ensures { Gives (λ _. self.new) result (put_line line self.old (records (entry_value entry.now))) }
    {
        if !self.is_declared(entry.goal.set()) {
            return Err(Cause::Unknown);
        }
        let placed = entry.placed(line, self.commit_lines.len());
        self.record(&placed)
    }

    /// Puts an entry that stands behind all others last.
    fn record(&mut self, entry: &Entry<'_>) -> Result<(), Cause>
        requires line { next_line self.old ≤ entry.now.line }
        requires before { entry.now.before ≡ length self.old.commit_lines }
        ensures { Gives (λ _. self.new) result (recorded self.old (entry_value entry.now)) }
    {
        match entry.kind {
            EntryKind::Check => {
                let content = self.content_named(entry);
                self.push(entry, content)
            }
            EntryKind::Content => self.issue(entry),
        }
    }

    /// The entry that issued the version which stands in this one.
    fn content_named(&self, entry: &Entry<'_>) -> Option<usize>
        ensures { result ≡ option_and_then (issuer self.now.entries) (entry_version (entry_value entry.now)) }
    {
        self.versions.issuer(&self.recorded, version_of(entry)?)
    }

    /// Puts an entry last that issues no version, and names the one that `content` issued.
    fn push(&mut self, entry: &Entry<'_>, content: Option<usize>) -> Result<(), Cause>
        requires line { next_line self.old ≤ entry.now.line }
        requires before { entry.now.before ≡ length self.old.commit_lines }
        requires issues_nothing { version_issued entry.now.kind (entry_version (entry_value entry.now)) ≡ None }
        requires content { content ≡ content_among self.old.entries (entry_value entry.now) }
        ensures { Gives (λ _. self.new) result (recorded self.old (entry_value entry.now)) }
    {
        self.recorded.push(entry, content)?;
        Ok(())
    }

    /// Puts a content check last. An object's version is issued once.
    fn issue(&mut self, entry: &Entry<'_>) -> Result<(), Cause>
        requires line { next_line self.old ≤ entry.now.line }
        requires before { entry.now.before ≡ length self.old.commit_lines }
        requires kind { entry.now.kind ≡ Content }
        ensures { Gives (λ _. self.new) result (recorded self.old (entry_value entry.now)) }
    {
        let Some(version) = version_of(entry) else {
            return self.push(entry, None);
        };
        if self.versions.issuer(&self.recorded, version).is_some() {
            return Err(Cause::RepeatedVersion);
        }
        let number = self.recorded.len();
        self.recorded.push(entry, None)?;
        if let Err(fault) = self.versions.push(version, number) {
            self.recorded.pop();
            return Err(fault.into());
        }
        Ok(())
    }

    /// Takes a line of this text that declares a namespace.
    fn put_declaration(&mut self, line: u64, text: &str) -> Result<(), Cause>
        requires { next_line self.old ≤ line }
        ensures { Gives (λ _. self.new) result (put_line line self.old (declares text.now)) }
    {
        match read_value(self.alloc, text)? {
            Some(value) => self.take_declaration(line, &value),
            None => Err(Cause::NotJson),
        }
    }

    fn put_commit(&mut self, line: u64, commit: &OwnedCommit) -> Result<(), Cause>
        requires { next_line self.old ≤ line }
        ensures { Gives (λ _. self.new) result (put_line line self.old (commits commit.now)) }
    {
        let tuples = commit.tuples(self.alloc)?;
        let (adds, removes) = tuples.split_at(commit.adds());
        self.append(line, commit.at(), adds, removes)
    }

    #[tactic(auto, unfolding(crate::specs::Traces::with_entry))]
    fn put_entry(&mut self, line: u64, entry: &OwnedEntry) -> Result<(), Cause>
        requires { next_line self.old ≤ line }
        ensures { Gives (λ _. self.new) result (put_line line self.old (records entry.now)) }
    {
        if !self.is_declared(entry.goal().set()) {
            return Err(Cause::Unknown);
        }
        let placed = entry.as_entry().placed(line, self.commit_lines.len());
        self.record(&placed)
    }

    /// Puts in what a line says that is borrowed.
    fn put(&mut self, number: u64, line: &Line<'_>) -> Result<(), Cause>
        requires next { next_line self.old ≤ number }
        requires of_text { IsOfItsText line.now }
        ensures { Gives (λ _. self.new) result (put_line number self.old (line_value line.now)) }
    {
        match line {
            Line::Declares(declaration) => self.take_declaration(number, declaration.value),
            Line::Commits(commit) => self.append(number, commit.at, &commit.adds, &commit.removes),
            Line::Records(entry) => self.take_entry(number, entry),
        }
    }

    /// Puts in what the line of this number says.
    pub fn put_line(&mut self, number: u64, line: TraceLine) -> Result<(), Cause>
        requires { next_line self.old ≤ number }
        ensures answer { Gives (λ _. self.new) result (put_line number self.old line) }
        ensures further { OnOk result (next_line self.new ≤ number + 1) }
    {
        match line.into_said() {
            Said::Declares(text) => self.put_declaration(number, &text),
            Said::Commits(commit) => self.put_commit(number, &commit),
            Said::Records(entry) => self.put_entry(number, &entry),
        }
    }
}

impl TakeJson for TraceBuilder {
    ghost use Rattle.std.specs.Prelude.{◌≡◌};
    ghost use Rattle.trace_lines.specs.Traces.{value_line};
    ghost use Rattle.trace_lines.specs.Values.{next_line};

    type Cause = Cause;

    ghost next = { next_line };

    ghost taken = { value_line };

    fn take(&mut self, number: u64, text: &str) -> Result<(), Cause> {
        let mut value = None;
        let line = parse_line(self.alloc, text, &mut value)?;
        self.put(number, &line)
    }
}
