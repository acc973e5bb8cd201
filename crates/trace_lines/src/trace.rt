//! Traces.

ghost use Rattle.std.specs.Prelude.{◌≡◌, ◌<◌, ◌≤◌, ◌-◌, ◌^◌, ℕ, Some, IfSome, All, length, slice_get, take, drop};
ghost use Rattle.std.specs.List.Sorted.{IsStrictlyIncreasing};
ghost use Rattle.namespaces.specs.Lookup.{rule_at};
ghost use Rattle.version_chains.specs.Commits.{store_at};
ghost use Rattle.strata.specs.Strata.{HasValidStrata};
ghost use Rattle.trace_lines.specs.Timelines.{timeline_of};
ghost use Rattle.trace_lines.specs.EntryViews.{entry_value};
ghost use Rattle.trace_lines.specs.Kept.{IsKept, IsPlaced};
ghost use Rattle.trace_lines.specs.Recorded.{contents, shown};
ghost use Rattle.trace_lines.specs.Values.{entry_lines};
ghost use Rattle.trace_lines.specs.Versions.{content_of, AreIssuedOnce};
ghost use Rattle.userset_index.specs.Growth.{IsGrowing};

use crate::entries::Entries;
use crate::entry::Entry;
use namespaces::Rules;
use snapshots::Timeline;
use std::marker::Model;
use userset_index::UsersetIndex;
use version_chains::Chains;

/// A trace that was read: its namespaces, its commits with the lines that they stand on, and its entries.
pub struct Trace {
    pub(crate) rules: Rules,
    pub(crate) chains: Chains,
    // of the chains and the rules
    pub(crate) usersets: UsersetIndex,
    pub(crate) commit_lines: Vec<u64>,
    pub(crate) recorded: Entries,
}

impl Model for Trace {
    ghost use Rattle.std.specs.Prelude.{◌≡◌, ◌-◌, ◌^◌, ℕ};
    ghost use Rattle.trace_lines.specs.Values.{TraceValue};
    ghost use Rattle.trace_lines.specs.TraceCode.{trace_code};

    ghost Value = { TraceValue };

    ghost coded = { trace_code };

    ghost use Rattle.namespaces.specs.Lookup.{rule_at};
    ghost use Rattle.version_chains.specs.Commits.{store_at};
    ghost use Rattle.strata.specs.Strata.{HasValidStrata};
    ghost use Rattle.trace_lines.specs.Kept.{IsKept};
    ghost use Rattle.trace_lines.specs.Recorded.{shown, contents};
    ghost use Rattle.trace_lines.specs.Versions.{AreIssuedOnce};
    ghost use Rattle.userset_index.specs.Growth.{IsGrowing};
    ghost use Rattle.userset_index.specs.Index.{IsUsersetIndex};

    ghost view = { λ t. record {
      declarations = t.rules;
      commits = t.chains.commits;
      commit_lines = t.commit_lines.items;
      entries = shown t.recorded;
    } };

    ghost invariant = { λ t. IsKept t.chains.commits t.commit_lines.items (shown t.recorded) (contents t.recorded)
        × AreIssuedOnce (shown t.recorded)
        × ((at : ℕ) → HasValidStrata (rule_at t.rules at) (store_at t.chains.commits at))
        × IsUsersetIndex t.rules t.chains.commits t.usersets × (t.chains.limit ≡ 2 ^ 32 - 1)
        × IsGrowing t.rules t.chains.commits t.usersets };
}

// Written out, since one that is derived is a part of each function that lets a trace go, with all its parts.
impl Drop for Trace {
    fn drop(self) {
        let Trace {
            rules,
            chains,
            usersets,
            commit_lines,
            recorded,
        } = self;
        drop(rules);
        drop(chains);
        drop(usersets);
        drop(commit_lines);
        drop(recorded);
    }
}

impl Trace {
    /// The namespaces. Strata are valid at each timestamp, over what is stored then.
    pub fn rules(&self) -> &Rules
        ensures declarations { result.now ≡ self.now.declarations }
        ensures strata { (at : ℕ) → HasValidStrata (rule_at self.now.declarations at) (store_at self.now.commits at) }
    {
        &self.rules
    }

    /// The commits.
    pub fn chains(&self) -> &Chains
        ensures { result.now.commits ≡ self.now.commits }
    {
        &self.chains
    }

    /// The rules and the commits at every timestamp.
    pub fn timeline(&self) -> Timeline<'_>
        ensures { result ≡ timeline_of self.now }
    {
        Timeline::new(&self.rules, &self.chains, &self.usersets)
    }

    /// How many entries there are.
    pub fn len(&self) -> usize
        ensures count { result ≡ length self.now.entries }
        // The entries stand on lines that rise.
        ensures rising { IsStrictlyIncreasing (entry_lines self.now.entries) }
    {
        self.recorded.len()
    }

    /// Entry `i`. Its texts are borrowed from the trace.
    pub fn entry(&self, i: usize) -> Entry<'_>
        requires { i < length self.now.entries }
        ensures value { slice_get self.now.entries i ≡ Some (entry_value result) }

        // Each commit has a line: the first ones, `before` many, an earlier line, and the others a later one.
        ensures counted { length self.now.commit_lines ≡ length self.now.commits }
        ensures before { result.before ≤ length self.now.commits }
        ensures earlier { All (λ l. l < result.line) (take result.before self.now.commit_lines) }
        ensures later { All (λ l. result.line < l) (drop result.before self.now.commit_lines) }
    {
        self.recorded.entry(i)
    }

    /// The entry that issued the version which check `i` names, on an earlier line for its goal's object. `None` where
    /// there is none, or where the check names no version or is one of content.
    pub fn content_of(&self, i: usize) -> Option<usize>
        requires { i < length self.now.entries }
        ensures value { result ≡ content_of self.now.entries i }
        ensures earlier { IfSome result (λ c. c < i) }
    {
        self.recorded.content(i)
    }

    /// The entries, of which at most one issued a version of an object.
    pub(crate) fn recorded(&self) -> &Entries
        ensures once { AreIssuedOnce self.now.entries }
        ensures lines { IsStrictlyIncreasing self.now.commit_lines }
        ensures counted { length self.now.commit_lines ≡ length self.now.commits }
        ensures placed { All (IsPlaced self.now.commit_lines) self.now.entries }
    {
        &self.recorded
    }

    /// What it was made of.
    pub(crate) fn into_parts(self) -> (Rules, Chains, Vec<u64>, Entries, UsersetIndex)
        ensures rules { result.0 ≡ self.declarations }
        ensures chains { result.1 ≡ record { commits = self.commits; limit = 2 ^ 32 - 1 } }
        ensures lines { result.2.items ≡ self.commit_lines }
        ensures entries { shown result.3 ≡ self.entries }
        ensures kept { IsKept self.commits self.commit_lines self.entries (contents result.3) }
        ensures usersets { IsGrowing self.declarations self.commits result.4 }
    {
        let Trace {
            rules,
            chains,
            usersets,
            commit_lines,
            recorded,
        } = self;
        (rules, chains, commit_lines, recorded, usersets)
    }

    /// The line of commit `k`.
    pub fn commit_line(&self, k: usize) -> u64
        requires { k < length self.now.commits }
        ensures line { slice_get self.now.commit_lines k ≡ Some result }
        // The lines rise.
        ensures rising { IsStrictlyIncreasing self.now.commit_lines }
    {
        self.commit_lines[k]
    }
}
