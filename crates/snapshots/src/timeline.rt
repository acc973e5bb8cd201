//! What is declared and stored at every timestamp.

ghost use Rattle.std.specs.Prelude.{◌≡◌};
ghost use Rattle.userset_index.specs.Index.{IsUsersetIndex};

use namespaces::Rules;
use std::marker::Model;
use userset_index::UsersetIndex;
use version_chains::Chains;

/// The rules and the tuples at every timestamp, lent.
#[derive(Drop)]
pub struct Timeline<'a> {
    rules: &'a Rules,
    chains: &'a Chains,
    usersets: &'a UsersetIndex,
}

impl<'a> Model for Timeline<'a> {
    ghost use Rattle.snapshots.specs.Timelines.{TimelineValue};
    ghost use Rattle.snapshots.specs.Codes.{timeline_code};

    ghost Value = { TimelineValue };

    ghost coded = { timeline_code };

    ghost view = { λ t. record { declarations = t.rules.now; commits = t.chains.now.commits } };

    ghost use Rattle.userset_index.specs.Index.{IsUsersetIndex};

    ghost invariant = { λ t. IsUsersetIndex t.rules.now t.chains.now.commits t.usersets.now };
}

impl<'a> Timeline<'a> {
    /// The timeline of these rules and tuples, and of an index of them.
    pub fn new(rules: &'a Rules, chains: &'a Chains, usersets: &'a UsersetIndex) -> Timeline<'a>
        requires { IsUsersetIndex rules.now chains.now.commits usersets.now }
        ensures { result ≡ record { declarations = rules.now; commits = chains.now.commits } }
    {
        Timeline {
            rules,
            chains,
            usersets,
        }
    }

    /// The rules.
    pub fn rules(&self) -> &'a Rules
        ensures { result.now ≡ self.now.declarations }
    {
        self.rules
    }

    /// The tuples.
    pub fn chains(&self) -> &'a Chains
        ensures { result.now.commits ≡ self.now.commits }
    {
        self.chains
    }

    /// An index of the usersets that are stored in others.
    pub fn usersets(&self) -> &'a UsersetIndex
        ensures { IsUsersetIndex self.now.declarations self.now.commits result.now }
    {
        self.usersets
    }
}
