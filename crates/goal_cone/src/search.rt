//! A direct search: forward from a goal, up to what settles it.
//!
//! Each fact that is reached is a node, and so is each place of its rule below an intersection or an exclusion. A node
//! is looked at for what it reads, which is asked for, the first that was reached first; of an intersection one place
//! after the other, and of an exclusion its base. What holds is told to those that read it. Where nothing is left to be
//! looked at, what was asked for fails. What an exclusion subtracts is settled by a run of its own, as soon as its base
//! holds. No answer rests on this: who is given what was settled judges that.
//!
//! What is long, is long once: a node is read once, each link is told once, and asked once in a run. A later run may
//! ask again what an earlier one left; once that is more than was read, none leaves anything. A rule of many places is
//! walked over once for each way in which its groups open. For a goal a search takes so many steps at most
//! ([`MOST_STEPS`]), and for the facts of a cone as many as the bounds of that allow.

use crate::fault::ConeFault;
use crate::kept::{Named, WideRules};
use crate::nodes::{Link, Node, Nodes, Rule, State};
use crate::premises::{MAX_LINKS, MAX_USERSETS};
use crate::runs::{Runs, Turn};
use crate::through::objects;
use crate::walks::gives_stored;
use judgement::under;
use marks::MarkedSet;
use rewrites::{Part, Rewrite, Through};
use snapshots::Snapshot;
use std::alloc::{AllocError, Global};
use tuple_text::{Fact, SetRef};
use wide_rules::namespaces_declaring;

/// How many steps a search may take: one for each link and place, and one for each that is looked at or asked again.
const MOST_STEPS: usize = 2 * MAX_LINKS;

/// The rule of the userset that was reached last.
#[derive(Clone, Copy, Drop)]
struct LastRule<'s> {
    namespace: &'s str,
    relation: &'s str,
    rule: Rule<'s>,
}

/// Where something is read: for a node, and for a part of its rule.
#[derive(Clone, Copy)]
struct Site<'s> {
    node: usize,
    set: MarkedSet<'s>,
    part: usize,
    is_fact: bool,
}

/// A search for facts of one user, which keeps what it settled.
#[derive(Drop)]
pub struct Search<'s, 't> {
    pub(crate) alloc: Global,
    pub(crate) snapshot: &'s Snapshot<'t>,
    pub(crate) user: u64,
    pub(crate) wide: &'s mut WideRules,
    pub(crate) nodes: Nodes<'s>,
    runs: Runs,
    last: Option<LastRule<'s>>,
    // the nodes that were settled, in order; and how many of them were told to their readers
    pub(crate) settled: Vec<usize>,
    told: usize,
    moment: usize,
    room: usize,
    // how many links were asked again by a later run
    again: usize,
}

/// The target of a stored userset: it itself, or its object under a relation.
fn target<'s>(stored: MarkedSet<'s>, computed: Option<&'s String>) -> MarkedSet<'s> {
    match computed {
        Some(relation) => MarkedSet::of(under(stored.set, relation.as_str())),
        None => stored,
    }
}

/// Whether a userset is of another namespace than the one before it. Those of one mostly follow one another.
fn is_of_another(sets: &[SetRef<'_>], place: usize) -> bool {
    let Some(before) = place.checked_sub(1) else {
        return true;
    };
    match (sets.get(before), sets.get(place)) {
        (Some(before), Some(set)) => before.namespace != set.namespace,
        _ => true,
    }
}

impl<'s, 't> Search<'s, 't> {
    pub fn new(
        alloc: Global,
        snapshot: &'s Snapshot<'t>,
        wide: &'s mut WideRules,
        user: u64,
    ) -> Search<'s, 't> {
        wide.make_room();
        Search {
            alloc,
            snapshot,
            user,
            wide,
            nodes: Nodes::new(alloc),
            runs: Runs::new(alloc),
            last: None,
            settled: Vec::new(alloc),
            told: 0,
            moment: 0,
            room: MOST_STEPS,
            again: 0,
        }
    }

    fn take_room(&mut self) -> Result<(), ConeFault> {
        match self.room.checked_sub(1) {
            Some(room) => {
                self.room = room;
                Ok(())
            }
            None => Err(ConeFault::Outgrown),
        }
    }

    /// The rule of a userset's relation, where it is declared.
    fn rule_of(&mut self, set: SetRef<'s>) -> Result<Option<Rule<'s>>, AllocError> {
        if let Some(last) = self.last {
            if last.namespace == set.namespace && last.relation == set.relation {
                return Ok(Some(last.rule));
            }
        }
        let rules = self.snapshot.timeline.rules();
        let Some(place) = rules.body_place(set, self.snapshot.at) else {
            return Ok(None);
        };
        let Some(plain) = rules.plain_in(place) else {
            return Ok(None);
        };
        let rule = match &plain.parted {
            Some(parted) => Rule::Many(self.wide.number(rules, place, plain, parted)?),
            None => Rule::Few(&plain.rewrite),
        };
        self.last = Some(LastRule {
            namespace: set.namespace,
            relation: set.relation,
            rule,
        });
        Ok(Some(rule))
    }

    /// Whether a rule gives each user who is stored, at once.
    fn gives_stored(&self, rule: Rule<'s>) -> bool {
        match rule {
            Rule::Few(rule) => gives_stored(rule),
            Rule::Many(number) => {
                match self.wide.get(number) {
                    Some(wide) => wide.gives_stored,
                    None => false,
                }
            }
        }
    }

    /// The node of a userset's fact, where its relation is declared.
    pub(crate) fn reach(&mut self, set: MarkedSet<'s>) -> Result<Option<usize>, ConeFault> {
        if let Some(number) = self.nodes.find(set) {
            return Ok(Some(number));
        }
        let Some(rule) = self.rule_of(set.set)? else {
            return Ok(None);
        };
        if self.nodes.facts() >= MAX_USERSETS {
            return Err(ConeFault::Outgrown);
        }
        let number = self.nodes.add(set, rule, true)?;
        if self.gives_stored(rule) && self.snapshot.has_id(set, self.user) {
            self.hold(number, None)?;
        }
        Ok(Some(number))
    }

    /// From now on a node holds: by one that it reads or by itself, or by more than one.
    fn hold(&mut self, number: usize, by: Option<usize>) -> Result<(), AllocError> {
        let moment = self.moment;
        if let Some(node) = self.nodes.get_mut(number) {
            if node.state == State::Asked {
                node.state = State::Holds;
                node.by = by;
                node.moment = moment;
                self.moment = moment.saturating_add(1);
                self.settled.push(number)?;
            }
        }
        Ok(())
    }

    /// What the last run asks for and did not find fails, all at once.
    fn fail(&mut self) -> Result<(), AllocError> {
        let moment = self.moment;
        self.moment = moment.saturating_add(1);
        for number in self.runs.asked() {
            if let Some(node) = self.nodes.get_mut(*number) {
                if node.state == State::Asked {
                    node.state = State::Fails;
                    node.moment = moment;
                    self.settled.push(*number)?;
                }
            }
        }
        Ok(())
    }

    /// Tells what holds to those that read it, each once.
    fn tell(&mut self) -> Result<(), AllocError> {
        // all nodes can be settled once
        for _ in 0..self.nodes.len() {
            let Some(number) = self.settled.get(self.told).copied() else {
                break;
            };
            self.told = self.told.saturating_add(1);
            if self.nodes.state(number) == State::Holds {
                self.tell_readers(number)?;
            }
        }
        Ok(())
    }

    fn tell_readers(&mut self, number: usize) -> Result<(), AllocError> {
        let mut readers = self.nodes.readers(number);
        for _ in 0..self.nodes.links() {
            let Some(link) = self.nodes.next_reader(&mut readers) else {
                break;
            };
            self.tell_reader(link)?;
        }
        Ok(())
    }

    /// What is read by a link holds.
    fn tell_reader(&mut self, link: Link) -> Result<(), AllocError> {
        let Some(node) = self.nodes.get(link.reader()) else {
            return Ok(());
        };
        if node.state != State::Asked {
            return Ok(());
        }
        match node.rule {
            Rule::Few(Rewrite::Inter(_) | Rewrite::Minus(_, _)) => {
                self.runs.look_again(node.run, link.reader(), true)
            }
            Rule::Few(_) => self.hold(link.reader(), Some(link.read())),
            Rule::Many(wide) => {
                if self.open_group(link.reader(), wide, link.part())? && !node.waits {
                    self.set_waits(link.reader(), true);
                    self.runs.look_again(node.run, link.reader(), false)?;
                }
                Ok(())
            }
        }
    }

    /// A group of the parts of a node's rule opens. Whether it was shut.
    fn open_group(&mut self, number: usize, wide: usize, group: usize) -> Result<bool, AllocError> {
        let Some(node) = self.nodes.get_mut(number) else {
            return Ok(false);
        };
        let stage = self.wide.behind(wide, node.stage, group)?;
        let was_shut = stage != node.stage;
        node.stage = stage;
        Ok(was_shut)
    }

    fn set_waits(&mut self, number: usize, waits: bool) {
        if let Some(node) = self.nodes.get_mut(number) {
            node.waits = waits;
        }
    }

    /// One node reads another, which is asked for where that is not settled.
    fn link(&mut self, site: Site<'s>, read: usize) -> Result<(), AllocError> {
        self.nodes.add_link(site.node, read, site.part)?;
        match self.nodes.state(read) {
            State::Asked => self.runs.ask(&mut self.nodes, read),
            State::Holds => self.link_to_held(site, read),
            State::Fails => Ok(()),
        }
    }

    /// What a node reads holds already.
    fn link_to_held(&mut self, site: Site<'s>, read: usize) -> Result<(), AllocError> {
        match self.nodes.get(site.node) {
            Some(
                Node {
                    rule: Rule::Many(wide),
                    ..
                },
            ) => {
                let _ = self.open_group(site.node, wide, site.part)?;
                Ok(())
            }
            Some(_) => self.hold(site.node, Some(read)),
            None => Ok(()),
        }
    }

    /// A node reads the fact of a userset.
    fn lead(&mut self, site: Site<'s>, set: MarkedSet<'s>) -> Result<(), ConeFault> {
        self.take_room()?;
        if let Some(read) = self.reach(set)? {
            self.link(site, read)?;
        }
        Ok(())
    }

    /// The node of a place of a rule.
    fn place(&mut self, set: MarkedSet<'s>, rule: &'s Rewrite) -> Result<usize, ConeFault> {
        if let Rewrite::Computed(relation) = rule {
            let set = MarkedSet::of(under(set.set, relation.as_str()));
            if let Some(number) = self.reach(set)? {
                return Ok(number);
            }
        }
        Ok(self.nodes.add(set, Rule::Few(rule), false)?)
    }

    fn is_asked(&self, number: usize) -> bool {
        self.nodes.state(number) == State::Asked
    }

    /// A node reads what a rule does, up to what gives it.
    #[cycle(read)]
    fn read(&mut self, site: Site<'s>, rule: &'s Rewrite) -> Result<(), ConeFault> {
        match rule {
            Rewrite::This => {
                // of a fact that was asked when it was reached
                if !site.is_fact && self.snapshot.has_id(site.set, self.user) {
                    self.hold(site.node, Some(site.node))?;
                    return Ok(());
                }
                self.read_through(site, site.set, None)
            }
            Rewrite::Computed(relation) => {
                self.lead(site, MarkedSet::of(under(site.set.set, relation.as_str())))
            }
            Rewrite::TupleTo { tupleset, computed } => {
                let set = MarkedSet::of(under(site.set.set, tupleset.as_str()));
                self.read_through(site, set, Some(computed))
            }
            Rewrite::Union(children) => self.read_each(site, children),
            Rewrite::Inter(_) | Rewrite::Minus(_, _) => {
                self.take_room()?;
                let place = self.place(site.set, rule)?;
                self.link(site, place)?;
                Ok(())
            }
        }
    }

    #[cycle(read)]
    fn read_each(&mut self, site: Site<'s>, rules: &'s Vec<Rewrite>) -> Result<(), ConeFault> {
        for rule in rules {
            if !self.is_asked(site.node) {
                break;
            }
            self.read(site, rule)?;
        }
        Ok(())
    }

    /// The usersets that are stored in a crowded one, those whose namespaces declare a relation, or each.
    fn crowd(
        &self,
        set: MarkedSet<'s>,
        computed: Option<&String>,
    ) -> Result<Vec<SetRef<'s>>, AllocError> {
        let snapshot = self.snapshot;
        let Some(computed) = computed else {
            return snapshot.leading(self.alloc, set);
        };
        let tupleset = String::from_str(self.alloc, set.set.relation)?;
        let through = Through::of(self.alloc, &tupleset, computed)?;
        let rules = snapshot.timeline.rules();
        let declaring = namespaces_declaring(self.alloc, rules, &through)?;
        snapshot.leading_through(self.alloc, set, declaring)
    }

    /// A node reads those that are stored in a userset, each by itself or by its object under a relation.
    fn read_through(
        &mut self,
        site: Site<'s>,
        set: MarkedSet<'s>,
        computed: Option<&'s String>,
    ) -> Result<(), ConeFault> {
        let snapshot = self.snapshot;
        if snapshot.timeline.usersets().is_crowded(set) {
            let stored = self.crowd(set, computed)?;
            return self.read_stored(site, stored, computed);
        }
        for stored in snapshot.usersets(set) {
            if !self.is_asked(site.node) {
                break;
            }
            self.lead(site, target(stored, computed))?;
        }
        Ok(())
    }

    fn read_stored(
        &mut self,
        site: Site<'s>,
        sets: Vec<SetRef<'s>>,
        computed: Option<&'s String>,
    ) -> Result<(), ConeFault> {
        for stored in sets {
            if !self.is_asked(site.node) {
                break;
            }
            self.lead(site, target(MarkedSet::of(stored), computed))?;
        }
        Ok(())
    }

    /// Looks at a node: reads what it needs next, and asks for that.
    fn look_at(&mut self, number: usize) -> Result<(), ConeFault> {
        let Some(node) = self.nodes.get(number) else {
            return Ok(());
        };
        if node.state != State::Asked {
            return Ok(());
        }
        match node.rule {
            Rule::Few(Rewrite::Inter(children)) => self.look_at_each(number, node, children),
            Rule::Few(Rewrite::Minus(base, subtract)) => {
                self.look_at_exclusion(number, node, base, subtract)
            }
            Rule::Few(rule) => self.look_at_some(number, node, rule),
            Rule::Many(wide) => self.look_at_parts(number, node, wide),
        }
    }

    /// A node is read from now on. The number of its first link.
    fn begin(&mut self, number: usize) -> usize {
        let from = self.nodes.links();
        if let Some(node) = self.nodes.get_mut(number) {
            node.was_read = true;
            node.read_in = node.run;
            node.from = from;
            node.to = from;
        }
        from
    }

    /// The links since then are those of a node.
    fn finish(&mut self, number: usize) {
        let to = self.nodes.links();
        if let Some(node) = self.nodes.get_mut(number) {
            node.to = to;
        }
    }

    fn set_turn(&mut self, number: usize, turn: usize) {
        if let Some(node) = self.nodes.get_mut(number) {
            node.turn = turn;
        }
    }

    /// Asks again for what a node reads that is not settled, once in a run. That takes from the room too.
    fn ask_each(&mut self, number: usize, node: Node<'s>) -> Result<(), ConeFault> {
        if node.read_in == node.run {
            return Ok(());
        }
        if let Some(node) = self.nodes.get_mut(number) {
            node.read_in = node.run;
        }
        for link in node.from..node.to {
            self.take_room()?;
            self.again = self.again.saturating_add(1);
            if let Some((read, State::Asked)) = self.nodes.read_by(link) {
                self.runs.ask(&mut self.nodes, read)?;
            }
        }
        Ok(())
    }

    fn look_at_some(
        &mut self,
        number: usize,
        node: Node<'s>,
        rule: &'s Rewrite,
    ) -> Result<(), ConeFault> {
        if node.was_read {
            return self.ask_each(number, node);
        }
        self.begin(number);
        let site = Site {
            node: number,
            set: node.set,
            part: 0,
            is_fact: node.is_fact,
        };
        self.read(site, rule)?;
        self.finish(number);
        Ok(())
    }

    /// Links to the nodes of places, which are not asked for yet.
    fn add_place(
        &mut self,
        number: usize,
        set: MarkedSet<'s>,
        rule: &'s Rewrite,
    ) -> Result<(), ConeFault> {
        self.take_room()?;
        let place = self.place(set, rule)?;
        self.nodes.add_link(number, place, 0)?;
        Ok(())
    }

    fn look_at_each(
        &mut self,
        number: usize,
        node: Node<'s>,
        children: &'s Vec<Rewrite>,
    ) -> Result<(), ConeFault> {
        let mut from = node.from;
        if !node.was_read {
            from = self.begin(number);
            for child in children {
                self.add_place(number, node.set, child)?;
            }
            self.finish(number);
        }
        for turn in node.turn..children.len() {
            match self.nodes.read_by(from.saturating_add(turn)) {
                Some((_, State::Holds)) => {}
                Some((read, State::Asked)) => {
                    self.set_turn(number, turn);
                    return Ok(self.runs.ask(&mut self.nodes, read)?);
                }
                _ => {
                    self.set_turn(number, turn);
                    return Ok(());
                }
            }
        }
        Ok(self.hold(number, None)?)
    }

    fn look_at_exclusion(
        &mut self,
        number: usize,
        node: Node<'s>,
        base: &'s Rewrite,
        subtract: &'s Rewrite,
    ) -> Result<(), ConeFault> {
        let mut from = node.from;
        if !node.was_read {
            from = self.begin(number);
            self.add_place(number, node.set, base)?;
            self.add_place(number, node.set, subtract)?;
            self.finish(number);
        }
        let subtracted = self.nodes.read_by(from.saturating_add(1));
        if let Some((_, State::Holds)) = subtracted {
            return Ok(());
        }
        match self.nodes.read_by(from) {
            Some((read, State::Asked)) => return Ok(self.runs.ask(&mut self.nodes, read)?),
            Some((_, State::Holds)) => {}
            _ => return Ok(()),
        }
        match subtracted {
            Some((read, State::Asked)) => self.settle_first(number, read),
            Some((_, State::Fails)) => Ok(self.hold(number, None)?),
            _ => Ok(()),
        }
    }

    /// A node is looked at again once another is settled by a run of its own.
    fn settle_first(&mut self, number: usize, read: usize) -> Result<(), ConeFault> {
        self.take_room()?;
        self.runs.look_again_last(number)?;
        self.runs.start(&mut self.nodes, read)?;
        Ok(())
    }

    fn look_at_parts(
        &mut self,
        number: usize,
        node: Node<'s>,
        wide: usize,
    ) -> Result<(), ConeFault> {
        self.set_waits(number, false);
        if node.was_read {
            self.ask_each(number, node)?;
        } else {
            self.begin(number);
            self.read_parts(number, node, wide)?;
            self.finish(number);
        }
        let Some(node) = self.nodes.get(number) else {
            return Ok(());
        };
        if node.state != State::Asked {
            return Ok(());
        }
        if let Some(read) = self.first_lower(number, node, wide) {
            return self.settle_first(number, read);
        }
        let rules = self.snapshot.timeline.rules();
        if self.wide.opens(rules, wide, node.stage) {
            self.hold(number, None)?;
        }
        Ok(())
    }

    /// The first that a rule with exclusions reads on a lower stratum, of those that are not settled.
    fn first_lower(&mut self, number: usize, node: Node<'s>, wide: usize) -> Option<usize> {
        if !self.wide.get(wide)?.has_exclusions {
            return None;
        }
        let rules = self.snapshot.timeline.rules();
        let stratum = rules.stratum(node.set.set)?;
        for link in node.from.saturating_add(node.turn)..node.to {
            if let Some((read, State::Asked)) = self.nodes.read_by(link) {
                let lower = rules.stratum(self.nodes.get(read)?.set.set)?;
                if lower < stratum {
                    self.set_turn(number, link.saturating_sub(node.from));
                    return Some(read);
                }
            }
        }
        self.set_turn(number, node.to.saturating_sub(node.from));
        None
    }

    /// What a rule of many places reads: of the object itself, and through each tupleset.
    fn read_parts(&mut self, number: usize, node: Node<'s>, wide: usize) -> Result<(), ConeFault> {
        let site = Site {
            node: number,
            set: node.set,
            part: 0,
            is_fact: true,
        };
        let rules = self.snapshot.timeline.rules();
        for place in 0..self.wide.count_own(wide) {
            if let Some((leaf, part)) = self.wide.own(rules, wide, place) {
                self.read_own(Site { part, ..site }, leaf)?;
            }
        }
        for place in 0..self.wide.count_tuplesets(wide) {
            self.read_tupleset(site, wide, place)?;
        }
        Ok(())
    }

    fn read_own(&mut self, site: Site<'s>, leaf: &'s Rewrite) -> Result<(), ConeFault> {
        if let Rewrite::This = leaf {
            self.take_room()?;
            let place = self.place(site.set, leaf)?;
            return Ok(self.link(site, place)?);
        }
        self.read(site, leaf)
    }

    /// The usersets that are stored in a tupleset, all that matter among them.
    fn stored_in(
        &self,
        set: SetRef<'s>,
        wide: usize,
        place: usize,
    ) -> Result<Vec<SetRef<'s>>, AllocError> {
        let rules = self.snapshot.timeline.rules();
        if let Some((tupleset, part)) = self.wide.tupleset(rules, wide, place) {
            if let Part::Through(through) = &part.part {
                let set = MarkedSet::of(under(set, tupleset));
                return objects(self.alloc, self.snapshot, set, through, part.declaring);
            }
        }
        Ok(Vec::new(self.alloc))
    }

    /// A node reads what is stored in a tupleset, each under those of the relations that are read that it declares.
    fn read_tupleset(
        &mut self,
        site: Site<'s>,
        wide: usize,
        place: usize,
    ) -> Result<(), ConeFault> {
        let rules = self.snapshot.timeline.rules();
        let at = self.snapshot.at;
        let sets = self.stored_in(site.set.set, wide, place)?;
        let mut names = Vec::new(self.alloc);
        for k in 0..sets.len() {
            self.take_room()?;
            if is_of_another(&sets, k) {
                names = self
                    .wide
                    .names_read(rules, wide, place, sets[k].namespace, at)?;
            }
            self.lead_each(site, sets[k], &names)?;
        }
        Ok(())
    }

    fn lead_each(
        &mut self,
        site: Site<'s>,
        stored: SetRef<'s>,
        names: &[Named<'t>],
    ) -> Result<(), ConeFault> {
        for named in names {
            let site = Site {
                part: named.group,
                ..site
            };
            self.lead(site, MarkedSet::of(under(stored, named.relation)))?;
        }
        Ok(())
    }

    /// Looks at nodes until each run has ended.
    fn go(&mut self) -> Result<(), ConeFault> {
        // each turn takes from the room, or ends a run, and to begin one does
        for _ in 0..usize::MAX {
            self.tell()?;
            // one that ends as soon as it may leaves what others ask again; so that is no more than was asked once
            let ends_early = self.again <= self.nodes.links();
            match self.runs.next(&self.nodes, ends_early) {
                Turn::LookAt(number) => {
                    self.take_room()?;
                    self.look_at(number)?;
                }
                Turn::Fail => self.fail()?,
                Turn::End => self.runs.end(&mut self.nodes)?,
                Turn::Nothing => return Ok(()),
            }
        }
        Ok(())
    }

    /// Settles the fact of a userset. Its node, where its relation is declared.
    pub(crate) fn settle_set(&mut self, set: SetRef<'s>) -> Result<Option<usize>, ConeFault> {
        self.runs.clear();
        let Some(number) = self.reach(MarkedSet::of(set))? else {
            return Ok(None);
        };
        if self.is_asked(number) {
            self.runs.start(&mut self.nodes, number)?;
            self.go()?;
        }
        Ok(Some(number))
    }

    /// Settles facts. The places of those that hold, in the order in which that showed.
    ///
    /// Refusals: OutOfMemory.
    pub fn order_of(&mut self, facts: &'s [Fact]) -> Result<Vec<usize>, AllocError> {
        // a cone has its own bounds
        self.room = usize::MAX;
        let mut places = vec![in self.alloc; None; self.nodes.len()]?;
        for place in 0..facts.len() {
            match self.settle_set(facts[place].set()) {
                Ok(Some(number)) => self.note(&mut places, number, place)?,
                Ok(None) => {}
                Err(ConeFault::Outgrown) => break,
                Err(ConeFault::OutOfMemory) => return Err(AllocError),
            }
        }
        let mut order = Vec::new(self.alloc);
        for number in &self.settled {
            if let Some(Some(place)) = places.get(*number).copied() {
                if self.nodes.state(*number) == State::Holds {
                    order.push(place)?;
                }
            }
        }
        Ok(order)
    }

    /// Notes the place of a node's fact.
    fn note(
        &self,
        places: &mut Vec<Option<usize>>,
        number: usize,
        place: usize,
    ) -> Result<(), AllocError> {
        for _ in places.len()..self.nodes.len() {
            places.push(None)?;
        }
        if let Some(noted) = places.get_mut(number) {
            *noted = Some(place);
        }
        Ok(())
    }
}
