//! A board of alerts that threads share: each alert on it is true.
ghost use Rattle.std.specs.Prelude.{◌≡◌, ◌-◌, ℕ, Bool, IfOk, IfErr};
ghost use Rattle.std.specs.Iterator.{at_most};
ghost use Rattle.audit_slices.specs.Board.{IsTrueAlert, IsPostedOn, posted_alert, IsOver, GivesAlert, place_of, end_of};

use boxcar::tag::Tag;
use boxcar::{Iter, Keeps, Pushed, Vec};
use std::alloc::{AllocError, Global};
use std::marker::PhantomData;
use std::sync::Wait;

/// Which reports may be given to an entry, and which reports raise an alert. Each call of a program picks it.
pub trait Names<X> {
    ghost gives: { ℕ → X → Type 0 };

    ghost alerts: { X → Bool };
}

/// The report of an entry, which raises an alert.
#[derive(Drop)]
pub struct Alert<X> {
    pub entry: usize,
    pub report: X,
}

/// The rule of a board: each alert on it is true.
pub struct True<N> {
    names: PhantomData<N>,
}

impl<X, N: Names<X>> Keeps<Alert<X>> for True<N> {
    ghost holds = { λ _ _ a. IsTrueAlert N.gives N.alerts a };
}

/// It shows where on a board an alert stands.
#[derive(Drop)]
pub struct Posted<X, N: Names<X>> {
    at: Pushed<Alert<X>, Global, True<N>>,
}

/// The alerts of all threads. An alert that was posted stays.
#[derive(Drop)]
pub struct Board<X, N: Names<X>> {
    alerts: Vec<Alert<X>, Global, True<N>>,
}

impl<X: Drop, N: Names<X>> Board<X, N> {
    /// An empty board. Refused where memory runs out.
    pub fn new(alloc: Global) -> Result<Board<X, N>, AllocError> {
        Ok(Board {
            alerts: Vec::with_rule(alloc, Tag::empty())?,
        })
    }

    /// Puts up an alert, which has to be true. It comes back where memory runs out.
    pub fn post<R: Wait>(&self, rt: &R, alert: Alert<X>) -> Result<Posted<X, N>, Alert<X>>
        requires { IsTrueAlert N.gives N.alerts alert }
        ensures posted { IfOk result (λ p. IsPostedOn self.now p × (posted_alert p ≡ alert)) }
        ensures back { IfErr result (λ a. a ≡ alert) }
    {
        let at = self.alerts.push_shown(rt, alert)?;
        Ok(Posted { at })
    }
}

impl<X, N: Names<X>> Board<X, N> {
    /// The alert that was posted.
    pub fn of<'a>(&'a self, posted: &Posted<X, N>) -> &'a Alert<X>
        requires { IsPostedOn self.now posted.now }
        ensures { result.now ≡ posted_alert posted.now }
    {
        self.alerts.value(&posted.at)
    }

    /// The alerts that are on it, from the first on.
    pub fn alerts(&self) -> Alerts<'_, X, N>
        ensures board { IsOver self.now result }
        ensures first { place_of result ≡ 0 }
    {
        Alerts {
            inner: self.alerts.iter(),
        }
    }
}

/// The alerts of a board.
#[derive(Drop)]
pub struct Alerts<'a, X, N: Names<X>> {
    inner: Iter<'a, Alert<X>, Global, True<N>>,
}

impl<'a, X, N: Names<X>> Iterator for Alerts<'a, X, N> {
    type Item = &'a Alert<X>;

    ghost next_gives = { GivesAlert N.gives N.alerts };

    ghost remaining = { λ it. at_most (end_of it - place_of it) };

    /// The next alert, which is true. None is given twice. `None` where all places were gone through.
    fn next(&mut self) -> Option<&'a Alert<X>> {
        let (_place, alert) = self.inner.next()?;
        Some(alert)
    }
}

/// It is shown alerts, each of them true.
pub trait Watch<X, N: Names<X>> {
    // What no alert changes.
    ghost mark: { Self → ℕ };

    fn seen(&mut self, alert: &Alert<X>)
        requires { IsTrueAlert N.gives N.alerts alert.now }
        ensures { mark self.new ≡ mark self.old };
}

/// It looks at nothing.
#[derive(Drop)]
pub struct Blind;

impl<X, N: Names<X>> Watch<X, N> for Blind {
    ghost mark = { λ _. 0 };

    fn seen(&mut self, _alert: &Alert<X>) {}
}

// Where the workers of a pool put up their alerts: a board, or nowhere.
pub(crate) trait Desk<X, N: Names<X>> {
    fn is_there(&self) -> bool;

    // Puts up an alert, or drops it where memory runs out.
    fn put<R: Wait>(&self, rt: &R, alert: Alert<X>)
        requires { IsTrueAlert N.gives N.alerts alert };

    // Shows a watch the alerts from this place on, up to the first place that is still empty, which it answers.
    fn show_new<W: Watch<X, N>>(&self, from: usize, watch: &mut W) -> usize
        ensures { W.mark watch.new ≡ W.mark watch.old };

    // Shows a watch the alerts from this place on. A place whose alert found no memory stays empty.
    fn show_rest<W: Watch<X, N>>(&self, from: usize, watch: &mut W)
        ensures { W.mark watch.new ≡ W.mark watch.old };
}

impl<X: Drop, N: Names<X>> Desk<X, N> for Board<X, N> {
    fn is_there(&self) -> bool {
        true
    }

    fn put<R: Wait>(&self, rt: &R, alert: Alert<X>)
        requires { IsTrueAlert N.gives N.alerts alert }
    {
        drop(self.post(rt, alert));
    }

    fn show_new<W: Watch<X, N>>(&self, from: usize, watch: &mut W) -> usize {
        let end = self.alerts.count();
        for place in from..end {
            match self.alerts.get(place) {
                Some(alert) => watch.seen(alert),
                None => return place,
            }
        }
        from.max(end)
    }

    fn show_rest<W: Watch<X, N>>(&self, from: usize, watch: &mut W) {
        for place in from..self.alerts.count() {
            if let Some(alert) = self.alerts.get(place) {
                watch.seen(alert);
            }
        }
    }
}

// No alert is put up.
pub(crate) struct Nowhere;

impl<X: Drop, N: Names<X>> Desk<X, N> for Nowhere {
    fn is_there(&self) -> bool {
        false
    }

    fn put<R: Wait>(&self, _rt: &R, _alert: Alert<X>)
        requires { IsTrueAlert N.gives N.alerts _alert }
    {}

    fn show_new<W: Watch<X, N>>(&self, from: usize, _watch: &mut W) -> usize {
        from
    }

    fn show_rest<W: Watch<X, N>>(&self, _from: usize, _watch: &mut W) {}
}
