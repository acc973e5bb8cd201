//! What was asked for facts before, and what followed.

ghost use Rattle.std.specs.Prelude.{◌≡◌, [], IfSome};
ghost use Rattle.rewrites.specs.Expression.{Expression};
ghost use Rattle.wide_rules.specs.Asked.{AreRightPaths, Follows, Questions};

use crate::answers::{Answers, Asked};
use std::alloc::{AllocError, Global};
use std::marker::Model;

/// Parts with their answers, in the order in which they were asked for, and the answer of the rule that follows from
/// these.
#[derive(Drop)]
pub(crate) struct Path {
    asked: Vec<Asked>,
    is_given: bool,
    answer: bool,
}

/// Where an answer leads.
#[derive(Clone, Copy)]
enum Next {
    Unknown,
    Question(usize),
    Path(usize),
}

/// A part or a cover that is asked, and where its answers lead.
#[derive(Clone, Copy)]
struct Question {
    part: usize,
    is_cover: bool,
    is_given: bool,
    if_true: Next,
    if_false: Next,
}

/// The answer to a question.
#[derive(Clone, Copy)]
struct Turn {
    question: usize,
    answer: bool,
}

/// How far the answers for a fact lead, and behind which of them.
#[derive(Clone, Copy)]
pub(crate) struct Reached {
    next: Next,
    turn: Option<Turn>,
}

/// The paths that were gone for facts before, as contracts see them.
///
/// Questions make a decision tree of them, by which the path of a fact is found. What is found is believed only where
/// all answers on the path are those of the fact. So many answers are kept as the rule has places, and then all paths
/// are forgotten: to go over the rule once costs as much.
#[derive(Drop)]
pub(crate) struct Paths {
    alloc: Global,
    paths: Vec<Path>,
    questions: Vec<Question>,
    given: Next,
    barred: Next,
    kept: usize,
    room: usize,
}

impl Model for Paths {
    ghost use Rattle.std.specs.Prelude.{List};
    ghost use Rattle.wide_rules.specs.declared.paths.Path.{Path};

    ghost Value = { List Path };

    ghost view = { λ s. s.paths.items };
}

impl Paths {
    /// No paths, and room for so many answers.
    pub(crate) fn new(alloc: Global, room: usize) -> Paths
        ensures { result ≡ [] }
    {
        Paths {
            alloc,
            paths: Vec::new(alloc),
            questions: Vec::new(alloc),
            given: Next::Unknown,
            barred: Next::Unknown,
            kept: 0,
            room,
        }
    }

    /// How many questions a path has at most.
    pub(crate) fn most(&self) -> usize {
        self.questions.len()
    }

    /// Where paths begin.
    pub(crate) fn first(&self, is_given: bool) -> Reached {
        let next = if is_given { self.given } else { self.barred };
        Reached { next, turn: None }
    }

    /// The question that was reached: the number of the part or the cover, whether it is a cover, and whether it is
    /// asked what it gives. `None` where a path ends or is not known.
    pub(crate) fn question(&self, reached: Reached) -> Option<(usize, bool, bool)> {
        let Next::Question(number) = reached.next else {
            return None;
        };
        let question = self.questions.get(number)?;
        Some((question.part, question.is_cover, question.is_given))
    }

    /// What is reached by an answer.
    pub(crate) fn after(&self, reached: Reached, answer: bool) -> Reached {
        let Next::Question(number) = reached.next else {
            return reached;
        };
        let next = match self.questions.get(number).copied() {
            Some(question) => {
                if answer {
                    question.if_true
                } else {
                    question.if_false
                }
            }
            None => Next::Unknown,
        };
        Reached {
            next,
            turn: Some(Turn {
                question: number,
                answer,
            }),
        }
    }

    /// The answer of the path that was reached, where all that was asked on it has the same answers again.
    pub(crate) fn answer(&self, reached: Reached, is_given: bool, answers: &Answers) -> Option<bool>
        ensures { IfSome result (λ r. (q : Questions) (e : Expression) → AreRightPaths q e self.now
            → Follows q answers.now is_given e r) }
    {
        let Next::Path(number) = reached.next else {
            return None;
        };
        let path = self.paths.get(number)?;
        if path.is_given == is_given && answers.have(&path.asked) {
            Some(path.answer)
        } else {
            None
        }
    }

    /// Keeps what was asked, of which so many were asked up to what was reached, and what followed.
    pub(crate) fn keep(
        &mut self,
        reached: Reached,
        depth: usize,
        asked: &[Asked],
        is_given: bool,
        answer: bool,
    ) -> Result<(), AllocError>
        ensures { (q : Questions) (e : Expression) → AreRightPaths q e self.old
            → Follows q asked.now is_given e answer → AreRightPaths q e self.new }
    {
        if asked.len() > self.room.saturating_sub(self.kept) {
            self.forget();
            return Ok(());
        }
        let number = self.paths.len();
        let copy = Vec::from_slice(self.alloc, asked)?;
        self.paths.push(Path {
            asked: copy,
            is_given,
            answer,
        })?;
        self.kept = self.kept.saturating_add(asked.len());
        self.lead(reached, depth, asked, is_given, number)
    }

    /// From now on there are no paths.
    fn forget(&mut self)
        ensures { self.new ≡ [] }
    {
        self.paths.clear();
        self.questions.clear();
        self.given = Next::Unknown;
        self.barred = Next::Unknown;
        self.kept = 0;
    }

    /// Lets what was asked behind what was reached lead to a path.
    fn lead(
        &mut self,
        reached: Reached,
        depth: usize,
        asked: &[Asked],
        is_given: bool,
        path: usize,
    ) -> Result<(), AllocError>
        ensures { self.new ≡ self.old }
    {
        let mut turn = reached.turn;
        for k in depth..asked.len() {
            let one = asked[k];
            let question = self.questions.len();
            self.questions.push(Question {
                part: one.part,
                is_cover: one.is_cover,
                is_given: one.is_given,
                if_true: Next::Unknown,
                if_false: Next::Unknown,
            })?;
            self.link(turn, is_given, Next::Question(question));
            turn = Some(Turn {
                question,
                answer: one.answer,
            });
        }
        self.link(turn, is_given, Next::Path(path));
        Ok(())
    }

    /// Says where an answer leads, or where paths begin.
    fn link(&mut self, turn: Option<Turn>, is_given: bool, next: Next)
        ensures { self.new ≡ self.old }
    {
        let Some(turn) = turn else {
            if is_given {
                self.given = next;
            } else {
                self.barred = next;
            }
            return;
        };
        if turn.question < self.questions.len() {
            if turn.answer {
                self.questions[turn.question].if_true = next;
            } else {
                self.questions[turn.question].if_false = next;
            }
        }
    }
}
