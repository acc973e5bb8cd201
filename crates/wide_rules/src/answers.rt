//! What was asked of the parts of a rule.

ghost use Rattle.std.specs.Prelude.{◌≡◌, ◌∷◌, ◌++◌, [], Contains, IsTrue, IfOk, IfSome, OnOk};
ghost use Rattle.wide_rules.specs.Asked.{AsksMore};

use std::alloc::{AllocError, Global};
use std::marker::Model;

/// Whether a part or a cover, by its number, gives a fact, or whether it rules the fact out, and the answer.
#[derive(Clone, Copy)]
pub(crate) struct Asked {
    pub(crate) part: usize,
    pub(crate) is_cover: bool,
    pub(crate) is_given: bool,
    pub(crate) answer: bool,
}

/// Answers in the order in which they were asked for, as contracts see them.
///
/// For each part stands where its answers may be found, as in a sparse set (Briggs and Torczon): what stands there is
/// believed only where it is of that part, so that nothing has to be cleared for the next fact.
#[derive(Drop)]
pub(crate) struct Answers {
    asked: Vec<Asked>,
    parts: Places,
    covers: Places,
}

/// By the numbers of parts, or of covers, where the answers may be found of what is given, and of what is ruled out.
#[derive(Drop)]
struct Places {
    given: Vec<usize>,
    barred: Vec<usize>,
}

impl Model for Answers {
    ghost use Rattle.std.specs.Prelude.{List};
    ghost use Rattle.wide_rules.specs.declared.answers.Asked.{Asked};

    ghost Value = { List Asked };

    ghost view = { λ s. s.asked.items };
}

fn places_for(alloc: Global, count: usize) -> Result<Places, AllocError> {
    Ok(Places {
        given: vec![in alloc; 0usize; count]?,
        barred: vec![in alloc; 0usize; count]?,
    })
}

fn set_place(places: &mut Vec<usize>, part: usize, place: usize) {
    if part < places.len() {
        places[part] = place;
    }
}

impl Places {
    fn at(&self, part: usize, is_given: bool) -> Option<usize> {
        let places = if is_given { &self.given } else { &self.barred };
        places.get(part).copied()
    }

    fn set(&mut self, part: usize, is_given: bool, place: usize) {
        if is_given {
            set_place(&mut self.given, part, place);
        } else {
            set_place(&mut self.barred, part, place);
        }
    }
}

impl Answers {
    /// Nothing was asked, and there is room for the answers of so many parts and covers.
    pub(crate) fn new(alloc: Global, parts: usize, covers: usize) -> Result<Answers, AllocError>
        ensures { IfOk result (λ s. s ≡ []) }
    {
        Ok(Answers {
            asked: Vec::new(alloc),
            parts: places_for(alloc, parts)?,
            covers: places_for(alloc, covers)?,
        })
    }

    /// The answer, where it was asked for.
    pub(crate) fn find(&self, part: usize, is_cover: bool, is_given: bool) -> Option<bool>
        ensures { IfSome result (λ answer. Contains self.now
            (record { part = part; is_cover = is_cover; is_given = is_given; answer = answer })) }
    {
        let places = if is_cover { &self.covers } else { &self.parts };
        let place = places.at(part, is_given)?;
        let asked = self.asked.get(place).copied()?;
        if asked.part == part && asked.is_cover == is_cover && asked.is_given == is_given {
            Some(asked.answer)
        } else {
            None
        }
    }

    /// One answer more.
    pub(crate) fn note(&mut self, asked: Asked) -> Result<(), AllocError>
        ensures { OnOk result (self.new ≡ self.old ++ asked ∷ []) }
    {
        let place = self.asked.len();
        self.asked.push(asked)?;
        if asked.is_cover {
            self.covers.set(asked.part, asked.is_given, place);
        } else {
            self.parts.set(asked.part, asked.is_given, place);
        }
        Ok(())
    }

    /// Whether all of these were asked for, with these answers.
    pub(crate) fn have(&self, asked: &[Asked]) -> bool
        ensures { IsTrue result → AsksMore asked.now self.now }
    {
        for one in asked {
            let Some(answer) = self.find(one.part, one.is_cover, one.is_given) else {
                return false;
            };
            if answer != one.answer {
                return false;
            }
        }
        true
    }

    /// From now on nothing was asked.
    pub(crate) fn clear(&mut self)
        ensures { self.new ≡ [] }
    {
        self.asked.clear();
    }

    /// All that was asked.
    pub(crate) fn as_slice(&self) -> &[Asked]
        ensures { result.now ≡ self.now }
    {
        &self.asked
    }
}
