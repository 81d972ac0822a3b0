// What is known of lemmas.
use crate::tree::Tree;
use cyc_basics::memory::OutOfMemory;
use heap_formula::{Judgement, is_same_judgement};
use std::alloc::Global;

/// How hard a lemma is tried: by the tactic alone, also by the search with an explicit goal stack, and also as a goal
/// by parts.
#[derive(Clone, Copy)]
pub struct Effort {
    pub is_hard: bool,
    pub is_part: bool,
}

/// A lemma that is asked for.
#[derive(Drop)]
pub struct Question {
    pub judgement: Judgement,
    pub effort: Effort,
}

/// A judgement up to renaming, and the number of the lemma that says it, if it was proved. One that is being proved
/// counts as one that was not, so that uses of lemmas make no circle.
#[derive(Drop)]
pub struct KnownLemma {
    pub judgement: Judgement,
    pub lemma: Option<u32>,
}

/// The lemmas, what is known of others, and the question that is open.
#[derive(Drop)]
pub struct Memo {
    pub known: Vec<KnownLemma>,
    pub lemmas: Vec<Tree>,
    pub question: Option<Question>,
}

impl Memo {
    /// Nothing known.
    pub fn new(alloc: Global) -> Memo {
        Memo {
            known: Vec::new(alloc),
            lemmas: Vec::new(alloc),
            question: None,
        }
    }

    /// What is known of a judgement, if anything is.
    pub fn answer(&self, judgement: &Judgement) -> Option<Option<u32>> {
        for known in &self.known {
            if is_same_judgement(&known.judgement, judgement) {
                return Some(known.lemma);
            }
        }
        None
    }

    /// Notes a judgement as not proved, and gives its place.
    pub fn note(&mut self, judgement: &Judgement) -> Result<usize, OutOfMemory> {
        let place = self.known.len();
        let judgement = judgement.clone()?;
        self.known.push(KnownLemma {
            judgement,
            lemma: None,
        })?;
        Ok(place)
    }

    /// Keeps a proved lemma for the judgement at a place.
    pub fn keep(&mut self, place: usize, tree: Tree) -> Result<(), OutOfMemory> {
        let number = self.lemmas.len();
        self.lemmas.push(tree)?;
        if let (Some(known), Ok(number)) = (self.known.get_mut(place), u32::try_from(number)) {
            known.lemma = Some(number);
        }
        Ok(())
    }
}
