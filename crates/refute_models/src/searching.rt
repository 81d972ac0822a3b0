// The search for a model, in rounds.
use crate::goals::Start;
use crate::inquiries::{Inquiry, Verdict, doubled};
use crate::merging::Merging;
use cyc_basics::memory::OutOfMemory;
use heap_formula::Heap;
use pred_defs::Defs;
use refute_unfoldings::{Choices, Derivations, Model, Sizes, Unfolder, Unfolding};
use std::alloc::Global;

/// The work of the first round on base pairs, and on the unfoldings of one level.
const PAIR_WORK: u32 = 20_000;

const LEVEL_WORK: u32 = 20_000;

/// How many levels more there are in each round.
const LEVELS: u32 = 4;

/// The models under one unfolding in the first round.
const MODELS: u32 = 40;

/// The work that it takes to make a model.
const WORK_PER_MODEL: u32 = 20;

/// The models of a formula over so many variables, of which one is sought.
#[derive(Clone, Copy)]
pub struct Search<'a, I: Inquiry> {
    pub alloc: Global,
    pub defs: &'a Defs,
    pub formula: &'a Heap,
    pub variables: u16,
    pub inquiry: &'a I,
}

/// What comes of a stretch of the search: a model that is sought, or whether all was gone through that belongs to it;
/// and how much work it was.
#[derive(Drop)]
struct Stretch {
    found: Option<Model>,
    is_whole: bool,
    work: u32,
}

/// What was gone through whole: the choices of base pairs, and each level so far.
#[derive(Drop)]
struct Progress {
    are_pairs_whole: bool,
    levels: Vec<bool>,
}

fn first_stretch() -> Stretch {
    Stretch {
        found: None,
        is_whole: true,
        work: 0,
    }
}

impl<I: Inquiry> Search<'_, I> {
    /// Looks at a model of an unfolding.
    fn look(
        &self,
        merging: &mut Merging,
        stretch: &mut Stretch,
        model: Model,
        age: u32,
    ) -> Result<(), OutOfMemory> {
        let look = self.inquiry.look(&model, age)?;
        let work = look.work.saturating_add(WORK_PER_MODEL);
        stretch.work = stretch.work.saturating_add(work);
        stretch.is_whole = stretch.is_whole && look.is_whole;
        match look.verdict {
            Verdict::Sought => stretch.found = Some(model),
            Verdict::Otherwise(pairs) => merging.merge(&model, &pairs)?,
        }
        Ok(())
    }

    /// Looks at the models of one unfolding.
    fn under(&self, leaf: Unfolding, age: u32, most: u32) -> Result<Stretch, OutOfMemory> {
        let models = doubled(MODELS, age) as usize;
        let mut merging = Merging::new(self.alloc, leaf, models)?;
        let mut stretch = first_stretch();
        for _ in 0..models {
            if stretch.work >= most {
                stretch.is_whole = false;
                break;
            }
            let Some(model) = merging.next_model(self.variables)? else {
                break;
            };
            self.look(&mut merging, &mut stretch, model, age)?;
            if stretch.found.is_some() {
                break;
            }
        }
        stretch.is_whole = stretch.is_whole && !merging.is_full();
        Ok(stretch)
    }

    /// Goes through the unfoldings with so many steps more than the least number.
    fn level(
        &self,
        start: &Start,
        sizes: &Sizes,
        extra: u32,
        age: u32,
    ) -> Result<Stretch, OutOfMemory> {
        let most = doubled(LEVEL_WORK, age);
        let open = start.atoms(self.alloc)?;
        let first = start.unfolding.clone()?;
        let mut unfolder = Unfolder::new(self.alloc, self.defs, sizes, first, open, extra, most)?;
        let mut stretch = first_stretch();
        for _ in 0..most {
            let Some(leaf) = unfolder.next()? else {
                break;
            };
            let under = self.under(leaf, age, most)?;
            unfolder.spend(under.work);
            if under.found.is_some() {
                return Ok(under);
            }
            stretch.is_whole = stretch.is_whole && under.is_whole;
        }
        stretch.is_whole = stretch.is_whole && !unfolder.is_over();
        Ok(stretch)
    }

    /// Goes through the choices of base pairs for the formula's atoms.
    fn by_pairs(&self, start: &Start, age: u32) -> Result<Stretch, OutOfMemory> {
        let most = doubled(PAIR_WORK, age);
        let table = Derivations::new(self.alloc, self.defs, most)?;
        let first = start.unfolding.clone()?;
        let mut choices = Choices::new(self.alloc, &table, &start.open, first, most)?;
        let mut stretch = first_stretch();
        for _ in 0..most {
            let Some(choice) = choices.next()? else {
                break;
            };
            let first = start.unfolding.clone()?;
            if let Some(leaf) = table.replay(first, &start.open, &choice.numbers)? {
                let under = self.under(leaf, age, most)?;
                choices.spend(under.work);
                if under.found.is_some() {
                    return Ok(under);
                }
                stretch.is_whole = stretch.is_whole && under.is_whole;
            }
        }
        stretch.is_whole = stretch.is_whole && table.is_whole() && !choices.is_over();
        Ok(stretch)
    }

    /// Goes through the levels of a round that were not gone through whole.
    fn levels(
        &self,
        start: &Start,
        sizes: &Sizes,
        whole: &mut Vec<bool>,
        round: u32,
    ) -> Result<Option<Model>, OutOfMemory> {
        for extra in 0..LEVELS.saturating_mul(round.saturating_add(1)) {
            if let Some(true) = whole.get(extra as usize) {
                continue;
            }
            let age = round.saturating_sub(extra / LEVELS);
            let stretch = self.level(start, sizes, extra, age)?;
            if stretch.found.is_some() {
                return Ok(stretch.found);
            }
            match whole.get_mut(extra as usize) {
                Some(is_whole) => *is_whole = stretch.is_whole,
                None => whole.push(stretch.is_whole)?,
            }
        }
        Ok(None)
    }

    fn round(
        &self,
        start: &Start,
        sizes: &Sizes,
        progress: &mut Progress,
        round: u32,
    ) -> Result<Option<Model>, OutOfMemory> {
        if !progress.are_pairs_whole {
            let stretch = self.by_pairs(start, round)?;
            if stretch.found.is_some() {
                return Ok(stretch.found);
            }
            progress.are_pairs_whole = stretch.is_whole;
        }
        self.levels(start, sizes, &mut progress.levels, round)
    }

    /// Searches in so many rounds. Each does twice the work of the one before it, and goes to further levels.
    pub fn run(&self, rounds: u32) -> Result<Option<Model>, OutOfMemory> {
        let Some(start) = Start::new(self.alloc, self.formula, self.variables)? else {
            return Ok(None);
        };
        let sizes = Sizes::new(self.alloc, self.defs)?;
        let mut progress = Progress {
            are_pairs_whole: false,
            levels: Vec::new(self.alloc),
        };
        for round in 0..rounds {
            let found = self.round(&start, &sizes, &mut progress, round)?;
            if found.is_some() {
                return Ok(found);
            }
        }
        Ok(None)
    }
}
