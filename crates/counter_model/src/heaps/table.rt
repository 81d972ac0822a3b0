// What is found so far of each question.
ghost use Rattle.std.specs.Prelude.{◌≡◌, ◌<◌, ◌≤◌, ◌++◌, ℕ, [], ◌∷◌, length, IfOk, IsTrue, OnOk, Some, slice_get};
ghost use Rattle.heap_formula.specs.Cells.{Cells as SomeHeap};
ghost use Rattle.model_check.specs.Grounding.{Asked, IsQuestion, IsQuestionAt};
ghost use Rattle.counter_model.specs.Bounds.{IsAmong};
ghost use Rattle.counter_model.specs.Findings.{heaps_in, size, IsFound, IsNewlyFound, UnlessGrown};

use crate::heaps::combining::{Heaps, has_heap};
use cyc_basics::memory::OutOfMemory;
use goto_lang::Cells;
use indexmap::IndexSet;
use model_check::Question;
use std::alloc::Global;
use std::marker::Model;

/// The questions asked so far, each once, and the heaps found for each. Running out of memory may leave the last
/// question without a place for heaps.
#[derive(Drop)]
pub struct Table {
    questions: IndexSet<Question>,
    found: Vec<Heaps>,
}

impl Model for Table {
    ghost use Rattle.std.specs.FinMap as map;
    ghost use Rattle.std.specs.Coded.{codes, coded_ℕ, coded_list};
    ghost use Rattle.std.specs.Ordering.{nat_cmp};
    ghost use Rattle.counter_model.specs.Findings.{Findings};

    ghost Value = { Findings };

    ghost coded = { Prim.hlevel (codes, map.code {R = nat_cmp} coded_ℕ (coded_list coded_ℕ)) };

    ghost view = { λ t. record { questions = t.questions.keys; found = t.found.items } };
}

impl Table {
    pub fn new(alloc: Global) -> Table {
        Table {
            questions: IndexSet::new(alloc),
            found: Vec::new(alloc),
        }
    }

    /// How many questions were asked.
    pub fn len(&self) -> usize
        ensures { result ≡ length self.now.questions }
    {
        self.questions.len()
    }

    /// A copy of a question.
    pub fn question(&self, q: usize) -> Result<Option<Question>, OutOfMemory>
        ensures { IfOk result (IsQuestionAt self.now.questions q) }
    {
        match self.questions.as_slice().get(q) {
            None => Ok(None),
            Some(question) => Ok(Some(question.clone()?)),
        }
    }

    /// The heaps found for a question.
    pub fn heaps(&self, q: usize) -> &[Cells]
        ensures { result.now ≡ heaps_in (slice_get self.now.found q) }
    {
        match self.found.get(q) {
            None => &[],
            Some(heaps) => heaps.as_slice(),
        }
    }

    /// The number of a question, and whether it is asked for the first time.
    pub fn ask(
        &mut self,
        alloc: Global,
        predicate: u16,
        values: Vec<u64>,
    ) -> Result<(usize, bool), OutOfMemory>
        ensures grown { IfOk result (λ r. UnlessGrown r.1 self.old self.new
            (IsQuestion self.old.questions r.0 predicate values.items)) }
        ensures asked { IfOk result (λ r. Asked self.old.questions self.new.questions r.0 predicate values.items) }
    {
        let (q, is_new) = self
            .questions
            .insert_full(Question::new(predicate, values))?;
        if is_new {
            self.found.push(Heaps::new(alloc))?;
        }
        Ok((q, is_new))
    }

    fn push(&mut self, q: usize, heap: Cells) -> Result<(), OutOfMemory>
        ensures heaps { OnOk result (heaps_in (slice_get self.new.found q)
            ≡ heaps_in (slice_get self.old.found q) ++ heap ∷ []) }
        ensures larger { OnOk result (size self.old < size self.new) }
    {
        if q < self.found.len() {
            self.found[q].push(heap)
        } else {
            Err(OutOfMemory)
        }
    }

    /// Adds a copy of a heap to those found for a question, if it is not there, and says whether it did.
    pub fn add(&mut self, greatest: u32, q: usize, heap: &Cells) -> Result<bool, OutOfMemory>
        ensures grown { IfOk result (λ grown. UnlessGrown grown self.old self.new ((h : SomeHeap)
            → IsAmong greatest (heap.now ∷ []) h → IsFound greatest self.old q h)) }
        ensures new { IfOk result (λ grown. IsTrue grown → IsNewlyFound greatest self.old self.new q heap.now) }
    {
        if has_heap(greatest, self.heaps(q), heap) {
            return Ok(false);
        }
        self.push(q, heap.clone()?)?;
        Ok(true)
    }

    /// The answer where there are as many questions and heaps as there are numbers: they do not fit in memory.
    pub fn does_not_fit(&self) -> OutOfMemory
        requires { usize.MAX ≤ size self.now }
    {
        OutOfMemory
    }
}
