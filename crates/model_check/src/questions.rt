// Questions: whether a predicate holds of values, and in which parts of the heap.
ghost use Rattle.std.specs.Prelude.{◌≡◌, ◌≤◌, length, IfOk, MatchOption, slice_get};
ghost use Rattle.model_check.specs.Grounding.{Asked};

use cyc_basics::memory::OutOfMemory;
use indexmap::IndexSet;
use std::alloc::AllocError;
use std::hash::{Hash, Hasher};
use std::marker::Model;

/// A predicate and the values of its arguments.
#[derive(Drop)]
pub struct Question {
    predicate: u16,
    values: Vec<u64>,
}

impl Model for Question {
    ghost use Rattle.model_check.specs.Questions.{Question};

    ghost Value = { Question };

    ghost view = { λ q. record { predicate = q.predicate; values = q.values.items } };
}

impl Clone for Question {
    ghost is_clone = { λ question copy. copy ≡ question };

    fn clone(&self) -> Result<Question, AllocError> {
        let values = self.values.clone()?;
        Ok(Question {
            predicate: self.predicate,
            values,
        })
    }
}

impl PartialEq for Question {
    ghost use Rattle.model_check.specs.Questions.{question_eq, question_per};

    ghost eq = { question_eq };

    ghost laws = { question_per };

    fn eq(&self, other: &Question) -> bool {
        self.predicate == other.predicate && self.values == other.values
    }
}

impl Eq for Question {
    ghost use Rattle.model_check.specs.Questions.{question_equiv};

    ghost laws = { question_equiv };
}

impl Hash for Question {
    ghost use Rattle.model_check.specs.Questions.{question_alike, question_writes};

    ghost hash_input = { question_writes };

    ghost respects_eq = { question_alike };

    fn hash<H: Hasher>(&self, state: &mut H) {
        self.predicate.hash(state);
        self.values.hash(state);
    }
}

impl Question {
    /// The question whether the predicate with this number holds of these values.
    pub fn new(predicate: u16, values: Vec<u64>) -> Question
        ensures { result ≡ record { predicate = predicate; values = values.items } }
    {
        Question { predicate, values }
    }

    /// The number of its predicate.
    pub fn predicate(&self) -> u16
        ensures { result ≡ self.now.predicate }
    {
        self.predicate
    }

    /// The values that it asks of.
    pub fn values(&self) -> &[u64]
        ensures { result.now ≡ self.now.values }
    {
        &self.values
    }
}

/// The number of a question, which is new if it was not asked before.
pub fn ask(
    questions: &mut IndexSet<Question>,
    predicate: u16,
    values: Vec<u64>,
) -> Result<usize, OutOfMemory>
    ensures { IfOk result (λ q. Asked questions.old.keys questions.new.keys q predicate values.items) }
{
    let (q, _) = questions.insert_full(Question::new(predicate, values))?;
    Ok(q)
}

/// The question of a number, if there is one.
pub fn question_at(questions: &IndexSet<Question>, q: usize) -> Option<&Question>
    ensures { MatchOption result (length questions.now.keys ≤ q) (λ x. slice_get questions.now.keys q ≡ Some x.now) }
{
    questions.as_slice().get(q)
}
