// What is found of a problem.
use heap_formula::Judgement;
use model_file::Model;
use proof_file::ProofFile;
use run_file::RunFile;

/// Which search found a proof: the one with a stack of goals; the one by small lemmas; the one for a contradiction on
/// the left; or the one by fixed moves, depth by depth.
#[derive(Clone, Copy)]
pub enum ProofSearch {
    GoalStack,
    Lemmas,
    Contradiction,
    FixedMoves,
}

/// A proof that a check accepts, and which search found it.
#[derive(Drop)]
pub struct FoundProof {
    pub file: ProofFile,
    pub search: ProofSearch,
}

/// What shows that a goal does not hold.
#[derive(Drop)]
pub enum Refutation {
    /// A stack and a heap that satisfy the antecedent and none of the disjuncts, as a model file that asks for the
    /// antecedent.
    CounterModel(Model),
    /// A run from a state of the precondition that faults, or comes back to a state where it was, perhaps with more.
    FaultyRun(RunFile),
}

/// What is found of a problem's goal.
#[derive(Drop)]
pub enum Solution {
    /// It holds.
    Proved(FoundProof),
    /// It holds, since nothing satisfies its antecedent or precondition; a proof was not found.
    Impossible,
    /// It does not hold.
    Refuted(Refutation),
    /// Nothing was found within the budget; of a program, the judgement deepest in the draft of a proof on which the
    /// search gave up.
    Unknown { stuck: Option<Judgement> },
}
