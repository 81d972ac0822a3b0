// What may be done at a node of a draft.
use crate::draft::Draft;
use cyc_basics::memory::OutOfMemory;
use heap_formula::Rule;

/// What is to be reached at a node.
#[derive(Clone, Copy)]
pub enum Aim {
    /// A proof of the entailment with so much fuel: unfolding, Cut and Split take one each.
    Entail(u32),
    /// A proof with fuel 0, 1, .. up to a number.
    Deepen(u32),
    /// The same with a small purse of steps of its own.
    Aside(u32),
    /// A link to this node.
    Link(u32),
    /// A link to this node after so many folds of atoms at most; the fuel is that of each fold's proof.
    Fold {
        companion: u32,
        folds: u32,
        fuel: u32,
    },
    /// A proof of a `from` judgement with so many visits of a line.
    Run(u32),
    /// The same with one visit, then with two, .. up to a number.
    Rounds(u32),
    /// The same at the head of a loop, whose state was made more general so many times already.
    Head {
        visits: u32,
        changes: u32,
    },
}

/// Rules one after the other, each at the last premise of the one before it. What is to be reached at the other
/// premises of the first rule is `side`, if it is given, and everywhere else `aim`.
#[derive(Drop)]
pub struct Step {
    pub rules: Vec<Rule>,
    pub side: Option<Aim>,
    pub aim: Aim,
}

/// One thing that may be done at a node.
#[derive(Drop)]
pub enum Move {
    /// Rules.
    Step(Step),
    /// A link to this node.
    Link(u32),
    /// Another aim at the node itself.
    Turn(Aim),
}

/// Moves, the first to be tried first, and whether they are the last that the node is offered. `cost` is how many steps
/// they took to find.
#[derive(Drop)]
pub struct Stage {
    pub moves: Vec<Move>,
    pub is_last: bool,
    pub cost: u32,
}

/// What offers moves: stage by stage, so that a later stage is only thought of where the earlier ones have failed.
pub trait Strategy {
    /// The moves of a stage for an aim at a node of a draft.
    fn stage(
        &mut self,
        draft: &Draft,
        node: u32,
        aim: Aim,
        stage: u32,
    ) -> Result<Stage, OutOfMemory>;
}
