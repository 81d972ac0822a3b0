// Stages of moves.
use crate::{Aim, Draft, Move, Stage, Step};
use cyc_basics::memory::OutOfMemory;
use heap_formula::Rule;
use std::alloc::Global;

/// A stage that is not the last.
pub fn stage_of(moves: Vec<Move>) -> Stage {
    Stage {
        moves,
        is_last: false,
        cost: 0,
    }
}

/// The last stage.
pub fn last_stage(moves: Vec<Move>) -> Stage {
    Stage {
        moves,
        is_last: true,
        cost: 0,
    }
}

/// No moves, now or later.
pub fn no_moves(alloc: Global) -> Stage {
    last_stage(Vec::new(alloc))
}

/// A list of one rule.
pub fn only(alloc: Global, rule: Rule) -> Result<Vec<Rule>, OutOfMemory> {
    Ok(vec![in alloc; rule]?)
}

/// One rule, and an aim at each of its premises.
pub fn one_rule(alloc: Global, rule: Rule, aim: Aim) -> Result<Move, OutOfMemory> {
    let rules = only(alloc, rule)?;
    Ok(Move::Step(Step {
        rules,
        side: None,
        aim,
    }))
}

/// A stage of one move.
fn stage_with(alloc: Global, only: Move, is_last: bool) -> Result<Stage, OutOfMemory> {
    let moves = vec![in alloc; only]?;
    Ok(Stage {
        moves,
        is_last,
        cost: 0,
    })
}

/// One move and no other.
pub fn one_move(alloc: Global, only: Move) -> Result<Stage, OutOfMemory> {
    stage_with(alloc, only, true)
}

/// The aim with fuel 0, 1, .. up to a number, one a stage.
pub fn deepening(alloc: Global, most: u32, stage: u32) -> Result<Stage, OutOfMemory> {
    stage_with(alloc, Move::Turn(Aim::Entail(stage)), stage >= most)
}

/// Moves that are being offered. Where memory is refused for one of them, the others go on, and in the end there is no
/// stage.
#[derive(Drop)]
pub struct MoveOffers {
    pub alloc: Global,
    pub moves: Vec<Move>,
    pub is_last: bool,
    lacks_memory: bool,
}

impl MoveOffers {
    /// No moves yet, and not the last.
    pub fn new(alloc: Global) -> MoveOffers {
        MoveOffers {
            alloc,
            moves: Vec::new(alloc),
            is_last: false,
            lacks_memory: false,
        }
    }

    /// Notes that memory was wanted and refused.
    pub fn lack_memory(&mut self) {
        self.lacks_memory = true;
    }

    /// Offers one more move.
    pub fn push(&mut self, next: Move) {
        if self.moves.push(next).is_err() {
            self.lack_memory();
        }
    }

    /// Offers one more step.
    pub fn push_step(
        &mut self,
        rules: Result<Vec<Rule>, OutOfMemory>,
        side: Option<Aim>,
        aim: Aim,
    ) {
        match rules {
            Ok(rules) => self.push(Move::Step(Step { rules, side, aim })),
            Err(OutOfMemory) => self.lack_memory(),
        }
    }

    /// Offers one more rule, and an aim at each of its premises.
    pub fn push_rule(&mut self, rule: Rule, aim: Aim) {
        self.push_step(only(self.alloc, rule), None, aim);
    }

    /// Offers one rule, and nothing after it.
    pub fn push_alone(&mut self, rule: Rule, aim: Aim) {
        self.is_last = true;
        self.push_rule(rule, aim);
    }

    /// The stage of these moves.
    pub fn into_stage(self) -> Result<Stage, OutOfMemory> {
        if self.lacks_memory {
            return Err(OutOfMemory);
        }
        Ok(Stage {
            moves: self.moves,
            is_last: self.is_last,
            cost: 0,
        })
    }
}

/// The nodes to which links may lead, the latest first.
pub fn companions(alloc: Global, draft: &Draft) -> Result<Vec<u32>, OutOfMemory> {
    let mut numbers = Vec::new(alloc);
    let mut number: u32 = 0;
    for node in draft.nodes.iter() {
        if node.is_companion() {
            numbers.push(number)?;
        }
        number = number.saturating_add(1);
    }
    numbers.reverse();
    Ok(numbers)
}
