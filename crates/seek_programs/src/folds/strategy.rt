// The moves at an entailment, with folds to companions.
use crate::folds::fitting::Fitting;
use crate::folds::folding::push_covers;
use cyc_basics::memory::OutOfMemory;
use heap_formula::Judgement;
use seek_engine::{
    Aim, Draft, Entailments, LAST_STAGE, Move, Setting, Stage, Strategy, companions, stage_of,
};

/// The moves at entailments and at goals that a companion is to cover.
#[derive(Drop)]
pub struct Folds<'a> {
    pub entailments: Entailments<'a>,
    pub fitting: Fitting,
}

/// Whether the companion may cover the node: it is an entailment too, with an antecedent that is no longer, or a `from`
/// judgement of the same line.
fn may_cover(draft: &Draft, companion: u32, node: u32) -> bool {
    let (Some(above), Some(below)) = (draft.node(companion), draft.node(node)) else {
        return false;
    };
    match (&above.judgement, &below.judgement) {
        (Judgement::Entail(left, _), Judgement::Entail(goal, _)) => {
            left.spatial().len() <= goal.spatial().len()
        }
        (Judgement::Term(line, _), Judgement::Term(other, _)) => *line == *other,
        _ => false,
    }
}

/// Adds folds to each of the companions that may cover the node.
pub fn push_turns(
    moves: &mut Vec<Move>,
    draft: &Draft,
    companions: &[u32],
    node: u32,
    folds: u32,
    fuel: u32,
) -> Result<(), OutOfMemory> {
    for companion in companions {
        if may_cover(draft, *companion, node) {
            moves.push(Move::Turn(Aim::Fold {
                companion: *companion,
                folds,
                fuel,
            }))?;
        }
    }
    Ok(())
}

impl<'a> Folds<'a> {
    /// The moves of a whole search.
    pub fn new(setting: Setting<'a>) -> Folds<'a> {
        Folds {
            entailments: Entailments::new(setting),
            fitting: Fitting::new(setting.alloc),
        }
    }

    /// A link to the companion; then folds.
    fn offer_folds(
        &mut self,
        offered: &mut Stage,
        draft: &Draft,
        node: u32,
        companion: u32,
        folds: u32,
        fuel: u32,
        stage: u32,
    ) -> Result<(), OutOfMemory> {
        let moves = &mut offered.moves;
        if stage == 0 {
            moves.push(Move::Link(companion))?;
            return Ok(());
        }
        let fitting = &mut self.fitting;
        push_covers(
            moves,
            &self.entailments,
            fitting,
            draft,
            node,
            companion,
            folds,
            fuel,
        )?;
        offered.is_last = true;
        offered.cost = self.fitting.take_cost();
        Ok(())
    }

    /// The moves of a stage.
    pub fn stage(
        &mut self,
        draft: &Draft,
        node: u32,
        aim: Aim,
        stage: u32,
    ) -> Result<Stage, OutOfMemory> {
        let alloc = self.entailments.setting.alloc;
        let mut offered = stage_of(Vec::new(alloc));
        match aim {
            Aim::Fold {
                companion,
                folds,
                fuel,
            } => self.offer_folds(&mut offered, draft, node, companion, folds, fuel, stage)?,
            Aim::Entail(fuel) if stage == LAST_STAGE => {
                let all = companions(alloc, draft)?;
                if fuel > 0 {
                    push_turns(&mut offered.moves, draft, &all, node, 2, fuel - 1)?;
                }
            }
            _ => return self.entailments.stage(draft, node, aim, stage),
        }
        Ok(offered)
    }
}
