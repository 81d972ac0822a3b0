// The moves at a `from` judgement, stage by stage.
use crate::climbing::{unfolds_here, visits};
use crate::folds::{Folds, push_turns};
use crate::forced::{forced_rule, is_decided};
use crate::generals::push_general_moves;
use crate::heads::{has_end, is_head};
use crate::runs::{push_rule, push_steps};
use cyc_basics::memory::OutOfMemory;
use heap_formula::{Heap, Judgement};
use seek_engine::{Aim, Draft, Move, Setting, Stage, Strategy, companions, stage_of};

/// How often the state at one head is made more general.
const MOST_CHANGES: u32 = 3;

/// How many Unfolds may come between two commands.
const MOST_UNFOLDS: u32 = 4;

/// The greatest fuel at which the entailment of an end is tried.
const END_FUEL: u32 = 9;

/// The moves of the whole search.
#[derive(Drop)]
pub struct Programs<'a> {
    pub setting: Setting<'a>,
    pub folds: Folds<'a>,
}

/// A `from` judgement of a draft.
#[derive(Clone, Copy)]
struct LinePlace<'a> {
    draft: &'a Draft,
    node: u32,
    judgement: &'a Judgement,
    line: u32,
    state: &'a Heap,
}

fn place_of<'a>(draft: &'a Draft, node: u32) -> Option<LinePlace<'a>> {
    let judgement = &draft.node(node)?.judgement;
    match judgement {
        Judgement::Term(line, state) => Some(LinePlace {
            draft,
            node,
            judgement,
            line: *line,
            state,
        }),
        Judgement::Entail(_, _) => None,
    }
}

impl<'a> Programs<'a> {
    /// The moves over the definitions and the program.
    pub fn new(setting: Setting<'a>) -> Programs<'a> {
        Programs {
            setting,
            folds: Folds::new(setting),
        }
    }

    fn is_at_head(&self, place: &LinePlace<'_>) -> bool {
        is_head(self.setting.program, place.line) && unfolds_here(place.draft, place.node) == 0
    }

    /// Links to the companions, and folds to those of the same line.
    fn push_closings(
        &self,
        moves: &mut Vec<Move>,
        place: &LinePlace<'_>,
    ) -> Result<(), OutOfMemory> {
        let all = companions(self.setting.alloc, place.draft)?;
        for companion in &all {
            moves.push(Move::Link(*companion))?;
        }
        push_turns(moves, place.draft, &all, place.node, 3, 4)
    }

    /// What is to be reached at the premises of a rule that loses nothing: behind a `stop` with an end stands the
    /// entailment of the end.
    fn aim_behind(&self, place: &LinePlace<'_>, aim: Aim) -> Aim {
        if has_end(self.setting.program, place.line) {
            return Aim::Aside(END_FUEL);
        }
        aim
    }

    /// A rule that loses nothing, and nothing else; else, at a head, what closes the node.
    fn first_stage(
        &self,
        offered: &mut Stage,
        place: &LinePlace<'_>,
        aim: Aim,
    ) -> Result<(), OutOfMemory> {
        let setting = &self.setting;
        if let Some(rule) = forced_rule(setting, place.judgement, place.line, place.state)? {
            offered.is_last = true;
            let aim = self.aim_behind(place, aim);
            return push_rule(&mut offered.moves, setting.alloc, rule, aim);
        }
        if self.is_at_head(place) {
            return self.push_closings(&mut offered.moves, place);
        }
        Ok(())
    }

    /// Whether the line was visited as often as it may be. Two visits more are free where a test is decided.
    fn is_spent(&self, place: &LinePlace<'_>, most: u32) -> Result<bool, OutOfMemory> {
        let count = visits(place.draft, place.node, place.line);
        if count < most {
            return Ok(false);
        }
        Ok(count >= most.saturating_add(2) || !is_decided(&self.setting, place.judgement)?)
    }

    fn push_steps(
        &self,
        moves: &mut Vec<Move>,
        place: &LinePlace<'_>,
        most: u32,
    ) -> Result<(), OutOfMemory> {
        let aim = Aim::Run(most);
        push_steps(
            moves,
            &self.setting,
            place.judgement,
            place.line,
            place.state,
            aim,
        )
    }

    fn second_stage(
        &self,
        offered: &mut Stage,
        place: &LinePlace<'_>,
        most: u32,
    ) -> Result<(), OutOfMemory> {
        offered.is_last = true;
        if !self.is_at_head(place) {
            if unfolds_here(place.draft, place.node) > MOST_UNFOLDS {
                return Ok(());
            }
            return self.push_steps(&mut offered.moves, place, most);
        }
        if !self.is_spent(place, most)? {
            offered.moves.push(Move::Turn(Aim::Head {
                visits: most,
                changes: 0,
            }))?;
        }
        Ok(())
    }

    fn general_stage(
        &mut self,
        offered: &mut Stage,
        place: &LinePlace<'_>,
        most: u32,
        changes: u32,
    ) -> Result<(), OutOfMemory> {
        offered.is_last = true;
        if changes >= MOST_CHANGES || visits(place.draft, place.node, place.line) > 0 {
            return Ok(());
        }
        let entailments = self.folds.entailments;
        push_general_moves(
            &mut offered.moves,
            &entailments,
            &mut self.folds.fitting,
            place.line,
            place.state,
            self.setting.variables(place.judgement),
            Aim::Head {
                visits: most,
                changes: changes + 1,
            },
        )?;
        offered.cost = self.folds.fitting.take_cost();
        Ok(())
    }

    /// The rounds with one, two, .. visits.
    fn round(&self, offered: &mut Stage, most: u32, stage: u32) -> Result<(), OutOfMemory> {
        let visits = stage.saturating_add(1);
        offered.is_last = visits >= most;
        offered.moves.push(Move::Turn(Aim::Run(visits)))?;
        Ok(())
    }
}

impl Strategy for Programs<'_> {
    fn stage(
        &mut self,
        draft: &Draft,
        node: u32,
        aim: Aim,
        stage: u32,
    ) -> Result<Stage, OutOfMemory> {
        let Some(place) = place_of(draft, node) else {
            return self.folds.stage(draft, node, aim, stage);
        };
        let mut offered = stage_of(Vec::new(self.setting.alloc));
        match aim {
            Aim::Run(_) if stage == 0 => self.first_stage(&mut offered, &place, aim),
            Aim::Run(most) => self.second_stage(&mut offered, &place, most),
            Aim::Head { visits, .. } if stage == 0 => {
                self.push_steps(&mut offered.moves, &place, visits)
            }
            Aim::Head { visits, changes } => {
                self.general_stage(&mut offered, &place, visits, changes)
            }
            Aim::Rounds(most) => self.round(&mut offered, most, stage),
            _ => return self.folds.stage(draft, node, aim, stage),
        }?;
        Ok(offered)
    }
}
