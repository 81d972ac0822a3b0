// The nodes that are being worked on.
use crate::draft::Draft;
use crate::moves::{Aim, Move, Stage, Step};
use crate::setting::Setting;
use crate::traces::link;
use cyc_basics::memory::OutOfMemory;
use heap_formula::{Judgement, Premise, Rule};
use std::alloc::Global;

/// What is to be done at a node: these moves and no others, if there are any, else those for the aim.
#[derive(Drop)]
pub struct Task {
    pub moves: Vec<Move>,
    pub aim: Aim,
}

/// The judgement of a premise that has no node yet, with its place, and what is to be done there.
#[derive(Drop)]
pub struct Goal {
    pub place: usize,
    pub judgement: Judgement,
    pub task: Task,
}

/// A node that is being worked on. `moves` are left of the stage before `stage`, the next one at the end; `goals` are
/// the premises of the move that is being made, the next one at the end; `kept` is how many nodes the draft had before,
/// and
/// `most` the number of steps at which the work ends.
#[derive(Drop)]
pub struct Frame {
    pub node: u32,
    pub aim: Aim,
    pub stage: u32,
    pub is_last: bool,
    pub moves: Vec<Move>,
    pub is_moving: bool,
    pub goals: Vec<Goal>,
    pub kept: usize,
    pub most: u32,
}

impl Frame {
    /// The work on a node that has just been made.
    pub fn new(alloc: Global, node: u32, task: Task, kept: usize, most: u32) -> Frame {
        Frame {
            node,
            aim: task.aim,
            stage: 0,
            is_last: !task.moves.is_empty(),
            moves: task.moves,
            is_moving: false,
            goals: Vec::new(alloc),
            kept,
            most,
        }
    }

    /// Takes the moves of the next stage.
    pub fn take(&mut self, offered: Stage) {
        let mut moves = offered.moves;
        moves.reverse();
        self.moves = moves;
        self.is_last = offered.is_last;
        self.stage = self.stage.saturating_add(1);
    }

    /// Gives the node the first rule of a step, whose premises are the goals.
    pub fn make_step(
        &mut self,
        setting: &Setting<'_>,
        draft: &mut Draft,
        step: &Step,
    ) -> Result<(), OutOfMemory> {
        let Some((rule, rest)) = step.rules.split_first() else {
            return Ok(());
        };
        let Some(node) = draft.node(self.node) else {
            return Ok(());
        };
        let Some(mut premises) = setting.premises(&node.judgement, rule)? else {
            return Ok(());
        };
        draft.close_by_rule(self.node, rule, &premises)?;
        self.begin_move(setting.alloc, &mut premises, rest, step)
    }

    /// Links the node to a companion, if that may be.
    pub fn make_link(
        &mut self,
        setting: &Setting<'_>,
        draft: &mut Draft,
        companion: u32,
    ) -> Result<(), OutOfMemory> {
        self.is_moving = link(setting, draft, self.node, companion)?;
        Ok(())
    }

    /// Begins a move: the premises of the step's first rule are the goals. Of two lines the lower one comes first, so
    /// that a loop is settled before the code after it.
    fn begin_move(
        &mut self,
        alloc: Global,
        premises: &mut Vec<Premise>,
        rest: &[Rule],
        step: &Step,
    ) -> Result<(), OutOfMemory> {
        self.is_moving = true;
        self.goals.clear();
        push_goals(&mut self.goals, alloc, premises, rest, step)?;
        self.goals
            .sort_by_key(|goal| u32::MAX - line_of(&goal.judgement))?;
        Ok(())
    }

    /// The move that is being made has failed: the draft is as it was before.
    pub fn give_up_move(&mut self, draft: &mut Draft) {
        draft.reopen(self.node, self.kept);
        self.is_moving = false;
        self.goals.clear();
    }
}

fn line_of(judgement: &Judgement) -> u32 {
    match judgement {
        Judgement::Entail(_, _) => 0,
        Judgement::Term(line, _) => *line,
    }
}

/// What is to be done at a premise: the rest of the step's rules, but not at a side premise.
fn task_at(alloc: Global, is_side: bool, rest: &[Rule], step: &Step) -> Result<Task, OutOfMemory> {
    let mut aim = step.aim;
    if is_side {
        aim = step.side.unwrap_or(aim);
    }
    if is_side || rest.is_empty() {
        let moves = Vec::new(alloc);
        return Ok(Task { moves, aim });
    }
    let then = Step {
        rules: Vec::from_clones(alloc, rest)?,
        side: None,
        aim,
    };
    let moves = vec![in alloc; Move::Step(then)]?;
    Ok(Task { moves, aim })
}

/// The premises as goals, the first one at the end.
fn push_goals(
    goals: &mut Vec<Goal>,
    alloc: Global,
    premises: &mut Vec<Premise>,
    rest: &[Rule],
    step: &Step,
) -> Result<(), OutOfMemory> {
    let count = premises.len();
    for _ in 0..count {
        let place = premises.len().saturating_sub(1);
        let task = task_at(alloc, count > 1 && place == 0, rest, step)?;
        if let Some(premise) = premises.pop() {
            goals.push(Goal {
                place,
                judgement: premise.judgement,
                task,
            })?;
        }
    }
    Ok(())
}
