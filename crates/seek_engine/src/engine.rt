// The search itself, with an explicit stack.
use crate::draft::Draft;
use crate::frames::{Frame, Task};
use crate::moves::{Aim, Move, Strategy};
use crate::setting::Setting;
use cyc_basics::memory::OutOfMemory;

/// The greatest number of turns of a search, whatever they do.
const MOST_TURNS: u32 = 4_000_000;

/// The steps of an aside.
const ASIDE: u32 = 600;

/// How many links are tried for one step.
const LINKS_FOR_STEP: u32 = 4;

/// What a search has spent: steps, and links of which a step is not full yet.
#[derive(Clone, Copy)]
struct Spent {
    steps: u32,
    links: u32,
}

/// A search on its way: the nodes that are being worked on, each a premise of the one before it. Where none is left,
/// `is_found` says whether the first is closed.
#[derive(Drop)]
struct Attempt {
    frames: Vec<Frame>,
    spent: Spent,
    is_found: bool,
}

impl Spent {
    fn add(&mut self, steps: u32) {
        self.steps = self.steps.saturating_add(steps);
    }

    /// Four links tried are a step.
    fn add_link(&mut self) {
        self.links = self.links.saturating_add(1);
        if self.links >= LINKS_FOR_STEP {
            self.links = 0;
            self.add(1);
        }
    }
}

impl Attempt {
    /// Begins to work on a node.
    fn enter(
        &mut self,
        setting: &Setting<'_>,
        node: u32,
        task: Task,
        kept: usize,
        most: u32,
    ) -> Result<(), OutOfMemory> {
        self.spent.add(1);
        let most = match task.aim {
            Aim::Aside(_) => most.min(self.spent.steps.saturating_add(ASIDE)),
            _ => most,
        };
        let frame = Frame::new(setting.alloc, node, task, kept, most);
        self.frames.push(frame)?;
        Ok(())
    }

    /// The work on the last node has come to its end without success.
    fn fail(&mut self, draft: &mut Draft) -> Result<(), OutOfMemory> {
        if let Some(frame) = self.frames.last() {
            draft.give_up(frame.node, self.frames.len())?;
        }
        drop(self.frames.pop());
        if let Some(frame) = self.frames.last_mut() {
            frame.give_up_move(draft);
        }
        Ok(())
    }

    /// Makes a node of the next premise; without one the last node is closed.
    fn descend(&mut self, setting: &Setting<'_>, draft: &mut Draft) -> Result<(), OutOfMemory> {
        let Some(frame) = self.frames.last_mut() else {
            return Ok(());
        };
        let Some(goal) = frame.goals.pop() else {
            drop(self.frames.pop());
            self.is_found = self.frames.is_empty();
            return Ok(());
        };
        let (parent, most) = (frame.node, frame.most);
        let Some(node) = draft.push(goal.judgement, parent)? else {
            frame.give_up_move(draft);
            return Ok(());
        };
        draft.lead(parent, goal.place, node);
        self.enter(setting, node, goal.task, draft.len(), most)
    }

    /// Works on the last node with another aim.
    fn turn_to(&mut self, setting: &Setting<'_>, aim: Aim) -> Result<(), OutOfMemory> {
        let Some(frame) = self.frames.last_mut() else {
            return Ok(());
        };
        frame.is_moving = true;
        let (node, kept, most) = (frame.node, frame.kept, frame.most);
        let task = Task {
            moves: Vec::new(setting.alloc),
            aim,
        };
        self.enter(setting, node, task, kept, most)
    }

    /// One turn: a premise, a move, a stage, or the end of the work on a node.
    fn turn<S: Strategy>(
        &mut self,
        setting: &Setting<'_>,
        strategy: &mut S,
        draft: &mut Draft,
    ) -> Result<(), OutOfMemory> {
        let Some(frame) = self.frames.last_mut() else {
            return Ok(());
        };
        if frame.is_moving {
            return self.descend(setting, draft);
        }
        if self.spent.steps > frame.most {
            return self.fail(draft);
        }
        match frame.moves.pop() {
            Some(Move::Step(step)) => frame.make_step(setting, draft, &step),
            Some(Move::Link(companion)) => {
                self.spent.add_link();
                frame.make_link(setting, draft, companion)
            }
            Some(Move::Turn(aim)) => self.turn_to(setting, aim),
            None if frame.is_last => self.fail(draft),
            None => {
                let offered = strategy.stage(draft, frame.node, frame.aim, frame.stage)?;
                self.spent.add(offered.cost);
                frame.take(offered);
                Ok(())
            }
        }
    }

    /// Turns until a proof is found or there is nothing left to try.
    fn run<S: Strategy>(
        &mut self,
        setting: &Setting<'_>,
        strategy: &mut S,
        draft: &mut Draft,
    ) -> Result<Outcome, OutOfMemory> {
        for _ in 0..MOST_TURNS {
            self.turn(setting, strategy, draft)?;
            if self.frames.is_empty() {
                break;
            }
        }
        Ok(Outcome {
            is_found: self.is_found,
            steps: self.spent.steps,
        })
    }
}

/// What comes of a search: whether every node of the draft is closed, and how many steps were taken.
#[derive(Clone, Copy)]
pub struct Outcome {
    pub is_found: bool,
    pub steps: u32,
}

/// Searches for a proof of the draft's first node, in so many steps at most.
pub fn search<S: Strategy>(
    setting: &Setting<'_>,
    strategy: &mut S,
    draft: &mut Draft,
    aim: Aim,
    most: u32,
) -> Result<Outcome, OutOfMemory> {
    let mut attempt = Attempt {
        frames: Vec::new(setting.alloc),
        spent: Spent { steps: 0, links: 0 },
        is_found: false,
    };
    let task = Task {
        moves: Vec::new(setting.alloc),
        aim,
    };
    attempt.enter(setting, 0, task, draft.len(), most)?;
    attempt.run(setting, strategy, draft)
}
