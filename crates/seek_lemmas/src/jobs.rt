// The goals that are being worked on, with an explicit stack.
use crate::attempts::attempt;
use crate::merging::merged;
use crate::purposes::{Goal, Purpose};
use crate::trials::{Trial, goal_trials, lemma_trials};
use cyc_basics::memory::OutOfMemory;
use heap_formula::Judgement;
use seek_engine::{Aim, Draft, Entailments, Setting, progresses, search};
use seek_trees::{Question, Stop, Tree, Work};
use std::alloc::Global;
use std::mem::swap;

/// The greatest number of turns, whatever they do.
const MOST_TURNS: u32 = 400_000;

/// The greatest fuel of the search with a goal stack.
const FUEL: u32 = 9;

/// A node that is being worked on: the move that comes next, how many nodes the tree had before, and, while a move is
/// being made, the goals that are left of it, the next one last.
#[derive(Drop)]
struct Frame {
    node: u32,
    purpose: Purpose,
    next: u32,
    kept: usize,
    is_moving: bool,
    goals: Vec<Goal>,
}

/// A judgement that is being tried: its place in the memo, unless it is the main goal; the ways that are left; the
/// nodes that are being worked on; the tree of the job below it; and the steps that this one may take.
#[derive(Drop)]
struct Job {
    judgement: Judgement,
    place: Option<usize>,
    trials: Vec<Trial>,
    frames: Vec<Frame>,
    below: Tree,
    most: u32,
}

/// What comes of a turn.
#[derive(Clone, Copy)]
enum Turn {
    Going,
    Closed,
    Failed,
}

/// The work and the jobs, of which the last is being done. Where none is left, `is_found` says whether the goal was
/// proved.
#[derive(Drop)]
struct Shop<'a> {
    work: Work<'a>,
    jobs: Vec<Job>,
    is_found: bool,
}

fn first_frame(alloc: Global, goal: Goal, kept: usize) -> Frame {
    Frame {
        node: goal.node,
        purpose: goal.purpose,
        next: 0,
        kept,
        is_moving: false,
        goals: Vec::new(alloc),
    }
}

/// The next goal of the move that is being made; without one the node is closed.
fn descend(work: &Work<'_>, frames: &mut Vec<Frame>) -> Result<Turn, Stop> {
    let Some(frame) = frames.last_mut() else {
        return Ok(Turn::Closed);
    };
    match frame.goals.pop() {
        Some(goal) => {
            let next = first_frame(work.setting.alloc, goal, work.tree.len());
            frames.push(next)?;
            Ok(Turn::Going)
        }
        None => {
            drop(frames.pop());
            Ok(if frames.is_empty() {
                Turn::Closed
            } else {
                Turn::Going
            })
        }
    }
}

/// The last node has no more moves: the move that led to it has failed.
fn fail(work: &mut Work<'_>, frames: &mut Vec<Frame>) -> Turn {
    drop(frames.pop());
    let Some(frame) = frames.last_mut() else {
        return Turn::Failed;
    };
    work.tree.undo(frame.node, frame.kept);
    frame.is_moving = false;
    frame.goals.clear();
    Turn::Going
}

/// The next move at the last node.
fn make_move(work: &mut Work<'_>, frames: &mut Vec<Frame>) -> Result<Turn, Stop> {
    let Some(frame) = frames.last_mut() else {
        return Ok(Turn::Failed);
    };
    if work.steps > work.most {
        return Ok(fail(work, frames));
    }
    let steps = work.steps;
    match attempt(work, frame.node, &frame.purpose, frame.next) {
        Ok(Some(goals)) => {
            let mut goals = goals;
            goals.reverse();
            frame.goals = goals;
            frame.is_moving = true;
        }
        Ok(None) => return Ok(fail(work, frames)),
        Err(Stop::NoWay) => work.tree.undo(frame.node, frame.kept),
        Err(stop) => {
            work.tree.undo(frame.node, frame.kept);
            work.steps = steps;
            return Err(stop);
        }
    }
    frame.next = frame.next.saturating_add(1);
    Ok(Turn::Going)
}

fn frame_turn(work: &mut Work<'_>, frames: &mut Vec<Frame>) -> Result<Turn, Stop> {
    match frames.last() {
        Some(frame) if frame.is_moving => descend(work, frames),
        _ => make_move(work, frames),
    }
}

impl Shop<'_> {
    /// Begins a job for a lemma that is asked for.
    fn take_question(&mut self) -> Result<(), OutOfMemory> {
        let mut asked: Option<Question> = None;
        swap(&mut asked, &mut self.work.memo.question);
        let Some(question) = asked else {
            return Ok(());
        };
        let alloc = self.work.setting.alloc;
        let place = self.work.memo.note(&question.judgement)?;
        let trials = lemma_trials(alloc, &question)?;
        let mut below = Tree::new(alloc, &question.judgement)?;
        swap(&mut below, &mut self.work.tree);
        self.jobs.push(Job {
            judgement: question.judgement,
            place: Some(place),
            trials,
            frames: Vec::new(alloc),
            below,
            most: self.work.most,
        })?;
        Ok(())
    }

    /// The last job is done; where it was proved its tree is kept.
    fn finish(&mut self, is_proved: bool) -> Result<(), OutOfMemory> {
        let Some(job) = self.jobs.pop() else {
            return Ok(());
        };
        self.work.most = job.most;
        let mut tree = job.below;
        match job.place {
            Some(place) => {
                swap(&mut tree, &mut self.work.tree);
                if is_proved {
                    self.work.memo.keep(place, tree)?;
                }
            }
            None => self.is_found = is_proved,
        }
        Ok(())
    }

    /// The search with a goal stack.
    fn search(&mut self, judgement: &Judgement, most: u32) -> Result<bool, OutOfMemory> {
        let setting = self.work.setting;
        let mut tree = Tree::new(setting.alloc, judgement)?;
        let mut strategy = Entailments::new(setting);
        let outcome = search(
            &setting,
            &mut strategy,
            &mut tree.draft,
            Aim::Deepen(FUEL),
            most,
        )?;
        self.work.steps = self.work.steps.saturating_add(outcome.steps);
        if outcome.is_found {
            swap(&mut self.work.tree, &mut tree);
        }
        Ok(outcome.is_found)
    }

    /// Begins to try the last job in the next way.
    fn begin_trial(&mut self, trial: Trial) -> Result<(), OutOfMemory> {
        let alloc = self.work.setting.alloc;
        let Some(job) = self.jobs.last_mut() else {
            return Ok(());
        };
        match trial {
            Trial::Moves(purpose, most) => {
                self.work.tree = Tree::new(alloc, &job.judgement)?;
                self.work.most = job.most.min(self.work.steps.saturating_add(most));
                let goal = Goal { node: 0, purpose };
                job.frames.push(first_frame(alloc, goal, 1))?;
                Ok(())
            }
            Trial::Stack(most) => {
                let judgement = job.judgement.clone()?;
                if self.search(&judgement, most)? {
                    return self.finish(true);
                }
                Ok(())
            }
        }
    }

    /// The next way to try the last job; without one it has failed.
    fn next_trial(&mut self) -> Result<(), OutOfMemory> {
        let next = match self.jobs.last_mut() {
            Some(job) => job.trials.pop(),
            None => None,
        };
        match next {
            Some(trial) => self.begin_trial(trial),
            None => self.finish(false),
        }
    }

    /// The last job's first node is closed: that is a proof where every lasso progresses.
    fn close(&mut self) -> Result<(), OutOfMemory> {
        if progresses(self.work.setting.alloc, &self.work.tree.draft)? {
            return self.finish(true);
        }
        Ok(())
    }

    fn turn(&mut self) -> Result<(), OutOfMemory> {
        let Some(job) = self.jobs.last_mut() else {
            return Ok(());
        };
        if job.frames.is_empty() {
            return self.next_trial();
        }
        match frame_turn(&mut self.work, &mut job.frames) {
            Ok(Turn::Closed) => self.close(),
            Ok(Turn::Going | Turn::Failed) | Err(Stop::NoWay) => Ok(()),
            Err(Stop::Asked) => self.take_question(),
            Err(Stop::OutOfMemory) => Err(OutOfMemory),
        }
    }

    fn run(&mut self) -> Result<(), OutOfMemory> {
        for _ in 0..MOST_TURNS {
            if self.jobs.is_empty() {
                break;
            }
            self.turn()?;
        }
        Ok(())
    }
}

/// Searches for a proof of an entailment in so many steps at most: its tree, with the trees of its lemmas behind it.
pub fn prove(
    setting: Setting<'_>,
    goal: &Judgement,
    most: u32,
) -> Result<Option<Draft>, OutOfMemory> {
    let alloc = setting.alloc;
    let job = Job {
        judgement: goal.clone()?,
        place: None,
        trials: goal_trials(alloc, goal, most)?,
        frames: Vec::new(alloc),
        below: Tree::new(alloc, goal)?,
        most,
    };
    let mut shop = Shop {
        work: Work::new(setting, goal, most)?,
        jobs: vec![in alloc; job]?,
        is_found: false,
    };
    shop.run()?;
    if shop.is_found {
        let work = shop.work;
        let (tree, memo) = (work.tree, work.memo);
        return Ok(Some(merged(alloc, tree, memo.lemmas, goal)?));
    }
    Ok(None)
}
