// The states in which a run from the head of a loop comes to it again.
use crate::forced::forced_rule;
use crate::heads::is_head;
use crate::runs::push_steps;
use cyc_basics::memory::OutOfMemory;
use heap_formula::{Heap, Judgement, Rule, Subst, Term, apply_to_heap, bound_of_heap};
use seek_engine::{Aim, Move, Setting};
use std::alloc::Global;

/// The steps of a run.
const MOST_STEPS: u32 = 400;

/// How many states are wanted.
const MOST_WITNESS_STATES: usize = 6;

/// The most lines on one way.
const MOST_LINES: usize = 60;

/// How far logic variables are lifted, so that no fresh variable is one of them.
const LIFT: u16 = 2000;

/// The variables from this number on are not lifted.
const MOST_LIFTED: u32 = 60_000;

/// A point of the run, and how many commands were executed on the way to it.
#[derive(Drop)]
struct Point {
    judgement: Judgement,
    depth: usize,
}

/// A run from the head of a loop: the points that it still has to go on from, the latest one last; the lines that were
/// executed on the way to the point at which it is; and the states in which it came to the head again.
#[derive(Drop)]
struct Run<'a> {
    setting: &'a Setting<'a>,
    head: u32,
    /// Lines below belong to a loop around this one.
    floor: u32,
    points: Vec<Point>,
    path: Vec<u32>,
    found: &'a mut Vec<Heap>,
}

fn count_of(path: &[u32], line: u32) -> u32 {
    let mut count: u32 = 0;
    for other in path {
        if *other == line {
            count = count.saturating_add(1);
        }
    }
    count
}

impl Run<'_> {
    /// Adds the points after a rule at this line.
    fn push_next(
        &mut self,
        judgement: &Judgement,
        line: u32,
        rule: &Rule,
    ) -> Result<(), OutOfMemory> {
        if matches!(rule, Rule::Exec) {
            self.path.push(line)?;
        }
        let Some(mut premises) = self.setting.premises(judgement, rule)? else {
            return Ok(());
        };
        premises.reverse();
        for premise in &premises {
            let judgement = premise.judgement.clone()?;
            self.points.push(Point {
                judgement,
                depth: self.path.len(),
            })?;
        }
        Ok(())
    }

    /// Goes on by the first step, unless the head of a loop has come twice.
    fn go_on(&mut self, judgement: &Judgement, line: u32, state: &Heap) -> Result<(), OutOfMemory> {
        if is_head(self.setting.program, line) && count_of(&self.path, line) > 1 {
            return Ok(());
        }
        let mut moves = Vec::new(self.setting.alloc);
        let aim = Aim::Run(0);
        let mut ran = push_steps(&mut moves, self.setting, judgement, line, state, aim);
        if let (Ok(()), Some(Move::Step(step))) = (ran, moves.first()) {
            if let Some(rule) = step.rules.first() {
                ran = self.push_next(judgement, line, rule);
            }
        }
        drop(moves);
        ran
    }

    /// Goes on from the point; where the run has come to the head again, its state being settled, the state is kept,
    /// once.
    fn visit(&mut self, point: &Point) -> Result<(), OutOfMemory> {
        self.path.truncate(point.depth);
        let Judgement::Term(line, state) = &point.judgement else {
            return Ok(());
        };
        let line = *line;
        if line < self.floor || point.depth > MOST_LINES {
            return Ok(());
        }
        if let Some(rule) = forced_rule(self.setting, &point.judgement, line, state)? {
            let pushed = self.push_next(&point.judgement, line, &rule);
            drop(rule);
            return pushed;
        }
        if line != self.head || point.depth == 0 {
            return self.go_on(&point.judgement, line, state);
        }
        if !self.found.contains(state) {
            self.found.push(state.clone()?)?;
        }
        Ok(())
    }

    /// Goes on from the latest point, as long as there is one and states are wanted.
    fn go(&mut self) -> Result<(), OutOfMemory> {
        for _ in 0..MOST_STEPS {
            if self.found.len() >= MOST_WITNESS_STATES {
                return Ok(());
            }
            let Some(point) = self.points.pop() else {
                return Ok(());
            };
            let visited = self.visit(&point);
            drop(point);
            visited?;
        }
        Ok(())
    }
}

/// Finds the states of a run that leaves out the lines below the floor.
fn push_states(
    found: &mut Vec<Heap>,
    setting: &Setting<'_>,
    head: u32,
    floor: u32,
    start: &Heap,
) -> Result<(), OutOfMemory> {
    let judgement = Judgement::Term(head, start.clone()?);
    let mut points = Vec::new(setting.alloc);
    points.push(Point {
        judgement,
        depth: 0,
    })?;
    let mut run = Run {
        setting,
        head,
        floor,
        points,
        path: Vec::new(setting.alloc),
        found,
    };
    let ran = run.go();
    drop(run);
    ran
}

/// The substitution that lifts the heap's logic variables, or lowers them again.
fn lift(alloc: Global, heap: &Heap, variables: u16, is_back: bool) -> Result<Subst, OutOfMemory> {
    let mut pairs = Vec::new(alloc);
    let bound = bound_of_heap(heap).min(MOST_LIFTED) as u16;
    for n in variables..bound.max(variables) {
        let far = n.saturating_add(LIFT);
        let (from, to) = if is_back { (far, n) } else { (n, far) };
        pairs.push((from, Term::Univ(to)))?;
    }
    Ok(Subst::from_vec(pairs))
}

/// Finds the states of a run from the state with its logic variables lifted. The run leaves out the lines below the
/// head; where it finds nothing, there is one that does not.
fn push_far_states(
    found: &mut Vec<Heap>,
    setting: &Setting<'_>,
    head: u32,
    state: &Heap,
    variables: u16,
) -> Result<(), OutOfMemory> {
    let lift = lift(setting.alloc, state, variables, false)?;
    let far = apply_to_heap(setting.alloc, state, &lift)?;
    drop(lift);
    let mut ran = push_states(found, setting, head, head, &far);
    if ran.is_ok() && found.is_empty() {
        ran = push_states(found, setting, head, 0, &far);
    }
    drop(far);
    ran
}

/// Lowers the variables of the states that were lifted.
fn lower(
    setting: &Setting<'_>,
    states: &mut [Heap],
    state: &Heap,
    variables: u16,
) -> Result<(), OutOfMemory> {
    let back = lift(setting.alloc, state, variables, true)?;
    for state in states {
        *state = apply_to_heap(setting.alloc, state, &back)?;
    }
    Ok(())
}

/// Finds the states in which a run from the state comes to the line again, by the first Unfold only; those with the
/// most atoms first. Lines below the head are left out at first.
pub fn push_witnesses(
    found: &mut Vec<Heap>,
    setting: &Setting<'_>,
    head: u32,
    state: &Heap,
    variables: u16,
) -> Result<(), OutOfMemory> {
    push_far_states(found, setting, head, state, variables)?;
    lower(setting, found, state, variables)?;
    found.sort_by_key(|state| 64 - state.spatial().len().min(64))?;
    Ok(())
}
