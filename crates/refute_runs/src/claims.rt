// The search for a faulty run of a program.
use crate::choosing::Addresses;
use crate::exploring::Exploration;
use crate::faulty_runs::{FaultyRun, Tail};
use crate::growth::growing_run;
use crate::repeats::repeat;
use cyc_basics::memory::OutOfMemory;
use goto_lang::{Cells, Config, Program, Stack};
use heap_formula::{Heap, bound_of_heap};
use pred_defs::Defs;
use refute_models::{Cell, Inquiry, Look, Model, Search, Verdict, doubled};
use std::alloc::Global;

/// The states that are reached from one in the first round.
const STATES: u32 = 300;

/// The most states that are reached in search of a run that comes back with more.
const MOST_GROWING: usize = 1_200;

/// The most parts of the picks of a run that are not the usual ones.
const MOST_DEVIATIONS: u32 = 3;

/// Runs of a program from a line.
#[derive(Clone, Copy)]
struct Runs<'a> {
    alloc: Global,
    defs: &'a Defs,
    program: &'a Program,
    line: u32,
}

fn heap_of(alloc: Global, cells: &[Cell]) -> Result<Cells, OutOfMemory> {
    let mut heap = Cells::new(alloc);
    for cell in cells {
        if cell.address > 0 && !cell.fields.is_empty() {
            heap.put(cell.address, cell.fields.clone()?)?;
        }
    }
    Ok(heap)
}

impl<'a> Runs<'a> {
    /// The state at the line with a model's values and cells.
    fn first_state(&self, model: &Model) -> Result<Config, OutOfMemory> {
        let count = self.program.variables() as usize;
        let mut values = Vec::new(self.alloc);
        for value in model.stack.iter().take(count) {
            values.push(*value)?;
        }
        Ok(Config {
            line: self.line,
            stack: Stack::from_vec(values),
            heap: heap_of(self.alloc, &model.cells)?,
        })
    }

    /// Runs from a model, with twice the states for each round of its age; and the rest of one that faults, breaks an
    /// end, or comes back, perhaps with more.
    fn explore(
        &self,
        model: &Model,
        age: u32,
    ) -> Result<(Exploration<'a>, Option<Tail>), OutOfMemory> {
        let (alloc, defs, program) = (self.alloc, self.defs, self.program);
        let first = self.first_state(model)?;
        let again = first.clone()?;
        let deviations = age.min(MOST_DEVIATIONS);
        let states = doubled(STATES, age) as usize;
        let mut exploration = Exploration::new(
            alloc,
            defs,
            program,
            first,
            Addresses::Least,
            deviations,
        )?;
        let failure = exploration.failure(states)?;
        if failure.is_some() {
            return Ok((exploration, failure));
        }
        let tail = repeat(alloc, &exploration)?;
        if tail.is_some() {
            return Ok((exploration, tail));
        }
        let tail = growing_run(alloc, defs, program, again, states.min(MOST_GROWING))?;
        Ok((exploration, tail))
    }

    /// A faulty run from a model, where a look at one of these ages found one.
    fn tail(&self, model: &Model, ages: u32) -> Result<Option<Tail>, OutOfMemory> {
        for age in 0..ages {
            let (exploration, tail) = self.explore(model, age)?;
            drop(exploration);
            if tail.is_some() {
                return Ok(tail);
            }
        }
        Ok(None)
    }
}

impl Inquiry for Runs<'_> {
    /// Runs from the model: where none is faulty, two values that were compared may have to be one.
    fn look(&self, model: &Model, age: u32) -> Result<Look, OutOfMemory> {
        let (exploration, tail) = self.explore(model, age)?;
        let mut compared = Vec::new(self.alloc);
        for pair in &exploration.compared {
            if model.is_mergeable(pair.0, pair.1) {
                compared.push(*pair)?;
            }
        }
        let verdict = match tail {
            Some(_) => Verdict::Sought,
            None => Verdict::Otherwise(compared),
        };
        Ok(Look {
            verdict,
            is_whole: !exploration.is_cut,
            work: exploration.work(),
        })
    }
}

/// Searches in so many rounds for a run from a state that satisfies the precondition, at this line, which faults,
/// stops at an end that does not hold, or comes back to a state where it was or to one like it, with more. Each round
/// does twice the work of the one before it.
pub fn faulty_run(
    alloc: Global,
    defs: &Defs,
    program: &Program,
    line: u32,
    precondition: &Heap,
    rounds: u32,
) -> Result<Option<FaultyRun>, OutOfMemory> {
    let variables = bound_of_heap(precondition).min(65_535) as u16;
    let runs = Runs {
        alloc,
        defs,
        program,
        line,
    };
    let search = Search {
        alloc,
        defs,
        formula: precondition,
        variables: variables.max(program.variables()),
        inquiry: &runs,
    };
    let Some(model) = search.run(rounds)? else {
        return Ok(None);
    };
    match runs.tail(&model, rounds)? {
        Some(tail) => Ok(Some(FaultyRun {
            stack: model.stack,
            cells: model.cells,
            steps: model.steps,
            picks: tail.picks,
            finish: tail.finish,
        })),
        None => Ok(None),
    }
}
