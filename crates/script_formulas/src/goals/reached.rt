// The predicates and constructors that a script's question uses.
use crate::{Script, ScriptAtom, ScriptFormula};
use cyc_basics::memory::OutOfMemory;
use std::alloc::Global;

/// Marks at predicates and at constructors by their numbers.
#[derive(Drop)]
pub struct Reached {
    predicates: Vec<bool>,
    constructors: Vec<bool>,
}

fn marks(alloc: Global, count: usize) -> Result<Vec<bool>, OutOfMemory> {
    let mut made = Vec::new(alloc);
    for _ in 0..count {
        made.push(false)?;
    }
    Ok(made)
}

fn mark(marks: &mut [bool], number: u16) {
    if (number as usize) < marks.len() {
        marks[number as usize] = true;
    }
}

fn is_marked(marks: &[bool], number: usize) -> bool {
    number < marks.len() && marks[number]
}

impl Reached {
    fn mark_atom(&mut self, atom: &ScriptAtom) {
        match atom {
            ScriptAtom::Cell(_, constructor, _) => mark(&mut self.constructors, *constructor),
            ScriptAtom::Call(predicate, _) => mark(&mut self.predicates, *predicate),
        }
    }

    fn mark_formula(&mut self, formula: &ScriptFormula) {
        match formula {
            ScriptFormula::True
            | ScriptFormula::False
            | ScriptFormula::Empty
            | ScriptFormula::Pure(_) => {}
            ScriptFormula::Atom(atom) => self.mark_atom(atom),
            ScriptFormula::Not(f) => self.mark_formula(f),
            ScriptFormula::And(f, g) | ScriptFormula::Or(f, g) | ScriptFormula::Sep(f, g) => {
                self.mark_formula(f);
                self.mark_formula(g);
            }
            ScriptFormula::Exists(_, f) => self.mark_formula(f),
        }
    }

    /// Whether the predicate is used.
    pub fn has_predicate(&self, number: usize) -> bool {
        is_marked(&self.predicates, number)
    }

    /// Whether the constructor is used.
    pub fn has_constructor(&self, number: usize) -> bool {
        is_marked(&self.constructors, number)
    }

    /// Marks what the bodies of marked predicates use; whether a body was new.
    fn mark_bodies(&mut self, script: &Script, done: &mut [bool]) -> bool {
        let mut is_new = false;
        for (number, predicate) in script.predicates.iter().enumerate() {
            if number < done.len() && !done[number] && self.has_predicate(number) {
                done[number] = true;
                is_new = true;
                self.mark_formula(&predicate.body);
            }
        }
        is_new
    }
}

/// What the question of a script uses.
pub fn reached_in(alloc: Global, script: &Script) -> Result<Reached, OutOfMemory> {
    let mut found = Reached {
        predicates: marks(alloc, script.predicates.len())?,
        constructors: marks(alloc, script.constructors.len())?,
    };
    for formula in &script.asserted {
        found.mark_formula(formula);
    }
    for formula in &script.denied {
        found.mark_formula(formula);
    }
    let mut done = marks(alloc, script.predicates.len())?;
    for _ in 0..script.predicates.len() {
        if !found.mark_bodies(script, &mut done) {
            break;
        }
    }
    Ok(found)
}
