// States of a program's runs.
ghost use Rattle.std.specs.Prelude.{◌≡◌, ◌↔◌, IsTrue};
ghost use Rattle.heap_formula.specs.Values.{value};
ghost use Rattle.heap_formula.specs.Programs.{greatest, value_in};
ghost use Rattle.goto_lang.specs.States.{state_of, IsStateOf};

use crate::cells::Cells;
use crate::programs::Program;
use crate::stacks::{Stack, greatest_of};
use heap_formula::Term;
use std::alloc::AllocError;

/// A state of a run: the line, the values of the program variables, and the heap.
#[derive(Drop)]
pub struct Config {
    pub line: u32,
    pub stack: Stack,
    pub heap: Cells,
}

impl Clone for Config {
    ghost is_clone = { λ config copy. copy ≡ config };

    fn clone(&self) -> Result<Config, AllocError> {
        let stack = self.stack.clone()?;
        let heap = self.heap.clone()?;
        Ok(Config {
            line: self.line,
            stack,
            heap,
        })
    }
}

impl Config {
    /// The greatest number in the stack and the heap, 0 if there is none. `new` picks among the numbers up to it and as
    /// many more as the headroom.
    pub fn greatest(&self) -> u64
        ensures { result ≡ greatest (state_of self.now) }
    {
        greatest_of(self.stack.as_slice()).max(self.heap.greatest())
    }

    /// Whether the program can run from here: the line is one of its lines, and the stack has a value for each
    /// variable.
    pub fn is_state_of(&self, program: &Program) -> bool
        ensures { IsTrue result ↔ IsStateOf program.now (state_of self.now) }
    {
        self.line > 0
            && self.line as usize <= program.lines().len()
            && self.stack.as_slice().len() == program.variables() as usize
    }

    pub(crate) fn value(&self, term: Term) -> u64
        ensures { result ≡ value_in (state_of self.now) term }
    {
        match term {
            Term::Nil | Term::Exist(_) => 0,
            Term::Univ(n) => self.stack.get(n),
        }
    }
}
