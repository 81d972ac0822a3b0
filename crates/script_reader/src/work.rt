// What is still to be done to a formula.
ghost use Rattle.std.specs.Prelude.{◌≡◌, ◌+◌, ◌*◌, ◌≤◌, ◌++◌, OnOk, OnSome, option_to_list, vec_len};
ghost use Rattle.script_reader.specs.Telling.{TellsAt};

use crate::faults::{ScriptFault, ScriptLimit};
use script_formulas::OutOfMemory;

/// How large the formulas of a script may become.
pub const MOST_SIZE: usize = 200_000;

/// A formula: its tree, the scope that it has, how many quantifiers it stands below and how deep, and the tree at
/// which a limit that it passes is told, if that is another one.
#[derive(Clone, Copy)]
pub struct Spot {
    pub tree: usize,
    pub scope: usize,
    pub quantifiers: u16,
    pub depth: u16,
    pub blame: Option<usize>,
}

impl Spot {
    /// A part of the formula, one deeper.
    pub fn part(self, tree: usize) -> Spot {
        Spot {
            tree,
            depth: self.depth.saturating_add(1),
            ..self
        }
    }

    /// A part that stands elsewhere in the text, in a scope of its own; this other tree stands for it.
    pub fn elsewhere(self, tree: usize, scope: usize, user: usize) -> Spot {
        Spot {
            tree,
            scope,
            quantifiers: self.quantifiers,
            depth: self.depth.saturating_add(1),
            blame: Some(self.blame.unwrap_or(user)),
        }
    }
}

/// What joins formulas.
#[derive(Clone, Copy, PartialEq, Eq)]
pub enum Connective {
    And,
    Or,
    Sep,
}

/// A step: a formula is read; or the last ones that are done become one, are negated, or quantified, or the last is
/// left out.
#[derive(Clone, Copy)]
pub enum Task {
    Read(Spot),
    Join(Connective, usize),
    Negate,
    Quantify(u16),
    Forget,
}

/// The steps that are still to come, the next one last, and how much may still be done.
#[derive(Drop)]
pub struct Work {
    pub tasks: Vec<Task>,
    pub left: usize,
}

impl Work {
    ghost use Rattle.script_reader.specs.Weight.{weight};

    /// Something is made, which counts.
    pub fn spend(&mut self, at: usize) -> Result<(), ScriptFault>
        ensures spent { OnOk result (weight self.new + 2 ≤ weight self.old) }
        ensures weight { weight self.new ≤ weight self.old }
        ensures told { TellsAt at result }
    {
        if self.left == 0 {
            return Err(ScriptFault::Limit(ScriptLimit::Size, at));
        }
        self.left -= 1;
        Ok(())
    }

    /// One more step, which counts.
    pub fn push(&mut self, task: Task, at: usize) -> Result<(), ScriptFault>
        ensures weight { weight self.new ≤ weight self.old }
        ensures told { TellsAt at result }
    {
        self.spend(at)?;
        self.tasks.push(task)?;
        Ok(())
    }

    /// The next step.
    pub fn pop(&mut self) -> Option<Task>
        ensures tasks { self.old.tasks.items ≡ self.new.tasks.items ++ option_to_list result }
        ensures less { OnSome result (weight self.new + 1 ≤ weight self.old) }
        ensures kept { weight self.new ≤ weight self.old }
    {
        self.tasks.pop()
    }
}
