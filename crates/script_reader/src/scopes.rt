// The variables that a formula stands below.
ghost use Rattle.std.specs.Prelude.{◌≡◌, IfErr};

use crate::faults::ScriptFault;
use script_formulas::Term;

/// A term with its sort; the bare `nil` has any.
#[derive(Clone, Copy)]
pub struct Sorted {
    pub term: Term,
    pub sort: Option<u16>,
}

/// What a name of a scope stands for: a term, or a formula, by its tree and the scope of that.
#[derive(Clone, Copy)]
pub enum Binding {
    Term(Sorted),
    Formula { tree: usize, scope: usize },
}

/// A name, what it stands for, and the scope around it.
#[derive(Clone, Copy)]
pub struct Frame<'a> {
    pub name: &'a [u8],
    pub binding: Binding,
    pub outer: usize,
}

/// Scopes: 0 has no name, and n has the name of the nth frame and those of the scope around it.
#[derive(Drop)]
pub struct Scopes<'a> {
    frames: Vec<Frame<'a>>,
}

impl<'a> Scopes<'a> {
    /// The empty scope alone.
    pub fn new(frames: Vec<Frame<'a>>) -> Scopes<'a> {
        Scopes { frames }
    }

    /// A scope with one name more.
    pub fn with(
        &mut self,
        outer: usize,
        name: &'a [u8],
        binding: Binding,
    ) -> Result<usize, ScriptFault>
        ensures { IfErr result (λ fault. fault ≡ ScriptFault.OutOfMemory) }
    {
        self.frames.push(Frame {
            name,
            binding,
            outer,
        })?;
        Ok(self.frames.len())
    }

    /// The scopes up to a number alone: those that were made since are done with.
    pub fn keep(&mut self, count: usize) {
        self.frames.truncate(count);
    }

    /// What a name stands for in a scope.
    pub fn find(&self, scope: usize, name: &[u8]) -> Option<Binding> {
        let mut at = scope;
        'frames: while at > 0 {
            let frame = self.frames.get(at - 1)?;
            if frame.name == name {
                return Some(frame.binding);
            }
            at = frame.outer.min(at - 1);
        }
        None
    }
}
