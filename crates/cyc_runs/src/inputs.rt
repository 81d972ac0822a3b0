// Inputs that are kept whole.
ghost use Rattle.std.specs.Prelude.{◌++◌, length};

use crate::Tool;
use crate::answers::Answer;
use crate::pieces::PiecewiseTool;
use cyc_basics::memory::OutOfMemory;
use std::alloc::Global;

// A tool that keeps its input until it has come whole.
pub struct WholeInput<'a, T> {
    pub tool: &'a T,
    pub bytes: Vec<u8>,
}

impl<T> Drop for WholeInput<'_, T> {
    fn drop(self) {
        let WholeInput { tool: _, bytes: _ } = self;
    }
}

impl<T: Tool> PiecewiseTool for WholeInput<'_, T> {
    ghost answers = { λ whole rest. T.answers whole.tool.now (whole.bytes.items ++ rest) };

    ghost fed = { λ whole. length whole.bytes.items };

    fn feed(&mut self, piece: &[u8]) -> Result<(), OutOfMemory> {
        self.bytes.extend_from_slice(piece)?;
        Ok(())
    }

    fn finish(self, alloc: Global) -> Result<Answer, OutOfMemory> {
        self.tool.answer(alloc, self.bytes.as_slice())
    }
}
