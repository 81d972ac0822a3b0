// The program variables of proof files.

use cyc_basics::limits::GREATEST_PROGRAM_VARIABLE;
use cyc_lex::What;
use heap_reader::lines::VariableReader;
use heap_reader::{Flaw, over};

/// Universal variables as program variables, of which there are at most 64.
#[derive(Clone, Copy)]
pub struct ProgramVariables;

impl VariableReader for ProgramVariables {
    ghost use Rattle.proof_file.specs.Spans as spans;
    ghost use Rattle.proof_file.specs.Flaws as flaws;
    ghost use Rattle.heap_reader.specs.LineValues as values;

    type Variable = u32;

    ghost span = { spans.variable_span };

    ghost flaw = { λ _. flaws.variable_flaw };

    ghost value = { values.variable_value };

    fn walk(&self, at: usize, variable: u32) -> Result<usize, Flaw> {
        if variable > GREATEST_PROGRAM_VARIABLE {
            return Err(over(What::ProgramVariables, at + 1));
        }
        Ok(at + 3)
    }

    fn value(&self, variable: u32) -> u16 {
        variable as u16
    }
}
