//! The program variables of proof files: reading and writing them.

use cyc_basics::memory::OutOfMemory;
use cyc_grammar::{Cursor, Refusal};
use cyc_lex::WordWriter;
use heap_syntax::lines::{VariableForm, WrittenVariable};

/// Universal variables as program variables, by their numbers.
#[derive(Clone, Copy)]
pub struct DollarVariables;

impl<'a> VariableForm<'a> for DollarVariables {
    ghost use Rattle.std.specs.Prelude.{ℕ};
    ghost use Rattle.proof_syntax.specs.Grammar as grammar;

    type Variable = u32;

    ghost Value = { ℕ };

    ghost seen = { λ n. n };

    ghost variables = { λ _. grammar.variable };

    #[tactic(auto, unfolding(crate::specs::Grammar::variable))]
    fn read_variable(&self, cursor: &mut Cursor<'_, 'a>) -> Result<u32, Refusal> {
        cursor.symbol("$")?;
        cursor.number()
    }
}

impl<'a> WrittenVariable<'a> for DollarVariables {
    #[tactic(auto, unfolding(crate::specs::Grammar::variable, cyc_lex::specs::Writing::write_all))]
    fn write_variable(&self, variable: u32, writer: &mut WordWriter) -> Result<(), OutOfMemory> {
        writer.symbol("$")?;
        writer.number(variable)
    }
}
