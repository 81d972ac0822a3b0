//! Forms of program variables: what tells the lines of one format from those of another.

ghost use Rattle.std.specs.Prelude.{◌≡◌, OnOk};
ghost use Rattle.cyc_lex.specs.Writing.{write_all};
ghost use Rattle.cyc_grammar.specs.Giving.{Gives};
ghost use Rattle.cyc_grammar.specs.Syntax.{Syntax};

use cyc_basics::memory::OutOfMemory;
use cyc_grammar::{Cursor, Refusal};
use cyc_lex::WordWriter;

/// The program variables of a format, and how they are read.
pub trait VariableForm<'a> {
    /// A variable.
    type Variable: Copy + Drop;

    /// A variable without where it lies in memory.
    ghost Value: { Type 0 };

    /// What a contract sees of a variable.
    ghost seen: { Self.Variable → Value };

    /// The grammar of the variables.
    ghost variables: { Self → Syntax Value };

    /// Reads a variable.
    fn read_variable(&self, cursor: &mut Cursor<'_, 'a>) -> Result<Self::Variable, Refusal>
        ensures { Gives (λ x. (seen x, cursor.new)) result ((variables self.now).read cursor.old) };
}

/// How the program variables are written.
pub trait WrittenVariable<'a>: VariableForm<'a> {
    /// Writes a variable.
    fn write_variable(
        &self,
        variable: Self::Variable,
        writer: &mut WordWriter,
    ) -> Result<(), OutOfMemory>
        requires { (Self.variables self.now).fits (Self.seen variable) }
        ensures { OnOk result (writer.new
            ≡ write_all writer.old ((Self.variables self.now).words (Self.seen variable))) };
}
