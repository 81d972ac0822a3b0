//! Forms of program variables: what tells the lines of one format from those of another.

ghost use Rattle.std.specs.Prelude.{◌≡◌, ◌+◌, ◌<◌, ◌^◌, ℕ};
ghost use Rattle.heap_reader.specs.Flaws.{Found, IsWalk};

use crate::Flaw;

/// The program variables of a format as they are read.
pub trait VariableReader {
    /// A variable, which holds nothing borrowed.
    type Variable: Copy + Drop;

    /// The tokens of a variable and the one after it.
    ghost span: { Self.Variable → ℕ };

    /// The first flaw of a variable that begins at a token.
    ghost flaw: { Self → ℕ → Self.Variable → Found };

    /// The number of a variable.
    ghost value: { Self.Variable → ℕ };

    /// Goes over a variable that begins at a token, and gives the token after it and the one that follows it.
    fn walk(&self, at: usize, variable: Self::Variable) -> Result<usize, Flaw>
        requires { at + span variable < 2 ^ 64 }
        ensures { IsWalk result (flaw self.now at variable) (at + span variable) };

    /// The number of a variable.
    fn value(&self, variable: Self::Variable) -> u16
        requires { value variable < 2 ^ 16 }
        ensures { result ≡ value variable };
}
