//! What the author of a problem calls things.
ghost use Rattle.std.specs.Prelude.{◌≡◌, map, option_map};
ghost use Rattle.cyc_lex.specs.Word.{word};
ghost use Rattle.heap_formula.specs.Programs.{counted_from_one};
ghost use Rattle.proof_picture.specs.Naming.{naming_of, words_of};

use cyc_lex::Token;
use problem_syntax::names::ProblemName;

/// What the author of a problem calls the variables of its goal, by their numbers; and the lines of its program, in
/// order, each a statement without its `;`.
#[derive(Clone, Copy)]
pub struct Naming<'t, 'a> {
    pub names: &'t [ProblemName<'a>],
    pub lines: &'t [&'t [Token<'a>]],
}

impl<'t, 'a> Naming<'t, 'a> {
    /// The line with this number, counted from 1, if there is one.
    pub fn line(&self, number: u32) -> Option<&'t [Token<'a>]>
        ensures { option_map words_of result ≡ counted_from_one (naming_of self.now).lines number }
    {
        if number == 0 {
            return None;
        }
        match self.lines.get(number as usize - 1) {
            Some(line) => Some(*line),
            None => None,
        }
    }
}
