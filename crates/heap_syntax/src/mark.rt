//! The words that stand between heaps and after them.

ghost use Rattle.std.specs.Prelude.{◌≡◌, OnOk};
ghost use Rattle.cyc_grammar.specs.Syntax.{read_class, begins, is_one};
ghost use Rattle.cyc_grammar.specs.Giving.{Gives};
ghost use Rattle.cyc_lex.specs.Writing.{write};
ghost use Rattle.heap_syntax.specs.Words.{marked};

use cyc_basics::memory::OutOfMemory;
use cyc_grammar::{Cursor, Refusal};
use cyc_lex::WordWriter;

/// One fixed word, a symbol or a keyword.
#[derive(Clone, Copy)]
pub enum Mark<'m> {
    Symbol(&'m str),
    Keyword(&'m str),
}

impl<'m> Mark<'m> {
    /// Whether the word is the first that is left.
    pub fn is_next(&self, cursor: &Cursor<'_, '_>) -> bool
        ensures { result ≡ begins (is_one (marked self.now)) cursor.now }
    {
        match self {
            Mark::Symbol(text) => cursor.is_symbol_next(text),
            Mark::Keyword(text) => cursor.is_keyword_next(text),
        }
    }

    /// Takes the word.
    pub fn take(&self, cursor: &mut Cursor<'_, '_>) -> Result<(), Refusal>
        ensures { Gives (λ x. (tt, cursor.new)) result (read_class (marked self.now) cursor.old) }
    {
        match self {
            Mark::Symbol(text) => cursor.symbol(text),
            Mark::Keyword(text) => cursor.keyword(text),
        }
    }

    /// Writes the word.
    pub fn write(&self, writer: &mut WordWriter) -> Result<(), OutOfMemory>
        ensures { OnOk result (writer.new ≡ write writer.old ((marked self.now).word tt)) }
    {
        match self {
            Mark::Symbol(text) => writer.symbol(text),
            Mark::Keyword(text) => writer.name(text),
        }
    }
}
