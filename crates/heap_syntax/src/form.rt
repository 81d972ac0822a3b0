//! Forms of terms: what tells the heaps of one format from those of another.

ghost use Rattle.std.specs.Prelude.{◌≡◌, OnOk};
ghost use Rattle.cyc_grammar.specs.Syntax.{Syntax};
ghost use Rattle.cyc_grammar.specs.Giving.{Gives};
ghost use Rattle.cyc_lex.specs.Writing.{write_all};
ghost use Rattle.heap_syntax.specs.Trees.{Spatial, spatial_of};
ghost use Rattle.heap_syntax.specs.Grammar.{Terms};

use crate::tree::SpatialTree;
use cyc_basics::memory::OutOfMemory;
use cyc_grammar::{Cursor, Refusal};
use cyc_lex::WordWriter;
use std::alloc::Global;

/// The terms of a format, how they are read, and the spatial atoms over them.
pub trait TermForm<'a> {
    /// A term.
    type Term: Copy + Drop;

    /// A term without where it lies in memory.
    ghost Value: { Type 0 };

    /// What a contract sees of a term.
    ghost seen: { Self.Term → Value };

    /// The grammar of the terms.
    ghost terms: { Self → Terms Value };

    /// The grammar of the spatial atoms over them.
    ghost atoms: { Self → Syntax (Spatial Value) };

    /// Reads a term.
    fn read_term(&self, cursor: &mut Cursor<'_, 'a>) -> Result<Self::Term, Refusal>
        ensures { Gives (λ x. (seen x, cursor.new)) result ((terms self.now).syntax.read cursor.old) };
}

/// How the spatial atoms are read: a name that begins a predicate atom may begin a term too.
pub trait AtomForm<'a>: TermForm<'a> {
    /// Reads a spatial atom.
    fn read_atom(
        &self,
        alloc: Global,
        cursor: &mut Cursor<'_, 'a>,
    ) -> Result<SpatialTree<'a, Self::Term>, Refusal>
        ensures { Gives (λ x. (spatial_of Self.seen x, cursor.new)) result ((Self.atoms self.now).read cursor.old) };
}

/// How the terms are written.
pub trait WrittenForm<'a>: TermForm<'a> {
    /// Writes a term.
    fn write_term(&self, tree: Self::Term, writer: &mut WordWriter) -> Result<(), OutOfMemory>
        requires { (Self.terms self.now).syntax.fits (Self.seen tree) }
        ensures { OnOk result (writer.new
            ≡ write_all writer.old ((Self.terms self.now).syntax.words (Self.seen tree))) };
}
