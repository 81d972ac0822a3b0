//! Lists of atoms: the sides of a sequent, and the cases of a definition.

ghost use Rattle.std.specs.Prelude.{◌≡◌, map, OnOk};
ghost use Rattle.cyc_lex.specs.Writing.{write_all};
ghost use Rattle.cyc_grammar.specs.Giving.{Gives};
ghost use Rattle.cyc_grammar.specs.Classes as class;
ghost use Rattle.fo_syntax.specs.ProblemGrammar.{atoms, atoms_or};
ghost use Rattle.fo_syntax.specs.ProblemTrees.{atoms_of};
ghost use Rattle.fo_syntax.specs.Trees.{atom_of};

use crate::problems::item::{Item, listed, write_listed};
use crate::terms::{AtomTree, atom, write_atom};
use cyc_basics::memory::OutOfMemory;
use cyc_grammar::{Cursor, Refusal};
use cyc_lex::WordWriter;
use heap_syntax::Mark;
use std::alloc::Global;

/// AtomKind, which may have locals where `locals` says so.
#[derive(Clone, Copy)]
struct AtomKind {
    locals: bool,
}

impl<'a> Item<'a> for AtomKind {
    ghost use Rattle.fo_syntax.specs.Trees.{Atom, atom_of};
    ghost use Rattle.fo_syntax.specs.Grammar.{atom};

    type Tree = AtomTree<'a>;

    ghost Value = { Atom };

    ghost seen = { atom_of };

    ghost syntax = { λ kind. atom kind.locals };

    fn read_item(
        &self,
        alloc: Global,
        cursor: &mut Cursor<'_, 'a>,
    ) -> Result<AtomTree<'a>, Refusal> {
        atom(alloc, self.locals, cursor)
    }

    fn write_item(
        &self,
        alloc: Global,
        tree: &AtomTree<'a>,
        writer: &mut WordWriter,
    ) -> Result<(), OutOfMemory> {
        write_atom(alloc, self.locals, tree, writer)
    }
}

#[tactic(auto, unfolding(crate::specs::ProblemGrammar::atoms))]
fn atoms<'a>(
    alloc: Global,
    locals: bool,
    cursor: &mut Cursor<'_, 'a>,
) -> Result<Vec<AtomTree<'a>>, Refusal>
    ensures { Gives (λ x. (atoms_of x, cursor.new)) result ((atoms locals).read cursor.old) }
{
    listed(alloc, &Mark::Symbol(","), &AtomKind { locals }, cursor)
}

/// Reads atoms, or the word that stands for none.
#[tactic(auto, unfolding(crate::specs::ProblemGrammar::atoms_or))]
pub fn atoms_or<'a>(
    alloc: Global,
    none: &str,
    locals: bool,
    cursor: &mut Cursor<'_, 'a>,
) -> Result<Vec<AtomTree<'a>>, Refusal>
    ensures { Gives (λ x. (atoms_of x, cursor.new)) result
        ((atoms_or (class.keyword none.now) locals).read cursor.old) }
{
    if cursor.is_keyword_next(none) {
        cursor.keyword(none)?;
        return Ok(Vec::new(alloc));
    }
    atoms(alloc, locals, cursor)
}

#[tactic(auto, unfolding(crate::specs::ProblemGrammar::atoms))]
fn write_atoms(
    alloc: Global,
    locals: bool,
    trees: &[AtomTree<'_>],
    writer: &mut WordWriter,
) -> Result<(), OutOfMemory>
    requires { (atoms locals).fits (map atom_of trees.now) }
    ensures { OnOk result (writer.new ≡ write_all writer.old ((atoms locals).words (map atom_of trees.now))) }
{
    write_listed(
        alloc,
        &Mark::Symbol(","),
        &AtomKind { locals },
        trees,
        writer,
    )
}

/// Writes atoms, or the word that stands for none.
#[tactic(auto, unfolding(crate::specs::ProblemGrammar::atoms_or, cyc_lex::specs::Writing::write_all))]
pub fn write_atoms_or(
    alloc: Global,
    none: &str,
    locals: bool,
    trees: &[AtomTree<'_>],
    writer: &mut WordWriter,
) -> Result<(), OutOfMemory>
    requires { (atoms_or (class.keyword none.now) locals).fits (map atom_of trees.now) }
    ensures { OnOk result (writer.new
        ≡ write_all writer.old ((atoms_or (class.keyword none.now) locals).words (map atom_of trees.now))) }
{
    match trees {
        [] => writer.name(none),
        _ => write_atoms(alloc, locals, trees, writer),
    }
}
