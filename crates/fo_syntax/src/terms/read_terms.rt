//! Reading terms and atoms from the front of a list of tokens.

ghost use Rattle.std.specs.Prelude.{map};
ghost use Rattle.cyc_grammar.specs.Giving.{Gives};
ghost use Rattle.fo_syntax.specs.Trees.{sign_of, atom_of};
ghost use Rattle.fo_syntax.specs.Grammar.{leaf_read, application, term, atom};

use crate::terms::counting::applied;
use crate::terms::read_marks::{leaf, marks, named};
use crate::terms::tree::{AtomTree, SignTree};
use crate::terms::word::is_free_name_next;
use cyc_grammar::{Cursor, Refusal};
use std::alloc::Global;

/// Reads a name with its arguments in brackets.
#[tactic(auto, unfolding(crate::specs::Grammar::application))]
fn application<'a>(
    alloc: Global,
    locals: bool,
    cursor: &mut Cursor<'_, 'a>,
) -> Result<Vec<SignTree<'a>>, Refusal>
    ensures { Gives (λ x. (map sign_of x.items, cursor.new)) result ((application locals).read cursor.old) }
{
    let name = named(cursor)?;
    let marks = marks(alloc, locals, cursor)?;
    Ok(applied(alloc, name, &marks)?)
}

/// Reads a variable, or a local where those may stand, as a term.
fn leaf_term<'a>(
    alloc: Global,
    locals: bool,
    cursor: &mut Cursor<'_, 'a>,
) -> Result<Vec<SignTree<'a>>, Refusal>
    ensures { Gives (λ x. (map sign_of x.items, cursor.new)) result (leaf_read locals cursor.old) }
{
    let mut signs = Vec::new(alloc);
    signs.push(leaf(locals, cursor)?)?;
    Ok(signs)
}

/// Reads a term, which may have locals where `locals` says so.
#[tactic(auto, unfolding(crate::specs::Grammar::term))]
pub fn term<'a>(
    alloc: Global,
    locals: bool,
    cursor: &mut Cursor<'_, 'a>,
) -> Result<Vec<SignTree<'a>>, Refusal>
    ensures { Gives (λ x. (map sign_of x.items, cursor.new)) result ((term locals).read cursor.old) }
{
    if is_free_name_next(cursor) {
        return application(alloc, locals, cursor);
    }
    leaf_term(alloc, locals, cursor)
}

/// Reads an atom, which may have locals where `locals` says so.
#[tactic(auto, unfolding(crate::specs::Grammar::atom))]
pub fn atom<'a>(
    alloc: Global,
    locals: bool,
    cursor: &mut Cursor<'_, 'a>,
) -> Result<AtomTree<'a>, Refusal>
    ensures { Gives (λ x. (atom_of x, cursor.new)) result ((atom locals).read cursor.old) }
{
    if !is_free_name_next(cursor) {
        let left = leaf_term(alloc, locals, cursor)?;
        cursor.symbol("=")?;
        return Ok(AtomTree::Equation(left, term(alloc, locals, cursor)?));
    }
    let left = application(alloc, locals, cursor)?;
    if cursor.is_symbol_next("=") {
        cursor.symbol("=")?;
        return Ok(AtomTree::Equation(left, term(alloc, locals, cursor)?));
    }
    Ok(AtomTree::Predicate(left))
}
