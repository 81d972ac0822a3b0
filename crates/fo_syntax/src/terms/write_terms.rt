//! Writing terms and atoms.

ghost use Rattle.std.specs.Prelude.{◌≡◌, ◌<◌, ◌∷◌, map, OnOk};
ghost use Rattle.cyc_lex.specs.Writing.{write_all};
ghost use Rattle.fo_syntax.specs.Trees.{Apply, sign_of, atom_of};
ghost use Rattle.fo_syntax.specs.Seen.{mark_seen};
ghost use Rattle.fo_syntax.specs.Grammar.{leaf, named, head, first_mark, next_mark, mark, marks, application, term};
ghost use Rattle.fo_syntax.specs.Grammar.{atom};

use crate::terms::bracket::{Awaited, Mark};
use crate::terms::bracketing::brackets;
use crate::terms::tree::{AtomTree, SignTree};
use cyc_basics::memory::OutOfMemory;
use cyc_lex::WordWriter;
use std::alloc::Global;

#[tactic(auto, unfolding(crate::specs::Grammar::leaf, cyc_lex::specs::Writing::write_all))]
fn write_leaf(locals: bool, sign: SignTree<'_>, writer: &mut WordWriter) -> Result<(), OutOfMemory>
    requires { (leaf locals).fits (sign_of sign) }
    ensures { OnOk result (writer.new ≡ write_all writer.old ((leaf locals).words (sign_of sign.entry))) }
{
    match sign {
        SignTree::Variable(number) => {
            writer.symbol("$")?;
            writer.number(number)
        }
        SignTree::Local(number) if locals => {
            writer.symbol("?")?;
            writer.number(number)
        }
        _ => unreachable!(),
    }
}

#[tactic(auto, unfolding(crate::specs::Grammar::named, cyc_lex::specs::Writing::write_all))]
fn write_named(name: &str, writer: &mut WordWriter) -> Result<(), OutOfMemory>
    requires { named.fits name.now }
    ensures { OnOk result (writer.new ≡ write_all writer.old (named.words name.now)) }
{
    writer.name(name)?;
    writer.symbol("(")
}

#[tactic(auto, unfolding(crate::specs::Grammar::head))]
fn write_head(locals: bool, mark: Mark<'_>, writer: &mut WordWriter) -> Result<(), OutOfMemory>
    requires { (head locals).fits (mark_seen mark) }
    ensures { OnOk result (writer.new ≡ write_all writer.old ((head locals).words (mark_seen mark.entry))) }
{
    match mark {
        Mark::Leaf(sign) => write_leaf(locals, sign, writer),
        Mark::Opening(name) => write_named(name, writer),
        Mark::Closing => unreachable!(),
    }
}

#[tactic(auto, unfolding(crate::specs::Grammar::first_mark, cyc_lex::specs::Writing::write_all))]
fn write_first(locals: bool, mark: Mark<'_>, writer: &mut WordWriter) -> Result<(), OutOfMemory>
    requires { (first_mark locals).fits (mark_seen mark) }
    ensures { OnOk result (writer.new ≡ write_all writer.old ((first_mark locals).words (mark_seen mark.entry))) }
{
    match mark {
        Mark::Closing => writer.symbol(")"),
        _ => write_head(locals, mark, writer),
    }
}

#[tactic(auto, unfolding(crate::specs::Grammar::next_mark, cyc_lex::specs::Writing::write_all))]
fn write_next(locals: bool, mark: Mark<'_>, writer: &mut WordWriter) -> Result<(), OutOfMemory>
    requires { (next_mark locals).fits (mark_seen mark) }
    ensures { OnOk result (writer.new ≡ write_all writer.old ((next_mark locals).words (mark_seen mark.entry))) }
{
    match mark {
        Mark::Closing => writer.symbol(")"),
        _ => {
            writer.symbol(",")?;
            write_head(locals, mark, writer)
        }
    }
}

fn write_mark(
    locals: bool,
    awaited: Awaited,
    item: Mark<'_>,
    writer: &mut WordWriter,
) -> Result<(), OutOfMemory>
    requires { (mark locals awaited).fits (mark_seen item) }
    ensures { OnOk result (writer.new ≡ write_all writer.old ((mark locals awaited).words (mark_seen item.entry))) }
{
    match awaited {
        Awaited::First(_) => write_first(locals, item, writer),
        Awaited::Next(_) | Awaited::Nothing => write_next(locals, item, writer),
    }
}

#[tactic(auto, unfolding(crate::specs::Grammar::marks))]
fn write_marks(locals: bool, items: &[Mark<'_>], writer: &mut WordWriter) -> Result<(), OutOfMemory>
    requires { (marks locals).fits (map mark_seen items.now) }
    ensures { OnOk result (writer.new ≡ write_all writer.old ((marks locals).words (map mark_seen items.now))) }
{
    let mut awaited = Awaited::First(0);
    for item in items {
        write_mark(locals, awaited, *item, writer)?;
        awaited = awaited.behind(*item);
    }
    Ok(())
}

#[tactic(auto, using(cyc_lex::proofs::WritingLaws::write_all_on), unfolding(crate::specs::Grammar::application, cyc_lex::specs::Writing::write_all))]
fn write_application(
    alloc: Global,
    locals: bool,
    name: &str,
    arguments: usize,
    signs: &[SignTree<'_>],
    writer: &mut WordWriter,
) -> Result<(), OutOfMemory>
    requires { (application locals).fits (Apply name.now arguments ∷ map sign_of signs.now) }
    ensures { OnOk result (writer.new
        ≡ write_all writer.old ((application locals).words (Apply name.now arguments ∷ map sign_of signs.now))) }
{
    write_named(name, writer)?;
    write_marks(locals, &brackets(alloc, arguments, signs)?, writer)
}

/// Writes a term, which may have locals where `locals` says so.
#[tactic(auto, unfolding(crate::specs::Grammar::term))]
pub fn write_term(
    alloc: Global,
    locals: bool,
    signs: &[SignTree<'_>],
    writer: &mut WordWriter,
) -> Result<(), OutOfMemory>
    requires { (term locals).fits (map sign_of signs.now) }
    ensures { OnOk result (writer.new ≡ write_all writer.old ((term locals).words (map sign_of signs.now))) }
{
    match signs {
        [] => unreachable!(),
        [SignTree::Apply(name, arguments), others @ ..] => {
            write_application(alloc, locals, name, *arguments, others, writer)
        }
        [sign, ..] => write_leaf(locals, *sign, writer),
    }
}

/// Writes an atom, which may have locals where `locals` says so.
#[tactic(auto, using(cyc_lex::proofs::WritingLaws::write_all_on), unfolding(crate::specs::Grammar::atom, cyc_lex::specs::Writing::write_all))]
pub fn write_atom(
    alloc: Global,
    locals: bool,
    tree: &AtomTree<'_>,
    writer: &mut WordWriter,
) -> Result<(), OutOfMemory>
    requires { (atom locals).fits (atom_of tree.now) }
    ensures { OnOk result (writer.new ≡ write_all writer.old ((atom locals).words (atom_of tree.now))) }
{
    match tree {
        AtomTree::Equation(left, right) => {
            write_term(alloc, locals, left, writer)?;
            writer.symbol("=")?;
            write_term(alloc, locals, right, writer)
        }
        AtomTree::Predicate(term) => write_term(alloc, locals, term, writer),
    }
}
