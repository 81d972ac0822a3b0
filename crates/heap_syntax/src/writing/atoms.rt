//! Writing terms and atoms.

ghost use Rattle.std.specs.Prelude.{◌≡◌, map, OnOk};
ghost use Rattle.cyc_lex.specs.Writing.{write_all};
ghost use Rattle.cyc_grammar.specs.Syntax.{after, words_many, fits_many};
ghost use Rattle.heap_syntax.specs.Words.{comma};
ghost use Rattle.heap_syntax.specs.Grammar.{sign, pure, pures, fields, arguments, spatial};
ghost use Rattle.heap_syntax.specs.Trees.{pure_of, spatial_of};

use crate::{PureTree, SpatialTree, WrittenForm};
use cyc_basics::memory::OutOfMemory;
use cyc_lex::WordWriter;

#[tactic(auto, unfolding(crate::specs::Grammar::sign, cyc_lex::specs::Writing::write_all))]
fn write_sign(is_equation: bool, writer: &mut WordWriter) -> Result<(), OutOfMemory>
    ensures { OnOk result (writer.new ≡ write_all writer.old (sign.words is_equation)) }
{
    if is_equation {
        writer.symbol("=")
    } else {
        writer.symbol("!=")
    }
}

#[tactic(auto, using(cyc_lex::proofs::WritingLaws::write_all_on), unfolding(crate::specs::Grammar::pure))]
fn write_pure<'a, F: WrittenForm<'a>>(
    form: &F,
    tree: PureTree<F::Term>,
    writer: &mut WordWriter,
) -> Result<(), OutOfMemory>
    requires { (pure (F.terms form.now).syntax).fits (pure_of F.seen tree) }
    ensures { OnOk result
        (writer.new ≡ write_all writer.old ((pure (F.terms form.now).syntax).words (pure_of F.seen tree))) }
{
    form.write_term(tree.left, writer)?;
    write_sign(tree.is_equation, writer)?;
    form.write_term(tree.right, writer)
}

fn write_more_pures<'a, F: WrittenForm<'a>>(
    form: &F,
    trees: &[PureTree<F::Term>],
    writer: &mut WordWriter,
) -> Result<(), OutOfMemory>
    requires { fits_many (after comma (pure (F.terms form.now).syntax)) (map (pure_of F.seen) trees.now) }
    ensures { OnOk result
        (writer.new ≡ write_all writer.old
        (words_many (after comma (pure (F.terms form.now).syntax)) (map (pure_of F.seen) trees.now))) }
{
    for tree in trees {
        writer.symbol(",")?;
        write_pure(form, *tree, writer)?;
    }
    Ok(())
}

#[tactic(auto, using(cyc_lex::proofs::WritingLaws::write_all_on), unfolding(crate::specs::Grammar::pures, crate::specs::Grammar::pures1, crate::specs::Grammar::listed, cyc_lex::specs::Writing::write_all))]
pub fn write_pures<'a, F: WrittenForm<'a>>(
    form: &F,
    trees: &[PureTree<F::Term>],
    writer: &mut WordWriter,
) -> Result<(), OutOfMemory>
    requires { (pures (F.terms form.now)).fits (map (pure_of F.seen) trees.now) }
    ensures { OnOk result
        (writer.new ≡ write_all writer.old ((pures (F.terms form.now)).words (map (pure_of F.seen) trees.now))) }
{
    match trees {
        [] => {
            writer.name("true")?;
            writer.symbol(":")
        }
        [first, others @ ..] => {
            write_pure(form, *first, writer)?;
            write_more_pures(form, others, writer)?;
            writer.symbol(":")
        }
    }
}

fn write_more_terms<'a, F: WrittenForm<'a>>(
    form: &F,
    trees: &[F::Term],
    writer: &mut WordWriter,
) -> Result<(), OutOfMemory>
    requires { fits_many (after comma (F.terms form.now).syntax) (map F.seen trees.now) }
    ensures { OnOk result
        (writer.new ≡ write_all writer.old
        (words_many (after comma (F.terms form.now).syntax) (map F.seen trees.now))) }
{
    for tree in trees {
        writer.symbol(",")?;
        form.write_term(*tree, writer)?;
    }
    Ok(())
}

#[tactic(auto, using(cyc_lex::proofs::WritingLaws::write_all_on), unfolding(crate::specs::Grammar::fields, crate::specs::Grammar::listed, cyc_lex::specs::Writing::write_all))]
fn write_fields<'a, F: WrittenForm<'a>>(
    form: &F,
    trees: &[F::Term],
    writer: &mut WordWriter,
) -> Result<(), OutOfMemory>
    requires { (fields (F.terms form.now)).fits (map F.seen trees.now) }
    ensures { OnOk result
        (writer.new ≡ write_all writer.old ((fields (F.terms form.now)).words (map F.seen trees.now))) }
{
    match trees {
        [] => unreachable!(),
        [first, others @ ..] => {
            form.write_term(*first, writer)?;
            write_more_terms(form, others, writer)?;
            writer.symbol(")")
        }
    }
}

#[tactic(auto, unfolding(crate::specs::Grammar::arguments, cyc_lex::specs::Writing::write_all))]
fn write_arguments<'a, F: WrittenForm<'a>>(
    form: &F,
    trees: &[F::Term],
    writer: &mut WordWriter,
) -> Result<(), OutOfMemory>
    requires { (arguments (F.terms form.now)).fits (map F.seen trees.now) }
    ensures { OnOk result
        (writer.new ≡ write_all writer.old ((arguments (F.terms form.now)).words (map F.seen trees.now))) }
{
    match trees {
        [] => writer.symbol(")"),
        _ => write_fields(form, trees, writer),
    }
}

#[tactic(auto, using(cyc_lex::proofs::WritingLaws::write_all_on), unfolding(crate::specs::Grammar::spatial, crate::specs::Grammar::predicate, crate::specs::Grammar::cell, cyc_lex::specs::Writing::write_all))]
pub fn write_spatial<'a, F: WrittenForm<'a>>(
    form: &F,
    tree: &SpatialTree<'a, F::Term>,
    writer: &mut WordWriter,
) -> Result<(), OutOfMemory>
    requires { (spatial (F.terms form.now)).fits (spatial_of F.seen tree.now) }
    ensures { OnOk result
        (writer.new ≡ write_all writer.old ((spatial (F.terms form.now)).words (spatial_of F.seen tree.now))) }
{
    match tree {
        SpatialTree::Cell(address, fields) => {
            form.write_term(*address, writer)?;
            writer.symbol("->")?;
            writer.symbol("(")?;
            write_fields(form, fields, writer)
        }
        SpatialTree::Predicate(name, arguments) => {
            writer.name(name)?;
            writer.symbol("(")?;
            write_arguments(form, arguments, writer)
        }
    }
}
