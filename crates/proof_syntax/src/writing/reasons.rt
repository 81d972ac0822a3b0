//! Writing the reason of a node.

ghost use Rattle.std.specs.Prelude.{◌≡◌, map, OnOk};
ghost use Rattle.cyc_lex.specs.Writing.{write_all};
ghost use Rattle.cyc_grammar.specs.Syntax.{after, words_many, fits_many, list1};
ghost use Rattle.proof_syntax.specs.Grammar.{comma, pair, some_pair, pairs, link, reason};
ghost use Rattle.proof_syntax.specs.Trees.{link_of, reason_of};
ghost use Rattle.proof_syntax.specs.ReasonParts.{word_of_reason, behind_word, FitsBehind};

use crate::{LinkTree, PairTree, ReasonTree, ReasonWord, TermTree, text_of_side};
use cyc_basics::memory::OutOfMemory;
use cyc_lex::WordWriter;
use heap_syntax::definitions::write_universal_term;
use heap_syntax::writing::{write_bracketed, write_heap};

#[tactic(auto, unfolding(crate::specs::Grammar::pair, cyc_lex::specs::Writing::write_all))]
fn write_pair(tree: PairTree, writer: &mut WordWriter) -> Result<(), OutOfMemory>
    requires { pair.fits tree }
    ensures { OnOk result (writer.new ≡ write_all writer.old (pair.words tree)) }
{
    writer.symbol("$")?;
    writer.number(tree.variable)?;
    writer.symbol(":=")?;
    write_universal_term(tree.value, writer)
}

fn write_more_pairs(trees: &[PairTree], writer: &mut WordWriter) -> Result<(), OutOfMemory>
    requires { fits_many (after comma pair) trees.now }
    ensures { OnOk result (writer.new ≡ write_all writer.old (words_many (after comma pair) trees.now)) }
{
    for tree in trees {
        writer.symbol(",")?;
        write_pair(*tree, writer)?;
    }
    Ok(())
}

fn write_some_pairs(trees: &[PairTree], writer: &mut WordWriter) -> Result<(), OutOfMemory>
    requires { (list1 some_pair comma pair).fits trees.now }
    ensures { OnOk result (writer.new ≡ write_all writer.old ((list1 some_pair comma pair).words trees.now)) }
{
    match trees {
        [] => unreachable!(),
        [first, others @ ..] => {
            write_pair(*first, writer)?;
            write_more_pairs(others, writer)
        }
    }
}

#[tactic(auto, using(cyc_lex::proofs::WritingLaws::write_all_on), unfolding(crate::specs::Grammar::pairs, crate::specs::Grammar::pairs1, cyc_lex::specs::Writing::write_all))]
fn write_pairs(trees: &[PairTree], writer: &mut WordWriter) -> Result<(), OutOfMemory>
    requires { pairs.fits trees.now }
    ensures { OnOk result (writer.new ≡ write_all writer.old (pairs.words trees.now)) }
{
    match trees {
        [] => writer.symbol("}"),
        _ => {
            write_some_pairs(trees, writer)?;
            writer.symbol("}")
        }
    }
}

#[tactic(auto, using(cyc_lex::proofs::WritingLaws::write_all_on), unfolding(crate::specs::Grammar::link, cyc_lex::specs::Writing::write_all))]
fn write_link(tree: &LinkTree, writer: &mut WordWriter) -> Result<(), OutOfMemory>
    requires { link.fits (link_of tree.now) }
    ensures { OnOk result (writer.new ≡ write_all writer.old (link.words (link_of tree.now))) }
{
    writer.number(tree.target)?;
    writer.symbol("{")?;
    write_pairs(&tree.substitution, writer)?;
    write_bracketed(&tree.map, writer)?;
    write_bracketed(&tree.disjuncts, writer)
}

#[tactic(auto, using(cyc_lex::proofs::WritingLaws::write_all_on), unfolding(crate::specs::Grammar::rewrite, crate::specs::Grammar::side, crate::specs::Grammar::split, heap_syntax::specs::Numbers::two_numbers, crate::specs::Grammar::cut, crate::specs::Grammar::instantiate, cyc_lex::specs::Writing::write_all))]
fn write_parts(tree: &ReasonTree<'_>, writer: &mut WordWriter) -> Result<(), OutOfMemory>
    requires { FitsBehind (reason_of tree.now) }
    ensures { OnOk result (writer.new ≡ write_all writer.old (behind_word (reason_of tree.now))) }
{
    match tree {
        ReasonTree::Absurd | ReasonTree::Done | ReasonTree::Exec => Ok(()),
        ReasonTree::Rewrite(position, side) => {
            writer.number(*position)?;
            writer.name(text_of_side(*side))
        }
        ReasonTree::Split(left, right) => {
            write_universal_term(*left, writer)?;
            write_universal_term(*right, writer)
        }
        ReasonTree::Distinct(left, right)
        | ReasonTree::Frame(left, right)
        | ReasonTree::UnfoldRight(left, right) => {
            writer.number(*left)?;
            writer.number(*right)
        }
        ReasonTree::Weaken(number)
        | ReasonTree::Unfold(number)
        | ReasonTree::Choose(number)
        | ReasonTree::PureRight(number)
        | ReasonTree::Drop(number) => writer.number(*number),
        ReasonTree::Cut(positions, formula) => {
            write_bracketed(positions, writer)?;
            write_heap(false, formula, writer)
        }
        ReasonTree::Instantiate(variable, value) => {
            writer.symbol("?")?;
            writer.number(*variable)?;
            write_universal_term(*value, writer)
        }
        ReasonTree::Link(link) => write_link(link, writer),
    }
}

pub fn write_reason(tree: &ReasonTree<'_>, writer: &mut WordWriter) -> Result<(), OutOfMemory>
    requires { reason.fits (reason_of tree.now) }
    ensures { OnOk result (writer.new ≡ write_all writer.old (reason.words (reason_of tree.now))) }
{
    writer.name(word_of_reason(tree).text())?;
    write_parts(tree, writer)
}

fn word_of_reason(tree: &ReasonTree<'_>) -> ReasonWord
    ensures { result ≡ word_of_reason (reason_of tree.now) }
{
    match tree {
        ReasonTree::Absurd => ReasonWord::Absurd,
        ReasonTree::Rewrite(_, _) => ReasonWord::Rewrite,
        ReasonTree::Split(_, _) => ReasonWord::Split,
        ReasonTree::Distinct(_, _) => ReasonWord::Distinct,
        ReasonTree::Weaken(_) => ReasonWord::Weaken,
        ReasonTree::Unfold(_) => ReasonWord::Unfold,
        ReasonTree::Cut(_, _) => ReasonWord::Cut,
        ReasonTree::Done => ReasonWord::Done,
        ReasonTree::Choose(_) => ReasonWord::Choose,
        ReasonTree::PureRight(_) => ReasonWord::PureRight,
        ReasonTree::Instantiate(_, _) => ReasonWord::Instantiate,
        ReasonTree::Frame(_, _) => ReasonWord::Frame,
        ReasonTree::UnfoldRight(_, _) => ReasonWord::UnfoldRight,
        ReasonTree::Exec => ReasonWord::Exec,
        ReasonTree::Drop(_) => ReasonWord::Drop,
        ReasonTree::Link(_) => ReasonWord::Link,
    }
}
