//! Writing the reason of a node.

ghost use Rattle.std.specs.Prelude.{◌≡◌, map, OnOk, false};
ghost use Rattle.cyc_lex.specs.Writing.{write_all};
ghost use Rattle.fo_syntax.specs.ProofGrammar.{right_rule, link, reason, behind_word, FitsBehind};
ghost use Rattle.fo_syntax.specs.ProofTrees.{signs_of, link_of, reason_of, word_of_reason};

use crate::proofs::reason_word::{ReasonWord, text_of_side};
use crate::proofs::term_lists::{write_entries, write_terms};
use crate::proofs::tree::{LinkTree, ReasonTree};
use crate::terms::{SignTree, write_atom};
use cyc_basics::memory::OutOfMemory;
use cyc_lex::WordWriter;
use heap_syntax::writing::write_bracketed;
use std::alloc::Global;

#[tactic(auto, unfolding(crate::specs::ProofGrammar::right_rule, cyc_lex::specs::Writing::write_all))]
fn write_right(
    alloc: Global,
    atom: u32,
    case: u32,
    terms: &[Vec<SignTree<'_>>],
    writer: &mut WordWriter,
) -> Result<(), OutOfMemory>
    requires { right_rule.fits (atom, (case, map signs_of terms.now)) }
    ensures { OnOk result (writer.new
        ≡ write_all writer.old (right_rule.words (atom, (case, map signs_of terms.now)))) }
{
    writer.number(atom)?;
    writer.number(case)?;
    writer.symbol("[")?;
    write_terms(alloc, terms, writer)
}

#[tactic(auto, using(cyc_lex::proofs::WritingLaws::write_all_on), unfolding(crate::specs::ProofGrammar::link, cyc_lex::specs::Writing::write_all))]
fn write_link(
    alloc: Global,
    tree: &LinkTree<'_>,
    writer: &mut WordWriter,
) -> Result<(), OutOfMemory>
    requires { link.fits (link_of tree.now) }
    ensures { OnOk result (writer.new ≡ write_all writer.old (link.words (link_of tree.now))) }
{
    writer.number(tree.target)?;
    writer.symbol("{")?;
    write_entries(alloc, &tree.substitution, writer)?;
    write_bracketed(&tree.left, writer)?;
    write_bracketed(&tree.right, writer)
}

#[tactic(auto, using(cyc_lex::proofs::WritingLaws::write_all_on), unfolding(crate::specs::ProofGrammar::replace, heap_syntax::specs::Numbers::two_numbers, cyc_lex::specs::Writing::write_all))]
fn write_parts(
    alloc: Global,
    tree: &ReasonTree<'_>,
    writer: &mut WordWriter,
) -> Result<(), OutOfMemory>
    requires { FitsBehind (reason_of tree.now) }
    ensures { OnOk result (writer.new ≡ write_all writer.old (behind_word (reason_of tree.now))) }
{
    match tree {
        ReasonTree::Axiom(left, right) => {
            writer.number(*left)?;
            writer.number(*right)
        }
        ReasonTree::Refl(atom)
        | ReasonTree::Clash(atom)
        | ReasonTree::Decompose(atom)
        | ReasonTree::WeakenLeft(atom)
        | ReasonTree::WeakenRight(atom)
        | ReasonTree::Contract(atom)
        | ReasonTree::Unfold(atom) => writer.number(*atom),
        ReasonTree::Replace(atom, side) => {
            writer.number(*atom)?;
            writer.name(text_of_side(*side))
        }
        ReasonTree::Cut(atom) => write_atom(alloc, false, atom, writer),
        ReasonTree::Right(atom, case, terms) => write_right(alloc, *atom, *case, terms, writer),
        ReasonTree::Link(link) => write_link(alloc, link, writer),
    }
}

fn word_of_reason(tree: &ReasonTree<'_>) -> ReasonWord
    ensures { result ≡ word_of_reason (reason_of tree.now) }
{
    match tree {
        ReasonTree::Axiom(_, _) => ReasonWord::Axiom,
        ReasonTree::Refl(_) => ReasonWord::Refl,
        ReasonTree::Clash(_) => ReasonWord::Clash,
        ReasonTree::Decompose(_) => ReasonWord::Decompose,
        ReasonTree::Replace(_, _) => ReasonWord::Replace,
        ReasonTree::WeakenLeft(_) => ReasonWord::WeakenLeft,
        ReasonTree::WeakenRight(_) => ReasonWord::WeakenRight,
        ReasonTree::Contract(_) => ReasonWord::Contract,
        ReasonTree::Unfold(_) => ReasonWord::Unfold,
        ReasonTree::Cut(_) => ReasonWord::Cut,
        ReasonTree::Right(_, _, _) => ReasonWord::Right,
        ReasonTree::Link(_) => ReasonWord::Link,
    }
}

pub fn write_reason(
    alloc: Global,
    tree: &ReasonTree<'_>,
    writer: &mut WordWriter,
) -> Result<(), OutOfMemory>
    requires { reason.fits (reason_of tree.now) }
    ensures { OnOk result (writer.new ≡ write_all writer.old (reason.words (reason_of tree.now))) }
{
    writer.name(word_of_reason(tree).text())?;
    write_parts(alloc, tree, writer)
}
