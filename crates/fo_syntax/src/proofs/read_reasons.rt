//! Reading the reason of a node.

ghost use Rattle.std.specs.Prelude.{Ok, map, false};
ghost use Rattle.cyc_grammar.specs.Syntax.{read_class};
ghost use Rattle.cyc_grammar.specs.Giving.{Gives};
ghost use Rattle.fo_syntax.specs.ProofWords.{side_word, reason_word};
ghost use Rattle.fo_syntax.specs.ProofGrammar.{replace, right_rule, link, parts, reason, parts_read};
ghost use Rattle.fo_syntax.specs.ProofTrees.{signs_of, link_of, reason_of};

use crate::proofs::reason_word::{ReasonWord, side_from_text};
use crate::proofs::term_lists::{entries, terms};
use crate::proofs::tree::{LinkTree, ReasonTree, SideTree};
use crate::terms::{SignTree, atom};
use cyc_grammar::{Cursor, Refusal};
use heap_syntax::{bracketed, two_numbers};
use std::alloc::Global;

fn side(cursor: &mut Cursor<'_, '_>) -> Result<SideTree, Refusal>
    ensures { Gives (λ x. (x, cursor.new)) result (read_class side_word cursor.old) }
{
    let Some(text) = cursor.any_name() else {
        return Err(Refusal::Dead(cursor.left()));
    };
    match side_from_text(text) {
        Some(side) => {
            cursor.skip();
            Ok(side)
        }
        None => Err(Refusal::Dead(cursor.left())),
    }
}

#[tactic(auto, unfolding(crate::specs::ProofGrammar::replace))]
fn replace(cursor: &mut Cursor<'_, '_>) -> Result<(u32, SideTree), Refusal>
    ensures { Gives (λ x. ((x.0, x.1), cursor.new)) result (replace.read cursor.old) }
{
    let atom = cursor.number()?;
    let side = side(cursor)?;
    Ok((atom, side))
}

/// The numbers of an atom on the right and of a case, and the terms for the locals of the case.
#[tactic(auto, unfolding(crate::specs::ProofGrammar::right_rule))]
fn right_rule<'a>(
    alloc: Global,
    cursor: &mut Cursor<'_, 'a>,
) -> Result<(u32, u32, Vec<Vec<SignTree<'a>>>), Refusal>
    ensures { Gives (λ x. ((x.0, (x.1, map signs_of x.2.items)), cursor.new)) result (right_rule.read cursor.old) }
{
    let atom = cursor.number()?;
    let case = cursor.number()?;
    cursor.symbol("[")?;
    let terms = terms(alloc, cursor)?;
    Ok((atom, case, terms))
}

#[tactic(auto, unfolding(crate::specs::ProofGrammar::link))]
fn link<'a>(alloc: Global, cursor: &mut Cursor<'_, 'a>) -> Result<LinkTree<'a>, Refusal>
    ensures { Gives (λ x. (link_of x, cursor.new)) result (link.read cursor.old) }
{
    let target = cursor.number()?;
    cursor.symbol("{")?;
    let substitution = entries(alloc, cursor)?;
    let left = bracketed(alloc, cursor)?;
    let right = bracketed(alloc, cursor)?;
    Ok(LinkTree {
        target,
        substitution,
        left,
        right,
    })
}

fn reason_word(cursor: &mut Cursor<'_, '_>) -> Result<ReasonWord, Refusal>
    ensures { Gives (λ x. (x, cursor.new)) result (read_class reason_word cursor.old) }
{
    let Some(text) = cursor.any_name() else {
        return Err(Refusal::Dead(cursor.left()));
    };
    match ReasonWord::from_text(text) {
        Some(word) => {
            cursor.skip();
            Ok(word)
        }
        None => Err(Refusal::Dead(cursor.left())),
    }
}

/// Reads what stands after the word of a reason.
#[tactic(auto, unfolding(crate::specs::ProofGrammar::parts))]
fn parts<'a>(
    alloc: Global,
    word: ReasonWord,
    cursor: &mut Cursor<'_, 'a>,
) -> Result<ReasonTree<'a>, Refusal>
    ensures { Gives (λ x. (reason_of x, cursor.new)) result (parts_read word cursor.old) }
{
    match word {
        ReasonWord::Axiom => {
            let (left, right) = two_numbers(cursor)?;
            Ok(ReasonTree::Axiom(left, right))
        }
        ReasonWord::Refl => Ok(ReasonTree::Refl(cursor.number()?)),
        ReasonWord::Clash => Ok(ReasonTree::Clash(cursor.number()?)),
        ReasonWord::Decompose => Ok(ReasonTree::Decompose(cursor.number()?)),
        ReasonWord::Replace => {
            let (atom, side) = replace(cursor)?;
            Ok(ReasonTree::Replace(atom, side))
        }
        ReasonWord::WeakenLeft => Ok(ReasonTree::WeakenLeft(cursor.number()?)),
        ReasonWord::WeakenRight => Ok(ReasonTree::WeakenRight(cursor.number()?)),
        ReasonWord::Contract => Ok(ReasonTree::Contract(cursor.number()?)),
        ReasonWord::Unfold => Ok(ReasonTree::Unfold(cursor.number()?)),
        ReasonWord::Cut => Ok(ReasonTree::Cut(atom(alloc, false, cursor)?)),
        ReasonWord::Right => {
            let (atom, case, terms) = right_rule(alloc, cursor)?;
            Ok(ReasonTree::Right(atom, case, terms))
        }
        ReasonWord::Link => Ok(ReasonTree::Link(link(alloc, cursor)?)),
    }
}

#[tactic(auto, unfolding(crate::specs::ProofGrammar::reason))]
pub fn reason<'a>(alloc: Global, cursor: &mut Cursor<'_, 'a>) -> Result<ReasonTree<'a>, Refusal>
    ensures { Gives (λ x. (reason_of x, cursor.new)) result (reason.read cursor.old) }
{
    let word = reason_word(cursor)?;
    parts(alloc, word, cursor)
}
