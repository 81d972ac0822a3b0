//! Reading the reason of a node.

ghost use Rattle.std.specs.Prelude.{Ok, map};
ghost use Rattle.cyc_grammar.specs.Syntax.{many, after, is_one, read_class};
ghost use Rattle.cyc_grammar.specs.Giving.{Gives, with_front};
ghost use Rattle.proof_syntax.specs.Grammar.{comma, side, rewrite, split, kept_cut, instantiate, pair, pairs1, pairs};
ghost use Rattle.proof_syntax.specs.Grammar.{link, kept_parts, reason_word, kept_reason, kept_parts_read};
ghost use Rattle.proof_syntax.specs.Trees.{heap_of, link_of, reason_of};

use crate::reason_word::{ReasonWord, side_from_text};
use crate::tree::{HeapTree, LinkTree, PairTree, ReasonTree, SideTree, TermTree};
use cyc_grammar::{Cursor, Refusal};
use heap_syntax::definitions::{kept_heap, universal_term};
use heap_syntax::{Keep, bracketed, two_numbers};
use std::alloc::Global;

#[tactic(auto, unfolding(crate::specs::Grammar::side))]
fn side(cursor: &mut Cursor<'_, '_>) -> Result<SideTree, Refusal>
    ensures { Gives (λ x. (x, cursor.new)) result (side.read cursor.old) }
{
    let Some(text) = cursor.any_name() else {
        return Err(Refusal::Dead(cursor.left()));
    };
    match side_from_text(text) {
        Some(side) => {
            cursor.skip();
            Ok(side)
        }
        None => Err(Refusal::Dead(cursor.left())),
    }
}

#[tactic(auto, unfolding(crate::specs::Grammar::rewrite))]
fn rewrite(cursor: &mut Cursor<'_, '_>) -> Result<(u32, SideTree), Refusal>
    ensures { Gives (λ x. ((x.0, x.1), cursor.new)) result (rewrite.read cursor.old) }
{
    let position = cursor.number()?;
    let side = side(cursor)?;
    Ok((position, side))
}

#[tactic(auto, unfolding(crate::specs::Grammar::split))]
fn split(cursor: &mut Cursor<'_, '_>) -> Result<(TermTree, TermTree), Refusal>
    ensures { Gives (λ x. ((x.0, x.1), cursor.new)) result (split.read cursor.old) }
{
    let left = universal_term(cursor)?;
    let right = universal_term(cursor)?;
    Ok((left, right))
}

#[tactic(auto, unfolding(crate::specs::Grammar::kept_cut))]
fn kept_cut<'a>(
    alloc: Global,
    keep: Keep,
    cursor: &mut Cursor<'_, 'a>,
) -> Result<(Vec<u32>, HeapTree<'a>), Refusal>
    ensures { Gives (λ x. ((x.0.items, heap_of x.1), cursor.new)) result ((kept_cut keep).read cursor.old) }
{
    let positions = bracketed(alloc, cursor)?;
    let formula = kept_heap(alloc, false, keep, cursor)?;
    Ok((positions, formula))
}

#[tactic(auto, unfolding(crate::specs::Grammar::instantiate))]
fn instantiate(cursor: &mut Cursor<'_, '_>) -> Result<(u32, TermTree), Refusal>
    ensures { Gives (λ x. ((x.0, x.1), cursor.new)) result (instantiate.read cursor.old) }
{
    cursor.symbol("?")?;
    let variable = cursor.number()?;
    let value = universal_term(cursor)?;
    Ok((variable, value))
}

#[tactic(auto, unfolding(crate::specs::Grammar::pair))]
fn pair(cursor: &mut Cursor<'_, '_>) -> Result<PairTree, Refusal>
    ensures { Gives (λ x. (x, cursor.new)) result (pair.read cursor.old) }
{
    cursor.symbol("$")?;
    let variable = cursor.number()?;
    cursor.symbol(":=")?;
    let value = universal_term(cursor)?;
    Ok(PairTree { variable, value })
}

/// Reads the entries of a substitution after some.
fn more_pairs(
    mut items: Vec<PairTree>,
    cursor: &mut Cursor<'_, '_>,
) -> Result<Vec<PairTree>, Refusal>
    ensures { Gives (λ x. (x.items, cursor.new)) result
        (with_front items.items ((many (is_one comma) (after comma pair)).read cursor.old)) }
{
    for _ in 0..cursor.left() {
        if !cursor.is_symbol_next(",") {
            return Ok(items);
        }
        cursor.symbol(",")?;
        items.push(pair(cursor)?)?;
    }
    if cursor.is_symbol_next(",") {
        return Err(Refusal::Dead(cursor.left()));
    }
    Ok(items)
}

#[tactic(auto, unfolding(crate::specs::Grammar::pairs, crate::specs::Grammar::pairs1))]
fn pairs(alloc: Global, cursor: &mut Cursor<'_, '_>) -> Result<Vec<PairTree>, Refusal>
    ensures { Gives (λ x. (x.items, cursor.new)) result (pairs.read cursor.old) }
{
    let mut items = Vec::new(alloc);
    if cursor.is_symbol_next("}") {
        cursor.symbol("}")?;
        return Ok(items);
    }
    items.push(pair(cursor)?)?;
    let items = more_pairs(items, cursor)?;
    cursor.symbol("}")?;
    Ok(items)
}

#[tactic(auto, unfolding(crate::specs::Grammar::link))]
fn link(alloc: Global, cursor: &mut Cursor<'_, '_>) -> Result<LinkTree, Refusal>
    ensures { Gives (λ x. (link_of x, cursor.new)) result (link.read cursor.old) }
{
    let target = cursor.number()?;
    cursor.symbol("{")?;
    let substitution = pairs(alloc, cursor)?;
    let map = bracketed(alloc, cursor)?;
    let disjuncts = bracketed(alloc, cursor)?;
    Ok(LinkTree {
        target,
        substitution,
        map,
        disjuncts,
    })
}

fn reason_word(cursor: &mut Cursor<'_, '_>) -> Result<ReasonWord, Refusal>
    ensures { Gives (λ x. (x, cursor.new)) result (read_class reason_word cursor.old) }
{
    let Some(text) = cursor.any_name() else {
        return Err(Refusal::Dead(cursor.left()));
    };
    match ReasonWord::from_text(text) {
        Some(word) => {
            cursor.skip();
            Ok(word)
        }
        None => Err(Refusal::Dead(cursor.left())),
    }
}

/// Reads what stands after the word of a reason.
#[tactic(auto, unfolding(crate::specs::Grammar::kept_parts))]
fn kept_parts<'a>(
    alloc: Global,
    keep: Keep,
    word: ReasonWord,
    cursor: &mut Cursor<'_, 'a>,
) -> Result<ReasonTree<'a>, Refusal>
    ensures { Gives (λ x. (reason_of x, cursor.new)) result (kept_parts_read keep word cursor.old) }
{
    match word {
        ReasonWord::Absurd => Ok(ReasonTree::Absurd),
        ReasonWord::Rewrite => {
            let (position, side) = rewrite(cursor)?;
            Ok(ReasonTree::Rewrite(position, side))
        }
        ReasonWord::Split => {
            let (left, right) = split(cursor)?;
            Ok(ReasonTree::Split(left, right))
        }
        ReasonWord::Distinct => {
            let (first, second) = two_numbers(cursor)?;
            Ok(ReasonTree::Distinct(first, second))
        }
        ReasonWord::Weaken => Ok(ReasonTree::Weaken(cursor.number()?)),
        ReasonWord::Unfold => Ok(ReasonTree::Unfold(cursor.number()?)),
        ReasonWord::Cut => {
            let (positions, formula) = kept_cut(alloc, keep, cursor)?;
            Ok(ReasonTree::Cut(positions, formula))
        }
        ReasonWord::Done => Ok(ReasonTree::Done),
        ReasonWord::Choose => Ok(ReasonTree::Choose(cursor.number()?)),
        ReasonWord::PureRight => Ok(ReasonTree::PureRight(cursor.number()?)),
        ReasonWord::Instantiate => {
            let (variable, value) = instantiate(cursor)?;
            Ok(ReasonTree::Instantiate(variable, value))
        }
        ReasonWord::Frame => {
            let (left, right) = two_numbers(cursor)?;
            Ok(ReasonTree::Frame(left, right))
        }
        ReasonWord::UnfoldRight => {
            let (atom, case) = two_numbers(cursor)?;
            Ok(ReasonTree::UnfoldRight(atom, case))
        }
        ReasonWord::Exec => Ok(ReasonTree::Exec),
        ReasonWord::Drop => Ok(ReasonTree::Drop(cursor.number()?)),
        ReasonWord::Link => Ok(ReasonTree::Link(link(alloc, cursor)?)),
    }
}

/// Reads a reason; so much is kept of the lists of its heap.
#[tactic(auto, unfolding(crate::specs::Grammar::kept_reason))]
pub fn kept_reason<'a>(
    alloc: Global,
    keep: Keep,
    cursor: &mut Cursor<'_, 'a>,
) -> Result<ReasonTree<'a>, Refusal>
    ensures { Gives (λ x. (reason_of x, cursor.new)) result ((kept_reason keep).read cursor.old) }
{
    let word = reason_word(cursor)?;
    kept_parts(alloc, keep, word, cursor)
}
