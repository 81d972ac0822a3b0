// Values of trees that fit them.
ghost use Rattle.std.specs.Prelude.{◌≡◌, ◌<◌, ◌≤◌, length, map, IfOk};
ghost use Rattle.heap_formula.specs.Words.{Each};
ghost use Rattle.proof_syntax.specs.Trees.{judgement_of, link_of, reason_of, node_of};
ghost use Rattle.proof_file.specs.Small.{IsSmallJudgement, IsSmallPair, IsSmallReason, IsSmallNode};
ghost use Rattle.proof_file.specs.Values.{judgement_value, side_value, pair_value, link_value, reason_value};
ghost use Rattle.proof_file.specs.Values.{node_value};

use crate::node::FileNode;
use cyc_basics::limits::MOST_PREDICATES;
use cyc_basics::memory::OutOfMemory;
use heap_formula::{Judgement, Link, Positions, Reason, Rule, Side, Subst};
use heap_reader::definitions::Scope;
use heap_reader::{Heads, TermReader, entailment_value, heap_value};
use logics::Numbers;
use proof_syntax::{JudgementTree, LinkTree, NodeTree, PairTree, ReasonTree, SideTree};
use std::alloc::Global;

fn judgement(
    alloc: Global,
    heads: &Heads<'_>,
    tree: &JudgementTree<'_>,
) -> Result<Judgement, OutOfMemory>
    requires small { IsSmallJudgement (judgement_of tree.now) }
    requires few { length heads.now ≤ MOST_PREDICATES }
    ensures { IfOk result (λ j. j ≡ judgement_value heads.now (judgement_of tree.now)) }
{
    match tree {
        JudgementTree::Entailment(tree) => {
            entailment_value(
                alloc,
                heads,
                &Scope::Outside,
                &tree.antecedent,
                &tree.disjuncts,
            )
        }
        JudgementTree::From(line, tree) => {
            let state = heap_value(alloc, heads, &Scope::Outside, tree)?;
            Ok(Judgement::Term(*line, state))
        }
    }
}

fn side(tree: SideTree) -> Side
    ensures { result ≡ side_value tree }
{
    match tree {
        SideTree::Left => Side::Left,
        SideTree::Right => Side::Right,
    }
}

fn positions(alloc: Global, numbers: &[u32]) -> Result<Positions, OutOfMemory>
    ensures { IfOk result (λ p. p ≡ numbers.now) }
{
    Ok(Positions::from_vec(Vec::from_slice(alloc, numbers)?))
}

fn substitution(alloc: Global, trees: &[PairTree]) -> Result<Subst, OutOfMemory>
    requires { Each IsSmallPair trees.now }
    ensures { IfOk result (λ s. s ≡ map pair_value trees.now) }
{
    let mut pairs = Vec::with_capacity(alloc, trees.len())?;
    for tree in trees {
        pairs.push((tree.variable as u16, Scope::Outside.value(tree.value)))?;
    }
    Ok(Subst::from_vec(pairs))
}

fn link(alloc: Global, tree: &LinkTree) -> Result<Link, OutOfMemory>
    requires { Each IsSmallPair (link_of tree.now).substitution }
    ensures { IfOk result (λ l. l ≡ link_value (link_of tree.now)) }
{
    let subst = substitution(alloc, &tree.substitution)?;
    let map = positions(alloc, &tree.map)?;
    let disjuncts = positions(alloc, &tree.disjuncts)?;
    Ok(Link {
        target: tree.target,
        subst,
        map,
        disjuncts,
    })
}

fn reason(alloc: Global, heads: &Heads<'_>, tree: &ReasonTree<'_>) -> Result<Reason, OutOfMemory>
    requires small { IsSmallReason (reason_of tree.now) }
    requires few { length heads.now ≤ MOST_PREDICATES }
    ensures { IfOk result (λ r. r ≡ reason_value heads.now (reason_of tree.now)) }
{
    let rule = match tree {
        ReasonTree::Link(tree) => return Ok(Reason::Back(link(alloc, tree)?)),
        ReasonTree::Cut(places, formula) => {
            Rule::Cut(
                positions(alloc, places)?,
                heap_value(alloc, heads, &Scope::Outside, formula)?,
            )
        }
        ReasonTree::Absurd => Rule::Absurd,
        ReasonTree::Rewrite(k, named) => Rule::Rewrite(*k, side(*named)),
        ReasonTree::Split(left, right) => Rule::Split(
            Scope::Outside.value(*left),
            Scope::Outside.value(*right),
        ),
        ReasonTree::Distinct(i, j) => Rule::Distinct(*i, *j),
        ReasonTree::Weaken(k) => Rule::Weaken(*k),
        ReasonTree::Unfold(k) => Rule::Unfold(*k),
        ReasonTree::Done => Rule::Done,
        ReasonTree::Choose(j) => Rule::Choose(*j),
        ReasonTree::PureRight(k) => Rule::PureRight(*k),
        ReasonTree::Instantiate(v, value) => Rule::Instantiate(
            *v as u16,
            Scope::Outside.value(*value),
        ),
        ReasonTree::Frame(i, j) => Rule::Frame(*i, *j),
        ReasonTree::UnfoldRight(j, c) => Rule::UnfoldRight(*j, *c),
        ReasonTree::Exec => Rule::Exec,
        ReasonTree::Drop(k) => Rule::Drop(*k),
    };
    Ok(Reason::Step(rule))
}

/// What a node says.
pub fn value_of_node(
    alloc: Global,
    heads: &Heads<'_>,
    tree: &NodeTree<'_>,
) -> Result<FileNode, OutOfMemory>
    requires small { IsSmallNode (node_of tree.now) }
    requires few { length heads.now ≤ MOST_PREDICATES }
    ensures { IfOk result (λ n. n ≡ node_value heads.now (node_of tree.now)) }
{
    let judgement = judgement(alloc, heads, &tree.judgement)?;
    let reason = reason(alloc, heads, &tree.reason)?;
    let premises = Numbers::from_vec(Vec::from_slice(alloc, &tree.premises)?);
    Ok(FileNode {
        judgement,
        reason,
        premises,
    })
}
