// Files as trees, with the names of predicates borrowed from the definitions.
ghost use Rattle.std.specs.Prelude.{◌≡◌, map, IfOk};
ghost use Rattle.proof_syntax.specs.Trees.{judgement_of, link_of, reason_of, node_of, file_of};
ghost use Rattle.proof_file.specs.Written.{judgement_tree, side_tree, pair_tree, link_tree, rule_tree, reason_tree};
ghost use Rattle.proof_file.specs.Written.{node_tree, tree_of};

use crate::texts::line_trees::lines;
use crate::{FileNode, ProofFile};
use cyc_basics::memory::OutOfMemory;
use heap_formula::{Def, Judgement, Link, Reason, Rule, Side, Term};
use heap_reader::definitions::{definition_trees, heap_tree, heap_trees, term_tree};
use heap_reader::ends::end_trees;
use proof_syntax::{
    EntailmentTree, FileTree, JudgementTree, LinkTree, NodeTree, PairTree, ReasonTree, SideTree,
};
use std::alloc::Global;

fn judgement<'a>(
    alloc: Global,
    defs: &'a [Def],
    value: &Judgement,
) -> Result<JudgementTree<'a>, OutOfMemory>
    ensures { IfOk result (λ j. judgement_of j ≡ judgement_tree defs.now value.now) }
{
    match value {
        Judgement::Entail(left, right) => {
            let antecedent = heap_tree(alloc, defs, left)?;
            let disjuncts = heap_trees(alloc, defs, right.heaps())?;
            Ok(JudgementTree::Entailment(EntailmentTree {
                antecedent,
                disjuncts,
            }))
        }
        Judgement::Term(line, state) => {
            Ok(JudgementTree::From(*line, heap_tree(alloc, defs, state)?))
        }
    }
}

fn side(value: Side) -> SideTree
    ensures { result ≡ side_tree value }
{
    match value {
        Side::Left => SideTree::Left,
        Side::Right => SideTree::Right,
    }
}

fn pairs(alloc: Global, values: &[(u16, Term)]) -> Result<Vec<PairTree>, OutOfMemory>
    ensures { IfOk result (λ v. v.items ≡ map pair_tree values.now) }
{
    let mut trees = Vec::with_capacity(alloc, values.len())?;
    for (variable, value) in values {
        trees.push(PairTree {
            variable: u32::from(*variable),
            value: term_tree(*value),
        })?;
    }
    Ok(trees)
}

fn link(alloc: Global, value: &Link) -> Result<LinkTree, OutOfMemory>
    ensures { IfOk result (λ l. link_of l ≡ link_tree value.now) }
{
    let substitution = pairs(alloc, value.subst.pairs())?;
    let map = Vec::from_slice(alloc, value.map.as_slice())?;
    let disjuncts = Vec::from_slice(alloc, value.disjuncts.as_slice())?;
    Ok(LinkTree {
        target: value.target,
        substitution,
        map,
        disjuncts,
    })
}

fn rule<'a>(alloc: Global, defs: &'a [Def], value: &Rule) -> Result<ReasonTree<'a>, OutOfMemory>
    ensures { IfOk result (λ r. reason_of r ≡ rule_tree defs.now value.now) }
{
    Ok(match value {
        Rule::Absurd => ReasonTree::Absurd,
        Rule::Rewrite(k, named) => ReasonTree::Rewrite(*k, side(*named)),
        Rule::Split(left, right) => ReasonTree::Split(term_tree(*left), term_tree(*right)),
        Rule::Distinct(i, j) => ReasonTree::Distinct(*i, *j),
        Rule::Weaken(k) => ReasonTree::Weaken(*k),
        Rule::Unfold(k) => ReasonTree::Unfold(*k),
        Rule::Cut(places, formula) => {
            let places = Vec::from_slice(alloc, places.as_slice())?;
            ReasonTree::Cut(places, heap_tree(alloc, defs, formula)?)
        }
        Rule::Done => ReasonTree::Done,
        Rule::Choose(j) => ReasonTree::Choose(*j),
        Rule::PureRight(k) => ReasonTree::PureRight(*k),
        Rule::Instantiate(v, value) => ReasonTree::Instantiate(u32::from(*v), term_tree(*value)),
        Rule::Frame(i, j) => ReasonTree::Frame(*i, *j),
        Rule::UnfoldRight(j, c) => ReasonTree::UnfoldRight(*j, *c),
        Rule::Exec => ReasonTree::Exec,
        Rule::Drop(k) => ReasonTree::Drop(*k),
    })
}

fn reason<'a>(alloc: Global, defs: &'a [Def], value: &Reason) -> Result<ReasonTree<'a>, OutOfMemory>
    ensures { IfOk result (λ r. reason_of r ≡ reason_tree defs.now value.now) }
{
    match value {
        Reason::Step(step) => rule(alloc, defs, step),
        Reason::Back(back) => Ok(ReasonTree::Link(link(alloc, back)?)),
    }
}

fn node<'a>(alloc: Global, defs: &'a [Def], value: &FileNode) -> Result<NodeTree<'a>, OutOfMemory>
    ensures { IfOk result (λ n. node_of n ≡ node_tree defs.now value.now) }
{
    let judgement = judgement(alloc, defs, &value.judgement)?;
    let reason = reason(alloc, defs, &value.reason)?;
    let premises = Vec::from_slice(alloc, value.premises.as_slice())?;
    Ok(NodeTree {
        judgement,
        reason,
        premises,
    })
}

fn nodes<'a>(
    alloc: Global,
    defs: &'a [Def],
    values: &[FileNode],
) -> Result<Vec<NodeTree<'a>>, OutOfMemory>
    ensures { IfOk result (λ v. map node_of v.items ≡ map (node_tree defs.now) values.now) }
{
    let mut trees = Vec::with_capacity(alloc, values.len())?;
    for value in values {
        trees.push(node(alloc, defs, value)?)?;
    }
    Ok(trees)
}

/// The tree of a file.
pub fn file_tree<'a>(alloc: Global, file: &'a ProofFile) -> Result<FileTree<'a>, OutOfMemory>
    ensures { IfOk result (λ t. file_of t
        ≡ tree_of file.now.version file.now.defs.list file.now.program file.now.nodes) }
{
    let defs = file.defs.as_slice();
    let definitions = definition_trees(alloc, defs)?;
    let lines = lines(alloc, &file.program)?;
    let ends = end_trees(alloc, defs, &file.program)?;
    let nodes = nodes(alloc, defs, file.nodes.as_slice())?;
    Ok(FileTree {
        version: file.version,
        definitions,
        lines,
        ends,
        nodes,
    })
}
