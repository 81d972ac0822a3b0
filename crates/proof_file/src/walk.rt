// A walk over a node's tree in the order of its tokens, up to the first flaw. Each function is given the number of the
// part's first token and gives that of the token after it and the one that follows every part of its kind. `most` are
// the limits of the file's version.
ghost use Rattle.std.specs.Prelude.{◌≡◌, ◌+◌, ◌<◌, ◌^◌, nat_lt};
ghost use Rattle.cyc_lex.specs.declared.fault.What.TheVariants.{Variable};
ghost use Rattle.proof_syntax.specs.Trees.{heap_of, entailment_of, judgement_of, link_of, reason_of, node_of};
ghost use Rattle.heap_reader.specs.Spans.{total, total_or, heap_span, premises_rest};
ghost use Rattle.heap_reader.specs.Flaws.{or_later, over_if, listed_flaw, IsWalk};
ghost use Rattle.proof_file.specs.Spans.{term_span, entailment_span, judgement_span, pair_span, link_span, reason_span};
ghost use Rattle.proof_file.specs.Spans.{node_span};
ghost use Rattle.proof_file.specs.Flaws.{term_flaw, entailment_flaw, state_flaw, judgement_flaw, pair_flaw};
ghost use Rattle.proof_file.specs.Flaws.{reason_flaw, node_flaw};
ghost use Rattle.heap_reader.specs.declared.definitions.scope.Scope.TheVariants.{Outside};

use cyc_basics::limits::{GREATEST_VARIABLE, Limits, MOST_NODES};
use cyc_lex::{IllFault, What};
use heap_reader::definitions::Scope;
use heap_reader::{Flaw, Heads, TermReader, ill, over, walk_heap, walk_heaps};
use proof_syntax::{
    EntailmentTree, HeapTree, JudgementTree, LinkTree, NodeTree, PairTree, ReasonTree, TermTree,
};

fn entailment(
    heads: &Heads<'_>,
    most: Limits,
    at: usize,
    tree: &EntailmentTree<'_>,
) -> Result<usize, Flaw>
    requires { at + entailment_span (entailment_of tree.now) < 2 ^ 64 }
    ensures { IsWalk result
        (entailment_flaw most heads.now at (entailment_of tree.now)) (at + entailment_span (entailment_of tree.now)) }
{
    let right = walk_heap(heads, &Scope::Outside, most, at, &tree.antecedent)?;
    walk_heaps(
        heads,
        &Scope::Outside,
        most,
        What::Disjuncts,
        right,
        &tree.disjuncts,
    )
}

/// The number of a line, one of so many, and the symbolic state there.
fn state(
    heads: &Heads<'_>,
    most: Limits,
    count: usize,
    at: usize,
    line: u32,
    tree: &HeapTree<'_>,
) -> Result<usize, Flaw>
    requires { at + 3 + heap_span term_span (heap_of tree.now) < 2 ^ 64 }
    ensures { IsWalk result
        (state_flaw most heads.now count at line (heap_of tree.now)) (at + 3 + heap_span term_span (heap_of tree.now)) }
{
    if line == 0 || line as usize > count {
        return Err(ill(IllFault::NoLine, at + 1));
    }
    walk_heap(heads, &Scope::Outside, most, at + 3, tree)
}

fn judgement(
    heads: &Heads<'_>,
    most: Limits,
    count: usize,
    at: usize,
    tree: &JudgementTree<'_>,
) -> Result<usize, Flaw>
    requires { at + judgement_span (judgement_of tree.now) < 2 ^ 64 }
    ensures { IsWalk result
        (judgement_flaw most heads.now count at (judgement_of tree.now)) (at + judgement_span (judgement_of tree.now)) }
{
    match tree {
        JudgementTree::Entailment(tree) => entailment(heads, most, at, tree),
        JudgementTree::From(line, tree) => state(heads, most, count, at, *line, tree),
    }
}

fn pair(at: usize, tree: PairTree) -> Result<usize, Flaw>
    requires { at + pair_span tree < 2 ^ 64 }
    ensures { IsWalk result (pair_flaw at tree) (at + pair_span tree) }
{
    if tree.variable > GREATEST_VARIABLE {
        return Err(over(What::Variable, at + 1));
    }
    Scope::Outside.walk(at + 3, tree.value)
}

fn pairs(at: usize, trees: &[PairTree]) -> Result<usize, Flaw>
    requires { at + total pair_span trees.now < 2 ^ 64 }
    ensures { IsWalk result (listed_flaw (λ n. pair_flaw) pair_span 0 at trees.now) (at + total pair_span trees.now) }
{
    let mut next = at;
    for tree in trees {
        next = pair(next, *tree)?;
    }
    Ok(next)
}

/// The pairs of a substitution and the brace after them.
fn pair_part(at: usize, trees: &[PairTree]) -> Result<usize, Flaw>
    requires { at + total_or 1 pair_span trees.now < 2 ^ 64 }
    ensures { IsWalk result
        (listed_flaw (λ n. pair_flaw) pair_span 0 at trees.now) (at + total_or 1 pair_span trees.now) }
{
    match trees {
        [] => Ok(at + 1),
        _ => pairs(at, trees),
    }
}

fn link(at: usize, tree: &LinkTree) -> Result<usize, Flaw>
    requires { at + link_span (link_of tree.now) < 2 ^ 64 }
    ensures { IsWalk result (listed_flaw (λ n. pair_flaw) pair_span 0 (at + 3) (link_of tree.now).substitution)
        (at + link_span (link_of tree.now)) }
{
    let behind = pair_part(at + 3, &tree.substitution)?;
    Ok(behind + (2 + tree.map.len()) + (2 + tree.disjuncts.len()) + 1)
}

fn instantiate(at: usize, variable: u32, tree: TermTree) -> Result<usize, Flaw>
    requires { at + 3 + term_span tree < 2 ^ 64 }
    ensures { IsWalk result
        (or_later (over_if (nat_lt GREATEST_VARIABLE variable) Variable (at + 2))
        (term_flaw Outside (at + 3) tree)) (at + 3 + term_span tree) }
{
    if variable > GREATEST_VARIABLE {
        return Err(over(What::Variable, at + 2));
    }
    Scope::Outside.walk(at + 3, tree)
}

fn split(at: usize, left: TermTree, right: TermTree) -> Result<usize, Flaw>
    requires { at + term_span left + term_span right < 2 ^ 64 }
    ensures { IsWalk result (or_later (term_flaw Outside (at + 1) left) (term_flaw Outside (at + term_span left) right))
        (at + term_span left + term_span right) }
{
    let behind = Scope::Outside.walk(at + 1, left)?;
    Scope::Outside.walk(behind - 1, right)
}

fn reason(heads: &Heads<'_>, most: Limits, at: usize, tree: &ReasonTree<'_>) -> Result<usize, Flaw>
    requires { at + reason_span (reason_of tree.now) < 2 ^ 64 }
    ensures { IsWalk result
        (reason_flaw most heads.now at (reason_of tree.now)) (at + reason_span (reason_of tree.now)) }
{
    match tree {
        ReasonTree::Absurd | ReasonTree::Done | ReasonTree::Exec => Ok(at + 2),
        ReasonTree::Weaken(_)
        | ReasonTree::Unfold(_)
        | ReasonTree::Choose(_)
        | ReasonTree::PureRight(_)
        | ReasonTree::Drop(_) => Ok(at + 3),
        ReasonTree::Rewrite(_, _)
        | ReasonTree::Distinct(_, _)
        | ReasonTree::Frame(_, _)
        | ReasonTree::UnfoldRight(_, _) => Ok(at + 4),
        ReasonTree::Split(left, right) => split(at, *left, *right),
        ReasonTree::Cut(places, formula) => {
            walk_heap(heads, &Scope::Outside, most, at + 3 + places.len(), formula)
        }
        ReasonTree::Instantiate(variable, term) => instantiate(at, *variable, *term),
        ReasonTree::Link(tree) => link(at, tree),
    }
}

fn premises(at: usize, numbers: &[u32]) -> usize
    requires { at + premises_rest numbers.now < 2 ^ 64 }
    ensures { result ≡ at + premises_rest numbers.now }
{
    match numbers {
        [] => at,
        _ => at + numbers.len() + 1,
    }
}

/// A node of a file that has so many lines.
pub fn walk_node(
    heads: &Heads<'_>,
    most: Limits,
    count: usize,
    n: usize,
    at: usize,
    tree: &NodeTree<'_>,
) -> Result<usize, Flaw>
    requires { at + node_span (node_of tree.now) < 2 ^ 64 }
    ensures { IsWalk result
        (node_flaw most heads.now count n at (node_of tree.now)) (at + node_span (node_of tree.now)) }
{
    if n >= MOST_NODES {
        return Err(over(What::Nodes, at));
    }
    let by = judgement(heads, most, count, at + 1, &tree.judgement)?;
    let behind = reason(heads, most, by, &tree.reason)?;
    Ok(premises(behind, &tree.premises))
}
