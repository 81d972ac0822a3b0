//! Reasons whose numbers and atoms lie in an arena.

ghost use Rattle.std.specs.Prelude.{◌≡◌, IfOk};
ghost use Rattle.proof_graph.specs.ReasonViews.{rule_of, link_of, reason_of};

use crate::heap_views::HeapView;
use bumpalo::Bump;
use cyc_basics::memory::OutOfMemory;
use heap_formula::{Link, Positions, Reason, Rule, Side, Subst, Term};
use std::alloc::Global;

/// A rule whose list of positions and formula lie in an arena.
#[derive(Clone, Copy)]
pub enum RuleView<'a> {
    Absurd,
    Rewrite(u32, Side),
    Split(Term, Term),
    Distinct(u32, u32),
    Weaken(u32),
    Unfold(u32),
    Cut(&'a [u32], HeapView<'a>),
    Done,
    Choose(u32),
    PureRight(u32),
    Instantiate(u16, Term),
    Frame(u32, u32),
    UnfoldRight(u32, u32),
    Exec,
    Drop(u32),
}

/// A link whose lists lie in an arena.
#[derive(Clone, Copy)]
pub struct LinkView<'a> {
    pub target: u32,
    pub subst: &'a [(u16, Term)],
    pub map: &'a [u32],
    pub disjuncts: &'a [u32],
}

/// A reason whose lists lie in an arena.
#[derive(Clone, Copy)]
pub enum ReasonView<'a> {
    Step(RuleView<'a>),
    Back(LinkView<'a>),
}

fn store_rule<'a>(arena: &'a Bump, rule: &Rule) -> Result<RuleView<'a>, OutOfMemory>
    ensures { IfOk result (λ r. rule_of r ≡ rule.now) }
{
    match rule {
        Rule::Absurd => Ok(RuleView::Absurd),
        Rule::Rewrite(k, side) => Ok(RuleView::Rewrite(*k, *side)),
        Rule::Split(t, u) => Ok(RuleView::Split(*t, *u)),
        Rule::Distinct(i, j) => Ok(RuleView::Distinct(*i, *j)),
        Rule::Weaken(k) => Ok(RuleView::Weaken(*k)),
        Rule::Unfold(k) => Ok(RuleView::Unfold(*k)),
        Rule::Cut(positions, formula) => {
            let positions: &'a [u32] = arena.try_alloc_slice_copy(positions.as_slice())?;
            Ok(RuleView::Cut(positions, HeapView::store(arena, formula)?))
        }
        Rule::Done => Ok(RuleView::Done),
        Rule::Choose(k) => Ok(RuleView::Choose(*k)),
        Rule::PureRight(k) => Ok(RuleView::PureRight(*k)),
        Rule::Instantiate(n, t) => Ok(RuleView::Instantiate(*n, *t)),
        Rule::Frame(i, j) => Ok(RuleView::Frame(*i, *j)),
        Rule::UnfoldRight(k, i) => Ok(RuleView::UnfoldRight(*k, *i)),
        Rule::Exec => Ok(RuleView::Exec),
        Rule::Drop(k) => Ok(RuleView::Drop(*k)),
    }
}

fn store_link<'a>(arena: &'a Bump, link: &Link) -> Result<LinkView<'a>, OutOfMemory>
    ensures { IfOk result (λ l. link_of l ≡ link.now) }
{
    let subst: &'a [(u16, Term)] = arena.try_alloc_slice_copy(link.subst.pairs())?;
    let map: &'a [u32] = arena.try_alloc_slice_copy(link.map.as_slice())?;
    let disjuncts: &'a [u32] = arena.try_alloc_slice_copy(link.disjuncts.as_slice())?;
    Ok(LinkView {
        target: link.target,
        subst,
        map,
        disjuncts,
    })
}

/// The reason, copied into the arena.
pub(crate) fn store_reason<'a>(
    arena: &'a Bump,
    reason: &Reason,
) -> Result<ReasonView<'a>, OutOfMemory>
    ensures { IfOk result (λ r. reason_of r ≡ reason.now) }
{
    match reason {
        Reason::Step(rule) => Ok(ReasonView::Step(store_rule(arena, rule)?)),
        Reason::Back(link) => Ok(ReasonView::Back(store_link(arena, link)?)),
    }
}

fn positions_from(alloc: Global, places: &[u32]) -> Result<Positions, OutOfMemory>
    ensures { IfOk result (λ p. p ≡ places.now) }
{
    Ok(Positions::from_vec(Vec::from_slice(alloc, places)?))
}

fn subst_from(alloc: Global, pairs: &[(u16, Term)]) -> Result<Subst, OutOfMemory>
    ensures { IfOk result (λ s. s ≡ pairs.now) }
{
    Ok(Subst::from_vec(Vec::from_slice(alloc, pairs)?))
}

impl<'a> RuleView<'a> {
    /// The rule, copied out of the arena.
    pub fn to_rule(&self, alloc: Global) -> Result<Rule, OutOfMemory>
        ensures { IfOk result (λ r. r ≡ rule_of self.now) }
    {
        match self {
            RuleView::Absurd => Ok(Rule::Absurd),
            RuleView::Rewrite(k, side) => Ok(Rule::Rewrite(*k, *side)),
            RuleView::Split(t, u) => Ok(Rule::Split(*t, *u)),
            RuleView::Distinct(i, j) => Ok(Rule::Distinct(*i, *j)),
            RuleView::Weaken(k) => Ok(Rule::Weaken(*k)),
            RuleView::Unfold(k) => Ok(Rule::Unfold(*k)),
            RuleView::Cut(positions, formula) => Ok(Rule::Cut(
                positions_from(alloc, positions)?,
                formula.to_heap(alloc)?,
            )),
            RuleView::Done => Ok(Rule::Done),
            RuleView::Choose(k) => Ok(Rule::Choose(*k)),
            RuleView::PureRight(k) => Ok(Rule::PureRight(*k)),
            RuleView::Instantiate(n, t) => Ok(Rule::Instantiate(*n, *t)),
            RuleView::Frame(i, j) => Ok(Rule::Frame(*i, *j)),
            RuleView::UnfoldRight(k, i) => Ok(Rule::UnfoldRight(*k, *i)),
            RuleView::Exec => Ok(Rule::Exec),
            RuleView::Drop(k) => Ok(Rule::Drop(*k)),
        }
    }
}

impl<'a> LinkView<'a> {
    /// The link, copied out of the arena.
    pub fn to_link(&self, alloc: Global) -> Result<Link, OutOfMemory>
        ensures { IfOk result (λ l. l ≡ link_of self.now) }
    {
        let subst = subst_from(alloc, self.subst)?;
        let map = positions_from(alloc, self.map)?;
        let disjuncts = positions_from(alloc, self.disjuncts)?;
        Ok(Link {
            target: self.target,
            subst,
            map,
            disjuncts,
        })
    }
}

impl<'a> ReasonView<'a> {
    /// The reason, copied out of the arena.
    pub fn to_reason(&self, alloc: Global) -> Result<Reason, OutOfMemory>
        ensures { IfOk result (λ r. r ≡ reason_of self.now) }
    {
        match self {
            ReasonView::Step(rule) => Ok(Reason::Step(rule.to_rule(alloc)?)),
            ReasonView::Back(link) => Ok(Reason::Back(link.to_link(alloc)?)),
        }
    }
}
