// A partial derivation: the nodes made, the open goals, and the trace graph of the nodes.
ghost use Rattle.std.specs.Prelude.{◌≡◌, ◌<◌, [], length};

use crate::logic::{Effect, Logic};
use crate::search::Tried;
use crate::tableaux::{
    GrowingTraces, MadeNode, OpenGoal, drop_goals, first_goal, has_room, is_above, push_goals,
    tried,
};
use cyc_basics::memory::OutOfMemory;
use std::alloc::Global;
use trace_pairs::{Edge, TraceGraph};

/// A partial derivation of a judgement of a logic, with at most `limit` nodes. The goals stand on a stack, the next one
/// on top. The trace graph has the nodes made.
#[derive(Drop)]
pub struct Derivation<L, J, R> {
    pub logic: L,
    pub limit: u32,
    pub root: J,
    pub made: Vec<MadeNode<J, R>>,
    pub goals: Vec<OpenGoal<J>>,
    pub traces: GrowingTraces,
}

impl<L: Logic> Derivation<L, L::Judgement, L::Reason> {
    ghost use Rattle.std.specs.Prelude.{◌∷◌, true, IfOk, OnOk};
    ghost use Rattle.derivations.specs.System.{after};
    ghost use Rattle.derivations.specs.Stack.{front};
    ghost use Rattle.derivations.specs.Engine.{FaresSo};
    ghost use Rattle.derivations.specs.Tableau.{root_goal};
    ghost use Rattle.derivations.specs.Fair.{IsFair};
    ghost use Rattle.derivations.specs.Room.{is_nil};
    ghost use Rattle.derivations.specs.Derivations.{IsInOrder, MayTake, reasons_in, goals_in, about, search_in};
    ghost use Rattle.derivations.specs.Derivations.{IsNextEffect, IsFitting, next_graph, room_at};

    /// Nothing is made, and the goal is open. The judgement is passed twice, to be kept and to be proved.
    pub fn new(
        alloc: Global,
        logic: L,
        limit: u32,
        root: L::Judgement,
        goal: L::Judgement,
    ) -> Result<Derivation<L, L::Judgement, L::Reason>, OutOfMemory>
        requires same { goal ≡ root }
        requires fair { IsFair (L.calculus logic) (L.occurs logic) (L.allows logic) }
        requires occurs { L.occurs logic root }
        requires some_node { 0 < limit }
        ensures order { IfOk result (IsInOrder L.calculus L.occurs L.allows) }
        ensures subject { IfOk result (λ s. about s ≡ (logic, (limit, root))) }
        ensures nothing { IfOk result (λ s. reasons_in s ≡ []) }
        ensures goals { IfOk result (λ s. s.goals.items ≡ root_goal root ∷ []) }
    {
        let mut goals = Vec::new(alloc);
        goals.push(first_goal(alloc, goal))?;
        Ok(Derivation {
            logic,
            limit,
            root,
            made: Vec::new(alloc),
            goals,
            traces: GrowingTraces::new(alloc),
        })
    }

    /// Whether no goal is open.
    pub fn is_closed(&self) -> bool
        ensures { result ≡ is_nil (goals_in self.now) }
    {
        self.goals.is_empty()
    }

    /// What the reason makes of the next goal; nothing where it has a fault or no goal is open.
    fn effect_at_next(
        &self,
        alloc: Global,
        reason: &L::Reason,
    ) -> Result<Option<Effect<L::Judgement>>, OutOfMemory>
        requires order { IsInOrder L.calculus L.occurs L.allows self.now }
        requires allowed { L.allows self.now.logic reason.now }
        ensures { IfOk result (IsNextEffect L.calculus self.now reason.now) }
    {
        match self.goals.last() {
            None => Ok(None),
            Some(goal) => self.logic.effect(alloc, &self.made, goal, reason),
        }
    }

    /// What the reason makes of the next goal, if it may be followed there within a depth.
    pub fn fitting_effect(
        &self,
        alloc: Global,
        bound: u32,
        reason: &L::Reason,
    ) -> Result<Option<Effect<L::Judgement>>, OutOfMemory>
        requires order { IsInOrder L.calculus L.occurs L.allows self.now }
        requires allowed { L.allows self.now.logic reason.now }
        ensures { IfOk result (IsFitting L.calculus self.now bound reason.now) }
    {
        let Some(goal) = self.goals.last() else {
            return Ok(None);
        };
        let depth = goal.depth;
        let Some(effect) = self.effect_at_next(alloc, reason)? else {
            return Ok(None);
        };
        let made = self.made.len();
        let others = self.goals.len() - 1;
        let count = effect.premises.len();
        if !has_room(self.limit as usize, bound, depth, made, others, count) {
            return Ok(None);
        }
        Ok(Some(effect))
    }

    /// The most premises that fit within a depth at the next goal, where one is open: none at that depth, and else as
    /// many as there is room for.
    pub fn most_premises(&self, depth: u32, bound: u32) -> usize
        ensures { result ≡ room_at self.now.limit bound (length self.now.made.items) (length self.now.goals.items)
            depth }
    {
        if depth >= bound {
            return 0;
        }
        (self.limit as usize).saturating_sub(self.made.len() + self.goals.len())
    }

    /// Makes the next goal a node of the trace graph.
    fn grow(&mut self, alloc: Global, back: Option<Edge>) -> Result<(), OutOfMemory>
        requires order { IsInOrder L.calculus L.occurs L.allows self.old }
        requires open { 0 < length self.old.goals.items }
        ensures { OnOk result (self.new ≡ record self.old { traces = next_graph L.calculus self.old back }) }
    {
        let Some(goal) = self.goals.last() else {
            unreachable!();
        };
        let positions = self.logic.positions(alloc, &goal.premise.judgement)?;
        let pairs = goal.premise.pairs.as_slice();
        self.traces
            .add_node(alloc, goal.parent, pairs, positions, back)
    }

    /// Gives the next goal this reason, and opens the goals that it leaves.
    pub fn take(
        &mut self,
        alloc: Global,
        reason: L::Reason,
        effect: Effect<L::Judgement>,
    ) -> Result<(), OutOfMemory>
        requires order { IsInOrder L.calculus L.occurs L.allows self.old }
        requires allowed { L.allows self.old.logic reason }
        requires effect { MayTake L.calculus self.old reason effect }
        ensures order { OnOk result (IsInOrder L.calculus L.occurs L.allows self.new) }
        ensures made { OnOk result (reasons_in self.new ≡ after (reasons_in self.old) reason) }
        ensures subject { OnOk result (about self.new ≡ about self.old) }
    {
        self.grow(alloc, effect.back)?;
        let Some(goal) = self.goals.pop() else {
            unreachable!();
        };
        let node = self.made.len() as u32;
        push_goals(&mut self.goals, node, goal.depth, effect.premises)?;
        self.made.push(MadeNode { goal, reason })?;
        Ok(())
    }

    /// Takes the last reason back, if there is one.
    pub fn take_back(&mut self) -> Result<(), OutOfMemory>
        requires { IsInOrder L.calculus L.occurs L.allows self.old }
        ensures order { OnOk result (IsInOrder L.calculus L.occurs L.allows self.new) }
        ensures made { OnOk result (reasons_in self.new ≡ front (reasons_in self.old)) }
        ensures subject { OnOk result (about self.new ≡ about self.old) }
    {
        let Some(node) = self.made.pop() else {
            return Ok(());
        };
        self.traces.remove_node(node.goal.parent);
        drop_goals(&mut self.goals, self.made.len() as u32);
        self.goals.push(node.goal)?;
        Ok(())
    }

    /// The trace graph that a reason which leads back along the edge would make; the derivation stays as it was.
    fn trial(&mut self, alloc: Global, back: Option<Edge>) -> Result<TraceGraph, OutOfMemory>
        requires order { IsInOrder L.calculus L.occurs L.allows self.old }
        requires open { 0 < length self.old.goals.items }
        ensures same { OnOk result (self.new ≡ self.old) }
        ensures graph { IfOk result (λ g. g ≡ next_graph L.calculus self.old back) }
    {
        let Some(goal) = self.goals.last() else {
            unreachable!();
        };
        let parent = goal.parent;
        self.grow(alloc, back)?;
        let graph = self.traces.graph(alloc)?;
        self.traces.remove_node(parent);
        Ok(graph)
    }

    /// How the derivation would fare with this link at its next goal; it stays as it was.
    pub fn try_link_at_next(
        &mut self,
        alloc: Global,
        link: &L::Reason,
    ) -> Result<Tried, OutOfMemory>
        requires order { IsInOrder L.calculus L.occurs L.allows self.old }
        requires allowed { L.allows self.old.logic link.now }
        ensures same { OnOk result (self.new ≡ self.old) }
        ensures tried { IfOk result (FaresSo (search_in L.calculus self.old) (after (reasons_in self.old) link.now)) }
    {
        let Some(effect) = self.effect_at_next(alloc, link)? else {
            return Ok(Tried::Refused);
        };
        let graph = self.trial(alloc, effect.back)?;
        tried(alloc, &graph)
    }

    /// Whether the product states of a derivation without open goals are above the limit.
    pub fn is_above_states(&self, alloc: Global) -> Result<bool, OutOfMemory>
        requires order { IsInOrder L.calculus L.occurs L.allows self.now }
        requires complete { is_nil (goals_in self.now) ≡ true }
        ensures { IfOk result (λ b. (search_in L.calculus self.now).above (reasons_in self.now) ≡ b) }
    {
        let graph = self.traces.graph(alloc)?;
        let tried = tried(alloc, &graph)?;
        Ok(is_above(tried))
    }
}
