//! The reachable states of the product, each once, in the order of discovery.

ghost use Rattle.std.specs.Prelude.{ℕ, ◌≡◌, ◌≤◌, ◌<◌, ◌^◌, Some, length, slice_get, IfOk, OnOk, MatchOption};
ghost use Rattle.buchi_core.specs.Stepping.{forest_in};
ghost use Rattle.buchi_core.specs.View.{forest_of};
ghost use Rattle.buchi_inclusion.specs.Table.{state_of, states_of, IsFound, IsLast, IsState, Finds, AreStates, Extends};
ghost use Rattle.trace_pairs.specs.Graph.{IsGraph};
ghost use Rattle.buchi_inclusion.specs.Explored.{ExploresRow, Explores};
ghost use Rattle.buchi_inclusion.specs.Product.{State, IsStart};

use buchi_core::{AgeForest, Entry, Event, Stepper, entries_in, start};
use bumpalo::Bump;
use cyc_basics::memory::OutOfMemory;
use indexmap::IndexSet;
use std::alloc::Global;
use trace_pairs::TraceGraph;

/// A state of the product: a node with a forest, whose entries lie in an arena.
#[derive(Clone, Copy, Drop, PartialEq, Eq, Hash)]
pub struct Product<'a> {
    pub node: u32,
    pub forest: &'a [Entry],
}

/// The place of a state among the states, to which it is added if it is new; and whether it is new. Its entries are
/// copied into the arena only then, so that the arena grows with the states and not with the steps.
pub fn intern<'a>(
    arena: &'a Bump,
    states: &mut IndexSet<Product<'a>>,
    state: Product<'_>,
) -> Result<(usize, bool), OutOfMemory>
    ensures { IfOk result (λ r. IsFound (states_of states.old) (states_of states.new) (state_of state.entry) r.0 r.1) }
{
    if let Some(place) = states.get_index_of(&state) {
        return Ok((place, false));
    }
    let forest: &'a [Entry] = arena.try_alloc_slice_copy(state.forest)?;
    let node = state.node;
    let (place, is_new) = states.insert_full(Product { node, forest })?;
    Ok((place, is_new))
}

/// How many states there are. No state stands there twice.
pub fn count_of(states: &IndexSet<Product<'_>>) -> usize
    ensures long { result ≡ length (states_of states.now) }
    ensures small { result < 2 ^ 63 }
    ensures apart { (i j : ℕ) (s : State) → slice_get (states_of states.now) i ≡ Some s
        → slice_get (states_of states.now) j ≡ Some s → i ≡ j }
{
    states.len()
}

/// The state at a place.
pub fn state_at<'a>(states: &IndexSet<Product<'a>>, place: usize) -> Option<Product<'a>>
    ensures { MatchOption result (length (states_of states.now) ≤ place)
        (λ p. slice_get (states_of states.now) place ≡ Some (state_of p)) }
{
    let all = states.as_slice();
    if place < all.len() {
        Some(all[place])
    } else {
        None
    }
}

/// Where an edge of a state's node leads, and the event.
#[derive(Clone, Copy)]
pub struct Transition {
    pub target: u32,
    pub event: Event,
}

/// What steps are made in, and where the entries of new states lie.
#[derive(Drop)]
struct Steps<'a> {
    stepper: Stepper,
    arena: &'a Bump,
}

/// The node that edge `edge` leads a state to, with the event; none where the state's node has no such edge. The forest
/// after the step lies in the stepper.
fn step_from(
    stepper: &mut Stepper,
    graph: &TraceGraph,
    state: Product<'_>,
    edge: usize,
) -> Option<(u32, Event)>
    requires graph { IsGraph graph.now }
    requires state { IsState graph.now (state_of state) }
    ensures { MatchOption result (IsLast graph.now (state_of state.entry) edge)
        (λ r. Finds graph.now (state_of state.entry) edge (record { node = r.0; forest = forest_in stepper.new }) r.1) }
{
    let Some(node) = graph.node(state.node as usize) else {
        unreachable!()
    };
    let Some(edge) = node.edge(edge) else {
        return None;
    };
    let node = edge.target();
    let Some(target) = graph.node(node as usize) else {
        unreachable!()
    };
    let event = stepper.step(state.forest, edge.pairs(), target.positions());
    Some((node, event))
}

/// The moves from the state at a place, whose targets are added to the states. None if there are more states than the
/// limit then.
fn explore_row<'a>(
    alloc: Global,
    steps: &mut Steps<'a>,
    graph: &TraceGraph,
    states: &mut IndexSet<Product<'a>>,
    place: usize,
    limit: u32,
) -> Result<Option<Vec<Transition>>, OutOfMemory>
    requires graph { IsGraph graph.now }
    requires states { AreStates graph.now (states_of states.old) }
    requires place { place < length (states_of states.old) }
    requires few { length (states_of states.old) ≤ limit }
    ensures states { OnOk result (AreStates graph.now (states_of states.new)) }
    ensures extends { OnOk result (Extends (states_of states.old) (states_of states.new)) }
    ensures row { IfOk result (ExploresRow graph.now limit (states_of states.new) place) }
{
    let mut row = Vec::new(alloc);
    let Some(state) = state_at(states, place) else {
        unreachable!()
    };
    for edge in 0..usize::MAX {
        let Some((node, event)) = step_from(&mut steps.stepper, graph, state, edge) else {
            return Ok(Some(row));
        };
        let forest = steps.stepper.entries();
        let (target, _) = intern(steps.arena, states, Product { node, forest })?;
        if count_of(states) > limit as usize {
            return Ok(None);
        }
        row.push(Transition {
            target: target as u32,
            event,
        })?;
    }
    let _count = row.len();
    unreachable!()
}

/// All reachable states, and the moves from each.
#[derive(Drop)]
pub struct Table<'a> {
    pub states: IndexSet<Product<'a>>,
    pub rows: Vec<Vec<Transition>>,
}

/// The forest of the state that begins, at node 0.
fn first_forest(graph: &TraceGraph) -> AgeForest
    requires graph { IsGraph graph.now }
    ensures start { IsStart graph.now (record { node = 0; forest = forest_of result }) }
    ensures found { IsState graph.now (record { node = 0; forest = forest_of result }) }
{
    let Some(root) = graph.node(0) else {
        unreachable!()
    };
    start(root.positions())
}

/// Explores the product, whose states lie in the arena. None if there are more states than the limit.
pub fn explore<'a>(
    alloc: Global,
    arena: &'a Bump,
    graph: &TraceGraph,
    limit: u32,
) -> Result<Option<Table<'a>>, OutOfMemory>
    requires graph { IsGraph graph.now }
    ensures { IfOk result (Explores graph.now limit) }
{
    let mut states = IndexSet::with_capacity(alloc, graph.len())?;
    let first = first_forest(graph);
    let forest = entries_in(&first);
    intern(arena, &mut states, Product { node: 0, forest })?;
    if count_of(&states) > limit as usize {
        return Ok(None);
    }
    let mut steps = Steps {
        stepper: Stepper::default(),
        arena,
    };
    let mut rows = Vec::with_capacity(alloc, graph.len())?;
    for place in 0..usize::MAX {
        if place >= count_of(&states) {
            return Ok(Some(Table { states, rows }));
        }
        let row = explore_row(alloc, &mut steps, graph, &mut states, place, limit)?;
        let Some(row) = row else {
            return Ok(None);
        };
        rows.push(row)?;
    }
    let _count = count_of(&states);
    unreachable!()
}
