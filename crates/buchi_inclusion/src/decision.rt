//! Whether a cycle of the product is bad: for each least event a search over the moves whose events aren't earlier.

ghost use Rattle.std.specs.Prelude.{ℕ, ◌≡◌, ◌≤◌, ◌<◌, Some, true, false, length, slice_get, IfOk, MatchOption};
ghost use Rattle.trace_pairs.specs.Graph.{IsGraph};
ghost use Rattle.trace_pairs.specs.declared.reach.Visit.{Visit};
ghost use Rattle.buchi_inclusion.specs.declared.product.Transition.{Transition};
ghost use Rattle.buchi_core.specs.declared.event.Event.TheVariants.{Dies};
ghost use Rattle.buchi_inclusion.specs.Table.{states_of, IsTable};
ghost use Rattle.buchi_inclusion.specs.Decision.{IsLeast, class_row as class_row_of, IsClass, IsWalk, IsClassOf};
ghost use Rattle.buchi_inclusion.specs.Decision.{IsWayBack, IsCounter, IsAbsent, IsAbsentFrom};
ghost use Rattle.buchi_inclusion.specs.ClassWays.{IsClassItem, AreClassItems, HasClassWay, IsNoClassWay, FindsWay};
ghost use Rattle.buchi_inclusion.specs.ClassWays.{AreClassWays, IsClassWayBetween};
ghost use Rattle.buchi_inclusion.specs.BadMoves.{IsBadMove, DecidesRow, DecidesClass, Decides};

use crate::product::{Table, Transition, state_at};
use crate::ranks::{are_rising, rank_of, ranks_of};
use crate::reaching::is_reached;
use buchi_core::{Event, earlier};
use cyc_basics::limits::MOST_POSITIONS;
use cyc_basics::memory::OutOfMemory;
use std::alloc::Global;
use trace_pairs::reach::{Visit, place_of, visits_from};
use trace_pairs::{Lasso, Step, TraceGraph};

/// The targets of a row, and whether the event isn't earlier than the least.
fn class_row(
    alloc: Global,
    row: &[Transition],
    least: Event,
) -> Result<Vec<(usize, bool)>, OutOfMemory>
    ensures { IfOk result (λ v. v.items ≡ class_row_of least row.now) }
{
    let mut targets = Vec::new(alloc);
    for item in row {
        targets.push((item.target as usize, !earlier(item.event, least)))?;
    }
    Ok(targets)
}

/// The table of the moves whose events aren't earlier than the least.
fn class_table(
    alloc: Global,
    rows: &[Vec<Transition>],
    least: Event,
) -> Result<Vec<Vec<(usize, bool)>>, OutOfMemory>
    ensures { IfOk result (λ v. IsClass least rows.now v.items) }
{
    let mut table = Vec::new(alloc);
    for row in rows {
        let row = class_row(alloc, row, least)?;
        table.push(row)?;
    }
    Ok(table)
}

/// The visit at a place.
fn visit_at(visits: &[Visit], place: usize) -> Option<&Visit>
    ensures { MatchOption result (length visits.now ≤ place) (λ v. slice_get visits.now place ≡ Some v.now) }
{
    visits.get(place)
}

/// The moves of a product whose events aren't earlier than a least event.
#[derive(Clone, Copy)]
pub struct Class<'a> {
    pub graph: &'a TraceGraph,
    pub table: &'a Table<'a>,
    pub least: Event,
    /// The states' ranks, which don't fall along the moves of the class if `rising` says so.
    pub ranks: &'a [u32],
    pub rising: bool,
}

/// A move that is the least of a cycle: an edge of the state at a place, where it leads, and its event.
#[derive(Clone, Copy)]
pub struct BadMove {
    pub place: usize,
    pub edge: usize,
    pub target: usize,
    pub least: Event,
}

/// The steps that led from the first visit to the one at a place.
fn steps_to(
    alloc: Global,
    class: &Class<'_>,
    visits: &[Visit],
    place: usize,
) -> Result<Vec<Step>, OutOfMemory>
    requires ways { (start : ℕ) × AreClassWays class.now start visits.now }
    requires place { place < length visits.now }
    ensures { IfOk result (λ v. IsClassWayBetween class.now visits.now 0 place v.items) }
{
    let mut steps = Vec::new(alloc);
    let mut at = place;
    while at > 0 {
        let Some(visit) = visit_at(visits, at) else {
            unreachable!()
        };
        let Some(from) = visit_at(visits, visit.from) else {
            unreachable!()
        };
        let Some(state) = state_at(&class.table.states, from.state) else {
            unreachable!()
        };
        steps.push(Step {
            node: state.node,
            edge: visit.edge as u8,
        })?;
        at = visit.from;
    }
    steps.reverse();
    Ok(steps)
}

/// Steps from the state at a place to that at another, over moves of the class, whose table is given.
fn way_over(
    alloc: Global,
    class: &Class<'_>,
    targets: &[Vec<(usize, bool)>],
    start: usize,
    to: usize,
) -> Result<Option<Vec<Step>>, OutOfMemory>
    requires class { IsClassOf class.now }
    requires targets { IsClass class.now.least class.now.table.now.rows.items targets.now }
    requires start { start < length (states_of class.now.table.now.states) }
    ensures { IfOk result (FindsWay class.now start to) }
{
    let visits = visits_from(alloc, targets, start)?;
    let Some(at) = place_of(&visits, to) else {
        return Ok(None);
    };
    let steps = steps_to(alloc, class, &visits, at)?;
    Ok(Some(steps))
}

/// Steps from the state at a place to that at another, over moves of the class.
fn way_to(
    alloc: Global,
    class: &Class<'_>,
    start: usize,
    to: usize,
) -> Result<Option<Vec<Step>>, OutOfMemory>
    requires class { IsClassOf class.now }
    requires start { start < length (states_of class.now.table.now.states) }
    ensures { IfOk result (FindsWay class.now start to) }
{
    let targets = class_table(alloc, &class.table.rows, class.least)?;
    way_over(alloc, class, &targets, start, to)
}

/// The steps from the first state to the one at a place.
fn stem_to(
    alloc: Global,
    graph: &TraceGraph,
    table: &Table<'_>,
    place: usize,
) -> Result<Vec<Step>, OutOfMemory>
    requires graph { IsGraph graph.now }
    requires table { IsTable graph.now (states_of table.now.states) table.now.rows.items }
    requires place { place < length (states_of table.now.states) }
    ensures { IfOk result (λ v. IsWalk graph.now (states_of table.now.states) (Dies 0) 0 place v.items) }
{
    let class = Class {
        graph,
        table,
        least: Event::Dies(0),
        ranks: &[],
        rising: false,
    };
    let found = way_to(alloc, &class, 0, place)?;
    let Some(steps) = found else { unreachable!() };
    Ok(steps)
}

/// The lasso of a move with the least event and a way back from its target.
fn counter_of(
    alloc: Global,
    class: &Class<'_>,
    place: usize,
    edge: usize,
    back: &[Step],
) -> Result<Lasso, OutOfMemory>
    requires class { IsClassOf class.now }
    requires back { IsWayBack class.now place edge back.now }
    ensures { IfOk result (λ l. IsCounter class.now.graph.now l) }
{
    let Some(state) = state_at(&class.table.states, place) else {
        unreachable!()
    };
    let stem = stem_to(alloc, class.graph, class.table, place)?;
    let mut cycle = Vec::new(alloc);
    cycle.push(Step {
        node: state.node,
        edge: edge as u8,
    })?;
    cycle.extend_from_slice(back)?;
    Ok(Lasso::new(stem, cycle))
}

/// The lasso of a move that is the least of a cycle.
pub fn lasso_of(
    alloc: Global,
    graph: &TraceGraph,
    table: &Table<'_>,
    bad: BadMove,
) -> Result<Lasso, OutOfMemory>
    requires graph { IsGraph graph.now }
    requires table { IsTable graph.now (states_of table.now.states) table.now.rows.items }
    requires bad { IsBadMove graph.now (states_of table.now.states) bad }
    ensures { IfOk result (λ l. IsCounter graph.now l) }
{
    let class = Class {
        graph,
        table,
        least: bad.least,
        ranks: &[],
        rising: false,
    };
    let found = way_to(alloc, &class, bad.target, bad.place)?;
    let Some(back) = found else { unreachable!() };
    let lasso = counter_of(alloc, &class, bad.place, bad.edge, &back)?;
    Ok(lasso)
}

/// Whether there is a way over moves of the class.
fn leads_to(alloc: Global, class: &Class<'_>, start: usize, to: usize) -> Result<bool, OutOfMemory>
    requires class { IsClassOf class.now }
    requires start { start < length (states_of class.now.table.now.states) }
    ensures way { IfOk result (λ b. b ≡ true → HasClassWay class.now start to) }
    ensures none { IfOk result (λ b. b ≡ false → IsNoClassWay class.now start to) }
{
    if is_reached(alloc, class, start, to)? {
        return Ok(true);
    }
    let found = way_to(alloc, class, start, to)?;
    let Some(_way) = found else {
        return Ok(false);
    };
    Ok(true)
}

/// Whether the move has the least event and there is a way back from its target.
fn is_bad_item(
    alloc: Global,
    class: &Class<'_>,
    place: usize,
    edge: usize,
    item: Transition,
) -> Result<bool, OutOfMemory>
    requires class { IsClassOf class.now }
    requires item { IsClassItem class.now place edge item }
    ensures least { IfOk result (λ b. b ≡ true → item.event ≡ class.now.least) }
    ensures way { IfOk result (λ b. b ≡ true → HasClassWay class.now item.target place) }
    ensures none { IfOk result (λ b. b ≡ false → item.event ≡ class.now.least
        → IsNoClassWay class.now item.target place) }
{
    if earlier(item.event, class.least) {
        return Ok(false);
    }
    if earlier(class.least, item.event) {
        return Ok(false);
    }
    let target = item.target as usize;
    if class.rising && rank_of(class.ranks, place) < rank_of(class.ranks, target) {
        return Ok(false);
    }
    if leads_to(alloc, class, target, place)? {
        return Ok(true);
    }
    Ok(false)
}

/// A move of the row that is the least of a cycle.
fn decide_row(
    alloc: Global,
    class: &Class<'_>,
    place: usize,
    row: &[Transition],
) -> Result<Option<BadMove>, OutOfMemory>
    requires class { IsClassOf class.now }
    requires row { AreClassItems class.now place row.now }
    ensures { IfOk result (DecidesRow class.now place row.now) }
{
    for (edge, item) in row.iter().enumerate() {
        if is_bad_item(alloc, class, place, edge, *item)? {
            return Ok(Some(BadMove {
                place,
                edge,
                target: item.target as usize,
                least: class.least,
            }));
        }
    }
    Ok(None)
}

/// Whether a move of the row has the event.
fn row_has(row: &[Transition], event: Event) -> bool
    ensures { result ≡ false → IsAbsent event row.now }
{
    for item in row {
        if !earlier(item.event, event) && !earlier(event, item.event) {
            return true;
        }
    }
    false
}

/// Whether a move has the event.
fn rows_have(rows: &[Vec<Transition>], event: Event) -> bool
    ensures { result ≡ false → IsAbsentFrom event rows.now }
{
    for row in rows {
        if row_has(row, event) {
            return true;
        }
    }
    false
}

/// A move with the least event that is the least of a cycle.
fn search_class(
    alloc: Global,
    graph: &TraceGraph,
    table: &Table<'_>,
    least: Event,
) -> Result<Option<BadMove>, OutOfMemory>
    requires graph { IsGraph graph.now }
    requires table { IsTable graph.now (states_of table.now.states) table.now.rows.items }
    requires least { IsLeast least }
    ensures { IfOk result (DecidesClass graph.now table.now least) }
{
    let ranks = ranks_of(alloc, &table.rows, least)?;
    let rising = are_rising(&table.rows, least, &ranks);
    let class = Class {
        graph,
        table,
        least,
        ranks: &ranks,
        rising,
    };
    for (place, row) in table.rows.iter().enumerate() {
        let found = decide_row(alloc, &class, place, row)?;
        if found.is_some() {
            return Ok(found);
        }
    }
    Ok(None)
}

/// The same, at once where no move has the event.
fn decide_class(
    alloc: Global,
    graph: &TraceGraph,
    table: &Table<'_>,
    least: Event,
) -> Result<Option<BadMove>, OutOfMemory>
    requires graph { IsGraph graph.now }
    requires table { IsTable graph.now (states_of table.now.states) table.now.rows.items }
    requires least { IsLeast least }
    ensures { IfOk result (DecidesClass graph.now table.now least) }
{
    if !rows_have(&table.rows, least) {
        return Ok(None);
    }
    search_class(alloc, graph, table, least)
}

/// The number after the greatest place at which an entry dies by a move of the row, 0 if none does.
fn deaths_in(row: &[Transition]) -> u32
    ensures { (k : ℕ) → result ≤ k → IsAbsent (Dies k) row.now }
{
    let mut above: u32 = 0;
    for item in row {
        if let Event::Dies(place) = item.event {
            above = above.max(place as u32 + 1);
        }
    }
    above
}

/// The number after the greatest place at which an entry dies by a move, 0 if none does.
fn deaths_of(rows: &[Vec<Transition>]) -> u32
    ensures { (k : ℕ) → result ≤ k → IsAbsentFrom (Dies k) rows.now }
{
    let mut above: u32 = 0;
    for row in rows {
        above = above.max(deaths_in(row));
    }
    above
}

/// A move that is the least of a bad cycle.
pub fn decide(
    alloc: Global,
    graph: &TraceGraph,
    table: &Table<'_>,
) -> Result<Option<BadMove>, OutOfMemory>
    requires graph { IsGraph graph.now }
    requires table { IsTable graph.now (states_of table.now.states) table.now.rows.items }
    ensures { IfOk result (Decides graph.now table.now) }
{
    let found = decide_class(alloc, graph, table, Event::Nothing)?;
    if found.is_some() {
        return Ok(found);
    }
    let above = deaths_of(&table.rows).min(u32::from(MOST_POSITIONS));
    for place in 0..above as u8 {
        let found = decide_class(alloc, graph, table, Event::Dies(place))?;
        if found.is_some() {
            return Ok(found);
        }
    }
    Ok(None)
}
