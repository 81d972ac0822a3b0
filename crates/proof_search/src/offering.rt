// What a goal of a problem's partial derivation is offered.
ghost use Rattle.std.specs.Prelude.{◌<◌, length, IfOk};
ghost use Rattle.search_moves.specs.Graphs.{OffersLinks, OffersRules};
ghost use Rattle.proof_search.specs.Outcomes.{theory_for};

use cyc_basics::memory::OutOfMemory;
use formula_reader::Problem;
use formula_reader::files::problem_is_within;
use proof_graph::Graph;
use search_moves::Offers;
use std::alloc::Global;

/// What the goal, a node without a reason, is offered in the partial derivation of the problem's goal that the graph
/// holds: the links that are to be tried, and the rules for the case that none of them is admitted, in order. The
/// search keeps no such graph: it asks the same of the nodes that it has made.
pub fn offers(
    alloc: Global,
    problem: &Problem,
    graph: &Graph<'_>,
    goal: u32,
) -> Result<Offers, OutOfMemory>
    requires { goal < length graph.now }
    ensures links { IfOk result (λ o. OffersLinks (theory_for problem.now) graph.now goal o.links.items) }
    ensures rules { IfOk result (λ o. OffersRules (theory_for problem.now) graph.now goal o.rules.items) }
{
    problem_is_within(problem);
    search_moves::offers(alloc, &problem.defs, &problem.program, graph, goal)
}
