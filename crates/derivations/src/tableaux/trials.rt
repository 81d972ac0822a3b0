// How a derivation with a trace graph fares.
ghost use Rattle.std.specs.Prelude.{◌≡◌, List, nat_lt, IfOk};
ghost use Rattle.trace_pairs.specs.Graph.{Node, IsGraph};
ghost use Rattle.buchi_inclusion.specs.Decide.{number_of};
ghost use Rattle.buchi_inclusion.specs.Answers.{state_limit};
ghost use Rattle.derivations.specs.Fares.{GraphFares};

use crate::search::Tried;
use buchi_inclusion::{MOST_PRODUCT_STATES, Progress, all_lassos_progress};
use cyc_basics::memory::OutOfMemory;
use std::alloc::Global;
use trace_pairs::TraceGraph;

/// How a derivation with this trace graph fares.
pub fn tried(alloc: Global, traces: &TraceGraph) -> Result<Tried, OutOfMemory>
    requires { IsGraph traces.now }
    ensures { IfOk result (GraphFares traces.now) }
{
    match all_lassos_progress(alloc, traces, MOST_PRODUCT_STATES)? {
        Progress::Progresses => Ok(Tried::Admitted),
        Progress::DoesNot => Ok(Tried::Refused),
        Progress::TooManyStates => Ok(Tried::TooManyStates),
    }
}

/// Whether there are more product states than the limit.
pub fn is_above(tried: Tried) -> bool
    ensures { (g : List Node) → GraphFares g tried → nat_lt state_limit (number_of g) ≡ result }
{
    match tried {
        Tried::TooManyStates => true,
        Tried::Admitted | Tried::Refused => false,
    }
}
