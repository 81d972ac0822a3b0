// Ends that a text may have.
ghost use Rattle.std.specs.Prelude.{◌≡◌, ◌+◌, ◌<◌, ◌^◌, None};
ghost use Rattle.rule_book.specs.Limits.{IsCommandWithin, AreEndsWithin};
ghost use Rattle.formula_reader.specs.Excess.{first_of, end_disjunct_at, end_at, ends_excess as excess_of_ends};

use crate::limits::excess::ProblemExcess;
use crate::limits::heaps::heap_excess;
use heap_formula::{Command, Heap};
use pred_defs::Defs;

fn end_excess(defs: &Defs, line: usize, disjuncts: &[Heap]) -> Option<ProblemExcess>
    ensures { result ≡ first_of (end_disjunct_at defs.now.most defs.now.list line) 0 disjuncts.now }
{
    for (place, heap) in disjuncts.iter().enumerate() {
        if let Some(excess) = heap_excess(defs, heap) {
            return Some(ProblemExcess::End(line, place, excess));
        }
    }
    None
}

/// The first limit that the end of a line passes before which n stand.
fn command_excess(defs: &Defs, n: usize, command: &Command) -> Option<ProblemExcess>
    requires { n + 1 < 2 ^ 64 }
    ensures first { result ≡ end_at defs.now.most defs.now.list n command.now }
    ensures within { result ≡ None → IsCommandWithin defs.now.most defs.now.list command.now }
{
    match command {
        Command::Ends(disjuncts) => end_excess(defs, n + 1, disjuncts.heaps()),
        _ => None,
    }
}

/// The first limit of the formats that an end of these lines passes over the definitions.
pub fn ends_excess(defs: &Defs, lines: &[Command]) -> Option<ProblemExcess>
    ensures first { result ≡ excess_of_ends defs.now.most defs.now.list lines.now }
    ensures within { result ≡ None → AreEndsWithin defs.now.most defs.now.list lines.now }
{
    for (place, command) in lines.iter().enumerate() {
        if let Some(excess) = command_excess(defs, place, command) {
            return Some(excess);
        }
    }
    None
}
