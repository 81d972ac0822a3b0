// Problems that have a text.
ghost use Rattle.std.specs.Prelude.{◌≡◌, ◌↔◌, None};
ghost use Rattle.formula_reader.specs.Within.{IsProblemWithin};
ghost use Rattle.formula_reader.specs.Excess.{problem_excess as excess_of_problem};

use crate::limits::definitions::definitions_excess;
use crate::limits::ends::ends_excess;
use crate::limits::excess::ProblemExcess;
use crate::limits::judgements::judgement_excess;
use crate::limits::lines::lines_excess;
use goto_lang::Program;
use heap_formula::Judgement;
use heap_syntax::Version;
use pred_defs::Defs;

/// The first limit of the formats that a problem passes, in the order of its text: its definitions, its lines, its
/// ends, its goal. None is passed exactly where the values are within all of them.
pub fn problem_excess(
    version: Version,
    defs: &Defs,
    program: &Program,
    goal: &Judgement,
) -> Option<ProblemExcess>
    ensures first { result
        ≡ excess_of_problem version defs.now.most defs.now.list program.now goal.now }
    ensures exact { (result ≡ None)
        ↔ IsProblemWithin version defs.now.most defs.now.list program.now goal.now }
{
    if let Some(excess) = definitions_excess(defs) {
        return Some(excess);
    }
    let lines = program.lines();
    if let Some(excess) = lines_excess(version, defs.most(), lines) {
        return Some(excess);
    }
    if let Some(excess) = ends_excess(defs, lines) {
        return Some(excess);
    }
    if let Some(excess) = judgement_excess(defs, lines.len(), goal) {
        return Some(ProblemExcess::Goal(excess));
    }
    None
}
