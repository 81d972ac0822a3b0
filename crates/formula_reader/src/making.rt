// Problems that are made of values.
ghost use Rattle.std.specs.Prelude.{◌≡◌, ◌↔◌, Some, IsOk, IfOk, IfErr};
ghost use Rattle.heap_syntax.specs.Versions.{limits};
ghost use Rattle.formula_reader.specs.Within.{IsProblemWithin};
ghost use Rattle.formula_reader.specs.Excess.{problem_excess as first_excess};

use crate::limits::{ProblemExcess, problem_excess};
use crate::problem::Problem;
use goto_lang::Program;
use heap_formula::Judgement;
use heap_syntax::Version;
use pred_defs::Defs;

/// The problem of these values, whatever they come from; or the first limit of the version that they pass, in the order
/// in which a text has them. The definitions take the limits of the version.
pub fn problem_of_values(
    version: Version,
    defs: Defs,
    program: Program,
    goal: Judgement,
) -> Result<Problem, ProblemExcess>
    ensures exact { IsOk result ↔ IsProblemWithin version (limits version) defs.list program goal }
    ensures first { IfErr result (λ e. first_excess version (limits version) defs.list program goal ≡ Some e) }
    ensures version { IfOk result (λ p. p.version ≡ version) }
    ensures definitions { IfOk result (λ p. p.defs.list ≡ defs.list) }
    ensures program { IfOk result (λ p. p.program ≡ program) }
    ensures goal { IfOk result (λ p. p.goal ≡ goal) }
{
    let mut defs = defs;
    defs.set_most(version.limits());
    if let Some(excess) = problem_excess(version, &defs, &program, &goal) {
        return Err(excess);
    }
    Ok(Problem {
        version,
        defs,
        program,
        goal,
    })
}
