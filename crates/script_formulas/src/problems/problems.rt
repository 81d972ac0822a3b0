// A script as a problem.
ghost use Rattle.std.specs.Prelude.{◌≡◌, IfOk};
ghost use Rattle.script_formulas.specs.Defining.{IsGoalOf};

use crate::Script;
use crate::goals::{Place, Question, ScriptGoal, ScriptRefusal, Unsupported, goal_of_script};
use formula_reader::{Problem, problem_of_values};
use goto_lang::Program;
use heap_formula::Judgement;
use heap_syntax::Version;
use pred_defs::Defs;
use std::alloc::Global;

/// A problem, and how it asks what the script does. In the goal `Univ(n)` is the script's constant `universals[n]`, and
/// the numbers there behind the constants are quantified variables. The first predicates are those of the script with
/// the numbers in `predicates`; others stand behind them.
#[derive(Drop)]
pub struct ScriptProblem {
    pub question: Question,
    pub problem: Problem,
    pub universals: Vec<u16>,
    pub predicates: Vec<u16>,
}

/// The problem of a version with these definitions and goal. What passes a limit then is the number of variables.
fn problem_of(
    alloc: Global,
    version: Version,
    defs: Defs,
    goal: Judgement,
) -> Result<Problem, ScriptRefusal>
    ensures definitions { IfOk result (λ p. p.defs.list ≡ defs.list) }
    ensures goal { IfOk result (λ p. p.goal ≡ goal) }
{
    let Ok(program) = Program::new(alloc, &[]) else {
        return Err(ScriptRefusal::OutOfMemory);
    };
    match problem_of_values(version, defs, program, goal) {
        Ok(problem) => Ok(problem),
        Err(_) => Err(ScriptRefusal::Unsupported(Place::Whole, Unsupported::Variables)),
    }
}

/// The problem that asks what the script does, or the first cause found why there is none.
pub fn problem_of_script(alloc: Global, script: &Script) -> Result<ScriptProblem, ScriptRefusal>
    ensures { IfOk result (λ p. IsGoalOf script.now p.question p.problem.defs.list p.problem.goal
        p.predicates.items) }
{
    let ScriptGoal {
        question,
        version,
        defs,
        goal,
        universals,
        predicates,
    } = goal_of_script(alloc, script)?;
    let problem = problem_of(alloc, version, defs, goal)?;
    Ok(ScriptProblem {
        question,
        problem,
        universals,
        predicates,
    })
}
