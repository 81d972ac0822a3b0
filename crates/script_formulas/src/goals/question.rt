// What a script asks, as a goal.
use heap_formula::Judgement;
use heap_syntax::Version;
use pred_defs::Defs;

/// How the goal asks what the script does: the script can be satisfied exactly where the goal does not hold; or exactly
/// where its antecedent can be satisfied, and the succedent is false.
#[derive(Clone, Copy, Debug, PartialEq, Eq)]
pub enum Question {
    Entailment,
    Satisfiability,
}

/// Definitions and a goal, the version of the formats of which they are, and how the goal asks what the script does.
/// Variables are numbered in the order in which a text names them: in the goal `Univ(n)` is the script's constant
/// `universals[n]`, and the numbers there behind the constants are quantified variables. The first predicates are those
/// of the script with the numbers in `predicates`; others stand behind them.
#[derive(Drop)]
pub struct ScriptGoal {
    pub question: Question,
    pub version: Version,
    pub defs: Defs,
    pub goal: Judgement,
    pub universals: Vec<u16>,
    pub predicates: Vec<u16>,
}
