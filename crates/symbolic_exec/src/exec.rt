// The premises at the command of a judgement's line.
ghost use Rattle.std.specs.Prelude.{◌≡◌, ◌≤◌, IfOk, List, length, MatchOption, Some, None};
ghost use Rattle.cyc_basics.specs.Limits.{AreLimits};
ghost use Rattle.heap_formula.specs.Closedness.{IsUniversalHeap};
ghost use Rattle.heap_formula.specs.Definitions.{Definition};
ghost use Rattle.heap_formula.specs.Judgements.{IsLocallySound, antecedent};
ghost use Rattle.heap_formula.specs.Programs.{counted_from_one};
ghost use Rattle.heap_formula.specs.Words.{Each};
ghost use Rattle.rule_table.specs.Answered.{IsAnswer};
ghost use Rattle.rule_table.specs.ExecTable.{exec_answer};
ghost use Rattle.rule_table.specs.Soundness.{IsUniversalPremise};
ghost use Rattle.symbolic_exec.specs.Lines.{IsPremiseAtLine};

use crate::commands::{LineSetting, command_premises};
use cyc_basics::limits::Limits;
use goto_lang::Program;
use heap_formula::{Command, Judgement, Premise, RuleError, RuleFault};
use rule_table::fresh;
use std::alloc::Global;

fn command_at(program: &Program, line: u32) -> Option<&Command>
    ensures { MatchOption result (counted_from_one program.now line ≡ None) (λ c. counted_from_one program.now line
        ≡ Some c.now) }
{
    let lines = program.lines();
    if line == 0 {
        None
    } else {
        lines.get(line as usize - 1)
    }
}

fn exec(
    alloc: Global,
    program: &Program,
    judgement: &Judgement,
    most: Limits,
) -> Result<Vec<Premise>, RuleError>
    requires { AreLimits most }
    ensures { IsAnswer result (exec_answer most program.now judgement.now) }
{
    let Judgement::Term(line, a) = judgement else {
        return Err(RuleError::Fault(RuleFault::WrongJudgement));
    };
    let _lines = program.lines();
    let Some(command) = command_at(program, *line) else {
        return Err(RuleError::Fault(RuleFault::WrongJudgement));
    };
    let setting = LineSetting {
        line: *line,
        fresh: fresh(judgement, program.variables()),
        most,
    };
    command_premises(alloc, setting, a, command)
}

/// What is left of a judgement on the program's runs after the command at its line: a premise for each line to which
/// the command may lead, none at `stop`, and at an end that the state entails it. A command that reads, writes or frees
/// takes the first cell whose address is its term or stands with it in one equation. `most` are the limits of the
/// format's version. Where the line is none of the program's, the answer is `WrongJudgement`, as for an entailment.
pub fn premises_exec(
    alloc: Global,
    program: &Program,
    judgement: &Judgement,
    most: Limits,
) -> Result<Vec<Premise>, RuleError>
    requires { AreLimits most }
    ensures answer { IsAnswer result (exec_answer most program.now judgement.now) }
    ensures sound { IfOk result (λ v. (ds : List Definition) → IsLocallySound ds program.now judgement.now v.items) }
    ensures keeps { IfOk result (λ v. IsUniversalHeap (antecedent judgement.now) → Each IsUniversalPremise v.items) }
    ensures lines { IfOk result (λ v. Each (IsPremiseAtLine (length program.now)) v.items) }
{
    let _lines = program.lines();
    exec(alloc, program, judgement, most)
}
