//! The whole rule table as one call.
#![tactic(auto)]

pub mod limits;
pub mod reasons;

ghost use Rattle.std.specs.Prelude.{◌≡◌, IfOk, List, length, not};
ghost use Rattle.heap_formula.specs.Closedness.{IsUniversalHeap};
ghost use Rattle.heap_formula.specs.declared.commands.Command.{Command};
ghost use Rattle.heap_formula.specs.declared.proof_rules.RuleFault.TheVariants.{WrongJudgement};
ghost use Rattle.heap_formula.specs.Judgements.{IsLocallySound, antecedent};
ghost use Rattle.heap_formula.specs.Words.{Each};
ghost use Rattle.heap_formula.specs.Programs.{has_ends};
ghost use Rattle.rule_table.specs.Answer.{needs};
ghost use Rattle.rule_table.specs.Answered.{IsAnswer};
ghost use Rattle.rule_table.specs.RuleBook.{rule_answer, variables_of as program_variables_of};
ghost use Rattle.rule_table.specs.Table.{drop_answer};
ghost use Rattle.rule_book.specs.Lines.{IsWithinLines, IsPremiseWithin, SuitsProgram};
ghost use Rattle.rule_table.specs.Soundness.{HasVariables, HasUniversalTerms, IsUniversalPremise};

use goto_lang::Program;
use heap_formula::{Judgement, Premise, Rule, RuleError, RuleFault};
use match_frame::{
    premises_choose, premises_done, premises_frame, premises_instantiate, premises_pure_right,
};
use normal_form::{
    premises_absurd, premises_distinct, premises_drop, premises_rewrite, premises_split,
    premises_weaken,
};
use pred_defs::Defs;
use std::alloc::Global;
use symbolic_exec::premises_exec;
use unfold_rule::{premises_cut, premises_unfold, premises_unfold_right};

/// How many variables of the judgement are the program's: none in an entailment.
pub fn variables_of(program: &Program, judgement: &Judgement) -> u16
    ensures { result ≡ program_variables_of program.now judgement.now }
{
    match judgement {
        Judgement::Entail(_, _) => 0,
        Judgement::Term(_, _) => program.variables(),
    }
}

fn dropped(
    alloc: Global,
    program: &Program,
    judgement: &Judgement,
    p: u16,
    k: u32,
) -> Result<Vec<Premise>, RuleError>
    ensures { IsAnswer result (needs (not (has_ends program.now)) WrongJudgement (drop_answer judgement.now k)) }
{
    if program.has_ends() {
        return Err(RuleError::Fault(RuleFault::WrongJudgement));
    }
    premises_drop(alloc, judgement, p, k)
}

fn answer(
    alloc: Global,
    defs: &Defs,
    program: &Program,
    judgement: &Judgement,
    rule: &Rule,
) -> Result<Vec<Premise>, RuleError>
    ensures { IsAnswer result (rule_answer defs.now.most defs.now.list program.now judgement.now rule.now) }
{
    let p = variables_of(program, judgement);
    match rule {
        Rule::Absurd => premises_absurd(alloc, judgement, p),
        Rule::Rewrite(k, side) => premises_rewrite(alloc, judgement, p, *k, *side),
        Rule::Split(t, u) => premises_split(alloc, judgement, p, *t, *u, defs.most()),
        Rule::Distinct(i, k) => premises_distinct(alloc, judgement, p, *i, *k, defs.most()),
        Rule::Weaken(k) => premises_weaken(alloc, judgement, p, *k),
        Rule::Unfold(k) => premises_unfold(alloc, defs, judgement, p, *k),
        Rule::Cut(places, formula) => premises_cut(
            alloc,
            judgement,
            p,
            places,
            formula,
            defs.most(),
        ),
        Rule::Done => premises_done(alloc, judgement),
        Rule::Choose(k) => premises_choose(alloc, judgement, *k),
        Rule::PureRight(k) => premises_pure_right(alloc, judgement, *k),
        Rule::Instantiate(v, t) => premises_instantiate(alloc, judgement, *v, *t),
        Rule::Frame(i, k) => premises_frame(alloc, judgement, *i, *k),
        Rule::UnfoldRight(k, c) => premises_unfold_right(alloc, defs, judgement, *k, *c),
        Rule::Exec => premises_exec(alloc, program, judgement, defs.most()),
        Rule::Drop(k) => dropped(alloc, program, judgement, p, *k),
    }
}

/// The premises of a rule at a judgement, with their trace pairs, or the rule's first fault. Beside the program's own
/// runs, every rule but `Exec` is sound for those of any program that has no more variables, and at an entailment for
/// those of any; `Drop` for those of programs without an end.
pub fn premises(
    alloc: Global,
    defs: &Defs,
    program: &Program,
    judgement: &Judgement,
    rule: &Rule,
) -> Result<Vec<Premise>, RuleError>
    ensures answer { IsAnswer result (rule_answer defs.now.most defs.now.list program.now judgement.now rule.now) }
    ensures sound { IfOk result (λ v. IsUniversalHeap (antecedent judgement.now)
        → IsLocallySound defs.now.list program.now judgement.now v.items) }
    ensures sound_elsewhere { IfOk result (λ v. (lines : List Command) → SuitsProgram lines rule.now
        → HasVariables lines (program_variables_of program.now judgement.now) judgement.now
        → IsUniversalHeap (antecedent judgement.now) → IsLocallySound defs.now.list lines judgement.now v.items) }
    ensures keeps { IfOk result (λ v. IsUniversalHeap (antecedent judgement.now) → HasUniversalTerms rule.now
        → Each IsUniversalPremise v.items) }
    ensures lines { IfOk result (λ v. IsWithinLines (length program.now) judgement.now
        → Each (IsPremiseWithin (length program.now)) v.items) }
{
    let _lines = program.lines();
    answer(alloc, defs, program, judgement, rule)
}
