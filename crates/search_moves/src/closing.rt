// Rules that leave nothing to be shown: at a goal as deep as a bound no other rule may be followed.
ghost use Rattle.std.specs.Prelude.{◌≡◌, List, true, false, IfOk};
ghost use Rattle.heap_formula.specs.declared.commands.Command.{Command};
ghost use Rattle.heap_formula.specs.Judgements.{antecedent as antecedent_of};
ghost use Rattle.std.specs.List.{list_all};
ghost use Rattle.search_moves.specs.Settings.{theory, theory_of};
ghost use Rattle.search_moves.specs.Entailments.{entailment_after};
ghost use Rattle.search_moves.specs.Closing.{has_case as has_some_case, leaves as leaves_some, closes, CloseAlike};
ghost use Rattle.search_moves.specs.Closing.{IsPart};

use crate::entailments::rule_alone;
use crate::setting::GoalSetting;
use cyc_basics::memory::OutOfMemory;
use heap_formula::{Heap, Judgement, Rule, Spatial};
use pred_defs::Defs;
use rule_table::antecedent;
use std::alloc::Global;

/// Whether the atom is a cell, or a predicate with a case.
fn has_case(defs: &Defs, atom: &Spatial) -> bool
    ensures { result ≡ has_some_case defs.now.list atom.now }
{
    match atom {
        Spatial::Cell(_, _) => true,
        Spatial::Pred(q, _) => 0 < defs.cases(*q).len(),
    }
}

/// Whether each atom is a cell, or a predicate with a case.
pub fn have_cases(defs: &Defs, atoms: &[Spatial]) -> bool
    ensures { result ≡ list_all (has_some_case defs.now.list) atoms.now }
{
    for atom in atoms {
        if !has_case(defs, atom) {
            return false;
        }
    }
    true
}

fn leaves(defs: &Defs, judgement: &Judgement, rule: &Rule) -> bool
    ensures { result ≡ leaves_some defs.now.list judgement.now rule.now }
{
    match rule {
        Rule::Absurd | Rule::Done | Rule::Exec => false,
        Rule::Unfold(k) => match antecedent(judgement).spatial_at(*k) {
            None => true,
            Some(atom) => has_case(defs, atom),
        },
        _ => true,
    }
}

/// Whether the rule leaves premises wherever it has no fault. Where the answer is no, it may leave some all the same.
pub fn leaves_premises(defs: &Defs, judgement: &Judgement, rule: &Rule) -> bool
    ensures { result ≡ true → (lines : List Command) → closes (theory defs.now lines) judgement.now rule.now ≡ false }
{
    leaves(defs, judgement, rule)
}

/// What comes at an entailment where no link is admitted, but for rules that leave premises, where each predicate of
/// its left side has a case.
pub fn closing_rules(
    alloc: Global,
    at: &GoalSetting<'_>,
    left: &Heap,
    heaps: &[Heap],
) -> Result<Vec<Rule>, OutOfMemory>
    requires judgement { antecedent_of at.now.judgement.now ≡ left.now }
    requires cases { list_all (has_some_case at.now.defs.now.list) left.now.spatial ≡ true }
    ensures closing { IfOk result (λ v. CloseAlike (theory_of at.now) at.now.judgement.now v.items
        (entailment_after (theory_of at.now) at.now.judgement.now left.now heaps.now)) }
    ensures offered { IfOk result (λ v. IsPart v.items
        (entailment_after (theory_of at.now) at.now.judgement.now left.now heaps.now)) }
{
    if heaps.len() != 1 {
        return Ok(Vec::new(alloc));
    }
    rule_alone(alloc, at, Rule::Done)
}
