// The rules by their names.
ghost use Rattle.std.specs.Prelude.{◌≤◌, length, IfOk};
ghost use Rattle.fo_formula.specs.Shapes.{HasConstant, IsOpenSequent};
ghost use Rattle.fo_formula.specs.Answered.{IsAnswer};
ghost use Rattle.fo_formula.specs.Soundness.{IsLocallySound, HasOpenTerms};
ghost use Rattle.fo_formula.specs.Table.{rule_answer};

use crate::closing::{premises_axiom, premises_clash, premises_refl};
use crate::replacing::premises_replace;
use crate::right_cases::premises_right;
use crate::splitting::premises_decompose;
use crate::structural::{
    premises_contract, premises_cut, premises_weaken_left, premises_weaken_right,
};
use crate::unfolding::premises_unfold;
use cyc_basics::limits::{MOST_LEFT, MOST_RIGHT};
use fo_formula::table::{FoPremise, FoRuleError};
use fo_formula::{FoRule, FoSequent, FoTheory};
use std::alloc::Global;

fn premises_by_rule(
    alloc: Global,
    theory: &FoTheory,
    sequent: &FoSequent,
    rule: &FoRule,
) -> Result<Vec<FoPremise>, FoRuleError>
    requires left_fits { length sequent.now.left ≤ MOST_LEFT }
    requires right_fits { length sequent.now.right ≤ MOST_RIGHT }
    ensures { IsAnswer result (rule_answer theory.now sequent.now rule.now) }
{
    match rule {
        FoRule::Axiom { left, right } => premises_axiom(alloc, sequent, *left, *right),
        FoRule::Refl(j) => premises_refl(alloc, sequent, *j),
        FoRule::Clash(i) => premises_clash(alloc, sequent, *i),
        FoRule::Decompose(i) => premises_decompose(alloc, sequent, *i),
        FoRule::Replace { atom, side } => premises_replace(alloc, sequent, *atom, *side),
        FoRule::WeakenLeft(i) => premises_weaken_left(alloc, sequent, *i),
        FoRule::WeakenRight(j) => premises_weaken_right(alloc, sequent, *j),
        FoRule::Contract(i) => premises_contract(alloc, sequent, *i),
        FoRule::Unfold(i) => premises_unfold(alloc, theory, sequent, *i),
        FoRule::Cut(atom) => premises_cut(alloc, sequent, atom),
        FoRule::Right { atom, case, terms } => {
            premises_right(alloc, theory, sequent, *atom, *case, terms)
        }
    }
}

/// The premises of a rule at a sequent, with their trace pairs, or the rule's first fault. The sequent has at most 32
/// atoms on the left and 16 on the right.
pub fn premises(
    alloc: Global,
    theory: &FoTheory,
    sequent: &FoSequent,
    rule: &FoRule,
) -> Result<Vec<FoPremise>, FoRuleError>
    requires left_fits { length sequent.now.left ≤ MOST_LEFT }
    requires right_fits { length sequent.now.right ≤ MOST_RIGHT }
    ensures answer { IsAnswer result (rule_answer theory.now sequent.now rule.now) }
    ensures sound { IfOk result (λ v. HasConstant theory.now → IsOpenSequent theory.now.constructors sequent.now
        → HasOpenTerms theory.now.constructors rule.now → IsLocallySound theory.now sequent.now v.items) }
{
    premises_by_rule(alloc, theory, sequent, rule)
}
