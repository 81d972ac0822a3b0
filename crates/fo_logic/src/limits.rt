//! The limits of a file of first-order logic, and that rules keep to them. The functions here do nothing; their clauses
//! are laws.

ghost use Rattle.std.specs.Prelude.{◌≡◌, ◌<◌, List, None, Ok};
ghost use Rattle.heap_formula.specs.Words.{Each};
ghost use Rattle.fo_formula.specs.declared.nodes.FoLink.{FoLink};
ghost use Rattle.fo_formula.specs.declared.nodes.FoReason.{FoReason};
ghost use Rattle.fo_formula.specs.declared.nodes.FoReason.TheVariants.{Rule, Link};
ghost use Rattle.fo_formula.specs.declared.nodes.FoRule.{FoRule};
ghost use Rattle.fo_formula.specs.declared.sequents.FoSequent.{FoSequent};
ghost use Rattle.fo_formula.specs.declared.theory.FoTheory.{FoTheory};
ghost use Rattle.fo_formula.specs.Shapes.{IsOpenSequent};
ghost use Rattle.fo_formula.specs.declared.table.premises.FoPremise.{FoPremise};
ghost use Rattle.fo_formula.specs.LinkTable.{link_fault};
ghost use Rattle.fo_formula.specs.Soundness.{HasOpenReason};
ghost use Rattle.fo_formula.specs.Table.{rule_answer};
ghost use Rattle.fo_logic.specs.Limits.{IsTheoryWithin, IsSequentWithin, HasAtomsWithin, IsRuleWithin, IsReasonWithin};
ghost use Rattle.fo_logic.specs.Limits.{IsNumberWithin, numbers_of};

use cyc_basics::limits::MOST_NODES;

/// The premises of a rule are within the limits where the theory, the sequent and the rule are.
pub fn premises_stay_within()
    ensures { (t : FoTheory) (s : FoSequent) (rule : FoRule) (ps : List FoPremise)
        → IsTheoryWithin t → IsSequentWithin t s → IsRuleWithin t rule
        → rule_answer t s rule ≡ Ok ps → Each (λ (p : FoPremise). IsSequentWithin t p.sequent) ps }
{}

/// What is within the limits is of terms over the constructors.
pub fn within_is_open()
    ensures sequents { (t : FoTheory) (s : FoSequent) → HasAtomsWithin t s → IsOpenSequent t.constructors s }
    ensures reasons { (t : FoTheory) (r : FoReason) → IsReasonWithin t r → HasOpenReason t.constructors r }
{}

/// The numbers of a reason without a fault are within the limits, where a link leads to one of at most 20,000 nodes.
pub fn numbers_stay_within()
    ensures rules { (t : FoTheory) (s : FoSequent) (rule : FoRule) (ps : List FoPremise)
        → IsTheoryWithin t → IsSequentWithin t s
        → rule_answer t s rule ≡ Ok ps → Each IsNumberWithin (numbers_of (Rule rule)) }
    ensures links { (t : FoTheory) (bud companion : FoSequent) (link : FoLink)
        → IsSequentWithin t bud → link.to < MOST_NODES
        → link_fault bud companion link ≡ None → Each IsNumberWithin (numbers_of (Link link)) }
{}
