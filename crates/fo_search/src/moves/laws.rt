// What is offered has no fault, and stays within the limits of a file. The functions do nothing.
ghost use Rattle.std.specs.Prelude.{◌≡◌, ◌≤◌, ℕ, None};
ghost use Rattle.heap_formula.specs.Words.{Each};
ghost use Rattle.fo_formula.specs.declared.nodes.FoLink.{FoLink};
ghost use Rattle.fo_formula.specs.declared.nodes.FoReason.TheVariants.{Rule, Link};
ghost use Rattle.fo_formula.specs.declared.nodes.FoRule.{FoRule};
ghost use Rattle.fo_formula.specs.declared.sequents.FoSequent.{FoSequent};
ghost use Rattle.fo_formula.specs.declared.theory.FoTheory.{FoTheory};
ghost use Rattle.fo_formula.specs.Sizes.{sequent_size};
ghost use Rattle.fo_formula.specs.LinkTable.{link_fault};
ghost use Rattle.fo_logic.specs.Limits.{HasAtomsWithin, IsReasonWithin, IsRuleWithin};
ghost use Rattle.fo_search.specs.Trying.{HasPremises, HasRoomFor};
ghost use Rattle.fo_search.specs.Before.{rules_before};
ghost use Rattle.fo_search.specs.Links.{links_to};
ghost use Rattle.fo_search.specs.After.{rules_after};

use cyc_basics::limits::MOST_TERMS;

/// Each rule that is offered has premises.
pub fn offered_rules_have_premises()
    ensures before { (t : FoTheory) (s : FoSequent) → Each (HasPremises t s) (rules_before t s) }
    ensures after { (t : FoTheory) (s : FoSequent) → Each (HasPremises t s) (rules_after t s) }
{}

/// Each link that is offered leads to the companion, and has no fault.
pub fn offered_links_have_no_fault()
    ensures target { (most number : ℕ) (bud companion : FoSequent)
        → Each (λ (link : FoLink). link.to ≡ number) (links_to most bud companion number) }
    ensures fault { (most number : ℕ) (bud companion : FoSequent)
        → Each (λ (link : FoLink). link_fault bud companion link ≡ None) (links_to most bud companion number) }
{}

/// A sequent of at most 4,096 terms has no more with the reason that is offered to it.
pub fn offered_reasons_are_small()
    ensures before { (t : FoTheory) (s : FoSequent) → sequent_size s ≤ MOST_TERMS
        → Each (λ (rule : FoRule). HasRoomFor s (Rule rule)) (rules_before t s) }
    ensures links { (most number : ℕ) (bud companion : FoSequent)
        → Each (λ (link : FoLink). HasRoomFor bud (Link link)) (links_to most bud companion number) }
    ensures after { (t : FoTheory) (s : FoSequent) → sequent_size s ≤ MOST_TERMS
        → Each (λ (rule : FoRule). HasRoomFor s (Rule rule)) (rules_after t s) }
{}

/// What is offered stays within the limits of a file.
pub fn offered_reasons_stay_within()
    ensures before { (t : FoTheory) (s : FoSequent) → Each (IsRuleWithin t) (rules_before t s) }
    ensures links { (t : FoTheory) (most number : ℕ) (bud companion : FoSequent)
        → HasAtomsWithin t bud → HasAtomsWithin t companion
        → Each (λ (link : FoLink). IsReasonWithin t (Link link)) (links_to most bud companion number) }
    ensures after { (t : FoTheory) (s : FoSequent) → HasAtomsWithin t s → Each (IsRuleWithin t) (rules_after t s) }
{}
