// What a goal is offered has no fault, and stays within the limits of a proof file. The functions do nothing; their
// clauses are laws.

ghost use Rattle.std.specs.Prelude.{◌≡◌, ℕ, ◌<◌, List, length, Some, slice_get};
ghost use Rattle.cyc_basics.specs.Limits.{AreLimits};
ghost use Rattle.heap_formula.specs.Words.{Each};
ghost use Rattle.heap_formula.specs.declared.judgements.Judgement.{Judgement};
ghost use Rattle.heap_formula.specs.declared.proof_rules.Link.{Link};
ghost use Rattle.heap_formula.specs.declared.proof_rules.Reason.TheVariants.{Back};
ghost use Rattle.goto_lang.specs.Lines.{IsProgram};
ghost use Rattle.search_moves.specs.Nodes.{MadeNode, OpenGoal, judgement_of};
ghost use Rattle.search_moves.specs.Trying.{Theory};
ghost use Rattle.search_moves.specs.Offering.{links_offered, rules_offered};
ghost use Rattle.heap_formula.specs.Closedness.{IsUniversalHeap};
ghost use Rattle.heap_formula.specs.Judgements.{antecedent};
ghost use Rattle.proof_search.specs.Faultless.{HasPremises, IsLinked};
ghost use Rattle.rule_book.specs.Limits.{IsDefinitionWithin, IsJudgementWithin, IsRuleWithin, IsReasonWithin};

/// The rules that a goal within the limits is offered bring in nothing beyond them.
pub fn rules_stay_within()
    ensures { (t : Theory) (nodes : List MadeNode) (g : OpenGoal) → 0 < t.most.spatial
        → AreLimits t.most → Each (IsDefinitionWithin t.most t.definitions) t.definitions → IsProgram t.lines
        → IsJudgementWithin t.most t.definitions (length t.lines) g.premise.judgement
        → Each (IsRuleWithin t.most t.definitions) (rules_offered t nodes g) }
{}

/// So do the links; and each leads to one of the nodes before the goal.
pub fn links_stay_within()
    ensures within { (t : Theory) (nodes : List MadeNode) (g : OpenGoal)
        → IsJudgementWithin t.most t.definitions (length t.lines) g.premise.judgement
        → ((v : ℕ) (node : MadeNode) → slice_get nodes v ≡ Some node
        → IsJudgementWithin t.most t.definitions (length t.lines) (judgement_of node))
        → Each (λ (link : Link). IsReasonWithin t.most t.definitions (Back link)) (links_offered t nodes g) }
    ensures back { (t : Theory) (nodes : List MadeNode) (g : OpenGoal)
        → Each (λ (link : Link). link.target < length nodes) (links_offered t nodes g) }
{}

/// Each rule that a goal without existentials in its antecedent is offered has no fault there.
pub fn offered_rules_have_premises()
    ensures { (t : Theory) (nodes : List MadeNode) (g : OpenGoal)
        → IsUniversalHeap (antecedent g.premise.judgement)
        → Each (HasPremises t g.premise.judgement) (rules_offered t nodes g) }
{}

/// Each link that is offered leads to one of the nodes, and has no fault there.
pub fn offered_links_have_no_fault()
    ensures { (t : Theory) (nodes : List MadeNode) (g : OpenGoal)
        → Each (IsLinked t nodes g.premise.judgement) (links_offered t nodes g) }
{}
