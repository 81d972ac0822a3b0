// Laws of the table. Each function is a law, and does nothing.
ghost use Rattle.std.specs.Prelude.{◌≡◌, ℕ, List, None, [], ◌∷◌, true};
ghost use Rattle.cyc_basics.specs.declared.limits.Limits.{Limits};
ghost use Rattle.heap_formula.specs.Closedness.{IsUniversalHeap};
ghost use Rattle.heap_formula.specs.Definitions.{Definition};
ghost use Rattle.heap_formula.specs.Judgements.{IsLocallySound, antecedent};
ghost use Rattle.heap_formula.specs.Words.{Each};
ghost use Rattle.heap_formula.specs.declared.commands.Command.{Command};
ghost use Rattle.heap_formula.specs.declared.judgements.Judgement.{Judgement};
ghost use Rattle.heap_formula.specs.declared.proof_rules.Link.{Link};
ghost use Rattle.heap_formula.specs.declared.proof_rules.Rule.{Rule};
ghost use Rattle.rule_table.specs.LinkTable.{link_fault, link_premise};
ghost use Rattle.rule_table.specs.RuleBook.{rule_answer, leaves_nothing};
ghost use Rattle.rule_table.specs.Soundness.{IsSound, IsCommand, AreUniversal, HasVariables};

/// Every rule is locally sound where no existential stands in the antecedent, and the program's commands are as
/// programs have them.
pub fn rules_are_sound()
    ensures { (most : Limits) (ds : List Definition) (lines : List Command) (j : Judgement) (rule : Rule)
        → IsUniversalHeap (antecedent j) → Each IsCommand lines
        → IsSound ds lines j (rule_answer most ds lines j rule) }
{}

/// A link without a fault is locally sound where the substitution has no existential, and no atom of the bud's is over
/// in a program with an end.
pub fn links_are_sound()
    ensures { (ds : List Definition) (lines : List Command) (bud companion : Judgement) (link : Link) (p : ℕ)
        → AreUniversal link.subst → HasVariables lines p bud → leaves_nothing lines bud companion ≡ true
        → link_fault bud companion link p ≡ None → IsLocallySound ds lines bud (link_premise companion link ∷ []) }
{}
