//! What may stand in a proof file, and that the rules keep it so. The functions here do nothing; their clauses are
//! laws.

ghost use Rattle.std.specs.Prelude.{◌≡◌, ℕ, ◌≤◌, List, length, Ok, None};
ghost use Rattle.cyc_basics.specs.Limits.{AreLimits};
ghost use Rattle.cyc_basics.specs.declared.limits.Limits.{Limits};
ghost use Rattle.heap_formula.specs.Definitions.{Definition};
ghost use Rattle.heap_formula.specs.Words.{Each};
ghost use Rattle.heap_formula.specs.declared.commands.Command.{Command};
ghost use Rattle.heap_formula.specs.declared.judgements.Judgement.{Judgement};
ghost use Rattle.heap_formula.specs.declared.judgements.Premise.{Premise};
ghost use Rattle.heap_formula.specs.declared.proof_rules.Link.{Link};
ghost use Rattle.heap_formula.specs.declared.proof_rules.Rule.{Rule};
ghost use Rattle.heap_formula.specs.declared.proof_rules.Reason.TheVariants.{Step, Back};
ghost use Rattle.goto_lang.specs.Lines.{IsProgram};
ghost use Rattle.rule_table.specs.LinkTable.{link_fault};
ghost use Rattle.rule_table.specs.RuleBook.{rule_answer};
ghost use Rattle.rule_book.specs.Limits.{IsDefinitionWithin, IsJudgementWithin, IsPremiseWithin, IsRuleWithin};
ghost use Rattle.rule_book.specs.Limits.{AreEndsWithin};
ghost use Rattle.rule_book.specs.Limits.{HasShortNumbers, IsShortNumber};

use cyc_basics::limits::MOST_CASES;

/// The premises of a rule stay within the limits that its judgement keeps, and are few.
/// What a rule brings in of its own, the terms of a Split or an Instantiate and the formula of a Cut, has to be within
/// them too, and so have the definitions and the ends of the program.
pub fn premises_stay_within()
    ensures within { (most : Limits) (ds : List Definition) (lines : List Command) (j : Judgement) (rule : Rule)
        (ps : List Premise) → Each (IsDefinitionWithin most ds) ds → IsProgram lines → AreEndsWithin most ds lines
        → IsJudgementWithin most ds (length lines) j → IsRuleWithin most ds rule
        → rule_answer most ds lines j rule ≡ Ok ps → Each (IsPremiseWithin most ds (length lines)) ps }
    ensures few { (most : Limits) (ds : List Definition) (lines : List Command) (j : Judgement) (rule : Rule)
        (ps : List Premise) → AreLimits most → Each (IsDefinitionWithin most ds) ds
        → rule_answer most ds lines j rule ≡ Ok ps → length ps ≤ MOST_CASES }
{}

/// A rule or a link without a fault names small numbers alone: places in short lists, so each fits nine digits. A link's
/// target is no place in its bud, so no fault bounds it: it is the number of a node, and has to be short by itself.
pub fn reasons_are_short()
    ensures rules { (most : Limits) (ds : List Definition) (lines : List Command) (j : Judgement) (rule : Rule)
        (ps : List Premise) → AreLimits most → Each (IsDefinitionWithin most ds) ds
        → IsJudgementWithin most ds (length lines) j → rule_answer most ds lines j rule ≡ Ok ps
        → HasShortNumbers (Step rule) }
    ensures links { (most : Limits) (ds : List Definition) (count p : ℕ) (bud companion : Judgement) (link : Link)
        → AreLimits most → IsJudgementWithin most ds count bud → link_fault bud companion link p ≡ None
        → IsShortNumber link.target → HasShortNumbers (Back link) }
{}
