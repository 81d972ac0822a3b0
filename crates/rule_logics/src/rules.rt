// What a logic says of its rules.
ghost use Rattle.std.specs.Prelude.{◌≡◌, ℕ, IfOk};
ghost use Rattle.rule_logics.specs.Rules.{RuleValue, AreRules, AreSound, premises_in};

use cyc_basics::memory::OutOfMemory;
use logics::Subgoal;
use std::alloc::Global;
use std::collections::VecDeque;

/// A logic by its rules.
pub trait RuleLogic: Copy + Drop {
    /// What a node states.
    type Judgement: Drop;

    /// A rule, with what it names.
    type Rule: Drop;

    /// What may be wrong with a rule at a judgement.
    type Fault: Copy;

    /// The rules as plain data.
    ghost rules: { Self → RuleValue Self.Judgement Self.Rule Self.Fault };

    /// The judgement holds at the stages, a number for each position.
    ghost holds: { Self → (ℕ → ℕ) → Self.Judgement → Type 0 };

    /// What a judgement says.
    ghost means: { Self → Self.Judgement → Type 0 };

    /// Whether traces follow the position of the judgement.
    fn is_followed(&self, judgement: &Self::Judgement, position: u8) -> bool
        ensures { result ≡ (rules self.now).follows judgement.now position };

    /// Whether two judgements are one as they stand.
    fn is_same(&self, a: &Self::Judgement, b: &Self::Judgement) -> bool
        ensures { result ≡ (rules self.now).same a.now b.now };

    /// The same judgement once more.
    fn copy(
        &self,
        alloc: Global,
        judgement: &Self::Judgement,
    ) -> Result<Self::Judgement, OutOfMemory>
        ensures { IfOk result (λ j. j ≡ judgement.now) };

    /// What a rule leaves to be shown of a judgement, or its first fault. A pair counts where traces follow both its
    /// positions, and these are below 32; the others are left out.
    fn premises(
        &self,
        alloc: Global,
        judgement: &Self::Judgement,
        rule: &Self::Rule,
    ) -> Result<Result<Vec<Subgoal<Self::Judgement>>, Self::Fault>, OutOfMemory>
        ensures { IfOk result (λ r. premises_in r ≡ (rules self.now).premises judgement.now rule.now) };

    /// The rules that a search tries at a judgement, in order.
    fn offers(
        &self,
        alloc: Global,
        judgement: &Self::Judgement,
    ) -> Result<VecDeque<Self::Rule>, OutOfMemory>
        ensures { IfOk result (λ v. v.items ≡ (rules self.now).offers judgement.now) };

    /// Judgements that are the same are one, and premises are few.
    ghost laws: { (l : Self) → AreRules (rules l) };

    /// A judgement holds at stages where what its rule leaves to be shown holds at all stages that follow the pairs.
    ghost sound: { (l : Self) → AreSound (rules l) (holds l) };

    /// What holds at all stages is true.
    ghost is_true: { (l : Self) (j : Self.Judgement) → ((σ : ℕ → ℕ) → holds l σ j) → means l j };
}
