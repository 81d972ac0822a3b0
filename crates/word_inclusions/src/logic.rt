// Inclusions of regular expressions as a logic of rules.
use crate::inclusion::Inclusion;
use crate::step::step;
use cyc_basics::memory::OutOfMemory;
use logics::Subgoal;
use rule_logics::RuleLogic;
use std::alloc::Global;
use std::collections::VecDeque;

/// The rule of a node: a step, which the left side determines.
#[derive(Clone, Copy)]
pub enum WordRule {
    Step,
}

/// What may be wrong with a step.
#[derive(Clone, Copy)]
pub enum WordFault {
    /// No factor is left, and the right side has no empty word.
    NoEmptyWord,
}

/// Inclusions of regular expressions.
#[derive(Clone, Copy)]
pub struct WordInclusions;

impl RuleLogic for WordInclusions {
    ghost use Rattle.word_inclusions.specs.Inclusions.{word_rules};
    ghost use Rattle.word_inclusions.specs.Stages.{HoldsAt, IsInclusion};
    ghost use Rattle.word_inclusions.specs.Laws.{laws, sound, included};

    type Judgement = Inclusion;

    type Rule = WordRule;

    type Fault = WordFault;

    ghost rules = { λ _. word_rules };

    ghost holds = { λ _. HoldsAt };

    ghost means = { λ _. IsInclusion };

    fn is_followed(&self, judgement: &Inclusion, position: u8) -> bool {
        judgement.left().is_star_at(position)
    }

    fn is_same(&self, a: &Inclusion, b: &Inclusion) -> bool {
        a.left().is_same(b.left()) && a.right().is_same(b.right())
    }

    fn copy(&self, alloc: Global, judgement: &Inclusion) -> Result<Inclusion, OutOfMemory> {
        let left = judgement.left().copy(alloc)?;
        Ok(Inclusion::new(left, judgement.right().copy(alloc)?))
    }

    fn premises(
        &self,
        alloc: Global,
        judgement: &Inclusion,
        _rule: &WordRule,
    ) -> Result<Result<Vec<Subgoal<Inclusion>>, WordFault>, OutOfMemory> {
        step(alloc, judgement.left(), judgement.right())
    }

    fn offers(
        &self,
        alloc: Global,
        _judgement: &Inclusion,
    ) -> Result<VecDeque<WordRule>, OutOfMemory> {
        let mut rules = VecDeque::new(alloc);
        rules.push_back(WordRule::Step)?;
        Ok(rules)
    }

    ghost laws = { λ _. laws };

    ghost sound = { λ _. sound };

    ghost is_true = { λ _. included };
}
