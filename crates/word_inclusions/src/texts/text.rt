// How inclusions are read and written.
use crate::texts::expressions::{Level, any_expression};
use crate::texts::writing::write_expression;
use crate::{Inclusion, WordFault, WordRule};
use cyc_grammar::{Cursor, Refusal};
use rule_logics::OutOfMemory;
use rule_logics::texts::{RuleText, put};
use std::alloc::Global;

/// The texts of inclusions.
#[derive(Clone, Copy)]
pub struct WordTexts;

impl RuleText for WordTexts {
    ghost use Rattle.word_inclusions.specs.Grammar.{word_text};

    type Judgement = Inclusion;

    type Rule = WordRule;

    type Fault = WordFault;

    ghost text = { λ _. word_text };

    fn title(&self) -> &'static str {
        "words"
    }

    fn kind(&self) -> &'static str {
        "inclusion"
    }

    fn more_premises(&self) -> usize {
        1
    }

    fn fault_name(&self, _fault: WordFault) -> &'static str {
        "NoEmptyWord"
    }

    fn read_judgement(
        &self,
        alloc: Global,
        cursor: &mut Cursor<'_, '_>,
    ) -> Result<Inclusion, Refusal> {
        let left = any_expression(alloc, cursor)?;
        cursor.symbol("|-")?;
        let right = any_expression(alloc, cursor)?;
        Ok(Inclusion::new(left, right))
    }

    fn read_rule(&self, _alloc: Global, cursor: &mut Cursor<'_, '_>) -> Result<WordRule, Refusal> {
        cursor.keyword("Step")?;
        Ok(WordRule::Step)
    }

    fn write_judgement(&self, judgement: &Inclusion, out: &mut Vec<u8>) -> Result<(), OutOfMemory> {
        write_expression(judgement.left(), Level::Sum, out)?;
        put(b" |- ", out)?;
        write_expression(judgement.right(), Level::Sum, out)
    }

    fn write_rule(&self, _rule: &WordRule, out: &mut Vec<u8>) -> Result<(), OutOfMemory> {
        put(b"Step", out)
    }
}
