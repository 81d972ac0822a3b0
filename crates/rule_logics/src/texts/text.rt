// What a logic says of its texts.
ghost use Rattle.std.specs.Prelude.{◌≡◌};
ghost use Rattle.cyc_grammar.specs.Giving.{Gives};
ghost use Rattle.rule_logics.specs.Text.{TextValue};

use cyc_basics::memory::OutOfMemory;
use cyc_grammar::{Cursor, Refusal};
use std::alloc::Global;

/// The texts of a logic of rules.
pub trait RuleText: Copy + Drop {
    /// What a node states.
    type Judgement: Drop;

    /// A rule, with what it names.
    type Rule: Drop;

    /// What may be wrong with a rule.
    type Fault: Copy;

    /// The words around a proof, and how its parts are read.
    ghost text: { Self → TextValue Self.Judgement Self.Rule Self.Fault };

    /// The word with which a proof begins.
    fn title(&self) -> &'static str
        ensures { result.now ≡ (text self.now).title };

    /// What a judgement is called.
    fn kind(&self) -> &'static str
        ensures { result.now ≡ (text self.now).kind };

    /// How many premises a rule may have beside one.
    fn more_premises(&self) -> usize
        ensures { result ≡ (text self.now).more };

    /// The name of a rule's fault.
    fn fault_name(&self, fault: Self::Fault) -> &'static str
        ensures { result.now ≡ (text self.now).fault fault };

    /// Reads a judgement.
    fn read_judgement(
        &self,
        alloc: Global,
        cursor: &mut Cursor<'_, '_>,
    ) -> Result<Self::Judgement, Refusal>
        ensures { Gives (λ x. (x, cursor.new)) result ((text self.now).judgement cursor.old) };

    /// Reads a rule.
    fn read_rule(&self, alloc: Global, cursor: &mut Cursor<'_, '_>) -> Result<Self::Rule, Refusal>
        ensures { Gives (λ x. (x, cursor.new)) result ((text self.now).rule cursor.old) };

    /// Writes a judgement; what is written is read again before it is given.
    fn write_judgement(
        &self,
        judgement: &Self::Judgement,
        out: &mut Vec<u8>,
    ) -> Result<(), OutOfMemory>;

    /// Writes a rule.
    fn write_rule(&self, rule: &Self::Rule, out: &mut Vec<u8>) -> Result<(), OutOfMemory>;
}
