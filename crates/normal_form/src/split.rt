// Two terms are equal, or they are not.
ghost use Rattle.std.specs.Prelude.{◌≡◌, ◌<◌, IfOk, List, length};
ghost use Rattle.cyc_basics.specs.Limits.{AreLimits};
ghost use Rattle.heap_formula.specs.declared.atoms.Pure.TheVariants.{Eq, Neq};
ghost use Rattle.heap_formula.specs.declared.commands.Command.{Command};
ghost use Rattle.heap_formula.specs.Definitions.{Definition};
ghost use Rattle.heap_formula.specs.Judgements.{IsLocallySound, antecedent as antecedent_of};
ghost use Rattle.rule_table.specs.Answer.{two};
ghost use Rattle.rule_table.specs.Answered.{IsAnswer};
ghost use Rattle.rule_table.specs.Table.{with_pure, split_answer};

use cyc_basics::limits::{Limits, MOST_PURE};
use cyc_basics::memory::OutOfMemory;
use heap_formula::{Judgement, Premise, Pure, RuleError, RuleFault, Term};
use rule_table::{has_room, numbered, two_premises, with_pure_atom};
use std::alloc::Global;

fn halves(
    alloc: Global,
    judgement: &Judgement,
    t: Term,
    u: Term,
) -> Result<Vec<Premise>, OutOfMemory>
    requires { length (antecedent_of judgement.now).pure < MOST_PURE }
    ensures { IfOk result (λ v. v.items ≡ two (with_pure judgement.now (Eq t u)) (with_pure judgement.now (Neq t u))) }
{
    let equal = with_pure_atom(alloc, judgement, Pure::Eq(t, u))?;
    let different = with_pure_atom(alloc, judgement, Pure::Neq(t, u))?;
    two_premises(alloc, equal, different)
}

fn split(
    alloc: Global,
    judgement: &Judgement,
    t: Term,
    u: Term,
    most: Limits,
) -> Result<Vec<Premise>, RuleError>
    requires { AreLimits most }
    ensures { IsAnswer result (split_answer most judgement.now t u) }
{
    if !has_room(judgement, most) {
        return Err(RuleError::Fault(RuleFault::TooManyAtoms));
    }
    numbered(halves(alloc, judgement, t, u)?)
}

/// The judgement with `t = u` appended to the antecedent's pure atoms, and with `t != u`. `most` are the limits of the
/// format's version.
pub fn premises_split(
    alloc: Global,
    judgement: &Judgement,
    _p: u16,
    t: Term,
    u: Term,
    most: Limits,
) -> Result<Vec<Premise>, RuleError>
    requires { AreLimits most }
    ensures answer { IsAnswer result (split_answer most judgement.now t u) }
    ensures sound { IfOk result (λ v. (ds : List Definition) (lines : List Command)
        → IsLocallySound ds lines judgement.now v.items) }
{
    split(alloc, judgement, t, u, most)
}
