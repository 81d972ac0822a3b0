// Cells stand at different addresses, and none stands at `nil`.
ghost use Rattle.std.specs.Prelude.{◌≡◌, ◌<◌, IfOk, List, length, nat_eq, if◌then◌else◌};
ghost use Rattle.cyc_basics.specs.Limits.{AreLimits};
ghost use Rattle.heap_formula.specs.declared.atoms.Pure.TheVariants.{Neq};
ghost use Rattle.heap_formula.specs.declared.commands.Command.{Command};
ghost use Rattle.heap_formula.specs.declared.terms.Term.TheVariants.{Nil};
ghost use Rattle.heap_formula.specs.Definitions.{Definition};
ghost use Rattle.heap_formula.specs.Judgements.{IsLocallySound, antecedent as antecedent_of};
ghost use Rattle.rule_table.specs.Answer.{one};
ghost use Rattle.rule_table.specs.Answered.{IsAnswer};
ghost use Rattle.rule_table.specs.Table.{with_pure, distinct_answer};
ghost use Rattle.rule_table.specs.Tests.{address_of as address};

use cyc_basics::limits::{Limits, MOST_PURE};
use cyc_basics::memory::OutOfMemory;
use heap_formula::{Judgement, Premise, Pure, RuleError, RuleFault, Spatial, Term};
use rule_table::{antecedent, has_room, numbered, one_premise, with_pure_atom};
use std::alloc::Global;

fn address_of(atom: &Spatial) -> Option<Term>
    ensures { result ≡ address atom.now }
{
    match atom {
        Spatial::Cell(t, _) => Some(*t),
        Spatial::Pred(_, _) => None,
    }
}

fn other_term(i: u32, k: u32, u: Term) -> Term
    ensures { result ≡ if nat_eq i k then Nil else u }
{
    if i == k { Term::Nil } else { u }
}

fn with_difference(
    alloc: Global,
    judgement: &Judgement,
    t: Term,
    u: Term,
) -> Result<Vec<Premise>, OutOfMemory>
    requires { length (antecedent_of judgement.now).pure < MOST_PURE }
    ensures { IfOk result (λ v. v.items ≡ one (with_pure judgement.now (Neq t u))) }
{
    one_premise(alloc, with_pure_atom(alloc, judgement, Pure::Neq(t, u))?)
}

fn distinct(
    alloc: Global,
    judgement: &Judgement,
    i: u32,
    k: u32,
    most: Limits,
) -> Result<Vec<Premise>, RuleError>
    requires { AreLimits most }
    ensures { IsAnswer result (distinct_answer most judgement.now i k) }
{
    let Some(x) = antecedent(judgement).spatial_at(i) else {
        return Err(RuleError::Fault(RuleFault::NoSuchAtom));
    };
    let Some(y) = antecedent(judgement).spatial_at(k) else {
        return Err(RuleError::Fault(RuleFault::NoSuchAtom));
    };
    let Some(t) = address_of(x) else {
        return Err(RuleError::Fault(RuleFault::NoCell));
    };
    let Some(u) = address_of(y) else {
        return Err(RuleError::Fault(RuleFault::NoCell));
    };
    if !has_room(judgement, most) {
        return Err(RuleError::Fault(RuleFault::TooManyAtoms));
    }
    numbered(with_difference(alloc, judgement, t, other_term(i, k, u))?)
}

/// The judgement with one more pure atom in the antecedent: the addresses of its cells `i` and `k`, counted among the
/// spatial atoms from 0, differ; where `i` is `k`, that address is not `nil`. `most` are the limits of the format's version.
pub fn premises_distinct(
    alloc: Global,
    judgement: &Judgement,
    _p: u16,
    i: u32,
    k: u32,
    most: Limits,
) -> Result<Vec<Premise>, RuleError>
    requires { AreLimits most }
    ensures answer { IsAnswer result (distinct_answer most judgement.now i k) }
    ensures sound { IfOk result (λ v. (ds : List Definition) (lines : List Command)
        → IsLocallySound ds lines judgement.now v.items) }
{
    distinct(alloc, judgement, i, k, most)
}
