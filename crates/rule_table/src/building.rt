// Parts of premises.
ghost use Rattle.std.specs.Prelude.{◌≡◌, ◌<◌, ◌≤◌, ◌∷◌, ◌++◌, ◌+◌, [], length, IfOk};
ghost use Rattle.heap_formula.specs.Judgements.{antecedent as antecedent_of, with_antecedent as judgement_with};
ghost use Rattle.heap_formula.specs.Positions.{without};
ghost use Rattle.rule_table.specs.Answer.{one, two};
ghost use Rattle.rule_table.specs.Table.{with_pures, with_pure, with_right};

use crate::pairing::pairs_of_same;
use cyc_basics::limits::MOST_PURE;
use heap_formula::{Disjuncts, Heap, Judgement, OutOfMemory, Premise, Pure};
use std::alloc::Global;

/// The antecedent, or the symbolic state.
pub fn antecedent(judgement: &Judgement) -> &Heap
    ensures { result.now ≡ antecedent_of judgement.now }
{
    match judgement {
        Judgement::Entail(a, _) => a,
        Judgement::Term(_, a) => a,
    }
}

/// A copy of the judgement with another antecedent, or another symbolic state.
pub fn with_antecedent(judgement: &Judgement, a: Heap) -> Result<Judgement, OutOfMemory>
    ensures { IfOk result (λ j. j ≡ judgement_with judgement.now a) }
{
    match judgement {
        Judgement::Entail(_, bs) => Ok(Judgement::Entail(a, bs.clone()?)),
        Judgement::Term(line, _) => Ok(Judgement::Term(*line, a)),
    }
}

/// The atoms in order without the one at a place.
pub fn atoms_without<T: Copy>(alloc: Global, atoms: &[T], k: usize) -> Result<Vec<T>, OutOfMemory>
    requires { k < length atoms.now }
    ensures value { IfOk result (λ v. v.items ≡ without k atoms.now) }
    ensures shorter { IfOk result (λ v. length v.items + 1 ≡ length atoms.now) }
{
    let mut kept = Vec::from_slice(alloc, &atoms[..k])?;
    kept.extend_from_slice(&atoms[k + 1..])?;
    Ok(kept)
}

/// A list of one premise.
pub fn one_premise(alloc: Global, premise: Premise) -> Result<Vec<Premise>, OutOfMemory>
    ensures { IfOk result (λ v. v.items ≡ one premise) }
{
    let mut premises = Vec::new(alloc);
    premises.push(premise)?;
    Ok(premises)
}

/// A list of two premises.
pub fn two_premises(
    alloc: Global,
    first: Premise,
    second: Premise,
) -> Result<Vec<Premise>, OutOfMemory>
    ensures { IfOk result (λ v. v.items ≡ two first second) }
{
    let mut premises = Vec::new(alloc);
    premises.push(first)?;
    premises.push(second)?;
    Ok(premises)
}

/// The judgement with other pure atoms on the left, each predicate atom being paired with itself.
pub fn with_pure_atoms(
    alloc: Global,
    judgement: &Judgement,
    pure: Vec<Pure>,
) -> Result<Premise, OutOfMemory>
    requires { length pure.items ≤ MOST_PURE }
    ensures { IfOk result (λ p. p ≡ with_pures judgement.now pure.items) }
{
    let spatial = Vec::from_slice(alloc, antecedent(judgement).spatial())?;
    let pairs = pairs_of_same(alloc, antecedent(judgement).spatial())?;
    Ok(Premise {
        judgement: with_antecedent(judgement, Heap::from_lists(pure, spatial))?,
        pairs,
    })
}

fn pure_atoms_and(alloc: Global, atoms: &[Pure], atom: Pure) -> Result<Vec<Pure>, OutOfMemory>
    ensures { IfOk result (λ v. v.items ≡ atoms.now ++ atom ∷ []) }
{
    let mut all = Vec::from_slice(alloc, atoms)?;
    all.push(atom)?;
    Ok(all)
}

/// The judgement with one more pure atom on the left, each predicate atom being paired with itself.
pub fn with_pure_atom(
    alloc: Global,
    judgement: &Judgement,
    atom: Pure,
) -> Result<Premise, OutOfMemory>
    requires { length (antecedent_of judgement.now).pure < MOST_PURE }
    ensures { IfOk result (λ p. p ≡ with_pure judgement.now atom) }
{
    let pure = pure_atoms_and(alloc, antecedent(judgement).pure(), atom)?;
    with_pure_atoms(alloc, judgement, pure)
}

/// The entailment of copies of the disjuncts by a copy of the antecedent, each predicate atom being paired with itself.
pub fn with_disjuncts(alloc: Global, a: &Heap, bs: &Disjuncts) -> Result<Premise, OutOfMemory>
    ensures { IfOk result (λ p. p ≡ with_right a.now bs.now) }
{
    let pairs = pairs_of_same(alloc, a.spatial())?;
    Ok(Premise {
        judgement: Judgement::Entail(a.clone()?, bs.clone()?),
        pairs,
    })
}

/// The entailment of one disjunct by a copy of the antecedent, each predicate atom being paired with itself.
pub fn with_disjunct(alloc: Global, a: &Heap, b: Heap) -> Result<Premise, OutOfMemory>
    ensures { IfOk result (λ p. p ≡ with_right a.now (b ∷ [])) }
{
    let pairs = pairs_of_same(alloc, a.spatial())?;
    Ok(Premise {
        judgement: Judgement::Entail(a.clone()?, Disjuncts::single(alloc, b)?),
        pairs,
    })
}
