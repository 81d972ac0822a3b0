// An atom that stands on both sides.
ghost use Rattle.std.specs.Prelude.{◌≡◌, ◌<◌, [], ◌∷◌, IfOk, List, length};
ghost use Rattle.heap_formula.specs.declared.commands.Command.{Command};
ghost use Rattle.heap_formula.specs.declared.judgements.Judgement.TheVariants.{Entail};
ghost use Rattle.heap_formula.specs.Definitions.{Definition};
ghost use Rattle.heap_formula.specs.Judgements.{IsLocallySound};
ghost use Rattle.heap_formula.specs.Positions.{kept_pairs};
ghost use Rattle.rule_table.specs.Answer.{one};
ghost use Rattle.rule_table.specs.Answered.{IsAnswer};
ghost use Rattle.rule_table.specs.Table.{without_spatial, frame_answer};

use cyc_basics::memory::OutOfMemory;
use heap_formula::{Disjuncts, Heap, Judgement, Premise, RuleError, RuleFault};
use rule_table::{is_same_atom, is_universal_spatial, one_premise, pairs_of_kept};
use std::alloc::Global;

fn framed(
    alloc: Global,
    a: &Heap,
    b: &Heap,
    i: usize,
    k: usize,
) -> Result<Vec<Premise>, OutOfMemory>
    requires i_in { i < length a.now.spatial }
    requires k_in { k < length b.now.spatial }
    ensures { IfOk result (λ v. v.items
        ≡ one (record {
          judgement = Entail (without_spatial i a.now) (without_spatial k b.now ∷ []);
          pairs = kept_pairs i a.now.spatial;
        })) }
{
    let left = a.without_spatial(i)?;
    let right = b.without_spatial(k)?;
    let pairs = pairs_of_kept(alloc, left.spatial(), i)?;
    one_premise(
        alloc,
        Premise {
            judgement: Judgement::Entail(left, Disjuncts::single(alloc, right)?),
            pairs,
        },
    )
}

fn frame(alloc: Global, judgement: &Judgement, i: u32, k: u32) -> Result<Vec<Premise>, RuleError>
    ensures { IsAnswer result (frame_answer judgement.now i k) }
{
    let Judgement::Entail(a, bs) = judgement else {
        return Err(RuleError::Fault(RuleFault::WrongJudgement));
    };
    let [b] = bs.heaps() else {
        return Err(RuleError::Fault(RuleFault::NotSingle));
    };
    let Some(x) = a.spatial_at(i) else {
        return Err(RuleError::Fault(RuleFault::NoSuchAtom));
    };
    let Some(y) = b.spatial_at(k) else {
        return Err(RuleError::Fault(RuleFault::NoSuchAtom));
    };
    if !is_universal_spatial(y) {
        return Err(RuleError::Fault(RuleFault::HasExistential));
    }
    if !is_same_atom(x, y) {
        return Err(RuleError::Fault(RuleFault::AtomsDiffer));
    }
    Ok(framed(alloc, a, b, i as usize, k as usize)?)
}

/// The entailment without spatial atom `i` of the antecedent and spatial atom `k` of its one disjunct, each counted
/// from 0, where the two are one as they stand and have no existential variable (Berdine, Calcagno and O'Hearn 2005).
pub fn premises_frame(
    alloc: Global,
    judgement: &Judgement,
    i: u32,
    k: u32,
) -> Result<Vec<Premise>, RuleError>
    ensures answer { IsAnswer result (frame_answer judgement.now i k) }
    ensures sound { IfOk result (λ v. (ds : List Definition) (lines : List Command)
        → IsLocallySound ds lines judgement.now v.items) }
{
    frame(alloc, judgement, i, k)
}
