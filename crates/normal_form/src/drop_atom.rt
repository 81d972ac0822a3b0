// A part of the heap that a program is not to need.
ghost use Rattle.std.specs.Prelude.{◌≡◌, ◌<◌, IfOk, List, length, false};
ghost use Rattle.heap_formula.specs.declared.commands.Command.{Command};
ghost use Rattle.heap_formula.specs.declared.judgements.Judgement.TheVariants.{Term as Runs};
ghost use Rattle.heap_formula.specs.Definitions.{Definition};
ghost use Rattle.heap_formula.specs.Judgements.{IsLocallySound};
ghost use Rattle.heap_formula.specs.Positions.{kept_pairs};
ghost use Rattle.heap_formula.specs.Programs.{has_ends};
ghost use Rattle.rule_table.specs.Answer.{one};
ghost use Rattle.rule_table.specs.Answered.{IsAnswer};
ghost use Rattle.rule_table.specs.Table.{without_spatial, drop_answer};

use cyc_basics::memory::OutOfMemory;
use heap_formula::{Heap, Judgement, Premise, RuleError, RuleFault};
use rule_table::{one_premise, pairs_of_kept};
use std::alloc::Global;

fn dropped(alloc: Global, line: u32, a: &Heap, k: usize) -> Result<Vec<Premise>, OutOfMemory>
    requires { k < length a.now.spatial }
    ensures { IfOk result (λ v. v.items
        ≡ one (record { judgement = Runs line (without_spatial k a.now); pairs = kept_pairs k a.now.spatial })) }
{
    let rest = a.without_spatial(k)?;
    let pairs = pairs_of_kept(alloc, rest.spatial(), k)?;
    one_premise(
        alloc,
        Premise {
            judgement: Judgement::Term(line, rest),
            pairs,
        },
    )
}

fn drop_atom(alloc: Global, judgement: &Judgement, k: u32) -> Result<Vec<Premise>, RuleError>
    ensures { IsAnswer result (drop_answer judgement.now k) }
{
    let Judgement::Term(line, a) = judgement else {
        return Err(RuleError::Fault(RuleFault::WrongJudgement));
    };
    if a.spatial().len() <= k as usize {
        return Err(RuleError::Fault(RuleFault::NoSuchAtom));
    }
    Ok(dropped(alloc, *line, a, k as usize)?)
}

/// The judgement on a program's runs without spatial atom `k` of its symbolic state, counted from 0. It is sound where
/// the program has no end: what is dropped would be missed there.
pub fn premises_drop(
    alloc: Global,
    judgement: &Judgement,
    _p: u16,
    k: u32,
) -> Result<Vec<Premise>, RuleError>
    ensures answer { IsAnswer result (drop_answer judgement.now k) }
    ensures sound { IfOk result (λ v. (ds : List Definition) (lines : List Command) → has_ends lines ≡ false
        → IsLocallySound ds lines judgement.now v.items) }
{
    drop_atom(alloc, judgement, k)
}
