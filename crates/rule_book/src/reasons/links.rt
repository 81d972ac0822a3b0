// The premise of a link: its companion, with the trace pairs of the map.
ghost use Rattle.std.specs.Prelude.{◌≡◌, ◌<◌, ◌≤◌, List, length, IfOk, Some};
ghost use Rattle.heap_formula.specs.Definitions.{Definition};
ghost use Rattle.heap_formula.specs.Judgements.{IsLocallySound};
ghost use Rattle.heap_formula.specs.Positions.{pairs_from};
ghost use Rattle.heap_formula.specs.Words.{Each};
ghost use Rattle.rule_table.specs.Answered.{IsAnswer};
ghost use Rattle.rule_table.specs.LinkTable.{link_premise as companion_premise};
ghost use Rattle.rule_table.specs.RuleBook.{leaves_nothing as nothing_is_over, program_link_fault};
ghost use Rattle.rule_table.specs.Soundness.{AreUniversal};
ghost use Rattle.rule_book.specs.Answers.{entry_of, link_answer};

use crate::variables_of;
use back_links::link_fault;
use cyc_basics::limits::MOST_SPATIAL;
use cyc_basics::memory::OutOfMemory;
use goto_lang::Program;
use heap_formula::{Judgement, Link, Pair, Pairs, Premise, RuleError, RuleFault, Spatial};
use rule_table::{antecedent, one_premise};
use std::alloc::Global;

fn entry_at(entries: &[u32], k: usize) -> u32
    ensures { result ≡ entry_of entries.now k }
{
    if k < entries.len() { entries[k] } else { 0 }
}

fn old_at(entries: &[u32], k: usize) -> u8
    requires { entry_of entries.now k < 256 }
    ensures { result ≡ entry_of entries.now k }
{
    entry_at(entries, k) as u8
}

/// The map's entry for each predicate atom of the companion.
fn link_pairs(alloc: Global, entries: &[u32], atoms: &[Spatial]) -> Result<Pairs, OutOfMemory>
    requires few { length atoms.now ≤ MOST_SPATIAL }
    requires small { Each (λ p. p.old < 256) (pairs_from (entry_of entries.now) 0 atoms.now) }
    ensures { IfOk result (λ p. p ≡ pairs_from (entry_of entries.now) 0 atoms.now) }
{
    let mut pairs = Pairs::new(alloc);
    for (k, atom) in atoms.iter().enumerate() {
        if let Spatial::Pred(_, _) = atom {
            pairs.push(Pair {
                old: old_at(entries, k),
                new: k as u8,
                progress: false,
            })?;
        }
    }
    Ok(pairs)
}

/// The companion with the pairs from the bud's atoms that the map names. A link without a fault has small entries.
fn link_premise(alloc: Global, companion: &Judgement, link: &Link) -> Result<Premise, OutOfMemory>
    requires { Each (λ p. p.old < 256) (companion_premise companion.now link.now).pairs }
    ensures { IfOk result (λ p. p ≡ companion_premise companion.now link.now) }
{
    let atoms = antecedent(companion).spatial();
    let pairs = link_pairs(alloc, link.map.as_slice(), atoms)?;
    let judgement = companion.clone()?;
    Ok(Premise { judgement, pairs })
}

/// Whether no atom of the bud's is over at a link to the companion, or the program has no end: an end speaks of the
/// whole part.
pub fn leaves_nothing(program: &Program, bud: &Judgement, companion: &Judgement) -> bool
    ensures { result ≡ nothing_is_over program.now bud.now companion.now }
{
    match (bud, companion) {
        (Judgement::Term(_, a), Judgement::Term(_, b)) => {
            !program.has_ends() || a.spatial().len() <= b.spatial().len()
        }
        _ => true,
    }
}

/// The first fault of a link between judgements on the program.
fn fault_of_link(
    program: &Program,
    bud: &Judgement,
    companion: &Judgement,
    link: &Link,
) -> Option<RuleFault>
    ensures { result ≡ program_link_fault program.now bud.now companion.now link.now }
{
    if let Some(fault) = link_fault(bud, companion, link, variables_of(program, bud)) {
        return Some(fault);
    }
    if leaves_nothing(program, bud, companion) {
        return None;
    }
    Some(RuleFault::LinkSpatial(antecedent(companion).spatial().len() as u32))
}

/// The premise of a link from a bud to its companion, or the first fault.
pub(crate) fn premises_by_link(
    alloc: Global,
    program: &Program,
    bud: &Judgement,
    companion: &Judgement,
    link: &Link,
) -> Result<Vec<Premise>, RuleError>
    ensures answer { IsAnswer result (link_answer program.now bud.now link.now (Some companion.now)) }
    ensures sound { IfOk result (λ v. (ds : List Definition) → AreUniversal link.now.subst
        → IsLocallySound ds program.now bud.now v.items) }
{
    let _atoms = antecedent(bud).spatial();
    if let Some(fault) = fault_of_link(program, bud, companion, link) {
        return Err(RuleError::Fault(fault));
    }
    let premise = link_premise(alloc, companion, link)?;
    Ok(one_premise(alloc, premise)?)
}
