// Judgements that a text may have.
ghost use Rattle.std.specs.Prelude.{◌≡◌, ◌↔◌, None};
ghost use Rattle.std.specs.List.{list_all};
ghost use Rattle.rule_table.specs.Tests.{is_universal_pure as universal_pure};
ghost use Rattle.rule_table.specs.Tests.{is_universal_spatial as universal_spatial, is_universal_heap as is_universal};
ghost use Rattle.rule_book.specs.Limits.{IsJudgementWithin};
ghost use Rattle.formula_reader.specs.Excess.{first_of, disjunct_at, antecedent_excess as excess_of_antecedent};
ghost use Rattle.formula_reader.specs.Excess.{judgement_excess as excess_of_judgement};

use crate::limits::excess::JudgementExcess;
use crate::limits::heaps::heap_excess;
use heap_formula::{Heap, Judgement, Pure, Spatial};
use pred_defs::Defs;
use rule_table::{is_universal_pure, is_universal_spatial};

fn are_universal_pures(atoms: &[Pure]) -> bool
    ensures { result ≡ list_all universal_pure atoms.now }
{
    atoms.iter().all(|atom| is_universal_pure(*atom))
}

fn are_universal_spatials(atoms: &[Spatial]) -> bool
    ensures { result ≡ list_all universal_spatial atoms.now }
{
    atoms.iter().all(|atom| is_universal_spatial(atom))
}

fn is_universal_heap(heap: &Heap) -> bool
    ensures { result ≡ is_universal heap.now }
{
    are_universal_pures(heap.pure()) && are_universal_spatials(heap.spatial())
}

fn antecedent_excess(defs: &Defs, heap: &Heap) -> Option<JudgementExcess>
    ensures { result ≡ excess_of_antecedent defs.now.most defs.now.list heap.now }
{
    if let Some(excess) = heap_excess(defs, heap) {
        return Some(JudgementExcess::Antecedent(excess));
    }
    if !is_universal_heap(heap) {
        return Some(JudgementExcess::Existential);
    }
    None
}

fn disjuncts_excess(defs: &Defs, heaps: &[Heap]) -> Option<JudgementExcess>
    ensures { result ≡ first_of (disjunct_at defs.now.most defs.now.list) 0 heaps.now }
{
    for (place, heap) in heaps.iter().enumerate() {
        if let Some(excess) = heap_excess(defs, heap) {
            return Some(JudgementExcess::Disjunct(place, excess));
        }
    }
    None
}

/// The first limit of the formats that the judgement passes over the definitions and so many lines.
pub fn judgement_excess(defs: &Defs, lines: usize, judgement: &Judgement) -> Option<JudgementExcess>
    ensures first { result ≡ excess_of_judgement defs.now.most defs.now.list lines judgement.now }
    ensures exact { (result ≡ None)
        ↔ IsJudgementWithin defs.now.most defs.now.list lines judgement.now }
{
    match judgement {
        Judgement::Entail(antecedent, disjuncts) => {
            if let Some(excess) = antecedent_excess(defs, antecedent) {
                return Some(excess);
            }
            disjuncts_excess(defs, disjuncts.heaps())
        }
        Judgement::Term(line, state) => {
            if *line == 0 || *line as usize > lines {
                return Some(JudgementExcess::Line);
            }
            antecedent_excess(defs, state)
        }
    }
}
