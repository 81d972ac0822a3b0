// The limits that premises keep.
ghost use Rattle.std.specs.Prelude.{◌≡◌, ◌≤◌, ◌<◌, true, ◌&&◌, length, nat_lt, nat_le};
ghost use Rattle.std.specs.List.{list_all};
ghost use Rattle.heap_formula.specs.Fresh.{fresh_number};
ghost use Rattle.heap_formula.specs.declared.proof_rules.RuleFault.TheVariants.{NoFreshVariable};
ghost use Rattle.rule_table.specs.Answer.{needs, is_short as short, has_numbers, each_heap, heaps_of, disjuncts};
ghost use Rattle.rule_table.specs.Answered.{IsAnswer};
ghost use Rattle.rule_table.specs.Table.{with_pure};
ghost use Rattle.heap_formula.specs.Judgements.{antecedent};
ghost use Rattle.heap_formula.specs.declared.atoms.Pure.{Pure};

use cyc_basics::limits::{Limits, VARIABLE_NUMBERS};
use heap_formula::{
    Heap, Judgement, Premise, RuleError, RuleFault, Variables, bound_in_heap, bound_of_judgement,
};

fn are_small(heap: &Heap) -> bool
    ensures { result ≡ has_numbers heap.now }
{
    bound_in_heap(Variables::All, heap) <= VARIABLE_NUMBERS
}

fn all_small(heaps: &[Heap]) -> bool
    ensures { result ≡ list_all has_numbers heaps.now }
{
    for heap in heaps {
        if !are_small(heap) {
            return false;
        }
    }
    true
}

fn judgement_small(judgement: &Judgement) -> bool
    ensures { result ≡ list_all has_numbers (heaps_of judgement.now) }
{
    match judgement {
        Judgement::Entail(a, bs) => are_small(a) && all_small(bs.heaps()),
        Judgement::Term(_, a) => are_small(a),
    }
}

fn premises_small(premises: &[Premise]) -> bool
    ensures { result ≡ each_heap has_numbers premises.now }
{
    for premise in premises {
        if !judgement_small(&premise.judgement) {
            return false;
        }
    }
    true
}

/// The premises, if no variable's number in them passes 65,534; else `NoFreshVariable`.
pub fn numbered(premises: Vec<Premise>) -> Result<Vec<Premise>, RuleError>
    ensures { IsAnswer result (needs (each_heap has_numbers premises.items) NoFreshVariable (Ok premises.items)) }
{
    if premises_small(&premises) {
        Ok(premises)
    } else {
        Err(RuleError::Fault(RuleFault::NoFreshVariable))
    }
}

/// Whether the heap has no more pure and spatial atoms than `most` allows.
pub fn is_short(most: Limits, heap: &Heap) -> bool
    ensures { result ≡ short most heap.now }
{
    heap.pure().len() <= most.pure as usize && heap.spatial().len() <= most.spatial as usize
}

/// Whether each heap has no more atoms than `most` allows.
pub fn are_short(most: Limits, heaps: &[Heap]) -> bool
    ensures { result ≡ list_all (short most) heaps.now }
{
    for heap in heaps {
        if !is_short(most, heap) {
            return false;
        }
    }
    true
}

/// Whether each disjunct has no more atoms than `most` allows.
pub fn are_disjuncts_short(most: Limits, judgement: &Judgement) -> bool
    ensures { result ≡ list_all (short most) (disjuncts judgement.now) }
{
    match judgement {
        Judgement::Entail(_, bs) => are_short(most, bs.heaps()),
        Judgement::Term(_, _) => true,
    }
}

/// Whether the heap with one more pure atom has no more atoms than `most` allows.
fn has_room_in(heap: &Heap, most: Limits) -> bool
    ensures { result ≡ nat_lt (length heap.now.pure) most.pure && nat_le (length heap.now.spatial) most.spatial }
{
    heap.pure().len() < most.pure as usize && heap.spatial().len() <= most.spatial as usize
}

/// Whether one more pure atom on the left keeps the limits.
pub fn has_room(judgement: &Judgement, most: Limits) -> bool
    ensures each { (x : Pure) → result ≡ list_all (short most) (heaps_of (with_pure judgement.now x).judgement) }
    ensures room { result ≡ true → length (antecedent judgement.now).pure < most.pure }
{
    match judgement {
        Judgement::Entail(a, bs) => has_room_in(a, most) && are_short(most, bs.heaps()),
        Judgement::Term(_, a) => has_room_in(a, most),
    }
}

/// The least number that is not below `p` and is above every universal number of the judgement; at most 65,536.
pub fn fresh(judgement: &Judgement, p: u16) -> u32
    ensures value { result ≡ fresh_number p judgement.now }
    ensures fits { result ≤ 65536 }
{
    bound_of_judgement(judgement).max(p as u32)
}
