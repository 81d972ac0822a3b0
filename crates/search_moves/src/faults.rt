// Whether a rule that no limit stops has a fault, told without its premises.
ghost use Rattle.std.specs.Prelude.{◌≡◌, ◌≤◌, ℕ, map, true, MatchOption, slice_get, None, Some};
ghost use Rattle.std.specs.List.{list_all};
ghost use Rattle.heap_formula.specs.declared.terms.Term.{Term};
ghost use Rattle.heap_formula.specs.Words.{max_of};
ghost use Rattle.heap_formula.specs.Fresh.{heap_numbers};
ghost use Rattle.rule_table.specs.RuleBook.{variables_of as program_variables_of};
ghost use Rattle.rule_table.specs.Table.{choose_answer, done_answer, frame_answer, instantiate_answer};
ghost use Rattle.rule_table.specs.Table.{pure_right_answer, unfold_answer, unfold_right_answer};
ghost use Rattle.search_moves.specs.Rooms.{has_room_for as case_has_room, has_room_from as case_has_room_from};
ghost use Rattle.search_moves.specs.Rooms.{judgement_numbers};
ghost use Rattle.search_moves.specs.Trying.{has_premises};

use cyc_basics::limits::{Limits, VARIABLE_NUMBERS};
use goto_lang::Program;
use heap_formula::{Heap, Judgement, Spatial, Variables, bound_in_heap};
use pred_defs::Defs;
use rule_book::variables_of;
use rule_table::{
    antecedent, are_disjuncts_short, follows, is_same_atom, is_short, is_universal_pure,
    is_universal_spatial,
};

/// Whether nothing is left on either side.
pub fn done_applies(judgement: &Judgement) -> bool
    ensures { result ≡ has_premises (done_answer judgement.now) }
{
    let Judgement::Entail(a, bs) = judgement else {
        return false;
    };
    let [b] = bs.heaps() else {
        return false;
    };
    matches!((a.spatial(), b.pure(), b.spatial()), ([], [], []))
}

/// Whether one of several disjuncts may be kept alone.
pub fn may_choose(judgement: &Judgement, k: u32) -> bool
    ensures { result ≡ has_premises (choose_answer judgement.now k) }
{
    let Judgement::Entail(_, bs) = judgement else {
        return false;
    };
    (k as usize) < bs.heaps().len()
}

/// Whether any term may stand for any existential variable.
pub fn may_instantiate(judgement: &Judgement) -> bool
    ensures { (v : ℕ) (t : Term) → result ≡ has_premises (instantiate_answer judgement.now v t) }
{
    let Judgement::Entail(_, bs) = judgement else {
        return false;
    };
    matches!(bs.heaps(), [_])
}

/// Whether an atom of the left side and one of the right may be framed off.
pub fn may_frame(judgement: &Judgement, i: u32, k: u32) -> bool
    ensures { result ≡ has_premises (frame_answer judgement.now i k) }
{
    let Judgement::Entail(a, bs) = judgement else {
        return false;
    };
    let [b] = bs.heaps() else {
        return false;
    };
    let Some(x) = a.spatial_at(i) else {
        return false;
    };
    let Some(y) = b.spatial_at(k) else {
        return false;
    };
    is_universal_spatial(y) && is_same_atom(x, y)
}

/// Whether a pure atom of the right side may be dropped.
pub fn may_drop_right(judgement: &Judgement, k: u32) -> bool
    ensures { result ≡ has_premises (pure_right_answer judgement.now k) }
{
    let Judgement::Entail(a, bs) = judgement else {
        return false;
    };
    let [b] = bs.heaps() else {
        return false;
    };
    let Some(x) = b.pure_at(k) else {
        return false;
    };
    is_universal_pure(*x) && follows(a.pure(), *x)
}

fn case_at(cases: &[Heap], c: u32) -> Option<&Heap>
    ensures { MatchOption result (slice_get cases.now c ≡ None) (λ case. slice_get cases.now c ≡ Some case.now) }
{
    cases.get(c as usize)
}

fn has_room_for(most: Limits, a: &Heap, b: &Heap, case: &Heap) -> bool
    ensures { result ≡ case_has_room most a.now b.now case.now }
{
    is_short(most, a)
        && b.pure().len() + case.pure().len() <= most.pure as usize
        && b.spatial().len() + case.spatial().len() <= most.spatial as usize + 1
        && bound_in_heap(Variables::All, a) <= VARIABLE_NUMBERS
        && bound_in_heap(Variables::All, b) + bound_in_heap(Variables::All, case)
            <= VARIABLE_NUMBERS
}

/// Whether a case has room enough on the right side, so that UnfoldRight has no fault; where not, it may have one.
pub fn has_room_right(defs: &Defs, judgement: &Judgement, k: u32, c: u32) -> bool
    ensures { result ≡ true → has_premises (unfold_right_answer defs.now.most defs.now.list judgement.now k c) ≡ true }
{
    let Judgement::Entail(a, bs) = judgement else {
        return false;
    };
    let [b] = bs.heaps() else {
        return false;
    };
    let Some(Spatial::Pred(q, _)) = b.spatial_at(k) else {
        return false;
    };
    let Some(case) = case_at(defs.cases(*q), c) else {
        return false;
    };
    has_room_for(defs.most(), a, b, case)
}

fn numbers_in_heaps(heaps: &[Heap]) -> u32
    ensures value { result ≡ max_of (map heap_numbers heaps.now) }
    ensures fits { result ≤ 65536 }
{
    let mut most = 0;
    for heap in heaps {
        most = most.max(bound_in_heap(Variables::All, heap));
    }
    most
}

/// 1 plus the greatest number of a variable of the judgement, 0 if it has none.
fn numbers_in(judgement: &Judgement) -> u32
    ensures value { result ≡ judgement_numbers judgement.now }
    ensures fits { result ≤ 65536 }
{
    match judgement {
        Judgement::Entail(a, bs) => {
            bound_in_heap(Variables::All, a).max(numbers_in_heaps(bs.heaps()))
        }
        Judgement::Term(_, a) => bound_in_heap(Variables::All, a),
    }
}

fn has_room_from(most: Limits, number: u32, a: &Heap, case: &Heap) -> bool
    requires { number ≤ 65536 }
    ensures { result ≡ case_has_room_from most number a.now case.now }
{
    a.pure().len() + case.pure().len() <= most.pure as usize
        && a.spatial().len() + case.spatial().len() <= most.spatial as usize + 1
        && number + bound_in_heap(Variables::All, case) <= VARIABLE_NUMBERS
}

fn have_room_from(most: Limits, number: u32, a: &Heap, cases: &[Heap]) -> bool
    requires { number ≤ 65536 }
    ensures { result ≡ list_all (case_has_room_from most number a.now) cases.now }
{
    for case in cases {
        if !has_room_from(most, number, a, case) {
            return false;
        }
    }
    true
}

/// Whether each case has room enough on the left side, so that Unfold has no fault; where not, it may have one.
pub fn has_room_left(defs: &Defs, program: &Program, judgement: &Judgement, k: u32) -> bool
    ensures { result ≡ true → has_premises (unfold_answer defs.now.most defs.now.list
        (program_variables_of program.now judgement.now) judgement.now k) ≡ true }
{
    let a = antecedent(judgement);
    let Some(Spatial::Pred(q, _)) = a.spatial_at(k) else {
        return false;
    };
    let variables = variables_of(program, judgement) as u32;
    let number = variables.max(numbers_in(judgement));
    are_disjuncts_short(defs.most(), judgement)
        && have_room_from(defs.most(), number, a, defs.cases(*q))
}
