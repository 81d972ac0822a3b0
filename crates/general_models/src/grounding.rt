// From cases of definitions to rules on masks, where open locals range over some values.
ghost use Rattle.std.specs.Prelude.{◌≡◌, ◌≤◌, ◌<◌, List, [], ◌∷◌, length, IfOk, OnOk};
ghost use Rattle.heap_formula.specs.Cells.{IsHeap};
ghost use Rattle.heap_formula.specs.Meaning.{cases_of};
ghost use Rattle.model_check.specs.Constructive.{IsConstructive};
ghost use Rattle.model_check.specs.MaskParts.{Covers};
ghost use Rattle.model_check.specs.Grounding.{Extends};
ghost use Rattle.general_models.specs.Ranges.{IsWithin};
ghost use Rattle.general_models.specs.RangedGrounding.{GroundedStacks, GroundedOver, GroundsOver};
ghost use Rattle.cyc_basics.specs.Limits.{AreLimits};
ghost use Rattle.cyc_basics.specs.Words.{IsMember};

use crate::faults::CheckFault;
use crate::opening::{open_locals, opened};
use crate::stacks::{front, with_values};
use cyc_basics::limits::Limits;
use cyc_basics::memory::OutOfMemory;
use goto_lang::{Cells, Stack};
use heap_formula::{Heap, bound_of_heap};
use indexmap::IndexSet;
use model_check::{GroundRule, Question, copied_question, ground_case, is_constructive};
use pred_defs::Defs;
use std::alloc::Global;

/// Adds the rules of a case at each of these lists of values.
fn ground_stacks(
    alloc: Global,
    cells: &Cells,
    places: &IndexSet<u64>,
    questions: &mut IndexSet<Question>,
    rules: &mut Vec<GroundRule>,
    head: usize,
    stacks: &[Stack],
    case: &Heap,
) -> Result<(), OutOfMemory>
    requires covers { Covers places.now.keys cells.now }
    requires constructive { IsConstructive case.now }
    ensures { OnOk result (GroundedStacks cells.now places.now.keys questions.old.keys questions.new.keys
        rules.old.items rules.new.items head case.now stacks.now) }
{
    for stack in stacks {
        ground_case(
            alloc,
            cells,
            places,
            questions,
            rules,
            head,
            stack.as_slice(),
            case,
        )?;
    }
    Ok(())
}

/// Takes so many lists of values of a range from what is left.
fn spend(left: &mut u64, values: usize, count: usize) -> Result<(), CheckFault> {
    let mut lists = 1u64;
    for _i in 0..count {
        lists = lists.saturating_mul(values as u64);
    }
    if lists > *left {
        return Err(CheckFault::TooMuch);
    }
    *left -= lists;
    Ok(())
}

/// Adds the rules of a case whose locals of these numbers become parameters, each with all values of the range.
fn ground_opened(
    alloc: Global,
    most: Limits,
    cells: &Cells,
    places: &IndexSet<u64>,
    range: &[u64],
    questions: &mut IndexSet<Question>,
    rules: &mut Vec<GroundRule>,
    head: usize,
    values: &[u64],
    case: &Heap,
    chosen: &[u16],
) -> Result<(), CheckFault>
    requires limits { AreLimits most }
    requires covers { Covers places.now.keys cells.now }
    ensures { OnOk result (GroundedOver range.now cells.now places.now.keys questions.old.keys questions.new.keys
        rules.old.items rules.new.items head values.now (case.now ∷ [])) }
{
    let first = bound_of_heap(case);
    if first as usize + chosen.len() > 65536 {
        return Err(CheckFault::TooMuch);
    }
    let opened = opened(case, first, chosen, most)?;
    if !is_constructive(alloc, &opened)? {
        return Err(CheckFault::TooMuch);
    }
    let start = front(alloc, values, first)?;
    let stacks = with_values(alloc, start, range, chosen.len())?;
    ground_stacks(
        alloc, cells, places, questions, rules, head, &stacks, &opened,
    )?;
    Ok(())
}

/// Adds the rules of a case at given values of its parameters.
pub fn ground_ranged(
    alloc: Global,
    most: Limits,
    cells: &Cells,
    places: &IndexSet<u64>,
    range: &[u64],
    left: &mut u64,
    questions: &mut IndexSet<Question>,
    rules: &mut Vec<GroundRule>,
    head: usize,
    values: &[u64],
    case: &Heap,
) -> Result<(), CheckFault>
    requires limits { AreLimits most }
    requires covers { Covers places.now.keys cells.now }
    ensures { OnOk result (GroundedOver range.now cells.now places.now.keys questions.old.keys questions.new.keys
        rules.old.items rules.new.items head values.now (case.now ∷ [])) }
{
    let chosen = open_locals(alloc, case)?;
    spend(left, range.len(), chosen.len())?;
    ground_opened(
        alloc, most, cells, places, range, questions, rules, head, values, case, &chosen,
    )
}

/// Adds the rules of these cases.
fn ground_cases(
    alloc: Global,
    most: Limits,
    cells: &Cells,
    places: &IndexSet<u64>,
    range: &[u64],
    left: &mut u64,
    questions: &mut IndexSet<Question>,
    rules: &mut Vec<GroundRule>,
    head: usize,
    values: &[u64],
    cases: &[Heap],
) -> Result<(), CheckFault>
    requires limits { AreLimits most }
    requires covers { Covers places.now.keys cells.now }
    ensures { OnOk result (GroundedOver range.now cells.now places.now.keys questions.old.keys questions.new.keys
        rules.old.items rules.new.items head values.now cases.now) }
{
    for case in cases {
        ground_ranged(
            alloc, most, cells, places, range, left, questions, rules, head, values, case,
        )?;
    }
    Ok(())
}

/// Adds the rules of all questions, and of those that they ask in turn.
pub fn ground_all(
    alloc: Global,
    defs: &Defs,
    cells: &Cells,
    places: &IndexSet<u64>,
    range: &[u64],
    left: &mut u64,
    questions: &mut IndexSet<Question>,
    rules: &mut Vec<GroundRule>,
) -> Result<(), CheckFault>
    requires covers { Covers places.now.keys cells.now }
    requires heap { IsHeap cells.now }
    requires start { rules.old.items ≡ [] }
    ensures extends { OnOk result (Extends questions.old.keys questions.new.keys) }
    ensures grounds { OnOk result (GroundsOver range.now defs.now.list cells.now places.now.keys
        questions.new.keys rules.new.items) }
{
    let most = defs.most();
    for head in 0..usize::MAX {
        let Some(question) = copied_question(questions, head)? else {
            return Ok(());
        };
        ground_cases(
            alloc,
            most,
            cells,
            places,
            range,
            left,
            questions,
            rules,
            head,
            question.values(),
            defs.cases(question.predicate()),
        )?;
    }
    let _count = questions.len();
    unreachable!()
}
