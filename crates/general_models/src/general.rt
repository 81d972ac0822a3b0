// Whether a stack and a heap satisfy a formula, for any definitions.
ghost use Rattle.std.specs.Prelude.{◌≡◌, ◌≢◌, ◌↔◌, ℕ, List, IsTrue, IfOk};
ghost use Rattle.heap_formula.specs.Words.{OneOf};
ghost use Rattle.heap_formula.specs.Cells.{IsHeap};
ghost use Rattle.heap_formula.specs.Meaning.{Satisfies};
ghost use Rattle.model_check.specs.Constructive.{IsConstructive, AreConstructive};
ghost use Rattle.model_check.specs.WideMasks.{number};
ghost use Rattle.model_check.specs.MaskParts.{Covers};
ghost use Rattle.model_check.specs.Ground.{Unions};
ghost use Rattle.model_check.specs.Tables.{HasMask};
ghost use Rattle.general_models.specs.RangedGrounding.{SolvesOver, Suffices};

use crate::faults::CheckFault;
use crate::grounding::{ground_all, ground_ranged};
use crate::ranges::{most_variables, range_of};
use cyc_basics::memory::OutOfMemory;
use goto_lang::{Cells, Stack};
use heap_formula::{Heap, exists_in_heap};
use indexmap::IndexSet;
use model_check::{
    GroundRule, Mask, Question, Row, constructive, heap_places, is_given, satisfied, solve,
    whole_mask,
};
use pred_defs::Defs;
use std::alloc::Global;

/// The masks of each question, and of those that they ask in turn.
fn table_over(
    alloc: Global,
    defs: &Defs,
    cells: &Cells,
    places: &IndexSet<u64>,
    range: &[u64],
    left: &mut u64,
    questions: &mut IndexSet<Question>,
) -> Result<Vec<Row>, CheckFault>
    requires covers { Covers places.now.keys cells.now }
    requires heap { IsHeap cells.now }
    ensures { IfOk result (λ table. SolvesOver range.now defs.now.list cells.now places.now.keys
        questions.old.keys questions.new.keys table.items) }
{
    let mut rules = Vec::new(alloc);
    ground_all(
        alloc, defs, cells, places, range, left, questions, &mut rules,
    )?;
    let table = solve(alloc, &rules, questions.len())?;
    Ok(table)
}

/// Whether one of the rules gives the mask from the table.
fn some_gives(
    alloc: Global,
    table: &[Row],
    rules: &[GroundRule],
    whole: &Mask,
) -> Result<bool, OutOfMemory>
    ensures { IfOk result (λ b. IsTrue b
        ↔ OneOf (λ r. Unions (HasMask table.now) r.pieces (number whole.now)) rules.now) }
{
    for rule in rules {
        let given = is_given(alloc, table, rule.pieces.as_slice(), whole)?;
        if given {
            return Ok(true);
        }
    }
    Ok(false)
}

/// The answer where the heap's cells have these places and locals range over these values.
fn satisfied_at(
    alloc: Global,
    defs: &Defs,
    stack: &[u64],
    cells: &Cells,
    places: &IndexSet<u64>,
    range: &[u64],
    most: u64,
    ask: &Heap,
) -> Result<bool, CheckFault>
    requires covers { Covers places.now.keys cells.now }
    requires heap { IsHeap cells.now }
    requires range { Suffices range.now defs.now.list stack.now cells.now ask.now }
    ensures { IfOk result (λ b. IsTrue b ↔ Satisfies defs.now.list stack.now cells.now ask.now) }
{
    let mut left = most;
    let mut questions = IndexSet::new(alloc);
    let mut asked = Vec::new(alloc);
    let most = defs.most();
    ground_ranged(
        alloc,
        most,
        cells,
        places,
        range,
        &mut left,
        &mut questions,
        &mut asked,
        0,
        stack,
        ask,
    )?;
    let table = table_over(alloc, defs, cells, places, range, &mut left, &mut questions)?;
    let whole = whole_mask(alloc, places, cells)?;
    let holds = some_gives(alloc, &table, &asked, &whole)?;
    Ok(holds)
}

fn satisfied_over(
    alloc: Global,
    defs: &Defs,
    stack: &[u64],
    cells: &Cells,
    ask: &Heap,
    most: u64,
) -> Result<bool, CheckFault>
    ensures { IfOk result (λ b. IsTrue b ↔ Satisfies defs.now.list stack.now cells.now ask.now) }
{
    let fresh = most_variables(defs.as_slice(), exists_in_heap(ask));
    let range = range_of(alloc, stack, cells, fresh)?;
    let places = heap_places(alloc, cells)?;
    let answer = satisfied_at(alloc, defs, stack, cells, &places, &range, most, ask);
    drop(places);
    answer
}

/// Whether the stack and the heap satisfy the formula, under the least meaning of the definitions, for any definitions.
/// Locals that the heap determines are computed. The others range over nil, the values of the stack and the heap, and
/// as many fresh ones as a case has variables, so the work is exponential in how many there are in one case. `most`
/// bounds how many lists of such values are tried in all: one for each case at each list of arguments, and more where
/// locals range. Where more are needed the answer is `TooMuch`, also where the fresh values would not be words of 64
/// bits, or a case with the equations of its choices has more than 64 pure atoms. Where all cases and the formula are
/// constructive this is `satisfied`, and `most` is not looked at.
pub fn satisfied_in_general(
    alloc: Global,
    defs: &Defs,
    stack: &Stack,
    heap: &Cells,
    ask: &Heap,
    most: u64,
) -> Result<bool, CheckFault>
    ensures exact { IfOk result (λ b. IsTrue b ↔ Satisfies defs.now.list stack.now heap.now ask.now) }
    ensures constructive { AreConstructive defs.now.list → IsConstructive ask.now → result ≢ Err CheckFault.TooMuch }
{
    let place = constructive(alloc, defs, ask)?;
    match place {
        None => {
            let holds = satisfied(alloc, defs, stack, heap, ask)?;
            Ok(holds)
        }
        Some(_) => satisfied_over(alloc, defs, stack.as_slice(), heap, ask, most),
    }
}
