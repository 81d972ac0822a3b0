// From cases of definitions to rules on masks.
ghost use Rattle.std.specs.Prelude.{◌≡◌, List, [], ◌<◌, IfOk, OnOk, Ok, Some, None};
ghost use Rattle.heap_formula.specs.Words.{Each};
ghost use Rattle.heap_formula.specs.Values.{values};
ghost use Rattle.model_check.specs.Constructive.{AreConstructive, IsConstructive};
ghost use Rattle.model_check.specs.ForcedLocals.{stack_of};
ghost use Rattle.model_check.specs.MaskParts.{place, Covers};
ghost use Rattle.model_check.specs.Grounding.{IsListed, Extends, AskedPiece, AskedPieces, GroundedCase, GroundedCases};
ghost use Rattle.model_check.specs.Grounding.{Grounds, IsQuestionAt};
ghost use Rattle.heap_formula.specs.Meaning.{cases_of};
ghost use Rattle.heap_formula.specs.Cells.{IsHeap};

use crate::ground::{GroundRule, Piece, Pieces};
use crate::locals::{Local, locals_of, term_in, terms_in};
use crate::questions::{Question, ask, question_at};
use cyc_basics::memory::OutOfMemory;
use goto_lang::Cells;
use heap_formula::{Heap, Spatial};
use indexmap::IndexSet;
use pred_defs::Defs;
use std::alloc::Global;

/// The place of an address among the heap's, and how many there are where it is none of them.
pub fn place_of(places: &IndexSet<u64>, address: u64) -> usize
    ensures { result ≡ place places.now.keys address }
{
    match places.get_index_of(&address) {
        Some(i) => i,
        None => places.len(),
    }
}

/// The piece of an atom whose cell, if it is one, is in the heap.
fn piece_of(
    alloc: Global,
    places: &IndexSet<u64>,
    questions: &mut IndexSet<Question>,
    stack: &[u64],
    locals: &[Local],
    atom: &Spatial,
) -> Result<Piece, OutOfMemory>
    requires listed { IsListed places.now.keys stack.now (stack_of locals.now) atom.now }
    ensures { OnOk result ((y : Piece) → result ≡ Ok y
        → AskedPiece places.now.keys questions.old.keys questions.new.keys stack.now (stack_of locals.now) atom.now y) }
{
    match atom {
        Spatial::Cell(t, _) => Ok(Piece::Here(place_of(places, term_in(stack, locals, *t)))),
        Spatial::Pred(p, ts) => {
            let values = terms_in(alloc, stack, locals, ts.as_slice())?;
            let q = ask(questions, *p, values)?;
            Ok(Piece::Of(q))
        }
    }
}

/// The pieces of a formula whose cells are in the heap.
pub fn pieces_of(
    alloc: Global,
    places: &IndexSet<u64>,
    questions: &mut IndexSet<Question>,
    stack: &[u64],
    locals: &[Local],
    atoms: &[Spatial],
) -> Result<Pieces, OutOfMemory>
    requires listed { Each (IsListed places.now.keys stack.now (stack_of locals.now)) atoms.now }
    ensures { OnOk result ((ys : List Piece) → result ≡ Ok ys
        → AskedPieces places.now.keys questions.old.keys questions.new.keys
        stack.now (stack_of locals.now) atoms.now ys) }
{
    let mut pieces = Vec::new(alloc);
    for atom in atoms {
        let piece = piece_of(alloc, places, questions, stack, locals, atom)?;
        pieces.push(piece)?;
    }
    Ok(Pieces::from_vec(pieces))
}

/// Adds the rule of a case at given values of its parameters, if values of its locals fit. The rule gets the number of
/// the question that it answers, and what the case asks in turn is a question too.
pub fn ground_case(
    alloc: Global,
    cells: &Cells,
    places: &IndexSet<u64>,
    questions: &mut IndexSet<Question>,
    rules: &mut Vec<GroundRule>,
    head: usize,
    values: &[u64],
    case: &Heap,
) -> Result<(), OutOfMemory>
    requires covers { Covers places.now.keys cells.now }
    requires constructive { IsConstructive case.now }
    ensures { OnOk result (GroundedCase cells.now places.now.keys questions.old.keys questions.new.keys
        rules.old.items rules.new.items head values.now case.now) }
{
    match locals_of(alloc, values, cells, case)? {
        None => Ok(()),
        Some(locals) => {
            let asked = pieces_of(alloc, places, questions, values, &locals, case.spatial());
            drop(locals);
            let pieces = asked?;
            rules.push(GroundRule { head, pieces })?;
            Ok(())
        }
    }
}

/// Adds the rules of these cases.
fn ground_cases(
    alloc: Global,
    cells: &Cells,
    places: &IndexSet<u64>,
    questions: &mut IndexSet<Question>,
    rules: &mut Vec<GroundRule>,
    head: usize,
    values: &[u64],
    cases: &[Heap],
) -> Result<(), OutOfMemory>
    requires covers { Covers places.now.keys cells.now }
    requires constructive { Each IsConstructive cases.now }
    ensures { OnOk result (GroundedCases cells.now places.now.keys questions.old.keys questions.new.keys
        rules.old.items rules.new.items head values.now cases.now) }
{
    for case in cases {
        ground_case(alloc, cells, places, questions, rules, head, values, case)?;
    }
    Ok(())
}

/// Adds the rules of a question.
fn ground_question(
    alloc: Global,
    defs: &Defs,
    cells: &Cells,
    places: &IndexSet<u64>,
    questions: &mut IndexSet<Question>,
    rules: &mut Vec<GroundRule>,
    head: usize,
    question: &Question,
) -> Result<(), OutOfMemory>
    requires covers { Covers places.now.keys cells.now }
    requires constructive { AreConstructive defs.now.list }
    ensures { OnOk result (GroundedCases cells.now places.now.keys questions.old.keys questions.new.keys
        rules.old.items rules.new.items head question.now.values (cases_of defs.now.list question.now.predicate)) }
{
    ground_cases(
        alloc,
        cells,
        places,
        questions,
        rules,
        head,
        question.values(),
        defs.cases(question.predicate()),
    )
}

/// A copy of the question of a number, if there is one.
pub fn copied_question(
    questions: &IndexSet<Question>,
    q: usize,
) -> Result<Option<Question>, OutOfMemory>
    ensures { IfOk result (IsQuestionAt questions.now.keys q) }
{
    match question_at(questions, q) {
        None => Ok(None),
        Some(question) => Ok(Some(question.clone()?)),
    }
}

/// Adds the rules of all questions, and of those that they ask in turn.
pub fn ground_questions(
    alloc: Global,
    defs: &Defs,
    cells: &Cells,
    places: &IndexSet<u64>,
    questions: &mut IndexSet<Question>,
    rules: &mut Vec<GroundRule>,
) -> Result<(), OutOfMemory>
    requires covers { Covers places.now.keys cells.now }
    requires heap { IsHeap cells.now }
    requires constructive { AreConstructive defs.now.list }
    requires start { rules.old.items ≡ [] }
    ensures extends { OnOk result (Extends questions.old.keys questions.new.keys) }
    ensures grounds { OnOk result (Grounds defs.now.list cells.now places.now.keys questions.new.keys rules.new.items) }
{
    for head in 0..usize::MAX {
        let Some(question) = copied_question(questions, head)? else {
            return Ok(());
        };
        ground_question(
            alloc, defs, cells, places, questions, rules, head, &question,
        )?;
    }
    let _count = questions.len();
    unreachable!()
}
