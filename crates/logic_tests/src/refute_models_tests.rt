// The models that the free search finds come with derivations.
use crate::given::{HeapRow, Shape, defined, heap, heaps};
use general_models::derivations::{CaseStep, is_derivation, refutes_by_derivation};
use goto_lang::{Cells, Stack};
use heap_formula::{Heap, Pure, Term};
use pred_defs::Defs;
use refute_models::{Cell, counter_model};
use std::alloc::Global;
use std::test::Fail;

const NIL: Term = Term::Nil;

const X: Term = Term::Univ(0);

const Y: Term = Term::Univ(1);

const Z: Term = Term::Univ(2);

const E: Term = Term::Exist(0);

const F: Term = Term::Exist(1);

const EMPTY: HeapRow = HeapRow(&[], &[]);

const EQUAL_ENDS: HeapRow = HeapRow(&[Pure::Eq(X, Y)], &[]);

const FIRST_CELL: &[Shape] = &[Shape::At(X, &[E]), Shape::Pred(0, &[E, Y])];

const SEGMENT: &[HeapRow] = &[EQUAL_ENDS, HeapRow(&[], FIRST_CELL)];

const ACYCLIC: &[HeapRow] = &[EQUAL_ENDS, HeapRow(&[Pure::Neq(X, Y)], FIRST_CELL)];

const ONE_CELL: HeapRow = HeapRow(&[], &[Shape::At(X, &[Y])]);

/// An end, or a cell and twice the predicate.
const TREE: &[HeapRow] = &[
    HeapRow(&[Pure::Eq(X, NIL)], &[]),
    HeapRow(
        &[],
        &[
            Shape::At(X, &[E, F]),
            Shape::Pred(0, &[E]),
            Shape::Pred(0, &[F]),
        ],
    ),
];

/// An end, or a cell that does not say where the next one stands.
const LOOSE: &[HeapRow] = &[
    HeapRow(&[Pure::Eq(X, NIL)], &[]),
    HeapRow(
        &[Pure::Neq(X, E)],
        &[Shape::At(X, &[F]), Shape::Pred(0, &[E])],
    ),
];

const SOME_LOOSE: HeapRow = HeapRow(&[], &[Shape::Pred(0, &[X])]);

const NONE_OR_ONE: &[HeapRow] = &[EMPTY, HeapRow(&[], &[Shape::At(X, &[E])])];

const SOME_SEGMENT: HeapRow = HeapRow(&[], &[Shape::Pred(0, &[X, Y])]);

const TO_A_CELL: &[Shape] = &[Shape::Pred(0, &[X, Y]), Shape::At(Y, &[Z])];

const TREES: HeapRow = HeapRow(
    &[Pure::Neq(X, NIL)],
    &[Shape::Pred(0, &[Y]), Shape::Pred(0, &[X])],
);

/// A predicate's arity and its cases, an antecedent, disjuncts, and how many steps the derivation has.
struct Row(u32, &'static [HeapRow], HeapRow, &'static [HeapRow], usize);

static ROWS: &[Row] = &[
    Row(2, SEGMENT, SOME_SEGMENT, &[EQUAL_ENDS], 2),
    Row(2, ACYCLIC, SOME_SEGMENT, &[EQUAL_ENDS, ONE_CELL], 3),
    Row(
        2,
        SEGMENT,
        HeapRow(&[], TO_A_CELL),
        &[HeapRow(&[Pure::Neq(Z, X)], TO_A_CELL)],
        1,
    ),
    Row(1, TREE, TREES, &[EMPTY], 4),
    Row(1, LOOSE, SOME_LOOSE, NONE_OR_ONE, 3),
];

fn heap_of(alloc: Global, cells: &[Cell]) -> Result<Cells, Fail> {
    let mut heap = Cells::new(alloc);
    for cell in cells {
        if cell.address > 0 && !cell.fields.is_empty() {
            heap.put(cell.address, cell.fields.clone()?)?;
        }
    }
    Ok(heap)
}

/// A question to the search, and its answer.
#[derive(Drop)]
struct Found {
    defs: Defs,
    antecedent: Heap,
    disjuncts: Vec<Heap>,
    stack: Stack,
    heap: Cells,
    steps: Vec<CaseStep>,
}

fn searched(alloc: Global, row: &Row) -> Result<Found, Fail> {
    let defs = defined(alloc, row.0, row.1)?;
    let antecedent = heap(alloc, row.2)?;
    let disjuncts = heaps(alloc, row.3)?;
    let Some(model) = counter_model(alloc, &defs, &antecedent, &disjuncts, 2)? else {
        return Err("no counter-model".into());
    };
    let heap = heap_of(alloc, &model.cells)?;
    Ok(Found {
        defs,
        antecedent,
        disjuncts,
        stack: Stack::from_vec(model.stack.clone()?),
        heap,
        steps: model.steps.clone()?,
    })
}

fn refutes(alloc: Global, it: &Found, steps: &[CaseStep]) -> Result<bool, Fail> {
    let yes = refutes_by_derivation(
        alloc,
        &it.defs,
        &it.antecedent,
        &it.disjuncts,
        &it.stack,
        &it.heap,
        steps,
        1000,
    )?;
    Ok(yes)
}

fn derives(alloc: Global, it: &Found, steps: &[CaseStep]) -> Result<bool, Fail> {
    let yes = is_derivation(alloc, &it.defs, &it.stack, &it.heap, &it.antecedent, steps)?;
    Ok(yes)
}

#[test]
fn models_have_derivations(rt: HostRuntime) -> Result<(), Fail> {
    let alloc = rt.alloc();
    for (number, row) in ROWS.iter().enumerate() {
        let it = searched(alloc, row)?;
        assert!(rt; it.steps.len() == row.4, "row {number}: {}", it.steps.len());
        assert!(rt; derives(alloc, &it, &it.steps)?, "row {number}");
        assert!(rt; refutes(alloc, &it, &it.steps)?, "row {number}");
        assert!(rt; !derives(alloc, &it, &it.steps[1..])?, "row {number}");
    }
    Ok(())
}
