// How many base pairs definitions have.
use crate::given::{HeapRow, Shape, defined};
use heap_formula::{Pure, Term};
use pred_defs::Defs;
use sat_pairs::{Limits, PairFault, base_pairs};
use std::alloc::Global;
use std::test::Fail;

const NIL: Term = Term::Nil;

const X: Term = Term::Univ(0);

const Y: Term = Term::Univ(1);

const E: Term = Term::Exist(0);

const F: Term = Term::Exist(1);

const EQUAL_ENDS: HeapRow = HeapRow(&[Pure::Eq(X, Y)], &[]);

const FIRST_CELL: &[Shape] = &[Shape::At(X, &[E]), Shape::Pred(0, &[E, Y])];

const SEGMENT: &[HeapRow] = &[EQUAL_ENDS, HeapRow(&[], FIRST_CELL)];

const ACYCLIC: &[HeapRow] = &[EQUAL_ENDS, HeapRow(&[Pure::Neq(X, Y)], FIRST_CELL)];

/// It never ends.
const ENDLESS: HeapRow = HeapRow(&[], &[Shape::At(X, &[E]), Shape::Pred(0, &[E])]);

/// Nil is no cell.
const NIL_CELL: HeapRow = HeapRow(&[], &[Shape::At(NIL, &[NIL])]);

/// A cell of which no parameter speaks.
const SOME_CELL: HeapRow = HeapRow(&[], &[Shape::At(E, &[NIL])]);

/// An end, or a cell and twice the predicate.
const TREE: &[HeapRow] = &[
    HeapRow(&[Pure::Eq(X, NIL)], &[]),
    HeapRow(
        &[],
        &[
            Shape::At(X, &[E, F]),
            Shape::Pred(0, &[E]),
            Shape::Pred(0, &[F]),
        ],
    ),
];

/// A predicate's arity and its cases, the greatest number of base pairs and size of the states, and how many base pairs
/// there are.
struct Row(u32, &'static [HeapRow], u32, u32, Result<usize, PairFault>);

static ROWS: &[Row] = &[
    Row(2, SEGMENT, 2, 100, Ok(2)),
    Row(2, SEGMENT, 1, 100, Err(PairFault::TooManyPairs)),
    Row(2, SEGMENT, 2, 1, Err(PairFault::TooManyStates)),
    Row(2, ACYCLIC, 100, 100, Ok(2)),
    Row(1, &[ENDLESS, ENDLESS], 0, 0, Ok(0)),
    Row(0, &[NIL_CELL, SOME_CELL], 1, 100, Ok(1)),
    Row(1, TREE, 2, 100, Ok(2)),
    Row(1, TREE, 1, 100, Err(PairFault::TooManyPairs)),
];

fn count(alloc: Global, defs: &Defs, limits: Limits) -> Result<usize, PairFault> {
    Ok(base_pairs(alloc, defs, limits)?.pairs(0).len())
}

#[test]
fn base_pairs_are_counted(rt: HostRuntime) -> Result<(), Fail> {
    let alloc = rt.alloc();
    for (number, row) in ROWS.iter().enumerate() {
        let defs = defined(alloc, row.0, row.1)?;
        let limits = Limits {
            pairs: row.2,
            states: row.3,
        };
        assert!(rt; count(alloc, &defs, limits) == row.4, "row {number}");
    }
    Ok(())
}
