// The folds of small states into a list segment.
ghost use Rattle.std.specs.Prelude.{◌≡◌, IfOk};

use crate::given::{HeapRow, Shape, atom, heap};
use heap_formula::{Cases, Def, DefName, Pure, Rule, Term};
use search_moves::folds::folds;
use std::alloc::Global;
use std::test::Fail;

const X: Term = Term::Univ(0);

const Y: Term = Term::Univ(1);

const E: Term = Term::Exist(0);

// A segment from `$0` to `$1` is empty, where these are one, or a cell at `$0` and the segment from its field to `$1`.
const EMPTY: HeapRow = HeapRow(&[Pure::Eq(X, Y)], &[]);

const LONGER: HeapRow = HeapRow(
    &[Pure::Neq(X, Y)],
    &[Shape::At(X, &[E]), Shape::Pred(0, &[E, Y])],
);

fn definition(alloc: Global) -> Result<Def, Fail>
    ensures { IfOk result (λ d. d.arity ≡ 2) }
{
    let cases = vec![in alloc; heap(alloc, EMPTY)?, heap(alloc, LONGER)?]?;
    Ok(Def {
        name: DefName::from_text(String::from_str(alloc, "ls")?),
        arity: 2,
        cases: Cases::from_vec(cases),
    })
}

// The variables of the states.
const A: Term = Term::Univ(5);

const B: Term = Term::Univ(6);

const C: Term = Term::Univ(7);

/// A state, and whether its only fold is the segment from a to c. Else it has none.
struct Row(HeapRow, bool);

// A cell is folded with the segment that begins at its field, where the case's disequation follows, and else not.
static ROWS: &[Row] = &[
    Row(
        HeapRow(
            &[Pure::Neq(C, A)],
            &[Shape::Pred(0, &[B, C]), Shape::At(A, &[B])],
        ),
        true,
    ),
    Row(
        HeapRow(&[], &[Shape::Pred(0, &[B, C]), Shape::At(A, &[B])]),
        false,
    ),
    Row(
        HeapRow(
            &[Pure::Neq(C, A)],
            &[Shape::Pred(0, &[C, B]), Shape::At(A, &[B])],
        ),
        false,
    ),
    Row(
        HeapRow(&[Pure::Neq(C, A)], &[Shape::Pred(0, &[B, C])]),
        false,
    ),
];

/// Whether the only rule folds the atoms at 0 and 1 into the segment from a to c.
fn is_segment(rules: &[Rule]) -> bool {
    let [Rule::Cut(places, formula)] = rules else {
        return false;
    };
    places.as_slice() == [0, 1].as_slice()
        && formula.pure().is_empty()
        && formula.spatial() == [atom(Shape::Pred(0, &[A, C]))].as_slice()
}

fn is_right(alloc: Global, row: &Row) -> Result<bool, Fail> {
    let state = heap(alloc, row.0)?;
    let rules = folds(alloc, &state, &[definition(alloc)?])?;
    Ok(if row.1 {
        is_segment(&rules)
    } else {
        rules.is_empty()
    })
}

#[test]
fn cells_fold_into_segments(rt: HostRuntime) -> Result<(), Fail> {
    for (number, row) in ROWS.iter().enumerate() {
        assert!(rt; is_right(rt.alloc(), row)?, "row {number}");
    }
    Ok(())
}
