// Each line of both tables of offers, folds, and links.
ghost use Rattle.std.specs.Prelude.{◌≤◌, ◌<◌, IfOk, length};
ghost use Rattle.heap_formula.specs.Words.{Each};
ghost use Rattle.search_moves.specs.Limits.{IsSmall};

use crate::given::{HeapRow, Shape, atom, heap};
use bumpalo::Bump;
use cyc_basics::memory::OutOfMemory;
use goto_lang::{Program, ProgramFault};
use heap_formula::{
    Command, Disjuncts, Heap, Judgement, Link, Pairs, Positions, Pure, Reason, Rule, Side, Term,
};
use heap_syntax::Version;
use pred_defs::Defs;
use proof_graph::{Graph, PremisePairs};
use search_moves::offers;
use std::alloc::Global;
use std::test::Fail;

const NIL: Term = Term::Nil;

const X: Term = Term::Univ(0);

const Y: Term = Term::Univ(1);

const Z: Term = Term::Univ(2);

const W: Term = Term::Univ(3);

const E: Term = Term::Exist(0);

const F: Term = Term::Exist(1);

/// A judgement: an entailment, or a line with a symbolic state.
#[derive(Clone, Copy)]
enum Said {
    Entails(HeapRow, &'static [HeapRow]),
    From(u32, HeapRow),
}

/// A rule.
#[derive(Clone, Copy)]
enum Named {
    Absurd,
    Rewrite(u32, Side),
    Distinct(u32, u32),
    Unfold(u32),
    Fold(&'static [u32], Shape),
    Done,
    Choose(u32),
    PureRight(u32),
    Instantiate(u16, Term),
    Frame(u32, u32),
    UnfoldRight(u32, u32),
    Exec,
}

#[derive(Clone, Copy)]
enum Made {
    Executed,
    Unfolded,
    Rewritten,
}

/// A node before the goal, its rule, and the node that proves its premise.
#[derive(Clone, Copy)]
struct Earlier(Said, Made, Option<u32>);

/// A goal that is alone, without links, and the rules.
#[derive(Clone, Copy)]
struct Alone(Said, &'static [Named]);

/// The nodes before the goal, the goal, the targets of the links, and the rules.
#[derive(Clone, Copy)]
struct Row {
    before: &'static [Earlier],
    goal: Said,
    links: &'static [u32],
    rules: &'static [Named],
}

const X_TO_Y_AND_LIST: &[Shape] = &[Shape::At(X, &[Y]), Shape::List(Y)];

const EMPTY: HeapRow = HeapRow(&[], &[]);

static FIRST_ENTAILMENTS: &[Alone] = &[
    // Absurd goes before Rewrite
    Alone(
        Said::Entails(HeapRow(&[Pure::Eq(Y, X), Pure::Neq(X, X)], &[]), &[EMPTY]),
        &[Named::Absurd],
    ),
    // the first equation, by a variable on its left, or by its right side
    Alone(
        Said::Entails(
            HeapRow(&[Pure::Neq(X, Y), Pure::Eq(Y, NIL), Pure::Eq(X, Z)], &[]),
            &[EMPTY],
        ),
        &[Named::Rewrite(1, Side::Left)],
    ),
    Alone(
        Said::Entails(HeapRow(&[Pure::Eq(NIL, X)], &[]), &[EMPTY]),
        &[Named::Rewrite(0, Side::Right)],
    ),
    Alone(
        Said::Entails(HeapRow(&[Pure::Eq(NIL, NIL)], &[]), &[EMPTY]),
        &[Named::Rewrite(0, Side::Left)],
    ),
    Alone(
        Said::Entails(HeapRow(&[Pure::Neq(X, NIL)], &[]), &[EMPTY]),
        &[Named::Done],
    ),
    // several disjuncts
    Alone(
        Said::Entails(
            HeapRow(&[], &[Shape::List(X), Shape::At(Y, &[X]), Shape::List(Y)]),
            &[EMPTY, EMPTY],
        ),
        &[
            Named::Choose(0),
            Named::Choose(1),
            Named::Unfold(0),
            Named::Unfold(2),
        ],
    ),
    // the first atom on the right that follows, by its mirror image
    Alone(
        Said::Entails(
            HeapRow(&[Pure::Neq(X, NIL)], &[Shape::At(X, &[Y])]),
            &[HeapRow(&[Pure::Neq(E, X), Pure::Neq(NIL, X)], &[Shape::At(X, &[Y])])],
        ),
        &[Named::PureRight(1)],
    ),
    // two addresses that differ, and one that is not nil
    Alone(
        Said::Entails(
            HeapRow(&[], &[Shape::At(X, &[Y]), Shape::At(Y, &[X])]),
            &[HeapRow(&[Pure::Neq(E, X), Pure::Neq(Y, X)], &[Shape::At(X, &[Y])])],
        ),
        &[Named::Distinct(0, 1)],
    ),
    Alone(
        Said::Entails(
            HeapRow(&[], &[Shape::List(Y), Shape::At(X, &[Y])]),
            &[HeapRow(&[Pure::Neq(X, NIL)], &[Shape::List(Y)])],
        ),
        &[Named::Distinct(1, 1)],
    ),
];

static LATER_ENTAILMENTS: &[Alone] = &[
    // cells go before predicates
    Alone(
        Said::Entails(
            HeapRow(&[], &[Shape::List(Y), Shape::At(X, &[Y])]),
            &[HeapRow(&[], &[Shape::List(Y), Shape::At(X, &[Y])])],
        ),
        &[Named::Frame(1, 1)],
    ),
    // by the first equation with one existential
    Alone(
        Said::Entails(
            HeapRow(&[], &[Shape::At(X, &[Y])]),
            &[HeapRow(&[Pure::Eq(E, F), Pure::Eq(NIL, F)], &[Shape::At(X, &[E])])],
        ),
        &[Named::Instantiate(1, NIL)],
    ),
    // by a field
    Alone(
        Said::Entails(
            HeapRow(&[], &[Shape::List(Y), Shape::At(X, &[Y, Z])]),
            &[HeapRow(&[], &[Shape::List(Y), Shape::At(X, &[Y, E])])],
        ),
        &[Named::Instantiate(0, Z)],
    ),
    // predicates go before arguments
    Alone(
        Said::Entails(
            HeapRow(&[], X_TO_Y_AND_LIST),
            &[HeapRow(&[], &[Shape::Pred(1, &[X, E]), Shape::List(Y)])],
        ),
        &[Named::Frame(1, 1)],
    ),
    // each instance once; the empty case has no cell that wants a place
    Alone(
        Said::Entails(
            HeapRow(
                &[],
                &[
                    Shape::Pred(1, &[X, Y]),
                    Shape::Pred(1, &[X, Y]),
                    Shape::Pred(1, &[Y, Z]),
                ],
            ),
            &[HeapRow(&[], &[Shape::Pred(1, &[X, E])])],
        ),
        &[
            Named::Instantiate(0, Y),
            Named::UnfoldRight(0, 0),
            Named::Unfold(0),
            Named::Unfold(1),
            Named::Unfold(2),
        ],
    ),
    // a case whose cell has a place, and one whose cell has none
    Alone(
        Said::Entails(
            HeapRow(&[], X_TO_Y_AND_LIST),
            &[HeapRow(&[], &[Shape::List(X)])],
        ),
        &[Named::UnfoldRight(0, 1), Named::Unfold(1)],
    ),
    Alone(
        Said::Entails(
            HeapRow(&[], X_TO_Y_AND_LIST),
            &[HeapRow(&[], &[Shape::List(Z)])],
        ),
        &[Named::Unfold(1)],
    ),
    // a case whose disequation two cells tell, and one that none tells
    Alone(
        Said::Entails(
            HeapRow(&[], &[Shape::At(X, &[Y]), Shape::At(Z, &[Y])]),
            &[HeapRow(&[], &[Shape::Pred(1, &[X, Z])])],
        ),
        &[Named::UnfoldRight(0, 1)],
    ),
    Alone(
        Said::Entails(
            HeapRow(&[], &[Shape::At(X, &[Y])]),
            &[HeapRow(&[], &[Shape::Pred(1, &[X, Z])])],
        ),
        &[],
    ),
];

// The variables of the program are x and y.
static STATES: &[Alone] = &[
    Alone(
        Said::From(4, HeapRow(&[Pure::Neq(X, X)], &[])),
        &[Named::Absurd],
    ),
    Alone(
        Said::From(4, HeapRow(&[Pure::Eq(Z, W)], &[])),
        &[Named::Exec],
    ),
    // equal sides; a variable on the left, or on the right, that is none of the program's
    Alone(
        Said::From(1, HeapRow(&[Pure::Neq(X, Y), Pure::Eq(NIL, NIL)], &[])),
        &[Named::Rewrite(1, Side::Left)],
    ),
    Alone(
        Said::From(1, HeapRow(&[Pure::Eq(Z, X)], &[])),
        &[Named::Rewrite(0, Side::Left)],
    ),
    Alone(
        Said::From(1, HeapRow(&[Pure::Eq(X, Z)], &[Shape::List(X)])),
        &[Named::Rewrite(0, Side::Right)],
    ),
    // a variable of the program that occurs elsewhere
    Alone(
        Said::From(2, HeapRow(&[Pure::Eq(X, Y)], &[Shape::At(X, &[Y])])),
        &[Named::Rewrite(0, Side::Left)],
    ),
    Alone(
        Said::From(2, HeapRow(&[Pure::Eq(NIL, Y)], &[Shape::List(Y)])),
        &[Named::Rewrite(0, Side::Right)],
    ),
    // none occurs elsewhere on the left; the cell is found by the equation
    Alone(
        Said::From(1, HeapRow(&[Pure::Eq(X, Y)], &[Shape::At(Y, &[Y])])),
        &[Named::Exec],
    ),
    // no cell: predicates that may have it
    Alone(
        Said::From(
            1,
            HeapRow(
                &[Pure::Eq(X, Y)],
                &[Shape::Pred(1, &[Z, Y]), Shape::List(Z), Shape::List(Y)],
            ),
        ),
        &[Named::Unfold(0), Named::Unfold(2)],
    ),
];

const LIST_AT_Z: HeapRow = HeapRow(&[], &[Shape::List(Z)]);

const CELL_AND_LIST: Said = Said::From(2, HeapRow(&[], &[Shape::List(Z), Shape::At(X, &[Z])]));

const X_IS_LIST: Said = Said::Entails(
    HeapRow(&[], &[Shape::List(X)]),
    &[HeapRow(&[], &[Shape::List(X)])],
);

const Y_IS_LIST: Said = Said::Entails(
    HeapRow(&[], &[Shape::List(Y)]),
    &[HeapRow(&[], &[Shape::List(Y)])],
);

const NOTHING: Said = Said::Entails(
    HeapRow(&[Pure::Neq(X, X)], &[Shape::List(X)]),
    &[HeapRow(&[], &[Shape::List(X)])],
);

const FOLDED: &[Named] = &[Named::Fold(&[0, 1], Shape::List(X)), Named::Exec];

static DERIVATIONS: &[Row] = &[
    // after Exec, also over Rewrite, at a line that was worked on
    Row {
        before: &[Earlier(Said::From(2, LIST_AT_Z), Made::Executed, Some(1))],
        goal: CELL_AND_LIST,
        links: &[0],
        rules: FOLDED,
    },
    Row {
        before: &[
            Earlier(Said::From(2, LIST_AT_Z), Made::Executed, Some(1)),
            Earlier(Said::From(2, LIST_AT_Z), Made::Rewritten, Some(2)),
        ],
        goal: CELL_AND_LIST,
        links: &[0],
        rules: FOLDED,
    },
    // no fold after Unfold, nor where the line is new
    Row {
        before: &[Earlier(Said::From(2, LIST_AT_Z), Made::Unfolded, Some(1))],
        goal: CELL_AND_LIST,
        links: &[0],
        rules: &[Named::Exec],
    },
    Row {
        before: &[Earlier(Said::From(3, LIST_AT_Z), Made::Executed, Some(1))],
        goal: CELL_AND_LIST,
        links: &[],
        rules: &[Named::Exec],
    },
    // a companion need not be above the goal, but is unfolded
    Row {
        before: &[Earlier(X_IS_LIST, Made::Unfolded, None)],
        goal: Y_IS_LIST,
        links: &[0],
        rules: &[Named::Frame(0, 0)],
    },
    Row {
        before: &[
            Earlier(X_IS_LIST, Made::Rewritten, Some(1)),
            Earlier(Said::From(2, LIST_AT_Z), Made::Unfolded, Some(2)),
        ],
        goal: Y_IS_LIST,
        links: &[],
        rules: &[Named::Frame(0, 0)],
    },
    // no link beside Absurd
    Row {
        before: &[Earlier(X_IS_LIST, Made::Unfolded, Some(1))],
        goal: NOTHING,
        links: &[],
        rules: &[Named::Absurd],
    },
];

fn disjuncts(alloc: Global, rows: &[HeapRow]) -> Result<Disjuncts, Fail> {
    let mut heaps = Vec::new(alloc);
    for row in rows {
        heaps.push(heap(alloc, *row)?)?;
    }
    if heaps.is_empty() || heaps.len() > 16 {
        return Err("no disjunct, or too many".into());
    }
    Ok(Disjuncts::from_vec(heaps))
}

fn judgement(alloc: Global, said: Said) -> Result<Judgement, Fail> {
    match said {
        Said::Entails(left, right) => {
            let left = heap(alloc, left)?;
            Ok(Judgement::Entail(left, disjuncts(alloc, right)?))
        }
        Said::From(line, state) => Ok(Judgement::Term(line, heap(alloc, state)?)),
    }
}

// A list is empty, or a cell and the list to which it points. A segment leads from one address to another.
fn definitions(alloc: Global) -> Result<Defs, Fail>
    ensures { IfOk result (λ d. Each IsSmall d.list) }
{
    let mut defs = Defs::new(alloc, Version::One.limits());
    let none = heap(alloc, HeapRow(&[Pure::Eq(X, NIL)], &[]))?;
    let some = heap(alloc, HeapRow(&[], &[Shape::At(X, &[E]), Shape::List(E)]))?;
    defs.push("list", 1, &[none, some])?;
    let same = heap(alloc, HeapRow(&[Pure::Eq(X, Y)], &[]))?;
    let longer = heap(
        alloc,
        HeapRow(
            &[Pure::Neq(X, Y)],
            &[Shape::At(X, &[E]), Shape::Pred(1, &[E, Y])],
        ),
    )?;
    defs.push("segment", 2, &[same, longer])?;
    Ok(defs)
}

fn program(alloc: Global) -> Result<Program, ProgramFault> {
    Program::new(
        alloc,
        &[
            (1, Command::Load(0, X, 1)),
            (2, Command::Goto(2)),
            (3, Command::Assign(1, X)),
            (4, Command::Stop),
        ],
    )
}

fn rule_of(made: Made) -> Rule {
    match made {
        Made::Executed => Rule::Exec,
        Made::Unfolded => Rule::Unfold(0),
        Made::Rewritten => Rule::Rewrite(0, Side::Left),
    }
}

// A premise without pairs.
fn one_premise(alloc: Global) -> Result<PremisePairs, OutOfMemory> {
    let mut lists = Vec::new(alloc);
    lists.push(Pairs::new(alloc))?;
    Ok(PremisePairs::from_vec(lists))
}

fn push_goal(graph: &mut Graph<'_>, alloc: Global, said: Said) -> Result<u32, Fail> {
    let judgement = judgement(alloc, said)?;
    Ok(graph.push_node(&judgement)?)
}

fn give_rule(graph: &mut Graph<'_>, alloc: Global, node: u32, made: Made) -> Result<(), Fail> {
    if node as usize >= graph.len() {
        return Err("no node".into());
    }
    let pairs = one_premise(alloc)?;
    let reason = Reason::Step(rule_of(made));
    graph.set_reason(node, &reason, &pairs)?;
    Ok(())
}

fn push_earlier(graph: &mut Graph<'_>, alloc: Global, earlier: Earlier) -> Result<(), Fail> {
    let node = push_goal(graph, alloc, earlier.0)?;
    give_rule(graph, alloc, node, earlier.1)
}

// Fills the slot, if there is one.
fn fill(graph: &mut Graph<'_>, node: u32, child: u32) -> Result<(), OutOfMemory> {
    if node as usize >= graph.len() || child as usize >= graph.len() {
        return Ok(());
    }
    if graph.node(node).premises.is_empty() {
        return Ok(());
    }
    graph.set_premise(node, 0, child)
}

// The nodes before the goal, and the goal.
fn nodes_of<'a>(alloc: Global, arena: &'a Bump, row: Row) -> Result<Graph<'a>, Fail> {
    let mut graph = Graph::new_in(alloc, arena);
    for earlier in row.before {
        push_earlier(&mut graph, alloc, *earlier)?;
    }
    push_goal(&mut graph, alloc, row.goal)?;
    Ok(graph)
}

fn fill_slots(graph: &mut Graph<'_>, before: &[Earlier]) -> Result<(), OutOfMemory>
    requires { length before.now ≤ 64 }
{
    for (node, earlier) in before.iter().enumerate() {
        if let Some(child) = earlier.2 {
            fill(graph, node as u32, child)?;
        }
    }
    Ok(())
}

fn is_fold(places: &Positions, heap: &Heap, wanted: &[u32], shape: Shape) -> bool {
    heap.pure().is_empty()
        && heap.spatial().len() == 1
        && heap.spatial()[0] == atom(shape)
        && places.as_slice() == wanted
}

fn is_rule(rule: &Rule, named: Named) -> bool {
    match (rule, named) {
        (Rule::Absurd, Named::Absurd) => true,
        (Rule::Rewrite(k, side), Named::Rewrite(l, other)) => *k == l && *side == other,
        (Rule::Distinct(i, k), Named::Distinct(j, l)) => *i == j && *k == l,
        (Rule::Unfold(k), Named::Unfold(l)) => *k == l,
        (Rule::Cut(places, heap), Named::Fold(wanted, shape)) => {
            is_fold(places, heap, wanted, shape)
        }
        (Rule::Done, Named::Done) => true,
        (Rule::Choose(k), Named::Choose(l)) => *k == l,
        (Rule::PureRight(k), Named::PureRight(l)) => *k == l,
        (Rule::Instantiate(v, t), Named::Instantiate(w, u)) => *v == w && *t == u,
        (Rule::Frame(i, k), Named::Frame(j, l)) => *i == j && *k == l,
        (Rule::UnfoldRight(k, c), Named::UnfoldRight(l, d)) => *k == l && *c == d,
        (Rule::Exec, Named::Exec) => true,
        _ => false,
    }
}

fn are_rules(rules: &[Rule], wanted: &[Named]) -> bool {
    if rules.len() != wanted.len() {
        return false;
    }
    for (i, rule) in rules.iter().enumerate() {
        if !is_rule(rule, wanted[i]) {
            return false;
        }
    }
    true
}

fn are_targets(links: &[Link], wanted: &[u32]) -> bool {
    if links.len() != wanted.len() {
        return false;
    }
    for (i, link) in links.iter().enumerate() {
        if link.target != wanted[i] {
            return false;
        }
    }
    true
}

// Whether the goal, the last node of the graph, is offered just what the row says.
fn is_offered(
    alloc: Global,
    defs: &Defs,
    program: &Program,
    graph: &Graph<'_>,
    row: Row,
) -> Result<bool, Fail>
    requires { Each IsSmall defs.now.list }
{
    let goal = row.before.len();
    if goal > 64 || goal >= graph.len() {
        return Ok(false);
    }
    let offers = offers(alloc, defs, program, graph, goal as u32)?;
    Ok(are_targets(&offers.links, row.links) && are_rules(&offers.rules, row.rules))
}

fn is_right(alloc: Global, row: Row) -> Result<bool, Fail> {
    if row.before.len() > 64 {
        return Ok(false);
    }
    let defs = definitions(alloc)?;
    let program = program(alloc)?;
    let arena = Bump::new(alloc);
    let mut graph = nodes_of(alloc, &arena, row)?;
    fill_slots(&mut graph, row.before)?;
    is_offered(alloc, &defs, &program, &graph, row)
}

// The number of the first row that is wrong, or of rows where none is.
fn first_wrong_alone(alloc: Global, rows: &[Alone]) -> Result<usize, Fail> {
    for (i, alone) in rows.iter().enumerate() {
        let row = Row {
            before: &[],
            goal: alone.0,
            links: &[],
            rules: alone.1,
        };
        if !is_right(alloc, row)? {
            return Ok(i);
        }
    }
    Ok(rows.len())
}

fn first_wrong(alloc: Global, rows: &[Row]) -> Result<usize, Fail> {
    for (i, row) in rows.iter().enumerate() {
        if !is_right(alloc, *row)? {
            return Ok(i);
        }
    }
    Ok(rows.len())
}

#[test]
fn the_lines_of_both_tables(rt: HostRuntime) -> Result<(), Fail> {
    let alloc = rt.alloc();
    for rows in [FIRST_ENTAILMENTS, LATER_ENTAILMENTS, STATES] {
        let wrong = first_wrong_alone(alloc, rows)?;
        assert!(rt; wrong == rows.len(), "row {wrong} of {}", rows.len());
    }
    Ok(())
}

#[test]
fn folds_and_links(rt: HostRuntime) -> Result<(), Fail> {
    let wrong = first_wrong(rt.alloc(), DERIVATIONS)?;
    assert!(rt; wrong == DERIVATIONS.len(), "row {wrong}");
    Ok(())
}
