// Single steps, and runs.
ghost use Rattle.std.specs.Prelude.{IfOk};
ghost use Rattle.heap_formula.specs.Closedness.{IsUniversal};
ghost use Rattle.heap_formula.specs.Words.{Each};
ghost use Rattle.goto_lang.specs.Lines.{IsUniversalCommand, commands_of};

use cyc_basics::memory::OutOfMemory;
use goto_lang::{Cells, Config, Program, Ran, Stack, Stepped, run_lowest, step};
use heap_formula::{Command, Term};
use std::alloc::Global;
use std::test::Fail;

const NIL: Term = Term::Nil;

const X: Term = Term::Univ(0);

const Y: Term = Term::Univ(1);

/// A command without an end, as a table has it.
#[derive(Clone, Copy)]
enum Plain {
    Assign(u16, Term),
    Load(u16, Term, u8),
    Store(Term, u8, Term),
    New(u16, u8),
    Free(Term),
    IfEq(Term, Term, u32),
    IfNeq(Term, Term, u32),
    IfAny(u32),
    Goto(u32),
    Stop,
}

/// A line's number and its command, of which no term is an existential.
type Line = (u32, Plain);

fn universal_term(term: Term) -> Term
    ensures { IsUniversal result }
{
    match term {
        Term::Univ(n) => Term::Univ(n),
        Term::Nil | Term::Exist(_) => Term::Nil,
    }
}

fn universal(command: Plain) -> Command
    ensures { IsUniversalCommand result }
{
    match command {
        Plain::Assign(x, t) => Command::Assign(x, universal_term(t)),
        Plain::Load(x, t, k) => Command::Load(x, universal_term(t), k),
        Plain::Store(t, k, u) => Command::Store(universal_term(t), k, universal_term(u)),
        Plain::New(x, k) => Command::New(x, k),
        Plain::Free(t) => Command::Free(universal_term(t)),
        Plain::IfEq(t, u, j) => Command::IfEq(universal_term(t), universal_term(u), j),
        Plain::IfNeq(t, u, j) => Command::IfNeq(universal_term(t), universal_term(u), j),
        Plain::IfAny(j) => Command::IfAny(j),
        Plain::Goto(j) => Command::Goto(j),
        Plain::Stop => Command::Stop,
    }
}

fn lines_of(alloc: Global, lines: &[Line]) -> Result<Vec<(u32, Command)>, OutOfMemory>
    ensures { IfOk result (λ v. Each IsUniversalCommand (commands_of v.items)) }
{
    let mut copies = Vec::new(alloc);
    for (number, command) in lines {
        copies.push((*number, universal(*command)))?;
    }
    Ok(copies)
}

/// A line, the values of x and y, and one cell, or none where the address is 0.
#[derive(Clone, Copy)]
struct State(u32, &'static [u64], u64, &'static [u64]);

fn config(alloc: Global, state: State) -> Result<Config, OutOfMemory> {
    let mut heap = Cells::new(alloc);
    if state.2 > 0 && !state.3.is_empty() {
        heap.put(state.2, Vec::from_slice(alloc, state.3)?)?;
    }
    Ok(Config {
        line: state.0,
        stack: Stack::from_vec(Vec::from_slice(alloc, state.1)?),
        heap,
    })
}

/// What a step comes to: the state with this cell, or with none at the address where there are no fields.
#[derive(Clone, Copy)]
enum Wanted {
    Leads(State),
    BadPick,
    Fault,
    Stop,
}

fn is_state(config: &Config, wanted: State) -> bool {
    let found = config.heap.get(wanted.2).unwrap_or(&[]);
    config.line == wanted.0 && config.stack.as_slice() == wanted.1 && found == wanted.3
}

fn is_wanted(stepped: &Stepped, wanted: Wanted) -> bool {
    match (stepped, wanted) {
        (Stepped::To(next), Wanted::Leads(state)) => is_state(next, state),
        (Stepped::BadPick, Wanted::BadPick) => true,
        (Stepped::Fault, Wanted::Fault) => true,
        (Stepped::Stop, Wanted::Stop) => true,
        _ => false,
    }
}

/// Lines, a state, the address and the fields that are picked, and what one step under headroom 1 comes to.
struct Step(&'static [Line], State, u64, &'static [u64], Wanted);

/// `x := new 1` from the stack 1 and no cells: 1 is the greatest number, so 1 and 2 may be picked and 0 to 2 filled.
const NEW: &[Line] = &[(1, Plain::New(0, 1)), (2, Plain::Stop)];

const ONE: State = State(1, &[1], 0, &[]);

/// `if * goto 3`; the fields are not looked at.
const ANY: &[Line] = &[(1, Plain::IfAny(3)), (2, Plain::Free(X)), (3, Plain::Stop)];

const FOUR: State = State(1, &[4], 1, &[5]);

/// A test of both variables, and an end.
const TEST: Line = (2, Plain::IfEq(X, Y, 1));

const END: Line = (3, Plain::Stop);

/// The state of the lines that end so.
const TWO: State = State(1, &[1, 9], 1, &[5, 6]);

static STEPS: &[Step] = &[
    Step(NEW, ONE, 1, &[2], Wanted::Leads(State(2, &[1], 1, &[2]))),
    Step(NEW, ONE, 2, &[0], Wanted::Leads(State(2, &[2], 2, &[0]))),
    Step(NEW, ONE, 3, &[2], Wanted::BadPick),
    Step(NEW, ONE, 0, &[2], Wanted::BadPick),
    Step(NEW, ONE, 1, &[3], Wanted::BadPick),
    Step(NEW, ONE, 1, &[], Wanted::BadPick),
    Step(NEW, ONE, 1, &[2, 2], Wanted::BadPick),
    // what each command leads to
    Step(
        &[(1, Plain::Assign(1, X)), TEST, END],
        TWO,
        1,
        &[0],
        Wanted::Leads(State(2, &[1, 1], 1, &[5, 6])),
    ),
    Step(
        &[(1, Plain::Load(1, X, 2)), TEST, END],
        TWO,
        1,
        &[0],
        Wanted::Leads(State(2, &[1, 6], 1, &[5, 6])),
    ),
    Step(
        &[(1, Plain::Store(X, 2, Y)), TEST, END],
        TWO,
        1,
        &[0],
        Wanted::Leads(State(2, &[1, 9], 1, &[5, 9])),
    ),
    Step(
        &[(1, Plain::Free(X)), TEST, END],
        TWO,
        1,
        &[0],
        Wanted::Leads(State(2, &[1, 9], 1, &[])),
    ),
    Step(
        &[(1, Plain::IfEq(X, Y, 3)), TEST, END],
        TWO,
        1,
        &[0],
        Wanted::Leads(State(2, &[1, 9], 1, &[5, 6])),
    ),
    Step(
        &[(1, Plain::IfNeq(X, Y, 3)), TEST, END],
        TWO,
        1,
        &[0],
        Wanted::Leads(State(3, &[1, 9], 1, &[5, 6])),
    ),
    Step(
        &[(1, Plain::Goto(3)), TEST, END],
        TWO,
        1,
        &[0],
        Wanted::Leads(State(3, &[1, 9], 1, &[5, 6])),
    ),
    // faults, and an end
    Step(
        &[(1, Plain::Free(NIL)), TEST, END],
        TWO,
        1,
        &[0],
        Wanted::Fault,
    ),
    Step(
        &[(1, Plain::Load(0, X, 3)), TEST, END],
        TWO,
        1,
        &[0],
        Wanted::Fault,
    ),
    Step(
        &[(1, Plain::Store(Y, 1, X)), TEST, END],
        TWO,
        1,
        &[0],
        Wanted::Fault,
    ),
    Step(
        &[(1, Plain::New(0, 1)), TEST, END],
        TWO,
        1,
        &[0],
        Wanted::BadPick,
    ),
    Step(&[(1, Plain::Stop), TEST, END], TWO, 1, &[0], Wanted::Stop),
    // free branches take 0 and 1
    Step(ANY, FOUR, 0, &[9], Wanted::Leads(State(2, &[4], 1, &[5]))),
    Step(ANY, FOUR, 1, &[9], Wanted::Leads(State(3, &[4], 1, &[5]))),
    Step(ANY, FOUR, 2, &[9], Wanted::BadPick),
    Step(ANY, FOUR, u64::MAX, &[9], Wanted::BadPick),
];

fn program(alloc: Global, lines: &[Line]) -> Result<Program, Fail> {
    let lines = lines_of(alloc, lines)?;
    Ok(Program::new(alloc, &lines)?)
}

/// Whether one step comes to what is wanted.
fn steps_so(alloc: Global, row: &Step) -> Result<bool, Fail> {
    let program = program(alloc, row.0)?;
    let config = config(alloc, row.1)?;
    if !config.is_state_of(&program) || config.greatest() == u64::MAX {
        return Err("no state of the program".into());
    }
    let stepped = step(alloc, &program, &config, 1, row.2, row.3)?;
    Ok(is_wanted(&stepped, row.4))
}

#[test]
fn commands_step(rt: HostRuntime) -> Result<(), Fail> {
    let alloc = rt.alloc();
    for (number, row) in STEPS.iter().enumerate() {
        assert!(rt; steps_so(alloc, row)?, "step {number}");
    }
    Ok(())
}

/// Lines, a state, the greatest number of steps, and how the run ends.
struct Run(&'static [Line], State, u64, Ran);

/// Walks the list at x.
const WALK: &[Line] = &[
    (1, Plain::IfEq(X, NIL, 4)),
    (2, Plain::Load(0, X, 1)),
    (3, Plain::Goto(1)),
    (4, Plain::Stop),
];

const LIST: State = State(1, &[1], 1, &[0]);

static RUNS: &[Run] = &[
    // past a free branch
    Run(
        &[(1, Plain::IfAny(1)), (2, Plain::Stop)],
        State(1, &[], 0, &[]),
        9,
        Ran::Stopped(1),
    ),
    Run(WALK, LIST, 10, Ran::Stopped(4)),
    Run(WALK, LIST, 4, Ran::Stopped(4)),
    Run(WALK, LIST, 3, Ran::Running),
    // a missing cell
    Run(WALK, ONE, 1, Ran::Faulted(1)),
    Run(WALK, ONE, 0, Ran::Running),
    // frees x, takes a new cell for y, and stops only where y has the address that was freed
    Run(
        &[
            (1, Plain::Free(X)),
            (2, Plain::New(1, 1)),
            (3, Plain::IfEq(X, Y, 5)),
            (4, Plain::Goto(4)),
            (5, Plain::Stop),
        ],
        State(1, &[1, 0], 1, &[7]),
        9,
        Ran::Stopped(3),
    ),
];

fn ran(alloc: Global, row: &Run) -> Result<Ran, Fail> {
    let program = program(alloc, row.0)?;
    let config = config(alloc, row.1)?;
    if !config.is_state_of(&program) {
        return Err("no state of the program".into());
    }
    Ok(run_lowest(alloc, &program, &config, row.2)?)
}

#[test]
fn runs_end(rt: HostRuntime) -> Result<(), Fail> {
    let alloc = rt.alloc();
    for row in RUNS {
        assert_eq!(rt; ran(alloc, row)?, row.3);
    }
    Ok(())
}
