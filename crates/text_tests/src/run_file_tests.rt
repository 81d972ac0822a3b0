// What is read and written of the runs that texts spell.
use cyc_lex::{IllFault, ReadFault, What};
use run_file::{read_run, write_run};
use std::alloc::Global;
use std::test::Fail;

/// What is written of the run that a text spells.
fn again(alloc: Global, bytes: &[u8]) -> Result<Vec<u8>, &'static str> {
    if bytes.len() > 10000 {
        return Err("long");
    }
    match read_run(alloc, bytes) {
        Err(_) => Err("not read"),
        Ok(run) => write_run(alloc, &run).map_err(|_| "no memory"),
    }
}

const SHORT: &[u8] = b"cyclist run 1;
line 1 : stop;
from 1 given true : emp;
stack;
heap;
picks;
repeats step 0 step 1;
end;
";

const PICKED: &[u8] = b"cyclist run 1;
pred ls(2) { $0 = $1 : emp | true : $0 -> (?0) * ls(?0, $1) };
line 1 : $0 := new 2;
line 2 : if * goto 1;
line 3 : $1 := $0.8;
line 4 : stop;
from 1 given $1 = nil : ls($1, nil);
stack 0, 0, 999999999;
heap 3 -> (0), 20 -> (1, 2, 3, 4, 5, 6, 7, 8);
picks 0 -> (1, 2), jump, 0 -> (0, 999999999), next;
faults line 3 step 4;
end;
";

const NAMES: &[u8] = b"cyclist run 1;
pred run(0) { true : stack() * heap() * picks() };
pred stack(0) { true : emp };
pred heap(0) { true : jump() * next() };
pred picks(0) { true : emp };
pred jump(0) { true : faults() };
pred next(0) { true : repeats() };
pred faults(0) { true : step() };
pred repeats(0) { true : emp };
pred step(0) { true : emp };
line 1 : goto 1;
from 1 given true : run() * step();
stack;
heap;
picks next, next;
repeats step 999999999 step 0;
end;
";

const GROWN: &[u8] = b"cyclist run 1;
pred grows(1) { true : with() };
pred with(0) { true : emp };
line 1 : $0 := new 1;
line 2 : goto 1;
from 1 given true : grows(nil);
stack;
heap;
picks 1 -> (0), 2 -> (0);
grows step 1 step 3 with(0 0, 1 2, 999999999 0);
end;
";

// A local more than a file of version 1 may have, and a free branch.
const WIDE: &[u8] = b"cyclist run 3;
pred wide(1) { $0 = ?16 : emp };
line 1 : if * goto 1;
line 2 : stop;
from 1 given true : emp;
stack;
heap;
picks jump;
repeats step 0 step 1;
end;
";

/// A text in the written form is written as it stands; no word of a run file is reserved; picks may have any addresses,
/// one of them twice.
#[test]
fn writes_what_it_reads(rt: HostRuntime) -> Result<(), Fail> {
    for text in [SHORT, PICKED, NAMES, GROWN, WIDE] {
        let written = again(rt.alloc(), text)?;
        assert_eq!(rt; written.as_slice(), text);
    }
    Ok(())
}

const MIXED: &[u8] = b"# a run of no step
cyclist run 1;line 1:stop;from 1 given true:emp;stack 7 ,
8;heap 30->(10),10->(20,0) , 20 -> (30);picks jump
,next;faults line 1 step 0;end;# no more";

const SORTED: &[u8] = b"cyclist run 1;
line 1 : stop;
from 1 given true : emp;
stack 7, 8;
heap 10 -> (20, 0), 20 -> (30), 30 -> (10);
picks jump, next;
faults line 1 step 0;
end;
";

/// Spaces and comments are not kept, and the cells of the heap ascend.
#[test]
fn writes_in_one_form(rt: HostRuntime) -> Result<(), Fail> {
    let written = again(rt.alloc(), MIXED)?;
    assert_eq!(rt; written.as_slice(), SORTED);
    Ok(())
}

/// Texts with a fault, whose place was counted by hand.
static FAULTY: &[(&[u8], ReadFault)] = &[
    // the claim starts at a line that is not there
    (
        b"cyclist run 1;line 1: stop;
from 2 given true: emp;stack;heap 0 -> (0);picks;faults line 1 step 0;end;",
        ReadFault::IllFormed {
            fault: IllFault::NoLine,
            token: 10,
            line: 2,
            column: 6,
        },
    ),
    // an address that an earlier cell has, and before it none
    (
        b"cyclist run 1;line 1: stop;
from 1 given true: emp;stack;
heap 3 -> (0), 3 -> (1), 0 -> (1);picks;faults line 1 step 0;end;",
        ReadFault::IllFormed {
            fault: IllFault::Address,
            token: 25,
            line: 3,
            column: 16,
        },
    ),
    // a ninth field of a pick, whose address may be 0
    (
        b"cyclist run 1;line 1: stop;
from 1 given true: emp;stack;heap;
picks jump, 0 -> (0), 0 -> (1, 2, 3, 4, 5, 6, 7, 8, 9);faults line 1 step 0;end;",
        ReadFault::Limit {
            what: What::Arguments,
            token: 48,
            line: 3,
            column: 53,
        },
    ),
    // a seventeenth cell
    (
        b"cyclist run 1;line 1: stop;
from 1 given true: emp;stack;
heap 1->(0),2->(0),3->(0),4->(0),5->(0),6->(0),7->(0),8->(0),
9->(0),10->(0),11->(0),12->(0),13->(0),14->(0),15->(0),16->(0),
17->(0);picks;faults line 1 step 0;end;",
        ReadFault::Limit {
            what: What::Cells,
            token: 115,
            line: 5,
            column: 1,
        },
    ),
    // an existential variable in the precondition
    (
        b"cyclist run 1;line 1: stop;
from 1 given true: ?0 -> (nil);stack;heap;picks;faults line 1 step 0;end;",
        ReadFault::Syntax {
            token: 14,
            line: 2,
            column: 20,
        },
    ),
    // a run that grows, without a pair
    (
        b"cyclist run 1;line 1: stop;
from 1 given true: emp;stack;heap;picks;grows step 1 step 2 with ();end;",
        ReadFault::Syntax {
            token: 29,
            line: 2,
            column: 67,
        },
    ),
    // no such outcome, and a line that does not exist before it
    (
        b"cyclist run 1;line 1: stop;
from 2 given true: emp;stack;heap;picks;repeats line 1 step 0;end;",
        ReadFault::Syntax {
            token: 23,
            line: 2,
            column: 49,
        },
    ),
];

/// The fault of a text that has one.
fn fault_of(alloc: Global, bytes: &[u8]) -> Result<ReadFault, &'static str> {
    if bytes.len() > 10000 {
        return Err("long");
    }
    match read_run(alloc, bytes) {
        Err(fault) => Ok(fault),
        Ok(_) => Err("read"),
    }
}

/// Each text has its fault where it was counted.
#[test]
fn tells_the_first_fault(rt: HostRuntime) -> Result<(), Fail> {
    for (text, fault) in FAULTY {
        assert_eq!(rt; fault_of(rt.alloc(), text)?, *fault);
    }
    Ok(())
}
