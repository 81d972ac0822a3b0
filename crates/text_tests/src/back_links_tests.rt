// The links of small judgements.
use crate::texts::file;
use back_links::all_links;
use cyc_basics::memory::OutOfMemory;
use heap_formula::{Link, Reason};
use proof_file::{FileNode, ProofFile};
use std::alloc::Global;
use std::test::Fail;

/// What judgements name: two predicates, and four lines.
const NAMES: &[u8] = b"cyclist proof 1;
pred p(1) { true : emp };
pred q(2) { true : emp };
line 1 : stop;
line 2 : stop;
line 3 : stop;
line 4 : stop;
";

/// The file whose node 0 is the companion; node 1 and those after it are the bud, by these links from node 2 on.
fn file_of(alloc: Global, ends: Ends, links: &[&[u8]]) -> Result<ProofFile, Fail> {
    let (bud, companion) = ends;
    let mut text = Vec::from_slice(alloc, NAMES)?;
    push_node(&mut text, companion, b"Done", b"")?;
    push_node(&mut text, bud, b"Done", b"")?;
    for link in links {
        push_node(&mut text, bud, b"Link 7 ", link)?;
    }
    text.extend_from_slice(b"end;\n")?;
    file(alloc, &text)
}

fn push_node(
    text: &mut Vec<u8>,
    judgement: &[u8],
    reason: &[u8],
    link: &[u8],
) -> Result<(), OutOfMemory> {
    for part in [b"node ", judgement, b" by ", reason, link, b";\n"] {
        text.extend_from_slice(part)?;
    }
    Ok(())
}

/// A bud and its companion.
type Ends = (&'static [u8], &'static [u8]);

const TWICE: &[u8] = b"true : p($0) * p($0) |- true : emp";

const CELL: Ends = (
    b"$1 = $2 : $1 -> (nil) |- true : emp",
    b"true : $0 -> (nil) |- true : emp",
);

const FREE: Ends = (
    b"true : emp |- true : emp or $1 = $1 : emp",
    b"true : emp |- $0 = $0 : emp",
);

const RUN: &[u8] = b"from 3 given true : p($0) * p($1)";

const RING: &[u8] = b"true : q($0, $1) * q($1, $0) |- true : emp";

/// A bud and its companion, the number of program variables, how many links are wanted at most, and the links in order.
static LINKS: &[(Ends, u16, u32, &[&[u8]])] = &[
    (
        (TWICE, TWICE),
        1,
        9,
        &[b"{ $0 := $0 } [0 1] [0]", b"{ $0 := $0 } [1 0] [0]"],
    ),
    (
        (b"true : $1 -> (nil) * p($0) |- true : emp", TWICE),
        1,
        9,
        &[],
    ),
    (
        CELL,
        1,
        2,
        &[b"{ $0 := $1 } [0] [0]", b"{ $0 := $2 } [0] [0]"],
    ),
    (CELL, 1, 1, &[b"{ $0 := $1 } [0] [0]"]),
    (CELL, 1, 0, &[]),
    // by value and then by disjunct, without atoms on the left
    (
        FREE,
        1,
        9,
        &[
            b"{ $0 := nil } [] [0]",
            b"{ $0 := nil } [] [1]",
            b"{ $0 := $1 } [] [0]",
            b"{ $0 := $1 } [] [1]",
        ],
    ),
    (
        FREE,
        1,
        3,
        &[
            b"{ $0 := nil } [] [0]",
            b"{ $0 := nil } [] [1]",
            b"{ $0 := $1 } [] [0]",
        ],
    ),
    // `$0` is a program variable
    (
        (b"from 3 given true : p($1) * p($0)", RUN),
        1,
        9,
        &[b"{ $0 := $0, $1 := $1 } [1 0] []"],
    ),
    (
        (b"from 3 given true : p($1) * p($0) * p($2)", RUN),
        1,
        9,
        &[
            b"{ $0 := $0, $1 := $1 } [1 0] []",
            b"{ $0 := $0, $1 := $2 } [1 2] []",
        ],
    ),
    ((b"from 3 given true : p($1) * p($2)", RUN), 1, 9, &[]),
    ((b"from 4 given true : p($1) * p($0)", RUN), 1, 9, &[]),
    // those of the 72 with values among nil, `$2` and `$3` that have no fault
    (
        (
            b"$2 = $3 : q($2, $3) * q($3, $2) |- true : emp or true : emp",
            RING,
        ),
        0,
        99,
        &[
            b"{ $0 := $2, $1 := $2 } [0 1] [0]",
            b"{ $0 := $2, $1 := $2 } [0 1] [1]",
            b"{ $0 := $2, $1 := $3 } [0 1] [0]",
            b"{ $0 := $2, $1 := $3 } [0 1] [1]",
            b"{ $0 := $3, $1 := $2 } [0 1] [0]",
            b"{ $0 := $3, $1 := $2 } [0 1] [1]",
            b"{ $0 := $3, $1 := $3 } [0 1] [0]",
            b"{ $0 := $3, $1 := $3 } [0 1] [1]",
            b"{ $0 := $2, $1 := $2 } [1 0] [0]",
            b"{ $0 := $2, $1 := $2 } [1 0] [1]",
            b"{ $0 := $2, $1 := $3 } [1 0] [0]",
            b"{ $0 := $2, $1 := $3 } [1 0] [1]",
            b"{ $0 := $3, $1 := $2 } [1 0] [0]",
            b"{ $0 := $3, $1 := $2 } [1 0] [1]",
            b"{ $0 := $3, $1 := $3 } [1 0] [0]",
            b"{ $0 := $3, $1 := $3 } [1 0] [1]",
        ],
    ),
    (
        (
            b"true : q($2, $3) * q($3, $2) |- true : emp or true : emp",
            RING,
        ),
        0,
        99,
        &[
            b"{ $0 := $2, $1 := $3 } [0 1] [0]",
            b"{ $0 := $2, $1 := $3 } [0 1] [1]",
            b"{ $0 := $3, $1 := $2 } [1 0] [0]",
            b"{ $0 := $3, $1 := $2 } [1 0] [1]",
        ],
    ),
];

fn is_link(reason: &Reason, link: &Link) -> bool {
    match reason {
        Reason::Back(other) => {
            other.target == link.target
                && other.map.as_slice() == link.map.as_slice()
                && other.subst.pairs() == link.subst.pairs()
                && other.disjuncts.as_slice() == link.disjuncts.as_slice()
        }
        Reason::Step(_) => false,
    }
}

fn are_links(nodes: &[FileNode], links: &[Link]) -> bool {
    if nodes.len() != links.len() {
        return false;
    }
    for (i, node) in nodes.iter().enumerate() {
        if !is_link(&node.reason, &links[i]) {
            return false;
        }
    }
    true
}

/// Whether these are the links of a bud to its companion.
fn has_links(
    alloc: Global,
    ends: Ends,
    variables: u16,
    most: u32,
    wanted: &[&[u8]],
) -> Result<bool, Fail> {
    let file = file_of(alloc, ends, wanted)?;
    let nodes = file.nodes.as_slice();
    if nodes.len() < 2 {
        return Err(Fail::from("no bud"));
    }
    let (bud, companion) = (&nodes[1].judgement, &nodes[0].judgement);
    let links = all_links(alloc, bud, companion, 7, variables, most)?;
    Ok(are_links(&nodes[2..], &links))
}

#[test]
fn all_links_in_order(rt: HostRuntime) -> Result<(), Fail> {
    let alloc = rt.alloc();
    for (ends, variables, most, wanted) in LINKS {
        assert!(rt; has_links(alloc, *ends, *variables, *most, wanted)?);
    }
    Ok(())
}
