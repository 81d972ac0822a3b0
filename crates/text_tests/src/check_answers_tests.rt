//! Runs against sources and sinks in memory, of which a call fails.
use check_answers::run;
use cyc_io::{MemSink, MemSource, PlainSink, PlainSource};
use std::alloc::Global;
use std::test::Fail;

// The proof that two list segments compose.
const FILE: &[u8] =
    b"cyclist proof 1;\npred ls(2) { $0 = $1 : emp | true : $0 -> (?0) * ls(?0, $1) };\nnode true : ls($0, $1) * ls($1, $2) |- true : ls($0, $2) by Unfold 0 to 1 4;\nnode $0 = $1 : ls($1, $2) |- true : ls($0, $2) by Rewrite 0 left to 2;\nnode true : ls($1, $2) |- true : ls($1, $2) by Frame 0 0 to 3;\nnode true : emp |- true : emp by Done;\nnode true : ls($1, $2) * $0 -> ($3) * ls($3, $1) |- true : ls($0, $2) by UnfoldRight 0 1 to 5;\nnode true : ls($1, $2) * $0 -> ($3) * ls($3, $1) |- true : $0 -> (?0) * ls(?0, $2) by Instantiate ?0 $3 to 6;\nnode true : ls($1, $2) * $0 -> ($3) * ls($3, $1) |- true : $0 -> ($3) * ls($3, $2) by Frame 1 0 to 7;\nnode true : ls($1, $2) * ls($3, $1) |- true : ls($3, $2) by Link 0 { $0 := $3, $1 := $1, $2 := $2 } [1 0] [0];\nend;\n";

const ACCEPTED: &[u8] = b"accepted entailment nodes 8 links 1\n";

/// The status of a run, how many bytes it writes of the line, and how many calls of its sink fail, which takes ten
/// bytes a call and fails at one.
fn run_into(alloc: Global, failing: u64) -> Result<(u8, usize, u64), Fail> {
    let mut src = PlainSource::new(Vec::from_slice(alloc, FILE)?, 100);
    let mut out = MemSink::new(alloc, 1000, 10, vec![in alloc; failing]?)?;
    let status = run(alloc, &[], &mut src, &mut out);
    if !ACCEPTED.starts_with(out.written()) {
        return Err(Fail::from("another line"));
    }
    Ok((status.code(), out.written().len(), out.faults()))
}

/// The status of a run, what it writes, and how many calls of its source fail, which gives so many bytes a call and
/// fails at one, or at none, which is call 0.
fn run_from(
    alloc: Global,
    text: &[u8],
    piece: usize,
    failing: u64,
) -> Result<(u8, Vec<u8>, u64), Fail> {
    if piece == 0 {
        return Err(Fail::from("no piece"));
    }
    let bytes = Vec::from_slice(alloc, text)?;
    let mut src = MemSource::new(bytes, piece, vec![in alloc; failing]?);
    let mut out = PlainSink::new(alloc, 1000, 3)?;
    let status = run(alloc, &[], &mut src, &mut out);
    let written = Vec::from_slice(alloc, out.written())?;
    Ok((status.code(), written, src.faults()))
}

// The line has 36 bytes.
#[test]
fn a_sink_that_fails_at_a_call(rt: HostRuntime) -> Result<(), Fail> {
    for (call, ending) in [
        (1, (8, 0, 1)),
        (2, (8, 10, 1)),
        (3, (8, 20, 1)),
        (4, (8, 30, 1)),
        (5, (0, 36, 0)),
    ] {
        assert_eq!(rt; run_into(rt.alloc(), call)?, ending, "at call {call}");
    }
    Ok(())
}

/// Texts, how many bytes of them a call reads, how many calls read them, one more meeting the end, and the status and
/// the line where none of these fails. A text whose first byte is dead is read to its end all the same.
static SOURCES: &[(&[u8], usize, u8, u8, &[u8])] = &[
    (FILE, 100, 9, 0, ACCEPTED),
    (
        b"((((((((((((((((((((",
        2,
        11,
        3,
        b"unreadable syntax token 0 line 1 column 1\n",
    ),
];

#[test]
fn a_source_that_fails_at_a_call(rt: HostRuntime) -> Result<(), Fail> {
    for (text, piece, calls, code, line) in SOURCES {
        for call in 1..*calls as u64 + 2 {
            let (found, written, faults) = run_from(rt.alloc(), text, *piece, call)?;
            let fails = call <= *calls as u64;
            let wanted = if fails { 7 } else { *code };
            let told = if fails { b"".as_slice() } else { line };
            let failed = if fails { 1 } else { 0 };
            assert!(rt;
                found == wanted && written.as_slice() == told && faults == failed,
                "at call {call}"
            );
        }
    }
    Ok(())
}
