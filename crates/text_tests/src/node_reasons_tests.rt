// What a link leaves to be shown.
use crate::texts::file;
use heap_formula::{Judgement, Pair, Premise, RuleError, RuleFault};
use proof_file::ProofFile;
use rule_book::reasons::premises_by_reason;
use std::alloc::Global;
use std::test::Fail;

// The two predicate atoms of the companion take their entries, and its cell none.
const LINK: &[u8] = b"cyclist proof 1;
pred p(1) { true : emp };
pred q(1) { true : emp };
pred r(1) { true : emp };
line 1 : stop;
line 2 : stop;
line 3 : stop;
node from 3 given true : p($0) * $1 -> (nil) * q($1) by Exec;
node from 3 given true : $1 -> (nil) * r($1) * q($1) * r($0) * p($0) by Link 7 { } [4 0 2] [];
end;
";

static MOVED: &[Pair] = &[
    Pair {
        old: 4,
        new: 0,
        progress: false,
    },
    Pair {
        old: 2,
        new: 2,
        progress: false,
    },
];

/// What the reason of node 1 leaves, where node 0 is the companion or there is none.
fn left(alloc: Global, file: &ProofFile, is_linked: bool) -> Result<Vec<Premise>, RuleError> {
    let [first, bud] = file.nodes.as_slice() else {
        return Ok(Vec::new(alloc));
    };
    let companion = if is_linked {
        Some(&first.judgement)
    } else {
        None
    };
    premises_by_reason(
        alloc,
        &file.defs,
        &file.program,
        &bud.judgement,
        &bud.reason,
        companion,
    )
}

fn is_companion(premises: &[Premise], companion: &Judgement) -> bool {
    match premises {
        [only] => only.judgement == *companion && only.pairs.as_slice() == MOVED,
        _ => false,
    }
}

// Without a companion there is no node.
#[test]
fn a_link_leaves_its_companion(rt: HostRuntime) -> Result<(), Fail> {
    let alloc = rt.alloc();
    let file = file(alloc, LINK)?;
    let [companion, _] = file.nodes.as_slice() else {
        return Err(Fail::from("not two nodes"));
    };
    let premises = left(alloc, &file, true)?;
    assert!(rt; is_companion(&premises, &companion.judgement));
    assert_eq!(rt;
        left(alloc, &file, false).err(),
        Some(RuleError::Fault(RuleFault::NoSuchNode))
    );
    Ok(())
}
