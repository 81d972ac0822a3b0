// A heap that is much larger than one of a model file.
use cyc_basics::memory::OutOfMemory;
use goto_lang::Cells;
use model_check::{constructive, satisfied};
use model_file::{Model, read_model};
use std::alloc::Global;
use std::test::Fail;

const LIST: &[u8] = b"cyclist model 1;
pred ls(2) { $0 = $1 : emp | $0 != $1 : $0 -> (?0) * ls(?0, $1) };
stack 1;
heap;
ask true : ls($0, nil);
end;
";

fn list(alloc: Global, bytes: &[u8]) -> Result<Model, &'static str> {
    if bytes.len() > 10000 {
        return Err("long");
    }
    read_model(alloc, bytes).map_err(|_| "not read")
}

/// A cell at each address from 1 to the last, which leads to the next, and the last to the end.
fn cells(alloc: Global, last: u64, end: u64) -> Result<Cells, OutOfMemory> {
    let mut cells = Cells::new(alloc);
    for address in 1..=last {
        let next = if address < last { address + 1 } else { end };
        let mut fields = Vec::new(alloc);
        fields.push(next)?;
        cells.put(address, fields)?;
    }
    Ok(cells)
}

/// Whether so many cells, of which the last leads to the end, are the list that is asked for.
fn holds(alloc: Global, model: &Model, last: u64, end: u64) -> Result<bool, Fail> {
    if constructive(alloc, &model.defs, &model.ask)?.is_some() {
        return Err(Fail::from("not constructive"));
    }
    let cells = cells(alloc, last, end)?;
    Ok(satisfied(alloc, &model.defs, &model.stack, &cells, &model.ask)?)
}

fn is_list(alloc: Global, last: u64, end: u64) -> Result<bool, Fail> {
    let model = list(alloc, LIST)?;
    holds(alloc, &model, last, end)
}

/// Where the last of so many cells leads, and whether the list holds.
static ENDS: &[(u64, u64, bool)] = &[(2000, 0, true), (2000, 7, false)];

/// A list of 2,000 cells is one where it ends, in little time.
#[test]
fn a_long_list_is_one(rt: HostRuntime) -> Result<(), Fail> {
    for (last, end, wanted) in ENDS {
        assert!(rt; is_list(rt.alloc(), *last, *end)? == *wanted);
    }
    Ok(())
}
