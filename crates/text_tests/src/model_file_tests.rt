// What is written of the models that texts spell.
use model_file::{read_model, write_model};
use std::alloc::Global;
use std::test::Fail;

/// What is written of the model that a text spells.
fn again(alloc: Global, bytes: &[u8]) -> Result<Vec<u8>, &'static str> {
    if bytes.len() > 10000 {
        return Err("long");
    }
    match read_model(alloc, bytes) {
        Err(_) => Err("not read"),
        Ok(model) => write_model(alloc, &model).map_err(|_| "no memory"),
    }
}

const EMPTY: &[u8] = b"cyclist model 1;
stack;
heap;
ask true : emp;
end;
";

const RING: &[u8] = b"cyclist model 1;
pred ls(2) { $0 = $1 : emp | true : $0 -> (?0) * ls(?0, $1) };
stack 1, 1;
heap 1 -> (2), 2 -> (1);
ask true : ls($0, $1);
end;
";

const NAMES: &[u8] = b"cyclist model 1;
pred stack(0) { true : emp };
pred heap(1) { $0 != nil : $0 -> (nil, ?3) * stack() };
pred ask(2) { true : model($1) };
pred model(1) { true : heap($0) };
stack 0, 999999999, 7;
heap 3 -> (0), 20 -> (1, 2, 3, 4, 5, 6, 7, 8), 999999999 -> (999999999);
ask $0 = nil, ?1 != $65534 : $1 -> (?1) * ask(nil, $2) * stack();
end;
";

// A local more than a file of version 1 may have.
const WIDE: &[u8] = b"cyclist model 3;
pred wide(1) { $0 = ?16 : emp };
stack;
heap;
ask true : emp;
end;
";

/// A text in the written form is written as it stands; no word of a model file is reserved.
#[test]
fn writes_what_it_reads(rt: HostRuntime) -> Result<(), Fail> {
    for text in [EMPTY, RING, NAMES, WIDE] {
        let written = again(rt.alloc(), text)?;
        assert_eq!(rt; written.as_slice(), text);
    }
    Ok(())
}

const MIXED: &[u8] = b"# a ring of three, drawn by hand
cyclist model 1;stack 7 ,
8;heap 30->(10),10->(20,0) , 20 -> (30);ask true:emp;end;# no more";

const SORTED: &[u8] = b"cyclist model 1;
stack 7, 8;
heap 10 -> (20, 0), 20 -> (30), 30 -> (10);
ask true : emp;
end;
";

/// Spaces and comments are not kept, and cells ascend.
#[test]
fn writes_in_one_form(rt: HostRuntime) -> Result<(), Fail> {
    let written = again(rt.alloc(), MIXED)?;
    assert_eq!(rt; written.as_slice(), SORTED);
    Ok(())
}
