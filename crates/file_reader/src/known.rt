//! What a proof file says up to a place among its nodes.

ghost use Rattle.std.specs.Prelude.{◌≡◌, ◌≤◌, length, map, IfOk};
ghost use Rattle.cyc_basics.specs.declared.limits.TheConstants.{MOST_PREDICATES};
ghost use Rattle.heap_reader.specs.Trees.{defined_headings};
ghost use Rattle.file_reader.specs.Knowns.{defs_in};

use cyc_lex::{OutOfMemory, ReadFault};
use heap_reader::{Heads, heads_of};
use heap_syntax::Version;
use proof_file::{FileFront, FileNode};
use std::alloc::Global;

/// What stands before the nodes: the version, the number of lines, and the definitions and the program, of which there
/// are none where a flaw is among them.
#[derive(Drop)]
pub struct KnownFront {
    pub version: Version,
    pub lines: usize,
    pub front: Option<FileFront>,
}

/// What the nodes so far say: the first flaw of the text, or else the values of all nodes; the number of tokens up to
/// the next statement; and whether the last statement came.
#[derive(Drop)]
pub struct Found {
    pub flaw: Option<ReadFault>,
    pub nodes: Vec<FileNode>,
    pub tokens: u32,
    pub ended: bool,
}

/// What uses of the predicates are compared with.
pub fn known_heads(alloc: Global, known: &KnownFront) -> Result<Heads<'_>, OutOfMemory>
    ensures value { IfOk result (λ h. h ≡ defined_headings (defs_in known.now.front)) }
    ensures few { IfOk result (λ h. length h ≤ MOST_PREDICATES) }
{
    let defs = match &known.front {
        Some(front) => front.defs.as_slice(),
        None => &[],
    };
    Heads::new(alloc, heads_of(alloc, defs)?)
}
