//! A text up to its first node, and that too.

ghost use Rattle.std.specs.Prelude.{◌≡◌, ◌≤◌, ◌<◌, ◌^◌, [], IfOk, length, map};
ghost use Rattle.cyc_lex.specs.Word.{word_of};
ghost use Rattle.proof_file.specs.Flaws.{headings, first_node};
ghost use Rattle.file_reader.specs.Stretches.{IsStretch, tokens_of};
ghost use Rattle.proof_syntax.specs.Grammar.{ends};
ghost use Rattle.file_reader.specs.Fronts.{front_defs, front_ends, IsBegun};
ghost use Rattle.file_reader.specs.Steps.{tree_of};
ghost use Rattle.file_reader.specs.Beginnings.{IsOpened, IsOpen, IsBeginning, Begins};

use crate::adding::add_node;
use crate::front::{Front, read_front};
use crate::known::{Found, KnownFront};
use crate::stretch::Stretch;
use cyc_grammar::{Cursor, Refusal};
use cyc_lex::{OutOfMemory, ReadFault};
use heap_reader::Heads;
use heap_reader::definitions::heads;
use proof_file::{FileFront, front_flaw, front_values};
use std::alloc::Global;

/// What stands before the nodes of a text and what the first node says.
#[derive(Drop)]
pub struct Beginning {
    pub known: KnownFront,
    pub found: Found,
}

/// What is held with a first flaw before the nodes, or with the values of what stands there.
fn opened(
    alloc: Global,
    front: &Front<'_>,
    flaw: Option<ReadFault>,
    values: Option<FileFront>,
) -> Beginning
    requires { front.now.before < 2 ^ 32 }
    ensures opened { IsOpened front.now result }
    ensures flaw { result.found.flaw ≡ flaw }
    ensures values { result.known.front ≡ values }
{
    Beginning {
        known: KnownFront {
            version: front.version,
            lines: front.lines.len(),
            front: values,
        },
        found: Found {
            flaw,
            nodes: Vec::new(alloc),
            tokens: front.before as u32,
            ended: false,
        },
    }
}

/// What stands before the nodes, whose tokens are some of these.
fn open(
    alloc: Global,
    stretch: Stretch<'_>,
    heads: &Heads<'_>,
    front: &Front<'_>,
) -> Result<Beginning, OutOfMemory>
    requires stretch { IsStretch stretch }
    requires first { stretch.before ≡ 0 }
    requires known { heads.now ≡ headings (front_defs front.now) }
    requires within { first_node (tree_of front.now.version (front_defs front.now) front.now.lines.items
        (front_ends front.now) []) ≤ front.now.before }
    requires fits { (ends front.now.version).fits (front_ends front.now) }
    requires before { front.now.before ≤ stretch.count }
    ensures { IfOk result (IsOpen (tokens_of stretch.entry) front.now) }
{
    match front_flaw(
        heads,
        front.version,
        &front.definitions,
        &front.lines,
        &front.ends,
    ) {
        Some(flaw) => Ok(opened(alloc, front, Some(stretch.flaw(flaw)), None)),
        None => {
            let values = front_values(
                alloc,
                heads,
                front.version,
                &front.definitions,
                &front.lines,
                &front.ends,
            )?;
            Ok(opened(alloc, front, None, Some(values)))
        }
    }
}

/// What stands before the nodes and the first node say, where uses are compared with these heads.
fn begun_with(
    alloc: Global,
    stretch: Stretch<'_>,
    heads: &Heads<'_>,
    front: &Front<'_>,
    cursor: &Cursor<'_, '_>,
) -> Result<Beginning, OutOfMemory>
    requires stretch { IsStretch stretch }
    requires first { stretch.before ≡ 0 }
    requires known { heads.now ≡ headings (front_defs front.now) }
    requires read { IsBegun (map word_of (tokens_of stretch)) front.now cursor.now }
    ensures { IfOk result (IsBeginning (tokens_of stretch.entry) cursor.now) }
{
    let mut beginning = open(alloc, stretch, heads, front)?;
    add_node(
        alloc,
        &beginning.known,
        heads,
        stretch,
        &front.first,
        &mut beginning.found,
    )?;
    beginning.found.tokens = (stretch.count - cursor.left()) as u32;
    Ok(beginning)
}

/// What stands before the nodes and the first node say, which were read of the text up to the cursor.
fn begun(
    alloc: Global,
    stretch: Stretch<'_>,
    front: &Front<'_>,
    cursor: &Cursor<'_, '_>,
) -> Result<Beginning, OutOfMemory>
    requires stretch { IsStretch stretch }
    requires first { stretch.before ≡ 0 }
    requires read { IsBegun (map word_of (tokens_of stretch)) front.now cursor.now }
    ensures { IfOk result (IsBeginning (tokens_of stretch.entry) cursor.now) }
{
    let heads = heads(alloc, &front.definitions)?;
    begun_with(alloc, stretch, &heads, front, cursor)
}

/// Reads a text up to its first node, and that too: what stands there.
pub fn begin(
    alloc: Global,
    stretch: Stretch<'_>,
    cursor: &mut Cursor<'_, '_>,
) -> Result<Beginning, Refusal>
    requires stretch { IsStretch stretch }
    requires first { stretch.before ≡ 0 }
    requires cursor { cursor.old ≡ map word_of (tokens_of stretch) }
    ensures { Begins (tokens_of stretch.entry) cursor.new result }
{
    let front = read_front(alloc, cursor)?;
    let begun = begun(alloc, stretch, &front, cursor);
    drop(front);
    Ok(begun?)
}
