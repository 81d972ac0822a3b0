//! The last statements of a text, and its end.

ghost use Rattle.std.specs.Prelude.{◌≡◌, [], false};
ghost use Rattle.file_reader.specs.Outcomes.{settled};
ghost use Rattle.file_reader.specs.Stages.{said_with};
ghost use Rattle.file_reader.specs.Pieces.{Tells};
ghost use Rattle.file_reader.specs.Knowns.{begun_in, IsHeads, IsSteady};
ghost use Rattle.file_reader.specs.Stretches.{IsStretch};
ghost use Rattle.file_reader.specs.Lasts.{StandsIn, Lasts, Ends, comes_to};

use crate::adding::add_statement;
use crate::known::{Found, KnownFront, known_heads};
use crate::part::KEPT;
use crate::stretch::Stretch;
use cyc_grammar::{Cursor, Refusal};
use cyc_lex::ReadFault;
use heap_reader::Heads;
use proof_file::{ProofFile, file_of_values};
use proof_syntax::statements::kept_node_or_last;
use std::alloc::Global;

/// Reads the nodes that are left, and the last statement.
fn read_left(
    alloc: Global,
    known: &KnownFront,
    heads: &Heads<'_>,
    stretch: Stretch<'_>,
    cursor: &mut Cursor<'_, '_>,
    found: &mut Found,
) -> Result<(), Refusal>
    requires stretch { IsStretch stretch }
    requires heads { IsHeads known.now heads.now }
    requires steady { IsSteady known.now found.old }
    requires stands { StandsIn stretch found.old.tokens cursor.old }
    ensures { Lasts known.now stretch.entry found.old found.new cursor.new result }
{
    'nodes: while !found.ended {
        let statement = kept_node_or_last(alloc, KEPT, cursor)?;
        let added = add_statement(alloc, known, heads, stretch, &statement, cursor, found);
        drop(statement);
        added?;
    }
    Ok(())
}

/// Reads the statements that are left, if the last one did not come.
fn read_statements(
    alloc: Global,
    known: &KnownFront,
    stretch: Stretch<'_>,
    cursor: &mut Cursor<'_, '_>,
    found: &mut Found,
) -> Result<(), Refusal>
    requires stretch { IsStretch stretch }
    requires steady { IsSteady known.now found.old }
    requires stands { StandsIn stretch found.old.tokens cursor.old }
    ensures { Lasts known.now stretch.entry found.old found.new cursor.new result }
{
    if found.ended {
        return Ok(());
    }
    let heads = known_heads(alloc, known)?;
    read_left(alloc, known, &heads, stretch, cursor, found)
}

/// Reads the statements that are left, and the end of the text.
fn read_end(
    alloc: Global,
    known: &KnownFront,
    stretch: Stretch<'_>,
    cursor: &mut Cursor<'_, '_>,
    found: &mut Found,
) -> Result<(), Refusal>
    requires stretch { IsStretch stretch }
    requires steady { IsSteady known.now found.old }
    requires stands { StandsIn stretch found.old.tokens cursor.old }
    ensures { Ends known.now stretch.entry found.old found.new result }
{
    read_statements(alloc, known, stretch, cursor, found)?;
    cursor.end()?;
    if cursor.left() > 0 {
        return Err(Refusal::Dead(cursor.left()));
    }
    Ok(())
}

/// What was read says, after the end of the text.
fn said(known: KnownFront, found: Found) -> Result<ProofFile, ReadFault>
    requires { IsSteady known found }
    ensures { Tells (settled found.flaw (said_with (begun_in known found) [])) result }
{
    let KnownFront {
        version,
        lines: _,
        front,
    } = known;
    let Found { flaw, nodes, .. } = found;
    match flaw {
        Some(fault) => Err(fault),
        None => match front {
            Some(front) => Ok(file_of_values(version, front.defs, front.program, nodes)),
            None => unreachable!(),
        },
    }
}

/// What a text says of which this is held, and these tokens are left, with the end token; or its first fault.
pub fn read_last(
    alloc: Global,
    known: KnownFront,
    found: Found,
    stretch: Stretch<'_>,
    cursor: &mut Cursor<'_, '_>,
) -> Result<ProofFile, ReadFault>
    requires stretch { IsStretch stretch }
    requires steady { IsSteady known found }
    requires stands { StandsIn stretch found.tokens cursor.old }
    ensures { Tells (comes_to known found stretch.entry) result }
{
    let mut found = found;
    match read_end(alloc, &known, stretch, cursor, &mut found) {
        Ok(()) => said(known, found),
        Err(Refusal::Dead(left)) => Err(stretch.dead(left)),
        Err(Refusal::OutOfMemory) => Err(ReadFault::OutOfMemory),
    }
}
