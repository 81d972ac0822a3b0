//! Nodes as they come, statement by statement.

ghost use Rattle.std.specs.Prelude.{◌≡◌, ◌≤◌, IfOk, Ok, false, length, map, true};
ghost use Rattle.cyc_lex.specs.Lexing.{HasRoom};
ghost use Rattle.cyc_lex.specs.Placed.{placed};
ghost use Rattle.cyc_lex.specs.Word.{word_of};
ghost use Rattle.cyc_grammar.specs.Classes.{are_tokens};
ghost use Rattle.proof_syntax.specs.Left.{Nodes, kept_statement};
ghost use Rattle.proof_syntax.specs.StatementTrees.{node_or_last_of};
ghost use Rattle.file_reader.specs.Fronts.{kept};
ghost use Rattle.file_reader.specs.Stretches.{IsStretch, tokens_of};
ghost use Rattle.file_reader.specs.Knowns.{IsHeads, IsSteady};
ghost use Rattle.file_reader.specs.Runs.{IsRefused, IsStep, Runs};

use crate::adding::add_statement;
use crate::known::{Found, KnownFront};
use crate::part::KEPT;
use crate::stretch::Stretch;
use cyc_grammar::{Cursor, Refusal};
use cyc_lex::{OutOfMemory, Place, ReadFault, Stop};
use heap_reader::Heads;
use piecewise_lex::take_statement;
use proof_syntax::statements::{NodeOrLast, kept_node_or_last};
use std::alloc::Global;

/// What the tokens of one statement come to: it was taken; the first dead one of them has so many to the end; or they
/// may go on.
#[derive(Clone, Copy)]
pub enum NodeStep {
    Taken,
    Dead(usize),
    Open,
}

/// What was read of a text: the syntax fault, if one came; the place after the statements that were taken, whether a
/// comment goes on there, and the text that is left.
#[derive(Clone, Copy)]
pub struct Ran<'a> {
    pub dead: Option<ReadFault>,
    pub place: Place,
    pub comment: bool,
    pub rest: &'a str,
}

/// What tokens come to that are refused: words that run out may go on.
fn refused(refusal: Refusal) -> Result<NodeStep, OutOfMemory>
    ensures { IfOk result (IsRefused refusal) }
{
    match refusal {
        Refusal::Dead(left) => {
            if left > 0 {
                return Ok(NodeStep::Dead(left));
            }
            Ok(NodeStep::Open)
        }
        Refusal::OutOfMemory => Err(OutOfMemory),
    }
}

/// Takes a statement that was read of these tokens up to the cursor, if none is left.
fn take_whole(
    alloc: Global,
    known: &KnownFront,
    heads: &Heads<'_>,
    stretch: Stretch<'_>,
    statement: &NodeOrLast<'_>,
    cursor: &Cursor<'_, '_>,
    found: &mut Found,
) -> Result<NodeStep, OutOfMemory>
    requires stretch { IsStretch stretch }
    requires heads { IsHeads known.now heads.now }
    requires steady { IsSteady known.now found.old }
    requires here { stretch.before ≡ found.old.tokens }
    requires going { found.old.ended ≡ false }
    requires read { (kept_statement kept Nodes).read (map word_of (tokens_of stretch))
        ≡ Ok (node_or_last_of statement.now, cursor.now) }
    ensures { IfOk result (IsStep known.now (tokens_of stretch.entry) found.old found.new) }
{
    if cursor.left() > 0 {
        return Ok(NodeStep::Open);
    }
    add_statement(alloc, known, heads, stretch, statement, cursor, found)?;
    Ok(NodeStep::Taken)
}

/// Takes a node, or the last statement.
fn take_node(
    alloc: Global,
    known: &KnownFront,
    heads: &Heads<'_>,
    stretch: Stretch<'_>,
    cursor: Cursor<'_, '_>,
    found: &mut Found,
) -> Result<NodeStep, OutOfMemory>
    requires stretch { IsStretch stretch }
    requires heads { IsHeads known.now heads.now }
    requires steady { IsSteady known.now found.old }
    requires cursor { cursor ≡ map word_of (tokens_of stretch) }
    requires here { stretch.before ≡ found.old.tokens }
    requires going { found.old.ended ≡ false }
    ensures { IfOk result (IsStep known.now (tokens_of stretch.entry) found.old found.new) }
{
    let mut cursor = cursor;
    match kept_node_or_last(alloc, KEPT, &mut cursor) {
        Ok(statement) => {
            let taken = take_whole(alloc, known, heads, stretch, &statement, &cursor, found);
            drop(statement);
            taken
        }
        Err(refusal) => refused(refusal),
    }
}

/// Takes a statement; after the last one none comes.
fn take_step(
    alloc: Global,
    known: &KnownFront,
    heads: &Heads<'_>,
    stretch: Stretch<'_>,
    cursor: Cursor<'_, '_>,
    found: &mut Found,
) -> Result<NodeStep, OutOfMemory>
    requires stretch { IsStretch stretch }
    requires heads { IsHeads known.now heads.now }
    requires steady { IsSteady known.now found.old }
    requires cursor { cursor ≡ map word_of (tokens_of stretch) }
    requires here { stretch.before ≡ found.old.tokens }
    ensures { IfOk result (IsStep known.now (tokens_of stretch.entry) found.old found.new) }
{
    if !found.ended {
        return take_node(alloc, known, heads, stretch, cursor, found);
    }
    let mut cursor = cursor;
    match cursor.end() {
        Ok(()) => Ok(NodeStep::Open),
        Err(refusal) => refused(refusal),
    }
}

/// Reads the statements at the front of a text from the first node on, which stands at a place, where a comment goes on
/// or none does. What is no whole statement yet is left.
pub fn read_nodes<'a>(
    alloc: Global,
    known: &KnownFront,
    heads: &Heads<'_>,
    place: Place,
    comment: bool,
    text: &'a str,
    found: &mut Found,
) -> Result<Ran<'a>, Stop>
    requires room { HasRoom place (length text.now) }
    requires heads { IsHeads known.now heads.now }
    requires steady { IsSteady known.now found.old }
    requires few { found.old.tokens ≤ place.offset }
    ensures { Runs place comment text.now known.now found.old found.new result }
{
    let mut tokens = Vec::new(alloc);
    let mut place = place;
    let mut comment = comment;
    let mut rest = text;
    'statements: loop {
        let span = take_statement(&mut tokens, place, comment, rest)?;
        let stretch = Stretch {
            before: found.tokens,
            place,
            comment,
            text: rest,
            count: span.tokens,
        };
        let cursor = stretch.cursor_over(&tokens);
        match take_step(alloc, known, heads, stretch, cursor, found)? {
            NodeStep::Open => {
                return Ok(Ran {
                    dead: None,
                    place,
                    comment,
                    rest,
                });
            }
            NodeStep::Dead(left) => {
                return Ok(Ran {
                    dead: Some(stretch.dead(left)),
                    place: span.place,
                    comment: span.comment,
                    rest: span.rest,
                });
            }
            NodeStep::Taken => {
                place = span.place;
                comment = span.comment;
                rest = span.rest;
                if !span.ended {
                    return Ok(Ran {
                        dead: None,
                        place,
                        comment,
                        rest,
                    });
                }
            }
        }
    }
}
