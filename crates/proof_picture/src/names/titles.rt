//! The title of a picture: the statements of the problem that was proved.
ghost use Rattle.std.specs.Prelude.{◌≡◌, ◌++◌, IfOk, OnOk, map};
ghost use Rattle.proof_picture.specs.Pieces.{piece_of, pieces_of};
ghost use Rattle.std.specs.List.{slice_split};
ghost use Rattle.proof_picture.specs.Naming.{seen, words_of};
ghost use Rattle.proof_picture.specs.Titles.{begins as begins_so, ends_statement as ends_so, lines_in, parts_with};
ghost use Rattle.proof_picture.specs.Titles.{statements_in, title};
ghost use Rattle.cyc_lex.specs.Word.{word};

use crate::names::labels::add_statement;
use crate::{Label, Piece};
use cyc_basics::memory::OutOfMemory;
use cyc_lex::{Kind, Token};
use std::alloc::{AllocError, Global};

fn ends_statement(token: &Token<'_>) -> bool
    ensures { result ≡ ends_so (word token.now) }
{
    match token.kind {
        Kind::Symbol => token.text == ";",
        _ => false,
    }
}

fn parts_of<'t, 'a>(
    alloc: Global,
    tokens: &'t [Token<'a>],
) -> Result<Vec<&'t [Token<'a>]>, AllocError>
    ensures { IfOk result (λ v. map seen v.items ≡ slice_split (λ t. ends_so (word t)) tokens.now) }
{
    tokens.split(|token| ends_statement(token)).collect(alloc)
}

/// The statements of a problem that has these tokens, without the `;` behind each.
pub fn statements_of<'t, 'a>(
    alloc: Global,
    tokens: &'t [Token<'a>],
) -> Result<Vec<&'t [Token<'a>]>, OutOfMemory>
    ensures { IfOk result (λ v. map words_of v.items ≡ statements_in (map word tokens.now)) }
{
    Ok(parts_of(alloc, tokens)?)
}

/// Whether the statement begins with this word.
fn begins(statement: &[Token<'_>], text: &str) -> bool
    ensures { result ≡ begins_so text.now (map word statement.now) }
{
    match statement {
        [] => false,
        [first, ..] => match first.kind {
            Kind::Name => first.text == text,
            _ => false,
        },
    }
}

/// Adds the statements that begin with this word, each in lines of its own.
fn add_statements(
    alloc: Global,
    pieces: &mut Vec<Piece>,
    statements: &[&[Token<'_>]],
    text: &str,
) -> Result<(), OutOfMemory>
    ensures { OnOk result (map piece_of pieces.new.items
        ≡ map piece_of pieces.old.items ++ parts_with text.now (map words_of statements.now)) }
{
    for statement in statements {
        if begins(statement, text) {
            add_statement(alloc, pieces, Some(*statement))?;
        }
    }
    Ok(())
}

/// A problem's goal as its author wrote it, then its definitions, and the lines of its program.
pub fn title_of(alloc: Global, statements: &[&[Token<'_>]]) -> Result<Label, OutOfMemory>
    ensures { IfOk result (λ l. pieces_of l ≡ title (map words_of statements.now)) }
{
    let mut pieces = Vec::new(alloc);
    add_statements(alloc, &mut pieces, statements, "goal")?;
    add_statements(alloc, &mut pieces, statements, "pred")?;
    add_statements(alloc, &mut pieces, statements, "line")?;
    Ok(Label { pieces })
}

/// The lines of a problem's program, in order.
pub fn program_lines<'t, 'a>(
    alloc: Global,
    statements: &[&'t [Token<'a>]],
) -> Result<Vec<&'t [Token<'a>]>, OutOfMemory>
    ensures { IfOk result (λ v. map words_of v.items ≡ lines_in (map words_of statements.now)) }
{
    let mut lines = Vec::new(alloc);
    for statement in statements {
        if begins(statement, "line") {
            lines.push(*statement)?;
        }
    }
    Ok(lines)
}
