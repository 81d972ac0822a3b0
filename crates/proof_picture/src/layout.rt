//! Words laid out in pieces and lines.
ghost use Rattle.std.specs.Prelude.{◌≡◌, IfOk, OnOk, map};
ghost use Rattle.cyc_lex.specs.Word.{word};
ghost use Rattle.cyc_lex.specs.Writing.{write};
ghost use Rattle.proof_picture.specs.Layout.{blank_layout, finished, label, plain, step};
ghost use Rattle.proof_picture.specs.Pieces.{piece_of};

use crate::piece::Piece;
use crate::spot::{Gap, Spot};
use cyc_basics::memory::OutOfMemory;
use cyc_lex::{Kind, Token, WordWriter};
use std::alloc::Global;
use std::marker::Model;

/// The pieces so far, the words of the next piece, whether these stand out, and how far the words have come.
#[derive(Drop)]
struct Layout<'a> {
    pieces: Vec<Piece>,
    writer: WordWriter,
    bold: bool,
    spot: Spot<'a>,
}

impl<'a> Model for Layout<'a> {
    ghost use Rattle.std.specs.Prelude.{map};
    ghost use Rattle.proof_picture.specs.Layout.{Laid};
    ghost use Rattle.proof_picture.specs.Pieces.{piece_of};
    ghost use Rattle.proof_picture.specs.Places.{place_of};

    ghost Value = { Laid };

    ghost view = { λ l. record {
      pieces = map piece_of l.pieces.items;
      written = l.writer;
      bold = l.bold;
      place = place_of l.spot;
    } };
}

/// Writes a word; a number as a symbol is written, since none stands before a parenthesis.
fn write_word(writer: &mut WordWriter, token: &Token<'_>) -> Result<(), OutOfMemory>
    ensures { OnOk result (writer.new ≡ write writer.old (plain (word token.now))) }
{
    match token.kind {
        Kind::Name => writer.name(token.text),
        _ => writer.symbol(token.text),
    }
}

impl<'a> Layout<'a> {
    fn new(alloc: Global, flags: &'a [bool]) -> Layout<'a>
        ensures { result ≡ blank_layout flags.now }
    {
        Layout {
            pieces: Vec::new(alloc),
            writer: WordWriter::new(alloc),
            bold: false,
            spot: Spot::start(flags),
        }
    }

    /// One more word.
    fn word(self, alloc: Global, token: &Token<'_>) -> Result<Layout<'a>, OutOfMemory>
        ensures { IfOk result (λ l. l ≡ step self.entry (word token.now)) }
    {
        let Layout {
            mut pieces,
            mut writer,
            bold,
            spot,
        } = self;
        let gap = spot.gap(bold, token.text);
        let next = spot.stands_out(token.text);
        let spot = spot.after(gap, token.text);
        if let Gap::Joined | Gap::Space | Gap::Line = gap {
            pieces.push(Piece::Words(bold, writer.finish()))?;
            writer = WordWriter::new(alloc);
        }
        match gap {
            Gap::Within | Gap::Joined => {}
            Gap::Space => pieces.push(Piece::Space)?,
            Gap::Line => pieces.push(Piece::Line)?,
        }
        write_word(&mut writer, token)?;
        Ok(Layout {
            pieces,
            writer,
            bold: next,
            spot,
        })
    }

    /// All pieces.
    fn finish(self) -> Result<Vec<Piece>, OutOfMemory>
        ensures { IfOk result (λ v. map piece_of v.items ≡ finished self.entry) }
    {
        let Layout {
            mut pieces,
            writer,
            bold,
            ..
        } = self;
        pieces.push(Piece::Words(bold, writer.finish()))?;
        Ok(pieces)
    }
}

/// The words of a node in pieces and lines; `flags` says of each spatial atom of the antecedent whether it stands out.
pub fn lay_out(
    alloc: Global,
    tokens: &[Token<'_>],
    flags: &[bool],
) -> Result<Vec<Piece>, OutOfMemory>
    ensures { IfOk result (λ v. map piece_of v.items ≡ label flags.now (map word tokens.now)) }
{
    let mut layout = Layout::new(alloc, flags);
    for token in tokens {
        layout = layout.word(alloc, token)?;
    }
    layout.finish()
}
