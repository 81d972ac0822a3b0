//! Tokens of a text that stand next to one another, and the faults at them.

ghost use Rattle.std.specs.Prelude.{◌≡◌, ◌≤◌, ◌+◌, ◌<◌, length, map, true};
ghost use Rattle.cyc_lex.specs.Placed.{placed};
ghost use Rattle.cyc_lex.specs.Word.{word_of};
ghost use Rattle.cyc_grammar.specs.Classes.{are_tokens};
ghost use Rattle.file_reader.specs.Outcomes.{flaw_fault, syntax_fault};
ghost use Rattle.file_reader.specs.Stretches.{IsStretch, tokens_of};

use cyc_grammar::Cursor;
use cyc_lex::{Place, ReadFault, Token, token_at};
use heap_reader::Flaw;

/// So many of the first tokens of a text that stands at a place, where a comment goes on or none does; `before` others
/// stand before them. No token is held: each is cut off the text again when it is asked for.
#[derive(Clone, Copy)]
pub struct Stretch<'a> {
    pub before: u32,
    pub place: Place,
    pub comment: bool,
    pub text: &'a str,
    pub count: usize,
}

impl<'a> Stretch<'a> {
    /// All of the tokens.
    pub fn cursor<'s>(self) -> Cursor<'s, 'a>
        requires stretch { IsStretch self }
        requires tokens { are_tokens (map word_of (tokens_of self)) ≡ true }
        ensures { result ≡ map word_of (tokens_of self.entry) }
    {
        Cursor::of_text(self.place, self.comment, self.text, self.count)
    }

    /// All of the tokens, which need not be cut again where they were kept.
    pub fn cursor_over<'s>(self, kept: &'s [Token<'a>]) -> Cursor<'s, 'a>
        requires stretch { IsStretch self }
        requires tokens { are_tokens (map word_of (tokens_of self)) ≡ true }
        requires kept { length kept.now ≡ self.count → map placed kept.now ≡ tokens_of self }
        ensures { result ≡ map word_of (tokens_of self.entry) }
    {
        if kept.len() == self.count {
            return Cursor::new(kept);
        }
        self.cursor()
    }

    /// The fault of a text whose first flaw is this one.
    pub fn flaw(self, flaw: Flaw) -> ReadFault
        requires stretch { IsStretch self }
        requires later { self.before ≤ flaw.token }
        requires within { flaw.token < self.before + self.count }
        ensures { result ≡ flaw_fault self.entry.before (tokens_of self.entry) flaw }
    {
        let at = flaw.token - self.before as usize;
        let place = token_at(self.place, self.comment, self.text, at);
        flaw.item
            .fault_at(flaw.token as u32, place.line, place.column)
    }

    /// The syntax fault of a text where so many of the tokens are left from the first dead one on; where none is left,
    /// no line tells the place.
    pub fn dead(self, left: usize) -> ReadFault
        requires stretch { IsStretch self }
        requires within { left ≤ self.count }
        ensures { result ≡ syntax_fault self.entry.before (tokens_of self.entry) left }
    {
        let at = self.count - left;
        let token = self.before + at as u32;
        if left == 0 {
            return ReadFault::Syntax {
                token,
                line: 0,
                column: 0,
            };
        }
        let place = token_at(self.place, self.comment, self.text, at);
        ReadFault::Syntax {
            token,
            line: place.line,
            column: place.column,
        }
    }
}
