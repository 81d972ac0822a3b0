//! What is left of the first tokens of a text, which are cut off one by one.

ghost use Rattle.std.specs.Prelude.{◌≡◌, ◌≤◌, ◌<◌, true, [], ◌∷◌, length, drop, MatchOption, IfSome};
ghost use Rattle.cyc_lex.specs.Word.{word, is_name, is_name_text};
ghost use Rattle.cyc_lex.specs.Lexing.{HasRoom};
ghost use Rattle.cyc_lex.specs.Cutting.{cut_text};
ghost use Rattle.cyc_grammar.specs.Classes.{are_tokens};
ghost use Rattle.cyc_grammar.specs.Texts.{text_words};

use cyc_lex::{Place, Token, cut_token, skip_comment};
use std::marker::Model;

/// What is left of the first tokens of a text: their number, the first, the place after it, and the text there.
#[derive(Drop)]
pub struct TextTokens<'a> {
    left: usize,
    next: Token<'a>,
    place: Place,
    rest: &'a str,
}

impl<'a> Model for TextTokens<'a> {
    ghost use Rattle.std.specs.Prelude.{List};
    ghost use Rattle.cyc_lex.specs.Word.{Word};
    ghost use Rattle.cyc_grammar.specs.Texts.{words_left, AreLeft};

    ghost Value = { List Word };

    ghost view = { λ t. words_left t.left t.next t.place t.rest.now };

    ghost invariant = { λ t. AreLeft t.left t.next t.place t.rest.now };
}

impl<'a> TextTokens<'a> {
    /// So many of the first tokens of a text that stands at a place, where a comment goes on or none does.
    pub fn new(place: Place, comment: bool, text: &'a str, count: usize) -> TextTokens<'a>
        requires room { HasRoom place (length text.now) }
        requires within { count ≤ length (cut_text place comment text.now) }
        requires tokens { are_tokens (text_words place comment text.now count) ≡ true }
        ensures { result ≡ text_words place comment text.now count }
    {
        let (rest, behind) = skip_comment(place, comment, text);
        let cut = cut_token(behind, rest);
        TextTokens {
            left: count,
            next: cut.token,
            place: cut.place,
            rest: cut.rest,
        }
    }

    /// How many tokens are left.
    pub fn left(&self) -> usize
        ensures { result ≡ length self.now }
    {
        self.left
    }

    /// The first token that is left.
    pub fn first(&self) -> Option<Token<'a>>
        ensures first { MatchOption result (self.now ≡ []) (λ t. self.now ≡ word t ∷ drop 1 self.now) }
        ensures named { IfSome result (λ t. is_name t.kind ≡ true → is_name_text t.text.now ≡ true) }
    {
        if self.left == 0 {
            return None;
        }
        Some(self.next)
    }

    /// Takes the first token.
    pub fn pass(&mut self)
        requires { 0 < length self.old }
        ensures { self.new ≡ drop 1 self.old }
    {
        self.left -= 1;
        if self.left > 0 {
            let cut = cut_token(self.place, self.rest);
            self.next = cut.token;
            self.place = cut.place;
            self.rest = cut.rest;
        }
    }
}
