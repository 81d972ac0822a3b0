//! What is left of a list of tokens.

ghost use Rattle.std.specs.Prelude.{◌≡◌, true, [], ◌∷◌, ◌<◌, length, drop, MatchOption, IfSome};
ghost use Rattle.cyc_lex.specs.Word.{word, is_name, is_name_text};
ghost use Rattle.cyc_grammar.specs.Classes.{are_tokens};
ghost use Rattle.cyc_grammar.specs.Giving.{words};

use cyc_lex::Token;
use std::marker::Model;

/// What is left of a list of tokens.
#[derive(Drop)]
pub struct Listed<'s, 'a> {
    tokens: &'s [Token<'a>],
    at: usize,
}

impl<'s, 'a> Model for Listed<'s, 'a> {
    ghost use Rattle.std.specs.Prelude.{List, drop, ◌≡◌, ◌≤◌, true, length};
    ghost use Rattle.cyc_lex.specs.Word.{Word};
    ghost use Rattle.cyc_grammar.specs.Giving.{words};
    ghost use Rattle.cyc_grammar.specs.Classes.{are_tokens};

    ghost Value = { List Word };

    ghost view = { λ c. drop c.at (words c.tokens.now) };

    ghost invariant = { λ c. (c.at ≤ length c.tokens.now) × (are_tokens (words c.tokens.now) ≡ true) };
}

impl<'s, 'a> Listed<'s, 'a> {
    /// All of the tokens; these are what a text has.
    pub fn new(tokens: &'s [Token<'a>]) -> Listed<'s, 'a>
        requires { are_tokens (words tokens.now) ≡ true }
        ensures { result ≡ words tokens.now }
    {
        Listed { tokens, at: 0 }
    }

    /// How many tokens are left.
    pub fn left(&self) -> usize
        ensures { result ≡ length self.now }
    {
        self.tokens.len() - self.at
    }

    /// The first token that is left.
    pub fn first(&self) -> Option<Token<'a>>
        ensures first { MatchOption result (self.now ≡ []) (λ t. self.now ≡ word t ∷ drop 1 self.now) }
        ensures named { IfSome result (λ t. is_name t.kind ≡ true → is_name_text t.text.now ≡ true) }
    {
        match &self.tokens[self.at..] {
            [first, ..] => Some(*first),
            [] => None,
        }
    }

    /// Takes the first token.
    pub fn pass(&mut self)
        requires { 0 < length self.old }
        ensures { self.new ≡ drop 1 self.old }
    {
        self.at += 1;
    }
}
