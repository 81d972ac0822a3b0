//! The words of a node with names in place of numbers.
ghost use Rattle.std.specs.Prelude.{◌≡◌, IfOk, OnOk, map, option_map, ◌++◌};
ghost use Rattle.cyc_lex.specs.Word.{word};
ghost use Rattle.problem_syntax.specs.NameViews.{name_of};
ghost use Rattle.proof_picture.specs.Words.{at_site, blank_renaming, is_dollar as begins_variable, name_by};
ghost use Rattle.proof_picture.specs.Words.{named_words, number_of as number_in, renamed, scope_of, site_behind};
ghost use Rattle.proof_picture.specs.Words.{variable_words, with_digit as digit_added};

use crate::names::kept::flag;
use cyc_basics::memory::OutOfMemory;
use cyc_lex::{Kind, Token};
use problem_syntax::names::ProblemName;
use std::alloc::Global;
use std::marker::Model;

/// Where a word of a node stands: before or behind `:=` in the braces of a link, or anywhere else.
#[derive(Clone, Copy)]
pub enum Site {
    Elsewhere,
    Key,
    Value,
}

/// The names of a goal, and which of them a node and the companion of its link show.
#[derive(Clone, Copy)]
pub struct Scope<'s, 'a> {
    pub names: &'s [ProblemName<'a>],
    pub own: &'s [bool],
    pub keys: &'s [bool],
}

impl<'s, 'a> Scope<'s, 'a> {
    /// The name of a variable that stands at this site, if one is shown.
    fn name(&self, site: Site, n: usize) -> Option<ProblemName<'a>>
        ensures { option_map name_of result ≡ name_by (scope_of self.now).names (at_site site (scope_of self.now)) n }
    {
        let shown = match site {
            Site::Key => self.keys,
            Site::Elsewhere | Site::Value => self.own,
        };
        if !flag(shown, n) {
            return None;
        }
        match self.names.get(n) {
            Some(name) => Some(*name),
            None => None,
        }
    }
}

/// One more digit of a number; from 100,000 on a number is no variable's, and its digits do not matter.
fn with_digit(number: usize, digit: u8) -> usize
    ensures { result ≡ digit_added number digit }
{
    if number < 100_000 {
        10 * number + usize::from(digit.saturating_sub(b'0'))
    } else {
        number
    }
}

/// The number that the digits write.
fn number_of(text: &str) -> usize
    ensures { result ≡ number_in text.now }
{
    let mut number = 0;
    for digit in text.as_bytes() {
        number = with_digit(number, *digit);
    }
    number
}

/// Whether a variable begins with this word.
fn is_dollar(token: &Token<'_>) -> bool
    ensures { result ≡ begins_variable (word token.now) }
{
    match token.kind {
        Kind::Symbol => token.text == "$",
        _ => false,
    }
}

fn after(site: Site, text: &str) -> Site
    ensures { result ≡ site_behind site text.now }
{
    if text == "{" {
        return Site::Key;
    }
    if text == "}" {
        return Site::Elsewhere;
    }
    match site {
        Site::Elsewhere => Site::Elsewhere,
        Site::Key => { if text == ":=" { Site::Value } else { Site::Key } }
        Site::Value => { if text == "," { Site::Key } else { Site::Value } }
    }
}

fn made_token(kind: Kind, text: &str) -> Token<'_>
    ensures { word result ≡ record { kind = kind; text = text.now } }
{
    Token {
        kind,
        text,
        line: 0,
        column: 0,
    }
}

/// Adds the words of a variable: those of its name, or `$` and its number.
fn add_variable<'a, 'n: 'a>(
    tokens: &mut Vec<Token<'a>>,
    number: Token<'a>,
    name: Option<ProblemName<'n>>,
) -> Result<(), OutOfMemory>
    ensures { OnOk result (map word tokens.new.items
        ≡ map word tokens.old.items ++ variable_words (word number.entry) (option_map name_of name.entry)) }
{
    let Some(name) = name else {
        tokens.push(made_token(Kind::Symbol, "$"))?;
        tokens.push(number)?;
        return Ok(());
    };
    tokens.push(made_token(Kind::Name, name.text))?;
    if name.primed {
        tokens.push(made_token(Kind::Symbol, "'"))?;
    }
    Ok(())
}

/// The words so far, where the next one stands, and whether the last word began a variable.
#[derive(Drop)]
struct Renaming<'a> {
    tokens: Vec<Token<'a>>,
    site: Site,
    begun: bool,
}

impl<'a> Model for Renaming<'a> {
    ghost use Rattle.std.specs.Prelude.{map};
    ghost use Rattle.cyc_lex.specs.Word.{word};
    ghost use Rattle.proof_picture.specs.Words.{Renamed};

    ghost Value = { Renamed };

    ghost view = { λ r. record { words = map word r.tokens.items; site = r.site; begun = r.begun } };
}

impl<'a> Renaming<'a> {
    fn new(alloc: Global) -> Renaming<'a>
        ensures { result ≡ blank_renaming }
    {
        Renaming {
            tokens: Vec::new(alloc),
            site: Site::Elsewhere,
            begun: false,
        }
    }

    /// One more word.
    fn word<'n: 'a>(
        self,
        scope: &Scope<'_, 'n>,
        token: &Token<'a>,
    ) -> Result<Renaming<'a>, OutOfMemory>
        ensures { IfOk result (λ r. r ≡ renamed (scope_of scope.now) self.entry (word token.now)) }
    {
        let Renaming {
            mut tokens,
            site,
            begun,
        } = self;
        if begun {
            let name = scope.name(site, number_of(token.text));
            add_variable(&mut tokens, *token, name)?;
            return Ok(Renaming {
                tokens,
                site,
                begun: false,
            });
        }
        if is_dollar(token) {
            return Ok(Renaming {
                tokens,
                site,
                begun: true,
            });
        }
        tokens.push(*token)?;
        Ok(Renaming {
            tokens,
            site: after(site, token.text),
            begun: false,
        })
    }

    fn finish(self) -> Vec<Token<'a>>
        ensures { map word result.items ≡ self.entry.words }
    {
        let Renaming { tokens, .. } = self;
        tokens
    }
}

/// The words with the names of variables in place of their numbers: of the node's own variables, and of the companion's
/// as keys of the substitution of a link.
pub fn named_tokens<'a, 'n: 'a>(
    alloc: Global,
    scope: &Scope<'_, 'n>,
    tokens: &[Token<'a>],
) -> Result<Vec<Token<'a>>, OutOfMemory>
    ensures { IfOk result (λ v. map word v.items ≡ named_words (scope_of scope.now) (map word tokens.now)) }
{
    let mut renaming = Renaming::new(alloc);
    for token in tokens {
        renaming = renaming.word(scope, token)?;
    }
    Ok(renaming.finish())
}
