// The names of predicates.
ghost use Rattle.std.specs.Prelude.{◌≡◌, ◌&&◌};
ghost use Rattle.std.specs.Str.{bytes_eq, chars};
ghost use Rattle.std.specs.List.{list_all, list_any};
ghost use Rattle.unicode_ident.specs.Ident.{is_xid_continue};
ghost use Rattle.cyc_lex.specs.Word.{is_identifier, is_name_text as is_name};
ghost use Rattle.cyc_grammar.specs.Classes.{is_free_name as is_free};
ghost use Rattle.heap_syntax.specs.Words.{reserved};
ghost use Rattle.pred_defs.specs.Faults.{has_name as list_has_name};

use cyc_basics::limits::LONGEST_NAME;
use cyc_lex::{Run, first, goes_on, starts_name};
use heap_formula::Def;
use heap_syntax::reserved_words;

/// Whether each character goes on a name.
fn goes_on_name(text: &str) -> bool
    ensures { result ≡ list_all is_xid_continue (chars text.now) }
{
    let mut rest = text;
    while let Some((c, behind)) = first(rest) {
        if !goes_on(Run::Name, c) {
            return false;
        }
        rest = behind;
    }
    true
}

fn is_identifier(text: &str) -> bool
    ensures { result ≡ is_identifier (chars text.now) }
{
    match first(text) {
        None => false,
        Some((c, rest)) => starts_name(c) && goes_on_name(rest),
    }
}

/// Whether the text is that of a name.
#[tactic(auto, unfolding(cyc_lex::specs::Word::is_name_text))]
fn is_name_text(text: &str) -> bool
    ensures { result ≡ is_name text.now }
{
    text.len() <= LONGEST_NAME && is_identifier(text)
}

fn is_among(words: &[&str], text: &str) -> bool
    ensures { result ≡ list_any (λ word. bytes_eq text.now word.now) words.now }
{
    words.iter().any(|word| text == *word)
}

/// Whether the text is that of a name which is no word of the formats.
pub fn is_free_name(text: &str) -> bool
    ensures { result ≡ is_free reserved text.now }
{
    is_name_text(text) && !is_among(reserved_words(), text)
}

/// Whether a definition has the name.
pub fn has_name(defs: &[Def], name: &str) -> bool
    ensures { result ≡ list_has_name defs.now name.now }
{
    for known in defs {
        if known.name.as_text() == name {
            return true;
        }
    }
    false
}
