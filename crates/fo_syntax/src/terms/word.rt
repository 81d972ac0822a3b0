//! The words that are no names, and the names.

ghost use Rattle.std.specs.Prelude.{◌≡◌};
ghost use Rattle.cyc_grammar.specs.Syntax.{one, begins, is_one};
ghost use Rattle.cyc_grammar.specs.Giving.{Gives, texts};
ghost use Rattle.fo_syntax.specs.Words.{reserved, free_name};

use cyc_grammar::{Cursor, Refusal};

static RESERVED: [&str; 20] = [
    "con", "false", "true", "emp", "nil", "pred", "line", "node", "by", "to", "end", "from",
    "given", "or", "goal", "if", "goto", "new", "free", "stop",
];

/// The words that are no names in texts of first-order logic.
fn reserved_words() -> &'static [&'static str]
    ensures { texts result.now ≡ reserved }
{
    &RESERVED
}

/// Whether the first token is a name that is not reserved in texts of first-order logic.
pub fn is_free_name_next(cursor: &Cursor<'_, '_>) -> bool
    ensures { result ≡ begins (is_one free_name) cursor.now }
{
    cursor.is_name_next(reserved_words())
}

/// Takes a name that is not reserved in texts of first-order logic.
pub fn free_name<'a>(cursor: &mut Cursor<'_, 'a>) -> Result<&'a str, Refusal>
    ensures { Gives (λ x. (x.now, cursor.new)) result ((one free_name).read cursor.old) }
{
    cursor.name(reserved_words())
}
