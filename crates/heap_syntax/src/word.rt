//! The words that are no names, and the names.

ghost use Rattle.std.specs.Prelude.{◌≡◌};
ghost use Rattle.cyc_grammar.specs.Syntax.{one};
ghost use Rattle.cyc_grammar.specs.Giving.{Gives, texts};
ghost use Rattle.heap_syntax.specs.Words.{reserved, free_name};

use cyc_grammar::{Cursor, Refusal};

static RESERVED: [&str; 18] = [
    "true", "emp", "nil", "pred", "line", "node", "by", "to", "end", "from", "given", "or", "goal",
    "if", "goto", "new", "free", "stop",
];

/// The words that are no names.
pub fn reserved_words() -> &'static [&'static str]
    ensures { texts result.now ≡ reserved }
{
    &RESERVED
}

/// Takes a name that is not reserved.
pub fn free_name<'a>(cursor: &mut Cursor<'_, 'a>) -> Result<&'a str, Refusal>
    ensures { Gives (λ x. (x.now, cursor.new)) result ((one free_name).read cursor.old) }
{
    cursor.name(reserved_words())
}
