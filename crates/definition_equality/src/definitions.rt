// Definitions that are one as data.
ghost use Rattle.std.specs.Prelude.{◌≡◌, ◌↔◌, IsTrue};

use heap_formula::{Cases, Def, DefName};

fn is_same_name(a: &DefName, b: &DefName) -> bool
    ensures { IsTrue result ↔ (a.now ≡ b.now) }
{
    a.as_text() == b.as_text()
}

fn are_same_cases(a: &Cases, b: &Cases) -> bool
    ensures { IsTrue result ↔ (a.now ≡ b.now) }
{
    a.heaps() == b.heaps()
}

fn is_same_definition(a: &Def, b: &Def) -> bool
    ensures { IsTrue result ↔ (a.now ≡ b.now) }
{
    a.arity == b.arity && is_same_name(&a.name, &b.name) && are_same_cases(&a.cases, &b.cases)
}

/// Whether two lists of definitions are one: the same names, arities and cases in the same order.
pub fn are_same_definitions(a: &[Def], b: &[Def]) -> bool
    ensures { IsTrue result ↔ (a.now ≡ b.now) }
{
    if a.len() != b.len() {
        return false;
    }
    for (place, definition) in a.iter().enumerate() {
        if !is_same_definition(definition, &b[place]) {
            return false;
        }
    }
    true
}
