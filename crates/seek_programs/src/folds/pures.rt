// Pure atoms that a companion asks for.
use heap_formula::{Heap, Pure};
use rule_table::follows;
use seek_engine::Matcher;

/// The first pure atom of the companion, of terms that stay, that does not follow as it is written.
pub fn missing_pure(matcher: &Matcher<'_>, state: &Heap, companion: &Heap) -> Option<Pure> {
    for atom in companion.pure() {
        let (Pure::Eq(t, u) | Pure::Neq(t, u)) = *atom;
        if matcher.is_fixed(t) && matcher.is_fixed(u) && !follows(state.pure(), *atom) {
            return Some(*atom);
        }
    }
    None
}
