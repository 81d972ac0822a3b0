//! What the words ask for.
ghost use Rattle.std.specs.Prelude.{◌≡◌, map, string_bytes};
ghost use Rattle.draw_top.specs.Words.{view_of as view_by};

/// What a picture shows: each node in a box of its own, or chains, closed subtrees and lemmas as one.
#[derive(Clone, Copy)]
pub enum View {
    Whole,
    Folded,
}

/// The view that the words ask for, if they have a meaning.
pub fn view_of(words: &[String]) -> Option<View>
    ensures { result ≡ view_by (map string_bytes words.now) }
{
    match words {
        [] => Some(View::Whole),
        [word] => {
            if word.as_str() == "--fold" {
                Some(View::Folded)
            } else {
                None
            }
        }
        _ => None,
    }
}
