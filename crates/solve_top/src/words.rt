// What the words ask for.
ghost use Rattle.std.specs.Prelude.{◌≡◌, map, string_bytes};
ghost use Rattle.solve_top.specs.Words.{digit_of, effort_of as effort_by};

use solver::DEFAULT_EFFORT;

fn digit(text: &str) -> Option<u32>
    ensures { result ≡ digit_of text.now }
{
    match text.as_bytes() {
        [digit] => {
            if *digit >= b'1' && *digit <= b'9' {
                Some(u32::from(*digit - b'0'))
            } else {
                None
            }
        }
        _ => None,
    }
}

/// The effort that the words ask for, if they have a meaning.
pub fn effort_of(words: &[String]) -> Option<u32>
    ensures { result ≡ effort_by (map string_bytes words.now) }
{
    match words {
        [] => Some(DEFAULT_EFFORT),
        [word, number] => {
            if word.as_str() == "--effort" {
                digit(number.as_str())
            } else {
                None
            }
        }
        _ => None,
    }
}
