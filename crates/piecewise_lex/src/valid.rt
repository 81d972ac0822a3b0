//! The characters at the front of bytes, which may end within a character.

ghost use Rattle.piecewise_lex.specs.Valid.{IsValid};

/// The text at the front of bytes, up to the first byte that begins no whole character, and the bytes from there on.
/// They are
/// `cut` where more bytes may make a character of these, or there are none.
#[derive(Clone, Copy)]
pub struct Valid<'a> {
    pub text: &'a str,
    pub tail: &'a [u8],
    pub cut: bool,
}

/// Parts bytes into text and what comes after it.
pub fn valid_front(bytes: &[u8]) -> Valid<'_>
    ensures { IsValid bytes.now result }
{
    match std::str::from_utf8(bytes) {
        Ok(text) => Valid {
            text,
            tail: &[],
            cut: true,
        },
        Err(e) => {
            let (front, tail) = bytes.split_at(e.valid_up_to());
            match std::str::from_utf8(front) {
                Ok(text) => Valid {
                    text,
                    tail,
                    cut: e.error_len().is_none(),
                },
                Err(_) => unreachable!(),
            }
        }
    }
}
