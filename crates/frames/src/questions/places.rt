// The problem that a question speaks of.
ghost use Rattle.std.specs.Prelude.{◌≡◌, ◌<◌, ◌≤◌, ◌+◌, false, length, IfOk, IfSome, None};
ghost use Rattle.frames.specs.Questions.{comment_after, last_after, last_place as place_of_last};
ghost use Rattle.frames.specs.Questions.{with_last as of_last};
ghost use Rattle.frames.specs.Questions.{is_joined as are_joined, plain_text as plain};

use cyc_basics::memory::OutOfMemory;
use std::alloc::Global;

/// Whether the text behind a byte is in a comment.
fn is_comment_after(comment: bool, byte: u8) -> bool
    ensures { result ≡ comment_after comment byte }
{
    if comment { byte != b'\n' } else { byte == b'#' }
}

/// The place of the last byte of a kind so far.
fn last_so_far(
    kind: u8,
    comment: bool,
    place: usize,
    last: Option<usize>,
    byte: u8,
) -> Option<usize>
    ensures { result ≡ last_after kind comment place last byte }
{
    if !comment && byte == kind {
        Some(place)
    } else {
        last
    }
}

/// The place of the last byte of a kind that stands in no comment.
pub fn last_place(kind: u8, text: &[u8]) -> Option<usize>
    ensures value { result ≡ place_of_last kind false 0 None text.now }
    ensures within { IfSome result (λ place. place < length text.now) }
{
    let mut comment = false;
    let mut last = None;
    for (place, byte) in text.iter().enumerate() {
        last = last_so_far(kind, comment, place, last, *byte);
        comment = is_comment_after(comment, *byte);
    }
    last
}

/// The text with other bytes in the place of the last one of a kind.
fn with_last(alloc: Global, kind: u8, others: &[u8], text: &[u8]) -> Result<Vec<u8>, OutOfMemory>
    ensures value { IfOk result (λ bytes. bytes.items ≡ of_last kind others.now text.now) }
    ensures size { IfOk result (λ bytes. length bytes.items ≤ length text.now + length others.now) }
{
    match last_place(kind, text) {
        None => Ok(Vec::from_slice(alloc, text)?),
        Some(place) => {
            let mut bytes = Vec::from_slice(alloc, &text[..place])?;
            bytes.extend_from_slice(others)?;
            bytes.extend_from_slice(&text[place + 1..])?;
            Ok(bytes)
        }
    }
}

/// Whether the question mark stands behind a star.
pub fn is_joined(text: &[u8]) -> bool
    ensures { result ≡ are_joined text.now }
{
    match (last_place(b'*', text), last_place(b':', text)) {
        (Some(star), Some(colon)) => colon < star,
        _ => false,
    }
}

/// The text without the question, which spells the problem that the question speaks of: spaces stand in the place of
/// `*` and `?`, so that every place stays; after `:` the empty heap stands in the place of `?`.
#[tactic(auto, unfolding(crate::specs::Questions::plain_text))]
pub fn plain_text(alloc: Global, input: &[u8]) -> Result<Vec<u8>, OutOfMemory>
    ensures value { IfOk result (λ bytes. bytes.items ≡ plain input.now) }
    ensures size { IfOk result (λ bytes. length bytes.items ≤ length input.now + 3) }
{
    if is_joined(input) {
        let starless = with_last(alloc, b'*', b" ", input)?;
        with_last(alloc, b'?', b" ", &starless)
    } else {
        with_last(alloc, b'?', b"emp", input)
    }
}
