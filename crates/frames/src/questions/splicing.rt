// The text of a framed problem: the text of the question, with the frames in place of the question mark.
ghost use Rattle.std.specs.Prelude.{◌<◌, ◌^◌, ◌-◌, length};

use crate::questions::places::{is_joined, last_place};
use crate::questions::writing::{QuestionNames, push_pure_atoms, push_spatial_atoms};
use cyc_basics::memory::OutOfMemory;
use heap_formula::Heap;
use pred_defs::Defs;
use std::alloc::Global;

/// A question in parts: the text up to the disjunct, the disjunct's pure atoms, its spatial atoms, and what stands
/// behind the question mark.
#[derive(Clone, Copy)]
struct Parts<'a> {
    before: &'a [u8],
    pure: &'a [u8],
    spatial: &'a [u8],
    after: &'a [u8],
}

/// The disjunct's pure atoms and its spatial atoms, which a `:` separates.
fn halves(disjunct: &[u8]) -> Option<(&[u8], &[u8])> {
    let colon = last_place(b':', disjunct)?;
    Some((&disjunct[..colon], &disjunct[colon + 1..]))
}

/// The text cut behind the turnstile, at the question, and behind it.
fn cut(input: &[u8], start: usize, end: usize, mark: usize) -> Option<Parts<'_>> {
    if start > end || end > mark || mark >= input.len() {
        return None;
    }
    let (pure, spatial) = halves(&input[start..end])?;
    Some(Parts {
        before: &input[..start],
        pure,
        spatial,
        after: &input[mark + 1..],
    })
}

fn parts_of(input: &[u8]) -> Option<Parts<'_>> {
    let bar = last_place(b'|', input)?;
    let mark = last_place(b'?', input)?;
    let end = if is_joined(input) {
        last_place(b'*', input)?
    } else {
        mark
    };
    cut(input, bar.saturating_add(2), end, mark)
}

/// The pure atoms of a disjunct and of its frame.
fn push_pure_part(
    alloc: Global,
    text: &mut Vec<u8>,
    names: &QuestionNames<'_>,
    parts: &Parts<'_>,
    wanted: &Heap,
    frame: &Heap,
) -> Result<(), OutOfMemory> {
    if frame.pure().is_empty() {
        text.extend_from_slice(parts.pure)?;
        return Ok(());
    }
    if wanted.pure().is_empty() {
        text.extend_from_slice(b" ")?;
    } else {
        text.extend_from_slice(parts.pure)?;
        text.extend_from_slice(b", ")?;
    }
    push_pure_atoms(alloc, text, names, frame.pure())?;
    text.extend_from_slice(b" ")?;
    Ok(())
}

/// The spatial atoms of a disjunct and of its frame.
fn push_spatial_part(
    alloc: Global,
    text: &mut Vec<u8>,
    names: &QuestionNames<'_>,
    defs: &Defs,
    parts: &Parts<'_>,
    wanted: &Heap,
    frame: &Heap,
) -> Result<(), OutOfMemory> {
    if wanted.spatial().is_empty() {
        text.extend_from_slice(b" ")?;
        return push_spatial_atoms(alloc, text, names, defs, frame.spatial());
    }
    text.extend_from_slice(parts.spatial)?;
    if !frame.spatial().is_empty() {
        text.extend_from_slice(b"* ")?;
        push_spatial_atoms(alloc, text, names, defs, frame.spatial())?;
    }
    Ok(())
}

/// The word between two disjuncts, with a space before it.
fn push_or(text: &mut Vec<u8>) -> Result<(), OutOfMemory> {
    if !matches!(text.last(), Some(b' ')) {
        text.extend_from_slice(b" ")?;
    }
    text.extend_from_slice(b"or")?;
    Ok(())
}

/// The text of the question with a disjunct for each frame: what was asked for, and the frame. Where the text is no
/// question, it is as it was.
pub fn framed_text(
    alloc: Global,
    input: &[u8],
    names: &QuestionNames<'_>,
    defs: &Defs,
    wanted: &Heap,
    frames: &[Heap],
) -> Result<Vec<u8>, OutOfMemory> {
    let Some(parts) = parts_of(input) else {
        return Ok(Vec::from_slice(alloc, input)?);
    };
    let mut text = Vec::from_slice(alloc, parts.before)?;
    for (number, frame) in frames.iter().enumerate() {
        if number > 0 {
            push_or(&mut text)?;
        }
        push_pure_part(alloc, &mut text, names, &parts, wanted, frame)?;
        text.extend_from_slice(b":")?;
        push_spatial_part(alloc, &mut text, names, defs, &parts, wanted, frame)?;
    }
    text.extend_from_slice(parts.after)?;
    Ok(text)
}
