//! Where the signs of a term stand among its tokens.

ghost use Rattle.std.specs.Prelude.{◌≡◌, ◌<◌, ◌^◌, ◌+◌, ◌++◌, ◌∷◌, [], map, OnOk, IfOk};
ghost use Rattle.fo_syntax.specs.Trees.{sign_of};
ghost use Rattle.fo_syntax.specs.Seen.{mark_seen};
ghost use Rattle.fo_syntax.specs.Places.{commas, tokens_of_mark, marks_end, sign_at, marks_at, places_of, tokens_in};
ghost use Rattle.fo_syntax.specs.declared.terms.bracket.Awaited.TheVariants.{First};

use crate::terms::bracket::{Awaited, Mark};
use crate::terms::bracketing::brackets;
use crate::terms::tree::SignTree;
use std::alloc::{AllocError, Global};

fn commas(awaited: Awaited, mark: Mark<'_>) -> usize
    ensures { result ≡ commas awaited (mark_seen mark.entry) }
{
    match (awaited, mark) {
        (_, Mark::Closing) | (Awaited::First(_), _) => 0,
        _ => 1,
    }
}

fn tokens_of_mark(mark: Mark<'_>) -> usize
    ensures { result ≡ tokens_of_mark (mark_seen mark.entry) }
{
    match mark {
        Mark::Closing => 1,
        _ => 2,
    }
}

/// Puts the place of a mark that is a sign after the others; the mark, with a comma before it, begins at token `at`.
fn put_place(
    awaited: Awaited,
    mark: Mark<'_>,
    at: usize,
    places: &mut Vec<usize>,
) -> Result<(), AllocError>
    requires { at + 1 < 2 ^ 64 }
    ensures { OnOk result (places.new.items ≡ places.old.items ++ sign_at at awaited (mark_seen mark.entry)) }
{
    match mark {
        Mark::Closing => Ok(()),
        _ => {
            places.push(at + commas(awaited, mark))?;
            Ok(())
        }
    }
}

/// The places of the signs among marks, and last the token after the marks, which begin at token 2 of a term.
fn places_of_marks(alloc: Global, marks: &[Mark<'_>]) -> Result<Vec<usize>, AllocError>
    requires { marks_end 2 (First 0) (map mark_seen marks.now) < 2 ^ 64 }
    ensures { IfOk result (λ x. x.items ≡ 0 ∷ marks_at 2 (First 0) (map mark_seen marks.now)
        ++ marks_end 2 (First 0) (map mark_seen marks.now) ∷ []) }
{
    let mut places = Vec::new(alloc);
    places.push(0)?;
    let mut at: usize = 2;
    let mut awaited = Awaited::First(0);
    for mark in marks {
        put_place(awaited, *mark, at, &mut places)?;
        at = at + commas(awaited, *mark) + tokens_of_mark(*mark);
        awaited = awaited.behind(*mark);
    }
    places.push(at)?;
    Ok(places)
}

/// The first token of each sign of a term, and last the number of the term's tokens; its first token counts as 0.
pub fn places_of(alloc: Global, signs: &[SignTree<'_>]) -> Result<Vec<usize>, AllocError>
    requires { tokens_in (map sign_of signs.now) < 2 ^ 64 }
    ensures { IfOk result (λ x. x.items ≡ places_of (map sign_of signs.now)) }
{
    let mut places = Vec::new(alloc);
    match signs {
        [SignTree::Apply(_, arguments), others @ ..] => {
            return places_of_marks(alloc, &brackets(alloc, *arguments, others)?);
        }
        [] => places.push(0)?,
        _ => {
            places.push(0)?;
            places.push(2)?;
        }
    }
    Ok(places)
}
