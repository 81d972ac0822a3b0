//! Reading the ends of a program.

ghost use Rattle.std.specs.Prelude.{◌≡◌, true, map};
ghost use Rattle.cyc_grammar.specs.Giving.{Gives, with_front};
ghost use Rattle.heap_syntax.specs.LineGrammar.{has_ends as may_end};
ghost use Rattle.heap_syntax.specs.EndGrammar.{end, kept_end, ends, ends_where};
ghost use Rattle.heap_syntax.specs.EndTrees.{end_of};

use crate::ends::tree::EndTree;
use crate::form::AtomForm;
use crate::keep::Keep;
use crate::mark::Mark;
use crate::read_heaps::kept_heaps;
use crate::version::Version;
use cyc_grammar::{Cursor, Refusal};
use std::alloc::Global;

/// Whether files of the version may have ends.
pub fn has_ends(version: Version) -> bool
    ensures { result ≡ may_end version }
{
    match version {
        Version::One | Version::Two => false,
        Version::Three => true,
    }
}

/// Reads an end; so much is kept of its disjuncts and of their lists.
#[tactic(auto, unfolding(crate::specs::EndGrammar::kept_end))]
pub fn kept_end<'a, F: AtomForm<'a>>(
    alloc: Global,
    form: &F,
    keep: Keep,
    cursor: &mut Cursor<'_, 'a>,
) -> Result<EndTree<'a, F::Term>, Refusal>
    ensures { Gives (λ x. (end_of F.seen x, cursor.new)) result
        ((kept_end keep (F.terms form.now) (F.atoms form.now)).read cursor.old) }
{
    cursor.keyword("ends")?;
    let number = cursor.number()?;
    cursor.symbol(":")?;
    let disjuncts = kept_heaps(
        alloc,
        form,
        keep,
        &Mark::Keyword("or"),
        &Mark::Symbol(";"),
        cursor,
    )?;
    Ok(EndTree { number, disjuncts })
}

/// Reads an end.
#[tactic(auto, unfolding(crate::specs::EndGrammar::end, crate::specs::EndGrammar::kept_end, crate::specs::Grammar::heap, crate::specs::Grammar::kept_heap, crate::specs::Grammar::pures, crate::specs::Grammar::pures1, crate::specs::Grammar::kept_pures, crate::specs::Grammar::listed, crate::specs::Grammar::kept_listed, crate::specs::Grammar::spatials, crate::specs::Grammar::spatials1, crate::specs::Grammar::kept_spatials))]
pub fn end<'a, F: AtomForm<'a>>(
    alloc: Global,
    form: &F,
    cursor: &mut Cursor<'_, 'a>,
) -> Result<EndTree<'a, F::Term>, Refusal>
    ensures { Gives (λ x. (end_of F.seen x, cursor.new)) result
        ((end (F.terms form.now) (F.atoms form.now)).read cursor.old) }
{
    kept_end(alloc, form, Keep::All, cursor)
}

/// Reads the ends after some.
fn more_ends<'a, F: AtomForm<'a>>(
    alloc: Global,
    form: &F,
    mut items: Vec<EndTree<'a, F::Term>>,
    cursor: &mut Cursor<'_, 'a>,
) -> Result<Vec<EndTree<'a, F::Term>>, Refusal>
    ensures { Gives (λ x. (map (end_of F.seen) x.items, cursor.new)) result
        (with_front (map (end_of F.seen) items.entry.items)
        ((ends_where true (F.terms form.now) (F.atoms form.now)).read cursor.old)) }
{
    for _ in 0..cursor.left() {
        if !cursor.is_keyword_next("ends") {
            return Ok(items);
        }
        items.push(end(alloc, form, cursor)?)?;
    }
    if cursor.is_keyword_next("ends") {
        return Err(Refusal::Dead(cursor.left()));
    }
    Ok(items)
}

/// Reads the ends of a program of a version, of which there may be none.
#[tactic(auto, unfolding(crate::specs::EndGrammar::ends))]
pub fn ends<'a, F: AtomForm<'a>>(
    alloc: Global,
    form: &F,
    version: Version,
    cursor: &mut Cursor<'_, 'a>,
) -> Result<Vec<EndTree<'a, F::Term>>, Refusal>
    ensures { Gives (λ x. (map (end_of F.seen) x.items, cursor.new)) result
        ((ends version (F.terms form.now) (F.atoms form.now)).read cursor.old) }
{
    if has_ends(version) {
        return more_ends(alloc, form, Vec::new(alloc), cursor);
    }
    Ok(Vec::new(alloc))
}
