// A walk over the ends of a program in the order of their tokens, up to the first flaw.
ghost use Rattle.std.specs.Prelude.{◌≡◌, ◌+◌, ◌<◌, ◌^◌, map};
ghost use Rattle.heap_reader.specs.Trees.{end_of};
ghost use Rattle.heap_reader.specs.Spans.{total};
ghost use Rattle.heap_reader.specs.Flaws.{IsName, IsWalk};
ghost use Rattle.heap_reader.specs.EndSpans.{end_span};
ghost use Rattle.heap_reader.specs.EndFlaws.{stops_at as line_stops, end_head_flaw, end_flaw, ends_flaw};

use crate::{Flaw, Heads, TermReader, ill, walk_heaps};
use cyc_basics::limits::Limits;
use cyc_lex::{IllFault, What};
use heap_syntax::ends::EndTree;
use heap_syntax::lines::{CommandTree, LineTree};

/// Whether the line with this number, counted from 1, is `stop`.
fn stops_at<V: Copy + Drop>(lines: &[LineTree<V>], number: u32) -> bool
    ensures { result ≡ line_stops lines.now number }
{
    if number == 0 || number as usize > lines.len() {
        return false;
    }
    matches!(lines[number as usize - 1].command, CommandTree::Stop)
}

/// The number of an end, where the end before has this number, which is 0 where none stands before.
fn end_head<V: Copy + Drop>(
    lines: &[LineTree<V>],
    before: u32,
    at: usize,
    number: u32,
) -> Result<(), Flaw>
    requires { at + 1 < 2 ^ 64 }
    ensures { IsName result (end_head_flaw (line_stops lines.now) before at number) }
{
    if !stops_at(lines, number) {
        return Err(ill(IllFault::NoLine, at + 1));
    }
    if number <= before {
        return Err(ill(IllFault::Numbering, at + 1));
    }
    Ok(())
}

fn end<V: Copy + Drop, F: TermReader>(
    heads: &Heads<'_>,
    form: &F,
    most: Limits,
    lines: &[LineTree<V>],
    before: u32,
    at: usize,
    tree: &EndTree<'_, F::Term>,
) -> Result<usize, Flaw>
    requires { at + end_span F.span (end_of tree.now) < 2 ^ 64 }
    ensures { IsWalk result
        (end_flaw (F.flaw form.now) F.span most heads.now (line_stops lines.now) before at (end_of tree.now))
        (at + end_span F.span (end_of tree.now)) }
{
    end_head(lines, before, at, tree.number)?;
    walk_heaps(heads, form, most, What::Disjuncts, at + 3, &tree.disjuncts)
}

/// Goes over the ends of a program with these lines, the first of which begins at a token, and gives the token after
/// them. Each is that of a line that is `stop`, in the order of the lines; its predicates are compared with the heads,
/// and `most` says how many atoms a heap may have, and arguments an atom.
pub fn walk_ends<V: Copy + Drop, F: TermReader>(
    heads: &Heads<'_>,
    form: &F,
    most: Limits,
    lines: &[LineTree<V>],
    at: usize,
    trees: &[EndTree<'_, F::Term>],
) -> Result<usize, Flaw>
    requires { at + total (end_span F.span) (map end_of trees.now) < 2 ^ 64 }
    ensures { IsWalk result
        (ends_flaw (F.flaw form.now) F.span most heads.now (line_stops lines.now) 0 at (map end_of trees.now))
        (at + total (end_span F.span) (map end_of trees.now)) }
{
    let mut before = 0;
    let mut next = at;
    for tree in trees {
        next = end(heads, form, most, lines, before, next, tree)?;
        before = tree.number;
    }
    Ok(next)
}
