//! Counting the arguments that stand in brackets.

ghost use Rattle.std.specs.Prelude.{◌≡◌, ◌<◌, ◌^◌, ◌+◌, map, reverse, OnOk, IfOk};
ghost use Rattle.fo_syntax.specs.Trees.{sign_of};
ghost use Rattle.fo_syntax.specs.Seen.{mark_seen};
ghost use Rattle.fo_syntax.specs.Brackets.{one_more, innermost, outer, count, counted};
ghost use Rattle.fo_syntax.specs.Grammar.{applied};

use crate::terms::bracket::Mark;
use crate::terms::stack::Stack;
use crate::terms::tree::SignTree;
use std::alloc::{AllocError, Global};

/// Adds one to the number that came last, if there is one.
fn one_more(numbers: &mut Stack) -> Result<(), AllocError>
    requires { innermost numbers.old + 1 < 2 ^ 64 }
    ensures { OnOk result (numbers.new ≡ one_more numbers.old) }
{
    if let Some(number) = numbers.pop() {
        numbers.push(number + 1)?;
    }
    Ok(())
}

/// Puts a mark before the signs after it, the last of which comes first.
fn count<'a>(
    mark: Mark<'a>,
    signs: &mut Vec<SignTree<'a>>,
    counts: &mut Stack,
) -> Result<(), AllocError>
    requires inner { innermost counts.old + 1 < 2 ^ 64 }
    requires next { innermost (outer counts.old) + 1 < 2 ^ 64 }
    ensures { OnOk result ((reverse (map sign_of signs.new.items), counts.new)
        ≡ count (mark_seen mark.entry) (reverse (map sign_of signs.old.items), counts.old)) }
{
    match mark {
        Mark::Leaf(sign) => {
            signs.push(sign)?;
            one_more(counts)
        }
        Mark::Opening(name) => {
            let arguments = counts.pop().unwrap_or(0);
            signs.push(SignTree::Apply(name, arguments))?;
            one_more(counts)
        }
        Mark::Closing => counts.push(0),
    }
}

/// The signs of an application, from its name and the marks after its opening bracket.
pub fn applied<'a>(
    alloc: Global,
    name: &'a str,
    marks: &[Mark<'a>],
) -> Result<Vec<SignTree<'a>>, AllocError>
    ensures { IfOk result (λ x. map sign_of x.items ≡ applied name.now (counted (map mark_seen marks.now))) }
{
    let mut signs = Vec::new(alloc);
    let mut counts = Stack::new(alloc);
    for place in (0..marks.len()).rev() {
        let mark = marks[place];
        count(mark, &mut signs, &mut counts)?;
    }
    let arguments = counts.pop().unwrap_or(0);
    signs.push(SignTree::Apply(name, arguments))?;
    signs.reverse();
    Ok(signs)
}
