//! Where the brackets of a term in prefix notation close.

ghost use Rattle.std.specs.Prelude.{◌≡◌, ◌++◌, ◌∷◌, [], map, OnOk, IfOk};
ghost use Rattle.fo_syntax.specs.Trees.{sign_of};
ghost use Rattle.fo_syntax.specs.Seen.{mark_seen};
ghost use Rattle.fo_syntax.specs.Brackets.{mark_of, opened, closings, behind_next, brackets};

use crate::terms::bracket::Mark;
use crate::terms::stack::Stack;
use crate::terms::tree::SignTree;
use std::alloc::{AllocError, Global};

/// Closes the brackets that wait for no more argument, and counts one argument less for the next.
fn close(marks: &mut Vec<Mark<'_>>, waits: &mut Stack) -> Result<(), AllocError>
    ensures marks { OnOk result (map mark_seen marks.new.items ≡ map mark_seen marks.old.items ++ closings waits.old) }
    ensures waits { OnOk result (waits.new ≡ behind_next waits.old) }
{
    for _ in 0..waits.len() {
        match waits.pop() {
            None => return Ok(()),
            Some(0) => marks.push(Mark::Closing)?,
            Some(number) => return waits.push(number - 1),
        }
    }
    Ok(())
}

/// Puts a sign after the marks, and waits for its arguments.
fn put<'a>(
    sign: SignTree<'a>,
    marks: &mut Vec<Mark<'a>>,
    waits: &mut Stack,
) -> Result<(), AllocError>
    ensures marks { OnOk result (map mark_seen marks.new.items
        ≡ map mark_seen marks.old.items ++ mark_of (sign_of sign.entry) ∷ []) }
    ensures waits { OnOk result (waits.new ≡ opened (sign_of sign.entry) waits.old) }
{
    match sign {
        SignTree::Apply(name, arguments) => {
            marks.push(Mark::Opening(name))?;
            waits.push(arguments)
        }
        _ => {
            marks.push(Mark::Leaf(sign))?;
            Ok(())
        }
    }
}

/// The marks of terms that stand in a bracket which waits for so many of them, the closing bracket too.
pub fn brackets<'a>(
    alloc: Global,
    arguments: usize,
    signs: &[SignTree<'a>],
) -> Result<Vec<Mark<'a>>, AllocError>
    ensures { IfOk result (λ x. map mark_seen x.items ≡ brackets (arguments ∷ []) (map sign_of signs.now)) }
{
    let mut marks = Vec::new(alloc);
    let mut waits = Stack::new(alloc);
    waits.push(arguments)?;
    for sign in signs {
        close(&mut marks, &mut waits)?;
        put(*sign, &mut marks, &mut waits)?;
    }
    close(&mut marks, &mut waits)?;
    Ok(marks)
}
