// Whether a choice of terms is right, and whether some choice that begins with terms may be.
ghost use Rattle.std.specs.Prelude.{◌≡◌, ◌&&◌, IfOk};
ghost use Rattle.std.specs.List.{list_all};
ghost use Rattle.fo_search.specs.Choosing.{may_stand as atom_may_stand, may_link as values_may, may_suit as locals_may};
ghost use Rattle.fo_search.specs.Choosing.{may_do as wanted_may, does as wanted_does, IsWithin};
ghost use Rattle.fo_search.specs.After.{suits as suits_left};

use crate::moves::linking::{is_fit, link_by, paired};
use crate::moves::settling::{all_hold, may_all_hold, may_all_stand};
use crate::moves::wanted::{CaseLocals, LinkValues, Wanted};
use cyc_basics::memory::OutOfMemory;
use fo_formula::{Term, Terms};
use fo_rules::parts::Change;
use std::alloc::Global;

fn copy_of(alloc: Global, terms: &[Term]) -> Result<Terms, OutOfMemory>
    ensures { IfOk result (λ ts. ts ≡ terms.now) }
{
    let mut all = Vec::new(alloc);
    for term in terms {
        all.push(term.clone()?)?;
    }
    Ok(Terms::from_vec(all))
}

/// Whether each atom of the companion that is settled stands, after the change, on its side of the bud.
fn may_lead(alloc: Global, goal: &LinkValues<'_>, change: &Change) -> Result<bool, OutOfMemory>
    requires { IsWithin (Wanted.Values goal.now) }
    ensures { IfOk result (λ b. b
        ≡ (list_all (atom_may_stand change.now goal.now.bud.now.left) goal.now.companion.now.left
        && list_all (atom_may_stand change.now goal.now.bud.now.right) goal.now.companion.now.right)) }
{
    let bud = goal.bud;
    let companion = goal.companion;
    if !may_all_stand(
        alloc,
        change,
        bud.left.as_slice(),
        companion.left.as_slice(),
    )? {
        return Ok(false);
    }
    may_all_stand(
        alloc,
        change,
        bud.right.as_slice(),
        companion.right.as_slice(),
    )
}

/// Whether some values that begin with these may give a link.
fn may_link(alloc: Global, goal: &LinkValues<'_>, made: &[Term]) -> Result<bool, OutOfMemory>
    requires { IsWithin (Wanted.Values goal.now) }
    ensures { IfOk result (λ b. b ≡ values_may goal.now made.now) }
{
    let change = Change::Substitution(paired(alloc, goal.sources, made)?);
    may_lead(alloc, goal, &change)
}

fn instance(alloc: Global, goal: &CaseLocals<'_>, made: &[Term]) -> Result<Change, OutOfMemory>
    ensures { IfOk result (λ c. c ≡ Change.Instance goal.now.arguments.now made.now) }
{
    let arguments = goal.arguments.clone()?;
    let locals = copy_of(alloc, made)?;
    Ok(Change::Instance { arguments, locals })
}

/// Whether some terms that begin with these may suit the case.
fn may_suit(alloc: Global, goal: &CaseLocals<'_>, made: &[Term]) -> Result<bool, OutOfMemory>
    ensures { IfOk result (λ b. b ≡ locals_may goal.now made.now) }
{
    let change = instance(alloc, goal, made)?;
    may_all_hold(alloc, &change, goal.left, goal.case)
}

/// Whether some choice that begins with these terms may be right.
pub fn may_do(alloc: Global, wanted: &Wanted<'_>, made: &[Term]) -> Result<bool, OutOfMemory>
    requires { IsWithin wanted.now }
    ensures { IfOk result (λ b. b ≡ wanted_may wanted.now made.now) }
{
    match wanted {
        Wanted::Values(goal) => may_link(alloc, goal, made),
        Wanted::Locals(goal) => may_suit(alloc, goal, made),
    }
}

fn links(alloc: Global, goal: &LinkValues<'_>, terms: &[Term]) -> Result<bool, OutOfMemory>
    requires { IsWithin (Wanted.Values goal.now) }
    ensures { IfOk result (λ b. b ≡ wanted_does (Wanted.Values goal.now) terms.now) }
{
    let link = link_by(alloc, goal, terms)?;
    is_fit(alloc, goal.bud, goal.companion, &link)
}

fn suits(alloc: Global, goal: &CaseLocals<'_>, terms: &[Term]) -> Result<bool, OutOfMemory>
    ensures { IfOk result (λ b. b ≡ suits_left goal.now.left.now goal.now.arguments.now goal.now.case.now terms.now) }
{
    let change = instance(alloc, goal, terms)?;
    all_hold(alloc, &change, goal.left, goal.case)
}

/// Whether the choice is right.
pub fn does(alloc: Global, wanted: &Wanted<'_>, terms: &[Term]) -> Result<bool, OutOfMemory>
    requires { IsWithin wanted.now }
    ensures { IfOk result (λ b. b ≡ wanted_does wanted.now terms.now) }
{
    match wanted {
        Wanted::Values(goal) => links(alloc, goal, terms),
        Wanted::Locals(goal) => suits(alloc, goal, terms),
    }
}
