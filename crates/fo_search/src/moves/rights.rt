// Right with each choice of terms for the locals of a case, told one by one.
ghost use Rattle.std.specs.Prelude.{◌≡◌, ◌≤◌, List, IfOk, OnErr, length, map};
ghost use Rattle.std.specs.List.{filter};
ghost use Rattle.fo_formula.specs.declared.atoms.FoAtom.{FoAtom as AtomValue};
ghost use Rattle.fo_formula.specs.declared.numbers.Kind.TheVariants.{Locals};
ghost use Rattle.fo_formula.specs.Bounds.{atoms_bound};
ghost use Rattle.fo_formula.specs.Words.{Word};
ghost use Rattle.fo_formula.specs.declared.nodes.FoRule.TheVariants.{Right, Unfold};
ghost use Rattle.derivations.specs.Cursors.{IsNextOf};
ghost use Rattle.fo_search.specs.After.{suits};
ghost use Rattle.fo_search.specs.Subterms.{lists_of};
ghost use Rattle.fo_search.specs.Walks.{IsFirstLeft};
ghost use Rattle.fo_search.specs.Told.{rights_left, rights_in, going};

use crate::moves::trying::is_applicable_within;
use crate::moves::walking::{Search, Walk, begin, pass, seek};
use crate::moves::wanted::{CaseLocals, Wanted};
use cyc_basics::limits::{MOST_LEFT, MOST_RIGHT};
use cyc_basics::memory::OutOfMemory;
use fo_formula::{FoAtom, FoRule, FoSequent, FoTheory, Kind, Term, Terms, bound_of_atoms};
use std::alloc::Global;
use std::collections::VecDeque;

/// A case of an atom on the right, and the choices of terms for its locals that are left.
#[derive(Drop)]
pub struct CaseLeft<'a> {
    pub atom: u32,
    pub case: u32,
    pub arguments: Terms,
    pub body: &'a [FoAtom],
    pub walk: Walk,
}

/// Where rules are tried: a sequent of a theory, its subterms, and the most premises that a rule may leave.
#[derive(Clone, Copy)]
pub struct LeftPlace<'a> {
    pub theory: &'a FoTheory,
    pub sequent: &'a FoSequent,
    pub values: &'a [Term],
    pub most: usize,
}

/// The case with all choices left.
pub fn whole_case<'a>(
    alloc: Global,
    atom: u32,
    case: u32,
    arguments: &Terms,
    body: &'a [FoAtom],
) -> Result<CaseLeft<'a>, OutOfMemory>
    ensures { IfOk result (λ c. (left : List AtomValue) (values : List Word) → rights_left left values c
        ≡ map (Right atom case) (filter (suits left arguments.now body.now)
        (lists_of (atoms_bound Locals body.now) values))) }
{
    let arguments = arguments.clone()?;
    let walk = begin(alloc, bound_of_atoms(Kind::Locals, body) as usize);
    Ok(CaseLeft {
        atom,
        case,
        arguments,
        body,
        walk,
    })
}

/// The first choice of terms that is left for the case; it is left still.
fn seek_terms(
    alloc: Global,
    at: &LeftPlace<'_>,
    case: &mut CaseLeft<'_>,
) -> Result<Option<Terms>, OutOfMemory>
    ensures kept { rights_left at.now.sequent.now.left at.now.values.now case.new
        ≡ rights_left at.now.sequent.now.left at.now.values.now case.old }
    ensures first { IfOk result (IsFirstLeft (suits at.now.sequent.now.left case.new.arguments case.new.body.now)
        at.now.values.now case.new.walk) }
{
    let goal = CaseLocals {
        left: at.sequent.left.as_slice(),
        arguments: &case.arguments,
        case: case.body,
    };
    let search = Search {
        wanted: Wanted::Locals(goal),
        values: at.values,
    };
    seek(alloc, &search, &mut case.walk)
}

/// Tells the next rule of the case that goes.
pub fn next_right(
    alloc: Global,
    at: &LeftPlace<'_>,
    case: &mut CaseLeft<'_>,
) -> Result<Option<FoRule>, OutOfMemory>
    requires left_fits { length at.now.sequent.now.left ≤ MOST_LEFT }
    requires right_fits { length at.now.sequent.now.right ≤ MOST_RIGHT }
    ensures next { IfOk result (IsNextOf
        (going at.now (rights_left at.now.sequent.now.left at.now.values.now case.old))
        (going at.now (rights_left at.now.sequent.now.left at.now.values.now case.new))) }
    ensures kept { OnErr result (going at.now (rights_left at.now.sequent.now.left at.now.values.now case.new)
        ≡ going at.now (rights_left at.now.sequent.now.left at.now.values.now case.old)) }
{
    while let Some(terms) = seek_terms(alloc, at, case)? {
        let rule = FoRule::Right {
            atom: case.atom,
            case: case.case,
            terms,
        };
        let is_applicable = is_applicable_within(alloc, at.theory, at.sequent, &rule, at.most)?;
        pass(&mut case.walk, at.values.len());
        if is_applicable {
            return Ok(Some(rule));
        }
    }
    Ok(None)
}

/// Tells the next rule that goes, of the case at work or of those behind it.
pub fn next_of_cases<'a>(
    alloc: Global,
    at: &LeftPlace<'_>,
    current: &mut Option<CaseLeft<'a>>,
    cases: &mut VecDeque<CaseLeft<'a>>,
) -> Result<Option<FoRule>, OutOfMemory>
    requires left_fits { length at.now.sequent.now.left ≤ MOST_LEFT }
    requires right_fits { length at.now.sequent.now.right ≤ MOST_RIGHT }
    ensures next { IfOk result (IsNextOf
        (going at.now (rights_in at.now.sequent.now.left at.now.values.now current.old cases.old.items))
        (going at.now (rights_in at.now.sequent.now.left at.now.values.now current.new cases.new.items))) }
    ensures kept { OnErr result (going at.now (rights_in at.now.sequent.now.left at.now.values.now current.new cases.new.items)
        ≡ going at.now (rights_in at.now.sequent.now.left at.now.values.now current.old cases.old.items)) }
{
    while let Some(case) = current {
        if let Some(rule) = next_right(alloc, at, case)? {
            return Ok(Some(rule));
        }
        *current = cases.pop_front();
    }
    Ok(None)
}

/// Tells the next Unfold that goes, of these places.
pub fn next_unfold(
    alloc: Global,
    at: &LeftPlace<'_>,
    unfolds: &mut VecDeque<u32>,
) -> Result<Option<FoRule>, OutOfMemory>
    requires left_fits { length at.now.sequent.now.left ≤ MOST_LEFT }
    requires right_fits { length at.now.sequent.now.right ≤ MOST_RIGHT }
    ensures next { IfOk result (IsNextOf (going at.now (map Unfold unfolds.old.items))
        (going at.now (map Unfold unfolds.new.items))) }
    ensures kept { OnErr result (going at.now (map Unfold unfolds.new.items)
        ≡ going at.now (map Unfold unfolds.old.items)) }
{
    while !unfolds.is_empty() {
        let rule = FoRule::Unfold(unfolds[0]);
        let is_applicable = is_applicable_within(alloc, at.theory, at.sequent, &rule, at.most)?;
        let _ = unfolds.pop_front();
        if is_applicable {
            return Ok(Some(rule));
        }
    }
    Ok(None)
}
