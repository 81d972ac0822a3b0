// The goal of a problem.
ghost use Rattle.std.specs.Prelude.{◌≡◌, [], ◌∷◌, map, IfOk};
ghost use Rattle.cyc_basics.specs.Limits.{AreLimits};
ghost use Rattle.heap_formula.specs.declared.terms.Term.TheVariants.{Univ as constant_term};
ghost use Rattle.script_formulas.specs.Translating.{AreHeapsOf, AreDisjuncts, impossible};
ghost use Rattle.script_formulas.specs.Defining.{call_of, IsCallOf, IsAntecedent};

use crate::cases::{Case, Refused, Unsupported};
use crate::goals::building::{Building, false_heap};
use crate::goals::heaps::{
    Free, Numbers, Quantified, Variables, case_heap, heap_of, heaps_of, terms_of,
};
use crate::goals::occurrences::constants_in;
use cyc_basics::limits::{Limits, MOST_DISJUNCTS};
use heap_formula::{Args, Disjuncts, Heap, Spatial, Term};
use std::alloc::Global;

/// The universal variables of a goal: the constants are those below a number, and each variable has its place in the
/// order for a number.
#[derive(Clone, Copy)]
pub struct Universals<'v> {
    pub constants: u16,
    pub order: &'v [u16],
}

impl<'v> Universals<'v> {
    /// The constants, and behind them the quantified variables.
    fn variables(&self) -> Variables<'v>
        ensures free { result.free ≡ Free.Placed self.now.constants self.now.order }
        ensures quantified { result.quantified ≡ Quantified.Raised self.now.constants self.now.order }
    {
        Variables {
            free: Free::Placed(self.constants, self.order),
            quantified: Quantified::Raised(self.constants, self.order),
        }
    }
}

fn constant_terms(alloc: Global, constants: &[u16]) -> Result<Vec<Term>, Refused>
    ensures { IfOk result (λ ts. ts.items ≡ map constant_term constants.now) }
{
    let mut terms = Vec::new(alloc);
    for constant in constants {
        terms.push(Term::Univ(*constant))?;
    }
    Ok(terms)
}

/// A call of a predicate.
fn call(alloc: Global, most: Limits, number: u16, arguments: &[Term]) -> Result<Heap, Refused>
    requires { AreLimits most }
    ensures { IfOk result (λ h. h ≡ call_of number arguments.now) }
{
    if arguments.len() > most.arguments as usize {
        return Err(Refused::Unsupported(Unsupported::Disjunction));
    }
    let mut spatial = Vec::new(alloc);
    spatial.push(Spatial::Pred(number, Args::from_slice(arguments)))?;
    if spatial.len() > 32 {
        return Err(Refused::OutOfMemory);
    }
    Ok(Heap::from_lists(Vec::new(alloc), spatial))
}

/// A call of a predicate that has the cases, which is defined.
fn called_antecedent(
    alloc: Global,
    most: Limits,
    building: &mut Building,
    numbers: &Numbers,
    universals: Universals<'_>,
    cases: &[Case],
) -> Result<Heap, Refused>
    requires { AreLimits most }
    ensures { let constants = universals.entry.constants in let order = universals.entry.order.now in
        IfOk result (λ h. IsCallOf numbers.now constants order cases.now h building.old.defs.list
        building.new.defs.list) }
{
    let number = building.count();
    if number >= 4096 {
        return Err(Refused::Unsupported(Unsupported::Predicates));
    }
    let listed = constants_in(alloc, cases)?;
    let constants = constant_terms(alloc, &listed)?;
    let arguments = terms_of(alloc, universals.variables(), &constants)?;
    let heap = call(alloc, most, number as u16, &arguments)?;
    let parameters = Free::Placed(universals.constants, &listed);
    let heaps = heaps_of(alloc, most, numbers, parameters, cases)?;
    building.define(listed.len(), &heaps)?;
    Ok(heap)
}

/// The antecedent: the only case, or a predicate that has the cases.
pub fn antecedent_of(
    alloc: Global,
    most: Limits,
    building: &mut Building,
    numbers: &Numbers,
    universals: Universals<'_>,
    cases: &[Case],
) -> Result<Heap, Refused>
    requires { AreLimits most }
    ensures { let constants = universals.entry.constants in let order = universals.entry.order.now in
        IfOk result (λ h. IsAntecedent numbers.now constants order cases.now h building.old.defs.list
        building.new.defs.list) }
{
    let count = cases.len();
    if count == 0 {
        return false_heap(alloc);
    }
    if count == 1 {
        return heap_of(alloc, most, numbers, universals.variables(), &cases[0]);
    }
    called_antecedent(alloc, most, building, numbers, universals, cases)
}

fn no_disjunct(alloc: Global) -> Result<Disjuncts, Refused>
    ensures { IfOk result (λ hs. hs ≡ impossible ∷ []) }
{
    let mut heaps = Vec::new(alloc);
    heaps.push(false_heap(alloc)?)?;
    Ok(Disjuncts::from_vec(heaps))
}

fn disjuncts_of(
    alloc: Global,
    most: Limits,
    numbers: &Numbers,
    universals: Universals<'_>,
    cases: &[Case],
) -> Result<Vec<Heap>, Refused>
    requires { AreLimits most }
    ensures { let constants = Free.Placed universals.entry.constants universals.entry.order in
        IfOk result (λ hs. AreHeapsOf numbers.now constants cases.now hs.items) }
{
    let mut heaps = Vec::new(alloc);
    for case in cases {
        let constants = Free::Placed(universals.constants, universals.order);
        heaps.push(case_heap(alloc, most, numbers, constants, case)?)?;
    }
    Ok(heaps)
}

/// The succedent: a disjunct for each case, or a false one.
pub fn succedent_of(
    alloc: Global,
    most: Limits,
    numbers: &Numbers,
    universals: Universals<'_>,
    cases: &[Case],
) -> Result<Disjuncts, Refused>
    requires { AreLimits most }
    ensures { let constants = universals.entry.constants in let order = universals.entry.order.now in
        IfOk result (λ hs. AreDisjuncts numbers.now constants order cases.now hs) }
{
    let count = cases.len();
    if count == 0 {
        return no_disjunct(alloc);
    }
    let heaps = disjuncts_of(alloc, most, numbers, universals, cases)?;
    if heaps.len() == 0 || heaps.len() > MOST_DISJUNCTS {
        return Err(Refused::Unsupported(Unsupported::Cases));
    }
    Ok(Disjuncts::from_vec(heaps))
}
