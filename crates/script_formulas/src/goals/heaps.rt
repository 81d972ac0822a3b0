// Cases as symbolic heaps.
ghost use Rattle.std.specs.Prelude.{◌≡◌, ◌++◌, length, replicate, IfOk, IfSome, OnOk};
ghost use Rattle.std.specs.List.{AllZip};
ghost use Rattle.cyc_basics.specs.Limits.{AreLimits};
ghost use Rattle.heap_formula.specs.declared.terms.Term.TheVariants.{Nil as nil_term};
ghost use Rattle.script_formulas.specs.Translating.{IsFirstPlaceOf, IsFree, IsQuantified, IsTermOf, AreTermsOf};
ghost use Rattle.script_formulas.specs.Translating.{AreFilled, IsPureOf, IsSpatialOf, IsHeapOf, IsCaseOf, AreHeapsOf};

use crate::ScriptAtom;
use crate::cases::{Case, Refused, Unsupported};
use crate::goals::occurrences::quantified_in;
use cyc_basics::limits::Limits;
use heap_formula::{Args, Heap, Pure, Spatial, Term};
use std::alloc::Global;

/// What stands for the variables of a case that are not quantified.
#[derive(Clone, Copy)]
pub enum Free<'v> {
    /// Those below this number stand for themselves.
    Known(u16),
    /// Those below this number have their places in the list for numbers.
    Placed(u16, &'v [u16]),
}

/// What stands for those that are quantified.
#[derive(Clone, Copy)]
pub enum Quantified<'v> {
    /// Universal variables: their numbers begin with this one, and each has the place of its number in the list.
    Raised(u16, &'v [u16]),
    /// Existential ones, which have their places in the list for numbers.
    Local(&'v [u16]),
}

/// What stands for the variables of a case.
#[derive(Clone, Copy)]
pub struct Variables<'v> {
    pub free: Free<'v>,
    pub quantified: Quantified<'v>,
}

/// What stands for constructors and predicates: the number of fields of their cells, and their numbers in the problem.
#[derive(Drop)]
pub struct Numbers {
    pub fields: Vec<usize>,
    pub widths: Vec<u8>,
    pub predicates: Vec<u16>,
}

const UNBOUND: Refused = Refused::Unsupported(Unsupported::Unbound);

/// The first place of a number in a list.
fn place_of(numbers: &[u16], wanted: u16) -> Option<u16>
    ensures { IfSome result (λ k. IsFirstPlaceOf numbers.now wanted k) }
{
    for (place, number) in numbers.iter().enumerate() {
        if *number == wanted {
            return if place < 65535 {
                Some(place as u16)
            } else {
                None
            };
        }
    }
    None
}

fn free_term(free: Free<'_>, n: u16) -> Result<Term, Refused>
    ensures { IfOk result (λ u. IsFree free.entry n u) }
{
    match free {
        Free::Known(most) if n < most => Ok(Term::Univ(n)),
        Free::Placed(most, order) if n < most => match place_of(order, n) {
            Some(place) => Ok(Term::Univ(place)),
            None => Err(UNBOUND),
        },
        _ => Err(UNBOUND),
    }
}

fn quantified_term(quantified: Quantified<'_>, n: u16) -> Result<Term, Refused>
    ensures { IfOk result (λ u. IsQuantified quantified.entry n u) }
{
    match quantified {
        Quantified::Raised(most, order) if n <= u16::MAX - most => match place_of(order, most + n) {
            Some(place) => Ok(Term::Univ(place)),
            None => Err(UNBOUND),
        },
        Quantified::Local(order) => match place_of(order, n) {
            Some(place) => Ok(Term::Exist(place)),
            None => Err(UNBOUND),
        },
        Quantified::Raised(_, _) => Err(UNBOUND),
    }
}

fn term_of(variables: Variables<'_>, term: Term) -> Result<Term, Refused>
    ensures { IfOk result (λ u. IsTermOf variables.entry term u) }
{
    match term {
        Term::Nil => Ok(Term::Nil),
        Term::Univ(n) => free_term(variables.free, n),
        Term::Exist(n) => quantified_term(variables.quantified, n),
    }
}

/// The terms of a problem for these.
pub fn terms_of(
    alloc: Global,
    variables: Variables<'_>,
    terms: &[Term],
) -> Result<Vec<Term>, Refused>
    ensures { IfOk result (λ us. AreTermsOf variables.entry terms.now us.items) }
{
    let mut made = Vec::new(alloc);
    for term in terms {
        made.push(term_of(variables, *term)?)?;
    }
    Ok(made)
}

/// Appends `nil` so often.
fn fill(terms: &mut Vec<Term>, more: usize) -> Result<(), Refused>
    ensures { OnOk result (terms.new.items ≡ terms.old.items ++ replicate more nil_term) }
{
    for _ in 0..more {
        terms.push(Term::Nil)?;
    }
    Ok(())
}

/// The terms, and `nil` up to so many.
fn args_of(
    alloc: Global,
    variables: Variables<'_>,
    terms: &Args,
    width: usize,
) -> Result<Args, Refused>
    ensures filled { IfOk result (λ us. AreFilled variables.entry terms.now us) }
    ensures size { IfOk result (λ us. length us ≡ width) }
{
    let count = terms.len();
    if width < count || width > 8 {
        return Err(UNBOUND);
    }
    let mut made = terms_of(alloc, variables, terms.as_slice())?;
    fill(&mut made, width - count)?;
    if made.len() != width {
        return Err(UNBOUND);
    }
    Ok(Args::from_slice(&made))
}

/// The arguments of a predicate.
fn arguments_of(alloc: Global, variables: Variables<'_>, terms: &Args) -> Result<Args, Refused>
    ensures { IfOk result (λ us. AreTermsOf variables.entry terms.now us) }
{
    let made = terms_of(alloc, variables, terms.as_slice())?;
    if made.len() > 8 {
        return Err(UNBOUND);
    }
    Ok(Args::from_slice(&made))
}

fn pure_of(variables: Variables<'_>, atom: Pure) -> Result<Pure, Refused>
    ensures { IfOk result (λ q. IsPureOf variables.entry atom q) }
{
    match atom {
        Pure::Eq(t, u) => Ok(Pure::Eq(term_of(variables, t)?, term_of(variables, u)?)),
        Pure::Neq(t, u) => Ok(Pure::Neq(term_of(variables, t)?, term_of(variables, u)?)),
    }
}

fn cell_of(
    alloc: Global,
    numbers: &Numbers,
    variables: Variables<'_>,
    address: Term,
    constructor: u16,
    args: &Args,
) -> Result<Spatial, Refused>
    ensures { let atom = ScriptAtom.Cell address constructor args.now in
        IfOk result (λ y. IsSpatialOf numbers.now variables.entry atom y) }
{
    let place = constructor as usize;
    if place >= numbers.fields.len() || place >= numbers.widths.len() {
        return Err(UNBOUND);
    }
    let width = numbers.widths[place] as usize;
    if args.len() != numbers.fields[place] || width == 0 {
        return Err(UNBOUND);
    }
    let address = term_of(variables, address)?;
    let args = args_of(alloc, variables, args, width)?;
    Ok(Spatial::Cell(address, args))
}

fn call_of(
    alloc: Global,
    numbers: &Numbers,
    variables: Variables<'_>,
    predicate: u16,
    args: &Args,
) -> Result<Spatial, Refused>
    ensures { IfOk result (λ y. IsSpatialOf numbers.now variables.entry (ScriptAtom.Call predicate args.now) y) }
{
    let Some(number) = place_of(&numbers.predicates, predicate) else {
        return Err(UNBOUND);
    };
    let args = arguments_of(alloc, variables, args)?;
    Ok(Spatial::Pred(number, args))
}

fn spatial_of(
    alloc: Global,
    numbers: &Numbers,
    variables: Variables<'_>,
    atom: &ScriptAtom,
) -> Result<Spatial, Refused>
    ensures { IfOk result (λ y. IsSpatialOf numbers.now variables.entry atom.now y) }
{
    match atom {
        ScriptAtom::Cell(t, constructor, args) => {
            cell_of(alloc, numbers, variables, *t, *constructor, args)
        }
        ScriptAtom::Call(predicate, args) => call_of(alloc, numbers, variables, *predicate, args),
    }
}

fn pures_of(alloc: Global, variables: Variables<'_>, atoms: &[Pure]) -> Result<Vec<Pure>, Refused>
    ensures { IfOk result (λ qs. AllZip (IsPureOf variables.entry) atoms.now qs.items) }
{
    let mut made = Vec::new(alloc);
    for atom in atoms {
        made.push(pure_of(variables, *atom)?)?;
    }
    Ok(made)
}

fn spatials_of(
    alloc: Global,
    numbers: &Numbers,
    variables: Variables<'_>,
    atoms: &[ScriptAtom],
) -> Result<Vec<Spatial>, Refused>
    ensures { IfOk result (λ ys. AllZip (IsSpatialOf numbers.now variables.entry) atoms.now ys.items) }
{
    let mut made = Vec::new(alloc);
    for atom in atoms {
        made.push(spatial_of(alloc, numbers, variables, atom)?)?;
    }
    Ok(made)
}

/// The case as a symbolic heap within the limits. Where nothing is said of the heap, it is empty.
pub fn heap_of(
    alloc: Global,
    most: Limits,
    numbers: &Numbers,
    variables: Variables<'_>,
    case: &Case,
) -> Result<Heap, Refused>
    requires { AreLimits most }
    ensures { IfOk result (λ h. IsHeapOf numbers.now variables.entry case.now h) }
{
    let pure = pures_of(alloc, variables, case.pure())?;
    let spatial = spatials_of(alloc, numbers, variables, case.atoms())?;
    if pure.len() > most.pure as usize {
        return Err(Refused::Unsupported(Unsupported::PureAtoms));
    }
    if spatial.len() > most.spatial as usize {
        return Err(Refused::Unsupported(Unsupported::HeapAtoms));
    }
    Ok(Heap::from_lists(pure, spatial))
}

/// The case as a symbolic heap within the limits, whose existential variables are numbered as its text names them.
pub fn case_heap(
    alloc: Global,
    most: Limits,
    numbers: &Numbers,
    free: Free<'_>,
    case: &Case,
) -> Result<Heap, Refused>
    requires { AreLimits most }
    ensures { IfOk result (λ h. IsCaseOf numbers.now free.entry case.now h) }
{
    let locals = quantified_in(alloc, case)?;
    let variables = Variables {
        free,
        quantified: Quantified::Local(&locals),
    };
    heap_of(alloc, most, numbers, variables, case)
}

/// The cases of a definition as symbolic heaps within the limits.
pub fn heaps_of(
    alloc: Global,
    most: Limits,
    numbers: &Numbers,
    free: Free<'_>,
    cases: &[Case],
) -> Result<Vec<Heap>, Refused>
    requires { AreLimits most }
    ensures { IfOk result (λ hs. AreHeapsOf numbers.now free.entry cases.now hs.items) }
{
    let mut heaps = Vec::new(alloc);
    for case in cases {
        if u32::from(case.quantified()) > most.locals {
            return Err(Refused::Unsupported(Unsupported::Quantifiers));
        }
        heaps.push(case_heap(alloc, most, numbers, free, case)?)?;
    }
    Ok(heaps)
}
