// A script as definitions and a goal.
ghost use Rattle.std.specs.Prelude.{◌≡◌, [], map, length, IfOk, OnOk};
ghost use Rattle.std.specs.List.{list_any};
ghost use Rattle.cyc_basics.specs.Limits.{AreLimits};
ghost use Rattle.script_formulas.specs.Formulas.{formula_of};
ghost use Rattle.script_formulas.specs.Scope.{AreFine};
ghost use Rattle.script_formulas.specs.Sides.{AreDenied, AreSides};
ghost use Rattle.script_formulas.specs.Sorts.{IsSorted};
ghost use Rattle.script_formulas.specs.Translating.{AreToldApart};
ghost use Rattle.script_formulas.specs.Defining.{HasBody, AreDefinedIn, IsJudgement, IsAsked, IsGoalOf};

use crate::cases::{Case, Refused, Unsupported};
use crate::goals::antecedents::{Sides, cases_at, sides_of};
use crate::goals::building::Building;
use crate::goals::heaps::{Free, Numbers, heaps_of};
use crate::goals::occurrences::universals_in;
use crate::goals::question::{Question, ScriptGoal};
use crate::goals::reached::{Reached, reached_in};
use crate::goals::refusal::{Place, ScriptRefusal, at};
use crate::goals::sorts::check_sorts;
use crate::goals::succedents::{Universals, antecedent_of, succedent_of};
use crate::goals::widths::widths_of;
use crate::{Predicate, Script};
use cyc_basics::limits::Limits;
use heap_formula::Judgement;
use heap_syntax::Version;
use std::alloc::Global;

fn has_open(cases: &[Case]) -> bool
    ensures { result ≡ list_any (λ c. c.any_heap) cases.now }
{
    cases.iter().any(|case| case.any_heap())
}

/// The numbers of the predicates that are used, in order.
fn used_predicates(alloc: Global, script: &Script, reached: &Reached) -> Result<Vec<u16>, Refused> {
    let mut numbers = Vec::new(alloc);
    for place in 0..script.predicates.len() {
        if reached.has_predicate(place) {
            if place >= 65535 || numbers.len() >= 4096 {
                return Err(Refused::Unsupported(Unsupported::Predicates));
            }
            numbers.push(place as u16)?;
        }
    }
    Ok(numbers)
}

fn fields_of(alloc: Global, script: &Script) -> Result<Vec<usize>, Refused>
    ensures { IfOk result (λ ns. ns.items ≡ map (λ c. length c.fields.items) script.now.constructors.items) }
{
    let mut fields = Vec::new(alloc);
    for constructor in &script.constructors {
        fields.push(constructor.fields.len())?;
    }
    Ok(fields)
}

fn numbers_of(alloc: Global, script: &Script) -> Result<Numbers, Refused>
    ensures fields { IfOk result (λ numbers. numbers.fields.items
        ≡ map (λ c. length c.fields.items) script.now.constructors.items) }
    ensures told { IfOk result (λ numbers. AreToldApart numbers.widths.items) }
{
    let reached = reached_in(alloc, script)?;
    let fields = fields_of(alloc, script)?;
    let widths = widths_of(alloc, &script.constructors, &reached)?;
    let predicates = used_predicates(alloc, script, &reached)?;
    Ok(Numbers {
        fields,
        widths,
        predicates,
    })
}

fn define_predicate(
    alloc: Global,
    most: Limits,
    building: &mut Building,
    numbers: &Numbers,
    place: Place,
    predicate: &Predicate,
) -> Result<(), ScriptRefusal>
    requires { AreLimits most }
    ensures { OnOk result (HasBody numbers.now (length predicate.now.parameters.items)
        (formula_of predicate.now.body) building.old.defs.list building.new.defs.list) }
{
    let arity = predicate.parameters.len();
    if arity > 8 {
        return Err(ScriptRefusal::Unsupported(place, Unsupported::Parameters));
    }
    let cases = cases_at(alloc, place, &predicate.body)?;
    if has_open(&cases) {
        return Err(ScriptRefusal::Unsupported(place, Unsupported::OpenHeap));
    }
    let parameters = Free::Known(arity as u16);
    let heaps = at(place, heaps_of(alloc, most, numbers, parameters, &cases))?;
    at(place, building.define(arity, &heaps))?;
    Ok(())
}

fn name_predicates(
    building: &mut Building,
    script: &Script,
    numbers: &Numbers,
) -> Result<(), Refused>
    ensures { OnOk result (building.new.defs ≡ building.old.defs) }
{
    for number in &numbers.predicates {
        if let Some(predicate) = script.predicates.get(*number as usize) {
            building.name(predicate.name.as_str())?;
        }
    }
    Ok(())
}

fn define_predicates(
    alloc: Global,
    most: Limits,
    building: &mut Building,
    script: &Script,
    numbers: &Numbers,
) -> Result<(), ScriptRefusal>
    requires none { building.old.defs.list ≡ [] }
    requires limits { AreLimits most }
    ensures { OnOk result (AreDefinedIn script.now.predicates.items numbers.now numbers.now.predicates.items
        building.new.defs.list) }
{
    for number in &numbers.predicates {
        let place = Place::Predicate(*number as usize);
        let Some(predicate) = script.predicates.get(*number as usize) else {
            return Err(ScriptRefusal::Unsupported(place, Unsupported::Unbound));
        };
        define_predicate(alloc, most, building, numbers, place, predicate)?;
    }
    Ok(())
}

/// The definitions of the predicates that are used; there may be one more, which the antecedent calls.
fn definitions_of(
    alloc: Global,
    limits: Limits,
    script: &Script,
    numbers: &Numbers,
    has_disjunction: bool,
) -> Result<Building, ScriptRefusal>
    requires { AreLimits limits }
    ensures { IfOk result (λ building. AreDefinedIn script.now.predicates.items numbers.now
        numbers.now.predicates.items building.defs.list) }
{
    let mut building = Building::new(alloc, limits);
    at(
        Place::Whole,
        name_predicates(&mut building, script, numbers),
    )?;
    if has_disjunction {
        at(Place::Whole, building.name("antecedent"))?;
    }
    define_predicates(alloc, limits, &mut building, script, numbers)?;
    Ok(building)
}

fn judgement_of(
    alloc: Global,
    most: Limits,
    building: &mut Building,
    numbers: &Numbers,
    universals: Universals<'_>,
    sides: &Sides,
) -> Result<Judgement, Refused>
    requires { AreLimits most }
    ensures { IfOk result (λ goal. IsJudgement numbers.now universals.entry.constants universals.entry.order.now
        sides.now.asserted.items sides.now.denied.items building.old.defs.list building.new.defs.list goal) }
{
    let antecedent = antecedent_of(alloc, most, building, numbers, universals, &sides.asserted)?;
    let succedent = succedent_of(alloc, most, numbers, universals, &sides.denied)?;
    Ok(Judgement::Entail(antecedent, succedent))
}

/// How many constants a script has.
fn constant_count(script: &Script) -> Result<u16, Refused>
    ensures { IfOk result (λ n. n ≡ length script.now.constants.items) }
{
    let count = script.constants.len();
    if count >= 65535 {
        return Err(Refused::Unsupported(Unsupported::Variables));
    }
    Ok(count as u16)
}

/// The universal variables of the goal, in the order in which its text names them.
fn order_of(alloc: Global, constants: u16, sides: &Sides) -> Result<Vec<u16>, Refused> {
    let order = universals_in(alloc, constants, &sides.asserted, &sides.denied)?;
    Ok(order)
}

fn question_of(asserted: &[Case], denied: &[Case]) -> Result<Question, ScriptRefusal>
    ensures { IfOk result (λ question. IsAsked question asserted.now denied.now) }
{
    let count = denied.len();
    if count == 0 {
        return Ok(Question::Satisfiability);
    }
    if has_open(asserted) {
        return Err(ScriptRefusal::Unsupported(Place::Whole, Unsupported::OpenHeap));
    }
    Ok(Question::Entailment)
}

/// The goal of a script with these sides, of this version of the formats.
fn goal_of_sides(
    alloc: Global,
    version: Version,
    script: &Script,
    sides: &Sides,
) -> Result<ScriptGoal, ScriptRefusal>
    requires sides { AreSides (map formula_of script.now.asserted.items) (map formula_of script.now.denied.items)
        sides.now.asserted.items sides.now.denied.items }
    requires first { AreFine 0 sides.now.asserted.items }
    requires second { AreDenied sides.now.denied.items }
    requires sorted { IsSorted script.now }
    ensures { IfOk result (λ g. IsGoalOf script.now g.question g.defs.list g.goal g.predicates.items) }
{
    let most = version.limits();
    let question = question_of(&sides.asserted, &sides.denied)?;
    let numbers = at(Place::Whole, numbers_of(alloc, script))?;
    let has_disjunction = sides.asserted.len() > 1;
    let mut building = definitions_of(alloc, most, script, &numbers, has_disjunction)?;
    let constants = at(Place::Whole, constant_count(script))?;
    let order = at(Place::Whole, order_of(alloc, constants, sides))?;
    let universals = Universals {
        constants,
        order: &order,
    };
    let goal = judgement_of(alloc, most, &mut building, &numbers, universals, sides);
    let goal = at(Place::Whole, goal)?;
    let defs = building.finished();
    let Numbers {
        fields: _,
        widths: _,
        predicates,
    } = numbers;
    Ok(ScriptGoal {
        question,
        version,
        defs,
        goal,
        universals: order,
        predicates,
    })
}

/// Whether a problem of a later version may have room for what this one has not.
fn is_of_room(refusal: ScriptRefusal) -> bool {
    match refusal {
        ScriptRefusal::Unsupported(_, cause) => matches!(
            cause,
            Unsupported::Cases
                | Unsupported::Quantifiers
                | Unsupported::PureAtoms
                | Unsupported::HeapAtoms
        ),
        ScriptRefusal::OutOfMemory => false,
    }
}

/// The goal that asks what the script does, of version 2 of the formats or, where that has no room for it, of version
/// 3; or the first cause found why there is none. A script that is not well sorted has none.
pub fn goal_of_script(alloc: Global, script: &Script) -> Result<ScriptGoal, ScriptRefusal>
    ensures { IfOk result (λ g. IsGoalOf script.now g.question g.defs.list g.goal g.predicates.items) }
{
    check_sorts(alloc, script)?;
    let sides = sides_of(alloc, script)?;
    match goal_of_sides(alloc, Version::Two, script, &sides) {
        Ok(goal) => Ok(goal),
        Err(refusal) if is_of_room(refusal) => goal_of_sides(alloc, Version::Three, script, &sides),
        Err(refusal) => Err(refusal),
    }
}
