// The cases of what a script asserts and of what it denies.
ghost use Rattle.std.specs.Prelude.{◌≡◌, [], ◌∷◌, ◌++◌, List, map, false, IfOk, OnOk};
ghost use Rattle.script_formulas.specs.Formulas.{Formula, formula_of};
ghost use Rattle.script_formulas.specs.declared.cases.joining.Way.TheVariants.{Conjunction};
ghost use Rattle.script_formulas.specs.Forms.{signed};
ghost use Rattle.script_formulas.specs.Holding.{IsDisjunctiveForm, IsStagedForm};
ghost use Rattle.script_formulas.specs.Joining.{join_all};
ghost use Rattle.script_formulas.specs.Scope.{IsFine, AreFine};
ghost use Rattle.script_formulas.specs.Sides.{AreDenied, AreSides, AreWithout, negations};

use crate::cases::{Case, Refused, Unsupported, Way, disjunctive_form, joined_cases};
use crate::goals::refusal::{Place, ScriptRefusal, at};
use crate::{Script, ScriptFormula};
use heap_formula::Pure;
use std::alloc::Global;

/// The cases in which all that is asserted holds, and nothing that is denied and says nothing of the heap; and the
/// cases that say something of it in which something that is denied holds.
#[derive(Drop)]
pub struct Sides {
    pub asserted: Vec<Case>,
    pub denied: Vec<Case>,
}

/// The cases of a formula of an assert, or of the body of a predicate.
pub fn cases_at(
    alloc: Global,
    place: Place,
    formula: &ScriptFormula,
) -> Result<Vec<Case>, ScriptRefusal>
    ensures fine { IfOk result (λ cs. AreFine 0 cs.items) }
    ensures meaning { IfOk result (λ cs. IsDisjunctiveForm (formula_of formula.now) cs.items) }
    ensures staged { IfOk result (λ cs. IsStagedForm (formula_of formula.now) cs.items) }
{
    at(place, disjunctive_form(alloc, formula))
}

fn conjunction(
    alloc: Global,
    place: Place,
    first: &[Case],
    second: &[Case],
) -> Result<Vec<Case>, ScriptRefusal>
    ensures { IfOk result (λ cs. join_all Conjunction 0 first.now second.now ≡ Ok cs.items) }
{
    at(
        place,
        joined_cases(alloc, Way::Conjunction, 0, first, second),
    )
}

fn asserted_cases(alloc: Global, script: &Script) -> Result<Vec<Case>, ScriptRefusal>
    ensures fine { IfOk result (λ cs. AreFine 0 cs.items) }
    ensures meaning { IfOk result (λ cs. AreSides (map formula_of script.now.asserted.items) [] cs.items []) }
{
    let mut all = Vec::new(alloc);
    all.push(Case::open(alloc))?;
    for (number, formula) in script.asserted.iter().enumerate() {
        let place = Place::Asserted(number);
        let cases = cases_at(alloc, place, formula)?;
        all = conjunction(alloc, place, &all, &cases)?;
    }
    Ok(all)
}

fn negated_atom(atom: Pure) -> Pure
    ensures { result ≡ signed false atom }
{
    match atom {
        Pure::Eq(t, u) => Pure::Neq(t, u),
        Pure::Neq(t, u) => Pure::Eq(t, u),
    }
}

/// The cases in which a case that says nothing of the heap does not hold.
fn negated(alloc: Global, case: &Case) -> Result<Vec<Case>, Refused>
    ensures value { IfOk result (λ cs. cs.items ≡ negations case.now.pure) }
    ensures none { IfOk result (λ _. case.now.quantified ≡ 0) }
{
    if case.quantified() > 0 {
        return Err(Refused::Unsupported(Unsupported::Universal));
    }
    let mut made = Vec::new(alloc);
    for atom in case.pure() {
        made.push(Case::of_pure(alloc, negated_atom(*atom))?)?;
    }
    Ok(made)
}

impl Sides {
    fn deny_case(&mut self, alloc: Global, place: Place, case: &Case) -> Result<(), ScriptRefusal>
        requires sides { AreFine 0 self.old.asserted.items }
        requires others { AreDenied self.old.denied.items }
        requires case { IsFine 0 case.now }
        ensures fine { OnOk result (AreFine 0 self.new.asserted.items) }
        ensures others { OnOk result (AreDenied self.new.denied.items) }
        ensures without { OnOk result (AreWithout (case.now ∷ []) self.old.asserted.items
            self.old.denied.items self.new.asserted.items self.new.denied.items) }
    {
        if case.any_heap() {
            let others = at(place, negated(alloc, case))?;
            self.asserted = conjunction(alloc, place, &self.asserted, &others)?;
        } else {
            self.denied.push(at(place, case.copy(alloc))?)?;
        }
        Ok(())
    }

    fn deny(
        &mut self,
        alloc: Global,
        place: Place,
        formula: &ScriptFormula,
    ) -> Result<(), ScriptRefusal>
        requires sides { AreFine 0 self.old.asserted.items }
        requires others { AreDenied self.old.denied.items }
        ensures fine { OnOk result (AreFine 0 self.new.asserted.items) }
        ensures others { OnOk result (AreDenied self.new.denied.items) }
        ensures denied { OnOk result ((fs gs : List Formula)
            → AreSides fs gs self.old.asserted.items self.old.denied.items
            → AreSides fs (gs ++ formula_of formula.now ∷ []) self.new.asserted.items
            self.new.denied.items) }
    {
        let cases = cases_at(alloc, place, formula)?;
        for case in &cases {
            self.deny_case(alloc, place, case)?;
        }
        Ok(())
    }
}

/// Both sides of a script's question.
pub fn sides_of(alloc: Global, script: &Script) -> Result<Sides, ScriptRefusal>
    ensures sides { IfOk result (λ sides. AreSides (map formula_of script.now.asserted.items)
        (map formula_of script.now.denied.items) sides.asserted.items sides.denied.items) }
    ensures first { IfOk result (λ sides. AreFine 0 sides.asserted.items) }
    ensures second { IfOk result (λ sides. AreDenied sides.denied.items) }
{
    let mut sides = Sides {
        asserted: asserted_cases(alloc, script)?,
        denied: Vec::new(alloc),
    };
    for (number, formula) in script.denied.iter().enumerate() {
        sides.deny(alloc, Place::Denied(number), formula)?;
    }
    Ok(sides)
}
