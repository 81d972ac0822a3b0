// Scripts as problems.
use crate::given::{call, cell, differ, equal, segments};
use heap_formula::Judgement;
use script_formulas::problems::{
    Place, Question, ScriptProblem, ScriptRefusal, Unsupported, problem_of_script,
};
use script_formulas::{Script, ScriptFormula, Term};
use std::alloc::Global;
use std::test::Fail;

const X: Term = Term::Univ(0);

const Y: Term = Term::Univ(1);

const Z: Term = Term::Univ(2);

fn list(alloc: Global, formula: ScriptFormula) -> Result<Vec<ScriptFormula>, Fail> {
    let mut formulas = Vec::new(alloc);
    formulas.push(formula)?;
    Ok(formulas)
}

fn problem(alloc: Global, script: &Script) -> Result<ScriptProblem, Fail> {
    match problem_of_script(alloc, script) {
        Ok(found) => Ok(found),
        Err(_) => Err("no problem".into()),
    }
}

/// The numbers of pure and spatial atoms on the left, and of disjuncts.
fn sizes(goal: &Judgement) -> (usize, usize, usize) {
    match goal {
        Judgement::Entail(antecedent, disjuncts) => (
            antecedent.pure().len(),
            antecedent.spatial().len(),
            disjuncts.heaps().len(),
        ),
        Judgement::Term(_, state) => (state.pure().len(), state.spatial().len(), 0),
    }
}

/// The cause and the place, if the script can't be said.
fn refusal(alloc: Global, script: &Script) -> Option<(Place, Unsupported)> {
    match problem_of_script(alloc, script) {
        Err(ScriptRefusal::Unsupported(place, cause)) => Some((place, cause)),
        _ => None,
    }
}

#[test]
fn two_segments_make_one(rt: HostRuntime) -> Result<(), Fail> {
    let alloc = rt.alloc();
    let two = ScriptFormula::sep(alloc, call(0, &[X, Y]), call(0, &[Y, Z]));
    let Ok(two) = two else {
        return Err("memory".into())
    };
    let script = segments(alloc, list(alloc, two)?, list(alloc, call(0, &[X, Z]))?)?;
    let found = problem(alloc, &script)?;
    assert_eq!(rt; found.question, Question::Entailment);
    assert_eq!(rt; sizes(&found.problem.goal), (0, 2, 1));
    assert_eq!(rt; found.problem.defs.as_slice().len(), 1);
    assert_eq!(rt; found.predicates.as_slice(), [0].as_slice());
    Ok(())
}

#[test]
fn a_pure_denial_goes_to_the_left(rt: HostRuntime) -> Result<(), Fail> {
    let alloc = rt.alloc();
    let asserted = list(alloc, call(0, &[X, Y]))?;
    let script = segments(alloc, asserted, list(alloc, equal(X, Y))?)?;
    let found = problem(alloc, &script)?;
    assert_eq!(rt; found.question, Question::Satisfiability);
    assert_eq!(rt; sizes(&found.problem.goal), (1, 1, 1));
    Ok(())
}

#[test]
fn a_disjunction_on_the_left_is_a_predicate(rt: HostRuntime) -> Result<(), Fail> {
    let alloc = rt.alloc();
    let Ok(either) = ScriptFormula::or(alloc, cell(X, &[Y]), call(0, &[X, Z])) else {
        return Err("memory".into());
    };
    let script = segments(alloc, list(alloc, either)?, Vec::new(alloc))?;
    let found = problem(alloc, &script)?;
    assert_eq!(rt; found.question, Question::Satisfiability);
    assert_eq!(rt; sizes(&found.problem.goal), (0, 1, 1));
    let defs = found.problem.defs.as_slice();
    assert_eq!(rt; defs.len(), 2);
    assert_eq!(rt; defs[1].name.as_text(), "antecedent");
    assert_eq!(rt; defs[1].arity, 3);
    assert_eq!(rt; defs[1].cases.heaps().len(), 2);
    Ok(())
}

/// Script formulas with `count` alternatives, each that `x` points to a value of its own.
fn alternatives(alloc: Global, count: u16) -> Result<ScriptFormula, Fail> {
    let mut all = cell(X, &[X]);
    for number in 0..count {
        let Ok(more) = ScriptFormula::or(alloc, all, cell(X, &[Term::Univ(number % 3)])) else {
            return Err("memory".into());
        };
        all = more;
    }
    Ok(all)
}

#[test]
fn many_cases_stay_in_one_definition(rt: HostRuntime) -> Result<(), Fail> {
    let alloc = rt.alloc();
    let asserted = list(alloc, alternatives(alloc, 39)?)?;
    let script = segments(alloc, asserted, Vec::new(alloc))?;
    let found = problem(alloc, &script)?;
    let defs = found.problem.defs.as_slice();
    assert_eq!(rt; defs.len(), 1);
    assert_eq!(rt; defs[0].name.as_text(), "antecedent");
    assert_eq!(rt; defs[0].cases.heaps().len(), 40);
    Ok(())
}

#[test]
fn what_cannot_be_said(rt: HostRuntime) -> Result<(), Fail> {
    let alloc = rt.alloc();
    let Ok(both) = ScriptFormula::and(alloc, cell(X, &[Y]), call(0, &[X, Y])) else {
        return Err("memory".into());
    };
    let script = segments(alloc, list(alloc, both)?, Vec::new(alloc))?;
    assert_eq!(rt;
        refusal(alloc, &script),
        Some((Place::Asserted(0), Unsupported::Conjunction))
    );
    let Ok(part) = ScriptFormula::sep(alloc, cell(X, &[Y]), differ(X, Y)) else {
        return Err("memory".into());
    };
    let script = segments(alloc, Vec::new(alloc), list(alloc, part)?)?;
    assert_eq!(rt;
        refusal(alloc, &script),
        Some((Place::Denied(0), Unsupported::OpenPart))
    );
    let script = segments(
        alloc,
        list(alloc, equal(X, Y))?,
        list(alloc, cell(X, &[Y]))?,
    )?;
    assert_eq!(rt;
        refusal(alloc, &script),
        Some((Place::Whole, Unsupported::OpenHeap))
    );
    Ok(())
}
