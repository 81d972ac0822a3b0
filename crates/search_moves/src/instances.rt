// Terms for existential variables.
ghost use Rattle.std.specs.Prelude.{◌≡◌, ◌++◌, ◌||◌, not, IfOk, OnOk, map};
ghost use Rattle.rule_table.specs.Tests.{is_universal as is_universal_term, same_term as same_terms};
ghost use Rattle.std.specs.List.{list_any};
ghost use Rattle.search_moves.specs.Places.{each_of};
ghost use Rattle.search_moves.specs.Entailments.{equation_instance as equation_instance_of, equation_instances};
ghost use Rattle.search_moves.specs.Entailments.{instance_at as instance_at_place, first_instance as first_instance_of};
ghost use Rattle.search_moves.specs.Entailments.{field_instance as field_instance_of, fields_with, field_instances};
ghost use Rattle.search_moves.specs.Entailments.{agree as agree_on, argument_instance as argument_instance_of};
ghost use Rattle.search_moves.specs.Entailments.{arguments_with, argument_instances, instance_rule};
ghost use Rattle.search_moves.specs.Instances.{is_rule_by, rules_once};

use cyc_basics::memory::OutOfMemory;
use heap_formula::{Pure, Rule, Spatial, Term};
use rule_table::{is_universal, same_term};
use std::alloc::Global;

/// An existential variable's number, and a term for it.
#[derive(Clone, Copy)]
pub struct Instance {
    pub variable: u16,
    pub term: Term,
}

/// By the other side of an equation of which just one side is an existential.
fn equation_instance(atom: Pure) -> Option<Instance>
    ensures { result ≡ equation_instance_of atom }
{
    match atom {
        Pure::Neq(_, _) => None,
        Pure::Eq(Term::Exist(_), Term::Exist(_)) => None,
        Pure::Eq(Term::Exist(variable), term) => Some(Instance { variable, term }),
        Pure::Eq(term, Term::Exist(variable)) => Some(Instance { variable, term }),
        Pure::Eq(_, _) => None,
    }
}

fn instance_at(term: Term, other: Term) -> Option<Instance>
    ensures { result ≡ instance_at_place term other }
{
    match other {
        Term::Nil | Term::Univ(_) => None,
        Term::Exist(variable) => Some(Instance { variable, term }),
    }
}

/// The first existential of the second list, by the term of the first at its place.
fn first_instance(terms: &[Term], others: &[Term]) -> Option<Instance>
    ensures { result ≡ first_instance_of terms.now others.now }
{
    for (k, term) in terms.iter().enumerate() {
        if k >= others.len() {
            return None;
        }
        if let Some(instance) = instance_at(*term, others[k]) {
            return Some(instance);
        }
    }
    None
}

/// Of two cells of one address and length.
fn field_instance(left: &Spatial, right: &Spatial) -> Option<Instance>
    ensures { result ≡ field_instance_of left.now right.now }
{
    match (left, right) {
        (Spatial::Cell(t, terms), Spatial::Cell(u, others)) => {
            if same_term(*t, *u) && terms.len() == others.len() {
                return first_instance(terms.as_slice(), others.as_slice());
            }
            None
        }
        _ => None,
    }
}

fn agrees(term: Term, other: Term) -> bool
    ensures { result ≡ (not (is_universal_term other) || same_terms term other) }
{
    !is_universal(other) || same_term(term, other)
}

/// Whether two lists are one wherever the second has no existential.
fn agree(terms: &[Term], others: &[Term]) -> bool
    ensures { result ≡ agree_on terms.now others.now }
{
    for (k, term) in terms.iter().enumerate() {
        if k >= others.len() {
            return true;
        }
        if !agrees(*term, others[k]) {
            return false;
        }
    }
    true
}

/// Of two atoms of one predicate that agree.
fn argument_instance(left: &Spatial, right: &Spatial) -> Option<Instance>
    ensures { result ≡ argument_instance_of left.now right.now }
{
    match (left, right) {
        (Spatial::Pred(p, terms), Spatial::Pred(q, others)) => {
            if *p == *q && agree(terms.as_slice(), others.as_slice()) {
                return first_instance(terms.as_slice(), others.as_slice());
            }
            None
        }
        _ => None,
    }
}

/// Instantiate by each such equation.
pub fn equation_rules(alloc: Global, pures: &[Pure]) -> Result<Vec<Rule>, OutOfMemory>
    ensures { IfOk result (λ v. v.items ≡ map instance_rule (equation_instances pures.now)) }
{
    let mut rules = Vec::new(alloc);
    for atom in pures {
        if let Some(instance) = equation_instance(*atom) {
            rules.push(Rule::Instantiate(instance.variable, instance.term))?;
        }
    }
    Ok(rules)
}

fn push_field_rules(
    rules: &mut Vec<Rule>,
    left: &Spatial,
    right: &[Spatial],
) -> Result<(), OutOfMemory>
    ensures { OnOk result (rules.new.items ≡ rules.old.items ++ map instance_rule (fields_with right.now left.now)) }
{
    for atom in right {
        if let Some(instance) = field_instance(left, atom) {
            rules.push(Rule::Instantiate(instance.variable, instance.term))?;
        }
    }
    Ok(())
}

/// Instantiate by the fields of the left cells, for those of the right cells.
pub fn field_rules(
    alloc: Global,
    left: &[Spatial],
    right: &[Spatial],
) -> Result<Vec<Rule>, OutOfMemory>
    ensures { IfOk result (λ v. v.items ≡ map instance_rule (field_instances left.now right.now)) }
{
    let mut rules = Vec::new(alloc);
    for atom in left {
        push_field_rules(&mut rules, atom, right)?;
    }
    Ok(rules)
}

/// Whether the rule is to instantiate by the instance.
fn is_rule_of(instance: Instance, rule: &Rule) -> bool
    ensures { result ≡ is_rule_by instance rule.now }
{
    match rule {
        Rule::Instantiate(v, term) => instance.variable == *v && same_term(instance.term, *term),
        _ => false,
    }
}

fn is_among(rules: &[Rule], instance: Instance) -> bool
    ensures { result ≡ list_any (is_rule_by instance) rules.now }
{
    for rule in rules {
        if is_rule_of(instance, rule) {
            return true;
        }
    }
    false
}

/// Appends the rules of the instances by the left atoms that are not among the rules yet.
fn push_argument_rules(
    rules: &mut Vec<Rule>,
    left: &[Spatial],
    right: &Spatial,
) -> Result<(), OutOfMemory>
    ensures { OnOk result (rules.new.items ≡ rules_once rules.old.items (arguments_with left.now right.now)) }
{
    for atom in left {
        if let Some(instance) = argument_instance(atom, right) {
            if !is_among(rules.as_slice(), instance) {
                rules.push(Rule::Instantiate(instance.variable, instance.term))?;
            }
        }
    }
    Ok(())
}

/// Instantiate by the arguments of the left atoms, for those of the right atoms; each rule once.
pub fn argument_rules(
    alloc: Global,
    left: &[Spatial],
    right: &[Spatial],
) -> Result<Vec<Rule>, OutOfMemory>
    ensures { IfOk result (λ v. v.items ≡ map instance_rule (argument_instances left.now right.now)) }
{
    let mut rules = Vec::new(alloc);
    for atom in right {
        push_argument_rules(&mut rules, left, atom)?;
    }
    Ok(rules)
}
