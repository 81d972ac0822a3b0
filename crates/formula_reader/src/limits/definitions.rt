// Definitions that a text may have.
ghost use Rattle.std.specs.Prelude.{◌≡◌, ◌≤◌, length};
ghost use Rattle.formula_reader.specs.Excess.{first_of, case_excess as excess_of_case, case_at};
ghost use Rattle.formula_reader.specs.Excess.{definition_excess as excess_of_definition};
ghost use Rattle.formula_reader.specs.Excess.{definitions_excess as excess_of_definitions};

use crate::limits::excess::{CaseExcess, DefinitionExcess, ProblemExcess};
use crate::limits::heaps::heap_excess;
use crate::limits::names::{has_name, is_free_name};
use cyc_basics::limits::MOST_PREDICATES;
use heap_formula::{Def, Heap, bound_of_heap, exists_in_heap};
use pred_defs::Defs;

fn case_excess(defs: &Defs, arity: u32, case: &Heap) -> Option<CaseExcess>
    ensures { result ≡ excess_of_case defs.now.most defs.now.list arity case.now }
{
    if let Some(excess) = heap_excess(defs, case) {
        return Some(CaseExcess::Heap(excess));
    }
    if bound_of_heap(case) > arity {
        return Some(CaseExcess::Parameter);
    }
    if exists_in_heap(case) > defs.most().locals {
        return Some(CaseExcess::Locals);
    }
    None
}

fn cases_excess(defs: &Defs, arity: u32, cases: &[Heap]) -> Option<DefinitionExcess>
    ensures { result ≡ first_of (case_at defs.now.most defs.now.list arity) 0 cases.now }
{
    for (place, case) in cases.iter().enumerate() {
        if let Some(excess) = case_excess(defs, arity, case) {
            return Some(DefinitionExcess::Case(place, excess));
        }
    }
    None
}

fn definition_excess(defs: &Defs, place: usize, def: &Def) -> Option<DefinitionExcess>
    requires { place ≤ length defs.now.list }
    ensures { result ≡ excess_of_definition defs.now.most defs.now.list place def.now }
{
    let name = def.name.as_text();
    if !is_free_name(name) {
        return Some(DefinitionExcess::Name);
    }
    if has_name(&defs.as_slice()[..place], name) {
        return Some(DefinitionExcess::Duplicate);
    }
    if def.arity > defs.most().arguments {
        return Some(DefinitionExcess::Parameters);
    }
    let cases = def.cases.heaps();
    if cases.is_empty() || cases.len() > defs.most().cases as usize {
        return Some(DefinitionExcess::Cases);
    }
    cases_excess(defs, def.arity, cases)
}

/// The first limit of the formats that the definitions pass, in their order.
pub fn definitions_excess(defs: &Defs) -> Option<ProblemExcess>
    ensures first { result ≡ excess_of_definitions defs.now.most defs.now.list }
    ensures few { length defs.now.list ≤ MOST_PREDICATES }
{
    for (place, def) in defs.as_slice().iter().enumerate() {
        if let Some(excess) = definition_excess(defs, place, def) {
            return Some(ProblemExcess::Definition(place, excess));
        }
    }
    None
}
