// An antecedent that no state satisfies.
ghost use Rattle.std.specs.Prelude.{◌≡◌, IfOk, List};
ghost use Rattle.heap_formula.specs.declared.commands.Command.{Command};
ghost use Rattle.heap_formula.specs.Definitions.{Definition};
ghost use Rattle.heap_formula.specs.Judgements.{IsLocallySound};
ghost use Rattle.rule_table.specs.Answered.{IsAnswer};
ghost use Rattle.rule_table.specs.Table.{absurd_answer};
ghost use Rattle.rule_table.specs.Tests.{is_contradiction as contradiction, some_contradiction as contradictions};
ghost use Rattle.rule_table.specs.Tests.{is_cell_at as cell_at, some_cell_at as cells_at, also_later as later_cell};
ghost use Rattle.rule_table.specs.Tests.{two_cells as cells_meet, is_absurd as absurd_heap};

use heap_formula::{Heap, Judgement, Premise, Pure, RuleError, RuleFault, Spatial, Term};
use rule_table::{antecedent, same_term};
use std::alloc::Global;

fn is_contradiction(atom: Pure) -> bool
    ensures { result ≡ contradiction atom }
{
    match atom {
        Pure::Eq(_, _) => false,
        Pure::Neq(t, u) => same_term(t, u),
    }
}

fn some_contradiction(atoms: &[Pure]) -> bool
    ensures { result ≡ contradictions atoms.now }
{
    for atom in atoms {
        if is_contradiction(*atom) {
            return true;
        }
    }
    false
}

fn is_cell_at(u: Term, atom: &Spatial) -> bool
    ensures { result ≡ cell_at u atom.now }
{
    match atom {
        Spatial::Cell(t, _) => same_term(*t, u),
        Spatial::Pred(_, _) => false,
    }
}

fn some_cell_at(u: Term, atoms: &[Spatial]) -> bool
    ensures { result ≡ cells_at u atoms.now }
{
    for atom in atoms {
        if is_cell_at(u, atom) {
            return true;
        }
    }
    false
}

fn also_later(atom: &Spatial, later: &[Spatial]) -> bool
    ensures { result ≡ later_cell atom.now later.now }
{
    match atom {
        Spatial::Cell(t, _) => some_cell_at(*t, later),
        Spatial::Pred(_, _) => false,
    }
}

fn two_cells(atoms: &[Spatial]) -> bool
    ensures { result ≡ cells_meet atoms.now }
{
    for (i, atom) in atoms.iter().enumerate() {
        if also_later(atom, &atoms[i + 1..]) {
            return true;
        }
    }
    false
}

fn is_absurd(a: &Heap) -> bool
    ensures { result ≡ absurd_heap a.now }
{
    some_contradiction(a.pure()) || some_cell_at(Term::Nil, a.spatial()) || two_cells(a.spatial())
}

fn absurd(alloc: Global, judgement: &Judgement) -> Result<Vec<Premise>, RuleError>
    ensures { IsAnswer result (absurd_answer judgement.now) }
{
    if is_absurd(antecedent(judgement)) {
        Ok(Vec::new(alloc))
    } else {
        Err(RuleError::Fault(RuleFault::NotAbsurd))
    }
}

/// No premise, where the antecedent has a term that differs from itself, a cell at `nil`, or two cells at one term.
pub fn premises_absurd(
    alloc: Global,
    judgement: &Judgement,
    _p: u16,
) -> Result<Vec<Premise>, RuleError>
    ensures answer { IsAnswer result (absurd_answer judgement.now) }
    ensures sound { IfOk result (λ v. (ds : List Definition) (lines : List Command)
        → IsLocallySound ds lines judgement.now v.items) }
{
    absurd(alloc, judgement)
}
