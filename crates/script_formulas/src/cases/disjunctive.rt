// The disjunctive form of a formula.
ghost use Rattle.std.specs.Prelude.{◌≡◌, IfOk};
ghost use Rattle.script_formulas.specs.Formulas.{formula_of};
ghost use Rattle.script_formulas.specs.Forms.{formula_cases};
ghost use Rattle.script_formulas.specs.Scope.{AreFine};
ghost use Rattle.script_formulas.specs.Holding.{IsDisjunctiveForm, IsStagedForm};

use crate::ScriptFormula;
use crate::cases::bound::is_bound;
use crate::cases::case::Case;
use crate::cases::cases::cases_of;
use crate::cases::refused::{Refused, Unsupported};
use std::alloc::Global;

/// The cases of the formula of an assert, or of the body of a predicate. It holds where one of them does, exactly.
pub fn disjunctive_form(alloc: Global, formula: &ScriptFormula) -> Result<Vec<Case>, Refused>
    ensures form { IfOk result (λ cs. formula_cases 0 (formula_of formula.now) ≡ Ok cs.items) }
    ensures fine { IfOk result (λ cs. AreFine 0 cs.items) }
    ensures meaning { IfOk result (λ cs. IsDisjunctiveForm (formula_of formula.now) cs.items) }
    ensures staged { IfOk result (λ cs. IsStagedForm (formula_of formula.now) cs.items) }
{
    if !is_bound(0, formula) {
        return Err(Refused::Unsupported(Unsupported::Unbound));
    }
    cases_of(alloc, 0, formula)
}
