// The cases of a pure formula below a negation, or of its negation.
ghost use Rattle.std.specs.Prelude.{◌≡◌, IfOk};
ghost use Rattle.script_formulas.specs.Forms.{signed as signed_atom, truth as truth_cases, literals};
ghost use Rattle.script_formulas.specs.Formulas.{formula_of};

use crate::cases::case::Case;
use crate::cases::joining::{Way, all_cases, joined_cases};
use crate::cases::refused::{Refused, Unsupported};
use crate::{Pure, ScriptFormula};
use std::alloc::Global;

/// The atom itself, or its negation.
fn signed(is_positive: bool, atom: Pure) -> Pure
    ensures { result ≡ signed_atom is_positive atom }
{
    match (is_positive, atom) {
        (true, _) => atom,
        (false, Pure::Eq(t, u)) => Pure::Neq(t, u),
        (false, Pure::Neq(t, u)) => Pure::Eq(t, u),
    }
}

fn truth(alloc: Global, is_true: bool) -> Result<Vec<Case>, Refused>
    ensures { IfOk result (λ cs. cs.items ≡ truth_cases is_true) }
{
    let mut made = Vec::new(alloc);
    if is_true {
        made.push(Case::open(alloc))?;
    }
    Ok(made)
}

/// The cases of a formula without quantifiers that says nothing of the heap, or of its negation.
pub fn literals_of(
    alloc: Global,
    is_positive: bool,
    depth: u16,
    formula: &ScriptFormula,
) -> Result<Vec<Case>, Refused>
    ensures { IfOk result (λ cs. literals is_positive depth (formula_of formula.now) ≡ Ok cs.items) }
{
    match formula {
        ScriptFormula::True => truth(alloc, is_positive),
        ScriptFormula::False => truth(alloc, !is_positive),
        ScriptFormula::Pure(atom) => {
            let mut made = Vec::new(alloc);
            made.push(Case::of_pure(alloc, signed(is_positive, *atom))?)?;
            Ok(made)
        }
        ScriptFormula::Not(f) => literals_of(alloc, !is_positive, depth, f),
        ScriptFormula::And(f, g) => {
            let first = literals_of(alloc, is_positive, depth, f)?;
            let second = literals_of(alloc, is_positive, depth, g)?;
            if is_positive {
                joined_cases(alloc, Way::Conjunction, depth, &first, &second)
            } else {
                all_cases(first, second)
            }
        }
        ScriptFormula::Or(f, g) => {
            let first = literals_of(alloc, is_positive, depth, f)?;
            let second = literals_of(alloc, is_positive, depth, g)?;
            if is_positive {
                all_cases(first, second)
            } else {
                joined_cases(alloc, Way::Conjunction, depth, &first, &second)
            }
        }
        ScriptFormula::Exists(_, _) => Err(Refused::Unsupported(Unsupported::Universal)),
        ScriptFormula::Empty | ScriptFormula::Atom(_) | ScriptFormula::Sep(_, _) => {
            Err(Refused::Unsupported(Unsupported::Negation))
        }
    }
}
