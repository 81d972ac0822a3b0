// The faults that come last.
ghost use Rattle.std.specs.Prelude.{◌≡◌, ◌≤◌, ◌+◌, ℕ, nat_le};
ghost use Rattle.std.specs.List.{list_all};
ghost use Rattle.fo_formula.specs.Sizes.{sequent_size};
ghost use Rattle.fo_formula.specs.Answered.{IsAnswer};
ghost use Rattle.fo_formula.specs.Answers.{is_short as short, is_small as small, limited as limited_answer};
ghost use Rattle.fo_formula.specs.declared.table.premises.FoPremise.{FoPremise as PremiseValue};
ghost use Rattle.fo_rules.specs.Capping.{capped};

use crate::parts::sizes::size_of_sequent;
use cyc_basics::limits::{MOST_LEFT, MOST_RIGHT, MOST_TERMS, PAST_MOST_TERMS};
use fo_formula::FoSequent;
use fo_formula::table::{FoFault, FoPremise, FoRuleError};

fn is_short(sequent: &FoSequent) -> bool
    ensures { result ≡ short sequent.now }
{
    sequent.left.as_slice().len() <= MOST_LEFT && sequent.right.as_slice().len() <= MOST_RIGHT
}

fn is_small(sequent: &FoSequent) -> bool
    ensures { result ≡ small sequent.now }
{
    size_of_sequent(sequent) <= MOST_TERMS
}

fn are_short(premises: &[FoPremise]) -> bool
    ensures { result ≡ list_all (λ (p : PremiseValue). short p.sequent) premises.now }
{
    for premise in premises {
        if !is_short(&premise.sequent) {
            return false;
        }
    }
    true
}

fn are_small(premises: &[FoPremise]) -> bool
    ensures { result ≡ list_all (λ (p : PremiseValue). small p.sequent) premises.now }
{
    for premise in premises {
        if !is_small(&premise.sequent) {
            return false;
        }
    }
    true
}

/// Whether the sequent with its reason's terms, of which the number is given up to 4,097, has at most 4,096 terms.
pub fn is_small_with(sequent: &FoSequent, carried: usize) -> bool
    requires { carried ≤ PAST_MOST_TERMS }
    ensures { (n : ℕ) → carried ≡ capped n → result ≡ nat_le (sequent_size sequent.now + n) MOST_TERMS }
{
    size_of_sequent(sequent) + carried <= MOST_TERMS
}

/// The premises, if none has too many atoms, and neither a premise nor the sequent with its reason's terms, of which
/// `carried` is the number up to 4,097, has too many terms.
pub fn limited(
    sequent: &FoSequent,
    carried: usize,
    premises: Vec<FoPremise>,
) -> Result<Vec<FoPremise>, FoRuleError>
    requires { carried ≤ PAST_MOST_TERMS }
    ensures { (n : ℕ) → carried ≡ capped n → IsAnswer result (limited_answer sequent.now n premises.items) }
{
    if !are_short(&premises) {
        return Err(FoRuleError::Fault(FoFault::TooManyAtoms));
    }
    if !is_small_with(sequent, carried) {
        return Err(FoRuleError::Fault(FoFault::TooManyTerms));
    }
    if !are_small(&premises) {
        return Err(FoRuleError::Fault(FoFault::TooManyTerms));
    }
    Ok(premises)
}
