//! The terms and the program variables of problem files once they are numbered.

ghost use Rattle.std.specs.Prelude.{◌≡◌, ◌+◌, ◌<◌, ◌^◌, nat_lt};
ghost use Rattle.cyc_lex.specs.declared.fault.What.TheVariants.{Variable, ProgramVariables};
ghost use Rattle.heap_reader.specs.Flaws.{over_if, IsWalk};
ghost use Rattle.formula_reader.specs.Spans.{name_span};

use cyc_basics::limits::{GREATEST_PROGRAM_VARIABLE, GREATEST_VARIABLE};
use cyc_lex::{IllFault, What};
use heap_formula::Term;
use heap_reader::lines::VariableReader;
use heap_reader::{Flaw, TermReader, ill, over};
use problem_syntax::numbering::NumberedTerm;

/// Where a term stands: in the goal, in an end of the program, whose universal variables are the program's, or in a
/// case of a predicate with so many parameters, which may have so many local variables.
#[derive(Clone, Copy)]
pub enum Scope {
    Goal,
    End,
    Case { arity: usize, locals: u32 },
}

/// The token after a variable and the one that follows it.
fn behind(at: usize, primed: bool) -> usize
    requires { at + name_span primed < 2 ^ 64 }
    ensures { result ≡ at + name_span primed }
{
    if primed { at + 3 } else { at + 2 }
}

fn goal_number(at: usize, n: usize, primed: bool) -> Result<usize, Flaw>
    requires { at + name_span primed < 2 ^ 64 }
    ensures { IsWalk result (over_if (nat_lt GREATEST_VARIABLE n) Variable at) (at + name_span primed) }
{
    if n > GREATEST_VARIABLE as usize {
        return Err(over(What::Variable, at));
    }
    Ok(behind(at, primed))
}

fn end_variable(at: usize, n: usize, primed: bool) -> Result<usize, Flaw>
    requires { at + name_span primed < 2 ^ 64 }
    ensures { IsWalk result
        (over_if (nat_lt GREATEST_PROGRAM_VARIABLE n) ProgramVariables at) (at + name_span primed) }
{
    if n > GREATEST_PROGRAM_VARIABLE as usize {
        return Err(over(What::ProgramVariables, at));
    }
    Ok(behind(at, primed))
}

impl TermReader for Scope {
    ghost use Rattle.formula_reader.specs.Spans as spans;
    ghost use Rattle.formula_reader.specs.Flaws as flaws;
    ghost use Rattle.formula_reader.specs.Values as values;

    type Term = NumberedTerm;

    ghost span = { spans.term_span };

    ghost flaw = { flaws.term_flaw };

    ghost value = { values.term_value };

    fn walk(&self, at: usize, term: NumberedTerm) -> Result<usize, Flaw> {
        match (*self, term) {
            (_, NumberedTerm::Nil) => Ok(at + 2),
            (Scope::Goal, NumberedTerm::Universal(n, primed)) => goal_number(at, n, primed),
            (Scope::Goal | Scope::End, NumberedTerm::Existential(n, primed)) => {
                goal_number(at, n, primed)
            }
            (Scope::End, NumberedTerm::Universal(n, primed)) => end_variable(at, n, primed),
            (Scope::Case { arity, .. }, NumberedTerm::Universal(n, primed)) => {
                if n >= arity {
                    return Err(ill(IllFault::Parameter, at));
                }
                Ok(behind(at, primed))
            }
            (Scope::Case { locals, .. }, NumberedTerm::Existential(n, primed)) => {
                if n >= locals as usize {
                    return Err(over(What::Locals, at));
                }
                Ok(behind(at, primed))
            }
        }
    }

    fn value(&self, term: NumberedTerm) -> Term {
        match term {
            NumberedTerm::Nil => Term::Nil,
            NumberedTerm::Universal(n, _) => Term::Univ(n as u16),
            NumberedTerm::Existential(n, _) => Term::Exist(n as u16),
        }
    }
}

/// Program variables by their numbers.
#[derive(Clone, Copy)]
pub struct Variables;

impl VariableReader for Variables {
    ghost use Rattle.formula_reader.specs.Spans as spans;
    ghost use Rattle.formula_reader.specs.Flaws as flaws;
    ghost use Rattle.heap_reader.specs.LineValues as values;

    type Variable = usize;

    ghost span = { spans.variable_span };

    ghost flaw = { λ form. flaws.variable_flaw };

    ghost value = { values.variable_value };

    fn walk(&self, at: usize, variable: usize) -> Result<usize, Flaw> {
        if variable > GREATEST_PROGRAM_VARIABLE as usize {
            return Err(over(What::ProgramVariables, at));
        }
        Ok(at + 2)
    }

    fn value(&self, variable: usize) -> u16 {
        variable as u16
    }
}
