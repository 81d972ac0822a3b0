// Terms with numbered variables, and where they stand.
ghost use Rattle.std.specs.Prelude.{◌+◌, ◌<◌, ◌^◌};
ghost use Rattle.cyc_lex.specs.declared.fault.What.TheVariants.{Variable};
ghost use Rattle.heap_syntax.specs.declared.definitions.tree.TermTree.TheVariants.{Univ};
ghost use Rattle.heap_reader.specs.Flaws.{IsWalk};
ghost use Rattle.heap_reader.specs.DefinitionFlaws.{term_flaw};
ghost use Rattle.heap_reader.specs.declared.definitions.scope.Scope.TheVariants.{Outside, End};

use crate::{Flaw, TermReader, ill, over};
use cyc_basics::limits::{GREATEST_PROGRAM_VARIABLE, GREATEST_VARIABLE};
use cyc_lex::{IllFault, What};
use heap_formula::Term;
use heap_syntax::definitions::TermTree;

/// Where a term stands: outside cases, in an end of a program, whose universal variables are the program's, or in a
/// case of a predicate with so many parameters, which may have so many local variables.
#[derive(Clone, Copy)]
pub enum Scope {
    Outside,
    End,
    Case { arity: u32, locals: u32 },
}

fn outside_number(at: usize, n: u32) -> Result<usize, Flaw>
    requires { at + 3 < 2 ^ 64 }
    ensures { IsWalk result (term_flaw Outside at (Univ n)) (at + 3) }
{
    if n > GREATEST_VARIABLE {
        return Err(over(What::Variable, at + 1));
    }
    Ok(at + 3)
}

fn end_variable(at: usize, n: u32) -> Result<usize, Flaw>
    requires { at + 3 < 2 ^ 64 }
    ensures { IsWalk result (term_flaw End at (Univ n)) (at + 3) }
{
    if n > GREATEST_PROGRAM_VARIABLE {
        return Err(over(What::ProgramVariables, at + 1));
    }
    Ok(at + 3)
}

impl TermReader for Scope {
    ghost use Rattle.heap_reader.specs.DefinitionSpans as spans;
    ghost use Rattle.heap_reader.specs.DefinitionFlaws as flaws;
    ghost use Rattle.heap_reader.specs.DefinitionValues as values;

    type Term = TermTree;

    ghost span = { spans.term_span };

    ghost flaw = { flaws.term_flaw };

    ghost value = { values.term_value };

    fn walk(&self, at: usize, term: TermTree) -> Result<usize, Flaw> {
        match (*self, term) {
            (_, TermTree::Nil) => Ok(at + 2),
            (Scope::Outside, TermTree::Univ(n)) => outside_number(at, n),
            (Scope::Outside | Scope::End, TermTree::Exist(n)) => outside_number(at, n),
            (Scope::End, TermTree::Univ(n)) => end_variable(at, n),
            (Scope::Case { arity, .. }, TermTree::Univ(n)) => {
                if n >= arity {
                    return Err(ill(IllFault::Parameter, at + 1));
                }
                Ok(at + 3)
            }
            (Scope::Case { locals, .. }, TermTree::Exist(n)) => {
                if n >= locals {
                    return Err(over(What::Locals, at + 1));
                }
                Ok(at + 3)
            }
        }
    }

    fn value(&self, term: TermTree) -> Term {
        match term {
            TermTree::Nil => Term::Nil,
            TermTree::Univ(n) => Term::Univ(n as u16),
            TermTree::Exist(n) => Term::Exist(n as u16),
        }
    }
}
