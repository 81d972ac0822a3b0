//! The terms, spatial atoms and program variables of problem files.

ghost use Rattle.cyc_grammar.specs.Giving.{Gives};
ghost use Rattle.problem_syntax.specs.Grammar.{primes, behind_address, spatial, term};
ghost use Rattle.problem_syntax.specs.Trees.{named_of};
ghost use Rattle.std.specs.Prelude.{map};

use crate::tree::NameTree;
use cyc_grammar::{Cursor, Refusal};
use heap_syntax::lines::VariableForm;
use heap_syntax::{AtomForm, SpatialTree, TermForm, arguments, fields, free_name, reserved_words};
use std::alloc::Global;

/// Names as terms, with primes where `primed` says so.
#[derive(Clone, Copy)]
pub struct NameForm {
    pub primed: bool,
}

/// Whether there is a prime, which is taken.
#[tactic(auto, unfolding(crate::specs::Grammar::primes))]
fn prime(primed: bool, cursor: &mut Cursor<'_, '_>) -> Result<bool, Refusal>
    ensures { Gives (λ x. (x, cursor.new)) result ((primes primed).read cursor.old) }
{
    if primed {
        if cursor.is_symbol_next("'") {
            cursor.symbol("'")?;
            return Ok(true);
        }
        return Ok(false);
    }
    Ok(false)
}

impl<'a> TermForm<'a> for NameForm {
    ghost use Rattle.problem_syntax.specs.Trees.{Named, named_of};
    ghost use Rattle.problem_syntax.specs.Grammar as grammar;

    type Term = NameTree<'a>;

    ghost Value = { Named };

    ghost seen = { named_of };

    ghost terms = { λ form. grammar.terms form.primed };

    ghost atoms = { λ form. grammar.spatial form.primed };

    #[tactic(auto, unfolding(crate::specs::Grammar::term))]
    fn read_term(&self, cursor: &mut Cursor<'_, 'a>) -> Result<NameTree<'a>, Refusal> {
        if cursor.is_keyword_next("nil") {
            cursor.keyword("nil")?;
            return Ok(NameTree::Nil);
        }
        let name = free_name(cursor)?;
        if prime(self.primed, cursor)? {
            return Ok(NameTree::Primed(name));
        }
        Ok(NameTree::Plain(name))
    }
}

/// The fields of a cell, after its address.
fn cell_fields<'a>(
    alloc: Global,
    primed: bool,
    cursor: &mut Cursor<'_, 'a>,
) -> Result<Vec<NameTree<'a>>, Refusal>
    ensures { Gives (λ x. (map named_of x.items, cursor.new)) result ((behind_address primed).read cursor.old) }
{
    cursor.symbol("->")?;
    cursor.symbol("(")?;
    fields(alloc, &NameForm { primed }, cursor)
}

impl<'a> AtomForm<'a> for NameForm {
    #[tactic(auto, unfolding(crate::specs::Grammar::spatial, crate::specs::Grammar::behind_name))]
    fn read_atom(
        &self,
        alloc: Global,
        cursor: &mut Cursor<'_, 'a>,
    ) -> Result<SpatialTree<'a, NameTree<'a>>, Refusal> {
        if cursor.is_name_next(reserved_words()) {
            let name = free_name(cursor)?;
            if cursor.is_symbol_next("(") {
                cursor.symbol("(")?;
                return Ok(SpatialTree::Predicate(name, arguments(alloc, self, cursor)?));
            }
            if prime(self.primed, cursor)? {
                let fields = cell_fields(alloc, self.primed, cursor)?;
                return Ok(SpatialTree::Cell(NameTree::Primed(name), fields));
            }
            let fields = cell_fields(alloc, self.primed, cursor)?;
            return Ok(SpatialTree::Cell(NameTree::Plain(name), fields));
        }
        cursor.keyword("nil")?;
        let fields = cell_fields(alloc, self.primed, cursor)?;
        Ok(SpatialTree::Cell(NameTree::Nil, fields))
    }
}

/// Names as program variables.
#[derive(Clone, Copy)]
pub struct NameVariables;

impl<'a> VariableForm<'a> for NameVariables {
    ghost use Rattle.std.specs.Prelude.{ℕ, List};
    ghost use Rattle.cyc_grammar.specs.Syntax.{one};
    ghost use Rattle.heap_syntax.specs.Words as words;
    ghost use Rattle.problem_syntax.specs.Trees.{text_of};

    type Variable = &'a str;

    ghost Value = { List ℕ };

    ghost seen = { text_of };

    ghost variables = { λ _. one words.free_name };

    fn read_variable(&self, cursor: &mut Cursor<'_, 'a>) -> Result<&'a str, Refusal> {
        free_name(cursor)
    }
}
