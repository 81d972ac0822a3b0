//! Terms with numbered variables: reading and writing them.

ghost use Rattle.std.specs.Prelude.{◌≡◌, OnOk};
ghost use Rattle.cyc_lex.specs.Writing.{write_all};
ghost use Rattle.cyc_grammar.specs.Giving.{Gives};
ghost use Rattle.heap_syntax.specs.DefinitionGrammar.{term, uterm, terms};

use crate::definitions::tree::TermTree;
use crate::{AtomForm, SpatialTree, TermForm, WrittenForm, spatial};
use cyc_basics::memory::OutOfMemory;
use cyc_grammar::{Cursor, Refusal};
use cyc_lex::WordWriter;
use std::alloc::Global;

#[tactic(auto, unfolding(crate::specs::DefinitionGrammar::term))]
fn any_term(cursor: &mut Cursor<'_, '_>) -> Result<TermTree, Refusal>
    ensures { Gives (λ x. (x, cursor.new)) result (term.read cursor.old) }
{
    if cursor.is_keyword_next("nil") {
        cursor.keyword("nil")?;
        return Ok(TermTree::Nil);
    }
    if cursor.is_symbol_next("$") {
        cursor.symbol("$")?;
        return Ok(TermTree::Univ(cursor.number()?));
    }
    cursor.symbol("?")?;
    Ok(TermTree::Exist(cursor.number()?))
}

/// Reads a term without existential variables.
#[tactic(auto, unfolding(crate::specs::DefinitionGrammar::uterm))]
pub fn universal_term(cursor: &mut Cursor<'_, '_>) -> Result<TermTree, Refusal>
    ensures { Gives (λ x. (x, cursor.new)) result (uterm.read cursor.old) }
{
    if cursor.is_keyword_next("nil") {
        cursor.keyword("nil")?;
        return Ok(TermTree::Nil);
    }
    cursor.symbol("$")?;
    Ok(TermTree::Univ(cursor.number()?))
}

/// The terms of an antecedent, where `universal` says so, or else all terms.
#[derive(Clone, Copy)]
pub struct NumberedForm {
    pub universal: bool,
}

impl<'a> TermForm<'a> for NumberedForm {
    ghost use Rattle.heap_syntax.specs.declared.definitions.tree.TermTree.{TermTree};
    ghost use Rattle.heap_syntax.specs.DefinitionGrammar as grammar;

    type Term = TermTree;

    ghost Value = { TermTree };

    ghost seen = { λ t. t };

    ghost terms = { λ form. grammar.terms_of (grammar.terms form.universal) };

    ghost atoms = { λ form. grammar.spatial (grammar.terms form.universal) };

    #[tactic(auto, unfolding(crate::specs::DefinitionGrammar::terms))]
    fn read_term(&self, cursor: &mut Cursor<'_, 'a>) -> Result<TermTree, Refusal> {
        if self.universal {
            universal_term(cursor)
        } else {
            any_term(cursor)
        }
    }
}

impl<'a> AtomForm<'a> for NumberedForm {
    fn read_atom(
        &self,
        alloc: Global,
        cursor: &mut Cursor<'_, 'a>,
    ) -> Result<SpatialTree<'a, TermTree>, Refusal> {
        spatial(alloc, self, cursor)
    }
}

#[tactic(auto, unfolding(crate::specs::DefinitionGrammar::term, cyc_lex::specs::Writing::write_all))]
fn write_any_term(tree: TermTree, writer: &mut WordWriter) -> Result<(), OutOfMemory>
    ensures { OnOk result (writer.new ≡ write_all writer.old (term.words tree)) }
{
    match tree {
        TermTree::Nil => writer.name("nil"),
        TermTree::Univ(number) => {
            writer.symbol("$")?;
            writer.number(number)
        }
        TermTree::Exist(number) => {
            writer.symbol("?")?;
            writer.number(number)
        }
    }
}

/// Writes a term without existential variables.
pub fn write_universal_term(tree: TermTree, writer: &mut WordWriter) -> Result<(), OutOfMemory>
    requires { uterm.fits tree }
    ensures { OnOk result (writer.new ≡ write_all writer.old (uterm.words tree)) }
{
    write_any_term(tree, writer)
}

impl<'a> WrittenForm<'a> for NumberedForm {
    fn write_term(&self, tree: TermTree, writer: &mut WordWriter) -> Result<(), OutOfMemory> {
        write_any_term(tree, writer)
    }
}
