//! Lists of terms, and the entries of a substitution.

ghost use Rattle.std.specs.Prelude.{◌≡◌, map, OnOk};
ghost use Rattle.cyc_lex.specs.Writing.{write_all};
ghost use Rattle.cyc_grammar.specs.Giving.{Gives};
ghost use Rattle.fo_syntax.specs.ProofGrammar.{terms, entry, entries};
ghost use Rattle.fo_syntax.specs.ProofTrees.{signs_of, entry_of};

use crate::problems::{Item, listed, write_listed};
use crate::proofs::tree::PairTree;
use crate::terms::{SignTree, term, write_term};
use cyc_basics::memory::OutOfMemory;
use cyc_grammar::{Cursor, Refusal};
use cyc_lex::WordWriter;
use heap_syntax::Mark;
use std::alloc::Global;

/// TermKind without locals.
#[derive(Clone, Copy)]
struct TermKind;

impl<'a> Item<'a> for TermKind {
    ghost use Rattle.std.specs.Prelude.{List, false};
    ghost use Rattle.fo_syntax.specs.Trees.{Sign};
    ghost use Rattle.fo_syntax.specs.Grammar.{term};
    ghost use Rattle.fo_syntax.specs.ProofTrees.{signs_of};

    type Tree = Vec<SignTree<'a>>;

    ghost Value = { List Sign };

    ghost seen = { signs_of };

    ghost syntax = { λ _. term false };

    fn read_item(
        &self,
        alloc: Global,
        cursor: &mut Cursor<'_, 'a>,
    ) -> Result<Vec<SignTree<'a>>, Refusal> {
        term(alloc, false, cursor)
    }

    fn write_item(
        &self,
        alloc: Global,
        tree: &Vec<SignTree<'a>>,
        writer: &mut WordWriter,
    ) -> Result<(), OutOfMemory> {
        write_term(alloc, false, tree, writer)
    }
}

/// Reads terms and the closing bracket.
#[tactic(auto, unfolding(crate::specs::ProofGrammar::terms))]
pub fn terms<'a>(
    alloc: Global,
    cursor: &mut Cursor<'_, 'a>,
) -> Result<Vec<Vec<SignTree<'a>>>, Refusal>
    ensures { Gives (λ x. (map signs_of x.items, cursor.new)) result (terms.read cursor.old) }
{
    if cursor.is_symbol_next("]") {
        cursor.symbol("]")?;
        return Ok(Vec::new(alloc));
    }
    let items = listed(alloc, &Mark::Symbol(","), &TermKind, cursor)?;
    cursor.symbol("]")?;
    Ok(items)
}

/// Writes terms and the closing bracket.
#[tactic(auto, using(cyc_lex::proofs::WritingLaws::write_all_on), unfolding(crate::specs::ProofGrammar::terms, cyc_lex::specs::Writing::write_all))]
pub fn write_terms(
    alloc: Global,
    trees: &[Vec<SignTree<'_>>],
    writer: &mut WordWriter,
) -> Result<(), OutOfMemory>
    requires { terms.fits (map signs_of trees.now) }
    ensures { OnOk result (writer.new ≡ write_all writer.old (terms.words (map signs_of trees.now))) }
{
    match trees {
        [] => writer.symbol("]"),
        _ => {
            write_listed(alloc, &Mark::Symbol(","), &TermKind, trees, writer)?;
            writer.symbol("]")
        }
    }
}

#[tactic(auto, unfolding(crate::specs::ProofGrammar::entry))]
fn entry<'a>(alloc: Global, cursor: &mut Cursor<'_, 'a>) -> Result<PairTree<'a>, Refusal>
    ensures { Gives (λ x. (entry_of x, cursor.new)) result (entry.read cursor.old) }
{
    cursor.symbol("$")?;
    let variable = cursor.number()?;
    cursor.symbol(":=")?;
    let value = term(alloc, false, cursor)?;
    Ok(PairTree { variable, value })
}

#[tactic(auto, unfolding(crate::specs::ProofGrammar::entry, cyc_lex::specs::Writing::write_all))]
fn write_entry(
    alloc: Global,
    tree: &PairTree<'_>,
    writer: &mut WordWriter,
) -> Result<(), OutOfMemory>
    requires { entry.fits (entry_of tree.now) }
    ensures { OnOk result (writer.new ≡ write_all writer.old (entry.words (entry_of tree.now))) }
{
    writer.symbol("$")?;
    writer.number(tree.variable)?;
    writer.symbol(":=")?;
    write_term(alloc, false, &tree.value, writer)
}

/// EntryKind of a substitution.
#[derive(Clone, Copy)]
struct EntryKind;

impl<'a> Item<'a> for EntryKind {
    ghost use Rattle.fo_syntax.specs.ProofTrees.{Entry, entry_of};
    ghost use Rattle.fo_syntax.specs.ProofGrammar as grammar;

    type Tree = PairTree<'a>;

    ghost Value = { Entry };

    ghost seen = { entry_of };

    ghost syntax = { λ _. grammar.entry };

    fn read_item(
        &self,
        alloc: Global,
        cursor: &mut Cursor<'_, 'a>,
    ) -> Result<PairTree<'a>, Refusal> {
        entry(alloc, cursor)
    }

    fn write_item(
        &self,
        alloc: Global,
        tree: &PairTree<'a>,
        writer: &mut WordWriter,
    ) -> Result<(), OutOfMemory> {
        write_entry(alloc, tree, writer)
    }
}

/// Reads the entries of a substitution and the closing brace.
#[tactic(auto, unfolding(crate::specs::ProofGrammar::entries))]
pub fn entries<'a>(alloc: Global, cursor: &mut Cursor<'_, 'a>) -> Result<Vec<PairTree<'a>>, Refusal>
    ensures { Gives (λ x. (map entry_of x.items, cursor.new)) result (entries.read cursor.old) }
{
    if cursor.is_symbol_next("}") {
        cursor.symbol("}")?;
        return Ok(Vec::new(alloc));
    }
    let items = listed(alloc, &Mark::Symbol(","), &EntryKind, cursor)?;
    cursor.symbol("}")?;
    Ok(items)
}

/// Writes the entries of a substitution and the closing brace.
#[tactic(auto, using(cyc_lex::proofs::WritingLaws::write_all_on), unfolding(crate::specs::ProofGrammar::entries, cyc_lex::specs::Writing::write_all))]
pub fn write_entries(
    alloc: Global,
    trees: &[PairTree<'_>],
    writer: &mut WordWriter,
) -> Result<(), OutOfMemory>
    requires { entries.fits (map entry_of trees.now) }
    ensures { OnOk result (writer.new ≡ write_all writer.old (entries.words (map entry_of trees.now))) }
{
    match trees {
        [] => writer.symbol("}"),
        _ => {
            write_listed(alloc, &Mark::Symbol(","), &EntryKind, trees, writer)?;
            writer.symbol("}")
        }
    }
}
