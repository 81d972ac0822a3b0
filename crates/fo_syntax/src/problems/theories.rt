//! Constructors and definitions.

ghost use Rattle.std.specs.Prelude.{◌≡◌, map, OnOk};
ghost use Rattle.cyc_lex.specs.Writing.{write_all};
ghost use Rattle.cyc_grammar.specs.Giving.{Gives};
ghost use Rattle.fo_syntax.specs.ProblemGrammar.{con, constructors, cases, definition, definitions};
ghost use Rattle.fo_syntax.specs.ProblemTrees.{atoms_of, constructor_of, definition_of};

use crate::problems::atom_lists::{atoms_or, write_atoms_or};
use crate::problems::item::{Item, listed, more_statements, write_listed, write_statements};
use crate::problems::tree::{ConstructorTree, DefinitionTree};
use crate::terms::{AtomTree, free_name};
use cyc_basics::memory::OutOfMemory;
use cyc_grammar::{Cursor, Refusal};
use cyc_lex::WordWriter;
use heap_syntax::Mark;
use std::alloc::Global;

#[tactic(auto, unfolding(crate::specs::ProblemGrammar::con))]
fn con<'a>(cursor: &mut Cursor<'_, 'a>) -> Result<ConstructorTree<'a>, Refusal>
    ensures { Gives (λ x. (constructor_of x, cursor.new)) result (con.read cursor.old) }
{
    cursor.keyword("con")?;
    let name = free_name(cursor)?;
    let arguments = cursor.number()?;
    cursor.symbol(";")?;
    Ok(ConstructorTree { name, arguments })
}

#[tactic(auto, unfolding(crate::specs::ProblemGrammar::con, cyc_lex::specs::Writing::write_all))]
fn write_con(tree: &ConstructorTree<'_>, writer: &mut WordWriter) -> Result<(), OutOfMemory>
    requires { con.fits (constructor_of tree.now) }
    ensures { OnOk result (writer.new ≡ write_all writer.old (con.words (constructor_of tree.now))) }
{
    writer.name("con")?;
    writer.name(tree.name)?;
    writer.number(tree.arguments)?;
    writer.symbol(";")
}

#[derive(Clone, Copy)]
struct ConstructorKind;

impl<'a> Item<'a> for ConstructorKind {
    ghost use Rattle.fo_syntax.specs.ProblemTrees.{Constructor, constructor_of};
    ghost use Rattle.fo_syntax.specs.ProblemGrammar.{con};

    type Tree = ConstructorTree<'a>;

    ghost Value = { Constructor };

    ghost seen = { constructor_of };

    ghost syntax = { λ _. con };

    fn read_item(
        &self,
        _alloc: Global,
        cursor: &mut Cursor<'_, 'a>,
    ) -> Result<ConstructorTree<'a>, Refusal> {
        con(cursor)
    }

    fn write_item(
        &self,
        _alloc: Global,
        tree: &ConstructorTree<'a>,
        writer: &mut WordWriter,
    ) -> Result<(), OutOfMemory> {
        write_con(tree, writer)
    }
}

/// Reads the constructors, of which there is one at least.
#[tactic(auto, unfolding(crate::specs::ProblemGrammar::constructors))]
pub fn constructors<'a>(
    alloc: Global,
    cursor: &mut Cursor<'_, 'a>,
) -> Result<Vec<ConstructorTree<'a>>, Refusal>
    ensures { Gives (λ x. (map constructor_of x.items, cursor.new)) result (constructors.read cursor.old) }
{
    let mut items = Vec::new(alloc);
    items.push(con(cursor)?)?;
    more_statements(alloc, "con", &ConstructorKind, items, cursor)
}

/// Writes the constructors.
#[tactic(auto, using(cyc_lex::proofs::WritingLaws::write_all_on), unfolding(crate::specs::ProblemGrammar::constructors))]
pub fn write_constructors(
    alloc: Global,
    trees: &[ConstructorTree<'_>],
    writer: &mut WordWriter,
) -> Result<(), OutOfMemory>
    requires { constructors.fits (map constructor_of trees.now) }
    ensures { OnOk result (writer.new ≡ write_all writer.old (constructors.words (map constructor_of trees.now))) }
{
    match trees {
        [] => unreachable!(),
        [first, others @ ..] => {
            write_con(first, writer)?;
            write_statements(alloc, &ConstructorKind, others, writer)
        }
    }
}

#[derive(Clone, Copy)]
struct CaseKind;

impl<'a> Item<'a> for CaseKind {
    ghost use Rattle.std.specs.Prelude.{List, true};
    ghost use Rattle.fo_syntax.specs.Trees.{Atom};
    ghost use Rattle.fo_syntax.specs.ProblemTrees.{atoms_of};
    ghost use Rattle.fo_syntax.specs.ProblemGrammar.{left};

    type Tree = Vec<AtomTree<'a>>;

    ghost Value = { List Atom };

    ghost seen = { atoms_of };

    ghost syntax = { λ _. left true };

    fn read_item(
        &self,
        alloc: Global,
        cursor: &mut Cursor<'_, 'a>,
    ) -> Result<Vec<AtomTree<'a>>, Refusal> {
        atoms_or(alloc, "true", true, cursor)
    }

    fn write_item(
        &self,
        alloc: Global,
        tree: &Vec<AtomTree<'a>>,
        writer: &mut WordWriter,
    ) -> Result<(), OutOfMemory> {
        write_atoms_or(alloc, "true", true, tree, writer)
    }
}

/// Reads the cases of a definition and the closing brace.
#[tactic(auto, unfolding(crate::specs::ProblemGrammar::cases))]
fn cases<'a>(alloc: Global, cursor: &mut Cursor<'_, 'a>) -> Result<Vec<Vec<AtomTree<'a>>>, Refusal>
    ensures { Gives (λ x. (map atoms_of x.items, cursor.new)) result (cases.read cursor.old) }
{
    let items = listed(alloc, &Mark::Symbol("|"), &CaseKind, cursor)?;
    cursor.symbol("}")?;
    Ok(items)
}

#[tactic(auto, using(cyc_lex::proofs::WritingLaws::write_all_on), unfolding(crate::specs::ProblemGrammar::cases, cyc_lex::specs::Writing::write_all))]
fn write_cases(
    alloc: Global,
    trees: &[Vec<AtomTree<'_>>],
    writer: &mut WordWriter,
) -> Result<(), OutOfMemory>
    requires { cases.fits (map atoms_of trees.now) }
    ensures { OnOk result (writer.new ≡ write_all writer.old (cases.words (map atoms_of trees.now))) }
{
    write_listed(alloc, &Mark::Symbol("|"), &CaseKind, trees, writer)?;
    writer.symbol("}")
}

#[tactic(auto, unfolding(crate::specs::ProblemGrammar::definition))]
fn definition<'a>(alloc: Global, cursor: &mut Cursor<'_, 'a>) -> Result<DefinitionTree<'a>, Refusal>
    ensures { Gives (λ x. (definition_of x, cursor.new)) result (definition.read cursor.old) }
{
    cursor.keyword("pred")?;
    let name = free_name(cursor)?;
    cursor.symbol("(")?;
    let arity = cursor.number()?;
    cursor.symbol(")")?;
    cursor.symbol("{")?;
    let cases = cases(alloc, cursor)?;
    cursor.symbol(";")?;
    Ok(DefinitionTree { name, arity, cases })
}

#[tactic(auto, using(cyc_lex::proofs::WritingLaws::write_all_on), unfolding(crate::specs::ProblemGrammar::definition, cyc_lex::specs::Writing::write_all))]
fn write_definition(
    alloc: Global,
    tree: &DefinitionTree<'_>,
    writer: &mut WordWriter,
) -> Result<(), OutOfMemory>
    requires { definition.fits (definition_of tree.now) }
    ensures { OnOk result (writer.new ≡ write_all writer.old (definition.words (definition_of tree.now))) }
{
    writer.name("pred")?;
    writer.name(tree.name)?;
    writer.symbol("(")?;
    writer.number(tree.arity)?;
    writer.symbol(")")?;
    writer.symbol("{")?;
    write_cases(alloc, &tree.cases, writer)?;
    writer.symbol(";")
}

#[derive(Clone, Copy)]
struct DefinitionKind;

impl<'a> Item<'a> for DefinitionKind {
    ghost use Rattle.fo_syntax.specs.ProblemTrees.{Definition, definition_of};
    ghost use Rattle.fo_syntax.specs.ProblemGrammar as grammar;

    type Tree = DefinitionTree<'a>;

    ghost Value = { Definition };

    ghost seen = { definition_of };

    ghost syntax = { λ _. grammar.definition };

    fn read_item(
        &self,
        alloc: Global,
        cursor: &mut Cursor<'_, 'a>,
    ) -> Result<DefinitionTree<'a>, Refusal> {
        definition(alloc, cursor)
    }

    fn write_item(
        &self,
        alloc: Global,
        tree: &DefinitionTree<'a>,
        writer: &mut WordWriter,
    ) -> Result<(), OutOfMemory> {
        write_definition(alloc, tree, writer)
    }
}

/// Reads the definitions, of which there may be none.
#[tactic(auto, unfolding(crate::specs::ProblemGrammar::definitions))]
pub fn definitions<'a>(
    alloc: Global,
    cursor: &mut Cursor<'_, 'a>,
) -> Result<Vec<DefinitionTree<'a>>, Refusal>
    ensures { Gives (λ x. (map definition_of x.items, cursor.new)) result (definitions.read cursor.old) }
{
    more_statements(alloc, "pred", &DefinitionKind, Vec::new(alloc), cursor)
}

/// Writes the definitions.
#[tactic(auto, unfolding(crate::specs::ProblemGrammar::definitions))]
pub fn write_definitions(
    alloc: Global,
    trees: &[DefinitionTree<'_>],
    writer: &mut WordWriter,
) -> Result<(), OutOfMemory>
    requires { definitions.fits (map definition_of trees.now) }
    ensures { OnOk result (writer.new ≡ write_all writer.old (definitions.words (map definition_of trees.now))) }
{
    write_statements(alloc, &DefinitionKind, trees, writer)
}
