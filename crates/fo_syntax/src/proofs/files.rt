//! Reading and writing proof files.

ghost use Rattle.std.specs.Prelude.{◌≡◌, ◌<◌, ◌^◌, true, length, map, OnOk, IfOk};
ghost use Rattle.cyc_lex.specs.Spacing.{text_of};
ghost use Rattle.cyc_lex.specs.Spelling.{Spells};
ghost use Rattle.cyc_lex.specs.Word.{word_of, EndsOnce};
ghost use Rattle.cyc_lex.specs.Writing.{write_all};
ghost use Rattle.cyc_grammar.specs.Syntax.{read_whole};
ghost use Rattle.cyc_grammar.specs.Classes.{are_tokens};
ghost use Rattle.cyc_grammar.specs.Faults.{Reads, IsRead};
ghost use Rattle.cyc_grammar.specs.Giving.{Gives, words};
ghost use Rattle.fo_syntax.specs.ProofGrammar.{body, file};
ghost use Rattle.fo_syntax.specs.ProofTrees.{File, file_of};

use crate::problems::{constructors, definitions, write_constructors, write_definitions};
use crate::proofs::nodes::{nodes, write_nodes};
use crate::proofs::tree::FileTree;
use cyc_basics::memory::OutOfMemory;
use cyc_grammar::{Cursor, Refusal, read_fault};
use cyc_lex::{ReadFault, Token, Tokens, WordWriter};
use heap_syntax::{first_version, write_first_version};
use std::alloc::Global;

#[tactic(auto, unfolding(crate::specs::ProofGrammar::body))]
fn body<'a>(alloc: Global, cursor: &mut Cursor<'_, 'a>) -> Result<FileTree<'a>, Refusal>
    ensures { Gives (λ x. (file_of x, cursor.new)) result (body.read cursor.old) }
{
    cursor.keyword("cyclist")?;
    cursor.keyword("fo")?;
    first_version(cursor)?;
    cursor.symbol(";")?;
    let constructors = constructors(alloc, cursor)?;
    let definitions = definitions(alloc, cursor)?;
    let nodes = nodes(alloc, cursor)?;
    cursor.symbol(";")?;
    Ok(FileTree {
        constructors,
        definitions,
        nodes,
    })
}

#[tactic(auto, unfolding(crate::specs::ProofGrammar::file))]
fn whole_file<'a>(alloc: Global, tokens: &[Token<'a>]) -> Result<FileTree<'a>, Refusal>
    requires { are_tokens (words tokens.now) ≡ true }
    ensures { Gives file_of result (read_whole file (words tokens.now)) }
{
    let mut cursor = Cursor::new(tokens);
    let file = body(alloc, &mut cursor)?;
    cursor.end()?;
    if cursor.left() > 0 {
        return Err(Refusal::Dead(cursor.left()));
    }
    Ok(file)
}

/// The tree that the tokens spell, or the place of the first token that, with all before it, begins no proof file of
/// first-order logic.
pub fn read_tree<'a>(alloc: Global, tokens: &Tokens<'a>) -> Result<FileTree<'a>, ReadFault>
    requires few { length tokens.now < 2 ^ 32 }
    requires words { EndsOnce (map word_of tokens.now) }
    // What is read is spelled so; a fault stands at the first dead token.
    ensures exact { Reads file file_of tokens.now result }
    // What is spelled so is read, unless memory runs out.
    ensures again { (t : File) → file.fits t → map word_of tokens.now ≡ file.words t → IsRead file_of t result }
{
    match whole_file(alloc, tokens.as_slice()) {
        Ok(tree) => Ok(tree),
        Err(refusal) => Err(read_fault(tokens, refusal)),
    }
}

#[tactic(auto, using(cyc_lex::proofs::WritingLaws::write_all_on), unfolding(crate::specs::ProofGrammar::body, cyc_lex::specs::Writing::write_all))]
fn write_body(
    alloc: Global,
    tree: &FileTree<'_>,
    writer: &mut WordWriter,
) -> Result<(), OutOfMemory>
    requires { body.fits (file_of tree.now) }
    ensures { OnOk result (writer.new ≡ write_all writer.old (body.words (file_of tree.now))) }
{
    writer.name("cyclist")?;
    writer.name("fo")?;
    write_first_version(writer)?;
    writer.symbol(";")?;
    write_constructors(alloc, &tree.constructors, writer)?;
    write_definitions(alloc, &tree.definitions, writer)?;
    write_nodes(alloc, &tree.nodes, writer)?;
    writer.symbol(";")
}

/// The text of a tree that has one: its words with one space between neighbours but where the format has none, and a
/// line feed after each `;`.
#[tactic(auto, unfolding(crate::specs::ProofGrammar::file))]
pub fn write_tree(alloc: Global, tree: &FileTree<'_>) -> Result<Vec<u8>, OutOfMemory>
    requires { file.fits (file_of tree.now) }
    ensures text { IfOk result (λ bytes. bytes.items ≡ text_of (body.words (file_of tree.now))) }
    // The tree is read again from it.
    ensures again { IfOk result (λ bytes. Spells bytes.items (body.words (file_of tree.now))) }
{
    let mut writer = WordWriter::new(alloc);
    write_body(alloc, tree, &mut writer)?;
    Ok(writer.finish())
}
