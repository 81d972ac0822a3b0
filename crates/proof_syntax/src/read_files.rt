//! Reading definitions, nodes and whole files.

ghost use Rattle.std.specs.Prelude.{◌≡◌, ◌<◌, ◌^◌, true, length, map};
ghost use Rattle.cyc_lex.specs.Word.{word_of, EndsOnce};
ghost use Rattle.cyc_grammar.specs.Syntax.{read_whole};
ghost use Rattle.cyc_grammar.specs.Classes.{are_tokens};
ghost use Rattle.cyc_grammar.specs.Faults.{Reads, IsRead};
ghost use Rattle.cyc_grammar.specs.Giving.{Gives, with_front, words};
ghost use Rattle.proof_syntax.specs.Grammar.{kept_disjuncts, definitions, kept_entailment, kept_state, kept_judgement};
ghost use Rattle.proof_syntax.specs.Grammar.{node, kept_node, more_nodes, nodes, body, file};
ghost use Rattle.proof_syntax.specs.Trees.{File, heap_of, entailment_of, judgement_of, node_of, file_of};

use crate::line_lists::lines;
use crate::read_reasons::kept_reason;
use crate::tree::{EntailmentTree, FileTree, HeapTree, JudgementTree, NodeTree};
use cyc_grammar::{Cursor, Refusal, read_fault};
use cyc_lex::{ReadFault, Token, Tokens};
use heap_syntax::definitions::{definitions, ends, kept_heap, kept_heaps};
use heap_syntax::{Keep, Mark, premises, read_version};
use std::alloc::Global;

#[tactic(auto, unfolding(crate::specs::Grammar::kept_disjuncts))]
fn kept_disjuncts<'a>(
    alloc: Global,
    keep: Keep,
    cursor: &mut Cursor<'_, 'a>,
) -> Result<Vec<HeapTree<'a>>, Refusal>
    ensures { Gives (λ x. (map heap_of x.items, cursor.new)) result ((kept_disjuncts keep).read cursor.old) }
{
    kept_heaps(
        alloc,
        keep,
        &Mark::Keyword("or"),
        &Mark::Keyword("by"),
        cursor,
    )
}

#[tactic(auto, unfolding(crate::specs::Grammar::kept_entailment))]
fn kept_entailment<'a>(
    alloc: Global,
    keep: Keep,
    cursor: &mut Cursor<'_, 'a>,
) -> Result<EntailmentTree<'a>, Refusal>
    ensures { Gives (λ x. (entailment_of x, cursor.new)) result ((kept_entailment keep).read cursor.old) }
{
    let antecedent = kept_heap(alloc, true, keep, cursor)?;
    cursor.symbol("|-")?;
    let disjuncts = kept_disjuncts(alloc, keep, cursor)?;
    Ok(EntailmentTree {
        antecedent,
        disjuncts,
    })
}

/// The number of a line and the symbolic state there.
#[tactic(auto, unfolding(crate::specs::Grammar::kept_state))]
fn kept_state<'a>(
    alloc: Global,
    keep: Keep,
    cursor: &mut Cursor<'_, 'a>,
) -> Result<(u32, HeapTree<'a>), Refusal>
    ensures { Gives (λ x. ((x.0, heap_of x.1), cursor.new)) result ((kept_state keep).read cursor.old) }
{
    cursor.keyword("from")?;
    let line = cursor.number()?;
    cursor.keyword("given")?;
    let heap = kept_heap(alloc, true, keep, cursor)?;
    cursor.keyword("by")?;
    Ok((line, heap))
}

#[tactic(auto, unfolding(crate::specs::Grammar::kept_judgement))]
fn kept_judgement<'a>(
    alloc: Global,
    keep: Keep,
    cursor: &mut Cursor<'_, 'a>,
) -> Result<JudgementTree<'a>, Refusal>
    ensures { Gives (λ x. (judgement_of x, cursor.new)) result ((kept_judgement keep).read cursor.old) }
{
    if cursor.is_keyword_next("from") {
        let (line, heap) = kept_state(alloc, keep, cursor)?;
        return Ok(JudgementTree::From(line, heap));
    }
    Ok(JudgementTree::Entailment(kept_entailment(alloc, keep, cursor)?))
}

/// Reads one node; so much is kept of its lists of heaps and of theirs.
#[tactic(auto, unfolding(crate::specs::Grammar::kept_node))]
pub fn kept_node<'a>(
    alloc: Global,
    keep: Keep,
    cursor: &mut Cursor<'_, 'a>,
) -> Result<NodeTree<'a>, Refusal>
    ensures { Gives (λ x. (node_of x, cursor.new)) result ((kept_node keep).read cursor.old) }
{
    cursor.keyword("node")?;
    let judgement = kept_judgement(alloc, keep, cursor)?;
    let reason = kept_reason(alloc, keep, cursor)?;
    let premises = premises(alloc, cursor)?;
    Ok(NodeTree {
        judgement,
        reason,
        premises,
    })
}

fn node<'a>(alloc: Global, cursor: &mut Cursor<'_, 'a>) -> Result<NodeTree<'a>, Refusal>
    ensures { Gives (λ x. (node_of x, cursor.new)) result (node.read cursor.old) }
{
    kept_node(alloc, Keep::All, cursor)
}

/// Reads the nodes after some.
#[tactic(auto, unfolding(crate::specs::Grammar::more_nodes))]
fn more_nodes<'a>(
    alloc: Global,
    mut items: Vec<NodeTree<'a>>,
    cursor: &mut Cursor<'_, 'a>,
) -> Result<Vec<NodeTree<'a>>, Refusal>
    ensures { Gives (λ x. (map node_of x.items, cursor.new)) result
        (with_front (map node_of items.entry.items) (more_nodes.read cursor.old)) }
{
    for _ in 0..cursor.left() {
        if !cursor.is_keyword_next("node") {
            return Ok(items);
        }
        items.push(node(alloc, cursor)?)?;
    }
    if cursor.is_keyword_next("node") {
        return Err(Refusal::Dead(cursor.left()));
    }
    Ok(items)
}

#[tactic(auto, unfolding(crate::specs::Grammar::nodes))]
fn nodes<'a>(alloc: Global, cursor: &mut Cursor<'_, 'a>) -> Result<Vec<NodeTree<'a>>, Refusal>
    ensures { Gives (λ x. (map node_of x.items, cursor.new)) result (nodes.read cursor.old) }
{
    let mut items = Vec::new(alloc);
    items.push(node(alloc, cursor)?)?;
    let items = more_nodes(alloc, items, cursor)?;
    cursor.keyword("end")?;
    Ok(items)
}

#[tactic(auto, unfolding(crate::specs::Grammar::body))]
fn body<'a>(alloc: Global, cursor: &mut Cursor<'_, 'a>) -> Result<FileTree<'a>, Refusal>
    ensures { Gives (λ x. (file_of x, cursor.new)) result (body.read cursor.old) }
{
    cursor.keyword("cyclist")?;
    cursor.keyword("proof")?;
    let version = read_version(cursor)?;
    cursor.symbol(";")?;
    let definitions = definitions(alloc, cursor)?;
    let lines = lines(alloc, version, cursor)?;
    let ends = ends(alloc, version, cursor)?;
    let nodes = nodes(alloc, cursor)?;
    cursor.symbol(";")?;
    Ok(FileTree {
        version,
        definitions,
        lines,
        ends,
        nodes,
    })
}

#[tactic(auto, unfolding(crate::specs::Grammar::file))]
fn whole_file<'a>(alloc: Global, tokens: &[Token<'a>]) -> Result<FileTree<'a>, Refusal>
    requires { are_tokens (words tokens.now) ≡ true }
    ensures { Gives file_of result (read_whole file (words tokens.now)) }
{
    let mut cursor = Cursor::new(tokens);
    let file = body(alloc, &mut cursor)?;
    cursor.end()?;
    if cursor.left() > 0 {
        return Err(Refusal::Dead(cursor.left()));
    }
    Ok(file)
}

/// The tree that the tokens spell, or the place of the first token that, with all before it, begins no proof file.
pub fn read_tree<'a>(alloc: Global, tokens: &Tokens<'a>) -> Result<FileTree<'a>, ReadFault>
    requires few { length tokens.now < 2 ^ 32 }
    requires words { EndsOnce (map word_of tokens.now) }
    // What is read is spelled so; a fault stands at the first dead token.
    ensures exact { Reads file file_of tokens.now result }
    // What is spelled so is read, unless memory runs out.
    ensures again { (t : File) → file.fits t → map word_of tokens.now ≡ file.words t → IsRead file_of t result }
{
    match whole_file(alloc, tokens.as_slice()) {
        Ok(tree) => Ok(tree),
        Err(refusal) => Err(read_fault(tokens, refusal)),
    }
}
