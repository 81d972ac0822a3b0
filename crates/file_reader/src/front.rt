//! What stands before the nodes of a proof file, as trees.

ghost use Rattle.file_reader.specs.Fronts.{ReadsFront};

use crate::part::{Behind, read_part};
use cyc_grammar::{Cursor, Refusal};
use heap_syntax::Version;
use proof_syntax::statements::{EndOrNode, LineOrLater, PredOrLater, first_statement};
use proof_syntax::{DefinitionTree, EndTree, LineTree, NodeTree};
use std::alloc::Global;

/// What is kept of what stands before the nodes of a file, with its number of tokens, and what is kept of the first
/// node.
#[derive(Drop)]
pub struct Front<'a> {
    pub version: Version,
    pub definitions: Vec<DefinitionTree<'a>>,
    pub lines: Vec<LineTree>,
    pub ends: Vec<EndTree<'a>>,
    pub before: usize,
    pub first: NodeTree<'a>,
}

/// Reads a file up to its first node, and that too.
pub fn read_front<'a>(alloc: Global, cursor: &mut Cursor<'_, 'a>) -> Result<Front<'a>, Refusal>
    ensures { ReadsFront cursor.old result cursor.new }
{
    let count = cursor.left();
    let version = first_statement(cursor)?;
    let mut definitions = Vec::new(alloc);
    let mut lines = Vec::new(alloc);
    let mut ends = Vec::new(alloc);
    let mut behind = Behind::Definitions;
    'parts: loop {
        let before = count - cursor.left();
        match read_part(alloc, version, behind, cursor)? {
            PredOrLater::Pred(tree) => definitions.push(tree)?,
            PredOrLater::Later(later) => match later {
                LineOrLater::Line(tree) => {
                    lines.push(tree)?;
                    behind = Behind::Lines;
                }
                LineOrLater::Later(last) => match last {
                    EndOrNode::End(tree) => {
                        ends.push(tree)?;
                        behind = Behind::Ends;
                    }
                    EndOrNode::Node(first) => {
                        return Ok(Front {
                            version,
                            definitions,
                            lines,
                            ends,
                            before,
                            first,
                        });
                    }
                },
            },
        }
    }
}
