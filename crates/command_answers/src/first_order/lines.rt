// The lines of a verdict on a first-order proof.
ghost use Rattle.std.specs.Prelude.{◌≡◌, ◌++◌, length, IfOk, OnOk};
ghost use Rattle.cyc_runs.specs.Texts.{number_text};
ghost use Rattle.command_answers.specs.FirstOrderAnswers.{accepted_text, is_link as is_a_link, link_count};
ghost use Rattle.command_answers.specs.FirstOrderAnswers.{node_refused_text};
ghost use Rattle.command_answers.specs.Names.{fault_number_of};

use crate::first_order::names::{fault_name, fault_number};
use cyc_basics::memory::OutOfMemory;
use cyc_runs::texts::Line;
use fo_formula::{FoNode, FoReason};
use fo_logic::FoFault;
use std::alloc::Global;

fn is_link(node: &FoNode) -> bool
    ensures { result ≡ is_a_link node.now.reason }
{
    match node.reason {
        FoReason::Rule(_) => false,
        FoReason::Link(_) => true,
    }
}

// How many of the nodes are links.
fn links_of(nodes: &[FoNode]) -> usize
    ensures { result ≡ link_count nodes.now }
{
    let mut links = 0;
    for node in nodes {
        if is_link(node) {
            links += 1;
        }
    }
    links
}

/// The line for a proof of these nodes that is right: how many nodes and links there are.
pub fn accepted_line(alloc: Global, nodes: &[FoNode]) -> Result<Vec<u8>, OutOfMemory>
    ensures { IfOk result (λ bytes. bytes.items ≡ accepted_text (length nodes.now) (link_count nodes.now)) }
{
    let links = links_of(nodes);
    let mut text = Line::new(alloc);
    text.text("accepted first-order nodes ")?;
    text.number(nodes.len() as u64)?;
    text.text(" links ")?;
    text.number(links as u64)?;
    text.end()
}

fn push_fault_number(text: &mut Line, fault: FoFault) -> Result<(), OutOfMemory>
    ensures { OnOk result (text.new ≡ text.old ++ number_text (fault_number_of fault)) }
{
    if let Some(k) = fault_number(fault) {
        text.text(" ")?;
        text.number(k as u64)?;
    }
    Ok(())
}

/// The line for a node, counted from 0, that isn't right.
pub fn node_refused_line(alloc: Global, node: u32, fault: FoFault) -> Result<Vec<u8>, OutOfMemory>
    ensures { IfOk result (λ bytes. bytes.items ≡ node_refused_text node fault) }
{
    let mut text = Line::new(alloc);
    text.text("refused node ")?;
    text.number(node as u64)?;
    text.text(" ")?;
    text.text(fault_name(fault))?;
    push_fault_number(&mut text, fault)?;
    text.end()
}
