// The links to be tried at a goal.
ghost use Rattle.std.specs.Prelude.{◌≡◌, ◌<◌, ◌++◌, true, IfOk, OnOk, length};
ghost use Rattle.search_moves.specs.Lengths.{is_as_long as has_length_of};
ghost use Rattle.search_moves.specs.Offering.{is_companion as is_companion_of, tried_links};
ghost use Rattle.search_moves.specs.Offering.{candidates as candidates_of};

use crate::ways::{unfolds, works_on};
use back_links::all_links;
use cyc_basics::limits::MOST_LINKS;
use cyc_basics::memory::OutOfMemory;
use derivations::tableaux::MadeNode;
use goto_lang::Program;
use heap_formula::{Judgement, Link, Reason};
use rule_book::reasons::leaves_nothing;
use rule_book::variables_of;
use std::alloc::Global;

/// Whether a bud with the judgement may link back to the node.
fn is_companion(node: &MadeNode<Judgement, Reason>, judgement: &Judgement) -> bool
    ensures { result ≡ is_companion_of judgement.now node.now }
{
    match judgement {
        Judgement::Entail(_, _) => {
            matches!(node.goal.premise.judgement, Judgement::Entail(_, _)) && unfolds(&node.reason)
        }
        Judgement::Term(line, _) => works_on(node, *line),
    }
}

/// Whether the antecedents of two entailments have equally many spatial atoms. Where they have not there is no link.
fn is_as_long(bud: &Judgement, companion: &Judgement) -> bool
    ensures { result ≡ has_length_of bud.now companion.now }
{
    match (bud, companion) {
        (Judgement::Entail(a, _), Judgement::Entail(b, _)) => {
            a.spatial().len() == b.spatial().len()
        }
        _ => true,
    }
}

/// The links to the node with this number, which is a companion.
fn links_to(
    alloc: Global,
    program: &Program,
    number: u32,
    node: &MadeNode<Judgement, Reason>,
    judgement: &Judgement,
) -> Result<Vec<Link>, OutOfMemory>
    requires companion { is_companion_of judgement.now node.now ≡ true }
    ensures { IfOk result (λ v. v.items ≡ tried_links program.now judgement.now number node.now) }
{
    let companion = &node.goal.premise.judgement;
    if !is_as_long(judgement, companion) {
        return Ok(Vec::new(alloc));
    }
    if !leaves_nothing(program, judgement, companion) {
        return Ok(Vec::new(alloc));
    }
    let p = variables_of(program, judgement);
    all_links(alloc, judgement, companion, number, p, MOST_LINKS)
}

/// Appends the links to the node with this number, none if it is no companion.
fn push_links_to(
    links: &mut Vec<Link>,
    alloc: Global,
    program: &Program,
    number: u32,
    node: &MadeNode<Judgement, Reason>,
    judgement: &Judgement,
) -> Result<(), OutOfMemory>
    ensures { OnOk result (links.new.items
        ≡ links.old.items ++ tried_links program.now judgement.now number node.now) }
{
    if !is_companion(node, judgement) {
        return Ok(());
    }
    let mut found = links_to(alloc, program, number, node, judgement)?;
    links.append(&mut found)?;
    Ok(())
}

/// The links to be tried: by companion among the nodes made, of each the first 1,000,000.
pub fn candidates(
    alloc: Global,
    program: &Program,
    made: &[MadeNode<Judgement, Reason>],
    judgement: &Judgement,
) -> Result<Vec<Link>, OutOfMemory>
    requires few { length made.now < 4294967296 }
    ensures { IfOk result (λ v. v.items ≡ candidates_of program.now made.now judgement.now) }
{
    let mut links = Vec::new(alloc);
    for (number, node) in made.iter().enumerate() {
        push_links_to(&mut links, alloc, program, number as u32, node, judgement)?;
    }
    Ok(links)
}
