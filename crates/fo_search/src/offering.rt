// What a goal is offered.
ghost use Rattle.std.specs.Prelude.{◌≡◌, ◌<◌, ◌++◌, length, map, IfOk, OnOk};
ghost use Rattle.fo_formula.specs.declared.nodes.FoReason.TheVariants.{Rule, Link};
ghost use Rattle.fo_formula.specs.Small.{IsSmallSequent};
ghost use Rattle.derivations.specs.Fair.{AllOccur};
ghost use Rattle.search_moves.specs.Places.{each_place};
ghost use Rattle.derivations.specs.Effects.{LeavesOut};
ghost use Rattle.fo_search.specs.Calculus.{links_to_node as reasons_to_node, links_at, rules_at, calculus_of};
ghost use Rattle.fo_search.specs.Occurring.{MayOccur};
ghost use Rattle.fo_search.specs.Reasons.{reasons_left};

use crate::moves::{links_to, rules_after, rules_before};
use crate::reasons::RuleReasons;
use cyc_basics::limits::MOST_LINKS;
use cyc_basics::memory::OutOfMemory;
use derivations::search::Offers;
use derivations::tableaux::{MadeNode, OpenGoal};
use fo_formula::{FoLink, FoReason, FoRule, FoSequent, FoTheory};
use std::alloc::Global;
use std::collections::VecDeque;

/// The links to a node of this number; only to one whose rule is Unfold.
fn links_to_node(
    alloc: Global,
    bud: &FoSequent,
    number: u32,
    node: &MadeNode<FoSequent, FoReason>,
) -> Result<Vec<FoLink>, OutOfMemory>
    requires bud { IsSmallSequent bud.now }
    requires companion { IsSmallSequent node.now.goal.premise.judgement }
    ensures { IfOk result (λ v. map Link v.items ≡ reasons_to_node bud.now number node.now) }
{
    match &node.reason {
        FoReason::Rule(FoRule::Unfold(_)) => {
            links_to(alloc, bud, &node.goal.premise.judgement, number, MOST_LINKS)
        }
        _ => Ok(Vec::new(alloc)),
    }
}

fn push_links(reasons: &mut VecDeque<FoReason>, links: Vec<FoLink>) -> Result<(), OutOfMemory>
    ensures { OnOk result (reasons.new.items ≡ reasons.old.items ++ map Link links.items) }
{
    for link in links {
        reasons.push_back(FoReason::Link(link))?;
    }
    Ok(())
}

/// The links to the nodes made.
fn links_to_nodes(
    alloc: Global,
    theory: &FoTheory,
    made: &[MadeNode<FoSequent, FoReason>],
    goal: &OpenGoal<FoSequent>,
) -> Result<VecDeque<FoReason>, OutOfMemory>
    requires occur { AllOccur (MayOccur theory.now) made.now goal.now }
    requires few { length made.now < 4294967296 }
    ensures { IfOk result (λ v. v.items ≡ each_place (reasons_to_node goal.now.premise.judgement) made.now) }
{
    let mut reasons = VecDeque::new(alloc);
    for (number, node) in made.iter().enumerate() {
        let links = links_to_node(alloc, &goal.premise.judgement, number as u32, node)?;
        push_links(&mut reasons, links)?;
    }
    Ok(reasons)
}

/// The rules as reasons.
fn reasons_by(alloc: Global, rules: Vec<FoRule>) -> Result<VecDeque<FoReason>, OutOfMemory>
    ensures { IfOk result (λ v. v.items ≡ map Rule rules.items) }
{
    let mut reasons = VecDeque::new(alloc);
    for rule in rules {
        reasons.push_back(FoReason::Rule(rule))?;
    }
    Ok(reasons)
}

/// The links to be tried, and the rules for the case that none of them is admitted; of these, some may be left out that
/// leave more than `most` premises.
pub fn offers_at<'a>(
    alloc: Global,
    theory: &'a FoTheory,
    made: &[MadeNode<FoSequent, FoReason>],
    goal: &OpenGoal<FoSequent>,
    most: usize,
) -> Result<Offers<FoReason, RuleReasons<'a>>, OutOfMemory>
    requires occur { AllOccur (MayOccur theory.now) made.now goal.now }
    requires few { length made.now < 4294967296 }
    ensures links { IfOk result (λ o. o.links.items ≡ links_at theory.now made.now goal.now) }
    ensures rules { IfOk result (λ o. LeavesOut (calculus_of theory.now) made.now goal.now most
        (rules_at theory.now made.now goal.now) (reasons_left o.rules)) }
{
    let sequent = &goal.premise.judgement;
    let before = rules_before(alloc, theory, sequent)?;
    if !before.is_empty() {
        return Ok(Offers {
            links: VecDeque::new(alloc),
            rules: RuleReasons::Before(reasons_by(alloc, before)?),
        });
    }
    Ok(Offers {
        links: links_to_nodes(alloc, theory, made, goal)?,
        rules: RuleReasons::After(rules_after(alloc, theory, sequent, most)?),
    })
}
