// What the next goal of a partial derivation is offered.
ghost use Rattle.std.specs.Prelude.{◌≡◌, ◌<◌, ℕ, ◌≤◌, IfOk, length};
ghost use Rattle.heap_formula.specs.Words.{Each};
ghost use Rattle.heap_formula.specs.Meaning.{cases_of};
ghost use Rattle.search_moves.specs.FoldLimits.{HasFewParameters};
ghost use Rattle.search_moves.specs.Closing.{BehindClosing, BehindPart, OffersClosing, OffersPart};
ghost use Rattle.search_moves.specs.Limits.{IsSmall};
ghost use Rattle.search_moves.specs.Settings.{theory_of, theory};
ghost use Rattle.search_moves.specs.Offering.{candidates as candidates_of, rules_before as rules_before_links};
ghost use Rattle.search_moves.specs.Offering.{rules_behind, links_offered, rules_offered};

use crate::closing::{closing_rules, have_cases};
use crate::companions::candidates;
use crate::entailments::rule_alone;
use crate::offered::Offers;
use crate::places::rewrites;
use crate::setting::GoalSetting;
use crate::{entailments, states};
use cyc_basics::memory::OutOfMemory;
use derivations::tableaux::{MadeNode, OpenGoal};
use goto_lang::Program;
use heap_formula::{Judgement, Reason, Rule};
use pred_defs::Defs;
use std::alloc::Global;

fn rules_before(alloc: Global, at: &GoalSetting<'_>) -> Result<Vec<Rule>, OutOfMemory>
    ensures { IfOk result (λ v. v.items ≡ rules_before_links (theory_of at.now) at.now.judgement.now) }
{
    let rules = rule_alone(alloc, at, Rule::Absurd)?;
    if !rules.is_empty() {
        return Ok(rules);
    }
    drop(rules);
    match at.judgement {
        Judgement::Entail(left, _) => rewrites(alloc, left.pure()),
        Judgement::Term(line, state) => states::rules_before(alloc, at, *line, state),
    }
}

fn rules_after(
    alloc: Global,
    at: &GoalSetting<'_>,
    made: &[MadeNode<Judgement, Reason>],
    parent: u32,
) -> Result<Vec<Rule>, OutOfMemory>
    requires parameters { Each HasFewParameters at.now.defs.now.list }
    requires cases { (q : ℕ) → length (cases_of at.now.defs.now.list q) ≤ 65536 }
    ensures { IfOk result (λ v. v.items ≡ rules_behind at.now made.now parent) }
{
    match at.judgement {
        Judgement::Entail(left, right) => {
            entailments::rules_after(alloc, at, left, right.heaps())
        }
        Judgement::Term(line, state) => {
            states::rules_after(alloc, at, made, parent, *line, state)
        }
    }
}

/// The same, but for rules that leave premises: those may be left out.
fn closing_rules_after(
    alloc: Global,
    at: &GoalSetting<'_>,
    made: &[MadeNode<Judgement, Reason>],
    parent: u32,
) -> Result<Vec<Rule>, OutOfMemory>
    requires parameters { Each HasFewParameters at.now.defs.now.list }
    requires cases { (q : ℕ) → length (cases_of at.now.defs.now.list q) ≤ 65536 }
    ensures closing { IfOk result (λ v. BehindClosing at.now made.now parent v.items) }
    ensures offered { IfOk result (λ v. BehindPart at.now made.now parent v.items) }
{
    match at.judgement {
        Judgement::Entail(left, right) if have_cases(at.defs, left.spatial()) => {
            closing_rules(alloc, at, left, right.heaps())
        }
        _ => rules_after(alloc, at, made, parent),
    }
}

/// These rules, beside the links to be tried.
fn beside_links(
    alloc: Global,
    at: &GoalSetting<'_>,
    made: &[MadeNode<Judgement, Reason>],
    rules: Vec<Rule>,
) -> Result<Offers, OutOfMemory>
    requires few { length made.now < 4294967296 }
    ensures links { IfOk result (λ o. o.links.items
        ≡ candidates_of at.now.program.now made.now at.now.judgement.now) }
    ensures rules { IfOk result (λ o. o.rules.items ≡ rules.items) }
{
    let links = candidates(alloc, at.program, made, at.judgement)?;
    Ok(Offers { links, rules })
}

/// The links and the rules that the goal is offered over the nodes made before it, in the order in which they are to be
/// tried. A rule with a fault is not offered, and no link is where a rule goes before links.
pub fn offers_of(
    alloc: Global,
    defs: &Defs,
    program: &Program,
    made: &[MadeNode<Judgement, Reason>],
    goal: &OpenGoal<Judgement>,
) -> Result<Offers, OutOfMemory>
    requires few { length made.now < 4294967296 }
    requires small { Each IsSmall defs.now.list }
    ensures links { IfOk result (λ o. o.links.items
        ≡ links_offered (theory defs.now program.now) made.now goal.now) }
    ensures rules { IfOk result (λ o. o.rules.items
        ≡ rules_offered (theory defs.now program.now) made.now goal.now) }
{
    let judgement = &goal.premise.judgement;
    let at = GoalSetting {
        defs,
        program,
        judgement,
    };
    let rules = rules_before(alloc, &at)?;
    if !rules.is_empty() {
        return Ok(Offers {
            links: Vec::new(alloc),
            rules,
        });
    }
    drop(rules);
    let rules = rules_after(alloc, &at, made, goal.parent)?;
    beside_links(alloc, &at, made, rules)
}

/// The same, but for rules that leave premises: those may be left out.
pub fn closing_offers(
    alloc: Global,
    defs: &Defs,
    program: &Program,
    made: &[MadeNode<Judgement, Reason>],
    goal: &OpenGoal<Judgement>,
) -> Result<Offers, OutOfMemory>
    requires few { length made.now < 4294967296 }
    requires small { Each IsSmall defs.now.list }
    ensures links { IfOk result (λ o. o.links.items
        ≡ links_offered (theory defs.now program.now) made.now goal.now) }
    ensures rules { IfOk result (λ o. OffersClosing (theory defs.now program.now) made.now goal.now o.rules.items) }
    ensures offered { IfOk result (λ o. OffersPart (theory defs.now program.now) made.now goal.now o.rules.items) }
{
    let judgement = &goal.premise.judgement;
    let at = GoalSetting {
        defs,
        program,
        judgement,
    };
    let rules = rules_before(alloc, &at)?;
    if !rules.is_empty() {
        return Ok(Offers {
            links: Vec::new(alloc),
            rules,
        });
    }
    drop(rules);
    let rules = closing_rules_after(alloc, &at, made, goal.parent)?;
    beside_links(alloc, &at, made, rules)
}
