// Rules and links that a file may have.
ghost use Rattle.std.specs.Prelude.{IsTrue};
ghost use Rattle.heap_formula.specs.Words.{Each};
ghost use Rattle.rule_book.specs.Limits.{HasShortLink, HasShortNumbers, HasShortRule, IsPairWithin, IsReasonWithin};
ghost use Rattle.rule_book.specs.Limits.{IsRuleWithin, IsShortNumber};

use crate::limits::terms::is_term_within;
use cyc_basics::limits::GREATEST_VARIABLE;
use formula_reader::limits::heap_excess;
use heap_formula::{Link, Reason, Rule, Term};
use pred_defs::Defs;

fn is_rule_within(defs: &Defs, rule: &Rule) -> bool
    ensures { IsTrue result → IsRuleWithin defs.now.most defs.now.list rule.now }
{
    match rule {
        Rule::Split(t, u) => is_term_within(*t) && is_term_within(*u),
        Rule::Cut(_, formula) => heap_excess(defs, formula).is_none(),
        Rule::Instantiate(v, t) => u32::from(*v) <= GREATEST_VARIABLE && is_term_within(*t),
        Rule::Absurd
        | Rule::Rewrite(_, _)
        | Rule::Distinct(_, _)
        | Rule::Weaken(_)
        | Rule::Unfold(_)
        | Rule::Done
        | Rule::Choose(_)
        | Rule::PureRight(_)
        | Rule::Frame(_, _)
        | Rule::UnfoldRight(_, _)
        | Rule::Exec
        | Rule::Drop(_) => true,
    }
}

fn are_pairs_within(pairs: &[(u16, Term)]) -> bool
    ensures { IsTrue result → Each IsPairWithin pairs.now }
{
    for pair in pairs {
        if u32::from(pair.0) > GREATEST_VARIABLE || !is_term_within(pair.1) {
            return false;
        }
    }
    true
}

/// Whether a file over the definitions may have the reason's terms and formula.
pub fn is_reason_within(defs: &Defs, reason: &Reason) -> bool
    ensures { IsTrue result → IsReasonWithin defs.now.most defs.now.list reason.now }
{
    match reason {
        Reason::Step(rule) => is_rule_within(defs, rule),
        Reason::Back(link) => are_pairs_within(link.subst.pairs()),
    }
}

fn is_short_number(n: u32) -> bool
    ensures { IsTrue result → IsShortNumber n }
{
    n < 1_000_000_000
}

/// Whether each number has at most nine digits.
pub fn are_short_numbers(numbers: &[u32]) -> bool
    ensures { IsTrue result → Each IsShortNumber numbers.now }
{
    for number in numbers {
        if !is_short_number(*number) {
            return false;
        }
    }
    true
}

fn is_short_rule(rule: &Rule) -> bool
    ensures { IsTrue result → HasShortRule rule.now }
{
    match rule {
        Rule::Rewrite(k, _)
        | Rule::Weaken(k)
        | Rule::Unfold(k)
        | Rule::Choose(k)
        | Rule::PureRight(k)
        | Rule::Drop(k) => is_short_number(*k),
        Rule::Distinct(i, k) | Rule::Frame(i, k) | Rule::UnfoldRight(i, k) => {
            is_short_number(*i) && is_short_number(*k)
        }
        Rule::Cut(places, _) => are_short_numbers(places.as_slice()),
        Rule::Absurd | Rule::Split(_, _) | Rule::Done | Rule::Instantiate(_, _) | Rule::Exec => {
            true
        }
    }
}

fn is_short_link(link: &Link) -> bool
    ensures { IsTrue result → HasShortLink link.now }
{
    is_short_number(link.target)
        && are_short_numbers(link.map.as_slice())
        && are_short_numbers(link.disjuncts.as_slice())
}

/// Whether the numbers of atoms, disjuncts, cases and nodes that the reason names have at most nine digits.
pub fn is_short_reason(reason: &Reason) -> bool
    ensures { IsTrue result → HasShortNumbers reason.now }
{
    match reason {
        Reason::Step(rule) => is_short_rule(rule),
        Reason::Back(link) => is_short_link(link),
    }
}
