// The nodes above a goal and before it.
ghost use Rattle.std.specs.Prelude.{◌≡◌, ◌&&◌, Bool, length, slice_get};
ghost use Rattle.std.specs.Option.{option_copied};
ghost use Rattle.std.specs.List.{list_any};
ghost use Rattle.derivations.specs.Calculus.{judgement_of};
ghost use Rattle.search_moves.specs.Ways.{said_by};
ghost use Rattle.search_moves.specs.States.{is_work as is_work_rule, is_unfold as is_unfold_rule, has_rule, by_exec};
ghost use Rattle.search_moves.specs.States.{climbs, works_on as works_on_line};

use derivations::tableaux::MadeNode;
use heap_formula::{Judgement, Reason, Rule};

/// What the rule of a node says of the way up to Exec: it is Exec; the way goes on above it; it ends there.
#[derive(Clone, Copy)]
pub enum Way {
    AtExec,
    Above,
    Elsewhere,
}

/// Whether the reason is Unfold.
pub fn unfolds(reason: &Reason) -> bool
    ensures { result ≡ has_rule is_unfold_rule reason.now }
{
    matches!(reason, Reason::Step(Rule::Unfold(_)))
}

fn works(reason: &Reason) -> bool
    ensures { result ≡ has_rule is_work_rule reason.now }
{
    matches!(reason, Reason::Step(Rule::Unfold(_) | Rule::Exec))
}

fn way_of(reason: &Reason) -> Way
    ensures { (above : Bool) → has_rule (by_exec above) reason.now ≡ said_by above result }
{
    match reason {
        Reason::Step(Rule::Exec) => Way::AtExec,
        Reason::Step(Rule::Rewrite(_, _) | Rule::Cut(_, _)) => Way::Above,
        _ => Way::Elsewhere,
    }
}

fn node_at(made: &[MadeNode<Judgement, Reason>], v: u32) -> Option<&MadeNode<Judgement, Reason>>
    ensures { option_copied result ≡ slice_get made.now v }
{
    made.get(v as usize)
}

/// Whether the first other rule above a premise of node `parent`, over Rewrite and Cut, is Exec.
pub fn came_by_exec(made: &[MadeNode<Judgement, Reason>], parent: u32) -> bool
    ensures { result ≡ climbs made.now (length made.now) parent }
{
    let mut v = parent;
    let mut left = made.len();
    while left > 0 {
        left -= 1;
        let Some(node) = node_at(made, v) else {
            return false;
        };
        match way_of(&node.reason) {
            Way::AtExec => return true,
            Way::Above => v = node.goal.parent,
            Way::Elsewhere => return false,
        }
    }
    false
}

/// Whether a node of the line unfolds or executes.
pub fn works_on(node: &MadeNode<Judgement, Reason>, line: u32) -> bool
    ensures { result ≡ works_on_line line node.now }
{
    match &node.goal.premise.judgement {
        Judgement::Entail(_, _) => false,
        Judgement::Term(other, _) => *other == line && works(&node.reason),
    }
}

/// Whether a node that is made is of the line, and unfolds or executes.
pub fn was_worked_on(made: &[MadeNode<Judgement, Reason>], line: u32) -> bool
    ensures { result ≡ list_any (works_on_line line) made.now }
{
    for node in made {
        if works_on(node, line) {
            return true;
        }
    }
    false
}
