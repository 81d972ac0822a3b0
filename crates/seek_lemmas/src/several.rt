// An entailment with several disjuncts: each alone, then by cases.
use crate::attempts::only;
use crate::purposes::{Goal, Moved, Purpose, is_plain};
use heap_formula::{Heap, Rule, Term};
use rule_table::is_universal_pure;
use seek_shapes::{differ, number_of, sides};
use seek_trees::{Stop, Work};

fn choose(work: &mut Work<'_>, node: u32, number: u32) -> Moved {
    let next = work.one(node, &Rule::Choose(number))?;
    let (fuel, is_ready) = (0, false);
    let purpose = if is_plain(work.disjuncts(next)) {
        Purpose::Whole { fuel, is_ready }
    } else {
        Purpose::Open { fuel, is_ready }
    };
    only(work.setting.alloc, next, purpose)
}

fn push_pair(pairs: &mut Vec<(Term, Term)>, left: &Heap, t: Term, u: Term) -> Result<(), Stop> {
    if t != u && !differ(left, t, u) && !pairs.contains(&(t, u)) {
        pairs.push((t, u))?;
    }
    Ok(())
}

fn push_pairs_of(pairs: &mut Vec<(Term, Term)>, left: &Heap, right: &Heap) -> Result<(), Stop> {
    for atom in right.pure() {
        if is_universal_pure(*atom) {
            let (t, u) = sides(*atom);
            push_pair(pairs, left, t, u)?;
        }
    }
    Ok(())
}

/// The terms that a disjunct's pure atoms or an atom that may be empty leave open, each pair once.
fn pairs_at(work: &Work<'_>, node: u32) -> Result<Vec<(Term, Term)>, Stop> {
    let left = work.left(node);
    let mut pairs = Vec::new(work.setting.alloc);
    for right in work.disjuncts(node) {
        push_pairs_of(&mut pairs, left, right)?;
    }
    for atom in left.spatial() {
        if let Some(
            seek_shapes::Edge {
                root,
                end: Some(end),
            },
        ) = work.shapes.edge(atom)
        {
            push_pair(&mut pairs, left, root, end)?;
        }
    }
    Ok(pairs)
}

fn split(work: &mut Work<'_>, node: u32, fuel: i32, number: usize) -> Moved {
    let pairs = pairs_at(work, node)?;
    let Some((t, u)) = pairs.get(number) else {
        return Ok(None);
    };
    let mut goals = Vec::new(work.setting.alloc);
    for node in work.step(node, &Rule::Split(*t, *u))? {
        let purpose = Purpose::Several {
            fuel,
            is_ready: false,
        };
        goals.push(Goal { node, purpose })?;
    }
    Ok(Some(goals))
}

/// The moves: each disjunct; then, with fuel, Splits.
pub fn several(work: &mut Work<'_>, node: u32, fuel: i32, number: u32) -> Moved {
    let count = number_of(work.disjuncts(node).len());
    if number < count {
        return choose(work, node, number);
    }
    if fuel <= 0 {
        return Ok(None);
    }
    split(work, node, fuel - 1, (number - count) as usize)
}
