// Links whose substitution is computed.
use back_links::all_links;
use heap_formula::{Heap, Judgement, Link, Pure, apply_to_pure};
use rule_table::{antecedent, follows, with_antecedent};
use seek_engine::close_by_link;
use seek_trees::{Stop, Work};

/// How many links are compared.
const MOST_FITS: u32 = 8;

/// A link that fits but for pure atoms of the companion that do not follow.
#[derive(Drop)]
pub struct Fit {
    pub link: Link,
    pub missing: Vec<Pure>,
}

fn bare(work: &Work<'_>, judgement: &Judgement) -> Result<Judgement, Stop> {
    let heap = Heap::from_slices(work.setting.alloc, &[], antecedent(judgement).spatial())?;
    Ok(with_antecedent(judgement, heap)?)
}

fn missing(work: &Work<'_>, asked: &[Pure], link: &Link, pure: &[Pure]) -> Result<Vec<Pure>, Stop> {
    let mut missing = Vec::new(work.setting.alloc);
    for atom in asked {
        let atom = apply_to_pure(*atom, &link.subst);
        if !follows(pure, atom) {
            missing.push(atom)?;
        }
    }
    Ok(missing)
}

fn is_better(best: &Option<Fit>, missing: &[Pure]) -> bool {
    match best {
        Some(best) => missing.len() < best.missing.len(),
        None => true,
    }
}

fn links_of(work: &Work<'_>, bud: u32, companion: u32, most: u32) -> Result<Vec<Link>, Stop> {
    let draft = &work.tree.draft;
    let (Some(below), Some(above)) = (draft.node(bud), draft.node(companion)) else {
        return Err(Stop::NoWay);
    };
    let above = bare(work, &above.judgement)?;
    let links = all_links(
        work.setting.alloc,
        &below.judgement,
        &above,
        companion,
        0,
        most,
    )?;
    Ok(links)
}

/// The link from a node to a companion of which the fewest pure atoms are missing.
pub fn best_fit(work: &Work<'_>, bud: u32, companion: u32) -> Result<Option<Fit>, Stop> {
    let mut best = None;
    let (asked, pure) = (work.left(companion).pure(), work.left(bud).pure());
    for link in links_of(work, bud, companion, MOST_FITS)? {
        let missing = missing(work, asked, &link, pure)?;
        if is_better(&best, &missing) {
            best = Some(Fit { link, missing });
        }
    }
    Ok(best)
}

/// Closes a node by a link to another node of its tree, unless the link has a fault.
pub fn close_own(work: &mut Work<'_>, bud: u32, companion: u32, link: Link) -> Result<(), Stop> {
    close_by_link(&work.setting, &mut work.tree.draft, bud, companion, link)?;
    match work.tree.draft.node(bud) {
        Some(node) if !node.edges.is_empty() => Ok(()),
        _ => Err(Stop::NoWay),
    }
}
