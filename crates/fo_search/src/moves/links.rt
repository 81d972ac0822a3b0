// The links from a bud to a companion.
ghost use Rattle.std.specs.Prelude.{◌≡◌, ◌≤◌, IfOk, length, map};
ghost use Rattle.fo_formula.specs.Sizes.{sequent_size};
ghost use Rattle.fo_search.specs.Links.{links_to as first_links};
ghost use Rattle.fo_search.specs.Choosing.{link_with};

use crate::moves::linking::link_by;
use crate::moves::subterms::subterms;
use crate::moves::variables::variables;
use crate::moves::walking::{Search, choices};
use crate::moves::wanted::{LinkValues, Wanted};
use cyc_basics::limits::{MOST_LEFT, MOST_RIGHT, MOST_TERMS};
use cyc_basics::memory::OutOfMemory;
use fo_formula::{FoLink, FoSequent, Terms};
use std::alloc::Global;

fn links_by(
    alloc: Global,
    goal: &LinkValues<'_>,
    choices: &[Terms],
) -> Result<Vec<FoLink>, OutOfMemory>
    requires left_fits { length goal.now.bud.now.left ≤ MOST_LEFT }
    requires right_fits { length goal.now.bud.now.right ≤ MOST_RIGHT }
    ensures { IfOk result (λ v. v.items ≡ map (link_with goal.now) choices.now) }
{
    let mut links = Vec::new(alloc);
    for terms in choices {
        links.push(link_by(alloc, goal, terms.as_slice())?)?;
    }
    Ok(links)
}

/// The first `most` links from the bud to the companion, the node of this number, that have no fault and with which the
/// bud has at most 4,096 terms. The sources are the companion's variables in ascending order, the values subterms of
/// the bud, in lexicographic order by first occurrence, and each entry of a map is the least that fits. Both sequents
/// have at most 32 atoms on the left, 16 on the right and 4,096 terms.
pub fn links_to(
    alloc: Global,
    bud: &FoSequent,
    companion: &FoSequent,
    number: u32,
    most: u32,
) -> Result<Vec<FoLink>, OutOfMemory>
    requires bud_left { length bud.now.left ≤ MOST_LEFT }
    requires bud_right { length bud.now.right ≤ MOST_RIGHT }
    requires bud_small { sequent_size bud.now ≤ MOST_TERMS }
    requires companion_left { length companion.now.left ≤ MOST_LEFT }
    requires companion_right { length companion.now.right ≤ MOST_RIGHT }
    requires companion_small { sequent_size companion.now ≤ MOST_TERMS }
    ensures { IfOk result (λ v. v.items ≡ first_links most bud.now companion.now number) }
{
    let sources = variables(alloc, companion)?;
    let values = subterms(alloc, bud)?;
    let goal = LinkValues {
        bud,
        companion,
        number,
        sources: &sources,
    };
    let search = Search {
        wanted: Wanted::Values(goal),
        values: &values,
    };
    let choices = choices(alloc, &search, sources.len(), most)?;
    links_by(alloc, &goal, &choices)
}
