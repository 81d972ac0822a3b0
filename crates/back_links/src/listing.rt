// All links from a bud to a companion, by depth-first search.
ghost use Rattle.std.specs.Prelude.{ℕ, ◌≡◌, ◌≤◌, ◌∷◌, [], ◌++◌, false, length, take, IfOk, OnOk, None};
ghost use Rattle.back_links.specs.Listing.{links, link_of, values_of, universals as universals_of, IsMade};
ghost use Rattle.heap_formula.specs.Words.{OneOf};
ghost use Rattle.heap_formula.specs.declared.judgements.Judgement.{Judgement as JudgementParts};
ghost use Rattle.heap_formula.specs.declared.proof_rules.Link.{Link as LinkParts};
ghost use Rattle.rule_table.specs.LinkTable.{link_fault as fault_of};
ghost use Rattle.back_links.specs.Outlook.{LeavesNone, LeavesNoPairs};
ghost use Rattle.back_links.specs.Searching.{MayStart, may_place, may_send, with_choice, found_with, link_if_right};
ghost use Rattle.back_links.specs.Searching.{links_by_entries, links_by_pairs, links_by_places};

use crate::covering::{covers_at, disjuncts};
use crate::faults::link_fault;
use crate::outlook::{covers_are_open, is_open};
use crate::prospects::{
    Search, Start, are_alike, could_send, could_take, have_covers, have_values, start_of,
};
use crate::variables::{universals, values};
use heap_formula::{Judgement, Link, OutOfMemory, Positions, Spatial, Subst, Term};
use rule_table::antecedent;
use std::alloc::Global;

fn with_number(alloc: Global, made: &[u32], m: u32) -> Result<Vec<u32>, OutOfMemory>
    ensures { IfOk result (λ v. v.items ≡ made.now ++ m ∷ []) }
{
    let mut longer = Vec::from_slice(alloc, made)?;
    longer.push(m)?;
    Ok(longer)
}

/// Puts the place after those made, if the companion's next atom `x` could have it, and says whether it did.
fn put_place(
    search: &Search<'_>,
    made: &mut Vec<u32>,
    m: u32,
    x: &Spatial,
) -> Result<bool, OutOfMemory>
    ensures could { IfOk result (λ b. b ≡ may_place search.now made.old.items m x.now) }
    ensures made { IfOk result (λ b. made.new.items ≡ with_choice b made.old.items m) }
{
    if !could_take(search, made, m) {
        return Ok(false);
    }
    made.push(m)?;
    if have_values(search, made, x) {
        return Ok(true);
    }
    let _ = made.pop();
    Ok(false)
}

/// Puts the place after those made, if it leaves a link possible as far as is seen; by the values that the places force
/// too where the choice before it was in vain, since that takes longer.
fn put_open_place(
    alloc: Global,
    search: &Search<'_>,
    made: &mut Vec<u32>,
    m: u32,
    x: &Spatial,
    in_vain: bool,
) -> Result<bool, OutOfMemory>
    ensures closed { IfOk result (λ b. b ≡ false → LeavesNone search.now (made.old.items ++ m ∷ [])) }
    ensures made { IfOk result (λ b. made.new.items ≡ with_choice b made.old.items m) }
{
    let put = put_place(search, made, m, x)?;
    if !put {
        return Ok(false);
    }
    if in_vain {
        let stays = is_open(alloc, search, made)?;
        if !stays {
            let _ = made.pop();
            return Ok(false);
        }
    }
    Ok(true)
}

/// Puts the pair after those made, if it leaves a link possible, and says whether it did.
fn put_pair(
    search: &Search<'_>,
    places: &[u32],
    start: Start,
    made: &mut Vec<(u16, Term)>,
    n: u16,
    v: Term,
) -> Result<bool, OutOfMemory>
    requires { MayStart search.now places.now n start }
    ensures could { IfOk result (λ b. b ≡ may_send search.now places.now (made.old.items ++ (n, v) ∷ []) n) }
    ensures made { IfOk result (λ b. made.new.items ≡ with_choice b made.old.items (n, v)) }
{
    made.push((n, v))?;
    if could_send(search, places, start, made, n) {
        return Ok(true);
    }
    let _ = made.pop();
    Ok(false)
}

/// Puts the pair after those made, if it leaves a link possible as far as is seen; by the disjuncts
/// too where the choice before it was in vain.
fn put_open_pair(
    search: &Search<'_>,
    places: &[u32],
    start: Start,
    made: &mut Vec<(u16, Term)>,
    n: u16,
    v: Term,
    in_vain: bool,
) -> Result<bool, OutOfMemory>
    requires { MayStart search.now places.now n start }
    ensures closed { IfOk result (λ b. b ≡ false → LeavesNoPairs search.now places.now (made.old.items ++ (n, v) ∷ [])) }
    ensures made { IfOk result (λ b. made.new.items ≡ with_choice b made.old.items (n, v)) }
{
    let put = put_pair(search, places, start, made, n, v)?;
    if !put {
        return Ok(false);
    }
    if in_vain && !covers_are_open(search, made) {
        let _ = made.pop();
        return Ok(false);
    }
    Ok(true)
}

fn copy_of(alloc: Global, places: &[u32]) -> Result<Positions, OutOfMemory>
    ensures { IfOk result (λ ps. ps ≡ places.now) }
{
    Ok(Positions::from_vec(Vec::from_slice(alloc, places)?))
}

fn made_link(
    alloc: Global,
    target: u32,
    places: &[u32],
    subst: &Subst,
    entries: &[u32],
) -> Result<Link, OutOfMemory>
    ensures { IfOk result (λ l. l ≡ link_of target places.now subst.now entries.now) }
{
    Ok(Link {
        target,
        subst: subst.clone()?,
        map: copy_of(alloc, places)?,
        disjuncts: copy_of(alloc, entries)?,
    })
}

fn add_link(
    alloc: Global,
    search: &Search<'_>,
    places: &[u32],
    subst: &Subst,
    entries: &[u32],
    found: &mut Vec<Link>,
) -> Result<(), OutOfMemory>
    requires { length found.old.items ≤ search.now.most }
    ensures { OnOk result (found.new.items
        ≡ found_with search.now found.old.items (link_if_right search.now places.now subst.now entries.now)) }
{
    if found.len() >= search.most {
        return Ok(());
    }
    let link = made_link(alloc, search.target, places, subst, entries)?;
    match link_fault(search.bud, search.companion, &link, search.variables) {
        Some(_) => Ok(()),
        None => {
            found.push(link)?;
            Ok(())
        }
    }
}

fn choose_entries(
    alloc: Global,
    search: &Search<'_>,
    places: &[u32],
    subst: &Subst,
    made: &[u32],
    found: &mut Vec<Link>,
) -> Result<(), OutOfMemory>
    requires { length found.old.items ≤ search.now.most }
    ensures { OnOk result (found.new.items
        ≡ found_with search.now found.old.items (links_by_entries search.now places.now subst.now made.now)) }
{
    if found.len() >= search.most {
        return Ok(());
    }
    let bs = disjuncts(search.bud);
    let cs = disjuncts(search.companion);
    if made.len() >= cs.len() {
        return add_link(alloc, search, places, subst, made, found);
    }
    for m in 0..bs.len() {
        if covers_at(subst, &cs[made.len()], bs, m as u32) {
            let longer = with_number(alloc, made, m as u32)?;
            choose_entries(alloc, search, places, subst, &longer, found)?;
        }
    }
    Ok(())
}

fn choose_covers(
    alloc: Global,
    search: &Search<'_>,
    places: &[u32],
    pairs: &[(u16, Term)],
    found: &mut Vec<Link>,
) -> Result<(), OutOfMemory>
    requires { length found.old.items ≤ search.now.most }
    ensures { OnOk result (found.new.items
        ≡ found_with search.now found.old.items (links_by_entries search.now places.now pairs.now [])) }
{
    let subst = Subst::from_vec(Vec::from_slice(alloc, pairs)?);
    if !have_covers(&subst, disjuncts(search.companion), disjuncts(search.bud)) {
        return Ok(());
    }
    choose_entries(alloc, search, places, &subst, &[], found)
}

fn choose_values(
    alloc: Global,
    search: &Search<'_>,
    places: &[u32],
    made: &mut Vec<(u16, Term)>,
    rest: &[u16],
    found: &mut Vec<Link>,
) -> Result<(), OutOfMemory>
    requires { length found.old.items ≤ search.now.most }
    ensures found { OnOk result (found.new.items
        ≡ found_with search.now found.old.items (links_by_pairs search.now places.now made.old.items rest.now)) }
    ensures made { OnOk result (made.new.items ≡ made.old.items) }
{
    if found.len() >= search.most {
        return Ok(());
    }
    if rest.is_empty() {
        return choose_covers(alloc, search, places, made, found);
    }
    let start = start_of(search, places, rest[0]);
    let mut in_vain = false;
    for v in search.values {
        let put = put_open_pair(search, places, start, made, rest[0], *v, in_vain)?;
        if put {
            let before = found.len();
            choose_values(alloc, search, places, made, &rest[1..], found)?;
            in_vain = found.len() == before;
            let _ = made.pop();
        }
    }
    Ok(())
}

fn choose_places(
    alloc: Global,
    search: &Search<'_>,
    made: &mut Vec<u32>,
    rest: &[Spatial],
    found: &mut Vec<Link>,
) -> Result<(), OutOfMemory>
    requires { length found.old.items ≤ search.now.most }
    ensures found { OnOk result (found.new.items
        ≡ found_with search.now found.old.items (links_by_places search.now made.old.items rest.now)) }
    ensures made { OnOk result (made.new.items ≡ made.old.items) }
{
    if found.len() >= search.most {
        return Ok(());
    }
    if rest.is_empty() {
        let mut pairs = Vec::new(alloc);
        return choose_values(alloc, search, made, &mut pairs, search.sources, found);
    }
    let mut in_vain = false;
    for m in 0..antecedent(search.bud).spatial().len() {
        let put = put_open_place(alloc, search, made, m as u32, &rest[0], in_vain)?;
        if put {
            let before = found.len();
            choose_places(alloc, search, made, &rest[1..], found)?;
            in_vain = found.len() == before;
            let _ = made.pop();
        }
    }
    Ok(())
}

fn first_links(
    alloc: Global,
    bud: &Judgement,
    companion: &Judgement,
    target: u32,
    p: u16,
    most: u32,
) -> Result<Vec<Link>, OutOfMemory>
    ensures { IfOk result (λ v. v.items ≡ take most (links bud.now companion.now target p)) }
{
    let mut found = Vec::new(alloc);
    if !are_alike(bud, companion) {
        return Ok(found);
    }
    let sources = universals(alloc, companion)?;
    let values = values(alloc, bud)?;
    let search = Search {
        bud,
        companion,
        target,
        variables: p,
        sources: &sources,
        values: &values,
        most: most as usize,
    };
    let mut places = Vec::new(alloc);
    choose_places(
        alloc,
        &search,
        &mut places,
        antecedent(companion).spatial(),
        &mut found,
    )?;
    Ok(found)
}

/// The first `most` links from the bud to the companion, which is node `target`, that have no fault and whose
/// substitution sends each universal variable of the companion, in ascending order, to `nil` or a universal variable of
/// the bud; `p` is the number of program variables for `from` judgements and 0 for entailments. The order is by map,
/// then by the substitution's values (`nil` first, then by number), then by disjuncts, each as lists.
pub fn all_links(
    alloc: Global,
    bud: &Judgement,
    companion: &Judgement,
    target: u32,
    p: u16,
    most: u32,
) -> Result<Vec<Link>, OutOfMemory>
    ensures links { IfOk result (λ v. v.items ≡ take most (links bud.now companion.now target p)) }
{
    first_links(alloc, bud, companion, target, p, most)
}

/// No link is left out of the list that `all_links` begins: each link without a fault, whose substitution sends the
/// companion's universal variables in ascending order to `nil` or to those of the bud, is in it. The function does
/// nothing.
pub fn no_link_is_left_out()
    ensures { (bud companion : JudgementParts) (target p : ℕ) (link : LinkParts) → link.target ≡ target
        → IsMade (values_of bud) (universals_of companion) link.subst → fault_of bud companion link p ≡ None
        → OneOf (λ l. l ≡ link) (links bud companion target p) }
{}
