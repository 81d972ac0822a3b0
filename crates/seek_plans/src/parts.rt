// The parts of a goal that share no variable.
use heap_formula::{Heap, Pure, Rule, Spatial, Term};
use rule_table::{follows, is_universal_pure};
use seek_shapes::{address, arguments, copies_at, first_existential, heap_of, number_of, sides};
use seek_trees::{Effort, Stop, Work};

/// A part is tried as a goal of its own.
const PART: Effort = Effort {
    is_hard: true,
    is_part: true,
};

/// The most existentials of one part, and disequations between parts.
const MOST_RULES: u32 = 64;

/// Variables of one part.
#[derive(Drop)]
struct Group {
    terms: Vec<Term>,
}

impl Group {
    fn has_one_of(&self, terms: &[Term]) -> bool {
        for term in terms {
            if self.terms.contains(term) {
                return true;
            }
        }
        false
    }

    fn has_atom(&self, atom: &Spatial) -> bool {
        if let Some(term) = address(atom) {
            if self.terms.contains(&term) {
                return true;
            }
        }
        self.has_one_of(arguments(atom))
    }

    /// Whether each variable of a pure atom is the group's, and there is one.
    fn has_pure(&self, atom: Pure) -> bool {
        let (t, u) = sides(atom);
        let has = |term: Term| -> bool { term == Term::Nil || self.terms.contains(&term) };
        has(t) && has(u) && (t != Term::Nil || u != Term::Nil)
    }
}

fn variables_of(work: &Work<'_>, atom: &Spatial) -> Result<Vec<Term>, Stop> {
    let mut found = Vec::new(work.setting.alloc);
    if let Some(term) = address(atom) {
        if term != Term::Nil {
            found.push(term)?;
        }
    }
    for term in arguments(atom) {
        if *term != Term::Nil {
            found.push(*term)?;
        }
    }
    Ok(found)
}

/// The groups with these terms in one.
fn merged(work: &Work<'_>, groups: Vec<Group>, terms: Vec<Term>) -> Result<Vec<Group>, Stop> {
    let mut apart = Vec::new(work.setting.alloc);
    let mut joined = Group { terms };
    for group in groups {
        if group.has_one_of(&joined.terms) {
            let mut terms = group.terms;
            joined.terms.append(&mut terms)?;
        } else {
            apart.push(group)?;
        }
    }
    apart.push(joined)?;
    Ok(apart)
}

/// The groups with the variables of these atoms; none where an atom has no variable.
fn with_atoms(work: &Work<'_>, groups: Vec<Group>, atoms: &[Spatial]) -> Result<Vec<Group>, Stop> {
    let mut groups = groups;
    for atom in atoms {
        let terms = variables_of(work, atom)?;
        if terms.is_empty() {
            return Err(Stop::NoWay);
        }
        groups = merged(work, groups, terms)?;
    }
    Ok(groups)
}

fn with_pures(work: &Work<'_>, groups: Vec<Group>, atoms: &[Pure]) -> Result<Vec<Group>, Stop> {
    let mut groups = groups;
    for atom in atoms {
        if !is_universal_pure(*atom) {
            let (t, u) = sides(*atom);
            groups = merged(work, groups, Vec::from_slice(work.setting.alloc, &[t, u])?)?;
        }
    }
    Ok(groups)
}

fn groups_at(work: &Work<'_>, node: u32) -> Result<Vec<Group>, Stop> {
    let groups = with_atoms(
        work,
        Vec::new(work.setting.alloc),
        work.left(node).spatial(),
    )?;
    let groups = with_atoms(work, groups, work.right(node).spatial())?;
    with_pures(work, groups, work.right(node).pure())
}

/// What is to be shown of a part: its places on the left, its pure atoms there, and its right side.
#[derive(Drop)]
struct Part {
    places: Vec<u32>,
    pure: Vec<Pure>,
    right: Heap,
}

fn places_in(work: &Work<'_>, atoms: &[Spatial], group: &Group) -> Result<Vec<u32>, Stop> {
    let mut places = Vec::new(work.setting.alloc);
    for (place, atom) in atoms.iter().enumerate() {
        if group.has_atom(atom) {
            places.push(number_of(place))?;
        }
    }
    Ok(places)
}

fn pures_in(work: &Work<'_>, atoms: &[Pure], group: &Group) -> Result<Vec<Pure>, Stop> {
    let mut found = Vec::new(work.setting.alloc);
    for atom in atoms {
        if group.has_pure(*atom) {
            found.push(*atom)?;
        }
    }
    Ok(found)
}

fn part_of(work: &Work<'_>, node: u32, goal: &Heap, group: &Group) -> Result<Part, Stop> {
    let alloc = work.setting.alloc;
    let left = work.left(node);
    let wanted = places_in(work, goal.spatial(), group)?;
    let spatial = copies_at(alloc, goal.spatial(), &wanted)?;
    match heap_of(pures_in(work, goal.pure(), group)?, spatial) {
        Some(right) => Ok(Part {
            places: places_in(work, left.spatial(), group)?,
            pure: pures_in(work, left.pure(), group)?,
            right,
        }),
        None => Err(Stop::NoWay),
    }
}

fn is_done(work: &Work<'_>, node: u32, part: &Part) -> Result<bool, Stop> {
    let left = copies_at(work.setting.alloc, work.left(node).spatial(), &part.places)?;
    Ok(part.right.pure().is_empty() && left.as_slice() == part.right.spatial())
}

fn terms_in_order(work: &Work<'_>, atoms: &[Spatial], pure: &[Pure]) -> Result<Vec<Term>, Stop> {
    let mut terms = Vec::new(work.setting.alloc);
    for atom in atoms {
        if let Some(term) = address(atom) {
            terms.push(term)?;
        }
        terms.extend_from_slice(arguments(atom))?;
    }
    for atom in pure {
        let (t, u) = sides(*atom);
        terms.extend_from_slice(&[t, u])?;
    }
    Ok(terms)
}

/// The last entries of a list, so many.
fn tail<T>(items: &[T], count: usize) -> &[T] {
    if count <= items.len() {
        &items[items.len() - count..]
    } else {
        items
    }
}

/// Gives a part's existentials the names that they have now on the left, where the part's right side stands last.
fn name_existentials(work: &mut Work<'_>, node: u32, right: &Heap) -> Result<u32, Stop> {
    let mut at = node;
    let mut wanted = terms_in_order(work, right.spatial(), right.pure())?;
    let left = work.left(node);
    let atoms = tail(left.spatial(), right.spatial().len());
    let values = terms_in_order(work, atoms, tail(left.pure(), right.pure().len()))?;
    for _ in 0..MOST_RULES {
        let Some((variable, term)) = first_existential(&wanted, &values) else {
            return Ok(at);
        };
        forget(&mut wanted, variable);
        at = work.one(at, &Rule::Instantiate(variable, term))?;
    }
    Err(Stop::NoWay)
}

fn forget(terms: &mut Vec<Term>, variable: u16) {
    for term in terms.iter_mut() {
        if *term == Term::Exist(variable) {
            *term = Term::Nil;
        }
    }
}

fn make_part(work: &mut Work<'_>, node: u32, goal: &Heap, group: &Group) -> Result<u32, Stop> {
    let part = part_of(work, node, goal, group)?;
    if is_done(work, node, &part)? {
        return Ok(node);
    }
    let formula = part.right.clone()?;
    let next = work.cut_by_lemma(node, &part.pure, &part.places, formula, PART)?;
    name_existentials(work, next, &part.right)
}

fn crossing(work: &Work<'_>, node: u32) -> Option<Pure> {
    for atom in work.right(node).pure() {
        if is_universal_pure(*atom) && !follows(work.left(node).pure(), *atom) {
            return Some(*atom);
        }
    }
    None
}

/// Shows the pure atoms that cross the parts.
fn show_crossing(work: &mut Work<'_>, node: u32) -> Result<u32, Stop> {
    let mut at = node;
    for _ in 0..MOST_RULES {
        let Some(atom) = crossing(work, at) else {
            return Ok(at);
        };
        let Pure::Neq(t, u) = atom else {
            return Err(Stop::NoWay);
        };
        match work.apart(at, t, u)? {
            Some(next) => at = next,
            None => return Err(Stop::NoWay),
        }
    }
    Err(Stop::NoWay)
}

fn first_place(work: &Work<'_>, node: u32, group: &Group) -> usize {
    let atoms = work.left(node).spatial();
    for (place, atom) in atoms.iter().enumerate() {
        if group.has_atom(atom) {
            return place;
        }
    }
    atoms.len()
}

/// The groups in the order of the left side.
fn ordered(work: &Work<'_>, node: u32, groups: Vec<Group>) -> Result<Vec<Group>, Stop> {
    let mut groups = groups;
    groups.sort_by_key(|group| first_place(work, node, group))?;
    Ok(groups)
}

/// Closes a goal whose atoms fall into parts that share no variable: each becomes a lemma.
pub fn divide(work: &mut Work<'_>, node: u32) -> Result<(), Stop> {
    let groups = groups_at(work, node)?;
    if groups.len() < 2 {
        return Err(Stop::NoWay);
    }
    let groups = ordered(work, node, groups)?;
    let goal = work.right(node).clone()?;
    let mut at = node;
    for group in &groups {
        at = make_part(work, at, &goal, group)?;
    }
    let shown = show_crossing(work, at)?;
    work.frames(shown)
}
