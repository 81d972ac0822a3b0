// Antecedents that no state satisfies.
use crate::stop::Stop;
use crate::work::Work;
use heap_formula::{Heap, Rule, Spatial, Term};
use seek_shapes::{Edge, number_of};

/// The most goals of one refutation.
const MOST_GOALS: u32 = 400;

/// What may be done at a contradictory antecedent: the first two branch, the last shows that the first atom has a
/// further address that is `nil` or another atom's.
#[derive(Drop)]
enum Branch {
    Unfold(u32),
    Split(Term, Term),
    FarEnd(Vec<u32>, Term),
}

impl Work<'_> {
    /// Whether another atom has the term as its root.
    fn shares_root(&self, heap: &Heap, place: usize, root: Term) -> bool {
        for (other, atom) in heap.spatial().iter().enumerate() {
            if other != place && self.shapes.root(atom) == Some(root) {
                return true;
            }
        }
        false
    }

    /// The first predicate atom whose root another atom has too.
    fn meeting(&self, heap: &Heap) -> Option<u32> {
        for (place, atom) in heap.spatial().iter().enumerate() {
            if let (Spatial::Pred(_, _), Some(root)) = (atom, self.shapes.root(atom)) {
                if self.shares_root(heap, place, root) {
                    return Some(number_of(place));
                }
            }
        }
        None
    }

    fn has_address(&self, atom: &Spatial, term: Term) -> Result<bool, Stop> {
        for edge in &self.shapes.edges(atom)? {
            if edge.root == term {
                return Ok(true);
            }
        }
        Ok(false)
    }

    fn other_at(&self, heap: &Heap, place: usize, term: Term) -> Result<Option<u32>, Stop> {
        for (other, atom) in heap.spatial().iter().enumerate() {
            if other != place && self.has_address(atom, term)? {
                return Ok(Some(number_of(other)));
            }
        }
        Ok(None)
    }

    /// The branch that makes an atom have a cell, if that is not known.
    fn branch_at(
        &self,
        heap: &Heap,
        place: u32,
        unfolded_at: Option<Term>,
    ) -> Result<Option<Branch>, Stop> {
        let Some(atom) = heap.spatial_at(place) else {
            return Ok(None);
        };
        let is_root = unfolded_at.is_some() && self.shapes.root(atom) == unfolded_at;
        if is_root && matches!(atom, Spatial::Pred(_, _)) {
            return Ok(Some(Branch::Unfold(place)));
        }
        if self.shapes.is_solid(heap, atom)? {
            return Ok(None);
        }
        match self.shapes.edge(atom) {
            Some(
                Edge {
                    root,
                    end: Some(end),
                },
            ) => Ok(Some(Branch::Split(root, end))),
            _ => Ok(None),
        }
    }

    /// Whether the term is the atom's end, and apart from its addresses.
    fn is_own_end(&self, atom: &Spatial, term: Term) -> bool {
        match self.shapes.edge(atom) {
            Some(edge) => edge.end == Some(term) && self.shapes.is_end_apart(atom),
            None => false,
        }
    }

    /// What is to be done about a further address of an atom, if it is `nil`, the atom's end or another atom's address.
    fn branch_by(
        &self,
        heap: &Heap,
        place: usize,
        atom: &Spatial,
        term: Term,
    ) -> Result<Option<Branch>, Stop> {
        let mut places = vec![in self.setting.alloc; number_of(place)]?;
        if term != Term::Nil && !self.is_own_end(atom, term) {
            let Some(other) = self.other_at(heap, place, term)? else {
                return Ok(None);
            };
            let branch = self.branch_at(heap, other, Some(term))?;
            if branch.is_some() {
                return Ok(branch);
            }
            places.push(other)?;
        }
        match self.branch_at(heap, number_of(place), None)? {
            Some(branch) => Ok(Some(branch)),
            None => Ok(Some(Branch::FarEnd(places, term))),
        }
    }

    fn push_branches(
        &self,
        found: &mut Vec<Branch>,
        heap: &Heap,
        place: usize,
        atom: &Spatial,
    ) -> Result<(), Stop> {
        let edges = self.shapes.edges(atom)?;
        for edge in edges.iter().skip(1) {
            if let Some(branch) = self.branch_by(heap, place, atom, edge.root)? {
                found.push(branch)?;
            }
        }
        Ok(())
    }

    fn branches(&self, node: u32) -> Result<Vec<Branch>, Stop> {
        let heap = self.left(node);
        let mut found = Vec::new(self.setting.alloc);
        if let Some(place) = self.meeting(heap) {
            found.push(Branch::Unfold(place))?;
            return Ok(found);
        }
        for (place, atom) in heap.spatial().iter().enumerate() {
            self.push_branches(&mut found, heap, place, atom)?;
        }
        Ok(found)
    }

    /// Makes a branch, and says whether it could be made.
    fn try_branch(
        &mut self,
        node: u32,
        branch: &Branch,
        goals: &mut Vec<u32>,
    ) -> Result<bool, Stop> {
        let kept = self.tree.len();
        let mut premises = match branch {
            Branch::Unfold(place) => self.step(node, &Rule::Unfold(*place))?,
            Branch::Split(t, u) => self.step(node, &Rule::Split(*t, *u))?,
            Branch::FarEnd(places, term) => {
                let outcome = self.close_by_far_end(node, places, *term);
                return Ok(self.or_undo(node, kept, outcome)?.is_some());
            }
        };
        goals.append(&mut premises)?;
        Ok(true)
    }

    fn refute_next(&mut self, goal: u32, goals: &mut Vec<u32>) -> Result<(), Stop> {
        let Some(node) = self.normal(goal)? else {
            return Ok(());
        };
        for branch in &self.branches(node)? {
            if self.try_branch(node, branch, goals)? {
                return Ok(());
            }
        }
        Err(Stop::NoWay)
    }

    /// Closes a goal whose antecedent is contradictory: by branches at atoms that share an address, the one with a cell
    /// first, since it fails more often.
    pub fn refute(&mut self, node: u32) -> Result<(), Stop> {
        let mut goals = vec![in self.setting.alloc; node]?;
        for _ in 0..MOST_GOALS {
            let Some(goal) = goals.pop() else {
                return Ok(());
            };
            self.refute_next(goal, &mut goals)?;
        }
        Err(Stop::NoWay)
    }
}
