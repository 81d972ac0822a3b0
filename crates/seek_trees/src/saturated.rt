// The facts that paths of an antecedent show.
use crate::stop::Stop;
use crate::work::{Work, rank_in};
use heap_formula::{Heap, Pure, Rule, Spatial};
use seek_shapes::{Emptied, TwoPaths, body_of, copies_at, heap_of, number_of};

/// The most facts that are shown at one goal.
const MOST_FACTS: u32 = 200;

/// What paths show next.
#[derive(Drop)]
enum Fact {
    Empty(Emptied),
    Equal(TwoPaths),
    Nothing,
}

impl Work<'_> {
    fn fact(&self, node: u32) -> Result<Fact, Stop> {
        let left = self.left(node);
        if let Some(emptied) = self.shapes.emptied(left)? {
            return Ok(Fact::Empty(emptied));
        }
        match self.shapes.two_paths(left)? {
            Some(paths) => Ok(Fact::Equal(paths)),
            None => Ok(Fact::Nothing),
        }
    }

    /// Cuts the atoms at these places by the same atoms and pure atoms.
    fn cut_by_facts(
        &mut self,
        node: u32,
        places: &[u32],
        kept: &[u32],
        pure: &[Pure],
    ) -> Result<(u32, u32), Stop> {
        let alloc = self.setting.alloc;
        let spatial = copies_at(alloc, self.left(node).spatial(), kept)?;
        match heap_of(Vec::from_slice(alloc, pure)?, spatial) {
            Some(formula) => self.cut(node, places, formula),
            None => Err(Stop::NoWay),
        }
    }

    /// The places of an emptied atom and of the evidence.
    fn places_of(&self, emptied: &Emptied) -> Result<Vec<u32>, Stop> {
        let mut places = emptied.evidence.clone()?;
        places.push(emptied.place)?;
        Ok(places)
    }

    /// The atom has a cell at an address of other atoms in every case.
    fn close_by_emptied(&mut self, node: u32, emptied: &Emptied) -> Result<(), Stop> {
        let places = self.places_of(emptied)?;
        let formula = self.contradiction()?;
        let (shown, rest) = self.cut(node, &places, formula)?;
        self.refute(shown)?;
        self.close(rest, &Rule::Absurd)
    }

    fn base_of(&self, atom: &Spatial) -> Result<(u32, Heap), Stop> {
        let Spatial::Pred(predicate, args) = atom else {
            return Err(Stop::NoWay);
        };
        let Some(case) = self.shapes.base_case(*predicate) else {
            return Err(Stop::NoWay);
        };
        let body = body_of(self.setting.alloc, case, args)?;
        match self.shapes.shape(*predicate) {
            Some(shape) => match shape.base {
                Some(base) => Ok((base.case, body)),
                None => Err(Stop::NoWay),
            },
            None => Err(Stop::NoWay),
        }
    }

    /// The atom is empty: its equations take its place.
    fn empty(&mut self, node: u32, emptied: &Emptied) -> Result<u32, Stop> {
        let atom = self.atom(node, emptied.place)?;
        let (base, body) = self.base_of(&atom)?;
        let places = self.places_of(emptied)?;
        let (shown, rest) = self.cut_by_facts(node, &places, &emptied.evidence, body.pure())?;
        let place = rank_in(&emptied.evidence, emptied.place);
        let premises = self.step(shown, &Rule::Unfold(place))?;
        for (case, premise) in premises.iter().enumerate() {
            if number_of(case) == base {
                self.equal_frames(*premise)?;
            } else {
                self.refute(*premise)?;
            }
        }
        Ok(rest)
    }

    /// Two paths lead from one term to another: they are equal.
    fn equate(&mut self, node: u32, paths: &TwoPaths) -> Result<u32, Stop> {
        let equation = Pure::Eq(paths.from, paths.to);
        let (shown, rest) = self.cut_by_facts(node, &paths.places, &paths.places, &[equation])?;
        let (equal, different) = self.two(shown, &Rule::Split(paths.from, paths.to))?;
        self.equal_frames(equal)?;
        self.refute(different)?;
        Ok(rest)
    }

    /// Brings the antecedent into normal form and adds what its paths show: an atom at an address of other atoms is
    /// empty, and terms between which two paths lead are equal. The node that is open then, if the goal is not closed
    /// by it.
    pub fn saturate(&mut self, node: u32) -> Result<Option<u32>, Stop> {
        let mut at = node;
        for _ in 0..MOST_FACTS {
            let Some(next) = self.normal(at)? else {
                return Ok(None);
            };
            at = match self.fact(next)? {
                Fact::Empty(emptied) if emptied.may_be_empty => self.empty(next, &emptied)?,
                Fact::Empty(emptied) => {
                    self.close_by_emptied(next, &emptied)?;
                    return Ok(None);
                }
                Fact::Equal(paths) => self.equate(next, &paths)?,
                Fact::Nothing => return Ok(Some(next)),
            };
        }
        Err(Stop::NoWay)
    }
}
