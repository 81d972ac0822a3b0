// The normal form of an antecedent: no contradiction on sight, no equation, no disequation twice, and no atom of which
// only an empty case is left.
use crate::stop::Stop;
use crate::work::{Work, rank_in};
use heap_formula::{Args, Heap, Pure, Rule, Spatial, Term};
use rule_table::{has_pure, is_universal_pure};
use seek_engine::first_equation;
use seek_shapes::{Forced, body_of, clashes, copies_at, forced_atom, heap_of, number_of};

/// The most rules on the way to a normal form.
const MOST_RULES: u32 = 300;

/// What is to be done next.
#[derive(Drop)]
enum Next {
    Close,
    Go(Rule),
    Force(Forced),
    Nothing,
}

fn repeated(heap: &Heap) -> Option<u32> {
    for (k, atom) in heap.pure().iter().enumerate() {
        if has_pure(&heap.pure()[..k], *atom) {
            return Some(number_of(k));
        }
    }
    None
}

fn most_atoms(cases: &[Heap]) -> usize {
    let mut most = 0;
    for case in cases {
        most = case.spatial().len().max(most);
    }
    most
}

impl Work<'_> {
    fn next_rule(&self, node: u32) -> Option<Rule> {
        let left = self.left(node);
        match first_equation(left) {
            Some(rule) => Some(rule),
            None => match repeated(left) {
                Some(k) => Some(Rule::Weaken(k)),
                None => None,
            },
        }
    }

    fn next(&self, node: u32) -> Result<Next, Stop> {
        if self.is_absurd(node)? {
            return Ok(Next::Close);
        }
        if let Some(rule) = self.next_rule(node) {
            return Ok(Next::Go(rule));
        }
        match forced_atom(self.setting.alloc, self.setting.defs, self.left(node))? {
            Some(forced) => Ok(Next::Force(forced)),
            None => Ok(Next::Nothing),
        }
    }

    /// Brings the antecedent into normal form: the node that is open then, if the goal is not closed by it.
    pub fn normal(&mut self, node: u32) -> Result<Option<u32>, Stop> {
        let mut at = node;
        for _ in 0..MOST_RULES {
            match self.next(at)? {
                Next::Close => {
                    self.close(at, &Rule::Absurd)?;
                    return Ok(None);
                }
                Next::Go(rule) => at = self.one(at, &rule)?,
                Next::Force(forced) => match self.force(at, forced)? {
                    Some(next) => at = next,
                    None => return Ok(None),
                },
                Next::Nothing => return Ok(Some(at)),
            }
        }
        Err(Stop::NoWay)
    }

    fn has_room(&self, node: u32, predicate: u16) -> bool {
        let grows = most_atoms(self.setting.defs.cases(predicate));
        let count = self.left(node).spatial().len().saturating_add(grows);
        count <= (self.setting.defs.most().spatial as usize).saturating_add(1)
    }

    fn force(&mut self, node: u32, forced: Forced) -> Result<Option<u32>, Stop> {
        let Spatial::Pred(predicate, args) = self.atom(node, forced.place)? else {
            return Err(Stop::NoWay);
        };
        if !self.has_room(node, predicate) {
            return self.force_apart(node, forced, predicate, &args);
        }
        let mut open = None;
        let premises = self.step(node, &Rule::Unfold(forced.place))?;
        for (case, premise) in premises.iter().enumerate() {
            if forced.case == Some(number_of(case)) {
                open = Some(*premise);
            } else {
                self.close_absurd(*premise)?;
            }
        }
        Ok(open)
    }

    /// Whether the other cases clash with these atoms alone.
    fn suffice(
        &self,
        left: &Heap,
        forced: Forced,
        predicate: u16,
        args: &Args,
        others: &[u32],
    ) -> Result<bool, Stop> {
        let alloc = self.setting.alloc;
        let spatial = copies_at(alloc, left.spatial(), others)?;
        let pure = Vec::from_slice(alloc, left.pure())?;
        let Some(part) = heap_of(pure, spatial) else {
            return Ok(false);
        };
        for (number, case) in self.setting.defs.cases(predicate).iter().enumerate() {
            if forced.case != Some(number_of(number)) {
                let body = body_of(alloc, case, args)?;
                if !clashes(alloc, &part, &body)? {
                    return Ok(false);
                }
            }
        }
        Ok(true)
    }

    /// At most two other atoms with which the other cases clash.
    fn few(
        &self,
        node: u32,
        forced: Forced,
        predicate: u16,
        args: &Args,
    ) -> Result<Vec<u32>, Stop> {
        let left = self.left(node);
        let alloc = self.setting.alloc;
        let count = number_of(left.spatial().len());
        if self.suffice(left, forced, predicate, args, &[])? {
            return Ok(Vec::new(alloc));
        }
        for first in 0..count {
            for second in first..count {
                let is_other = first != forced.place && second != forced.place;
                if is_other && self.suffice(left, forced, predicate, args, &[first, second])? {
                    return Ok(Vec::from_slice(alloc, &[first, second])?);
                }
            }
        }
        Err(Stop::NoWay)
    }

    /// What the atom and these others become: the equations of the case that is left, or a contradiction.
    fn forced_formula(
        &self,
        node: u32,
        forced: Forced,
        predicate: u16,
        args: &Args,
        others: &[u32],
    ) -> Result<Heap, Stop> {
        let alloc = self.setting.alloc;
        let Some(case) = forced.case else {
            return self.contradiction();
        };
        let Some(case) = self.setting.defs.cases(predicate).get(case as usize) else {
            return Err(Stop::NoWay);
        };
        let body = body_of(alloc, case, args)?;
        let spatial = copies_at(alloc, self.left(node).spatial(), others)?;
        match heap_of(Vec::from_slice(alloc, body.pure())?, spatial) {
            Some(formula) if all_universal(formula.pure()) => Ok(formula),
            _ => Err(Stop::NoWay),
        }
    }

    /// `nil != nil`.
    pub fn contradiction(&self) -> Result<Heap, Stop> {
        let heap = Heap::from_slices(self.setting.alloc, &[Pure::Neq(Term::Nil, Term::Nil)], &[])?;
        Ok(heap)
    }

    /// The same where the antecedent has no room for a body: in a Cut with few other atoms.
    fn force_apart(
        &mut self,
        node: u32,
        forced: Forced,
        predicate: u16,
        args: &Args,
    ) -> Result<Option<u32>, Stop> {
        let mut places = self.few(node, forced, predicate, args)?;
        if let [first, second] = places.as_slice() {
            if *first == *second {
                places.truncate(1);
            }
        }
        let formula = self.forced_formula(node, forced, predicate, args, &places)?;
        let before = rank_in(&places, forced.place);
        places.push(forced.place)?;
        let (shown, rest) = self.cut(node, &places, formula)?;
        self.close_forced(shown, before, forced)?;
        if forced.case.is_none() {
            self.close(rest, &Rule::Absurd)?;
            return Ok(None);
        }
        Ok(Some(rest))
    }

    fn close_forced(&mut self, node: u32, place: u32, forced: Forced) -> Result<(), Stop> {
        let premises = self.step(node, &Rule::Unfold(place))?;
        for (case, premise) in premises.iter().enumerate() {
            if forced.case == Some(number_of(case)) {
                self.equal_frames(*premise)?;
            } else {
                self.close_absurd(*premise)?;
            }
        }
        Ok(())
    }
}

fn all_universal(atoms: &[Pure]) -> bool {
    for atom in atoms {
        if !is_universal_pure(*atom) {
            return false;
        }
    }
    true
}
