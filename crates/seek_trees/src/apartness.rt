// Disequations that an antecedent gives.
use crate::stop::Stop;
use crate::work::Work;
use heap_formula::{Pure, Rule, Term};
use seek_engine::distinct_for;
use seek_shapes::{copies_at, differ, heap_of};

impl Work<'_> {
    /// By atoms that show it: they are cut out and put in again with the disequation.
    fn show_apart(&mut self, node: u32, places: &[u32], t: Term, u: Term) -> Result<u32, Stop> {
        let alloc = self.setting.alloc;
        let spatial = copies_at(alloc, self.left(node).spatial(), places)?;
        let pure = vec![in alloc; Pure::Neq(t, u)]?;
        let Some(formula) = heap_of(pure, spatial) else {
            return Err(Stop::NoWay);
        };
        let (shown, rest) = self.cut(node, places, formula)?;
        let (equal, different) = self.two(shown, &Rule::Split(t, u))?;
        self.refute(equal)?;
        self.frames(different)?;
        Ok(rest)
    }

    /// The node at which the antecedent says that two terms differ, by cells or by atoms that show it; if there are
    /// none, the tree is as before.
    pub fn apart_by_atoms(&mut self, node: u32, t: Term, u: Term) -> Result<Option<u32>, Stop> {
        if t == u || differ(self.left(node), t, u) {
            return Ok(if t == u { None } else { Some(node) });
        }
        if let Some(rule) = distinct_for(self.left(node), Pure::Neq(t, u), &[]) {
            return Ok(Some(self.one(node, &rule)?));
        }
        let Some(places) = self.shapes.apart(self.left(node), t, u)? else {
            return Ok(None);
        };
        let kept = self.tree.len();
        let outcome = self.show_apart(node, &places, t, u);
        self.or_undo(node, kept, outcome)
    }

    fn split_apart(&mut self, node: u32, t: Term, u: Term) -> Result<u32, Stop> {
        let (equal, different) = self.two(node, &Rule::Split(t, u))?;
        match self.saturate(equal)? {
            None => Ok(different),
            Some(_) => Err(Stop::NoWay),
        }
    }

    /// The same, or by a Split whose other branch is contradictory.
    pub fn apart(&mut self, node: u32, t: Term, u: Term) -> Result<Option<u32>, Stop> {
        let found = self.apart_by_atoms(node, t, u)?;
        if found.is_some() || t == u {
            return Ok(found);
        }
        let kept = self.tree.len();
        let outcome = self.split_apart(node, t, u);
        self.or_undo(node, kept, outcome)
    }
}
