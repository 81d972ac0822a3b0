// What stands on both sides.
use crate::stop::Stop;
use crate::work::Work;
use heap_formula::{Heap, Rule};
use rule_table::{follows, is_universal_pure, is_universal_spatial};
use seek_shapes::{free_place, number_of};

/// The most rules that take away what both sides have.
const MOST_SHARED: u32 = 200;

/// The rule that takes the first pure atom of the right side that follows, or else its first spatial atom that the left
/// side has.
pub fn shared_rule(left: &Heap, right: &Heap) -> Option<Rule> {
    for (k, atom) in right.pure().iter().enumerate() {
        if is_universal_pure(*atom) && follows(left.pure(), *atom) {
            return Some(Rule::PureRight(number_of(k)));
        }
    }
    for (k, wanted) in right.spatial().iter().enumerate() {
        if is_universal_spatial(wanted) {
            if let Some(place) = free_place(left.spatial(), &[], wanted) {
                return Some(Rule::Frame(place, number_of(k)));
            }
        }
    }
    None
}

impl Work<'_> {
    /// Closes a node all of whose right side stands on the left, and nothing more there.
    pub fn frames(&mut self, node: u32) -> Result<(), Stop> {
        let mut at = node;
        for _ in 0..MOST_SHARED {
            match shared_rule(self.left(at), self.right(at)) {
                Some(rule) => at = self.one(at, &rule)?,
                None => return self.close(at, &Rule::Done),
            }
        }
        Err(Stop::NoWay)
    }

    /// The same after all equations were used.
    pub fn equal_frames(&mut self, node: u32) -> Result<(), Stop> {
        let at = self.rewritten(node)?;
        if self.is_absurd(at)? {
            return self.close(at, &Rule::Absurd);
        }
        self.frames(at)
    }
}
