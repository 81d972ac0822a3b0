// Sequents.
ghost use Rattle.std.specs.Prelude.{◌≡◌, ◌↔◌, IsTrue};

use crate::atoms::FoAtoms;
use std::alloc::AllocError;

/// A sequent (Gentzen 1935): each valuation that satisfies all atoms on the left satisfies some atom on the right.
#[derive(PartialEq, Drop)]
pub struct FoSequent {
    pub left: FoAtoms,
    pub right: FoAtoms,
}

impl Clone for FoSequent {
    ghost is_clone = { λ sequent copy. copy ≡ sequent };

    fn clone(&self) -> Result<FoSequent, AllocError> {
        let left = self.left.clone()?;
        let right = self.right.clone()?;
        Ok(FoSequent { left, right })
    }
}

/// Whether two sequents are one as they stand.
pub fn is_same_sequent(a: &FoSequent, b: &FoSequent) -> bool
    ensures { IsTrue result ↔ (a.now ≡ b.now) }
{
    *a == *b
}
