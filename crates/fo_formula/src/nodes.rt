// Rules, links, and nodes of proofs.
ghost use Rattle.std.specs.Prelude.{◌≡◌};

use crate::atoms::FoAtom;
use crate::sequents::FoSequent;
use crate::terms::{Term, Terms};
use crate::theory::FoTheory;
use heap_formula::{Positions, Side};
use logics::ProofNode;
use std::alloc::AllocError;
use std::marker::Model;

/// A rule with its arguments (Brotherston and Simpson 2011); numbers are positions from 0. `Axiom` names an atom on
/// each side, `Refl` and `WeakenRight` one on the right, `Right` one on the right, a case of its predicate, and the
/// terms for the case's locals; the others name one on the left. `Replace` names the side of the equation whose
/// variable goes.
#[derive(Clone, Drop)]
pub enum FoRule {
    Axiom { left: u32, right: u32 },
    Refl(u32),
    Clash(u32),
    Decompose(u32),
    Replace { atom: u32, side: Side },
    WeakenLeft(u32),
    WeakenRight(u32),
    Contract(u32),
    Unfold(u32),
    Cut(FoAtom),
    Right { atom: u32, case: u32, terms: Terms },
}

/// A substitution: terms for numbers of variables. The first pair for a variable counts, and a variable without a pair
/// stays.
#[derive(Drop)]
pub struct FoSubst {
    pairs: Vec<(u16, Term)>,
}

impl Model for FoSubst {
    ghost use Rattle.std.specs.Prelude.{List, ℕ};
    ghost use Rattle.fo_formula.specs.declared.terms.Sign.{Sign};

    ghost Value = { List (ℕ × List Sign) };

    ghost view = { λ x. x.pairs.items };
}

impl Clone for FoSubst {
    ghost is_clone = { λ from copy. copy ≡ from };

    fn clone(&self) -> Result<FoSubst, AllocError> {
        let pairs = self.pairs.clone()?;
        Ok(FoSubst { pairs })
    }
}

impl FoSubst {
    /// These pairs in this order, without a copy.
    pub fn from_vec(pairs: Vec<(u16, Term)>) -> FoSubst
        ensures { result ≡ pairs.items }
    {
        FoSubst { pairs }
    }

    /// The pairs in order.
    pub fn as_slice(&self) -> &[(u16, Term)]
        ensures { result.now ≡ self.now }
    {
        &self.pairs
    }
}

/// A link from a bud to its companion: the companion's number, the terms for its variables, and for each of its atoms
/// on the left and on the right the bud's atom that it becomes.
#[derive(Drop)]
pub struct FoLink {
    pub to: u32,
    pub substitution: FoSubst,
    pub left_map: Positions,
    pub right_map: Positions,
}

impl Clone for FoLink {
    ghost is_clone = { λ link copy. copy ≡ link };

    fn clone(&self) -> Result<FoLink, AllocError> {
        let substitution = self.substitution.clone()?;
        let left_map = self.left_map.clone()?;
        let right_map = self.right_map.clone()?;
        Ok(FoLink {
            to: self.to,
            substitution,
            left_map,
            right_map,
        })
    }
}

/// Why a node holds: by a rule, from its premises, or by a link, from its companion.
#[derive(Drop)]
pub enum FoReason {
    Rule(FoRule),
    Link(FoLink),
}

impl Clone for FoReason {
    ghost is_clone = { λ reason copy. copy ≡ reason };

    fn clone(&self) -> Result<FoReason, AllocError> {
        match self {
            FoReason::Rule(rule) => Ok(FoReason::Rule(rule.clone()?)),
            FoReason::Link(link) => Ok(FoReason::Link(link.clone()?)),
        }
    }
}

/// A node of a proof: its sequent, why it holds, and the numbers of the nodes that prove its premises.
pub type FoNode = ProofNode<FoSequent, FoReason>;

/// The nodes of a proof, in order; node 0 bears what is proved.
#[derive(Drop)]
pub struct FoNodes {
    nodes: Vec<FoNode>,
}

impl Model for FoNodes {
    ghost use Rattle.std.specs.Prelude.{List};
    ghost use Rattle.fo_formula.specs.Nodes.{FoNode};

    ghost Value = { List FoNode };

    ghost view = { λ x. x.nodes.items };
}

impl FoNodes {
    /// These nodes in this order, without a copy.
    pub fn from_vec(nodes: Vec<FoNode>) -> FoNodes
        ensures { result ≡ nodes.items }
    {
        FoNodes { nodes }
    }

    /// The nodes in order.
    pub fn as_slice(&self) -> &[FoNode]
        ensures { result.now ≡ self.now }
    {
        &self.nodes
    }
}

/// A proof: the theory that it speaks of, and its nodes.
#[derive(Drop)]
pub struct FoFile {
    pub theory: FoTheory,
    pub nodes: FoNodes,
}
