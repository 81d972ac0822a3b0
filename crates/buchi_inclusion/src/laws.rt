//! Laws of the inclusion and of the descent, over the definitions alone.

ghost use Rattle.std.specs.Prelude.{ℕ, List, ◌↔◌};
ghost use Rattle.trace_pairs.specs.Graph.{Node, IsGraph};
ghost use Rattle.trace_pairs.specs.Lasso.{AllProgress};
ghost use Rattle.trace_pairs.specs.System.{NoneFaulty};
ghost use Rattle.buchi_inclusion.specs.Product.{BadCycle};
ghost use Rattle.buchi_inclusion.specs.Inclusion.{IsInclusion, IsSameKind};
ghost use Rattle.buchi_inclusion.specs.declared.Inclusion.{Inclusion};

use trace_pairs::ProofSystem;

/// Two answers that are true of one graph and limit are of one kind. So each answer of `included` comes exactly where
/// what it says is true.
pub fn answers_agree()
    ensures { (g : List Node) (limit : ℕ) (a b : Inclusion) → IsInclusion g limit a → IsInclusion g limit b
        → IsSameKind a b }
{}

/// Every lasso of a graph in order progresses exactly where no cycle of the product with age forests is bad: none that
/// is reached from node 0 has a death as its earliest event, or no event at all (Safra 1988).
pub fn product_decides()
    ensures { (g : List Node) → IsGraph g → AllProgress g ↔ (BadCycle g → ⊥) }
{}

/// Infinite descent: where no node is faulty and every lasso progresses, node 0 holds at all stages (Brotherston and
/// Simpson 2011).
pub fn descends<P: ProofSystem>(_proof: &P)
    requires right { NoneFaulty (P.graph_of _proof.now) (P.is_faulty _proof.now) }
    requires lassos { AllProgress (P.graph_of _proof.now) }
    ensures { (stages : ℕ → ℕ) → P.holds _proof.now 0 stages }
{}
