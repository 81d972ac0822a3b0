//! What a list of reasons makes of a judgement, over any calculus of rules and links back: nodes in preorder, the open
//! goals, and a trace graph. And what a search finds is a proof whose every lasso progresses (Brotherston, Gorogiannis
//! and Petersen 2012). The functions of this page do nothing; their clauses are laws.

mod goals;
mod traces;
mod trials;

ghost use Rattle.std.specs.Prelude.{◌≡◌};
ghost use Rattle.trace_pairs.specs.Graph.{IsGraph};
ghost use Rattle.trace_pairs.specs.Lasso.{AllProgress};
ghost use Rattle.derivations.specs.Tableau.{Calculus};
ghost use Rattle.derivations.specs.Search.{EachReplayed, EachFound, EachIsSmall};
ghost use Rattle.derivations.specs.Fair.{IsFair};
ghost use Rattle.derivations.specs.Nodes.{HasRoot, reasons_of, MayStand, AllOffered, AllHavePremises};
ghost use Rattle.derivations.specs.Nodes.{StandApart, AllHaveEdges};

pub use cyc_basics::memory::OutOfMemory;
pub use goals::{MadeNode, OpenGoal, drop_goals, first_goal, has_room, push_goals};
pub use logics::{Subgoal, TracePairs};
pub use traces::GrowingTraces;
pub use trials::{is_above, tried};

/// A calculus, and the judgements and reasons that its derivations may have.
pub trait Rules {
    /// What a node states.
    type Judgement: Drop;

    /// Why a node holds: a rule or a link.
    type Reason: Drop;

    /// The calculus.
    ghost calculus: { Self → Calculus Self.Judgement Self.Reason };

    /// The judgements that may occur.
    ghost occurs: { Self → Self.Judgement → Type 0 };

    /// The reasons that may be given.
    ghost allows: { Self → Self.Reason → Type 0 };
}

/// The trace graph of what reasons make of a judgement is in order, once a node is made. So whether every lasso
/// progresses may be asked also while goals are open, and of a link that is not yet followed.
pub fn replayed_has_graph<C: Rules>(_rules: &C)
    requires fair { IsFair (C.calculus _rules.now) (C.occurs _rules.now) (C.allows _rules.now) }
    ensures { EachReplayed (C.calculus _rules.now) (C.occurs _rules.now) (C.allows _rules.now) (λ t. IsGraph t.graph) }
{}

/// What is found begins with the judgement that was searched for, and has the reasons that were found, in preorder.
pub fn found_derives<C: Rules>(_rules: &C)
    requires fair { IsFair (C.calculus _rules.now) (C.occurs _rules.now) (C.allows _rules.now) }
    ensures root { EachFound (C.calculus _rules.now) (C.occurs _rules.now) (λ j d t. HasRoot j t) }
    ensures reasons { EachFound (C.calculus _rules.now) (C.occurs _rules.now) (λ j d t. reasons_of t ≡ d) }
    ensures nodes { EachFound (C.calculus _rules.now) (C.occurs _rules.now)
        (λ j d t. MayStand (C.occurs _rules.now) (C.allows _rules.now) t) }
    ensures offered { EachFound (C.calculus _rules.now) (C.occurs _rules.now)
        (λ j d t. AllOffered (C.calculus _rules.now) t) }
{}

/// What is found has no open goal, and at most as many nodes and product states as the search allows.
pub fn found_is_small<C: Rules>(_rules: &C)
    requires fair { IsFair (C.calculus _rules.now) (C.occurs _rules.now) (C.allows _rules.now) }
    ensures { EachIsSmall (C.calculus _rules.now) (C.occurs _rules.now) }
{}

/// Each node of what is found has its premises, and one later node for each of them.
pub fn found_has_premises<C: Rules>(_rules: &C)
    requires fair { IsFair (C.calculus _rules.now) (C.occurs _rules.now) (C.allows _rules.now) }
    ensures premises { EachFound (C.calculus _rules.now) (C.occurs _rules.now)
        (λ j d t. AllHavePremises (C.calculus _rules.now) t) }
    ensures apart { EachFound (C.calculus _rules.now) (C.occurs _rules.now) (λ j d t. StandApart t) }
{}

/// The trace graph of what is found has an edge for each premise, in order, to the node that is made for it; and for a
/// link the one edge to where it leads.
pub fn found_has_edges<C: Rules>(_rules: &C)
    requires fair { IsFair (C.calculus _rules.now) (C.occurs _rules.now) (C.allows _rules.now) }
    ensures { EachFound (C.calculus _rules.now) (C.occurs _rules.now)
        (λ j d t. AllHaveEdges (C.calculus _rules.now) t) }
{}

/// The trace graph of what is found is in order, and every lasso of it progresses.
pub fn found_progresses<C: Rules>(_rules: &C)
    requires fair { IsFair (C.calculus _rules.now) (C.occurs _rules.now) (C.allows _rules.now) }
    ensures graph { EachFound (C.calculus _rules.now) (C.occurs _rules.now) (λ j d t. IsGraph t.graph) }
    ensures lassos { EachFound (C.calculus _rules.now) (C.occurs _rules.now) (λ j d t. AllProgress t.graph) }
{}
