//! Whether every lasso of a trace graph progresses, and how many product states there are, as functions of the graph,
//! for definitions to cite. They are far too slow to run. The functions here do nothing; their clauses are laws.

ghost use Rattle.std.specs.Prelude.{ℕ, List, true, ◌≡◌, ◌<◌, ◌↔◌};
ghost use Rattle.trace_pairs.specs.Graph.{Node, Pair};
ghost use Rattle.trace_pairs.specs.Graph.{IsGraph};
ghost use Rattle.trace_pairs.specs.Lasso.{AllProgress};
ghost use Rattle.buchi_inclusion.specs.Answers.{HasMoreThan};
ghost use Rattle.buchi_inclusion.specs.Leaf.{with_leaf};
ghost use Rattle.buchi_inclusion.specs.Decide.{progresses, number_of};

/// The test says whether every lasso progresses.
pub fn progress_is_decided()
    ensures { (g : List Node) → IsGraph g → (progresses g ≡ true) ↔ AllProgress g }
{}

/// The number is above a limit exactly where more product states than it are reachable.
pub fn number_is_counted()
    ensures { (g : List Node) (limit : ℕ) → IsGraph g → (limit < number_of g) ↔ HasMoreThan g limit }
{}

/// A new node without edges, and an edge to it, bring no lasso that doesn't progress.
pub fn leaf_keeps_progress()
    ensures { (g : List Node) (p : ℕ) (pairs : List Pair) (positions : List ℕ) → AllProgress g
        → AllProgress (with_leaf g p pairs positions) }
{}
