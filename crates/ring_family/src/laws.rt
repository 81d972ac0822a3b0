// The laws of the ring family. The functions do nothing.
ghost use Rattle.std.specs.Prelude.{◌≡◌, ◌<◌, ◌≤◌, ◌+◌, ◌*◌, ℕ, [], ◌∷◌, Bool, true, false, Some, slice_get, length};
ghost use Rattle.std.specs.Prelude.{count_by};
ghost use Rattle.heap_formula.specs.declared.terms.Term.TheVariants.{Univ};
ghost use Rattle.heap_formula.specs.declared.judgements.Judgement.TheVariants.{Entail};
ghost use Rattle.heap_formula.specs.declared.proof_rules.Link.{Link};
ghost use Rattle.heap_formula.specs.declared.proof_rules.Reason.{Reason};
ghost use Rattle.heap_formula.specs.declared.proof_rules.Reason.TheVariants.{Step, Back};
ghost use Rattle.heap_formula.specs.declared.proof_rules.Rule.{Rule};
ghost use Rattle.trace_pairs.specs.Lasso.{AllProgress};
ghost use Rattle.buchi_inclusion.specs.Answers.{HasAtMost, HasMoreThan};
ghost use Rattle.heap_syntax.specs.declared.version.Version.TheVariants.{One};
ghost use Rattle.heap_syntax.specs.Versions.{limits};
ghost use Rattle.proof_file.specs.Written.{text_of_file};
ghost use Rattle.proof_file.specs.declared.file.ProofFile.{ProofFile};
ghost use Rattle.proof_file.specs.FileNodes.{FileNode};
ghost use Rattle.proof_check.specs.Verdicts.{Verdict};
ghost use Rattle.logics.specs.declared.verdict.Verdict.TheVariants.{Accepted};
ghost use Rattle.proof_check.specs.Files.{AreRight, graph_of};
ghost use Rattle.proof_check.specs.Verdicts.{file_graph, IsCorrect, IsVerdict};
ghost use Rattle.ring_family.specs.Ring.{holds, ring_definitions, ring_nodes, file_nodes};

/// The proof of the ring of k predicates, for k from 1 to 2,000, within the limits of version 1 and without a program:
/// each node is right, every lasso progresses, and the product with age forests has exactly 8 k + 1 reachable states.
pub fn ring_is_correct()
    ensures right { (k : ℕ) → 1 ≤ k → k ≤ 2000 → AreRight (limits One) (ring_definitions k) [] (ring_nodes k) }
    ensures paths { (k : ℕ) → 1 ≤ k → k ≤ 2000
        → AllProgress (graph_of (limits One) (ring_definitions k) [] (ring_nodes k)) }
    ensures at_most { (k : ℕ) → 1 ≤ k → k ≤ 2000
        → HasAtMost (graph_of (limits One) (ring_definitions k) [] (ring_nodes k)) (8 * k + 1) }
    ensures at_least { (k : ℕ) → 1 ≤ k → k ≤ 2000
        → HasMoreThan (graph_of (limits One) (ring_definitions k) [] (ring_nodes k)) (8 * k) }
{}

/// The text of a ring's file is shorter than the greatest input.
pub fn ring_texts_are_short()
    ensures { (k : ℕ) → 1 ≤ k → k ≤ 2000
        → length (text_of_file One (ring_definitions k) [] (file_nodes (ring_nodes k))) < 16777216 }
{}

/// What is told of a ring's proof: the root is an entailment, and of 8 k + 1 nodes one is a link, by any test that
/// tells links from steps by rules.
pub fn ring_has_one_link()
    ensures root { (k : ℕ) (root : FileNode) → slice_get (file_nodes (ring_nodes k)) 0 ≡ Some root
        → root.judgement ≡ Entail (holds 0 (Univ 0)) (holds k (Univ 0) ∷ []) }
    ensures size { (k : ℕ) → length (file_nodes (ring_nodes k)) ≡ 8 * k + 1 }
    ensures links { (is_link : Reason → Bool) → ((rule : Rule) → is_link (Step rule) ≡ false)
        → ((link : Link) → is_link (Back link) ≡ true) → (k : ℕ)
        → count_by (λ (n : FileNode). is_link n.reason) (file_nodes (ring_nodes k)) ≡ 1 }
{}

/// A check can say nothing else of a ring's file, or of a file that says the same, than that it is accepted.
pub fn ring_is_accepted()
    ensures same { (k : ℕ) → 1 ≤ k → k ≤ 2000 → (f : ProofFile) → f.defs.most ≡ limits One
        → f.defs.list ≡ ring_definitions k → f.program ≡ [] → f.nodes ≡ ring_nodes k → (v : Verdict)
        → IsVerdict f v → v ≡ Accepted }
    ensures correct { (k : ℕ) (f : ProofFile) (v : Verdict) → IsVerdict f v → IsCorrect f
        → HasAtMost (file_graph f) (8 * k + 1) → k ≤ 2000 → v ≡ Accepted }
{}
