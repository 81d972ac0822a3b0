// The first flaw of a file, as it shows in what is kept of its trees.
ghost use Rattle.std.specs.Prelude.{ℕ, List, map};
ghost use Rattle.cyc_basics.specs.declared.limits.Limits.{Limits};
ghost use Rattle.heap_syntax.specs.declared.keep.Keep.TheVariants.{Beyond};
ghost use Rattle.heap_syntax.specs.DefinitionTrees.{Definition};
ghost use Rattle.heap_syntax.specs.DefinitionKeeping.{definition_front};
ghost use Rattle.heap_syntax.specs.EndKeeping.{end_front};
ghost use Rattle.proof_syntax.specs.Trees.{Line, End, Node};
ghost use Rattle.proof_syntax.specs.Keeping.{node_front};
ghost use Rattle.heap_reader.specs.Trees.{Heading};
ghost use Rattle.heap_reader.specs.Flaws.{listed_flaw};
ghost use Rattle.heap_reader.specs.DefinitionFlaws.{definition_flaw};
ghost use Rattle.heap_reader.specs.DefinitionSpans.{definition_span};
ghost use Rattle.proof_file.specs.Flaws.{program_ends_flaw, node_flaw};
ghost use Rattle.proof_file.specs.Fronts.{KeepsEnough, HasItsFlaw, IsWholeIfFlawless};

/// Where more members are kept of each list than any limit allows, the first flaw of what is kept is the first flaw,
/// and without a flaw all is kept: so a reader need not hold what stands after a member that is one too many. The
/// function does nothing.
pub fn flaws_show_in_what_is_kept()
    ensures definitions { (most : Limits) (m : ℕ) → KeepsEnough most m → (hs : List Heading) (n k : ℕ)
        (ds : List Definition)
        → HasItsFlaw (listed_flaw (definition_flaw most hs) definition_span n k)
        (map (definition_front (Beyond m))) ds }
    ensures whole_definitions { (most : Limits) (m : ℕ) → KeepsEnough most m → (hs : List Heading) (n k : ℕ)
        (ds : List Definition)
        → IsWholeIfFlawless (listed_flaw (definition_flaw most hs) definition_span n k)
        (map (definition_front (Beyond m))) ds }
    ensures ends { (most : Limits) (m : ℕ) → KeepsEnough most m → (hs : List Heading) (ls : List Line) (k : ℕ)
        (es : List End) → HasItsFlaw (program_ends_flaw most hs ls k) (map (end_front (Beyond m))) es }
    ensures whole_ends { (most : Limits) (m : ℕ) → KeepsEnough most m → (hs : List Heading) (ls : List Line) (k : ℕ)
        (es : List End) → IsWholeIfFlawless (program_ends_flaw most hs ls k) (map (end_front (Beyond m))) es }
    ensures node { (most : Limits) (m : ℕ) → KeepsEnough most m → (hs : List Heading) (count n k : ℕ) (x : Node)
        → HasItsFlaw (node_flaw most hs count n k) (node_front (Beyond m)) x }
    ensures whole_node { (most : Limits) (m : ℕ) → KeepsEnough most m → (hs : List Heading) (count n k : ℕ) (x : Node)
        → IsWholeIfFlawless (node_flaw most hs count n k) (node_front (Beyond m)) x }
{}
