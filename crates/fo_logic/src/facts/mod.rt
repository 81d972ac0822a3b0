//! Small facts about the meaning of formulas and programs, and about the rule table of first-order logic, each the
//! contract of a function that does nothing: a reader sees by them that the definitions say what they are meant to say.

mod first_order;

ghost use Rattle.std.specs.Prelude.{◌≡◌, ℕ, ◌<◌, List, [], ◌∷◌};
ghost use Rattle.heap_formula.specs.Definitions.{Definition};
ghost use Rattle.heap_formula.specs.Cells.{Cells};
ghost use Rattle.heap_formula.specs.Meaning.{least, EntailmentHolds};
ghost use Rattle.heap_formula.specs.Programs.{Config, EndHolds, Halts};
ghost use Rattle.fo_logic.specs.Samples.{acyclic_segments, two_segments, one_segment, two_locals, two_of_them};
ghost use Rattle.fo_logic.specs.Samples.{allocating, stopping, UsesItself};
ghost use Rattle.heap_formula.specs.Symbolic.{SymbolicHeap, emp};
ghost use Rattle.heap_formula.specs.declared.commands.Command.TheVariants.{Ends};

pub use first_order::{a_link_needs_its_substitution, nodes_of_a_proof_are_right, terms_clash};

/// Acyclic list segments do not compose: with the stack 1, 2, 1 and the cells 1 -> (2) and 2 -> (1), both segments are
/// there, and no acyclic segment leads from 1 to 1 over two cells.
pub fn acyclic_segments_do_not_compose()
    ensures { ¬ EntailmentHolds acyclic_segments two_segments (one_segment ∷ []) }
{}

/// A predicate whose every case has an atom of the predicate itself holds of nothing.
pub fn endless_predicates_are_empty()
    ensures { (ds : List Definition) (p : ℕ) → UsesItself ds p → (vs : List ℕ) (h : Cells) → ¬ least ds p vs h }
{}

/// Two lists whose tails are free do not entail the empty heap: with the stack 1, 0 the heap may be 1 -> (0).
pub fn two_lists_are_not_empty()
    ensures { ¬ EntailmentHolds two_locals two_of_them (emp ∷ []) }
{}

/// The empty heap entails itself, whatever the definitions.
pub fn empty_entails_empty()
    ensures { (ds : List Definition) → EntailmentHolds ds emp (emp ∷ []) }
{}

/// A program that allocates for ever halts from no state, whatever the headroom and the number of steps.
pub fn allocation_without_end_does_not_halt()
    ensures { (ds : List Definition) (rest : Cells) (w n : ℕ) (c : Config) → 0 < w
        → ¬ Halts (EndHolds ds rest) allocating w n c }
{}

/// `stop` halts at once.
pub fn stop_halts()
    ensures { (ds : List Definition) (rest : Cells) (w n : ℕ) (c : Config) → c.line ≡ 1
        → Halts (EndHolds ds rest) stopping w n c }
{}

/// A program that is one `stop` with an end halts from a state of its line only where the end holds there.
pub fn an_end_has_to_hold()
    ensures { (ds : List Definition) (rest : Cells) (bs : List SymbolicHeap) (w n : ℕ) (c : Config) → c.line ≡ 1
        → Halts (EndHolds ds rest) (Ends bs ∷ []) w n c → EndHolds ds rest bs c }
{}
