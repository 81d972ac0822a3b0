// A law of counter-models. The function does nothing.
ghost use Rattle.std.specs.Prelude.{List};
ghost use Rattle.heap_formula.specs.Definitions.{Definition};
ghost use Rattle.heap_formula.specs.Symbolic.{SymbolicHeap};
ghost use Rattle.heap_formula.specs.Values.{Stack};
ghost use Rattle.heap_formula.specs.Cells.{Cells};
ghost use Rattle.heap_formula.specs.Meaning.{EntailmentHolds};
ghost use Rattle.counter_model.specs.FirstCounter.{IsCounter};

/// An entailment that has a counter-model does not hold.
pub fn counter_models_refute()
    ensures { (ds : List Definition) (a : SymbolicHeap) (bs : List SymbolicHeap) (s : Stack) (h : Cells)
        → IsCounter ds a bs s h → ¬ EntailmentHolds ds a bs }
{}
