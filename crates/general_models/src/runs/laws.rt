// Laws of runs with given choices. Each function is a law, and does nothing.
ghost use Rattle.std.specs.Prelude.{◌≡◌, ℕ, ◌<◌, ◌≤◌, ◌↔◌, List, Option, None, Some, length, slice_get};
ghost use Rattle.heap_formula.specs.declared.commands.Command.{Command};
ghost use Rattle.heap_formula.specs.Cells.{Cells, IsPart, cell_at};
ghost use Rattle.heap_formula.specs.Definitions.{Definition};
ghost use Rattle.heap_formula.specs.Symbolic.{SymbolicHeap};
ghost use Rattle.heap_formula.specs.Values.{Stack};
ghost use Rattle.heap_formula.specs.Meaning.{Satisfies};
ghost use Rattle.heap_formula.specs.Programs.{Config as State, MayPick, EndHolds, Halts, start_at, TerminationHolds};
ghost use Rattle.goto_lang.specs.Steps.{IsSuccessor};
ghost use Rattle.general_models.specs.declared.runs.picks.Pick.{Pick};
ghost use Rattle.general_models.specs.declared.runs.picks.Pick.TheVariants.{Cell};
ghost use Rattle.general_models.specs.declared.runs.refuting.Ending.{Ending};
ghost use Rattle.general_models.specs.Picks.{headroom_of};
ghost use Rattle.general_models.specs.Runs.{PickedStep};
ghost use Rattle.general_models.specs.Refuting.{IsRefuting};

/// Each step of such a run is one of the machine's under the same headroom.
pub fn steps_of_runs_are_steps()
    ensures { (lines : List Command) (w : ℕ) (pick : Option Pick) (c d : State) → PickedStep lines w pick c d
        → IsSuccessor lines w c d }
{}

/// Under the headroom of the picks, `new` may take one of them exactly where its address is positive and free and it
/// has as many fields as the command says.
pub fn picks_are_allowed_under_their_headroom()
    ensures { (picks : List Pick) (i k a : ℕ) (vs : List ℕ) (c : State) → slice_get picks i ≡ Some (Cell a vs)
        → MayPick (headroom_of picks) c k a vs ↔ ((0 < a) × (cell_at c.heap a ≡ None) × (length vs ≡ k)) }
{}

/// A run that faults, or comes back, perhaps with more, excludes that the program halts within any number of steps,
/// under its headroom.
pub fn refuting_runs_never_halt()
    ensures { (ds : List Definition) (rest : Cells) (lines : List Command) (w : ℕ) (picks : List Pick) (c : State)
        (ending : Ending) → IsRefuting lines w picks c ending → (n : ℕ) → ¬ Halts (EndHolds ds rest) lines w n c }
{}

/// Where some part of the heap in which such a run begins satisfies the precondition, the claim of termination does not
/// hold.
pub fn refuting_runs_exclude_termination()
    ensures { (ds : List Definition) (lines : List Command) (i : ℕ) (a : SymbolicHeap) (s : Stack) (h part : Cells)
        (w : ℕ) (picks : List Pick) (ending : Ending) → 0 < w → IsPart part h → Satisfies ds s part a
        → IsRefuting lines w picks (start_at lines i s h) ending → ¬ TerminationHolds ds lines i a }
{}
