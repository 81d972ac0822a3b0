// Laws of the machine. Each function is a law, and does nothing.
ghost use Rattle.std.specs.Prelude.{◌≡◌, ◌↔◌, ℕ, ◌+◌, ◌^◌, ◌<◌, List, Some};
ghost use Rattle.heap_formula.specs.declared.commands.Command.{Command};
ghost use Rattle.heap_formula.specs.Words.{Each};
ghost use Rattle.heap_formula.specs.Programs.{Config as State, Faults, IsStop, command_at, greatest};
ghost use Rattle.goto_lang.specs.declared.configs.Config.{Config};
ghost use Rattle.goto_lang.specs.declared.steps.Stepped.TheVariants.{To};
ghost use Rattle.goto_lang.specs.States.{state_of};
ghost use Rattle.goto_lang.specs.Steps.{IsStep, IsSuccessor};
ghost use Rattle.goto_lang.specs.Endings.{LowestStep};

/// With positive headroom, a state that is not at `stop` and does not fault makes a step with some pick.
pub fn some_step_is_allowed()
    ensures { (lines : List Command) (w : ℕ) (c : Config) (x : Command) → 0 < w
        → command_at lines (state_of c) ≡ Some x → (¬ IsStop x) → (¬ Faults x (state_of c))
        → (a : ℕ) × (vs : List ℕ) × (d : Config) × IsStep lines w a vs (state_of c) (To d) }
{}

/// A state is a successor exactly where some step leads to it, with an address and fields that the machine's words
/// hold.
pub fn successors_are_steps()
    ensures { (lines : List Command) (w : ℕ) (c : Config) (d : Config) → greatest (state_of c) + w < 2 ^ 64
        → IsSuccessor lines w (state_of c) (state_of d) ↔ ((a : ℕ) × (vs : List ℕ) × (a < 2 ^ 64)
        × Each (λ v. v < 2 ^ 64) vs × IsStep lines w a vs (state_of c) (To d)) }
{}

/// Each step of such a run is one of the machine's, whatever the headroom, if that is positive.
pub fn lowest_steps_are_steps()
    ensures { (lines : List Command) (w : ℕ) → 0 < w → (c d : State) → LowestStep lines c d → IsSuccessor lines w c d }
{}
