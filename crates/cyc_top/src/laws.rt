// Laws of the answers. The functions do nothing.
ghost use Rattle.std.specs.Prelude.{◌≡◌, ℕ, List, Option};
ghost use Rattle.cyc_words.specs.declared.tasks.Task.{Task};
ghost use Rattle.cyc_runs.specs.declared.endings.Status.{Status};
ghost use Rattle.cyc_basics.specs.declared.limits.TheConstants.{GREATEST_FIRST_ORDER_LOCAL, GREATEST_PROGRAM_VARIABLE};
ghost use Rattle.cyc_basics.specs.declared.limits.TheConstants.{GREATEST_VARIABLE, LONGEST_NAME, LONGEST_NUMBER};
ghost use Rattle.cyc_basics.specs.declared.limits.TheConstants.{MOST_CASE_ATOMS, MOST_CONSTRUCTORS, MOST_DISJUNCTS};
ghost use Rattle.cyc_basics.specs.declared.limits.TheConstants.{MOST_FIRST_ORDER_ARGUMENTS, MOST_FIRST_ORDER_CASES};
ghost use Rattle.cyc_basics.specs.declared.limits.TheConstants.{MOST_LEFT, MOST_LINES, MOST_LINKS, MOST_NODES};
ghost use Rattle.cyc_basics.specs.declared.limits.TheConstants.{MOST_PREDICATES, MOST_RIGHT, MOST_TERMS};
ghost use Rattle.cyc_basics.specs.declared.limits.TheConstants.{MOST_UNIVERSALS, MOST_VALUES, MOST_VARIABLES};
ghost use Rattle.heap_syntax.specs.declared.version.Version.TheVariants.{One, Two, Three};
ghost use Rattle.heap_syntax.specs.Versions.{limits};
ghost use Rattle.cyc_runs.specs.Runs.{input_limit};
ghost use Rattle.proof_check.specs.Verdicts.{state_limit};
ghost use Rattle.command_answers.specs.Answers.{pair_limit, size_limit};
ghost use Rattle.cyc_top.specs.Answers.{AreOneText, IsAnswer, derivation_limit};

/// An input has one answer: one status and one text. Where a check refuses a path, which of those that do not progress
/// it names is left open.
pub fn an_input_has_one_answer()
    ensures { (task : Option Task) (input : List ℕ) (s t : Status) (a b : List ℕ) → IsAnswer task input s a
        → IsAnswer task input t b → (s ≡ t) × AreOneText task a b }
{}

/// The limits of the formats and of the commands in figures. The definitions cite them by name; these are the numbers
/// that docs/FORMATS.md tells.
pub fn limits_are_these()
    ensures input { input_limit ≡ 16777216 }
    ensures states { state_limit ≡ 200000 }
    ensures derivations { derivation_limit ≡ 1000000 }
    ensures pairs { pair_limit ≡ 100000 }
    ensures sizes { size_limit ≡ 2000000 }
    ensures links { MOST_LINKS ≡ 1000000 }
    ensures name { LONGEST_NAME ≡ 64 }
    ensures number { LONGEST_NUMBER ≡ 9 }
    ensures predicates { MOST_PREDICATES ≡ 4096 }
    ensures first { limits One
        ≡ record { arguments = 8; cases = 16; locals = 16; pure = 64; spatial = 16; cells = 16 } }
    ensures second { limits Two
        ≡ record { arguments = 8; cases = 16; locals = 16; pure = 64; spatial = 32; cells = 16 } }
    ensures third { limits Three
        ≡ record { arguments = 8; cases = 64; locals = 64; pure = 1024; spatial = 64; cells = 64 } }
    ensures disjuncts { MOST_DISJUNCTS ≡ 16 }
    ensures variable { GREATEST_VARIABLE ≡ 65534 }
    ensures lines { MOST_LINES ≡ 4096 }
    ensures program_variables { (MOST_VARIABLES ≡ 64) × (GREATEST_PROGRAM_VARIABLE ≡ 63) }
    ensures nodes { MOST_NODES ≡ 20000 }
    ensures values { MOST_VALUES ≡ 65535 }
    ensures universals { MOST_UNIVERSALS ≡ 8 }
    ensures constructors { MOST_CONSTRUCTORS ≡ 64 }
    ensures theory { (MOST_FIRST_ORDER_ARGUMENTS ≡ 8) × (MOST_FIRST_ORDER_CASES ≡ 16)
        × (GREATEST_FIRST_ORDER_LOCAL ≡ 15) }
    ensures atoms { (MOST_LEFT ≡ 32) × (MOST_RIGHT ≡ 16) × (MOST_CASE_ATOMS ≡ 16) }
    ensures terms { MOST_TERMS ≡ 4096 }
{}
