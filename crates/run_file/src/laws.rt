// What holds of the definitions of every run file. The function does nothing.
ghost use Rattle.std.specs.Prelude.{◌≡◌, None};
ghost use Rattle.pred_defs.specs.Faults.{case_fault, closed_fault};
ghost use Rattle.run_file.specs.declared.file.RunFile.{RunFile};

/// Each predicate that the definitions and the precondition of a run use is defined, and has as many arguments as
/// there.
pub fn predicates_of_runs_are_defined()
    ensures definitions { (r : RunFile) → closed_fault r.defs.list ≡ None }
    ensures precondition { (r : RunFile) → case_fault r.defs.list r.precondition ≡ None }
{}
