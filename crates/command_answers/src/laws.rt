//! Each format reads a text in one way. Each law is the contract of a function that does nothing.

ghost use Rattle.std.specs.Prelude.{◌≡◌, ℕ, List, Result};
ghost use Rattle.cyc_lex.specs.declared.fault.ReadFault.{ReadFault};
ghost use Rattle.formula_reader.specs.declared.problem.Problem.{Problem};
ghost use Rattle.formula_reader.specs.Reading as problems;
ghost use Rattle.proof_file.specs.declared.file.ProofFile.{ProofFile};
ghost use Rattle.proof_file.specs.Reading as files;
ghost use Rattle.model_file.specs.declared.file.Model.{Model};
ghost use Rattle.model_file.specs.Reading as models;
ghost use Rattle.fo_formula.specs.declared.nodes.FoFile.{FoFile};
ghost use Rattle.fo_file.specs.declared.values.problem.FoProblem.{FoProblem};
ghost use Rattle.fo_file.specs.Reading as first_order;
ghost use Rattle.check_answers.specs.Alike.{AreAlike};

/// Two readings of a text as a proof file give the same file, or one fault.
pub fn proof_files_are_read_in_one_way()
    ensures { (bytes : List ℕ) (r s : Result ProofFile ReadFault) → files.IsRead bytes r → files.IsRead bytes s
        → AreAlike files.AreSame r s }
{}

/// Two readings of a text as a problem give the same problem, or one fault.
pub fn problems_are_read_in_one_way()
    ensures { (bytes : List ℕ) (r s : Result Problem ReadFault) → problems.IsRead bytes r → problems.IsRead bytes s
        → AreAlike problems.AreSame r s }
{}

/// Two readings of a text as a model give the same model, or one fault.
pub fn models_are_read_in_one_way()
    ensures { (bytes : List ℕ) (r s : Result Model ReadFault) → models.IsRead bytes r → models.IsRead bytes s
        → AreAlike models.AreSame r s }
{}

/// Two readings of a text as a proof in first-order logic give the same proof, or one fault.
pub fn first_order_proofs_are_read_in_one_way()
    ensures { (bytes : List ℕ) (r s : Result FoFile ReadFault) → first_order.IsRead bytes r
        → first_order.IsRead bytes s → AreAlike (λ f g. f ≡ g) r s }
{}

/// Two readings of a text as a problem in first-order logic give the same problem, or one fault.
pub fn first_order_problems_are_read_in_one_way()
    ensures { (bytes : List ℕ) (r s : Result FoProblem ReadFault) → first_order.IsReadProblem bytes r
        → first_order.IsReadProblem bytes s → AreAlike (λ p q. p ≡ q) r s }
{}
