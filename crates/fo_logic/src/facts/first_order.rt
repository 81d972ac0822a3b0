// Small facts about the rule table of first-order logic.
ghost use Rattle.std.specs.Prelude.{◌≡◌, true, false, [], ◌∷◌, None, Some};
ghost use Rattle.fo_formula.specs.declared.table.faults.FoFault.TheVariants.{LinkLeft};
ghost use Rattle.fo_formula.specs.Tests.{is_absurd};
ghost use Rattle.fo_logic.specs.FirstOrderSamples.{numbers, even_is_nat, node_fault, first_faults, unchanged_link};
ghost use Rattle.fo_logic.specs.FirstOrderSamples.{variable, successor, zero_term};

/// Every node of the proof that even numbers are numbers is right: the even numbers are unfolded, the case of zero and
/// that of a number two above an even one are shown on the right, and what is left links back.
pub fn nodes_of_a_proof_are_right()
    ensures { first_faults numbers even_is_nat
        ≡ None ∷ None ∷ None ∷ None ∷ None ∷ None ∷ None ∷ None ∷ None ∷ None ∷ [] }
{}

/// With a substitution that leaves the companion's variable as it is, the link's first left atom has no match.
pub fn a_link_needs_its_substitution()
    ensures { node_fault numbers even_is_nat 9 unchanged_link ≡ Some (LinkLeft 0) }
{}

/// A variable clashes with a term that has it and more, not with itself, and zero with a successor.
pub fn terms_clash()
    ensures inside { is_absurd (variable 0) (successor (variable 0)) ≡ true }
    ensures itself { is_absurd (variable 0) (variable 0) ≡ false }
    ensures apart { is_absurd zero_term (successor (variable 0)) ≡ true }
    ensures alike { is_absurd (successor (variable 1)) (successor (variable 0)) ≡ false }
{}
