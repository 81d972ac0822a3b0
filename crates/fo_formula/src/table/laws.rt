// Rules and links are locally sound. The functions do nothing.
ghost use Rattle.std.specs.Prelude.{◌≡◌, [], ◌∷◌, None};
ghost use Rattle.fo_formula.specs.declared.nodes.FoLink.{FoLink};
ghost use Rattle.fo_formula.specs.declared.nodes.FoRule.{FoRule};
ghost use Rattle.fo_formula.specs.declared.sequents.FoSequent.{FoSequent};
ghost use Rattle.fo_formula.specs.declared.theory.FoTheory.{FoTheory};
ghost use Rattle.fo_formula.specs.Shapes.{HasConstant, IsOpenSequent};
ghost use Rattle.fo_formula.specs.Table.{rule_answer};
ghost use Rattle.fo_formula.specs.LinkTable.{link_fault, link_premise};
ghost use Rattle.fo_formula.specs.Soundness.{IsSound, IsLocallySound, HasOpenTerms, HasOpenValues};

/// At a sequent of terms over the constructors, each rule is locally sound: the sequent holds at all stages at which
/// its premises do, along the pairs.
pub fn rules_are_sound()
    ensures { (t : FoTheory) (s : FoSequent) (rule : FoRule) → HasConstant t → IsOpenSequent t.constructors s
        → HasOpenTerms t.constructors rule → IsSound t s (rule_answer t s rule) }
{}

/// A link without a fault is locally sound: the bud holds at all stages at which its companion does, along the map.
pub fn links_are_sound()
    ensures { (t : FoTheory) (bud companion : FoSequent) (link : FoLink) → HasConstant t
        → HasOpenValues t.constructors link → link_fault bud companion link ≡ None
        → IsLocallySound t bud (link_premise companion link ∷ []) }
{}
