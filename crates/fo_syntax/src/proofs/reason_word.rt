//! The words that name a rule, those that name a side, and the version.

ghost use Rattle.std.specs.Prelude.{◌≡◌};
ghost use Rattle.cyc_grammar.specs.Classes.{find_text};
ghost use Rattle.fo_syntax.specs.ProofWords.{reason_text, reason_words, side_text, sides};

use crate::proofs::tree::SideTree;

/// The word with which a reason begins.
#[derive(Clone, Copy)]
pub enum ReasonWord {
    Axiom,
    Refl,
    Clash,
    Decompose,
    Replace,
    WeakenLeft,
    WeakenRight,
    Contract,
    Unfold,
    Cut,
    Right,
    Link,
}

impl ReasonWord {
    /// The word as it is written.
    pub fn text(self) -> &'static str
        ensures { result.now ≡ reason_text self }
    {
        match self {
            ReasonWord::Axiom => "Axiom",
            ReasonWord::Refl => "Refl",
            ReasonWord::Clash => "Clash",
            ReasonWord::Decompose => "Decompose",
            ReasonWord::Replace => "Replace",
            ReasonWord::WeakenLeft => "WeakenLeft",
            ReasonWord::WeakenRight => "WeakenRight",
            ReasonWord::Contract => "Contract",
            ReasonWord::Unfold => "Unfold",
            ReasonWord::Cut => "Cut",
            ReasonWord::Right => "Right",
            ReasonWord::Link => "Link",
        }
    }

    /// The word with this text, if there is one.
    pub fn from_text(text: &str) -> Option<ReasonWord>
        ensures { result ≡ find_text reason_text reason_words text.now }
    {
        match text {
            "Axiom" => Some(ReasonWord::Axiom),
            "Refl" => Some(ReasonWord::Refl),
            "Clash" => Some(ReasonWord::Clash),
            "Decompose" => Some(ReasonWord::Decompose),
            "Replace" => Some(ReasonWord::Replace),
            "WeakenLeft" => Some(ReasonWord::WeakenLeft),
            "WeakenRight" => Some(ReasonWord::WeakenRight),
            "Contract" => Some(ReasonWord::Contract),
            "Unfold" => Some(ReasonWord::Unfold),
            "Cut" => Some(ReasonWord::Cut),
            "Right" => Some(ReasonWord::Right),
            "Link" => Some(ReasonWord::Link),
            _ => None,
        }
    }
}

/// The side with this text, if there is one.
pub fn side_from_text(text: &str) -> Option<SideTree>
    ensures { result ≡ find_text side_text sides text.now }
{
    match text {
        "left" => Some(SideTree::Left),
        "right" => Some(SideTree::Right),
        _ => None,
    }
}

/// The word of the side.
pub fn text_of_side(side: SideTree) -> &'static str
    ensures { result.now ≡ side_text side }
{
    match side {
        SideTree::Left => "left",
        SideTree::Right => "right",
    }
}
