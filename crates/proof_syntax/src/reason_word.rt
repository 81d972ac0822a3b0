//! The words that name a rule, and those that name a side.

ghost use Rattle.std.specs.Prelude.{◌≡◌};
ghost use Rattle.cyc_grammar.specs.Classes.{find_text};
ghost use Rattle.proof_syntax.specs.ReasonWords.{reason_text, reason_words, side_text, sides};

use crate::tree::SideTree;

/// The word with which a reason begins.
#[derive(Clone, Copy)]
pub enum ReasonWord {
    Absurd,
    Rewrite,
    Split,
    Distinct,
    Weaken,
    Unfold,
    Cut,
    Done,
    Choose,
    PureRight,
    Instantiate,
    Frame,
    UnfoldRight,
    Exec,
    Drop,
    Link,
}

impl ReasonWord {
    /// The word as it is written.
    pub fn text(self) -> &'static str
        ensures { result.now ≡ reason_text self }
    {
        match self {
            ReasonWord::Absurd => "Absurd",
            ReasonWord::Rewrite => "Rewrite",
            ReasonWord::Split => "Split",
            ReasonWord::Distinct => "Distinct",
            ReasonWord::Weaken => "Weaken",
            ReasonWord::Unfold => "Unfold",
            ReasonWord::Cut => "Cut",
            ReasonWord::Done => "Done",
            ReasonWord::Choose => "Choose",
            ReasonWord::PureRight => "PureRight",
            ReasonWord::Instantiate => "Instantiate",
            ReasonWord::Frame => "Frame",
            ReasonWord::UnfoldRight => "UnfoldRight",
            ReasonWord::Exec => "Exec",
            ReasonWord::Drop => "Drop",
            ReasonWord::Link => "Link",
        }
    }

    /// The word with this text, if there is one.
    pub fn from_text(text: &str) -> Option<ReasonWord>
        ensures { result ≡ find_text reason_text reason_words text.now }
    {
        match text {
            "Absurd" => Some(ReasonWord::Absurd),
            "Rewrite" => Some(ReasonWord::Rewrite),
            "Split" => Some(ReasonWord::Split),
            "Distinct" => Some(ReasonWord::Distinct),
            "Weaken" => Some(ReasonWord::Weaken),
            "Unfold" => Some(ReasonWord::Unfold),
            "Cut" => Some(ReasonWord::Cut),
            "Done" => Some(ReasonWord::Done),
            "Choose" => Some(ReasonWord::Choose),
            "PureRight" => Some(ReasonWord::PureRight),
            "Instantiate" => Some(ReasonWord::Instantiate),
            "Frame" => Some(ReasonWord::Frame),
            "UnfoldRight" => Some(ReasonWord::UnfoldRight),
            "Exec" => Some(ReasonWord::Exec),
            "Drop" => Some(ReasonWord::Drop),
            "Link" => Some(ReasonWord::Link),
            _ => None,
        }
    }
}

/// The side with this text, if there is one.
pub fn side_from_text(text: &str) -> Option<SideTree>
    ensures { result ≡ find_text side_text sides text.now }
{
    match text {
        "left" => Some(SideTree::Left),
        "right" => Some(SideTree::Right),
        _ => None,
    }
}

/// The word of the side.
pub fn text_of_side(side: SideTree) -> &'static str
    ensures { result.now ≡ side_text side }
{
    match side {
        SideTree::Left => "left",
        SideTree::Right => "right",
    }
}
