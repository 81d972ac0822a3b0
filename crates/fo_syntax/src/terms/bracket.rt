//! Brackets: what may come within an application.

ghost use Rattle.std.specs.Prelude.{◌≡◌, ◌<◌, ◌^◌, ◌+◌};
ghost use Rattle.fo_syntax.specs.Grammar.{behind_mark, closed_in};
ghost use Rattle.fo_syntax.specs.Seen.{mark_seen};
ghost use Rattle.fo_syntax.specs.Depth.{depth};

use crate::terms::tree::SignTree;

/// A variable, a name with its opening bracket, or a closing bracket.
#[derive(Clone, Copy)]
pub enum Mark<'a> {
    Leaf(SignTree<'a>),
    Opening(&'a str),
    Closing,
}

/// What may come next within an application. The number says within how many others it stands.
#[derive(Clone, Copy)]
pub enum Awaited {
    /// An argument, or the closing bracket: the bracket was just opened.
    First(usize),
    /// A comma and an argument, or the closing bracket.
    Next(usize),
    /// The outermost bracket is closed.
    Nothing,
}

fn closed_in(others: usize) -> Awaited
    ensures { result ≡ closed_in others }
{
    if others == 0 {
        Awaited::Nothing
    } else {
        Awaited::Next(others - 1)
    }
}

impl Awaited {
    /// What may come after this mark.
    pub fn behind(self, mark: Mark<'_>) -> Awaited
        requires { depth self + 1 < 2 ^ 64 }
        ensures { result ≡ behind_mark self (mark_seen mark.entry) }
    {
        match (self, mark) {
            (Awaited::Nothing, _) => Awaited::Nothing,
            (Awaited::First(others) | Awaited::Next(others), Mark::Leaf(_)) => Awaited::Next(
                others,
            ),
            (Awaited::First(others) | Awaited::Next(others), Mark::Opening(_)) => Awaited::First(
                others + 1,
            ),
            (Awaited::First(others) | Awaited::Next(others), Mark::Closing) => closed_in(others),
        }
    }
}
