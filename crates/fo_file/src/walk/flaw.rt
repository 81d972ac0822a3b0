//! Where a walk stands, and why it ends early.

ghost use Rattle.std.specs.Prelude.{◌≡◌, ◌+◌, ◌<◌, ◌^◌};

use heap_reader::Flaw;
use std::alloc::AllocError;

/// Why a walk ends early.
#[derive(Clone, Copy)]
pub enum Stop {
    Flaw(Flaw),
    OutOfMemory,
}

impl From<Flaw> for Stop {
    ghost use Rattle.std.specs.Prelude.{◌≡◌};
    ghost use Rattle.fo_file.specs.declared.walk.flaw.Stop.TheVariants as stops;

    ghost from_gives = { λ f e. e ≡ stops.Flaw f };

    fn from(flaw: Flaw) -> Stop {
        Stop::Flaw(flaw)
    }
}

impl From<AllocError> for Stop {
    ghost use Rattle.std.specs.Prelude.{◌≡◌};
    ghost use Rattle.fo_file.specs.declared.walk.flaw.Stop.TheVariants.{OutOfMemory};

    ghost from_gives = { λ _ e. e ≡ OutOfMemory };

    fn from(_e: AllocError) -> Stop {
        Stop::OutOfMemory
    }
}

/// Where terms stand: in a node or a goal, or in a case of a predicate with so many parameters.
#[derive(Clone, Copy)]
pub enum Scope {
    Node,
    Case(u32),
}

/// How far a walk is: the next token, and the number of terms before it, within one case, node or goal.
#[derive(Clone, Copy)]
pub struct Reached {
    pub token: usize,
    pub terms: usize,
}

impl Reached {
    /// So many tokens further on, with no term more.
    pub fn advanced(self, tokens: usize) -> Reached
        requires { self.token + tokens < 2 ^ 64 }
        ensures { result ≡ record { token = self.token + tokens; terms = self.terms } }
    {
        Reached {
            token: self.token + tokens,
            terms: self.terms,
        }
    }
}
