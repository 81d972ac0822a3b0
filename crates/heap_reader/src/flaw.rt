// What is wrong with a text that the grammar has.
ghost use Rattle.std.specs.Prelude.{◌≡◌};
ghost use Rattle.heap_reader.specs.declared.flaw.Item.TheVariants.{Ill, Over};
ghost use Rattle.heap_reader.specs.Told.{item_fault};

use cyc_lex::{IllFault, ReadFault, What};

/// What is ill-formed, or which limit is passed.
#[derive(Clone, Copy)]
pub enum Item {
    Ill(IllFault),
    Over(What),
}

impl Item {
    /// The fault of a text of which this is the first flaw, at a token with this number, line and column.
    pub fn fault_at(self, token: u32, line: u32, column: u32) -> ReadFault
        ensures { result ≡ item_fault self token line column }
    {
        match self {
            Item::Ill(fault) => ReadFault::IllFormed {
                fault,
                token,
                line,
                column,
            },
            Item::Over(what) => ReadFault::Limit {
                what,
                token,
                line,
                column,
            },
        }
    }
}

/// What is wrong, and the number of the token at which it stands.
#[derive(Clone, Copy)]
pub struct Flaw {
    pub item: Item,
    pub token: usize,
}

/// An ill-formed item at a token.
pub fn ill(fault: IllFault, token: usize) -> Flaw
    ensures { result ≡ record { item = Ill fault; token = token } }
{
    Flaw {
        item: Item::Ill(fault),
        token,
    }
}

/// A limit that is passed at a token.
pub fn over(what: What, token: usize) -> Flaw
    ensures { result ≡ record { item = Over what; token = token } }
{
    Flaw {
        item: Item::Over(what),
        token,
    }
}
