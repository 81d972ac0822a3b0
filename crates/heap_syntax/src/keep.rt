//! How much of the lists of heaps is kept as they are read.

ghost use Rattle.std.specs.Prelude.{◌≡◌, IfOk, IfErr};
ghost use Rattle.cyc_grammar.specs.declared.cursor.Refusal.TheVariants.{OutOfMemory};
ghost use Rattle.heap_syntax.specs.Keeping.{has_room, with_member};

use cyc_grammar::Refusal;

/// What is kept of each list of pure atoms, of spatial atoms and of heaps: all members, or so many and one more, by
/// which a longer list is told.
#[derive(Clone, Copy)]
pub enum Keep {
    All,
    Beyond(usize),
}

impl Keep {
    fn has_room(self, count: usize) -> bool
        ensures { result ≡ has_room self count }
    {
        match self {
            Keep::All => true,
            Keep::Beyond(most) => count <= most,
        }
    }

    /// Members with one more behind them, where it is kept.
    pub fn with_member<T: Drop>(self, items: Vec<T>, item: T) -> Result<Vec<T>, Refusal>
        ensures kept { IfOk result (λ x. x.items ≡ with_member self items.items item) }
        ensures memory { IfErr result (λ e. e ≡ OutOfMemory) }
    {
        let mut items = items;
        if self.has_room(items.len()) {
            items.push(item)?;
        }
        Ok(items)
    }
}
