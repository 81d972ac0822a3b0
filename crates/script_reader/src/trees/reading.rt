// Reading the trees of a text.
ghost use Rattle.std.specs.Prelude.{◌≡◌, ◌<◌, ◌^◌, ◌-◌, ℕ, length, slice_set, vec_len, IfOk, None, OnOk};
ghost use Rattle.script_reader.specs.Faults.{IsBuilt, ReadsOr, Takes, is_symbol, refuses_atom};
ghost use Rattle.script_reader.specs.Faults.{lexical_fault as lexical_fault_of};
ghost use Rattle.script_reader.specs.Forests.{IsSpelled};
ghost use Rattle.script_reader.specs.Partials.{Adds, ended};
ghost use Rattle.script_reader.specs.Tokens.{first_broken as broken_in, first_stray as stray_in};

use crate::trees::kinds::{AtomKind, NodeKind, Piece, TokenKind};
use crate::trees::pieces::piece_from;
use crate::trees::trees::{Node, Trees};
use cyc_basics::memory::OutOfMemory;
use std::alloc::{AllocFailed, Global};

/// Why a text has no trees: the offset of the first byte that begins no token, of the first that begins no character,
/// or of the first token that, with all before it, begins no script.
#[derive(Clone, Copy)]
pub enum TreeFault {
    Byte(usize),
    Utf8(usize),
    Syntax(usize),
    OutOfMemory,
}

impl From<OutOfMemory> for TreeFault {
    ghost use Rattle.std.specs.Prelude.{◌≡◌};
    ghost use Rattle.script_reader.specs.declared.trees.reading.TreeFault.TheVariants as faults;

    ghost from_gives = { λ _ e. e ≡ faults.OutOfMemory };

    fn from(_error: OutOfMemory) -> TreeFault {
        TreeFault::OutOfMemory
    }
}

impl<T: Drop> From<AllocFailed<T>> for TreeFault {
    ghost use Rattle.std.specs.Prelude.{◌≡◌};
    ghost use Rattle.script_reader.specs.declared.trees.reading.TreeFault.TheVariants.{OutOfMemory};

    ghost from_gives = { λ _ e. e ≡ OutOfMemory };

    fn from(_error: AllocFailed<T>) -> TreeFault {
        TreeFault::OutOfMemory
    }
}

/// The offset of the first byte that begins no token.
fn first_stray(bytes: &[u8]) -> Option<usize>
    requires { length bytes.now < 2 ^ 32 - 1 }
    ensures { result ≡ stray_in bytes.now }
{
    let mut at = 0usize;
    'pieces: while at < bytes.len() {
        let (piece, len) = piece_from(bytes, at);
        if let Piece::Stray = piece {
            return Some(at);
        }
        at += 1 + len;
    }
    None
}

/// The offset of the first byte that begins no whole character.
fn first_broken(bytes: &[u8]) -> Option<usize>
    ensures { result ≡ broken_in bytes.now }
{
    match std::str::from_utf8(bytes) {
        Ok(_) => None,
        Err(error) => Some(error.valid_up_to()),
    }
}

/// The first bad place of a text.
fn lexical_fault(bytes: &[u8]) -> Option<TreeFault>
    requires { length bytes.now < 2 ^ 32 - 1 }
    ensures { result ≡ lexical_fault_of bytes.now }
{
    match (first_stray(bytes), first_broken(bytes)) {
        (None, None) => None,
        (Some(stray), None) => Some(TreeFault::Byte(stray)),
        (None, Some(broken)) => Some(TreeFault::Utf8(broken)),
        (Some(stray), Some(broken)) => {
            if stray < broken {
                Some(TreeFault::Byte(stray))
            } else {
                Some(TreeFault::Utf8(broken))
            }
        }
    }
}

/// Whether an atom may begin a list.
fn is_word(kind: AtomKind) -> bool
    ensures { result ≡ is_symbol (TokenKind.Atom kind) }
{
    match kind {
        AtomKind::Symbol | AtomKind::Quoted => true,
        AtomKind::Keyword | AtomKind::Text | AtomKind::Constant => false,
    }
}

/// A list that is open: its place in the list of trees, and the offset of its parenthesis.
#[derive(Clone, Copy)]
struct OpenList {
    place: usize,
    from: u32,
}

/// The trees so far, and the lists that are open, the innermost last.
#[derive(Drop)]
struct Building {
    nodes: Vec<Node>,
    open: Vec<OpenList>,
    begun: bool,
}

/// Puts a tree at a place, if there is one.
fn put(nodes: &mut Vec<Node>, place: usize, node: Node)
    ensures { place < vec_len nodes.old → nodes.new.items ≡ slice_set nodes.old.items place node }
{
    if let Some(old) = nodes.get_mut(place) {
        *old = node;
    }
}

impl Building {
    fn opened(&mut self, from: u32) -> Result<(), TreeFault>
        ensures takes { (to : ℕ) → Takes (vec_len self.old.open) self.old.begun
            (record { kind = TokenKind.Open; from = from; to = to }) result (vec_len self.new.open) self.new.begun }
        ensures adds { (to : ℕ) → OnOk result (Adds self.old.nodes.items self.old.open.items
            (record { kind = TokenKind.Open; from = from; to = to }) self.new.nodes.items self.new.open.items) }
    {
        if self.begun {
            return Err(TreeFault::Syntax(from as usize));
        }
        let begun = self.open.is_empty();
        let place = self.nodes.len();
        self.open.push(OpenList { place, from })?;
        self.nodes.push(Node {
            kind: NodeKind::List,
            from,
            to: from,
            below: 0,
        })?;
        self.begun = begun;
        Ok(())
    }

    /// A list ends with the parenthesis at an offset.
    fn end_list(&mut self, list: OpenList, last: u32)
        requires { last < 2 ^ 32 - 1 }
        ensures open { self.new.open ≡ self.old.open }
        ensures begun { self.new.begun ≡ self.old.begun }
        ensures ends { list.place < vec_len self.old.nodes → self.new.nodes.items
            ≡ slice_set self.old.nodes.items list.place (ended (vec_len self.old.nodes) list last) }
    {
        let below = self
            .nodes
            .len()
            .saturating_sub(list.place)
            .saturating_sub(1);
        let node = Node {
            kind: NodeKind::List,
            from: list.from,
            to: last + 1,
            below,
        };
        put(&mut self.nodes, list.place, node);
    }

    fn closed(&mut self, from: u32) -> Result<(), TreeFault>
        requires { from < 2 ^ 32 - 1 }
        ensures takes { (to : ℕ) → Takes (vec_len self.old.open) self.old.begun
            (record { kind = TokenKind.Close; from = from; to = to }) result (vec_len self.new.open) self.new.begun }
        ensures adds { (to : ℕ) → OnOk result (Adds self.old.nodes.items self.old.open.items
            (record { kind = TokenKind.Close; from = from; to = to }) self.new.nodes.items self.new.open.items) }
    {
        if self.begun {
            return Err(TreeFault::Syntax(from as usize));
        }
        match self.open.pop() {
            Some(list) => {
                self.end_list(list, from);
                Ok(())
            }
            None => Err(TreeFault::Syntax(from as usize)),
        }
    }

    /// Whether no atom of this kind may come next.
    fn refuses(&self, kind: AtomKind) -> bool
        ensures { result ≡ refuses_atom (vec_len self.now.open) self.now.begun kind }
    {
        if self.begun {
            !is_word(kind)
        } else {
            self.open.is_empty()
        }
    }

    fn atom(&mut self, kind: AtomKind, from: u32, to: u32) -> Result<(), TreeFault>
        ensures takes { Takes (vec_len self.old.open) self.old.begun
            (record { kind = TokenKind.Atom kind; from = from; to = to }) result (vec_len self.new.open)
            self.new.begun }
        ensures adds { OnOk result (Adds self.old.nodes.items self.old.open.items
            (record { kind = TokenKind.Atom kind; from = from; to = to }) self.new.nodes.items self.new.open.items) }
    {
        if self.refuses(kind) {
            return Err(TreeFault::Syntax(from as usize));
        }
        self.nodes.push(Node {
            kind: NodeKind::Atom(kind),
            from,
            to,
            below: 0,
        })?;
        self.begun = false;
        Ok(())
    }

    fn token(&mut self, kind: TokenKind, from: u32, to: u32) -> Result<(), TreeFault>
        requires { from < 2 ^ 32 - 1 }
        ensures takes { Takes (vec_len self.old.open) self.old.begun
            (record { kind = kind; from = from; to = to }) result (vec_len self.new.open) self.new.begun }
        ensures adds { OnOk result (Adds self.old.nodes.items self.old.open.items
            (record { kind = kind; from = from; to = to }) self.new.nodes.items self.new.open.items) }
    {
        match kind {
            TokenKind::Open => self.opened(from),
            TokenKind::Close => self.closed(from),
            TokenKind::Atom(kind) => self.atom(kind, from, to),
        }
    }
}

/// The trees of a text without a bad byte.
fn build(alloc: Global, bytes: &[u8]) -> Result<Vec<Node>, TreeFault>
    requires few { length bytes.now < 2 ^ 32 - 1 }
    requires good { stray_in bytes.now ≡ None }
    ensures built { IsBuilt bytes.now result }
    ensures spelled { IfOk result (λ nodes. IsSpelled bytes.now nodes.items) }
{
    let mut building = Building {
        nodes: Vec::new(alloc),
        open: Vec::new(alloc),
        begun: false,
    };
    let mut at = 0usize;
    'pieces: while at < bytes.len() {
        let (piece, len) = piece_from(bytes, at);
        let behind = at + 1 + len;
        if let Piece::Token(kind) = piece {
            match building.token(kind, at as u32, behind as u32) {
                Ok(()) => {}
                Err(fault) => return Err(fault),
            }
        }
        at = behind;
    }
    let Building {
        nodes,
        open,
        begun: _,
    } = building;
    if !open.is_empty() {
        return Err(TreeFault::Syntax(bytes.len()));
    }
    Ok(nodes)
}

/// The trees of a text: lists that begin with a symbol, one after the other; or its first fault, those of its tokens
/// first.
pub fn read_trees(alloc: Global, bytes: &[u8]) -> Result<Trees<'_>, TreeFault>
    requires { length bytes.now < 2 ^ 32 - 1 }
    // A fault is the first that the text has, and Ok means that it has none.
    ensures exact { ReadsOr bytes.now (lexical_fault_of bytes.now) result }
    // The trees are those that the tokens spell.
    ensures spelled { IfOk result (λ trees. IsSpelled bytes.now trees.nodes.items) }
    ensures same { IfOk result (λ trees. trees.bytes.now ≡ bytes.now) }
{
    if let Some(fault) = lexical_fault(bytes) {
        return Err(fault);
    }
    let nodes = build(alloc, bytes)?;
    Ok(Trees { bytes, nodes })
}
