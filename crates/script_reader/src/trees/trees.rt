// S-expressions in one list.
ghost use Rattle.std.specs.Prelude.{◌≡◌, ◌+◌, ◌<◌, ◌≤◌, length, slice_get, slice_range, vec_len, IfNone, IfSome};
ghost use Rattle.script_reader.specs.Telling.{IsPlace, last_token};
ghost use Rattle.script_reader.specs.Atoms.{behind as place_behind, below_in, kind_in, node_text, text_in};

use crate::trees::kinds::{AtomKind, NodeKind};

/// A tree: what it is, the bytes of its first token, or of its only one, and how many trees stand below it.
#[derive(Clone, Copy)]
pub struct Node {
    pub kind: NodeKind,
    pub from: u32,
    pub to: u32,
    pub below: usize,
}

/// The trees of a text, each before those below it, and these in their order.
#[derive(Drop)]
pub struct Trees<'a> {
    pub bytes: &'a [u8],
    pub nodes: Vec<Node>,
}

/// Trees beside each other that are still to come: the first is the one at `next`, and none is at `end`.
#[derive(Clone, Copy)]
pub struct Items {
    pub next: usize,
    pub end: usize,
}

impl Items {
    /// Whether no tree is left.
    pub fn is_empty(&self) -> bool {
        self.next >= self.end
    }
}

impl<'a> Trees<'a> {
    /// How many trees there are, those below others too.
    pub fn len(&self) -> usize
        ensures { result ≡ vec_len self.now.nodes }
    {
        self.nodes.len()
    }

    /// The outermost trees.
    pub fn all(&self) -> Items
        ensures { result ≡ record { next = 0; end = vec_len self.now.nodes } }
    {
        Items {
            next: 0,
            end: self.nodes.len(),
        }
    }

    /// A tree, if there is one with this number.
    fn node(&self, tree: usize) -> Option<Node>
        ensures { result ≡ slice_get self.now.nodes.items tree }
    {
        self.nodes.get(tree).copied()
    }

    /// The kind of a tree; a list where there is no such tree.
    pub fn kind(&self, tree: usize) -> NodeKind
        ensures { result ≡ kind_in (slice_get self.now.nodes.items tree) }
    {
        match self.node(tree) {
            Some(node) => node.kind,
            None => NodeKind::List,
        }
    }

    /// The offset of a tree's first byte, and the end of the text where there is no such tree.
    pub fn offset(&self, tree: usize) -> usize
        ensures { IsPlace self.now result }
    {
        match self.node(tree) {
            Some(node) => node.from as usize,
            None => self.bytes.len(),
        }
    }

    /// The offset of the last parenthesis of a list, or that of an atom.
    pub fn end_offset(&self, tree: usize) -> usize
        ensures { IsPlace self.now result }
    {
        match self.node(tree) {
            Some(node) => last_token_of(node),
            None => self.bytes.len(),
        }
    }

    /// How many trees stand below a tree.
    fn below(&self, tree: usize) -> usize
        ensures { result ≡ below_in (slice_get self.now.nodes.items tree) }
    {
        match self.node(tree) {
            Some(node) => node.below,
            None => 0,
        }
    }

    /// The trees below a tree.
    pub fn items(&self, tree: usize) -> Items
        ensures next { result.next ≤ result.end }
        ensures behind { tree < usize.MAX → tree < result.end }
        ensures first { tree < usize.MAX → result.next ≡ tree + 1 }
        ensures end { place_behind self.now.nodes.items tree ≤ usize.MAX
            → result.end ≡ place_behind self.now.nodes.items tree }
    {
        let next = tree.saturating_add(1);
        Items {
            next,
            end: next.saturating_add(self.below(tree)),
        }
    }

    /// Takes the first of trees that stand beside each other.
    pub fn take(&self, items: &mut Items) -> Option<usize>
        ensures taken { IfSome result (λ tree. (tree ≡ items.old.next) × (tree < items.old.end)
            × (tree < items.new.next) × (items.new.end ≡ items.old.end)) }
        ensures end { IfNone result (items.old.end ≤ items.old.next) }
        ensures behind { IfSome result (λ tree. place_behind self.now.nodes.items tree ≤ usize.MAX
            → items.new.next ≡ place_behind self.now.nodes.items tree) }
    {
        let tree = items.next;
        if tree >= items.end {
            return None;
        }
        items.next = self.items(tree).end;
        Some(tree)
    }

    /// The bytes of a symbol, without bars, and of any other atom; none of a list.
    pub fn text(&self, tree: usize) -> &'a [u8]
        ensures { result.now ≡ text_in self.now.bytes.now (slice_get self.now.nodes.items tree) }
    {
        match self.node(tree) {
            Some(node) => text_of(self.bytes, node.kind, node.from as usize, node.to as usize),
            None => &[],
        }
    }
}

/// The offset of the last token of a tree.
fn last_token_of(node: Node) -> usize
    ensures { result ≡ last_token node.kind node.from node.to }
{
    match node.kind {
        NodeKind::List => (node.to as usize).saturating_sub(1),
        NodeKind::Atom(_) => node.from as usize,
    }
}

/// The bytes from an offset on up to another one, as far as there are such.
fn part(bytes: &[u8], from: usize, to: usize) -> &[u8]
    ensures { result.now ≡ slice_range bytes.now from to }
{
    if from >= to {
        &[]
    } else if from >= bytes.len() {
        &[]
    } else if to >= bytes.len() {
        &bytes[from..]
    } else {
        &bytes[from..to]
    }
}

/// The bytes of a tree of this kind with these ends.
fn text_of(bytes: &[u8], kind: NodeKind, from: usize, to: usize) -> &[u8]
    requires { from < usize.MAX }
    ensures { result.now ≡ node_text bytes.now kind from to }
{
    match kind {
        NodeKind::List => &[],
        NodeKind::Atom(AtomKind::Quoted | AtomKind::Text) => {
            part(bytes, from + 1, to.saturating_sub(1))
        }
        NodeKind::Atom(_) => part(bytes, from, to),
    }
}
