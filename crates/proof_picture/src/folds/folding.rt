//! A picture folded.
ghost use Rattle.std.specs.Prelude.{◌≡◌, ◌<◌, ◌^◌, length, IfOk, map};
ghost use Rattle.proof_picture.specs.Folding.{IsFolded, all_trees, at_root, boxed, findings_in, fold_node, fold_nodes};
ghost use Rattle.proof_picture.specs.Folding.{folded_trees, in_tree, unfolded};
ghost use Rattle.proof_picture.specs.Shown.{tree_of};
ghost use Rattle.proof_picture.specs.Pictures.{box_of};

use crate::folds::boxes::shown;
use crate::folds::entries::{Entry, entries_of, is_root};
use crate::folds::fates::{Fate, fates_of};
use crate::folds::hidden::{hidden_nodes, is_hidden};
use crate::folds::shown::{FoldedPicture, ShownBox, Tree};
use crate::folds::texts::add_judgement;
use crate::{Label, NodeBox, Picture};
use cyc_basics::memory::OutOfMemory;
use std::alloc::Global;
use std::collections::VecDeque;
use std::marker::Model;

/// What was found out of the nodes of a picture: how each is entered, what may be folded there, and whether another box
/// takes it in.
#[derive(Drop)]
struct Found {
    entries: Vec<Entry>,
    fates: VecDeque<Fate>,
    hidden: Vec<bool>,
}

impl Model for Found {
    ghost use Rattle.proof_picture.specs.Folding.{Findings};

    ghost Value = { Findings };

    ghost view = { λ f. record { entries = f.entries.items; fates = f.fates.items; hidden = f.hidden.items } };
}

impl Found {
    fn of(alloc: Global, boxes: &[NodeBox]) -> Result<Found, OutOfMemory>
        ensures { IfOk result (λ f. f ≡ findings_in (map box_of boxes.now)) }
    {
        let entries = entries_of(alloc, boxes)?;
        let fates = fates_of(alloc, entries.as_slice(), boxes)?;
        let hidden = hidden_nodes(alloc, &fates, boxes)?;
        Ok(Found {
            entries,
            fates,
            hidden,
        })
    }
}

/// How far the nodes have come: the trees before; the root of the one at hand, what it says, and its boxes.
#[derive(Drop)]
struct Folder {
    trees: Vec<Tree>,
    root: usize,
    says: Option<Label>,
    boxes: Vec<ShownBox>,
}

impl Model for Folder {
    ghost use Rattle.std.specs.Prelude.{map, option_map};
    ghost use Rattle.proof_picture.specs.Folding.{Folding};
    ghost use Rattle.proof_picture.specs.Shown.{shown_of, tree_of};
    ghost use Rattle.proof_picture.specs.Pieces.{pieces_of};

    ghost Value = { Folding };

    ghost view = { λ s. record {
      trees = map tree_of s.trees.items;
      root = s.root;
      says = option_map pieces_of s.says;
      boxes = map shown_of s.boxes.items;
    } };
}

impl Folder {
    fn new(alloc: Global) -> Folder
        ensures { result ≡ unfolded }
    {
        Folder {
            trees: Vec::new(alloc),
            root: 0,
            says: None,
            boxes: Vec::new(alloc),
        }
    }

    /// A tree begins with node `v`, and ends the one at hand.
    fn begin_tree(self, alloc: Global, v: u32, node: &NodeBox) -> Result<Folder, OutOfMemory>
        ensures { IfOk result (λ s. s ≡ at_root self v (box_of node.now)) }
    {
        let Folder {
            mut trees,
            root: _,
            says,
            boxes,
        } = self;
        trees.push(Tree { says, boxes })?;
        let mut pieces = Vec::new(alloc);
        add_judgement(alloc, &mut pieces, node.label.pieces.as_slice())?;
        Ok(Folder {
            trees,
            root: v as usize,
            says: Some(Label { pieces }),
            boxes: Vec::new(alloc),
        })
    }

    fn in_tree(
        self,
        alloc: Global,
        entries: &[Entry],
        v: u32,
        node: &NodeBox,
    ) -> Result<Folder, OutOfMemory>
        ensures { IfOk result (λ s. s ≡ in_tree self entries.now v (box_of node.now)) }
    {
        if v > 0 && is_root(entries, v as usize) {
            self.begin_tree(alloc, v, node)
        } else {
            Ok(self)
        }
    }

    fn boxed(
        self,
        alloc: Global,
        all: &[NodeBox],
        found: &Found,
        v: u32,
        node: &NodeBox,
    ) -> Result<Folder, OutOfMemory>
        ensures { IfOk result (λ s. s ≡ boxed self (map box_of all.now) found.now v (box_of node.now)) }
    {
        let Folder {
            trees,
            root,
            says,
            mut boxes,
        } = self;
        let entries = found.entries.as_slice();
        boxes.push(shown(alloc, all, entries, &found.fates, root, v, node)?)?;
        Ok(Folder {
            trees,
            root,
            says,
            boxes,
        })
    }

    /// One more node.
    fn node(
        self,
        alloc: Global,
        all: &[NodeBox],
        found: &Found,
        v: u32,
        node: &NodeBox,
    ) -> Result<Folder, OutOfMemory>
        ensures { IfOk result (λ s. s ≡ fold_node self (map box_of all.now) found.now v (box_of node.now)) }
    {
        if is_hidden(found.hidden.as_slice(), v as usize) {
            return Ok(self);
        }
        let placed = self.in_tree(alloc, found.entries.as_slice(), v, node)?;
        placed.boxed(alloc, all, found, v, node)
    }

    /// The trees with the one at hand.
    fn finish(self) -> Result<Vec<Tree>, OutOfMemory>
        ensures { IfOk result (λ t. map tree_of t.items ≡ all_trees self) }
    {
        let Folder {
            mut trees,
            root: _,
            says,
            boxes,
        } = self;
        trees.push(Tree { says, boxes })?;
        Ok(trees)
    }
}

fn fold_all(alloc: Global, boxes: &[NodeBox], found: &Found) -> Result<Folder, OutOfMemory>
    requires { length boxes.now < 2 ^ 32 }
    ensures { IfOk result (λ s. s ≡ fold_nodes unfolded (map box_of boxes.now) found.now 0 (map box_of boxes.now)) }
{
    let mut folder = Folder::new(alloc);
    for (v, node) in boxes.iter().enumerate() {
        folder = folder.node(alloc, boxes, found, v as u32, node)?;
    }
    Ok(folder)
}

/// The trees of a picture.
fn trees_of(alloc: Global, boxes: &[NodeBox]) -> Result<Vec<Tree>, OutOfMemory>
    requires { length boxes.now < 2 ^ 32 }
    ensures { IfOk result (λ t. map tree_of t.items ≡ folded_trees (map box_of boxes.now)) }
{
    let found = Found::of(alloc, boxes)?;
    let folder = fold_all(alloc, boxes, &found)?;
    folder.finish()
}

/// A picture with its chains, its closed subtrees and its trees.
pub fn fold_picture(alloc: Global, picture: &Picture) -> Result<FoldedPicture, OutOfMemory>
    requires { length picture.now.boxes.items < 2 ^ 32 }
    ensures { IfOk result (IsFolded (map box_of picture.now.boxes.items) picture.now.is_large) }
{
    let trees = trees_of(alloc, picture.boxes.as_slice())?;
    let is_large = picture.is_large;
    Ok(FoldedPicture { trees, is_large })
}
