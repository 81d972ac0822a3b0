// Sets of masks, and the disjoint unions of their members.
ghost use Rattle.std.specs.Prelude.{◌≡◌, ℕ, [], ◌^◌, ◌↔◌, IsTrue, IfOk};
ghost use Rattle.model_check.specs.WideMasks.{number, HoldsMask};
ghost use Rattle.model_check.specs.Ground.{Apart, Unions, PieceIs};
ghost use Rattle.model_check.specs.Tables.{Added, JoinsOne, JoinsSome, HasMask, JoinsPiece, Gains};

use crate::ground::Piece;
use crate::mask::Mask;
use cyc_basics::memory::OutOfMemory;
use indexmap::IndexSet;
use std::alloc::Global;
use std::marker::Model;
use std::slice;

/// Masks, each once, in the order in which they were added.
#[derive(Drop)]
pub struct Row {
    masks: IndexSet<Mask>,
}

impl Model for Row {
    ghost use Rattle.std.specs.Prelude.{List, ℕ};

    ghost Value = { List (List ℕ) };

    ghost view = { λ r. r.masks.keys };
}

impl Row {
    /// No mask.
    pub fn new(alloc: Global) -> Row
        ensures { result ≡ [] }
    {
        Row {
            masks: IndexSet::new(alloc),
        }
    }

    /// The masks in order.
    pub fn as_slice(&self) -> &[Mask]
        ensures { result.now ≡ self.now }
    {
        self.masks.as_slice()
    }

    /// Adds a mask if it is not there, and says whether it did.
    pub fn add(&mut self, mask: Mask) -> Result<bool, OutOfMemory>
        ensures { IfOk result (λ grown. Added self.old self.new (number mask) grown) }
    {
        let (_, is_new) = self.masks.insert_full(mask)?;
        Ok(is_new)
    }
}

pub fn has_mask(masks: &[Mask], mask: &Mask) -> bool
    ensures { IsTrue result ↔ HoldsMask (number mask.now) masks.now }
{
    for other in masks {
        if *other == *mask {
            return true;
        }
    }
    false
}

/// Adds the union of two masks if they have no place in common.
fn add_pair(alloc: Global, out: &mut Row, part: &Mask, rest: &Mask) -> Result<(), OutOfMemory>
    ensures { IfOk result (λ _. Gains out.old out.new (Apart (number part.now) (number rest.now))) }
{
    if part.is_apart(rest) {
        out.add(part.union(alloc, rest)?)?;
    }
    Ok(())
}

fn add_pairs(alloc: Global, out: &mut Row, part: &Mask, others: &[Mask]) -> Result<(), OutOfMemory>
    ensures { IfOk result (λ _. Gains out.old out.new (JoinsOne (number part.now) others.now)) }
{
    for rest in others {
        add_pair(alloc, out, part, rest)?;
    }
    Ok(())
}

/// The disjoint unions of one mask of each list.
fn combine(alloc: Global, parts: &[Mask], others: &[Mask]) -> Result<Row, OutOfMemory>
    ensures { IfOk result (λ out. (m : ℕ) → HoldsMask m out ↔ JoinsSome parts.now others.now m) }
{
    let mut out = Row::new(alloc);
    for part in parts {
        add_pairs(alloc, &mut out, part, others)?;
    }
    Ok(out)
}

/// The disjoint unions of the cell at a place with one of the masks.
fn combine_cell(alloc: Global, place: usize, others: &[Mask]) -> Result<Row, OutOfMemory>
    ensures { IfOk result (λ out. (m : ℕ) → HoldsMask m out ↔ JoinsOne (2 ^ place) others.now m) }
{
    let part = Mask::one(alloc, place)?;
    combine(alloc, slice::from_ref(&part), others)
}

fn combine_piece(
    alloc: Global,
    table: &[Row],
    piece: Piece,
    others: &[Mask],
) -> Result<Row, OutOfMemory>
    ensures { IfOk result (λ out. (m : ℕ) → HoldsMask m out ↔ JoinsPiece table.now piece others.now m) }
{
    match piece {
        Piece::Here(place) => combine_cell(alloc, place, others),
        Piece::Of(question) => match table.get(question) {
            None => Ok(Row::new(alloc)),
            Some(row) => combine(alloc, row.as_slice(), others),
        },
    }
}

/// Whether no mask is known of the piece.
fn is_lacking(table: &[Row], piece: Piece) -> bool
    ensures { IsTrue result → (m : ℕ) → ¬ PieceIs (HasMask table.now) piece m }
{
    match piece {
        Piece::Here(_) => false,
        Piece::Of(question) => match table.get(question) {
            None => true,
            Some(row) => row.as_slice().is_empty(),
        },
    }
}

/// The empty mask alone.
fn empty_union(alloc: Global) -> Result<Row, OutOfMemory>
    ensures { IfOk result (λ out. (m : ℕ) → HoldsMask m out ↔ (m ≡ 0)) }
{
    let mut out = Row::new(alloc);
    out.add(Mask::empty(alloc))?;
    Ok(out)
}

/// The disjoint unions of one mask for each piece.
pub fn unions(alloc: Global, table: &[Row], pieces: &[Piece]) -> Result<Row, OutOfMemory>
    ensures { IfOk result (λ out. (m : ℕ) → HoldsMask m out ↔ Unions (HasMask table.now) pieces.now m) }
{
    if pieces.is_empty() {
        return empty_union(alloc);
    }
    if is_lacking(table, pieces[0]) {
        return Ok(Row::new(alloc));
    }
    let others = unions(alloc, table, &pieces[1..])?;
    let combined = combine_piece(alloc, table, pieces[0], others.as_slice());
    drop(others);
    combined
}
