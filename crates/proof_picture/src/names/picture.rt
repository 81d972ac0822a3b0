//! The picture of a proof in the words of its problem.
ghost use Rattle.std.specs.Prelude.{◌≡◌, IfOk, map};
ghost use Rattle.proof_picture.specs.Arrows.{row_of};
ghost use Rattle.proof_picture.specs.Pieces.{pieces_of};
ghost use Rattle.proof_picture.specs.Naming.{naming_of};
ghost use Rattle.proof_picture.specs.NamedPictures.{IsNamedPicture, labels_in};

use crate::names::kept::kept_names;
use crate::names::labels::labels_of_file;
use crate::names::naming::Naming;
use crate::{Label, Picture, Row, atoms_carried, picture_with, rows_for};
use cyc_basics::memory::OutOfMemory;
use proof_check::Verdict;
use proof_file::ProofFile;
use std::alloc::Global;

/// The texts of all nodes, whose edges these are.
fn labels_for(
    alloc: Global,
    file: &ProofFile,
    naming: &Naming<'_, '_>,
    rows: &[Row],
) -> Result<Vec<Label>, OutOfMemory>
    ensures { IfOk result (λ v. map pieces_of v.items
        ≡ labels_in (naming_of naming.now) file.now (map row_of rows.now)) }
{
    let kept = kept_names(alloc, naming.names.len(), file, rows)?;
    let flags = atoms_carried(alloc, rows)?;
    labels_of_file(alloc, naming, file, kept.as_slice(), &flags)
}

/// The picture of a file about which this is said: in red, the fault of a node, or the steps of a path. Its labels have
/// the problem's names where they keep their meaning, and the lines of its program.
pub fn named_picture_of(
    alloc: Global,
    file: &ProofFile,
    verdict: &Verdict,
    naming: &Naming<'_, '_>,
) -> Result<Picture, OutOfMemory>
    ensures { IfOk result (IsNamedPicture (naming_of naming.now) file.now verdict.now) }
{
    let rows = rows_for(alloc, file, verdict)?;
    let labels = labels_for(alloc, file, naming, rows.as_slice())?;
    picture_with(alloc, verdict, labels, rows)
}
