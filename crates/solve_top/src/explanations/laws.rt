//! What stands behind notes is read as if they were not there. The law is the contract of a function that does nothing.

ghost use Rattle.std.specs.Prelude.{◌≡◌, ◌++◌, ◌↔◌, ℕ, List, Ok};
ghost use Rattle.cyc_lex.specs.Word.{Word};
ghost use Rattle.cyc_lex.specs.Spelling.{Spells};
ghost use Rattle.heap_reader.specs.Reading.{IsRead};
ghost use Rattle.solve_top.specs.Notes.{AreNotes};

/// A format of texts.
pub trait TextFormat {
    ghost use Rattle.heap_reader.specs.Reading.{Format};

    /// Its trees.
    ghost Tree: { Type 0 };

    /// What its trees say.
    ghost Value: { Type 0 };

    /// Its grammar, the first flaw of a tree, and what a tree says.
    ghost format: { Format Tree Value };
}

/// The format of proof files.
pub struct ProofFiles;

impl TextFormat for ProofFiles {
    ghost use Rattle.proof_file.specs.Reading.{proof_files};
    ghost use Rattle.proof_file.specs.declared.file.ProofFile.{ProofFile};
    ghost use Rattle.proof_syntax.specs.Trees.{File};

    ghost Tree = { File };

    ghost Value = { ProofFile };

    ghost format = { proof_files };
}

/// The format of model files.
pub struct ModelFiles;

impl TextFormat for ModelFiles {
    ghost use Rattle.model_file.specs.Reading.{model_files};
    ghost use Rattle.model_file.specs.declared.file.Model.{Model};
    ghost use Rattle.model_file.specs.Trees as trees;

    ghost Tree = { trees.Model };

    ghost Value = { Model };

    ghost format = { model_files };
}

/// Notes before a text change no word of it; so, whatever its format, it is read as the same value.
pub fn notes_are_passed_over<F: TextFormat>()
    ensures value { (notes text : List ℕ) (value : F.Value) → AreNotes notes
        → IsRead F.format text (Ok value) → IsRead F.format (notes ++ text) (Ok value) }
    ensures words { (notes text : List ℕ) (words : List Word) → AreNotes notes
        → (Spells (notes ++ text) words ↔ Spells text words) }
{}
