//! The versions of model files.

ghost use Rattle.std.specs.Prelude.{◌≡◌, OnOk, decimal};
ghost use Rattle.cyc_lex.specs.Writing.{write};
ghost use Rattle.cyc_grammar.specs.Syntax.{read_class};
ghost use Rattle.cyc_grammar.specs.Classes.{find_text};
ghost use Rattle.cyc_grammar.specs.Giving.{Gives};
ghost use Rattle.cyc_basics.specs.Limits.{AreLimits};
ghost use Rattle.model_file.specs.Versions.{version_text, versions, model_version, format_of, model_limits};
ghost use Rattle.model_file.specs.Versions.{version_for};

use cyc_basics::limits::Limits;
use cyc_basics::memory::OutOfMemory;
use cyc_grammar::{Cursor, Refusal};
use cyc_lex::WordWriter;
use heap_syntax::Version;

/// The version of a model file or of a run file. There is no second one: the first allows what version 2 of the other
/// formats does.
#[derive(Clone, Copy)]
pub enum ModelVersion {
    One,
    Three,
}

impl ModelVersion {
    /// The version of a model of what a text of this version asks.
    pub fn for_version(version: Version) -> ModelVersion
        ensures { result ≡ version_for version }
    {
        match version {
            Version::One | Version::Two => ModelVersion::One,
            Version::Three => ModelVersion::Three,
        }
    }

    /// The version of the other formats that allows what this one does.
    pub fn format(self) -> Version
        ensures { result ≡ format_of self }
    {
        match self {
            ModelVersion::One => Version::Two,
            ModelVersion::Three => Version::Three,
        }
    }

    /// What a model file of this version may have.
    pub fn limits(self) -> Limits
        ensures value { result ≡ model_limits self }
        ensures fits { AreLimits result }
    {
        self.format().limits()
    }

    /// The number that stands in the first statement.
    fn number(self) -> u32
        ensures { decimal result ≡ version_text self }
    {
        match self {
            ModelVersion::One => 1,
            ModelVersion::Three => 3,
        }
    }

    /// The version whose number has this text, if there is one.
    fn from_text(text: &str) -> Option<ModelVersion>
        ensures { result ≡ find_text version_text versions text.now }
    {
        match text {
            "1" => Some(ModelVersion::One),
            "3" => Some(ModelVersion::Three),
            _ => None,
        }
    }
}

/// Takes the number of a version.
pub fn read_model_version(cursor: &mut Cursor<'_, '_>) -> Result<ModelVersion, Refusal>
    ensures { Gives (λ x. (x, cursor.new)) result (read_class model_version cursor.old) }
{
    let Some(text) = cursor.any_number() else {
        return Err(Refusal::Dead(cursor.left()));
    };
    match ModelVersion::from_text(text) {
        Some(version) => {
            cursor.skip();
            Ok(version)
        }
        None => Err(Refusal::Dead(cursor.left())),
    }
}

/// Writes the number of a version.
pub fn write_model_version(
    version: ModelVersion,
    writer: &mut WordWriter,
) -> Result<(), OutOfMemory>
    ensures { OnOk result (writer.new ≡ write writer.old (model_version.word version)) }
{
    writer.number(version.number())
}
