//! The versions of the formats.

ghost use Rattle.std.specs.Prelude.{◌≡◌, ◌≤◌, OnOk, decimal};
ghost use Rattle.cyc_lex.specs.Writing.{write};
ghost use Rattle.cyc_grammar.specs.Syntax.{read_class};
ghost use Rattle.cyc_grammar.specs.Classes.{find_text};
ghost use Rattle.cyc_grammar.specs.Giving.{Gives};
ghost use Rattle.cyc_basics.specs.Limits.{AreLimits};
ghost use Rattle.heap_syntax.specs.Versions.{version_text, versions, limits as limits_of};
ghost use Rattle.heap_syntax.specs.Versions as formats;

use cyc_basics::limits::{
    Limits, MOST_ARGUMENTS, MOST_CASES, MOST_CELLS, MOST_LOCALS, MOST_PURE, MOST_SPATIAL,
};
use cyc_basics::memory::OutOfMemory;
use cyc_grammar::{Cursor, Refusal};
use cyc_lex::WordWriter;

/// A version of the formats of proof files and of problem files, which the first statement of a file names.
#[derive(Clone, Copy)]
pub enum Version {
    One,
    Two,
    Three,
}

impl Version {
    /// The number that stands in the first statement.
    fn number(self) -> u32
        ensures { decimal result ≡ version_text self }
    {
        match self {
            Version::One => 1,
            Version::Two => 2,
            Version::Three => 3,
        }
    }

    /// The version whose number has this text, if there is one.
    fn from_text(text: &str) -> Option<Version>
        ensures { result ≡ find_text version_text versions text.now }
    {
        match text {
            "1" => Some(Version::One),
            "2" => Some(Version::Two),
            "3" => Some(Version::Three),
            _ => None,
        }
    }

    /// What a file of this version may have.
    pub fn limits(self) -> Limits
        ensures value { result ≡ limits_of self }
        ensures fits { AreLimits result }
    {
        let first = Limits {
            arguments: 8,
            cases: 16,
            locals: 16,
            pure: 64,
            spatial: 16,
            cells: 16,
        };
        match self {
            Version::One => first,
            Version::Two => Limits {
                spatial: 32,
                ..first
            },
            Version::Three => Limits {
                arguments: MOST_ARGUMENTS as u32,
                cases: MOST_CASES as u32,
                locals: MOST_LOCALS,
                pure: MOST_PURE as u32,
                spatial: MOST_SPATIAL as u32,
                cells: MOST_CELLS as u32,
            },
        }
    }
}

/// Takes the number of a version.
pub fn read_version(cursor: &mut Cursor<'_, '_>) -> Result<Version, Refusal>
    ensures { Gives (λ x. (x, cursor.new)) result (read_class formats.version cursor.old) }
{
    let Some(text) = cursor.any_number() else {
        return Err(Refusal::Dead(cursor.left()));
    };
    match Version::from_text(text) {
        Some(version) => {
            cursor.skip();
            Ok(version)
        }
        None => Err(Refusal::Dead(cursor.left())),
    }
}

/// Writes the number of a version.
pub fn write_version(version: Version, writer: &mut WordWriter) -> Result<(), OutOfMemory>
    ensures { OnOk result (writer.new ≡ write writer.old (formats.version.word version)) }
{
    writer.number(version.number())
}

/// Takes the number of the only version of a format that has one.
pub fn first_version(cursor: &mut Cursor<'_, '_>) -> Result<(), Refusal>
    ensures { Gives (λ x. (tt, cursor.new)) result (read_class formats.first_version cursor.old) }
{
    match cursor.any_number() {
        Some("1") => {
            cursor.skip();
            Ok(())
        }
        _ => Err(Refusal::Dead(cursor.left())),
    }
}

/// Writes the number of the only version of a format that has one.
pub fn write_first_version(writer: &mut WordWriter) -> Result<(), OutOfMemory>
    ensures { OnOk result (writer.new ≡ write writer.old (formats.first_version.word tt)) }
{
    writer.number(1)
}
