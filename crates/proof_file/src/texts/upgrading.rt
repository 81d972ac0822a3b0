// A file as one of a later version.
ghost use Rattle.std.specs.Prelude.{◌≡◌};
ghost use Rattle.proof_file.specs.Upgrades.{IsUpgrade, upgraded as upgraded_version};

use crate::ProofFile;
use heap_syntax::Version;

/// The version that a file of this one is written in once it is upgraded.
fn upgraded(version: Version) -> Version
    ensures { result ≡ upgraded_version version }
{
    match version {
        Version::One | Version::Two => Version::Two,
        Version::Three => Version::Three,
    }
}

/// The same definitions, program and nodes as a file of version 2, where the file is of version 1; a file of a later
/// version comes back as it is. No memory is taken.
pub fn upgrade(file: ProofFile) -> ProofFile
    ensures { IsUpgrade file result }
{
    let version = upgraded(file.version);
    let mut defs = file.defs;
    defs.set_most(version.limits());
    ProofFile {
        version,
        defs,
        program: file.program,
        nodes: file.nodes,
    }
}
