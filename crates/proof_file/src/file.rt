// Proof files as values.
ghost use Rattle.std.specs.Prelude.{◌≡◌, ◌<◌, ◌≤◌, None, length, true};
ghost use Rattle.heap_syntax.specs.Versions.{limits};
ghost use Rattle.proof_syntax.specs.Grammar.{file};
ghost use Rattle.proof_file.specs.Readable.{are_readable, are_universal_commands, are_at_lines, all_have_few_cases};
ghost use Rattle.proof_file.specs.Flaws.{file_flaw};
ghost use Rattle.proof_file.specs.Fits.{file-fit};
ghost use Rattle.proof_file.specs.Written.{tree_of};
ghost use Rattle.cyc_basics.specs.declared.limits.TheConstants.{MOST_NODES};

use crate::node::FileNodes;
use goto_lang::Program;
use heap_syntax::Version;
use pred_defs::Defs;

/// A proof file: the version of the format, the definitions, the program, and the nodes of the proof, node 0 being its
/// root. There is a node, no existential variable stands in a command, in an antecedent or a symbolic state, in the
/// terms of a Split or an Instantiate, or in the values of a link's substitution, and each judgement that starts from a
/// line names one of the program's. The file has a text: its tree fits the grammar, and has no flaw.
#[derive(Drop)]
pub struct ProofFile {
    pub version: Version,
    pub defs: Defs,
    pub program: Program,
    pub nodes: FileNodes,
    ghost some: { 0 < length nodes },
    ghost few: { length nodes ≤ MOST_NODES },
    ghost readable: { are_readable nodes ≡ true },
    ghost universal: { are_universal_commands program ≡ true },
    ghost at_lines: { are_at_lines (length program) nodes ≡ true },
    ghost cases: { all_have_few_cases defs.list ≡ true },
    ghost limit: { defs.most ≡ limits version },
    ghost fits: { file.fits (tree_of version defs.list program nodes) } by { file-fit (tree_of version defs.list program nodes) },
    ghost flawless: { file_flaw (tree_of version defs.list program nodes) ≡ None },
}
