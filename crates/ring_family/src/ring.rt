// A file of the family.
ghost use Rattle.std.specs.Prelude.{◌≡◌, ◌<◌, ◌≤◌, ◌+◌, ◌*◌, [], length, IfOk};
ghost use Rattle.buchi_inclusion.specs.Answers.{HasAtMost, HasMoreThan};
ghost use Rattle.heap_syntax.specs.declared.version.Version.TheVariants.{One};
ghost use Rattle.heap_syntax.specs.Versions.{limits};
ghost use Rattle.proof_file.specs.Written.{text_of_file};
ghost use Rattle.proof_check.specs.Verdicts.{file_graph, IsCorrect};
ghost use Rattle.ring_family.specs.Ring.{ring_definitions, ring_nodes, file_nodes};

use crate::definitions::definitions;
use crate::nodes::nodes;
use cyc_basics::memory::OutOfMemory;
use goto_lang::Program;
use heap_syntax::Version;
use pred_defs::Defs;
use proof_file::{FileNodes, ProofFile};
use std::alloc::Global;

/// The proof that the first of k list predicates, each of which leads to the next in a ring, entails the plain list: k
/// blocks of eight nodes, and a link to the first. The file is of version 1.
pub fn ring_file(alloc: Global, k: u32) -> Result<ProofFile, OutOfMemory>
    requires from_one { 1 ≤ k }
    requires most { k ≤ 2000 }
    ensures version { IfOk result (λ f. f.version ≡ One) }
    ensures definitions { IfOk result (λ f. f.defs ≡ record { most = limits One; list = ring_definitions k }) }
    ensures program { IfOk result (λ f. f.program ≡ []) }
    ensures nodes { IfOk result (λ f. f.nodes ≡ ring_nodes k) }
    ensures file_form { IfOk result (λ f. f.nodes ≡ file_nodes (ring_nodes k)) }
    ensures short { IfOk result (λ f. length (text_of_file f.version f.defs.list f.program f.nodes) < 16777216) }
    ensures correct { IfOk result IsCorrect }
    ensures at_most { IfOk result (λ f. HasAtMost (file_graph f) (8 * k + 1)) }
    ensures at_least { IfOk result (λ f. HasMoreThan (file_graph f) (8 * k)) }
{
    let count = k as u16;
    let version = Version::One;
    let definitions = definitions(alloc, count)?;
    let defs = Defs::from_vec(alloc, version.limits(), definitions);
    let nodes = FileNodes::from_vec(nodes(alloc, count)?);
    let program = empty_program(alloc)?;
    Ok(ProofFile {
        version,
        defs,
        program,
        nodes,
    })
}

/// The program without lines, which has no fault.
fn empty_program(alloc: Global) -> Result<Program, OutOfMemory>
    ensures { IfOk result (λ p. p ≡ []) }
{
    match Program::new(alloc, &[]) {
        Ok(program) => Ok(program),
        Err(_) => Err(OutOfMemory),
    }
}
