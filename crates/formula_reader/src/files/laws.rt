// What a problem keeps, and that it has a text. The functions do nothing.
ghost use Rattle.std.specs.Prelude.{◌≡◌, ◌<◌, ◌≤◌, List, length, None};
ghost use Rattle.heap_formula.specs.Words.{Each};
ghost use Rattle.goto_lang.specs.Lines.{IsProgram};
ghost use Rattle.rule_book.specs.Limits.{IsDefinitionWithin, IsJudgementWithin, AreEndsWithin};
ghost use Rattle.proof_syntax.specs.Grammar.{file};
ghost use Rattle.proof_file.specs.FileNodes.{FileNode};
ghost use Rattle.proof_file.specs.Flaws.{file_flaw};
ghost use Rattle.proof_file.specs.Written.{tree_of};
ghost use Rattle.formula_reader.specs.Nodes.{IsNodeWithin, node_of_goal};

use crate::Problem;
use cyc_basics::limits::MOST_NODES;

/// The definitions, the program and the goal of a problem are within the limits of a proof file of its version.
pub fn problem_is_within(_problem: &Problem)
    ensures definitions { Each (IsDefinitionWithin _problem.now.defs.most _problem.now.defs.list)
        _problem.now.defs.list }
    ensures program { IsProgram _problem.now.program }
    ensures ends { AreEndsWithin _problem.now.defs.most _problem.now.defs.list _problem.now.program }
    ensures goal { IsJudgementWithin _problem.now.defs.most _problem.now.defs.list
        (length _problem.now.program) _problem.now.goal }
{}

/// Each problem has a text, whatever it was made of. With any nodes that are within its limits, and its goal is the
/// judgement of such a node, the tree of its definitions and its program fits the grammar of proof files, and has no
/// flaw.
pub fn problem_has_text(_problem: &Problem)
    ensures fits { (nodes : List FileNode) → 0 < length nodes
        → Each (IsNodeWithin _problem.now.defs.most _problem.now.defs.list (length _problem.now.program)) nodes
        → file.fits (tree_of _problem.now.version _problem.now.defs.list _problem.now.program nodes) }
    ensures flawless { (nodes : List FileNode) → length nodes ≤ MOST_NODES
        → Each (IsNodeWithin _problem.now.defs.most _problem.now.defs.list (length _problem.now.program)) nodes
        → file_flaw (tree_of _problem.now.version _problem.now.defs.list _problem.now.program nodes) ≡ None }
    ensures goal { IsNodeWithin _problem.now.defs.most _problem.now.defs.list
        (length _problem.now.program) (node_of_goal _problem.now.goal) }
{}
