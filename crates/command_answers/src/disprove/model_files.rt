// The file of a counter-model.
ghost use Rattle.std.specs.Prelude.{◌≡◌, ◌≤◌, IfOk};
ghost use Rattle.heap_formula.specs.declared.judgements.Judgement.{Judgement};
ghost use Rattle.heap_formula.specs.Fresh.{judgement_bound};
ghost use Rattle.counter_model.specs.FirstCounter.{IsFirstCounter};
ghost use Rattle.model_file.specs.Versions.{version_for};
ghost use Rattle.model_file.specs.Written.{text_of_model};

use counter_model::files::plain_model;
use cyc_basics::limits::MOST_UNIVERSALS;
use cyc_basics::memory::OutOfMemory;
use formula_reader::Problem;
use goto_lang::{Cells, Stack};
use heap_formula::{Disjuncts, Heap};
use model_file::write_model;
use std::alloc::Global;

/// The text of the model file, of the version for the problem's, that has the problem's definitions, the stack, the
/// heap and the antecedent.
pub fn model_text(
    alloc: Global,
    problem: &Problem,
    antecedent: &Heap,
    disjuncts: &Disjuncts,
    _cells: u32,
    stack: Stack,
    heap: Cells,
) -> Result<Vec<u8>, OutOfMemory>
    requires goal { problem.now.goal ≡ Judgement.Entail antecedent.now disjuncts.now }
    requires few { judgement_bound (Judgement.Entail antecedent.now disjuncts.now) ≤ MOST_UNIVERSALS }
    requires size { _cells ≤ 4 }
    requires first { IsFirstCounter problem.now.defs.list antecedent.now disjuncts.now _cells stack heap }
    ensures { IfOk result (λ v. v.items
        ≡ text_of_model (version_for problem.now.version) problem.now.defs.list stack heap antecedent.now) }
{
    let model = plain_model(alloc, problem, antecedent, disjuncts, stack, heap)?;
    write_model(alloc, &model)
}
