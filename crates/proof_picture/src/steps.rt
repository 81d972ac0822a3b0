//! The steps that a verdict refuses.
ghost use Rattle.std.specs.Prelude.{◌≡◌, ◌||◌, ℕ, IfOk, OnOk};
ghost use Rattle.proof_picture.specs.Red.{has_step, refused_steps, step_in};

use cyc_basics::memory::OutOfMemory;
use indexmap::IndexSet;
use proof_check::Verdict;
use std::alloc::Global;
use trace_pairs::Step;

/// A step, found by its hash: the node that is left, and the number of the edge.
#[derive(Clone, Copy, Drop, PartialEq, Eq, Hash)]
pub struct Taken {
    pub node: usize,
    pub edge: usize,
}

/// The steps of a path that is refused, each once.
#[derive(Drop)]
pub struct RefusedSteps {
    steps: IndexSet<Taken>,
}

/// Adds the steps of a path.
fn add_steps(steps: &mut IndexSet<Taken>, path: &[Step]) -> Result<(), OutOfMemory>
    ensures { OnOk result ((v i : ℕ) → step_in steps.new.keys v i
        ≡ (step_in steps.old.keys v i || has_step path.now v i)) }
{
    for step in path {
        steps.insert(Taken {
            node: step.node as usize,
            edge: step.edge as usize,
        })?;
    }
    Ok(())
}

impl RefusedSteps {
    /// The steps of the path that a verdict names, stem and cycle.
    pub fn of(alloc: Global, verdict: &Verdict) -> Result<RefusedSteps, OutOfMemory>
        ensures { IfOk result (λ r. (v i : ℕ) → step_in r.steps.keys v i ≡ has_step (refused_steps verdict.now) v i) }
    {
        let mut steps = IndexSet::new(alloc);
        if let Verdict::PathRefused { lasso } = verdict {
            add_steps(&mut steps, lasso.stem())?;
            add_steps(&mut steps, lasso.cycle())?;
        }
        Ok(RefusedSteps { steps })
    }

    /// Whether the path takes this edge of this node.
    pub fn has(&self, node: usize, edge: usize) -> bool
        ensures { result ≡ step_in self.now.steps.keys node edge }
    {
        self.steps.contains(&Taken { node, edge })
    }
}
