// The lines of a checker's verdicts.
ghost use Rattle.std.specs.Prelude.{◌≡◌, ◌++◌, IfOk, OnOk};
ghost use Rattle.cyc_runs.specs.Names.{fault_number_of};
ghost use Rattle.cyc_runs.specs.Texts.{accepted_text, claim_text, node_refused_text, number_text, path_refused_text};
ghost use Rattle.cyc_runs.specs.Texts.{step_text, steps_text};

use crate::texts::faults::{fault_name, fault_number};
use crate::texts::line::Line;
use cyc_basics::memory::OutOfMemory;
use goto_lang::Program;
use heap_formula::{Judgement, RuleFault};
use std::alloc::Global;
use trace_pairs::{Lasso, Step};

fn claim(program: &Program, judgement: &Judgement) -> &'static str
    ensures { result.now ≡ claim_text program.now judgement.now }
{
    match judgement {
        Judgement::Entail(_, _) => "entailment",
        Judgement::Term(_, _) if program.has_ends() => "correctness",
        Judgement::Term(_, _) => "termination",
    }
}

/// The line for a proof that is right: what its root claims of the program, and how many nodes and links there are.
pub fn accepted_line(
    alloc: Global,
    program: &Program,
    judgement: &Judgement,
    nodes: u64,
    links: u64,
) -> Result<Vec<u8>, OutOfMemory>
    ensures { IfOk result (λ bytes. bytes.items ≡ accepted_text program.now judgement.now nodes links) }
{
    let mut text = Line::new(alloc);
    text.text("accepted ")?;
    text.text(claim(program, judgement))?;
    text.text(" nodes ")?;
    text.number(nodes)?;
    text.text(" links ")?;
    text.number(links)?;
    text.end()
}

fn push_fault_number(text: &mut Line, fault: RuleFault) -> Result<(), OutOfMemory>
    ensures { OnOk result (text.new ≡ text.old ++ number_text (fault_number_of fault)) }
{
    if let Some(k) = fault_number(fault) {
        text.text(" ")?;
        text.number(k as u64)?;
    }
    Ok(())
}

/// The line for a node, counted from 0, that isn't right.
pub fn node_refused_line(alloc: Global, node: u32, fault: RuleFault) -> Result<Vec<u8>, OutOfMemory>
    ensures { IfOk result (λ bytes. bytes.items ≡ node_refused_text node fault) }
{
    let mut text = Line::new(alloc);
    text.text("refused node ")?;
    text.number(node as u64)?;
    text.text(" ")?;
    text.text(fault_name(fault))?;
    push_fault_number(&mut text, fault)?;
    text.end()
}

fn push_step(text: &mut Line, step: Step) -> Result<(), OutOfMemory>
    ensures { OnOk result (text.new ≡ text.old ++ step_text step) }
{
    text.text(" ")?;
    text.number(step.node as u64)?;
    text.text(".")?;
    text.number(step.edge as u64)
}

fn push_steps(text: &mut Line, steps: &[Step]) -> Result<(), OutOfMemory>
    ensures { OnOk result (text.new ≡ text.old ++ steps_text steps.now) }
{
    for step in steps {
        push_step(text, *step)?;
    }
    Ok(())
}

/// The line for a path that runs into a cycle along which no trace progresses.
pub fn path_refused_line(alloc: Global, lasso: &Lasso) -> Result<Vec<u8>, OutOfMemory>
    ensures { IfOk result (λ bytes. bytes.items ≡ path_refused_text lasso.now) }
{
    let mut text = Line::new(alloc);
    text.text("refused path stem")?;
    push_steps(&mut text, lasso.stem())?;
    text.text(" cycle")?;
    push_steps(&mut text, lasso.cycle())?;
    text.end()
}
