// What a script asks, as the text of a problem.
ghost use Rattle.std.specs.Prelude.{◌≡◌, ◌<◌, ◌-◌, ◌^◌, length, IfOk};
ghost use Rattle.script_answers.specs.Asking.{IsAskedOf};
ghost use Rattle.script_reader.specs.Commands.{IsAsked};

use crate::lines::{answer_to_script_fault, answer_to_unsayable};
use crate::texts::{ProblemNames, problem_text};
use cyc_basics::memory::OutOfMemory;
use cyc_runs::Answer;
use script_formulas::goals::{Place, ScriptGoal, ScriptRefusal, goal_of_script};
use script_reader::{NamedScript, read_script};
use std::alloc::Global;

/// The goal that asks what a script does, and the text of a problem with it.
#[derive(Drop)]
pub struct AskedScript {
    pub asks: ScriptGoal,
    pub text: Vec<u8>,
}

/// What a script asks, or why it is refused.
#[derive(Drop)]
pub enum Asked {
    Script(AskedScript),
    Refused(Answer),
}

/// The names of the universal variables with these numbers: those of the script's constants, and made up ones.
fn universal_names(
    alloc: Global,
    constants: &[String],
    numbers: &[u16],
) -> Result<Vec<String>, OutOfMemory> {
    let mut names = Vec::new(alloc);
    for number in numbers {
        let name = match constants.get(*number as usize) {
            Some(name) => name.clone()?,
            None => format!(in alloc; "v{number}")?,
        };
        names.push(name)?;
    }
    Ok(names)
}

/// The names that the script has for the parameters of a predicate.
fn parameter_names(
    alloc: Global,
    script: &NamedScript,
    predicate: u16,
) -> Result<Vec<String>, OutOfMemory> {
    let mut names = Vec::new(alloc);
    if let Some(known) = script.parameters.get(predicate as usize) {
        for name in known {
            names.push(name.clone()?)?;
        }
    }
    Ok(names)
}

/// The names of the goal's variables that the script has.
fn names_of(
    alloc: Global,
    script: &NamedScript,
    asks: &ScriptGoal,
) -> Result<ProblemNames, OutOfMemory> {
    let mut parameters = Vec::new(alloc);
    for predicate in &asks.predicates {
        parameters.push(parameter_names(alloc, script, *predicate)?)?;
    }
    Ok(ProblemNames {
        universals: universal_names(alloc, &script.constants, &asks.universals)?,
        parameters,
    })
}

/// The offset of a part of a script.
fn offset_of(script: &NamedScript, place: Place, end: usize) -> usize {
    let found = match place {
        Place::Whole => None,
        Place::Asserted(number) => script.asserted_at.get(number),
        Place::Denied(number) => script.denied_at.get(number),
        Place::Predicate(number) => script.predicates_at.get(number),
    };
    found.copied().unwrap_or(end)
}

fn asked_script(
    alloc: Global,
    script: &NamedScript,
    asks: ScriptGoal,
) -> Result<AskedScript, OutOfMemory>
    ensures { IfOk result (λ asked. asked.asks ≡ asks) }
{
    let names = names_of(alloc, script, &asks)?;
    let text = problem_text(alloc, asks.version, &asks.defs, &asks.goal, &names)?;
    Ok(AskedScript { asks, text })
}

/// What a script asks that was read.
fn asked_of_read(alloc: Global, input: &[u8], script: NamedScript) -> Result<Asked, OutOfMemory>
    requires short { length input.now < 2 ^ 32 - 1 }
    requires asked { IsAsked input.now }
    ensures { IfOk result (IsAskedOf input.now) }
{
    match goal_of_script(alloc, &script.script) {
        Ok(asks) => Ok(Asked::Script(asked_script(alloc, &script, asks)?)),
        Err(ScriptRefusal::Unsupported(place, what)) => {
            let at = offset_of(&script, place, input.len());
            Ok(Asked::Refused(answer_to_unsayable(alloc, input, what, at)?))
        }
        Err(ScriptRefusal::OutOfMemory) => Err(OutOfMemory),
    }
}

/// What the script asks that the bytes spell.
pub fn asked_of_script(alloc: Global, input: &[u8]) -> Result<Asked, OutOfMemory>
    requires { length input.now < 2 ^ 32 - 1 }
    ensures { IfOk result (IsAskedOf input.now) }
{
    match read_script(alloc, input) {
        Ok(script) => asked_of_read(alloc, input, script),
        Err(fault) => Ok(Asked::Refused(answer_to_script_fault(alloc, input, fault)?)),
    }
}
