// A script as a whole.
ghost use Rattle.std.specs.Prelude.{◌≡◌, ◌<◌, ◌^◌, ◌-◌, length, false, true, OnOk};
ghost use Rattle.script_reader.specs.Commands.{IsAsked, asks_from, commands_in};
ghost use Rattle.script_reader.specs.Faults.{lexical_fault};
ghost use Rattle.script_reader.specs.Forests.{Forest, nodes_in};
ghost use Rattle.script_reader.specs.Telling.{Tells, TellsAt, TellsText, TellsToken};

use crate::commands::{After, Asserted, Reader, text_of};
use crate::faults::{IllScript, ScriptFault};
use crate::globals::{Defined, Parameter};
use crate::trees::{Trees, read_trees};
use cyc_basics::memory::OutOfMemory;
use script_formulas::{Constant, Script, ScriptFormula};
use std::alloc::Global;

/// A script that was read: what it asks, the names of its constants and of the parameters of its predicates, and where
/// its formulas and predicates stand in the text. A script that denies a formula over the heap asks an
/// entailment, any other one asks whether what it asserts can be satisfied.
#[derive(Drop)]
pub struct NamedScript {
    pub script: Script,
    pub constants: Vec<String>,
    pub parameters: Vec<Vec<String>>,
    pub asserted_at: Vec<usize>,
    pub denied_at: Vec<usize>,
    pub predicates_at: Vec<usize>,
}

/// The formulas, and where they stand.
fn formulas(
    alloc: Global,
    asserted: Vec<Asserted>,
) -> Result<(Vec<ScriptFormula>, Vec<usize>), OutOfMemory> {
    let mut formulas = Vec::new(alloc);
    let mut places = Vec::new(alloc);
    for one in asserted {
        formulas.push(one.formula)?;
        places.push(one.at)?;
    }
    Ok((formulas, places))
}

/// Constants and their names.
fn constants(
    alloc: Global,
    parameters: &[Parameter<'_>],
) -> Result<(Vec<Constant>, Vec<String>), OutOfMemory> {
    let mut constants = Vec::new(alloc);
    let mut names = Vec::new(alloc);
    for constant in parameters {
        constants.push(Constant {
            sort: constant.sort,
        })?;
        names.push(text_of(alloc, constant.name)?)?;
    }
    Ok((constants, names))
}

/// The names of the parameters of predicates, and where these are defined.
fn parameters(
    alloc: Global,
    predicates: &[Defined<'_>],
) -> Result<(Vec<Vec<String>>, Vec<usize>), OutOfMemory> {
    let mut all = Vec::new(alloc);
    let mut places = Vec::new(alloc);
    for predicate in predicates {
        let mut names = Vec::new(alloc);
        for parameter in &predicate.parameters {
            names.push(text_of(alloc, parameter.name)?)?;
        }
        all.push(names)?;
        places.push(predicate.at)?;
    }
    Ok((all, places))
}

/// A script that is read, if a question was asked; its end is at this offset.
fn with_question<'a>(reader: Reader<'a>, asked: bool, end: usize) -> Result<Reader<'a>, ScriptFault>
    ensures asked { OnOk result (asked ≡ true) }
    ensures told { TellsAt end result }
{
    if asked {
        Ok(reader)
    } else {
        Err(ScriptFault::IllFormed(IllScript::Question, end))
    }
}

/// The commands up to the last one, or to `exit`. One of them asks the question.
fn read_commands<'a>(alloc: Global, trees: &Trees<'a>) -> Result<Reader<'a>, ScriptFault>
    ensures asked { (all : Forest) → trees.now.nodes.items ≡ nodes_in all
        → OnOk result (asks_from false (commands_in trees.now.bytes.now all) ≡ true) }
    ensures told { Tells trees.now result }
{
    let mut reader = Reader::new(alloc);
    let mut asked = false;
    let mut items = trees.all();
    'commands: while let Some(tree) = trees.take(&mut items) {
        match reader.command(trees, tree, asked)? {
            After::Goes => {}
            After::Asks => asked = true,
            After::Ends => return with_question(reader, asked, trees.offset(trees.len())),
        }
    }
    with_question(reader, asked, trees.offset(trees.len()))
}

fn script_of(alloc: Global, reader: Reader<'_>) -> Result<NamedScript, OutOfMemory> {
    let Reader {
        globals,
        predicates,
        asserted,
        denied,
        ..
    } = reader;
    let (constants, names) = constants(alloc, &globals.constants)?;
    let (parameters, predicates_at) = parameters(alloc, &globals.predicates)?;
    let (asserted, asserted_at) = formulas(alloc, asserted)?;
    let (denied, denied_at) = formulas(alloc, denied)?;
    Ok(NamedScript {
        script: Script {
            constructors: globals.cells,
            predicates,
            constants,
            asserted,
            denied,
        },
        constants: names,
        parameters,
        asserted_at,
        denied_at,
        predicates_at,
    })
}

/// The script that trees are.
fn read_asked<'a>(alloc: Global, trees: &Trees<'a>) -> Result<NamedScript, ScriptFault>
    ensures asked { (all : Forest) → trees.now.nodes.items ≡ nodes_in all
        → OnOk result (asks_from false (commands_in trees.now.bytes.now all) ≡ true) }
    ensures told { Tells trees.now result }
{
    let reader = read_commands(alloc, trees)?;
    Ok(script_of(alloc, reader)?)
}

/// The script that the bytes spell; or its first fault: of its tokens, then of its parentheses, then of its commands in
/// order.
pub fn read_script(alloc: Global, bytes: &[u8]) -> Result<NamedScript, ScriptFault>
    requires { length bytes.now < 2 ^ 32 - 1 }
    // The first byte that begins no token or no character is told before all else, and then the first token with which
    // no script goes on.
    ensures text { TellsText bytes.now (lexical_fault bytes.now) result }
    // Any other fault stands at a token, or at the end.
    ensures told { TellsToken bytes.now result }
    // Commands stand up to the first exit as they may, and one of them asks the question.
    ensures asked { OnOk result (IsAsked bytes.now) }
{
    match read_trees(alloc, bytes) {
        Ok(trees) => read_asked(alloc, &trees),
        Err(fault) => {
            let error = ScriptFault::from(fault);
            Err(error)
        }
    }
}
