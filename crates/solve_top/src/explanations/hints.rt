//! Names of a goal that look like mistakes.

ghost use Rattle.std.specs.Prelude.{◌<◌, ◌^◌, length, map};
ghost use Rattle.cyc_lex.specs.Word.{word_of, EndsOnce};

use crate::explanations::candidates::first_dead;
use crate::explanations::near::is_slip;
use crate::explanations::notes::Notes;
use crate::explanations::parts::Part;
use crate::explanations::statements::{Head, head_of, heads, is_name, is_word};
use crate::explanations::syntax::is_reserved;
use cyc_basics::memory::OutOfMemory;
use cyc_lex::{LexFault, Token, Tokens, tokens};
use std::alloc::Global;

/// How many variables a goal may have, if its names are to be compared.
const MOST_COMPARED: usize = 256;

/// A variable of a goal, and how often it occurs.
#[derive(Clone, Copy)]
struct Variable<'a> {
    name: &'a str,
    primed: bool,
    count: usize,
}

/// The tokens from the word `goal` on.
fn goal<'t, 'a>(tokens: &'t [Token<'a>]) -> &'t [Token<'a>] {
    let at = tokens
        .iter()
        .position(|token| is_word(token, "goal"))
        .unwrap_or(tokens.len());
    let (_, goal) = tokens.split_at(at.min(tokens.len()));
    goal
}

/// One more occurrence of a variable.
fn count_one<'a>(
    variables: &mut Vec<Variable<'a>>,
    name: &'a str,
    primed: bool,
) -> Result<(), OutOfMemory> {
    for variable in variables.iter_mut() {
        if variable.name == name && variable.primed == primed {
            variable.count = variable.count.saturating_add(1);
            return Ok(());
        }
    }
    variables.push(Variable {
        name,
        primed,
        count: 1,
    })?;
    Ok(())
}

/// The variables of a goal, in the order of their first occurrences; none where there are many.
fn variables<'a>(alloc: Global, goal: &[Token<'a>]) -> Result<Vec<Variable<'a>>, OutOfMemory> {
    let mut variables = Vec::new(alloc);
    for pair in goal.windows(2) {
        if let [token, next] = pair
            && is_name(token)
            && !is_reserved(token.text)
            && next.text != "("
        {
            count_one(&mut variables, token.text, next.text == "'")?;
        }
        if variables.len() > MOST_COMPARED {
            return Ok(Vec::new(alloc));
        }
    }
    Ok(variables)
}

/// The one variable whose name this one's may be a slip for, if it occurs more often. Where there are several, as in a
/// row of numbered names, none is meant.
fn meant<'a>(variables: &[Variable<'a>], suspect: &Variable<'a>) -> Option<Variable<'a>> {
    let mut near = variables.iter().filter(|other| other.primed == suspect.primed
        && is_slip(suspect.name, other.name));
    let other = near.next()?;
    if near.next().is_some() || other.count <= suspect.count {
        return None;
    }
    Some(*other)
}

/// What is written behind a name that is primed or not.
fn prime(primed: bool) -> &'static str {
    if primed { "'" } else { "" }
}

/// Notes what is suspicious of a variable that occurs once.
fn note(
    notes: &mut Notes,
    heads: &[Head<'_>],
    variables: &[Variable<'_>],
    suspect: &Variable<'_>,
) -> Result<(), OutOfMemory> {
    if !suspect.primed && head_of(heads, suspect.name).is_some() {
        return notes.line(&[
            Part::Name(suspect.name),
            Part::Text(" occurs once as a variable of the goal; it is the name of a predicate"),
        ]);
    }
    match meant(variables, suspect) {
        Some(other) => notes.line(&[
            Part::Text("\""),
            Part::Text(suspect.name),
            Part::Text(prime(suspect.primed)),
            Part::Text("\" occurs once in the goal; \""),
            Part::Text(other.name),
            Part::Text(prime(other.primed)),
            Part::Text("\" is meant?"),
        ]),
        None => Ok(()),
    }
}

/// The notes on the names of a problem's goal.
fn goal_hints(alloc: Global, tokens: &[Token<'_>]) -> Result<Notes, OutOfMemory> {
    let mut notes = Notes::new(alloc);
    let heads = heads(alloc, tokens)?;
    let variables = variables(alloc, goal(tokens))?;
    for variable in variables.as_slice() {
        if variable.count == 1 {
            note(&mut notes, heads.as_slice(), variables.as_slice(), variable)?;
        }
    }
    Ok(notes)
}

fn hints(alloc: Global, tokens: &Tokens<'_>) -> Result<Notes, OutOfMemory>
    requires few { length tokens.now < 2 ^ 32 }
    requires words { EndsOnce (map word_of tokens.now) }
{
    match first_dead(alloc, tokens)? {
        None => goal_hints(alloc, tokens.as_slice()),
        Some(_) => Ok(Notes::new(alloc)),
    }
}

/// Notes on names that look like mistakes: a variable that occurs once in the goal, and has the name of a predicate, or
/// differs in one character or in case from a single other one, which occurs more often. A text that is no problem has
/// no notes.
pub fn name_hints(alloc: Global, input: &[u8]) -> Result<Notes, OutOfMemory> {
    if input.len() >= u32::MAX as usize {
        return Ok(Notes::new(alloc));
    }
    match tokens(alloc, input) {
        Ok(tokens) => hints(alloc, &tokens),
        Err(LexFault::OutOfMemory) => Err(OutOfMemory),
        Err(_) => Ok(Notes::new(alloc)),
    }
}
