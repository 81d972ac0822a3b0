// Atoms of a frame in the names of the question.
ghost use Rattle.std.specs.Prelude.{◌<◌, ◌^◌, ◌-◌, length};

use cyc_basics::memory::OutOfMemory;
use cyc_lex::{LexFault, ReadFault, Token, tokens};
use heap_formula::{Pure, Spatial, Term};
use pred_defs::Defs;
use problem_syntax::names::{ProblemName, goal_names};
use problem_syntax::read_problem_tree;
use std::alloc::Global;

/// What the names of new variables begin with: the first of these with which no name of the question begins.
const PREFIXES: [&str; 4] = ["f", "g", "h", "k"];

/// The names of a question's variables, by their numbers: the universal ones, and the existential ones of what is asked
/// for; and what the names of further existential ones begin with.
#[derive(Drop)]
pub struct QuestionNames<'a> {
    pub universals: Vec<ProblemName<'a>>,
    pub existentials: Vec<&'a str>,
    prefix: &'static str,
}

fn has_name(names: &[&str], text: &str) -> bool {
    for name in names {
        if *name == text {
            return true;
        }
    }
    false
}

/// The names behind the turnstile that have a prime, each once, in the order of the text.
fn existential_names<'a>(alloc: Global, tokens: &[Token<'a>]) -> Result<Vec<&'a str>, OutOfMemory> {
    let mut names = Vec::new(alloc);
    let mut is_right = false;
    let mut before = "";
    for token in tokens {
        if token.text == "|-" {
            is_right = true;
        }
        if is_right && token.text == "'" && !has_name(&names, before) {
            names.push(before)?;
        }
        before = token.text;
    }
    Ok(names)
}

/// Whether a name of the question begins so.
fn begins_some(tokens: &[Token<'_>], prefix: &str) -> bool {
    for token in tokens {
        if token.text.as_bytes().first() == prefix.as_bytes().first() {
            return true;
        }
    }
    false
}

fn free_prefix(tokens: &[Token<'_>]) -> &'static str {
    for prefix in PREFIXES {
        if !begins_some(tokens, prefix) {
            return prefix;
        }
    }
    "frame_"
}

fn no_names<'a>(alloc: Global) -> QuestionNames<'a> {
    QuestionNames {
        universals: Vec::new(alloc),
        existentials: Vec::new(alloc),
        prefix: "f",
    }
}

/// The names in the text of the problem that a question speaks of; none where it spells no problem.
pub fn question_names(alloc: Global, plain: &[u8]) -> Result<QuestionNames<'_>, OutOfMemory>
    requires { length plain.now < 2 ^ 32 - 1 }
{
    let tokens = match tokens(alloc, plain) {
        Ok(tokens) => tokens,
        Err(LexFault::OutOfMemory) => return Err(OutOfMemory),
        Err(_) => return Ok(no_names(alloc)),
    };
    let existentials = existential_names(alloc, tokens.as_slice())?;
    let prefix = free_prefix(tokens.as_slice());
    match read_problem_tree(alloc, &tokens) {
        Ok(tree) => Ok(QuestionNames {
            universals: goal_names(alloc, &tree)?,
            existentials,
            prefix,
        }),
        Err(ReadFault::OutOfMemory) => Err(OutOfMemory),
        Err(_) => Ok(no_names(alloc)),
    }
}

/// A name that the question does not have.
fn push_new_name(
    alloc: Global,
    text: &mut Vec<u8>,
    prefix: &str,
    number: usize,
) -> Result<(), OutOfMemory> {
    let name = format!(in alloc; "{prefix}{number}'")?;
    text.extend_from_slice(name.as_bytes())?;
    Ok(())
}

/// A universal variable; one that has a prime in the antecedent becomes existential.
fn push_universal(
    alloc: Global,
    text: &mut Vec<u8>,
    names: &QuestionNames<'_>,
    number: usize,
) -> Result<(), OutOfMemory> {
    let Some(name) = names.universals.get(number) else {
        text.extend_from_slice(b"?")?;
        return Ok(());
    };
    if name.primed && has_name(&names.existentials, name.text) {
        text.extend_from_slice(name.text.as_bytes())?;
        return push_new_name(alloc, text, "_", number);
    }
    text.extend_from_slice(name.text.as_bytes())?;
    if name.primed {
        text.extend_from_slice(b"'")?;
    }
    Ok(())
}

fn push_existential(
    alloc: Global,
    text: &mut Vec<u8>,
    names: &QuestionNames<'_>,
    number: usize,
) -> Result<(), OutOfMemory> {
    match names.existentials.get(number) {
        Some(name) => {
            text.extend_from_slice(name.as_bytes())?;
            text.extend_from_slice(b"'")?;
            Ok(())
        }
        None => {
            let place = number.saturating_sub(names.existentials.len());
            push_new_name(alloc, text, names.prefix, place.saturating_add(1))
        }
    }
}

fn push_term(
    alloc: Global,
    text: &mut Vec<u8>,
    names: &QuestionNames<'_>,
    term: Term,
) -> Result<(), OutOfMemory> {
    match term {
        Term::Nil => {
            text.extend_from_slice(b"nil")?;
            Ok(())
        }
        Term::Univ(number) => push_universal(alloc, text, names, number as usize),
        Term::Exist(number) => push_existential(alloc, text, names, number as usize),
    }
}

fn push_terms(
    alloc: Global,
    text: &mut Vec<u8>,
    names: &QuestionNames<'_>,
    terms: &[Term],
) -> Result<(), OutOfMemory> {
    text.extend_from_slice(b"(")?;
    for (place, term) in terms.iter().enumerate() {
        if place > 0 {
            text.extend_from_slice(b", ")?;
        }
        push_term(alloc, text, names, *term)?;
    }
    text.extend_from_slice(b")")?;
    Ok(())
}

fn push_pure_atom(
    alloc: Global,
    text: &mut Vec<u8>,
    names: &QuestionNames<'_>,
    atom: Pure,
) -> Result<(), OutOfMemory> {
    let (left, sign, right) = match atom {
        Pure::Eq(t, u) => (t, b" = ".as_slice(), u),
        Pure::Neq(t, u) => (t, b" != ".as_slice(), u),
    };
    push_term(alloc, text, names, left)?;
    text.extend_from_slice(sign)?;
    push_term(alloc, text, names, right)
}

/// Pure atoms, with commas between them.
pub fn push_pure_atoms(
    alloc: Global,
    text: &mut Vec<u8>,
    names: &QuestionNames<'_>,
    atoms: &[Pure],
) -> Result<(), OutOfMemory> {
    for (place, atom) in atoms.iter().enumerate() {
        if place > 0 {
            text.extend_from_slice(b", ")?;
        }
        push_pure_atom(alloc, text, names, *atom)?;
    }
    Ok(())
}

fn push_spatial_atom(
    alloc: Global,
    text: &mut Vec<u8>,
    names: &QuestionNames<'_>,
    defs: &Defs,
    atom: &Spatial,
) -> Result<(), OutOfMemory> {
    match atom {
        Spatial::Cell(address, fields) => {
            push_term(alloc, text, names, *address)?;
            text.extend_from_slice(b" -> ")?;
            push_terms(alloc, text, names, fields.as_slice())
        }
        Spatial::Pred(predicate, arguments) => {
            if let Some(definition) = defs.as_slice().get(*predicate as usize) {
                text.extend_from_slice(definition.name.as_text().as_bytes())?;
            }
            push_terms(alloc, text, names, arguments.as_slice())
        }
    }
}

/// Spatial atoms, with stars between them; `emp` where there are none.
pub fn push_spatial_atoms(
    alloc: Global,
    text: &mut Vec<u8>,
    names: &QuestionNames<'_>,
    defs: &Defs,
    atoms: &[Spatial],
) -> Result<(), OutOfMemory> {
    if atoms.is_empty() {
        text.extend_from_slice(b"emp")?;
    }
    for (place, atom) in atoms.iter().enumerate() {
        if place > 0 {
            text.extend_from_slice(b" * ")?;
        }
        push_spatial_atom(alloc, text, names, defs, atom)?;
    }
    Ok(())
}
