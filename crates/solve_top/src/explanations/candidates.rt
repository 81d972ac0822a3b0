//! What could have stood in the place of a token: each candidate is put there in turn, and the text up to it is read.

ghost use Rattle.std.specs.Prelude.{◌<◌, ◌^◌, length, map};
ghost use Rattle.cyc_lex.specs.Word.{word_of, EndsOnce};

use cyc_basics::memory::OutOfMemory;
use cyc_lex::{LexFault, ReadFault, Token, Tokens, tokens};
use problem_syntax::read_problem_tree;
use std::alloc::Global;

/// The symbols of the lexer, and the reserved words of the grammar.
static FIXED: [&str; 35] = [
    ",", ")", ";", ":", "=", "!=", "*", "|", "|-", "->", ":=", ".", "(", "{", "}", "'", "[", "]",
    "$", "?", "true", "emp", "nil", "pred", "line", "goal", "from", "given", "or", "if", "goto",
    "new", "free", "stop", "end",
];

/// The words of the grammar that may be names elsewhere.
static HEADING: [&str; 2] = ["cyclist", "problem"];

/// The numbers of the versions.
static VERSIONS: [&str; 3] = ["1", "2", "3"];

/// What could stand at a place of a text.
#[derive(Drop)]
pub struct Expected {
    /// Any name that is not reserved.
    pub name: bool,
    /// Any number.
    pub number: bool,
    /// Symbols and words.
    pub words: Vec<&'static str>,
    /// Nothing more.
    pub end: bool,
}

impl Expected {
    /// Nothing.
    pub fn nothing(alloc: Global) -> Expected {
        Expected {
            name: false,
            number: false,
            words: Vec::new(alloc),
            end: false,
        }
    }

    /// Whether this symbol or word is among them.
    pub fn has(&self, word: &str) -> bool {
        self.words.as_slice().iter().any(|known| *known == word)
    }
}

/// The number of the first token that, with all before it, begins no problem; none where the tokens spell one.
pub fn first_dead(alloc: Global, tokens: &Tokens<'_>) -> Result<Option<u32>, OutOfMemory>
    requires few { length tokens.now < 2 ^ 32 }
    requires words { EndsOnce (map word_of tokens.now) }
{
    match read_problem_tree(alloc, tokens) {
        Ok(_) => Ok(None),
        Err(ReadFault::Syntax { token, .. }) => Ok(Some(token)),
        Err(ReadFault::OutOfMemory) => Err(OutOfMemory),
        Err(_) => Ok(Some(0)),
    }
}

/// Whether a text of so many tokens and one more begins a problem.
fn begins_problem(alloc: Global, text: &[u8], count: usize) -> Result<bool, OutOfMemory> {
    if text.len() >= u32::MAX as usize {
        return Ok(false);
    }
    let dead = match tokens(alloc, text) {
        Ok(tokens) => first_dead(alloc, &tokens)?,
        Err(LexFault::OutOfMemory) => return Err(OutOfMemory),
        Err(_) => return Ok(false),
    };
    match dead {
        None => Ok(true),
        Some(token) => Ok(token as usize > count),
    }
}

/// The text of some tokens, and candidates for the next one.
#[derive(Drop)]
struct Front {
    text: Vec<u8>,
    count: usize,
}

impl Front {
    fn new(alloc: Global, tokens: &[Token<'_>]) -> Result<Front, OutOfMemory> {
        let mut text = Vec::new(alloc);
        for token in tokens {
            text.extend_from_slice(token.text.as_bytes())?;
            text.push(b' ')?;
        }
        Ok(Front {
            text,
            count: tokens.len(),
        })
    }

    /// Whether this may come next.
    fn takes(&mut self, alloc: Global, word: &str) -> Result<bool, OutOfMemory> {
        let size = self.text.len();
        self.text.extend_from_slice(word.as_bytes())?;
        let fits = begins_problem(alloc, self.text.as_slice(), self.count)?;
        self.text.truncate(size);
        Ok(fits)
    }

    /// Appends those of the words that may come next.
    fn push_taken(
        &mut self,
        alloc: Global,
        words: &[&'static str],
        found: &mut Vec<&'static str>,
    ) -> Result<(), OutOfMemory> {
        for word in words {
            if self.takes(alloc, *word)? {
                found.push(*word)?;
            }
        }
        Ok(())
    }
}

/// What could stand behind these tokens, which begin a problem.
pub fn what_fits(alloc: Global, tokens: &[Token<'_>]) -> Result<Expected, OutOfMemory> {
    let mut front = Front::new(alloc, tokens)?;
    let name = front.takes(alloc, "x")?;
    let number = front.takes(alloc, "7")?;
    let end = front.takes(alloc, "")?;
    let mut words: Vec<&'static str> = Vec::new(alloc);
    front.push_taken(alloc, &FIXED, &mut words)?;
    if !name {
        front.push_taken(alloc, &HEADING, &mut words)?;
    }
    if !number {
        front.push_taken(alloc, &VERSIONS, &mut words)?;
    }
    Ok(Expected {
        name,
        number,
        words,
        end,
    })
}
