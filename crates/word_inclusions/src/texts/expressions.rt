// Reading regular expressions from tokens.
ghost use Rattle.std.specs.Prelude.{◌≡◌, suc};
ghost use Rattle.cyc_grammar.specs.Giving.{Gives, texts};
ghost use Rattle.word_inclusions.specs.Expressions.{expression_of};
ghost use Rattle.word_inclusions.specs.Grammar.{reserved, read_leaf, read_bracket, is_factor, read_expression};
ghost use Rattle.word_inclusions.specs.Grammar.{read_any};

use crate::Regex;
use cyc_grammar::{Cursor, Refusal};
use std::alloc::Global;

/// How deep an expression may be: each choice, each factor after another and each bracket is one deeper or a few.
pub const MOST_DEPTH: u32 = 2_000;

static RESERVED: [&str; 1] = ["by"];

fn reserved_words() -> &'static [&'static str]
    ensures { texts result.now ≡ reserved }
{
    &RESERVED
}

/// How tight an expression binds: a choice least, then one after the other, then a letter, a bracket, a repetition.
#[derive(Clone, Copy)]
pub enum Level {
    Sum,
    Product,
    Factor,
}

/// A constant or a letter.
fn leaf(cursor: &mut Cursor<'_, '_>) -> Result<Regex, Refusal>
    ensures { Gives (λ x. (expression_of x, cursor.new)) result (read_leaf cursor.old) }
{
    let left = cursor.left();
    if cursor.is_number_next() {
        return match cursor.number()? {
            0 => Ok(Regex::Zero),
            1 => Ok(Regex::One),
            _ => Err(Refusal::Dead(left)),
        };
    }
    let name = cursor.name(reserved_words())?;
    match name.as_bytes() {
        [letter] if b'a' <= *letter && *letter <= b'z' => Ok(Regex::Letter(*letter)),
        _ => Err(Refusal::Dead(left)),
    }
}

fn is_factor_next(cursor: &Cursor<'_, '_>) -> bool
    ensures { result ≡ is_factor cursor.now }
{
    cursor.is_symbol_next("(") || (cursor.is_number_next() || cursor.is_name_next(reserved_words()))
}

#[cycle(expressions)]
fn bracket(alloc: Global, depth: u32, cursor: &mut Cursor<'_, '_>) -> Result<Regex, Refusal>
    ensures { Gives (λ x. (expression_of x, cursor.new)) result
        (read_bracket (read_expression depth Level.Sum) cursor.old) }
{
    cursor.symbol("(")?;
    let inner = expression(alloc, depth, Level::Sum, cursor)?;
    cursor.symbol(")")?;
    Ok(inner)
}

#[cycle(expressions)]
fn sum(alloc: Global, depth: u32, cursor: &mut Cursor<'_, '_>) -> Result<Regex, Refusal>
    ensures { Gives (λ x. (expression_of x, cursor.new)) result (read_expression (suc depth) Level.Sum cursor.old) }
{
    let left = expression(alloc, depth, Level::Product, cursor)?;
    if !cursor.is_symbol_next("|") {
        return Ok(left);
    }
    cursor.symbol("|")?;
    let right = expression(alloc, depth, Level::Sum, cursor)?;
    Ok(Regex::sum(alloc, left, right)?)
}

#[cycle(expressions)]
fn product(alloc: Global, depth: u32, cursor: &mut Cursor<'_, '_>) -> Result<Regex, Refusal>
    ensures { Gives (λ x. (expression_of x, cursor.new)) result (read_expression (suc depth) Level.Product cursor.old) }
{
    let left = expression(alloc, depth, Level::Factor, cursor)?;
    if !is_factor_next(cursor) {
        return Ok(left);
    }
    let right = expression(alloc, depth, Level::Product, cursor)?;
    Ok(Regex::product(alloc, left, right)?)
}

#[cycle(expressions)]
fn factor(alloc: Global, depth: u32, cursor: &mut Cursor<'_, '_>) -> Result<Regex, Refusal>
    ensures { Gives (λ x. (expression_of x, cursor.new)) result (read_expression (suc depth) Level.Factor cursor.old) }
{
    let inner = if cursor.is_symbol_next("(") {
        bracket(alloc, depth, cursor)?
    } else {
        leaf(cursor)?
    };
    if !cursor.is_symbol_next("*") {
        return Ok(inner);
    }
    cursor.symbol("*")?;
    Ok(Regex::star(alloc, inner)?)
}

/// Reads an expression of a level, at most so deep.
#[cycle(expressions)]
pub fn expression(
    alloc: Global,
    depth: u32,
    level: Level,
    cursor: &mut Cursor<'_, '_>,
) -> Result<Regex, Refusal>
    ensures { Gives (λ x. (expression_of x, cursor.new)) result (read_expression depth level cursor.old) }
{
    if depth == 0 {
        return Err(Refusal::Dead(cursor.left()));
    }
    match level {
        Level::Sum => sum(alloc, depth - 1, cursor),
        Level::Product => product(alloc, depth - 1, cursor),
        Level::Factor => factor(alloc, depth - 1, cursor),
    }
}

/// Reads an expression.
pub fn any_expression(alloc: Global, cursor: &mut Cursor<'_, '_>) -> Result<Regex, Refusal>
    ensures { Gives (λ x. (expression_of x, cursor.new)) result (read_any cursor.old) }
{
    expression(alloc, MOST_DEPTH, Level::Sum, cursor)
}
