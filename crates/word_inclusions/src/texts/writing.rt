// Writing regular expressions.
use crate::Regex;
use crate::texts::expressions::Level;
use rule_logics::OutOfMemory;
use rule_logics::texts::put;

/// Whether an expression stands in brackets where one of this level is wanted.
fn has_brackets(e: &Regex, level: Level) -> bool {
    match (e, level) {
        (Regex::Sum(..), Level::Product | Level::Factor) => true,
        (Regex::Product(..), Level::Factor) => true,
        _ => false,
    }
}

/// Whether a repetition of the expression needs no brackets.
fn is_atom(e: &Regex) -> bool {
    match e {
        Regex::Zero | Regex::One | Regex::Letter(_) => true,
        _ => false,
    }
}

/// Writes an expression where one of this level is wanted.
#[cycle(writing)]
pub fn write_expression(e: &Regex, level: Level, out: &mut Vec<u8>) -> Result<(), OutOfMemory> {
    if has_brackets(e, level) {
        return write_bracket(e, out);
    }
    write_parts(e, out)
}

#[cycle(writing)]
fn write_bracket(e: &Regex, out: &mut Vec<u8>) -> Result<(), OutOfMemory> {
    put(b"(", out)?;
    write_parts(e, out)?;
    put(b")", out)
}

#[cycle(writing)]
fn write_parts(e: &Regex, out: &mut Vec<u8>) -> Result<(), OutOfMemory> {
    match e {
        Regex::Zero => put(b"0", out),
        Regex::One => put(b"1", out),
        Regex::Letter(a) => put(&[*a], out),
        Regex::Sum(e, f) => {
            write_expression(e, Level::Product, out)?;
            put(b" | ", out)?;
            write_expression(f, Level::Sum, out)
        }
        Regex::Product(e, f) => {
            write_expression(e, Level::Factor, out)?;
            put(b" ", out)?;
            write_expression(f, Level::Product, out)
        }
        Regex::Star(e) => {
            if is_atom(e) {
                write_parts(e, out)?;
            } else {
                write_bracket(e, out)?;
            }
            put(b"*", out)
        }
    }
}
