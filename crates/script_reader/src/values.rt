// Formulas that are done.
ghost use Rattle.std.specs.Prelude.{◌≡◌, false, true};

use crate::work::Connective;
use cyc_basics::memory::OutOfMemory;
use script_formulas::ScriptFormula;
use std::alloc::Global;

/// A formula, and whether it says something of the heap.
#[derive(Drop)]
pub struct Value {
    pub formula: ScriptFormula,
    pub spatial: bool,
}

impl Value {
    /// A formula that says nothing of the heap.
    pub fn pure(formula: ScriptFormula) -> Value
        ensures { result ≡ record { formula = formula; spatial = false } }
    {
        Value {
            formula,
            spatial: false,
        }
    }

    /// A formula that says something of the heap.
    pub fn spatial(formula: ScriptFormula) -> Value
        ensures { result ≡ record { formula = formula; spatial = true } }
    {
        Value {
            formula,
            spatial: true,
        }
    }
}

/// Two formulas joined.
fn joined(
    alloc: Global,
    connective: Connective,
    left: Value,
    right: Value,
) -> Result<Value, OutOfMemory> {
    let spatial = left.spatial || right.spatial;
    let (left, right) = (left.formula, right.formula);
    let formula = match connective {
        Connective::And => ScriptFormula::and(alloc, left, right)?,
        Connective::Or => ScriptFormula::or(alloc, left, right)?,
        Connective::Sep => ScriptFormula::sep(alloc, left, right)?,
    };
    Ok(Value { formula, spatial })
}

/// Each two neighbours joined, and the last as it is where it has none.
fn pairs(
    alloc: Global,
    connective: Connective,
    values: Vec<Value>,
) -> Result<Vec<Value>, OutOfMemory> {
    let mut made = Vec::new(alloc);
    let mut pending = None;
    for value in values {
        match pending.take() {
            None => pending = Some(value),
            Some(left) => made.push(joined(alloc, connective, left, value)?)?,
        }
    }
    if let Some(last) = pending {
        made.push(last)?;
    }
    Ok(made)
}

/// How often lists are halved at most: none has 2 ^ 64 values.
const MOST_LEVELS: u32 = 64;

/// The formulas joined in balance, in their order: as deep as their number has digits.
pub fn fold(
    alloc: Global,
    connective: Connective,
    values: Vec<Value>,
) -> Result<Option<Value>, OutOfMemory> {
    let mut level = values;
    for _ in 0..MOST_LEVELS {
        if level.len() < 2 {
            break;
        }
        level = pairs(alloc, connective, level)?;
    }
    Ok(level.pop())
}
