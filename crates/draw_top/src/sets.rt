//! Attributes, and texts of labels.
ghost use Rattle.std.specs.Prelude.{◌≡◌, ◌++◌, decimal, map, IfOk, OnOk};
ghost use Rattle.draw_top.specs.Graphs.{Text, look_of, run_of, set_of};
ghost use Rattle.draw_top.specs.Drawings.{fault_line, refused_sets, set_to};

use crate::graph::{Attribute, Run, Style, Value};
use cyc_basics::memory::OutOfMemory;
use cyc_runs::texts::node_refused_line;
use heap_formula::RuleFault;
use itoa::Buffer;
use std::alloc::Global;

/// An attribute that is set to a string.
pub fn set(name: &'static str, value: &'static str) -> Attribute
    ensures { set_of result ≡ set_to name.now value.now }
{
    Attribute {
        name,
        value: Value::Quoted(value),
    }
}

/// What is refused is red, and drawn by a thick line.
pub fn add_red(sets: &mut Vec<Attribute>, is_refused: bool) -> Result<(), OutOfMemory>
    ensures { OnOk result (map set_of sets.new.items ≡ map set_of sets.old.items ++ refused_sets is_refused) }
{
    if is_refused {
        sets.push(set("color", "red"))?;
        sets.push(set("penwidth", "2"))?;
    }
    Ok(())
}

/// A text as it is in a label.
pub fn plain(alloc: Global, text: &str) -> Result<Run, OutOfMemory>
    ensures { IfOk result (λ r. run_of r ≡ Text (look_of Style.Plain) text.now) }
{
    let text = Vec::from_slice(alloc, text.as_bytes())?;
    Ok(Run::Text(Style::Plain, text))
}

/// A number in decimal.
pub fn number(alloc: Global, n: u64) -> Result<Vec<u8>, OutOfMemory>
    ensures { IfOk result (λ v. v.items ≡ decimal n) }
{
    let mut buffer = Buffer::new();
    Ok(Vec::from_slice(alloc, buffer.format(n).as_bytes())?)
}

/// What the check says of a node with a fault, without its line feed.
pub fn fault_text(alloc: Global, node: u32, fault: RuleFault) -> Result<Vec<u8>, OutOfMemory>
    ensures { IfOk result (λ v. v.items ≡ fault_line node fault) }
{
    let mut line = node_refused_line(alloc, node, fault)?;
    line.pop();
    Ok(line)
}
