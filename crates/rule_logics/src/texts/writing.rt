// Writing proofs. A text is read and checked again before it is given, so no clause here says what it spells.
use crate::Reason;
use crate::texts::reading::RuleNode;
use crate::texts::text::RuleText;
use cyc_basics::memory::OutOfMemory;
use itoa::Buffer;
use std::alloc::Global;

/// Adds a text.
pub fn put(text: &[u8], out: &mut Vec<u8>) -> Result<(), OutOfMemory> {
    out.extend_from_slice(text)?;
    Ok(())
}

fn write_number(number: u32, out: &mut Vec<u8>) -> Result<(), OutOfMemory> {
    let mut buffer = Buffer::new();
    put(b" ", out)?;
    put(buffer.format(number).as_bytes(), out)
}

fn write_reason<T: RuleText>(
    texts: &T,
    node: &RuleNode<T::Judgement, T::Rule>,
    out: &mut Vec<u8>,
) -> Result<(), OutOfMemory> {
    put(b" by ", out)?;
    match &node.reason {
        Reason::Link(target) => {
            put(b"Link", out)?;
            write_number(*target, out)
        }
        Reason::Rule(rule) => {
            texts.write_rule(rule, out)?;
            write_premises(node.premises.as_slice(), out)
        }
    }
}

fn write_premises(numbers: &[u32], out: &mut Vec<u8>) -> Result<(), OutOfMemory> {
    if !numbers.is_empty() {
        put(b" to", out)?;
    }
    for number in numbers {
        write_number(*number, out)?;
    }
    Ok(())
}

/// The text of a proof.
pub fn proof_text<T: RuleText>(
    alloc: Global,
    texts: &T,
    nodes: &[RuleNode<T::Judgement, T::Rule>],
) -> Result<Vec<u8>, OutOfMemory> {
    let mut out = Vec::new(alloc);
    put(texts.title().as_bytes(), &mut out)?;
    put(b" proof;\n", &mut out)?;
    for node in nodes {
        put(b"node ", &mut out)?;
        texts.write_judgement(&node.judgement, &mut out)?;
        write_reason(texts, node, &mut out)?;
        put(b";\n", &mut out)?;
    }
    put(b"end;\n", &mut out)?;
    Ok(out)
}
