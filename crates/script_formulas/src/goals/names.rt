// Names of predicates.
use cyc_basics::memory::OutOfMemory;
use heap_syntax::reserved_words;
use std::alloc::Global;

/// Characters of a script's name that are kept, at most.
const LONGEST_KEPT: usize = 56;

fn is_kept(c: char) -> bool {
    c.is_ascii_alphanumeric() || c == '_'
}

/// The name in characters that a name may have.
fn plain_name(alloc: Global, name: &str) -> Result<String, OutOfMemory> {
    let mut plain = String::new(alloc);
    for c in name.chars().take(LONGEST_KEPT) {
        if plain.as_str().is_empty() && !c.is_ascii_alphabetic() {
            plain.push('p')?;
        }
        plain.push(if is_kept(c) { c } else { '_' })?;
    }
    if plain.as_str().is_empty() {
        plain.push('p')?;
    }
    Ok(plain)
}

fn is_free(names: &[String], name: &str) -> bool {
    !names.iter().any(|known| known.as_str() == name)
        && !reserved_words().iter().any(|word| *word == name)
}

/// A name like this one that is none of these: itself, or with a number behind it.
pub fn free_name(alloc: Global, names: &[String], wanted: &str) -> Result<String, OutOfMemory> {
    let plain = plain_name(alloc, wanted)?;
    if is_free(names, plain.as_str()) {
        return Ok(plain);
    }
    for number in 2..10_000_u32 {
        let numbered = format!(in alloc; "{plain}_{number}")?;
        if is_free(names, numbered.as_str()) {
            return Ok(numbered);
        }
    }
    Ok(plain)
}
