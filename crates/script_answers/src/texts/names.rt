// Names that the format has.
use cyc_basics::memory::OutOfMemory;
use heap_syntax::reserved_words;
use indexmap::IndexSet;
use std::alloc::Global;

/// How many characters of a name are kept.
const LONGEST_KEPT: usize = 48;

/// How often a name that is taken is tried again.
const MOST_TRIES: usize = 16;

/// Names that differ, each an identifier of at most 64 bytes that is not reserved.
#[derive(Drop)]
pub struct FitNames {
    alloc: Global,
    taken: IndexSet<String>,
}

fn is_kept(c: char) -> bool {
    c.is_ascii_alphanumeric() || c == '_'
}

/// The characters of a name that an identifier may have, with `_` in place of the others.
fn plain(alloc: Global, name: &str) -> Result<String, OutOfMemory> {
    let mut made = String::new(alloc);
    for c in name.chars().take(LONGEST_KEPT) {
        if made.is_empty() && c.is_ascii_digit() {
            made.push('v')?;
        }
        made.push(if is_kept(c) { c } else { '_' })?;
    }
    if made.is_empty() {
        made.push('v')?;
    }
    Ok(made)
}

fn is_reserved(name: &str) -> bool {
    for word in reserved_words() {
        if *word == name {
            return true;
        }
    }
    false
}

impl FitNames {
    /// No name is taken.
    pub fn new(alloc: Global) -> FitNames {
        FitNames {
            alloc,
            taken: IndexSet::new(alloc),
        }
    }

    fn is_free(&self, name: &str) -> bool {
        !is_reserved(name) && !self.taken.contains(name)
    }

    /// A name like this one, which is now taken: itself where it can be, else with the number behind it.
    pub fn fit(&mut self, name: &str, number: usize) -> Result<String, OutOfMemory> {
        let mut made = plain(self.alloc, name)?;
        if !self.is_free(made.as_str()) {
            made = format!(in self.alloc; "{made}_{number}")?;
        }
        for _ in 0..MOST_TRIES {
            if self.is_free(made.as_str()) {
                break;
            }
            made.push('x')?;
        }
        let copy = made.clone()?;
        self.taken.insert(copy)?;
        Ok(made)
    }
}
