//! The words of the command line.
use cyc_basics::memory::OutOfMemory;
use std::env;
use std::io::ErrorKind;

/// The words of the command line, the program's name not among them. Where one of them isn't UTF-8, a
/// single empty word stands for all of them, which no program takes.
pub fn command_words(rt: &HostRuntime) -> Result<Vec<String>, OutOfMemory> {
    let alloc = rt.alloc();
    match env::args(rt) {
        Ok(words) => Ok(words.skip(1).collect(alloc)?),
        Err(error) => match error.kind() {
            ErrorKind::OutOfMemory => Err(OutOfMemory),
            _ => Ok(Vec::from_array(alloc, [String::new(alloc)])?),
        },
    }
}
