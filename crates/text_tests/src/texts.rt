// Proof files as texts.
use proof_file::ProofFile;
use proof_file::texts::read_file;
use std::alloc::Global;
use std::test::Fail;

/// The file that a text of at most a million bytes spells.
pub fn file(alloc: Global, bytes: &[u8]) -> Result<ProofFile, Fail> {
    if bytes.len() > 1000000 {
        return Err(Fail::from("long"));
    }
    match read_file(alloc, bytes) {
        Ok(file) => Ok(file),
        Err(_) => Err(Fail::from("not read")),
    }
}
