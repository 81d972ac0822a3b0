// What is asked of a model.
use cyc_basics::memory::OutOfMemory;
use refute_unfoldings::Model;

/// What is known of a model: it is one that is sought; it is not, and less general ones may be where these pairs of
/// values are one value each.
#[derive(Drop)]
pub enum Verdict {
    Sought,
    Otherwise(Vec<(u64, u64)>),
}

/// What a look at a model brings: a verdict, whether nothing was left out, and how much work it was.
#[derive(Drop)]
pub struct Look {
    pub verdict: Verdict,
    pub is_whole: bool,
    pub work: u32,
}

/// A question about models of one formula: which are sought.
pub trait Inquiry {
    /// Looks at a model, with twice the work for each round of its age.
    fn look(&self, model: &Model, age: u32) -> Result<Look, OutOfMemory>;
}

/// So much work, doubled as often as the age says.
pub fn doubled(work: u32, age: u32) -> u32 {
    let mut work = work;
    for _ in 0..age.min(16) {
        work = work.saturating_mul(2);
    }
    work
}
