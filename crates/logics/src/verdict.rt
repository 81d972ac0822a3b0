// What a check says of a proof.
use trace_pairs::Lasso;

/// The verdict on a proof: it is correct; a node, the least one that is not right, with its first fault; a lasso, which
/// no trace follows with progress again and again; or the product with age forests has too many states.
#[derive(Drop)]
pub enum Verdict<F> {
    Accepted,
    RuleRefused { node: u32, fault: F },
    PathRefused { lasso: Lasso },
    TooManyStates,
}
