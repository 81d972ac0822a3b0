// Why a node holds, and what may be wrong with it.

/// Why a node holds: by a rule, or by a link to the node with this number, which states the same.
#[derive(Drop)]
pub enum Reason<R> {
    Rule(R),
    Link(u32),
}

/// What may be wrong with a node.
#[derive(Clone, Copy)]
pub enum NodeFault<F> {
    /// The rule has this fault.
    Rule(F),
    /// The companion of the link states something else.
    LinkDiffers,
    PremiseCount,
    PremiseDiffers(u32),
    NoSuchNode,
}
