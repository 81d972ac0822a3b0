// Laws of the definitions.
ghost use Rattle.pair_family.specs.Statements.{CombinableIsSatisfiable};

/// Some choice of base pairs of the family combines consistently with a symbolic heap exactly where some stack and heap
/// satisfy it.
pub fn combinable_is_satisfiable()
    ensures { CombinableIsSatisfiable }
{}
