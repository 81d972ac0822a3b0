// Scripts.
use crate::formula::ScriptFormula;

/// A constructor of cells: the sort of the locations at which its cells stand, by `declare-heap`, and the sorts of its
/// fields. Two constructors of one sort of locations are those of its datatype.
#[derive(Drop)]
pub struct Constructor {
    pub location: u16,
    pub fields: Vec<u16>,
}

/// A predicate, by `define-fun-rec`: its name in the script, the sorts of its parameters, and its body, whose `Univ(n)`
/// are the parameters.
#[derive(Drop)]
pub struct Predicate {
    pub name: String,
    pub parameters: Vec<u16>,
    pub body: ScriptFormula,
}

/// A constant, by `declare-const` or `declare-fun`: its sort.
#[derive(Clone, Copy)]
pub struct Constant {
    pub sort: u16,
}

/// A script up to its question: may all of `asserted` hold of one stack and heap, and none of `denied`? `(assert (not
/// F))` denies F, where F speaks of the heap; else it may stand in either list. Predicates, constructors, constants and
/// sorts are numbered in their lists from 0, sorts without a list: as many as there are.
#[derive(Drop)]
pub struct Script {
    pub constructors: Vec<Constructor>,
    pub predicates: Vec<Predicate>,
    pub constants: Vec<Constant>,
    pub asserted: Vec<ScriptFormula>,
    pub denied: Vec<ScriptFormula>,
}
