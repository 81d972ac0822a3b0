// Constructors, and definitions of predicates.
ghost use Rattle.std.specs.Prelude.{◌≡◌};

use crate::atoms::FoAtoms;
use heap_formula::DefName;
use std::alloc::AllocError;
use std::marker::Model;

/// A constructor: its name, and how many arguments it takes, at most eight.
#[derive(Drop)]
pub struct Constructor {
    pub name: DefName,
    pub arguments: u8,
}

impl Clone for Constructor {
    ghost is_clone = { λ constructor copy. copy ≡ constructor };

    fn clone(&self) -> Result<Constructor, AllocError> {
        let name = self.name.clone()?;
        Ok(Constructor {
            name,
            arguments: self.arguments,
        })
    }
}

/// The constructors, in order. The first takes no arguments where a theory is well-formed.
#[derive(Drop)]
pub struct Constructors {
    constructors: Vec<Constructor>,
}

impl Model for Constructors {
    ghost use Rattle.std.specs.Prelude.{List};
    ghost use Rattle.fo_formula.specs.declared.theory.Constructor.{Constructor};

    ghost Value = { List Constructor };

    ghost view = { λ x. x.constructors.items };
}

impl Clone for Constructors {
    ghost is_clone = { λ from copy. copy ≡ from };

    fn clone(&self) -> Result<Constructors, AllocError> {
        let constructors = self.constructors.clone()?;
        Ok(Constructors { constructors })
    }
}

impl Constructors {
    /// These constructors in this order, without a copy.
    pub fn from_vec(constructors: Vec<Constructor>) -> Constructors
        ensures { result ≡ constructors.items }
    {
        Constructors { constructors }
    }

    /// The constructors in order.
    pub fn as_slice(&self) -> &[Constructor]
        ensures { result.now ≡ self.now }
    {
        &self.constructors
    }
}

/// The cases of a predicate, in order.
#[derive(Drop)]
pub struct FoCases {
    cases: Vec<FoAtoms>,
}

impl Model for FoCases {
    ghost use Rattle.std.specs.Prelude.{List};
    ghost use Rattle.fo_formula.specs.declared.atoms.FoAtom.{FoAtom};

    ghost Value = { List (List FoAtom) };

    ghost view = { λ x. x.cases.items };
}

impl Clone for FoCases {
    ghost is_clone = { λ from copy. copy ≡ from };

    fn clone(&self) -> Result<FoCases, AllocError> {
        let cases = self.cases.clone()?;
        Ok(FoCases { cases })
    }
}

impl FoCases {
    /// These cases in this order, without a copy.
    pub fn from_vec(cases: Vec<FoAtoms>) -> FoCases
        ensures { result ≡ cases.items }
    {
        FoCases { cases }
    }

    /// The cases in order.
    pub fn as_slice(&self) -> &[FoAtoms]
        ensures { result.now ≡ self.now }
    {
        &self.cases
    }
}

/// An inductive definition (Martin-Löf 1971): the predicate holds where the atoms of one of its cases do, for some
/// values of the case's locals. In a case the variables below `arity` are the parameters.
#[derive(Drop)]
pub struct FoDefinition {
    pub name: DefName,
    pub arity: u8,
    pub cases: FoCases,
}

impl Clone for FoDefinition {
    ghost is_clone = { λ definition copy. copy ≡ definition };

    fn clone(&self) -> Result<FoDefinition, AllocError> {
        let name = self.name.clone()?;
        let cases = self.cases.clone()?;
        Ok(FoDefinition {
            name,
            arity: self.arity,
            cases,
        })
    }
}

/// The definitions, in order.
#[derive(Drop)]
pub struct FoDefinitions {
    definitions: Vec<FoDefinition>,
}

impl Model for FoDefinitions {
    ghost use Rattle.std.specs.Prelude.{List};
    ghost use Rattle.fo_formula.specs.declared.theory.FoDefinition.{FoDefinition};

    ghost Value = { List FoDefinition };

    ghost view = { λ x. x.definitions.items };
}

impl Clone for FoDefinitions {
    ghost is_clone = { λ from copy. copy ≡ from };

    fn clone(&self) -> Result<FoDefinitions, AllocError> {
        let definitions = self.definitions.clone()?;
        Ok(FoDefinitions { definitions })
    }
}

impl FoDefinitions {
    /// These definitions in this order, without a copy.
    pub fn from_vec(definitions: Vec<FoDefinition>) -> FoDefinitions
        ensures { result ≡ definitions.items }
    {
        FoDefinitions { definitions }
    }

    /// The definitions in order.
    pub fn as_slice(&self) -> &[FoDefinition]
        ensures { result.now ≡ self.now }
    {
        &self.definitions
    }
}

/// The constructors and the definitions that a proof speaks of.
#[derive(Drop)]
pub struct FoTheory {
    pub constructors: Constructors,
    pub definitions: FoDefinitions,
}

impl Clone for FoTheory {
    ghost is_clone = { λ theory copy. copy ≡ theory };

    fn clone(&self) -> Result<FoTheory, AllocError> {
        let constructors = self.constructors.clone()?;
        let definitions = self.definitions.clone()?;
        Ok(FoTheory {
            constructors,
            definitions,
        })
    }
}
