// The names of faults and limits, as they are printed.
ghost use Rattle.std.specs.Prelude.{◌≡◌};
ghost use Rattle.cyc_runs.specs.Names.{fault_name_of, fault_number_of, ill_name_of, limit_name_of};

use cyc_lex::{IllFault, What};
use heap_formula::RuleFault;

/// A fault of a node by its name.
pub fn fault_name(fault: RuleFault) -> &'static str
    ensures { result.now ≡ fault_name_of fault }
{
    match fault {
        RuleFault::NoSuchAtom => "NoSuchAtom",
        RuleFault::NotEquation => "NotEquation",
        RuleFault::AtomsDiffer => "AtomsDiffer",
        RuleFault::NotSingle => "NotSingle",
        RuleFault::HasExistential => "HasExistential",
        RuleFault::NotFollowing => "NotFollowing",
        RuleFault::NotAbsurd => "NotAbsurd",
        RuleFault::NotEmpty => "NotEmpty",
        RuleFault::NoSuchCase => "NoSuchCase",
        RuleFault::WrongJudgement => "WrongJudgement",
        RuleFault::NoCell => "NoCell",
        RuleFault::LineDiffers => "LineDiffers",
        RuleFault::LinkProgramVariable => "LinkProgramVariable",
        RuleFault::LinkPure(_) => "LinkPure",
        RuleFault::LinkSpatial(_) => "LinkSpatial",
        RuleFault::LinkDisjunct(_) => "LinkDisjunct",
        RuleFault::TooManyAtoms => "TooManyAtoms",
        RuleFault::NoFreshVariable => "NoFreshVariable",
        RuleFault::PremiseCount => "PremiseCount",
        RuleFault::PremiseDiffers(_) => "PremiseDiffers",
        RuleFault::NoSuchNode => "NoSuchNode",
    }
}

/// The number that a fault of a node carries.
pub fn fault_number(fault: RuleFault) -> Option<u32>
    ensures { result ≡ fault_number_of fault }
{
    match fault {
        RuleFault::LinkPure(k) => Some(k),
        RuleFault::LinkSpatial(k) => Some(k),
        RuleFault::LinkDisjunct(k) => Some(k),
        RuleFault::PremiseDiffers(i) => Some(i),
        _ => None,
    }
}

/// What is ill-formed, by its name.
pub fn ill_name(fault: IllFault) -> &'static str
    ensures { result.now ≡ ill_name_of fault }
{
    match fault {
        IllFault::Duplicate => "duplicate",
        IllFault::Parameter => "parameter",
        IllFault::Unknown => "unknown",
        IllFault::Arity => "arity",
        IllFault::Numbering => "numbering",
        IllFault::Jump => "jump",
        IllFault::FallsOff => "falls-off",
        IllFault::NoLine => "no-line",
        IllFault::Address => "address",
        IllFault::Constant => "constant",
    }
}

/// What a limit counts, by its name.
pub fn limit_name(what: What) -> &'static str
    ensures { result.now ≡ limit_name_of what }
{
    match what {
        What::Predicates => "predicates",
        What::Arguments => "arguments",
        What::Cases => "cases",
        What::Pure => "pure",
        What::Spatial => "spatial",
        What::Locals => "locals",
        What::Disjuncts => "disjuncts",
        What::Lines => "lines",
        What::ProgramVariables => "program-variables",
        What::Fields => "fields",
        What::Nodes => "nodes",
        What::Variable => "variable",
        What::Stack => "stack",
        What::Cells => "cells",
        What::Constructors => "constructors",
        What::Atoms => "atoms",
        What::Terms => "terms",
    }
}
