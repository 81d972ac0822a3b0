// The names of faults, as they are printed.
ghost use Rattle.std.specs.Prelude.{◌≡◌};
ghost use Rattle.command_answers.specs.Names.{fault_name_of, fault_number_of};

use fo_logic::FoFault;

/// A fault of a node by its name.
pub fn fault_name(fault: FoFault) -> &'static str
    ensures { result.now ≡ fault_name_of fault }
{
    match fault {
        FoFault::NoSuchAtom => "NoSuchAtom",
        FoFault::NotEquation => "NotEquation",
        FoFault::AtomsDiffer => "AtomsDiffer",
        FoFault::NotAbsurd => "NotAbsurd",
        FoFault::NoSuchCase => "NoSuchCase",
        FoFault::TooManyAtoms => "TooManyAtoms",
        FoFault::NoFreshVariable => "NoFreshVariable",
        FoFault::PremiseCount => "PremiseCount",
        FoFault::PremiseDiffers(_) => "PremiseDiffers",
        FoFault::NoSuchNode => "NoSuchNode",
        FoFault::NotVariable => "NotVariable",
        FoFault::TooManyTerms => "TooManyTerms",
        FoFault::LinkLeft(_) => "LinkLeft",
        FoFault::LinkRight(_) => "LinkRight",
        FoFault::TermCount => "TermCount",
    }
}

/// The number that a fault of a node carries.
pub fn fault_number(fault: FoFault) -> Option<u32>
    ensures { result ≡ fault_number_of fault }
{
    match fault {
        FoFault::PremiseDiffers(i) => Some(i),
        FoFault::LinkLeft(k) => Some(k),
        FoFault::LinkRight(k) => Some(k),
        _ => None,
    }
}
