// Variables in the order in which the text of a problem names them.
use crate::ScriptAtom;
use crate::cases::Case;
use cyc_basics::memory::OutOfMemory;
use heap_formula::{Pure, Term};
use std::alloc::Global;

/// Which variables are looked for, and their numbers.
#[derive(Clone, Copy)]
enum Wanted {
    /// Those that are not quantified.
    Free,
    /// Those that are quantified.
    Quantified,
    /// All, the quantified ones with numbers from this one on.
    Raised(u16),
}

/// Different numbers, in the order in which they came.
#[derive(Drop)]
struct Numbers {
    wanted: Wanted,
    all: Vec<u16>,
}

impl Wanted {
    fn number_of(self, term: Term) -> Option<u16> {
        match (self, term) {
            (Wanted::Free, Term::Univ(n)) => Some(n),
            (Wanted::Quantified, Term::Exist(n)) => Some(n),
            (Wanted::Raised(_), Term::Univ(n)) => Some(n),
            (Wanted::Raised(most), Term::Exist(n)) if n <= u16::MAX - most => Some(most + n),
            _ => None,
        }
    }
}

impl Numbers {
    fn new(alloc: Global, wanted: Wanted) -> Numbers {
        Numbers {
            wanted,
            all: Vec::new(alloc),
        }
    }

    fn term(&mut self, term: Term) -> Result<(), OutOfMemory> {
        if let Some(number) = self.wanted.number_of(term) {
            if !self.all.contains(&number) {
                self.all.push(number)?;
            }
        }
        Ok(())
    }

    fn terms(&mut self, terms: &[Term]) -> Result<(), OutOfMemory> {
        for term in terms {
            self.term(*term)?;
        }
        Ok(())
    }

    fn pures(&mut self, atoms: &[Pure]) -> Result<(), OutOfMemory> {
        for atom in atoms {
            let (Pure::Eq(t, u) | Pure::Neq(t, u)) = *atom;
            self.term(t)?;
            self.term(u)?;
        }
        Ok(())
    }

    fn atom(&mut self, atom: &ScriptAtom) -> Result<(), OutOfMemory> {
        match atom {
            ScriptAtom::Cell(t, _, args) => {
                self.term(*t)?;
                self.terms(args.as_slice())
            }
            ScriptAtom::Call(_, args) => self.terms(args.as_slice()),
        }
    }

    /// Those of a case: of its equations first, and of a cell its address before the fields.
    fn case(&mut self, case: &Case) -> Result<(), OutOfMemory> {
        self.pures(case.pure())?;
        for atom in case.atoms() {
            self.atom(atom)?;
        }
        Ok(())
    }

    fn cases(&mut self, cases: &[Case]) -> Result<(), OutOfMemory> {
        for case in cases {
            self.case(case)?;
        }
        Ok(())
    }
}

/// The constants that occur in the cases.
pub fn constants_in(alloc: Global, cases: &[Case]) -> Result<Vec<u16>, OutOfMemory> {
    let mut numbers = Numbers::new(alloc, Wanted::Free);
    numbers.cases(cases)?;
    Ok(numbers.all)
}

/// The quantified variables that occur in a case.
pub fn quantified_in(alloc: Global, case: &Case) -> Result<Vec<u16>, OutOfMemory> {
    let mut numbers = Numbers::new(alloc, Wanted::Quantified);
    numbers.case(case)?;
    Ok(numbers.all)
}

/// The universal variables of a goal with so many constants, for the cases of both sides: constants, and the quantified
/// variables of the only first case with numbers behind those.
pub fn universals_in(
    alloc: Global,
    constants: u16,
    first: &[Case],
    second: &[Case],
) -> Result<Vec<u16>, OutOfMemory> {
    let wanted = if first.len() == 1 {
        Wanted::Raised(constants)
    } else {
        Wanted::Free
    };
    let mut numbers = Numbers::new(alloc, wanted);
    numbers.cases(first)?;
    numbers.wanted = Wanted::Free;
    numbers.cases(second)?;
    Ok(numbers.all)
}
