// Where atoms lead, and what their cases ask for.
use crate::edges::Shapes;
use crate::heaps::{body_of, is_false_equation, value_in};
use crate::roots::Shape;
use cyc_basics::memory::OutOfMemory;
use heap_formula::{Heap, Pure, Spatial, Term};

/// A parameter, and the one at which what it stands for goes on behind the atom.
#[derive(Clone, Copy)]
pub struct Out {
    pub from: u16,
    pub to: u16,
}

fn is_root_at(shape: &Shape, place: u16) -> bool {
    place as usize == shape.root
}

/// Whether an atom of the predicate hands the parameter on unchanged.
fn keeps(atom: &Spatial, predicate: u16, place: u16) -> bool {
    match atom {
        Spatial::Pred(other, args) if *other == predicate => {
            args.as_slice().get(place as usize) == Some(&Term::Univ(place))
        }
        _ => true,
    }
}

fn all_keep(case: &Heap, predicate: u16, place: u16) -> bool {
    for atom in case.spatial() {
        if !keeps(atom, predicate, place) {
            return false;
        }
    }
    true
}

fn equation_of_parameters(atom: Pure) -> Option<(u16, u16)> {
    match atom {
        Pure::Eq(Term::Univ(from), Term::Univ(to)) => Some((from, to)),
        _ => None,
    }
}

impl Shapes<'_> {
    fn stays(&self, predicate: u16, place: u16) -> bool {
        for case in self.defs.cases(predicate) {
            if !all_keep(case, predicate, place) {
                return false;
            }
        }
        true
    }

    /// The case without cells.
    pub fn base_case(&self, predicate: u16) -> Option<&Heap> {
        let base = self.shape(predicate)?.base?;
        self.defs.cases(predicate).get(base.case as usize)
    }

    /// The number of the case without cells.
    pub fn base_number(&self, predicate: u16) -> Option<u32> {
        match self.shape(predicate)?.base {
            Some(base) => Some(base.case),
            None => None,
        }
    }

    fn outs_of_base(&self, predicate: u16, base: &Heap) -> Result<Vec<Out>, OutOfMemory> {
        let mut outs = Vec::new(self.alloc);
        for atom in base.pure() {
            if let Some((from, to)) = equation_of_parameters(*atom) {
                let out = if self.stays(predicate, to) {
                    Out { from, to }
                } else {
                    Out { from: to, to: from }
                };
                outs.push(out)?;
            }
        }
        Ok(outs)
    }

    fn arity(&self, predicate: u16) -> u16 {
        match self.defs.as_slice().get(predicate as usize) {
            Some(def) if def.arity <= 8 => def.arity as u16,
            _ => 0,
        }
    }

    fn is_far(&self, shape: &Shape, place: u16) -> bool {
        for far in &shape.far {
            if far.place == place as usize {
                return true;
            }
        }
        false
    }

    /// The first parameter beside the root and the further addresses that stays.
    fn still(&self, predicate: u16, shape: &Shape) -> Option<u16> {
        for place in 0..self.arity(predicate) {
            let is_address = is_root_at(shape, place) || self.is_far(shape, place);
            if !is_address && self.stays(predicate, place) {
                return Some(place);
            }
        }
        None
    }

    /// The parameter beside the root that does not stay, if there is one alone.
    fn moving(&self, predicate: u16, shape: &Shape) -> Option<u16> {
        let mut found = None;
        for place in 0..self.arity(predicate) {
            if !is_root_at(shape, place) && !self.stays(predicate, place) {
                if found.is_some() {
                    return None;
                }
                found = Some(place);
            }
        }
        found
    }

    fn outs_without_base(&self, predicate: u16, shape: &Shape) -> Result<Vec<Out>, OutOfMemory> {
        let mut outs = Vec::new(self.alloc);
        let Some(to) = self.still(predicate, shape) else {
            return Ok(outs);
        };
        if shape.root < 8 {
            let from = shape.root as u16;
            outs.push(Out { from, to })?;
        }
        if let (Some(from), [far]) = (self.moving(predicate, shape), shape.far.as_slice()) {
            if far.place < 8 {
                let to = far.place as u16;
                outs.push(Out { from, to })?;
            }
        }
        Ok(outs)
    }

    /// Which parameter goes on as which behind an atom: those that are equal where it is empty, the one that stays in
    /// the recursion being the second; or, where it never is, the root and the first that stays, and the one that moves
    /// and the further address.
    pub fn outs(&self, predicate: u16) -> Result<Vec<Out>, OutOfMemory> {
        let Some(shape) = self.shape(predicate) else {
            return Ok(Vec::new(self.alloc));
        };
        match self.base_case(predicate) {
            Some(base) => self.outs_of_base(predicate, base),
            None => self.outs_without_base(predicate, shape),
        }
    }

    /// The term to which an atom leads.
    pub fn target(&self, atom: &Spatial) -> Result<Option<Term>, OutOfMemory> {
        let Some(edge) = self.edge(atom) else {
            return Ok(None);
        };
        let Spatial::Pred(predicate, args) = atom else {
            return Ok(None);
        };
        if edge.end.is_some() {
            return Ok(edge.end);
        }
        for out in &self.outs(*predicate)? {
            if args.as_slice().get(out.from as usize) == Some(&edge.root)
                && self.is_root(*predicate, out.from)
            {
                return Ok(args.as_slice().get(out.to as usize).copied());
            }
        }
        Ok(None)
    }

    fn is_root(&self, predicate: u16, place: u16) -> bool {
        match self.shape(predicate) {
            Some(shape) => is_root_at(shape, place),
            None => false,
        }
    }

    fn push_asked(
        &self,
        asked: &mut Vec<(Term, Term)>,
        case: &Heap,
        root: Term,
        args: &[Term],
    ) -> Result<(), OutOfMemory> {
        for atom in case.pure() {
            if let Pure::Neq(t, u) = *atom {
                let is_local = matches!(t, Term::Exist(_)) || matches!(u, Term::Exist(_));
                let pair = (value_in(args, t), value_in(args, u));
                if !is_local && t != root && u != root && !asked.contains(&pair) {
                    asked.push(pair)?;
                }
            }
        }
        Ok(())
    }

    /// The pairs of terms that the cases of an atom want to differ, but those of the root.
    pub fn asks(&self, atom: &Spatial) -> Result<Vec<(Term, Term)>, OutOfMemory> {
        let mut asked = Vec::new(self.alloc);
        let Spatial::Pred(predicate, args) = atom else {
            return Ok(asked);
        };
        let Some(shape) = self.shape(*predicate) else {
            return Ok(asked);
        };
        let root = if shape.root < 8 {
            Term::Univ(shape.root as u16)
        } else {
            Term::Nil
        };
        for case in self.defs.cases(*predicate) {
            self.push_asked(&mut asked, case, root, args.as_slice())?;
        }
        Ok(asked)
    }

    /// Whether the atom is empty as it stands: the equations of its empty case are trivial.
    pub fn vanishes(&self, atom: &Spatial) -> Result<bool, OutOfMemory> {
        let Spatial::Pred(predicate, args) = atom else {
            return Ok(false);
        };
        let Some(base) = self.base_case(*predicate) else {
            return Ok(false);
        };
        let body = body_of(self.alloc, base, args)?;
        for atom in body.pure() {
            if is_false_equation(*atom) || matches!(atom, Pure::Neq(_, _)) {
                return Ok(false);
            }
        }
        Ok(true)
    }

    /// Whether each case with cells asks that the root differs from the end.
    pub fn is_end_apart(&self, atom: &Spatial) -> bool {
        let Spatial::Pred(predicate, _) = atom else {
            return false;
        };
        let Some(shape) = self.shape(*predicate) else {
            return false;
        };
        let Some(base) = shape.base else {
            return false;
        };
        if shape.root >= 8 {
            return false;
        }
        let wanted = Pure::Neq(Term::Univ(shape.root as u16), base.end);
        all_ask(self.defs.cases(*predicate), wanted)
    }
}

fn all_ask(cases: &[Heap], wanted: Pure) -> bool {
    for case in cases {
        if !case.spatial().is_empty() && !rule_table::has_pure(case.pure(), wanted) {
            return false;
        }
    }
    true
}
