// The text of a problem.
use crate::texts::names::FitNames;
use cyc_basics::memory::OutOfMemory;
use heap_formula::{
    Def, Heap, Judgement, Pure, Spatial, Term, Variables, bound_in_heap, bound_of_judgement,
};
use heap_syntax::Version;
use pred_defs::Defs;
use std::alloc::Global;

/// The names of a problem's variables: of the goal's, by their numbers, and of each definition's parameters. They are
/// made fit, and those that are missing are made up.
#[derive(Drop)]
pub struct ProblemNames {
    pub universals: Vec<String>,
    pub parameters: Vec<Vec<String>>,
}

/// The names that variables have in a heap.
#[derive(Clone, Copy)]
struct Scope<'n> {
    universals: &'n [String],
    existentials: &'n [String],
    prime: bool,
}

/// A text that is being made.
#[derive(Drop)]
struct Text<'d> {
    text: String,
    defs: &'d Defs,
}

impl Text<'_> {
    fn push(&mut self, text: &str) -> Result<(), OutOfMemory> {
        self.text.push_str(text)?;
        Ok(())
    }

    fn term(&mut self, scope: &Scope<'_>, term: Term) -> Result<(), OutOfMemory> {
        match term {
            Term::Nil => self.push("nil"),
            Term::Univ(n) => match scope.universals.get(n as usize) {
                Some(name) => self.push(name.as_str()),
                None => self.push("nil"),
            },
            Term::Exist(n) => {
                if let Some(name) = scope.existentials.get(n as usize) {
                    self.push(name.as_str())?;
                }
                if scope.prime { self.push("'") } else { Ok(()) }
            }
        }
    }

    fn terms(&mut self, scope: &Scope<'_>, terms: &[Term]) -> Result<(), OutOfMemory> {
        for (place, term) in terms.iter().enumerate() {
            if place > 0 {
                self.push(", ")?;
            }
            self.term(scope, *term)?;
        }
        Ok(())
    }

    fn pure(&mut self, scope: &Scope<'_>, atom: Pure) -> Result<(), OutOfMemory> {
        let (left, sign, right) = match atom {
            Pure::Eq(left, right) => (left, " = ", right),
            Pure::Neq(left, right) => (left, " != ", right),
        };
        self.term(scope, left)?;
        self.push(sign)?;
        self.term(scope, right)
    }

    fn spatial(&mut self, scope: &Scope<'_>, atom: &Spatial) -> Result<(), OutOfMemory> {
        match atom {
            Spatial::Cell(address, fields) => {
                self.term(scope, *address)?;
                self.push(" -> (")?;
                self.terms(scope, fields.as_slice())?;
            }
            Spatial::Pred(number, arguments) => {
                if let Some(def) = self.defs.as_slice().get(*number as usize) {
                    self.text.push_str(def.name.as_text())?;
                }
                self.push("(")?;
                self.terms(scope, arguments.as_slice())?;
            }
        }
        self.push(")")
    }

    fn pures(&mut self, scope: &Scope<'_>, atoms: &[Pure]) -> Result<(), OutOfMemory> {
        if atoms.is_empty() {
            return self.push("true");
        }
        for (place, atom) in atoms.iter().enumerate() {
            if place > 0 {
                self.push(", ")?;
            }
            self.pure(scope, *atom)?;
        }
        Ok(())
    }

    fn spatials(&mut self, scope: &Scope<'_>, atoms: &[Spatial]) -> Result<(), OutOfMemory> {
        if atoms.is_empty() {
            return self.push("emp");
        }
        for (place, atom) in atoms.iter().enumerate() {
            if place > 0 {
                self.push(" * ")?;
            }
            self.spatial(scope, atom)?;
        }
        Ok(())
    }

    fn heap(&mut self, scope: &Scope<'_>, heap: &Heap) -> Result<(), OutOfMemory> {
        self.pures(scope, heap.pure())?;
        self.push(" : ")?;
        self.spatials(scope, heap.spatial())
    }

    fn heaps(
        &mut self,
        scope: &Scope<'_>,
        heaps: &[Heap],
        between: &str,
    ) -> Result<(), OutOfMemory> {
        for (place, heap) in heaps.iter().enumerate() {
            if place > 0 {
                self.push(between)?;
            }
            self.heap(scope, heap)?;
        }
        Ok(())
    }

    fn names(&mut self, names: &[String]) -> Result<(), OutOfMemory> {
        for (place, name) in names.iter().enumerate() {
            if place > 0 {
                self.push(", ")?;
            }
            self.push(name.as_str())?;
        }
        Ok(())
    }

    fn definition(
        &mut self,
        alloc: Global,
        def: &Def,
        names: &[String],
    ) -> Result<(), OutOfMemory> {
        let mut fit = FitNames::new(alloc);
        let parameters = fit_names(alloc, &mut fit, names, def.arity as usize, "a")?;
        let most = self.defs.most().locals as usize;
        let locals = fit_names(alloc, &mut fit, &[], most, "l")?;
        let scope = Scope {
            universals: &parameters,
            existentials: &locals,
            prime: false,
        };
        self.push("pred ")?;
        self.push(def.name.as_text())?;
        self.push("(")?;
        self.names(&parameters)?;
        self.push(") { ")?;
        self.heaps(&scope, def.cases.heaps(), " | ")?;
        self.push(" };\n")
    }
}

/// So many names: these as far as they go, made fit, and then made up ones.
fn fit_names(
    alloc: Global,
    fit: &mut FitNames,
    names: &[String],
    count: usize,
    other: &str,
) -> Result<Vec<String>, OutOfMemory> {
    let mut made = Vec::new(alloc);
    for number in 0..count {
        let name = match names.get(number) {
            Some(name) => fit.fit(name.as_str(), number)?,
            None => {
                let name = format!(in alloc; "{other}{number}")?;
                fit.fit(name.as_str(), number)?
            }
        };
        made.push(name)?;
    }
    Ok(made)
}

/// How many existential variables the heaps have at most.
fn existential_count(heaps: &[Heap]) -> usize {
    let mut count = 0;
    for heap in heaps {
        count = bound_in_heap(Variables::Existential, heap).max(count);
    }
    count as usize
}

/// The text of a problem without a program, with these names. Of a goal that is no entailment nothing is written.
pub fn problem_text(
    alloc: Global,
    version: Version,
    defs: &Defs,
    goal: &Judgement,
    names: &ProblemNames,
) -> Result<Vec<u8>, OutOfMemory> {
    let mut text = Text {
        text: String::new(alloc),
        defs,
    };
    text.push(match version {
        Version::One => "cyclist problem 1;\n",
        Version::Two => "cyclist problem 2;\n",
        Version::Three => "cyclist problem 3;\n",
    })?;
    for (number, def) in defs.as_slice().iter().enumerate() {
        match names.parameters.get(number) {
            Some(parameters) => text.definition(alloc, def, parameters)?,
            None => text.definition(alloc, def, &[])?,
        }
    }
    if let Judgement::Entail(antecedent, disjuncts) = goal {
        let count = bound_of_judgement(goal) as usize;
        push_goal(
            alloc,
            &mut text,
            count,
            names,
            antecedent,
            disjuncts.heaps(),
        )?;
    }
    text.push("end;\n")?;
    Ok(text.text.into_bytes())
}

fn push_goal(
    alloc: Global,
    text: &mut Text<'_>,
    count: usize,
    names: &ProblemNames,
    antecedent: &Heap,
    disjuncts: &[Heap],
) -> Result<(), OutOfMemory> {
    let mut fit = FitNames::new(alloc);
    let universals = fit_names(alloc, &mut fit, &names.universals, count, "v")?;
    let existentials = fit_names(alloc, &mut fit, &[], existential_count(disjuncts), "e")?;
    let scope = Scope {
        universals: &universals,
        existentials: &existentials,
        prime: true,
    };
    text.push("goal ")?;
    text.heap(&scope, antecedent)?;
    text.push("\n  |- ")?;
    text.heaps(&scope, disjuncts, "\n  or ")?;
    text.push(";\n")
}
