// The limits of the formats, as what passes one is told.

/// What of a heap passes the limits of the formats.
#[derive(Clone, Copy)]
pub enum HeapExcess {
    /// It has more pure or spatial atoms than the version allows.
    Atoms,
    /// A variable has a number above 65,534.
    Variable,
    /// A predicate has no definition, or is used with another number of arguments.
    Predicate,
    /// A cell has no field.
    Fields,
}

/// What of a case of a definition passes the limits of the formats.
#[derive(Clone, Copy)]
pub enum CaseExcess {
    Heap(HeapExcess),
    /// A universal variable is no parameter.
    Parameter,
    /// It has more locals than the version allows.
    Locals,
}

/// What of a definition passes the limits of the formats.
#[derive(Clone, Copy)]
pub enum DefinitionExcess {
    /// Its name is none, or is a word of the formats.
    Name,
    /// A definition before has the name.
    Duplicate,
    /// It has more parameters than the version allows.
    Parameters,
    /// It has no case, or more than the version allows.
    Cases,
    /// Its case at this place, from 0.
    Case(usize, CaseExcess),
}

/// What of a judgement passes the limits of the formats.
#[derive(Clone, Copy)]
pub enum JudgementExcess {
    /// The program has no such line.
    Line,
    /// The antecedent, or the state at a line.
    Antecedent(HeapExcess),
    /// The disjunct at this place, from 0.
    Disjunct(usize, HeapExcess),
    /// An existential variable stands in the antecedent.
    Existential,
}

/// What of a problem passes the limits of the formats.
#[derive(Clone, Copy)]
pub enum ProblemExcess {
    /// The definition at this place, from 0.
    Definition(usize, DefinitionExcess),
    /// The command of this line, from 1: the version does not have it, or it names a field past those that the version
    /// allows.
    Command(usize),
    /// The end of this line, from 1: its disjunct at this place, from 0.
    End(usize, usize, HeapExcess),
    Goal(JudgementExcess),
}
