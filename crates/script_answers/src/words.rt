// The words of faults of scripts.
use script_formulas::goals::Unsupported as Unsayable;
use script_reader::{IllScript, ScriptLimit, Unsupported};

/// What is ill-formed, by its name.
pub fn ill_word(fault: IllScript) -> &'static str {
    match fault {
        IllScript::Duplicate => "duplicate",
        IllScript::Unknown => "unknown",
        IllScript::Arity => "arity",
        IllScript::Sort => "sort",
        IllScript::Question => "question",
    }
}

/// What there is too much of, by its name.
pub fn limit_word(limit: ScriptLimit) -> &'static str {
    match limit {
        ScriptLimit::Depth => "depth",
        ScriptLimit::Size => "size",
        ScriptLimit::Sorts => "sorts",
        ScriptLimit::Constants => "constants",
        ScriptLimit::Predicates => "predicates",
        ScriptLimit::Constructors => "constructors",
        ScriptLimit::Arguments => "arguments",
    }
}

/// What is unsupported, by its name.
pub fn unsupported_word(what: Unsupported) -> &'static str {
    match what {
        Unsupported::Command => "command",
        Unsupported::Question => "question",
        Unsupported::Sort => "sort",
        Unsupported::Theory => "theory",
        Unsupported::Function => "function",
        Unsupported::Cell => "cell",
        Unsupported::Nested => "nested",
        Unsupported::Term => "term",
        Unsupported::Connective => "connective",
        Unsupported::Quantifier => "quantifier",
        Unsupported::Wand => "wand",
        Unsupported::Constant => "constant",
    }
}

/// What no problem says, or what it would have too many of.
#[derive(Clone, Copy, PartialEq, Eq)]
pub enum UnsayableWord {
    Unsupported(&'static str),
    Limit(&'static str),
}

/// What a problem cannot say, by its name.
pub fn unsayable_word(what: Unsayable) -> UnsayableWord {
    match what {
        Unsayable::OpenHeap => UnsayableWord::Unsupported("open-heap"),
        Unsayable::OpenPart => UnsayableWord::Unsupported("open-part"),
        Unsayable::Conjunction => UnsayableWord::Unsupported("conjunction"),
        Unsayable::Negation => UnsayableWord::Unsupported("negation"),
        Unsayable::Universal => UnsayableWord::Unsupported("quantifier"),
        Unsayable::Unbound => UnsayableWord::Unsupported("constant"),
        Unsayable::Sorts => UnsayableWord::Unsupported("sort"),
        Unsayable::Cases => UnsayableWord::Limit("cases"),
        Unsayable::Quantifiers => UnsayableWord::Limit("locals"),
        Unsayable::PureAtoms => UnsayableWord::Limit("pure"),
        Unsayable::HeapAtoms => UnsayableWord::Limit("spatial"),
        Unsayable::Fields => UnsayableWord::Limit("fields"),
        Unsayable::Parameters => UnsayableWord::Limit("arguments"),
        Unsayable::Predicates => UnsayableWord::Limit("predicates"),
        Unsayable::Disjunction => UnsayableWord::Limit("disjunction"),
        Unsayable::Variables => UnsayableWord::Limit("variable"),
    }
}
