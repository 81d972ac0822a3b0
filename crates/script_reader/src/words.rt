// The words of the language of scripts.
ghost use Rattle.std.specs.Prelude.{◌≡◌, map};
ghost use Rattle.script_reader.specs.Words.{command_of as command_named, command_word, command_words};
ghost use Rattle.script_reader.specs.Words.{head_of as head_named, head_word, head_words, is_among};
ghost use Rattle.script_reader.specs.Words.{theory_sorts as sorts_of_theories};

/// A command.
#[derive(Clone, Copy, PartialEq, Eq)]
pub enum Command {
    /// It tells of the script, or asks for more output.
    Aside,
    Exit,
    DeclareSort,
    DeclareDatatype,
    DeclareDatatypes,
    DeclareHeap,
    DeclareConst,
    DeclareFun,
    DefineFun,
    DefineFunRec,
    DefineFunsRec,
    Assert,
    Check,
    Unsupported,
}

/// What a formula begins with, beside the names that a script declares.
#[derive(Clone, Copy, PartialEq, Eq)]
pub enum Head {
    True,
    False,
    Empty,
    Equal,
    Distinct,
    Not,
    And,
    Or,
    Implies,
    IfThenElse,
    Sep,
    PointsTo,
    Exists,
    Let,
    Annotated,
    Indexed,
    ForAll,
    Wand,
    Connective,
    Nil,
    /// A term with its sort.
    Cast,
    /// A symbol of another theory.
    Theory,
}

impl Head {
    /// Whether it is a word of the language, and no symbol.
    pub fn is_of_language(self) -> bool {
        matches!(
            self,
            Head::Exists | Head::ForAll | Head::Let | Head::Annotated | Head::Indexed | Head::Cast
        )
    }
}

/// A word and the command that it stands for.
#[derive(Clone, Copy)]
struct CommandWord {
    text: &'static str,
    command: Command,
}

#[derive(Clone, Copy)]
struct HeadWord {
    text: &'static str,
    head: Head,
}

static COMMANDS: [CommandWord; 38] = [
    CommandWord {
        text: "set-logic",
        command: Command::Aside,
    },
    CommandWord {
        text: "set-info",
        command: Command::Aside,
    },
    CommandWord {
        text: "set-option",
        command: Command::Aside,
    },
    CommandWord {
        text: "echo",
        command: Command::Aside,
    },
    CommandWord {
        text: "get-info",
        command: Command::Aside,
    },
    CommandWord {
        text: "get-option",
        command: Command::Aside,
    },
    CommandWord {
        text: "get-model",
        command: Command::Aside,
    },
    CommandWord {
        text: "get-value",
        command: Command::Aside,
    },
    CommandWord {
        text: "get-proof",
        command: Command::Aside,
    },
    CommandWord {
        text: "get-assertions",
        command: Command::Aside,
    },
    CommandWord {
        text: "get-unsat-core",
        command: Command::Aside,
    },
    CommandWord {
        text: "get-assignment",
        command: Command::Aside,
    },
    CommandWord {
        text: "exit",
        command: Command::Exit,
    },
    CommandWord {
        text: "declare-sort",
        command: Command::DeclareSort,
    },
    CommandWord {
        text: "declare-datatype",
        command: Command::DeclareDatatype,
    },
    CommandWord {
        text: "declare-datatypes",
        command: Command::DeclareDatatypes,
    },
    CommandWord {
        text: "declare-heap",
        command: Command::DeclareHeap,
    },
    CommandWord {
        text: "declare-const",
        command: Command::DeclareConst,
    },
    CommandWord {
        text: "declare-fun",
        command: Command::DeclareFun,
    },
    CommandWord {
        text: "define-fun",
        command: Command::DefineFun,
    },
    CommandWord {
        text: "define-fun-rec",
        command: Command::DefineFunRec,
    },
    CommandWord {
        text: "define-funs-rec",
        command: Command::DefineFunsRec,
    },
    CommandWord {
        text: "assert",
        command: Command::Assert,
    },
    CommandWord {
        text: "check-sat",
        command: Command::Check,
    },
    CommandWord {
        text: "check-unsat",
        command: Command::Check,
    },
    CommandWord {
        text: "push",
        command: Command::Unsupported,
    },
    CommandWord {
        text: "pop",
        command: Command::Unsupported,
    },
    CommandWord {
        text: "reset",
        command: Command::Unsupported,
    },
    CommandWord {
        text: "reset-assertions",
        command: Command::Unsupported,
    },
    CommandWord {
        text: "check-sat-assuming",
        command: Command::Unsupported,
    },
    CommandWord {
        text: "define-sort",
        command: Command::Unsupported,
    },
    CommandWord {
        text: "define-const",
        command: Command::Unsupported,
    },
    CommandWord {
        text: "declare-sort-parameter",
        command: Command::Unsupported,
    },
    CommandWord {
        text: "declare-codatatype",
        command: Command::Unsupported,
    },
    CommandWord {
        text: "declare-codatatypes",
        command: Command::Unsupported,
    },
    CommandWord {
        text: "declare-pool",
        command: Command::Unsupported,
    },
    CommandWord {
        text: "simplify",
        command: Command::Unsupported,
    },
    CommandWord {
        text: "get-abduct",
        command: Command::Unsupported,
    },
];

static HEADS: [HeadWord; 37] = [
    HeadWord {
        text: "true",
        head: Head::True,
    },
    HeadWord {
        text: "false",
        head: Head::False,
    },
    HeadWord {
        text: "emp",
        head: Head::Empty,
    },
    HeadWord {
        text: "sep.emp",
        head: Head::Empty,
    },
    HeadWord {
        text: "=",
        head: Head::Equal,
    },
    HeadWord {
        text: "distinct",
        head: Head::Distinct,
    },
    HeadWord {
        text: "not",
        head: Head::Not,
    },
    HeadWord {
        text: "and",
        head: Head::And,
    },
    HeadWord {
        text: "or",
        head: Head::Or,
    },
    HeadWord {
        text: "=>",
        head: Head::Implies,
    },
    HeadWord {
        text: "ite",
        head: Head::IfThenElse,
    },
    HeadWord {
        text: "sep",
        head: Head::Sep,
    },
    HeadWord {
        text: "pto",
        head: Head::PointsTo,
    },
    HeadWord {
        text: "exists",
        head: Head::Exists,
    },
    HeadWord {
        text: "let",
        head: Head::Let,
    },
    HeadWord {
        text: "!",
        head: Head::Annotated,
    },
    HeadWord {
        text: "_",
        head: Head::Indexed,
    },
    HeadWord {
        text: "forall",
        head: Head::ForAll,
    },
    HeadWord {
        text: "wand",
        head: Head::Wand,
    },
    HeadWord {
        text: "septraction",
        head: Head::Wand,
    },
    HeadWord {
        text: "-*",
        head: Head::Wand,
    },
    HeadWord {
        text: "xor",
        head: Head::Connective,
    },
    HeadWord {
        text: "loop",
        head: Head::Connective,
    },
    HeadWord {
        text: "tobool",
        head: Head::Connective,
    },
    HeadWord {
        text: "tospace",
        head: Head::Connective,
    },
    HeadWord {
        text: "ssep",
        head: Head::Connective,
    },
    HeadWord {
        text: "index",
        head: Head::Connective,
    },
    HeadWord {
        text: "match",
        head: Head::Connective,
    },
    HeadWord {
        text: "nil",
        head: Head::Nil,
    },
    HeadWord {
        text: "sep.nil",
        head: Head::Nil,
    },
    HeadWord {
        text: "as",
        head: Head::Cast,
    },
    HeadWord {
        text: "<",
        head: Head::Theory,
    },
    HeadWord {
        text: "<=",
        head: Head::Theory,
    },
    HeadWord {
        text: ">",
        head: Head::Theory,
    },
    HeadWord {
        text: ">=",
        head: Head::Theory,
    },
    HeadWord {
        text: "+",
        head: Head::Theory,
    },
    HeadWord {
        text: "-",
        head: Head::Theory,
    },
];

static THEORY_SORTS: [&str; 9] = [
    "Bool", "Int", "Real", "String", "RegLan", "Set", "Array", "BitVec", "Bag",
];

#[tactic(auto, unfolding(crate::specs::Words::command_words))]
fn commands() -> &'static [CommandWord]
    ensures { map command_word result.now ≡ command_words }
{
    &COMMANDS
}

/// The command that a word stands for.
pub fn command_of(text: &[u8]) -> Option<Command>
    ensures { result ≡ command_named text.now }
{
    let words = commands();
    for word in words {
        if word.text.as_bytes() == text {
            return Some(word.command);
        }
    }
    None
}

#[tactic(auto, unfolding(crate::specs::Words::head_words))]
fn heads() -> &'static [HeadWord]
    ensures { map head_word result.now ≡ head_words }
{
    &HEADS
}

/// What a word of the theory begins.
pub fn head_of(text: &[u8]) -> Option<Head>
    ensures { result ≡ head_named text.now }
{
    let words = heads();
    for word in words {
        if word.text.as_bytes() == text {
            return Some(word.head);
        }
    }
    None
}

#[tactic(auto, unfolding(crate::specs::Words::theory_sorts))]
fn theory_sorts() -> &'static [&'static str]
    ensures { map (λ w. w.now) result.now ≡ sorts_of_theories }
{
    &THEORY_SORTS
}

/// Whether a word is a sort of another theory, or the sort of truth values.
pub fn is_theory_sort(text: &[u8]) -> bool
    ensures { result ≡ is_among text.now sorts_of_theories }
{
    let words = theory_sorts();
    for word in words {
        if word.as_bytes() == text {
            return true;
        }
    }
    false
}
