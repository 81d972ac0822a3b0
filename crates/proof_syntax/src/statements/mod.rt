//! Proof files statement by statement: the statement that may come next, and what is left after it.

mod read_statements;
mod tree;

ghost use Rattle.std.specs.Prelude.{◌≡◌, ◌++◌, ◌+◌, [], suc, length, List, ℕ, Ok, Err};
ghost use Rattle.cyc_lex.specs.Word.{Word};
ghost use Rattle.proof_syntax.specs.Left.{Part, At, Statement, left_of, statement_of, kept_statement, statement_front};
ghost use Rattle.proof_syntax.specs.Left.{next, join, joined};
ghost use Rattle.heap_syntax.specs.declared.keep.Keep.{Keep};

pub use read_statements::{
    first_statement, kept_end_or_node, kept_line_or_later, kept_node_or_last, kept_pred_or_later,
};
pub use tree::{EndOrNode, LineOrLater, NodeOrLast, PredOrLater};

/// A statement comes off the front of what is left of a file: whatever words follow, what is read of all is the
/// statement, joined with what is read of those words as what is left after it.
pub fn statements_come_off_the_front()
    ensures { (p : Part) (ws more : List Word) (t : Statement p) → (statement_of p).read ws ≡ Ok (t, [])
        → (left_of (At p)).read (ws ++ more) ≡ joined (join p t) ((left_of (next p t)).read more) }
{}

/// What is kept of a statement as it is read is its front: the whole is read of the same words, with the same rest or
/// the same fault, and leads to the same part.
pub fn fronts_of_statements_are_read()
    ensures front { (k : Keep) (p : Part) (ws : List Word) → (kept_statement k p).read ws
        ≡ joined (statement_front k p) ((statement_of p).read ws) }
    ensures part { (k : Keep) (p : Part) (t : Statement p) → next p (statement_front k p t) ≡ next p t }
{}

/// The fault of a statement is the fault of the file, whatever words follow.
pub fn faults_of_statements_stay()
    ensures { (p : Part) (ws more : List Word) (left : ℕ) → (statement_of p).read ws ≡ Err (suc left)
        → (left_of (At p)).read (ws ++ more) ≡ Err (suc (left + length more)) }
{}
