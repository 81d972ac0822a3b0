//! What the text of a proof file comes to that is read in pieces: of what a reader holds that was fed some of it, and
//! of any bytes that may follow. Each law is the contract of a function that does nothing.
#![tactic(auto)]

mod adding;
mod feeding;
mod finishing;
mod first_node;
mod front;
mod held;
mod known;
mod last;
mod nodes;
mod part;
mod passing;
mod reader;
mod stretch;

ghost use Rattle.std.specs.Prelude.{◌≡◌, ◌++◌, ◌∷◌, [], true, false, suc, length, map, List, ℕ, Bool, None, Some};
ghost use Rattle.std.specs.Prelude.{Result, Ok, Err};
ghost use Rattle.std.specs.Str.{chars};
ghost use Rattle.std.proofs.Common.{inl, inr};
ghost use Rattle.cyc_lex.specs.declared.fault.ReadFault.{ReadFault};
ghost use Rattle.cyc_lex.specs.declared.place.Bad.{Bad};
ghost use Rattle.cyc_lex.specs.declared.place.Place.{Place};
ghost use Rattle.cyc_lex.specs.Answer.{fault_of};
ghost use Rattle.cyc_lex.specs.Lexing.{with_tokens, lex, comment_len};
ghost use Rattle.cyc_lex.specs.Placed.{Placed};
ghost use Rattle.cyc_lex.specs.Word.{Word, word_of};
ghost use Rattle.cyc_grammar.specs.Classes.{the_end};
ghost use Rattle.piecewise_lex.specs.Feeding.{tokens_from, valid_chars, is_cut};
ghost use Rattle.piecewise_lex.specs.Taking.{reading, tokens_in};
ghost use Rattle.heap_syntax.specs.declared.version.Version.{Version};
ghost use Rattle.proof_syntax.specs.Trees.{Definition, Line, End, Node, File};
ghost use Rattle.proof_syntax.specs.Grammar.{file};
ghost use Rattle.proof_syntax.specs.Left.{Part, At, First, Left, Statement, statement_of, next, join};
ghost use Rattle.proof_syntax.specs.Left.{Nodes as Among};
ghost use Rattle.proof_file.specs.declared.file.ProofFile.{ProofFile};
ghost use Rattle.proof_file.specs.Reading.{IsRead, Reads};
ghost use Rattle.file_reader.specs.Outcomes.{syntax_fault, settled};
ghost use Rattle.file_reader.specs.Stages.{Begun, Stage, Head, Nodes, Dead, Unlexed, Parts, fresh, ahead, said_with};
ghost use Rattle.file_reader.specs.Stages.{outcome, FileFrom};
ghost use Rattle.file_reader.specs.Steps.{Takes, Leads, Spell, begun_of, span_of, with_node, with_end};
ghost use Rattle.file_reader.specs.Pieces.{Tells, AreFed, bytes_of, parts, IsOpen, Comes, IsBad};

pub use passing::{Passed, pass_tokens};
pub use reader::{FileReader, read_file};

/// A reader that was fed nothing stands for what is read of all that it will be fed.
pub fn fresh_readers_read_the_text()
    ensures read { (bytes : List ℕ) (answer : Result ProofFile ReadFault) → FileFrom fresh bytes answer
        → IsRead bytes answer }
    ensures comes { (bytes : List ℕ) (answer : Result ProofFile ReadFault) → IsRead bytes answer
        → FileFrom fresh bytes answer }
{}

/// A text that is fed in pieces is answered as the joined text is read: where each call keeps what the text comes to,
/// or knows that memory ran out, and the last answer is what it comes to with no more bytes.
pub fn pieces_are_read_as_one_text()
    ensures { (pieces : List (List ℕ)) (new : Parts) (answer : Result ProofFile ReadFault) → AreFed fresh pieces new
        → Tells (outcome new []) answer → Reads (bytes_of pieces) answer }
{}

/// Bytes that are fed may wait.
pub fn bytes_may_wait()
    ensures { (s : Parts) (piece rest : List ℕ) → outcome s (piece ++ rest)
        ≡ outcome (parts s.stage s.place s.comment (s.pending ++ piece)) rest }
{}

/// Tokens that are taken of the bytes that wait change nothing, where the stage takes them; nor does a first bad place.
pub fn tokens_may_be_taken()
    ensures taken { (old new : Parts) (ts : List Placed) → IsOpen old.stage → IsOpen new.stage
        → Takes old.stage ts new.stage → Comes old ts new → (rest : List ℕ) → outcome old rest ≡ outcome new rest }
    ensures bad { (old new : Parts) (bad : Bad) (p : Place) → IsOpen old.stage → IsBad old bad p
        → new.stage ≡ Unlexed (fault_of bad p) → (rest : List ℕ) → outcome old rest ≡ outcome new rest }
{}

/// What `take_statement` takes of a text, after which bytes stand that make no character yet, stands at the front of
/// what waits; and the bad place that it finds, or `first_bad` where no bytes can make a character, is the first
/// whatever comes.
pub fn statements_stand_at_the_front()
    ensures taken { (stage after : Stage) (p q : Place) (c d : Bool) (text rest tail : List ℕ) (ts : List Placed)
        → ((more : List ℕ) → tokens_from p c (text ++ more) ≡ with_tokens ts (tokens_from q d (rest ++ more)))
        → Comes (parts stage p c (text ++ tail)) ts (parts after q d (rest ++ tail)) }
    ensures bad { (stage : Stage) (p q : Place) (c : Bool) (bytes text : List ℕ) (bad : Bad)
        → chars text ≡ valid_chars bytes → is_cut bytes ≡ true → tokens_in (reading p c text) ≡ Err (bad, q)
        → IsBad (parts stage p c bytes) bad q }
    ensures no_character { (stage : Stage) (p q : Place) (c : Bool) (bytes text : List ℕ) (bad : Bad)
        → chars text ≡ valid_chars bytes → is_cut bytes ≡ false
        → lex false p (comment_len c (chars text)) (chars text) ≡ Err (bad, q) → IsBad (parts stage p c bytes) bad q }
{}

/// Before the first node tokens are kept; the words of statements lead from one part of the grammar to the next, and a
/// fault of one is the fault of the file.
pub fn tokens_are_kept_before_the_first_node()
    ensures kept { (front ts : List Placed) → Takes (Head front) ts (Head (front ++ ts)) }
    ensures none { Leads [] (At First) (λ x. x) }
    ensures more { (p : Part) (ws vs : List Word) (f : Left (At p) → File) (t : Statement p) → Leads ws (At p) f
        → (statement_of p).read vs ≡ Ok (t, []) → Leads (ws ++ vs) (next p t) (λ x. f (join p t x)) }
    ensures dead { (p : Part) (ws vs : List Word) (f : Left (At p) → File) (left : ℕ) → Leads ws (At p) f
        → (statement_of p).read vs ≡ Err (suc left) → file.read (ws ++ vs) ≡ Err (suc left) }
    ensures fault { (ts : List Placed) (left : ℕ) → file.read (map word_of ts) ≡ Err (suc left)
        → Takes (Head ts) [] (Dead (syntax_fault 0 ts (suc left))) }
{}

/// What is read as a statement has so many words as its tree tells.
pub fn statements_have_spans()
    ensures { (p : Part) (ws : List Word) (t : Statement p) → (statement_of p).read ws ≡ Ok (t, [])
        → length ws ≡ span_of p t }
{}

/// Where the first nodes are read, values may stand for all tokens so far.
pub fn values_stand_for_tokens()
    ensures { (ts : List Placed) (v : Version) (ds : List Definition) (ls : List Line) (es : List End) (xs : List Node)
        → Spell ts v ds ls es xs → Takes (Head ts) [] (Nodes (begun_of ts v ds ls es xs)) }
{}

/// From the first node on, a node's value stands for its tokens, and a fault of a statement is the fault of the file.
pub fn values_stand_for_nodes()
    ensures node { (b : Begun) (ts : List Placed) (x : Node) → b.ended ≡ false
        → (statement_of Among).read (map word_of ts) ≡ Ok (inl x, []) → Takes (Nodes b) ts (Nodes (with_node b ts x)) }
    ensures last { (b : Begun) (ts : List Placed) → b.ended ≡ false
        → (statement_of Among).read (map word_of ts) ≡ Ok (inr tt, []) → Takes (Nodes b) ts (Nodes (with_end b ts)) }
    ensures fault { (b : Begun) (ts : List Placed) (left : ℕ) → b.ended ≡ false
        → (statement_of Among).read (map word_of ts) ≡ Err (suc left)
        → Takes (Nodes b) ts (Dead (syntax_fault b.tokens ts (suc left))) }
    ensures ended { (b : Begun) (t : Placed) (ts : List Placed) → b.ended ≡ true → the_end.value (word_of t) ≡ None
        → Takes (Nodes b) (t ∷ ts) (Dead (syntax_fault b.tokens (t ∷ ts) (suc (length ts)))) }
    ensures dead { (fault : ReadFault) (ts : List Placed) → Takes (Dead fault) ts (Dead fault) }
    ensures end { (b : Begun) (t : Placed) → b.ended ≡ true → the_end.value (word_of t) ≡ Some tt
        → ahead (Nodes b) (t ∷ []) ≡ settled b.flaw (said_with b []) }
{}
