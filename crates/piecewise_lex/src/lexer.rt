//! A lexer that is fed a text in pieces.

ghost use Rattle.std.specs.Prelude.{◌≡◌, ◌++◌, ◌+◌, ◌<◌, ◌≤◌, ◌-◌, ◌^◌, length, OnOk, List, Result, ℕ};
ghost use Rattle.cyc_lex.specs.declared.fault.LexFault.{LexFault};
ghost use Rattle.cyc_lex.specs.Placed.{Placed};
ghost use Rattle.cyc_lex.specs.Lexing.{tokens_of};
ghost use Rattle.piecewise_lex.specs.Feeding.{Parts, fresh, defined, told, Feeds, KeepsLaw};
ghost use Rattle.piecewise_lex.specs.Batches.{Finishes, seen};
ghost use Rattle.piecewise_lex.specs.Law.{AreCalls, Call, Tells, answer_of, bytes_of};

use crate::batch::{Batch, take_piece, take_rest};
use crate::owned::OwnedToken;
use crate::run::KnownText;
use cyc_lex::{LexFault, Place};
use std::alloc::Global;
use std::marker::Model;
use std::mem;

/// A lexer that is fed a text in pieces, of fewer than 4,294,967,295 bytes in all, and hands out its tokens as they are
/// known. A contract sees the bytes that wait, the place after those that were taken, whether a comment goes on there,
/// and the fault that was met; what is known of the bytes that wait saves time and changes nothing.
#[derive(Drop)]
pub struct Lexer {
    alloc: Global,
    waiting: Vec<u8>,
    known: Option<KnownText>,
    place: Place,
    comment: bool,
    met: Option<LexFault>,
}

impl Model for Lexer {
    ghost use Rattle.std.specs.Prelude.{◌+◌, ◌≤◌};
    ghost use Rattle.piecewise_lex.specs.Feeding.{Parts};
    ghost use Rattle.piecewise_lex.specs.Runs.{IsKnown};

    ghost Value = { Parts };

    ghost view = { λ l. record { waiting = l.waiting.items; place = l.place; comment = l.comment; met = l.met } };

    ghost invariant = { λ l. (l.place.line ≤ l.place.offset + 1) × (l.place.column ≤ l.place.offset + 1)
        × IsKnown l.comment l.waiting.items l.known };
}

impl Lexer {
    /// A lexer that was fed nothing.
    pub fn new(alloc: Global) -> Lexer
        ensures value { result ≡ fresh }
        // It stands for the tokens of all that it will be fed.
        ensures law { (bytes : List ℕ) → defined result bytes ≡ told (tokens_of bytes) }
    {
        Lexer {
            alloc,
            waiting: Vec::new(alloc),
            known: None,
            place: Place::START,
            comment: false,
            met: None,
        }
    }

    /// Takes the next piece of the text, and hands out the tokens that no more bytes can change. After a fault, and
    /// after out of memory, every later call answers the same.
    pub fn feed(&mut self, piece: &[u8]) -> Result<Vec<OwnedToken>, LexFault>
        requires { self.old.place.offset + (length self.old.waiting + length piece.now) < 2 ^ 32 - 1 }
        // The tokens, or the first fault, are those of the bytes that waited and the piece, without those that wait
        // then.
        ensures answer { Feeds self.old (self.old.waiting ++ piece.now) self.new (seen result) }
        // Whatever comes: what was defined for the piece and the rest are these tokens, and then what is defined for
        // the rest.
        ensures law { KeepsLaw self.old piece.now self.new (seen result) }
        // So that a caller knows how much it may still feed, after a fault too.
        ensures within { self.new.place.offset + length self.new.waiting
            ≤ self.old.place.offset + (length self.old.waiting + length piece.now) }
        ensures count { OnOk result (self.new.place.offset + length self.new.waiting
            ≡ self.old.place.offset + (length self.old.waiting + length piece.now)) }
    {
        match self.met {
            Some(fault) => return Err(fault),
            None => {}
        }
        let waiting = mem::replace(&mut self.waiting, Vec::new(self.alloc));
        let known = self.known;
        self.known = None;
        match take_piece(self.alloc, self.place, self.comment, known, waiting, piece) {
            Ok(batch) => {
                let Batch {
                    tokens,
                    place,
                    comment,
                    waiting,
                    known,
                } = batch;
                self.place = place;
                self.comment = comment;
                self.waiting = waiting;
                self.known = known;
                Ok(tokens)
            }
            Err(fault) => {
                self.met = Some(fault);
                Err(fault)
            }
        }
    }

    /// Takes the end of the text: the tokens that are left, with the end token last.
    pub fn finish(self) -> Result<Vec<OwnedToken>, LexFault>
        requires { self.place.offset + length self.waiting < 2 ^ 32 - 1 }
        // What is defined for no more bytes.
        ensures { Finishes self (seen result) }
    {
        match self.met {
            Some(fault) => Err(fault),
            None => take_rest(self.alloc, self.place, self.comment, &self.waiting),
        }
    }
}

/// What the clauses of `new`, `feed` and `finish` come to for a whole text, fed in any pieces: the tokens that all
/// calls hand out are the tokens of the joined bytes, or the fault is the same.
pub fn feed_law()
    ensures { (calls : List Call) → (new : Parts) → (last : Result (List Placed) LexFault) → AreCalls fresh calls new
        → Finishes new last → Tells (answer_of calls last) (told (tokens_of (bytes_of calls))) }
{}
