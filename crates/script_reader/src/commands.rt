// The commands of a script, one after the other.
ghost use Rattle.std.specs.Prelude.{◌≡◌, ◌+◌, ◌<◌, ◌≤◌, false, slice_get, IfErr, IfOk, OnOk, Some};
ghost use Rattle.script_reader.specs.Atoms.{behind, text_in};
ghost use Rattle.script_reader.specs.Commands.{ruled};
ghost use Rattle.script_reader.specs.Words.{command_of as command_named};
ghost use Rattle.script_reader.specs.Telling.{Tells, TellsAt};

use crate::declarations::{
    add_constant, add_datatype, add_datatypes, add_heaps, parameters_at, truth,
};
use crate::faults::{IllScript, ScriptFault, ScriptLimit, Unsupported, ill, over, unsupported_at};
use crate::globals::{
    Defined, Function, Globals, MOST_SCRIPT_PREDICATES, Parameter, finished, head_at, list_at,
    next_tree,
};
use crate::machine::{MOST_TERMS, Machine};
use crate::scopes::{Binding, Scopes, Sorted};
use crate::terms::{Place, Reading};
use crate::trees::{AtomKind, Items, NodeKind, Trees};
use crate::words::{Command, Head, command_of};
use crate::work::{MOST_SIZE, Work};
use cyc_basics::memory::OutOfMemory;
use script_formulas::{Predicate, ScriptFormula, Term};
use std::alloc::Global;

/// A formula of an assert, and the offset at which it stands.
#[derive(Drop)]
pub struct Asserted {
    pub formula: ScriptFormula,
    pub at: usize,
}

/// A script that is being read.
#[derive(Drop)]
pub struct Reader<'a> {
    pub alloc: Global,
    pub globals: Globals<'a>,
    pub machine: Machine<'a>,
    pub predicates: Vec<Predicate>,
    pub asserted: Vec<Asserted>,
    pub denied: Vec<Asserted>,
}

/// What a command does to the script as a whole: it goes on, it is asked its question, or it ends.
#[derive(Clone, Copy, PartialEq, Eq)]
pub enum After {
    Goes,
    Asks,
    Ends,
}

/// The text of a name.
pub fn text_of(alloc: Global, name: &[u8]) -> Result<String, OutOfMemory> {
    match std::str::from_utf8(name) {
        Ok(text) => Ok(String::from_str(alloc, text)?),
        Err(_) => Ok(String::new(alloc)),
    }
}

impl<'a> Reader<'a> {
    /// Nothing is read.
    pub fn new(alloc: Global) -> Reader<'a> {
        Reader {
            alloc,
            globals: Globals::new(alloc),
            machine: Machine {
                alloc,
                scopes: Scopes::new(Vec::new(alloc)),
                work: Work {
                    tasks: Vec::new(alloc),
                    left: MOST_SIZE,
                },
                values: Vec::new(alloc),
            },
            predicates: Vec::new(alloc),
            asserted: Vec::new(alloc),
            denied: Vec::new(alloc),
        }
    }

    /// `(declare-sort S 0)`.
    fn declare_sort(
        &mut self,
        trees: &Trees<'a>,
        command: usize,
        items: Items,
    ) -> Result<(), ScriptFault>
        ensures { Tells trees.now result }
    {
        let mut items = items;
        let name = next_tree(trees, command, &mut items)?;
        self.globals.add_location(trees, name)?;
        if let Some(arity) = trees.take(&mut items) {
            let at = trees.offset(arity);
            if trees.kind(arity) != NodeKind::Atom(AtomKind::Constant) {
                return Err(ScriptFault::Syntax(at));
            }
            if trees.text(arity) != b"0".as_slice() {
                return unsupported_at(Unsupported::Sort, at);
            }
        }
        finished(trees, &mut items)
    }

    /// `(declare-const x S)`.
    fn declare_const(
        &mut self,
        trees: &Trees<'a>,
        command: usize,
        items: Items,
    ) -> Result<(), ScriptFault>
        ensures { Tells trees.now result }
    {
        let mut items = items;
        let name = next_tree(trees, command, &mut items)?;
        let sort = next_tree(trees, command, &mut items)?;
        add_constant(&mut self.globals, trees, name, sort)?;
        finished(trees, &mut items)
    }

    /// `(declare-fun x () S)`.
    fn declare_fun(
        &mut self,
        trees: &Trees<'a>,
        command: usize,
        items: Items,
    ) -> Result<(), ScriptFault>
        ensures { Tells trees.now result }
    {
        let mut items = items;
        let name = next_tree(trees, command, &mut items)?;
        let list = next_tree(trees, command, &mut items)?;
        let mut arguments = list_at(trees, list)?;
        if trees.take(&mut arguments).is_some() {
            return unsupported_at(Unsupported::Function, trees.offset(name));
        }
        let sort = next_tree(trees, command, &mut items)?;
        add_constant(&mut self.globals, trees, name, sort)?;
        finished(trees, &mut items)
    }

    /// The scope of parameters, which stand for these terms.
    fn scope_of(
        &mut self,
        parameters: &[Parameter<'a>],
        are_variables: bool,
    ) -> Result<usize, ScriptFault>
        ensures { IfErr result (λ fault. fault ≡ ScriptFault.OutOfMemory) }
    {
        let mut scope = 0;
        let mut number = 0u16;
        for parameter in parameters {
            let term = if are_variables {
                Term::Univ(number)
            } else {
                Term::Nil
            };
            let sorted = Sorted {
                term,
                sort: Some(parameter.sort),
            };
            let binding = Binding::Term(sorted);
            scope = self.machine.scopes.with(scope, parameter.name, binding)?;
            number = number.saturating_add(1);
        }
        Ok(scope)
    }

    /// A formula in a scope.
    fn formula(
        &mut self,
        trees: &Trees<'a>,
        place: Place,
        tree: usize,
        scope: usize,
    ) -> Result<(ScriptFormula, bool), ScriptFault>
        ensures { Tells trees.now result }
    {
        let reading = Reading {
            trees,
            globals: &self.globals,
            place,
        };
        let value = self.machine.formula(reading, tree, scope)?;
        self.machine.scopes.keep(0);
        Ok((value.formula, value.spatial))
    }

    /// `(define-fun f ((x S) ..) Bool F)`.
    fn define_fun(
        &mut self,
        trees: &Trees<'a>,
        command: usize,
        items: Items,
    ) -> Result<(), ScriptFault>
        ensures { Tells trees.now result }
    {
        let mut items = items;
        let name_tree = next_tree(trees, command, &mut items)?;
        let list = next_tree(trees, command, &mut items)?;
        let parameters = parameters_at(self.alloc, &self.globals, trees, list)?;
        let sort = next_tree(trees, command, &mut items)?;
        truth(trees, sort)?;
        let body = next_tree(trees, command, &mut items)?;
        finished(trees, &mut items)?;
        let scope = self.scope_of(&parameters, false)?;
        let _formula = self.formula(trees, Place::Assert, body, scope)?;
        let number = self.globals.macros.len();
        let name = self
            .globals
            .add_function(trees, name_tree, Function::Macro(number))?;
        self.globals.macros.push(Defined {
            name,
            at: trees.offset(name_tree),
            parameters,
            body,
        })?;
        Ok(())
    }

    /// The name, the parameters and the result of a predicate, whose body comes later.
    fn add_predicate(
        &mut self,
        trees: &Trees<'a>,
        command: usize,
        items: &mut Items,
    ) -> Result<(), ScriptFault>
        ensures { Tells trees.now result }
    {
        let name_tree = next_tree(trees, command, items)?;
        let list = next_tree(trees, command, items)?;
        let parameters = parameters_at(self.alloc, &self.globals, trees, list)?;
        let sort = next_tree(trees, command, items)?;
        truth(trees, sort)?;
        let count = self.globals.predicates.len();
        if count >= MOST_SCRIPT_PREDICATES {
            return over(ScriptLimit::Predicates, trees.offset(name_tree));
        }
        if parameters.len() > MOST_TERMS {
            return over(ScriptLimit::Arguments, trees.offset(list));
        }
        let function = Function::Predicate(count as u16);
        let name = self.globals.add_function(trees, name_tree, function)?;
        self.globals.predicates.push(Defined {
            name,
            at: trees.offset(name_tree),
            parameters,
            body: 0,
        })?;
        Ok(())
    }

    /// The body of a predicate.
    fn add_body(&mut self, trees: &Trees<'a>, number: usize, body: usize) -> Result<(), ScriptFault>
        ensures { Tells trees.now result }
    {
        let Some(predicate) = self.globals.predicates.get(number) else {
            return ill(IllScript::Unknown, trees.offset(body));
        };
        let name = text_of(self.alloc, predicate.name)?;
        let parameters = Vec::from_slice(self.alloc, &predicate.parameters)?;
        let mut sorts = Vec::new(self.alloc);
        for parameter in &parameters {
            sorts.push(parameter.sort)?;
        }
        let scope = self.scope_of(&parameters, true)?;
        let (body, _spatial) = self.formula(trees, Place::Definition, body, scope)?;
        self.predicates.push(Predicate {
            name,
            parameters: sorts,
            body,
        })?;
        Ok(())
    }

    /// `(define-fun-rec p ((x S) ..) Bool F)`.
    fn define_fun_rec(
        &mut self,
        trees: &Trees<'a>,
        command: usize,
        items: Items,
    ) -> Result<(), ScriptFault>
        ensures { Tells trees.now result }
    {
        let mut items = items;
        let number = self.globals.predicates.len();
        self.add_predicate(trees, command, &mut items)?;
        let body = next_tree(trees, command, &mut items)?;
        finished(trees, &mut items)?;
        self.add_body(trees, number, body)
    }

    /// `(define-funs-rec ((p ((x S) ..) Bool) ..) (F ..))`.
    fn define_funs_rec(
        &mut self,
        trees: &Trees<'a>,
        command: usize,
        items: Items,
    ) -> Result<(), ScriptFault>
        ensures { Tells trees.now result }
    {
        let mut items = items;
        let first = self.globals.predicates.len();
        let heads = next_tree(trees, command, &mut items)?;
        let mut declared = list_at(trees, heads)?;
        'heads: while let Some(head) = trees.take(&mut declared) {
            let mut parts = list_at(trees, head)?;
            self.add_predicate(trees, head, &mut parts)?;
            finished(trees, &mut parts)?;
        }
        let list = next_tree(trees, command, &mut items)?;
        let mut bodies = list_at(trees, list)?;
        'bodies: for number in first..self.globals.predicates.len() {
            let body = next_tree(trees, list, &mut bodies)?;
            self.add_body(trees, number, body)?;
        }
        finished(trees, &mut bodies)?;
        finished(trees, &mut items)
    }

    /// A formula that is asserted, or denied where it is the negation of one that speaks of the heap.
    fn take(&mut self, trees: &Trees<'a>, tree: usize) -> Result<(), ScriptFault>
        ensures { Tells trees.now result }
    {
        let at = trees.offset(tree);
        let negated = match head_at(trees, trees.items(tree).next) {
            Some(Head::Not) if trees.kind(tree) == NodeKind::List => negated(trees, tree)?,
            _ => None,
        };
        let (formula, spatial) = self.formula(trees, Place::Assert, negated.unwrap_or(tree), 0)?;
        if negated.is_none() {
            self.asserted.push(Asserted { formula, at })?;
        } else if spatial {
            self.denied.push(Asserted { formula, at })?;
        } else {
            let formula = ScriptFormula::not(self.alloc, formula)?;
            self.asserted.push(Asserted { formula, at })?;
        }
        Ok(())
    }

    /// The parts of a conjunction are asserted one by one.
    fn conjuncts(&mut self, trees: &Trees<'a>, tree: usize) -> Result<(), ScriptFault>
        ensures { Tells trees.now result }
    {
        let end = trees.items(tree).end;
        let mut at = tree;
        'parts: while at < end {
            let items = trees.items(at);
            let is_conjunction = trees.kind(at) == NodeKind::List
                && items.end > items.next.saturating_add(1)
                && head_at(trees, items.next) == Some(Head::And);
            if is_conjunction {
                at = at.saturating_add(2);
            } else {
                self.take(trees, at)?;
                at = items.end;
            }
        }
        Ok(())
    }

    /// `(assert F)`.
    fn assert(&mut self, trees: &Trees<'a>, command: usize, items: Items) -> Result<(), ScriptFault>
        ensures { Tells trees.now result }
    {
        let mut items = items;
        let tree = next_tree(trees, command, &mut items)?;
        finished(trees, &mut items)?;
        self.conjuncts(trees, tree)
    }

    /// A command that declares, defines or asserts something.
    fn carry_out(
        &mut self,
        trees: &Trees<'a>,
        tree: usize,
        items: Items,
        command: Command,
    ) -> Result<(), ScriptFault>
        ensures { Tells trees.now result }
    {
        match command {
            Command::DeclareSort => self.declare_sort(trees, tree, items),
            Command::DeclareDatatype => {
                add_datatype(self.alloc, &mut self.globals, trees, tree, items)
            }
            Command::DeclareDatatypes => {
                add_datatypes(self.alloc, &mut self.globals, trees, tree, items)
            }
            Command::DeclareHeap => add_heaps(self.alloc, &mut self.globals, trees, items),
            Command::DeclareConst => self.declare_const(trees, tree, items),
            Command::DeclareFun => self.declare_fun(trees, tree, items),
            Command::DefineFun => self.define_fun(trees, tree, items),
            Command::DefineFunRec => self.define_fun_rec(trees, tree, items),
            Command::DefineFunsRec => self.define_funs_rec(trees, tree, items),
            Command::Assert => self.assert(trees, tree, items),
            Command::Aside | Command::Exit | Command::Check | Command::Unsupported => Ok(()),
        }
    }

    /// One command of a script whose question was asked already, or not.
    pub fn command(
        &mut self,
        trees: &Trees<'a>,
        tree: usize,
        asked: bool,
    ) -> Result<After, ScriptFault>
        // A list that is a command has a word, and that may stand there.
        ensures rules { tree < usize.MAX → behind trees.now.nodes.items tree ≤ usize.MAX
            → IfOk result (λ after. (tree + 1 < behind trees.now.nodes.items tree)
            × (ruled (command_named (text_in trees.now.bytes.now (slice_get trees.now.nodes.items (tree + 1)))) asked
            ≡ Some after)) }
        ensures told { Tells trees.now result }
    {
        let mut items = trees.items(tree);
        let word = next_tree(trees, tree, &mut items)?;
        let at = trees.offset(word);
        let Some(command) = command_of(trees.text(word)) else {
            return Err(ScriptFault::Syntax(at));
        };
        let after = ruled_at(command, asked, at)?;
        self.carry_out(trees, tree, items, command)?;
        Ok(after)
    }
}

/// What a command does to the script, if it may stand where the question was asked already, or not.
fn ruled_at(command: Command, asked: bool, at: usize) -> Result<After, ScriptFault>
    ensures rules { IfOk result (λ after. ruled (Some command) asked ≡ Some after) }
    ensures told { TellsAt at result }
{
    match command {
        Command::Exit => Ok(After::Ends),
        Command::Unsupported => { Err(ScriptFault::Unsupported(Unsupported::Command, at)) }
        Command::Assert => {
            before_question(asked, at)?;
            Ok(After::Goes)
        }
        Command::Check => {
            before_question(asked, at)?;
            Ok(After::Asks)
        }
        _ => Ok(After::Goes),
    }
}

/// A command that may not stand behind the question.
fn before_question(asked: bool, at: usize) -> Result<(), ScriptFault>
    ensures before { OnOk result (asked ≡ false) }
    ensures told { TellsAt at result }
{
    if asked {
        Err(ScriptFault::Unsupported(Unsupported::Question, at))
    } else {
        Ok(())
    }
}

/// What a negation negates, if it has one part.
fn negated(trees: &Trees<'_>, tree: usize) -> Result<Option<usize>, ScriptFault>
    ensures { Tells trees.now result }
{
    let mut items = trees.items(tree);
    let _not = next_tree(trees, tree, &mut items)?;
    let part = next_tree(trees, tree, &mut items)?;
    finished(trees, &mut items)?;
    Ok(Some(part))
}
