// What the commands of a script have declared.
ghost use Rattle.std.specs.Prelude.{◌≡◌, ◌<◌, slice_get, option_map, IfOk};
ghost use Rattle.script_reader.specs.Atoms.{symbol_in};
ghost use Rattle.script_reader.specs.Telling.{Tells};

use crate::faults::{IllScript, ScriptFault, ScriptLimit, Unsupported, ill, over, unsupported_at};
use crate::trees::{AtomKind, Items, NodeKind, Trees};
use crate::words::{Head, head_of, is_theory_sort};
use cyc_basics::memory::OutOfMemory;
use indexmap::IndexMap;
use script_formulas::Constructor;
use std::alloc::Global;

/// The most sorts, constants and constructors.
pub const MOST_NAMES: usize = 60_000;

/// The most predicates.
pub const MOST_SCRIPT_PREDICATES: usize = 4_096;

/// What the name of a sort stands for: locations, or a datatype.
#[derive(Clone, Copy)]
pub enum SortName {
    Location(u16),
    Data(usize),
}

/// A datatype: the numbers of its constructors, from `first` up to `end`, and whether cells have it.
#[derive(Clone, Copy)]
pub struct DataSort {
    pub first: usize,
    pub end: usize,
    pub has_cells: bool,
}

/// A constructor of a datatype: the sorts of its fields, and its number among those of cells.
#[derive(Drop)]
pub struct DataConstructor {
    pub fields: Vec<u16>,
    pub cell: Option<u16>,
}

/// What the name of a function stands for.
#[derive(Clone, Copy)]
pub enum Function {
    Constant(u16),
    Predicate(u16),
    Macro(usize),
    Constructor(usize),
    Selector,
}

/// A parameter of a definition.
#[derive(Clone, Copy)]
pub struct Parameter<'a> {
    pub name: &'a [u8],
    pub sort: u16,
}

/// A defined function: its name, the offset at which that stands, its parameters, and the tree of its body.
#[derive(Drop)]
pub struct Defined<'a> {
    pub name: &'a [u8],
    pub at: usize,
    pub parameters: Vec<Parameter<'a>>,
    pub body: usize,
}

/// All that is declared.
#[derive(Drop)]
pub struct Globals<'a> {
    pub sorts: IndexMap<&'a [u8], SortName>,
    pub functions: IndexMap<&'a [u8], Function>,
    pub sort_count: u16,
    pub data: Vec<DataSort>,
    pub constructors: Vec<DataConstructor>,
    pub cells: Vec<Constructor>,
    pub constants: Vec<Parameter<'a>>,
    pub predicates: Vec<Defined<'a>>,
    pub macros: Vec<Defined<'a>>,
}

/// The name that a tree is, if it is a symbol.
pub fn symbol<'a>(trees: &Trees<'a>, tree: usize) -> Option<&'a [u8]>
    ensures { option_map (λ name. name.now) result
        ≡ symbol_in trees.now.bytes.now (slice_get trees.now.nodes.items tree) }
{
    match trees.kind(tree) {
        NodeKind::Atom(AtomKind::Symbol | AtomKind::Quoted) => Some(trees.text(tree)),
        _ => None,
    }
}

/// What a word of the theory begins that a tree is. A word between bars is never one of the language's own.
pub fn head_at(trees: &Trees<'_>, tree: usize) -> Option<Head> {
    let head = head_of(symbol(trees, tree)?)?;
    let is_quoted = trees.kind(tree) == NodeKind::Atom(AtomKind::Quoted);
    if is_quoted && head.is_of_language() {
        return None;
    }
    Some(head)
}

/// The name that a tree has to be.
pub fn name_at<'a>(trees: &Trees<'a>, tree: usize) -> Result<&'a [u8], ScriptFault>
    ensures { Tells trees.now result }
{
    match symbol(trees, tree) {
        Some(name) => Ok(name),
        None => Err(ScriptFault::Syntax(trees.offset(tree))),
    }
}

/// Takes the next tree of a list, which has to have one.
pub fn next_tree(trees: &Trees<'_>, list: usize, items: &mut Items) -> Result<usize, ScriptFault>
    ensures value { IfOk result (λ tree. (tree ≡ items.old.next) × (tree < items.old.end)) }
    ensures told { Tells trees.now result }
{
    match trees.take(items) {
        Some(tree) => Ok(tree),
        None => Err(ScriptFault::Syntax(trees.end_offset(list))),
    }
}

/// The trees of a list, which this has to be.
pub fn list_at(trees: &Trees<'_>, tree: usize) -> Result<Items, ScriptFault>
    ensures { Tells trees.now result }
{
    match trees.kind(tree) {
        NodeKind::List => Ok(trees.items(tree)),
        NodeKind::Atom(_) => Err(ScriptFault::Syntax(trees.offset(tree))),
    }
}

/// No tree of a list is left.
pub fn finished(trees: &Trees<'_>, items: &mut Items) -> Result<(), ScriptFault>
    ensures { Tells trees.now result }
{
    match trees.take(items) {
        Some(tree) => Err(ScriptFault::Syntax(trees.offset(tree))),
        None => Ok(()),
    }
}

impl<'a> Globals<'a> {
    /// Nothing is declared.
    pub fn new(alloc: Global) -> Globals<'a> {
        Globals {
            sorts: IndexMap::new(alloc),
            functions: IndexMap::new(alloc),
            sort_count: 0,
            data: Vec::new(alloc),
            constructors: Vec::new(alloc),
            cells: Vec::new(alloc),
            constants: Vec::new(alloc),
            predicates: Vec::new(alloc),
            macros: Vec::new(alloc),
        }
    }

    /// What a function's name stands for.
    pub fn function(&self, name: &'a [u8]) -> Option<Function> {
        self.functions.get(&name).copied()
    }

    /// A name for a new sort, where none has it.
    pub fn add_sort(
        &mut self,
        trees: &Trees<'a>,
        tree: usize,
        sort: SortName,
    ) -> Result<(), ScriptFault>
        ensures { Tells trees.now result }
    {
        let name = name_at(trees, tree)?;
        if is_theory_sort(name) || self.sorts.contains_key(&name) {
            return ill(IllScript::Duplicate, trees.offset(tree));
        }
        self.sorts.insert(name, sort)?;
        Ok(())
    }

    /// A new sort of locations.
    pub fn add_location(&mut self, trees: &Trees<'a>, tree: usize) -> Result<(), ScriptFault>
        ensures { Tells trees.now result }
    {
        if self.sort_count as usize >= MOST_NAMES {
            return over(ScriptLimit::Sorts, trees.offset(tree));
        }
        self.add_sort(trees, tree, SortName::Location(self.sort_count))?;
        self.sort_count = self.sort_count.saturating_add(1);
        Ok(())
    }

    /// A name for a new function, where none has it.
    pub fn add_function(
        &mut self,
        trees: &Trees<'a>,
        tree: usize,
        function: Function,
    ) -> Result<&'a [u8], ScriptFault>
        ensures { Tells trees.now result }
    {
        let name = name_at(trees, tree)?;
        if head_at(trees, tree).is_some() || self.functions.contains_key(&name) {
            return ill(IllScript::Duplicate, trees.offset(tree));
        }
        self.functions.insert(name, function)?;
        Ok(name)
    }

    /// A selector, unless its name stands for something else.
    pub fn add_selector(&mut self, trees: &Trees<'a>, tree: usize) -> Result<(), ScriptFault>
        ensures { Tells trees.now result }
    {
        let name = name_at(trees, tree)?;
        if !self.functions.contains_key(&name) {
            self.functions.insert(name, Function::Selector)?;
        }
        Ok(())
    }

    /// What the sort of a tree is.
    pub fn sort_name(&self, trees: &Trees<'a>, tree: usize) -> Result<SortName, ScriptFault>
        ensures { Tells trees.now result }
    {
        let at = trees.offset(tree);
        let Some(name) = symbol(trees, tree) else {
            return match trees.kind(tree) {
                NodeKind::List => unsupported_at(Unsupported::Sort, at),
                NodeKind::Atom(_) => Err(ScriptFault::Syntax(at)),
            };
        };
        match self.sorts.get(&name) {
            Some(sort) => Ok(*sort),
            None => {
                if is_theory_sort(name) {
                    unsupported_at(Unsupported::Theory, at)
                } else {
                    ill(IllScript::Unknown, at)
                }
            }
        }
    }

    /// The sort of locations that a tree is.
    pub fn location(&self, trees: &Trees<'a>, tree: usize) -> Result<u16, ScriptFault>
        ensures { Tells trees.now result }
    {
        match self.sort_name(trees, tree)? {
            SortName::Location(sort) => Ok(sort),
            SortName::Data(_) => unsupported_at(Unsupported::Nested, trees.offset(tree)),
        }
    }
}
