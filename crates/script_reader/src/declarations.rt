// Declarations of datatypes, heaps and constants.
ghost use Rattle.script_reader.specs.Telling.{Tells, TellsAt};

use crate::faults::{IllScript, ScriptFault, ScriptLimit, Unsupported, ill, over, unsupported_at};
use crate::globals::{
    DataConstructor, DataSort, Function, Globals, MOST_NAMES, Parameter, SortName, finished,
    list_at, next_tree, symbol,
};
use crate::trees::{AtomKind, Items, NodeKind, Trees};
use script_formulas::Constructor;
use std::alloc::Global;

/// The sort of a result has to be that of truth values.
pub fn truth(trees: &Trees<'_>, tree: usize) -> Result<(), ScriptFault>
    ensures { Tells trees.now result }
{
    match symbol(trees, tree) {
        Some(name) if name == b"Bool".as_slice() => Ok(()),
        _ => unsupported_at(Unsupported::Function, trees.offset(tree)),
    }
}

/// A constant of a sort of locations.
pub fn add_constant<'a>(
    globals: &mut Globals<'a>,
    trees: &Trees<'a>,
    name: usize,
    sort: usize,
) -> Result<(), ScriptFault>
    ensures { Tells trees.now result }
{
    let sort = globals.location(trees, sort)?;
    let count = globals.constants.len();
    if count >= MOST_NAMES {
        return over(ScriptLimit::Constants, trees.offset(name));
    }
    let name = globals.add_function(trees, name, Function::Constant(count as u16))?;
    globals.constants.push(Parameter { name, sort })?;
    Ok(())
}

/// The parameters of a definition.
pub fn parameters_at<'a>(
    alloc: Global,
    globals: &Globals<'a>,
    trees: &Trees<'a>,
    list: usize,
) -> Result<Vec<Parameter<'a>>, ScriptFault>
    ensures { Tells trees.now result }
{
    let mut items = list_at(trees, list)?;
    let mut parameters = Vec::new(alloc);
    'items: while let Some(tree) = trees.take(&mut items) {
        parameters.push(parameter_at(globals, trees, tree)?)?;
    }
    Ok(parameters)
}

/// A name with its sort of locations.
pub fn parameter_at<'a>(
    globals: &Globals<'a>,
    trees: &Trees<'a>,
    tree: usize,
) -> Result<Parameter<'a>, ScriptFault>
    ensures { Tells trees.now result }
{
    let mut items = list_at(trees, tree)?;
    let name_tree = next_tree(trees, tree, &mut items)?;
    let Some(name) = symbol(trees, name_tree) else {
        return Err(ScriptFault::Syntax(trees.offset(name_tree)));
    };
    let sort = next_tree(trees, tree, &mut items)?;
    let sort = globals.location(trees, sort)?;
    finished(trees, &mut items)?;
    Ok(Parameter { name, sort })
}

/// The fields of a constructor: the sorts of its selectors.
fn fields<'a>(
    alloc: Global,
    globals: &mut Globals<'a>,
    trees: &Trees<'a>,
    items: Items,
) -> Result<Vec<u16>, ScriptFault>
    ensures { Tells trees.now result }
{
    let mut items = items;
    let mut sorts = Vec::new(alloc);
    'items: while let Some(field) = trees.take(&mut items) {
        let mut parts = list_at(trees, field)?;
        let selector = next_tree(trees, field, &mut parts)?;
        globals.add_selector(trees, selector)?;
        let sort = next_tree(trees, field, &mut parts)?;
        sorts.push(globals.location(trees, sort)?)?;
        finished(trees, &mut parts)?;
    }
    Ok(sorts)
}

/// A constructor of a datatype: its name and its fields, or its name alone.
fn add_constructor<'a>(
    alloc: Global,
    globals: &mut Globals<'a>,
    trees: &Trees<'a>,
    tree: usize,
) -> Result<(), ScriptFault>
    ensures { Tells trees.now result }
{
    let number = globals.constructors.len();
    if number >= MOST_NAMES {
        return over(ScriptLimit::Constructors, trees.offset(tree));
    }
    let function = Function::Constructor(number);
    let mut items = Items { next: 0, end: 0 };
    let name = match trees.kind(tree) {
        NodeKind::List => {
            items = trees.items(tree);
            next_tree(trees, tree, &mut items)?
        }
        NodeKind::Atom(_) => tree,
    };
    let _name = globals.add_function(trees, name, function)?;
    let fields = fields(alloc, globals, trees, items)?;
    globals
        .constructors
        .push(DataConstructor { fields, cell: None })?;
    Ok(())
}

/// The constructors of the datatype with a number.
fn add_constructors<'a>(
    alloc: Global,
    globals: &mut Globals<'a>,
    trees: &Trees<'a>,
    number: usize,
    list: usize,
    items: Items,
) -> Result<(), ScriptFault>
    ensures { Tells trees.now result }
{
    let mut items = items;
    let first = globals.constructors.len();
    let mut is_first = true;
    'items: while let Some(tree) = trees.take(&mut items) {
        let is_parametric = is_first && symbol(trees, tree) == Some(b"par".as_slice());
        if is_parametric {
            return unsupported_at(Unsupported::Sort, trees.offset(tree));
        }
        add_constructor(alloc, globals, trees, tree)?;
        is_first = false;
    }
    if is_first {
        return Err(ScriptFault::Syntax(trees.end_offset(list)));
    }
    let end = globals.constructors.len();
    if let Some(data) = globals.data.get_mut(number) {
        data.first = first;
        data.end = end;
    }
    Ok(())
}

/// A name for a datatype whose constructors come later.
fn add_data_sort<'a>(
    globals: &mut Globals<'a>,
    trees: &Trees<'a>,
    name: usize,
) -> Result<usize, ScriptFault>
    ensures { Tells trees.now result }
{
    let number = globals.data.len();
    globals.add_sort(trees, name, SortName::Data(number))?;
    globals.data.push(DataSort {
        first: 0,
        end: 0,
        has_cells: false,
    })?;
    Ok(number)
}

/// `(declare-datatype D (c ..))`.
pub fn add_datatype<'a>(
    alloc: Global,
    globals: &mut Globals<'a>,
    trees: &Trees<'a>,
    command: usize,
    items: Items,
) -> Result<(), ScriptFault>
    ensures { Tells trees.now result }
{
    let mut items = items;
    let name = next_tree(trees, command, &mut items)?;
    let number = add_data_sort(globals, trees, name)?;
    let list = next_tree(trees, command, &mut items)?;
    let constructors = list_at(trees, list)?;
    add_constructors(alloc, globals, trees, number, list, constructors)?;
    finished(trees, &mut items)
}

/// `(D 0)`.
fn add_name_with_arity<'a>(
    globals: &mut Globals<'a>,
    trees: &Trees<'a>,
    tree: usize,
) -> Result<(), ScriptFault>
    ensures { Tells trees.now result }
{
    let mut parts = list_at(trees, tree)?;
    let name = next_tree(trees, tree, &mut parts)?;
    let _number = add_data_sort(globals, trees, name)?;
    let arity = next_tree(trees, tree, &mut parts)?;
    let at = trees.offset(arity);
    if trees.kind(arity) != NodeKind::Atom(AtomKind::Constant) {
        return Err(ScriptFault::Syntax(at));
    }
    if trees.text(arity) != b"0".as_slice() {
        return unsupported_at(Unsupported::Sort, at);
    }
    finished(trees, &mut parts)
}

/// The older form: names and constructors together.
fn add_joint<'a>(
    alloc: Global,
    globals: &mut Globals<'a>,
    trees: &Trees<'a>,
    list: usize,
) -> Result<(), ScriptFault>
    ensures { Tells trees.now result }
{
    let first = globals.data.len();
    let mut names = list_at(trees, list)?;
    'names: while let Some(tree) = trees.take(&mut names) {
        let mut parts = list_at(trees, tree)?;
        let name = next_tree(trees, tree, &mut parts)?;
        let _number = add_data_sort(globals, trees, name)?;
    }
    let mut bodies = trees.items(list);
    let mut number = first;
    'bodies: while let Some(tree) = trees.take(&mut bodies) {
        let mut parts = trees.items(tree);
        let _name = next_tree(trees, tree, &mut parts)?;
        add_constructors(alloc, globals, trees, number, tree, parts)?;
        number = number.saturating_add(1);
    }
    Ok(())
}

/// `(declare-datatypes ((D 0) ..) ((c ..) ..))`, or the older form `(declare-datatypes () ((D c ..) ..))`.
pub fn add_datatypes<'a>(
    alloc: Global,
    globals: &mut Globals<'a>,
    trees: &Trees<'a>,
    command: usize,
    items: Items,
) -> Result<(), ScriptFault>
    ensures { Tells trees.now result }
{
    let mut items = items;
    let heads = next_tree(trees, command, &mut items)?;
    let mut names = list_at(trees, heads)?;
    let list = next_tree(trees, command, &mut items)?;
    if names.is_empty() {
        add_joint(alloc, globals, trees, list)?;
        return finished(trees, &mut items);
    }
    let first = globals.data.len();
    'names: while let Some(tree) = trees.take(&mut names) {
        add_name_with_arity(globals, trees, tree)?;
    }
    let mut bodies = list_at(trees, list)?;
    for number in first..globals.data.len() {
        let body = next_tree(trees, list, &mut bodies)?;
        let constructors = list_at(trees, body)?;
        add_constructors(alloc, globals, trees, number, body, constructors)?;
    }
    finished(trees, &mut bodies)?;
    finished(trees, &mut items)
}

/// A constructor with this number becomes one of cells.
fn add_cells_of<'a>(
    alloc: Global,
    globals: &mut Globals<'a>,
    location: u16,
    number: usize,
    at: usize,
) -> Result<(), ScriptFault>
    ensures { TellsAt at result }
{
    let cell = globals.cells.len();
    if cell >= MOST_NAMES {
        return over(ScriptLimit::Constructors, at);
    }
    let Some(constructor) = globals.constructors.get_mut(number) else {
        return ill(IllScript::Unknown, at);
    };
    constructor.cell = Some(cell as u16);
    let fields = Vec::from_slice(alloc, &constructor.fields)?;
    globals.cells.push(Constructor { location, fields })?;
    Ok(())
}

/// `(S D)`: at locations of sort S stand cells of datatype D.
fn add_heap<'a>(
    alloc: Global,
    globals: &mut Globals<'a>,
    trees: &Trees<'a>,
    pair: usize,
) -> Result<(), ScriptFault>
    ensures { Tells trees.now result }
{
    let mut parts = list_at(trees, pair)?;
    let location_tree = next_tree(trees, pair, &mut parts)?;
    let location = globals.location(trees, location_tree)?;
    let data = next_tree(trees, pair, &mut parts)?;
    let at = trees.offset(data);
    let SortName::Data(number) = globals.sort_name(trees, data)? else {
        return unsupported_at(Unsupported::Cell, at);
    };
    finished(trees, &mut parts)?;
    let Some(sort) = globals.data.get_mut(number) else {
        return ill(IllScript::Unknown, at);
    };
    if sort.has_cells {
        return unsupported_at(Unsupported::Cell, at);
    }
    sort.has_cells = true;
    let (first, end) = (sort.first, sort.end);
    for constructor in first..end {
        add_cells_of(alloc, globals, location, constructor, at)?;
    }
    Ok(())
}

/// `(declare-heap (S D) ..)`.
pub fn add_heaps<'a>(
    alloc: Global,
    globals: &mut Globals<'a>,
    trees: &Trees<'a>,
    items: Items,
) -> Result<(), ScriptFault>
    ensures { Tells trees.now result }
{
    let mut items = items;
    'items: while let Some(pair) = trees.take(&mut items) {
        add_heap(alloc, globals, trees, pair)?;
    }
    Ok(())
}
