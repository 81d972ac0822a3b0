//! The names of heaps and of lines, in the order of the text.

ghost use Rattle.std.specs.Prelude.{◌≡◌, ◌++◌, ◌∷◌, [], map, filter, not, IfOk};
ghost use Rattle.std.specs.List.{flat_map};
ghost use Rattle.heap_syntax.specs.Trees.{pure_of};
ghost use Rattle.heap_syntax.specs.Trees as heaps;
ghost use Rattle.heap_syntax.specs.LineTrees as programs;
ghost use Rattle.problem_syntax.specs.Trees.{text_of, named_of, heap_of, line_of};
ghost use Rattle.problem_syntax.specs.Names.{has};
ghost use Rattle.problem_syntax.specs.Views.{name_of, names_of};
ghost use Rattle.problem_syntax.specs.Occurrences.{plain, term_names as names_of_term, pure_names as names_of_pure};
ghost use Rattle.problem_syntax.specs.Occurrences.{spatial_names as names_of_spatial, heap_names as names_of_heap};
ghost use Rattle.problem_syntax.specs.Occurrences.{operand_names as names_of_operand, change_names as names_of_change};
ghost use Rattle.problem_syntax.specs.Occurrences.{command_names as names_of_command, line_names as names_of_line};

use crate::numbering::names::{NameUse, Names};
use crate::{HeapTree, LineTree, NameTree};
use cyc_basics::memory::OutOfMemory;
use heap_syntax::lines::{ChangeTree, CommandTree, OperandTree};
use heap_syntax::{PureTree, SpatialTree};
use std::alloc::Global;

/// The names with a term's name after them, if it has one; the functions below do the same for larger parts.
fn term_names<'a>(
    mut names: Vec<NameUse<'a>>,
    term: NameTree<'a>,
) -> Result<Vec<NameUse<'a>>, OutOfMemory>
    ensures { IfOk result (λ v. map name_of v.items
        ≡ map name_of names.entry.items ++ names_of_term (named_of term.entry)) }
{
    let name = match term {
        NameTree::Nil => return Ok(names),
        NameTree::Plain(text) => NameUse {
            text,
            primed: false,
        },
        NameTree::Primed(text) => NameUse { text, primed: true },
    };
    names.push(name)?;
    Ok(names)
}

fn terms_names<'a>(
    mut names: Vec<NameUse<'a>>,
    terms: &[NameTree<'a>],
) -> Result<Vec<NameUse<'a>>, OutOfMemory>
    ensures { IfOk result (λ v. map name_of v.items
        ≡ map name_of names.entry.items ++ flat_map names_of_term (map named_of terms.now)) }
{
    for term in terms {
        names = term_names(names, *term)?;
    }
    Ok(names)
}

fn pure_names<'a>(
    mut names: Vec<NameUse<'a>>,
    atoms: &[PureTree<NameTree<'a>>],
) -> Result<Vec<NameUse<'a>>, OutOfMemory>
    ensures { IfOk result (λ v. map name_of v.items
        ≡ map name_of names.entry.items ++ flat_map names_of_pure (map (pure_of named_of) atoms.now)) }
{
    for atom in atoms {
        let left = term_names(names, atom.left)?;
        names = term_names(left, atom.right)?;
    }
    Ok(names)
}

fn spatial_atom_names<'a>(
    names: Vec<NameUse<'a>>,
    atom: &SpatialTree<'a, NameTree<'a>>,
) -> Result<Vec<NameUse<'a>>, OutOfMemory>
    ensures { IfOk result (λ v. map name_of v.items
        ≡ map name_of names.entry.items ++ names_of_spatial (heaps.spatial_of named_of atom.now)) }
{
    match atom {
        SpatialTree::Cell(address, fields) => terms_names(term_names(names, *address)?, fields),
        SpatialTree::Predicate(_, arguments) => terms_names(names, arguments),
    }
}

fn spatial_names<'a>(
    mut names: Vec<NameUse<'a>>,
    atoms: &[SpatialTree<'a, NameTree<'a>>],
) -> Result<Vec<NameUse<'a>>, OutOfMemory>
    ensures { IfOk result (λ v. map name_of v.items
        ≡ map name_of names.entry.items ++ flat_map names_of_spatial (map (heaps.spatial_of named_of) atoms.now)) }
{
    for atom in atoms {
        names = spatial_atom_names(names, atom)?;
    }
    Ok(names)
}

/// The names with those of a heap after them.
pub fn with_heap_names<'a>(
    names: Vec<NameUse<'a>>,
    heap: &HeapTree<'a>,
) -> Result<Vec<NameUse<'a>>, OutOfMemory>
    ensures { IfOk result (λ v. map name_of v.items
        ≡ map name_of names.entry.items ++ names_of_heap (heap_of heap.now)) }
{
    spatial_names(pure_names(names, &heap.pure)?, &heap.spatial)
}

/// The names of a heap.
pub fn heap_names<'a>(alloc: Global, heap: &HeapTree<'a>) -> Result<Vec<NameUse<'a>>, OutOfMemory>
    ensures { IfOk result (λ v. map name_of v.items ≡ names_of_heap (heap_of heap.now)) }
{
    with_heap_names(Vec::new(alloc), heap)
}

/// Those of the names that are no parameters.
pub fn local_names<'a>(
    alloc: Global,
    parameters: &Names<'a>,
    uses: &[NameUse<'a>],
) -> Result<Vec<NameUse<'a>>, OutOfMemory>
    ensures { IfOk result (λ v. map name_of v.items
        ≡ filter (λ n. not (has (names_of parameters.now) n)) (map name_of uses.now)) }
{
    let mut names = Vec::new(alloc);
    for name in uses {
        if !parameters.has(*name) {
            names.push(*name)?;
        }
    }
    Ok(names)
}

/// Those of the names that have a prime.
pub fn primed_names<'a>(
    alloc: Global,
    uses: &[NameUse<'a>],
) -> Result<Vec<NameUse<'a>>, OutOfMemory>
    ensures { IfOk result (λ v. map name_of v.items ≡ filter (λ n. n.primed) (map name_of uses.now)) }
{
    let mut names = Vec::new(alloc);
    for name in uses {
        if name.primed {
            names.push(*name)?;
        }
    }
    Ok(names)
}

/// The names with those of others after them that have no prime.
pub fn with_plain_names<'a>(
    mut names: Vec<NameUse<'a>>,
    uses: &[NameUse<'a>],
) -> Result<Vec<NameUse<'a>>, OutOfMemory>
    ensures { IfOk result (λ v. map name_of v.items
        ≡ map name_of names.entry.items ++ filter (λ n. not n.primed) (map name_of uses.now)) }
{
    for name in uses {
        if !name.primed {
            names.push(*name)?;
        }
    }
    Ok(names)
}

fn variable_names<'a>(
    mut names: Vec<NameUse<'a>>,
    text: &'a str,
) -> Result<Vec<NameUse<'a>>, OutOfMemory>
    ensures { IfOk result (λ v. map name_of v.items ≡ map name_of names.entry.items ++ plain text.entry.now ∷ []) }
{
    names.push(NameUse {
        text,
        primed: false,
    })?;
    Ok(names)
}

fn operand_names<'a>(
    names: Vec<NameUse<'a>>,
    operand: OperandTree<&'a str>,
) -> Result<Vec<NameUse<'a>>, OutOfMemory>
    ensures { IfOk result (λ v. map name_of v.items
        ≡ map name_of names.entry.items ++ names_of_operand (programs.operand_of text_of operand.entry)) }
{
    match operand {
        OperandTree::Nil => Ok(names),
        OperandTree::Variable(text) => variable_names(names, text),
    }
}

fn change_names<'a>(
    names: Vec<NameUse<'a>>,
    change: ChangeTree<&'a str>,
) -> Result<Vec<NameUse<'a>>, OutOfMemory>
    ensures { IfOk result (λ v. map name_of v.items
        ≡ map name_of names.entry.items ++ names_of_change (programs.change_of text_of change.entry)) }
{
    match change {
        ChangeTree::New(_) => Ok(names),
        ChangeTree::Assign(value) | ChangeTree::Load(value, _) | ChangeTree::Store(_, value) => {
            operand_names(names, value)
        }
    }
}

fn command_names<'a>(
    names: Vec<NameUse<'a>>,
    command: CommandTree<&'a str>,
) -> Result<Vec<NameUse<'a>>, OutOfMemory>
    ensures { IfOk result (λ v. map name_of v.items
        ≡ map name_of names.entry.items ++ names_of_command (programs.command_of text_of command.entry)) }
{
    match command {
        CommandTree::Stop | CommandTree::Goto(_) | CommandTree::IfAny(_) => Ok(names),
        CommandTree::Free(operand) | CommandTree::StoreAtNil(_, operand) => {
            operand_names(names, operand)
        }
        CommandTree::If(left, _, right, _) => operand_names(operand_names(names, left)?, right),
        CommandTree::Change(variable, change) => {
            change_names(variable_names(names, variable)?, change)
        }
    }
}

/// The names of the lines of a program.
pub fn lines_names<'a>(
    alloc: Global,
    lines: &[LineTree<'a>],
) -> Result<Vec<NameUse<'a>>, OutOfMemory>
    ensures { IfOk result (λ v. map name_of v.items ≡ flat_map names_of_line (map line_of lines.now)) }
{
    let mut names = Vec::new(alloc);
    for line in lines {
        names = command_names(names, line.command)?;
    }
    Ok(names)
}
