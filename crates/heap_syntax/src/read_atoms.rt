//! Reading terms and atoms from the front of a list of tokens.

ghost use Rattle.std.specs.Prelude.{map};
ghost use Rattle.cyc_grammar.specs.Syntax.{many, after, is_one};
ghost use Rattle.cyc_grammar.specs.Giving.{Gives, with_front};
ghost use Rattle.heap_syntax.specs.Words.{comma};
ghost use Rattle.heap_syntax.specs.Grammar.{sign, pure, kept_pures, fields, arguments, spatial};
ghost use Rattle.heap_syntax.specs.Trees.{pure_of, spatial_of};
ghost use Rattle.heap_syntax.specs.Members.{GivesMembers};

use crate::form::TermForm;
use crate::keep::Keep;
use crate::tree::{PureTree, SpatialTree};
use crate::word::{free_name, reserved_words};
use cyc_grammar::{Cursor, Refusal};
use std::alloc::Global;

/// Reads `=` or `!=`; true at `=`.
#[tactic(auto, unfolding(crate::specs::Grammar::sign))]
pub fn sign(cursor: &mut Cursor<'_, '_>) -> Result<bool, Refusal>
    ensures { Gives (λ x. (x, cursor.new)) result (sign.read cursor.old) }
{
    if cursor.is_symbol_next("=") {
        cursor.symbol("=")?;
        return Ok(true);
    }
    cursor.symbol("!=")?;
    Ok(false)
}

#[tactic(auto, unfolding(crate::specs::Grammar::pure))]
fn pure<'a, F: TermForm<'a>>(
    form: &F,
    cursor: &mut Cursor<'_, 'a>,
) -> Result<PureTree<F::Term>, Refusal>
    ensures { Gives (λ x. (pure_of F.seen x, cursor.new)) result ((pure (F.terms form.now).syntax).read cursor.old) }
{
    let left = form.read_term(cursor)?;
    let is_equation = sign(cursor)?;
    let right = form.read_term(cursor)?;
    Ok(PureTree {
        left,
        is_equation,
        right,
    })
}

/// Reads the pure atoms after the first one.
fn more_pures<'a, F: TermForm<'a>>(
    alloc: Global,
    form: &F,
    keep: Keep,
    first: PureTree<F::Term>,
    cursor: &mut Cursor<'_, 'a>,
) -> Result<Vec<PureTree<F::Term>>, Refusal>
    ensures { GivesMembers keep (pure_of F.seen) first comma (pure (F.terms form.now).syntax) cursor.old result
        cursor.new }
{
    let mut items = Vec::new(alloc);
    items.push(first)?;
    for _ in 0..cursor.left() {
        if !cursor.is_symbol_next(",") {
            return Ok(items);
        }
        cursor.symbol(",")?;
        let item = pure(form, cursor)?;
        items = keep.with_member(items, item)?;
    }
    if cursor.is_symbol_next(",") {
        return Err(Refusal::Dead(cursor.left()));
    }
    Ok(items)
}

/// Reads pure atoms, of which so much is kept, and the colon.
#[tactic(auto, unfolding(crate::specs::Grammar::kept_pures, crate::specs::Grammar::kept_listed))]
pub fn kept_pures<'a, F: TermForm<'a>>(
    alloc: Global,
    form: &F,
    keep: Keep,
    cursor: &mut Cursor<'_, 'a>,
) -> Result<Vec<PureTree<F::Term>>, Refusal>
    ensures { Gives (λ x. (map (pure_of F.seen) x.items, cursor.new)) result
        ((kept_pures keep (F.terms form.now)).read cursor.old) }
{
    if cursor.is_keyword_next("true") {
        cursor.keyword("true")?;
        cursor.symbol(":")?;
        return Ok(Vec::new(alloc));
    }
    let first = pure(form, cursor)?;
    let items = more_pures(alloc, form, keep, first, cursor)?;
    cursor.symbol(":")?;
    Ok(items)
}

/// Reads the terms after some.
fn more_terms<'a, F: TermForm<'a>>(
    form: &F,
    mut items: Vec<F::Term>,
    cursor: &mut Cursor<'_, 'a>,
) -> Result<Vec<F::Term>, Refusal>
    ensures { Gives (λ x. (map F.seen x.items, cursor.new)) result
        (with_front (map F.seen items.items)
        ((many (is_one comma) (after comma (F.terms form.now).syntax)).read cursor.old)) }
{
    for _ in 0..cursor.left() {
        if !cursor.is_symbol_next(",") {
            return Ok(items);
        }
        cursor.symbol(",")?;
        items.push(form.read_term(cursor)?)?;
    }
    if cursor.is_symbol_next(",") {
        return Err(Refusal::Dead(cursor.left()));
    }
    Ok(items)
}

/// Reads one term or more, and the closing parenthesis.
#[tactic(auto, unfolding(crate::specs::Grammar::fields, crate::specs::Grammar::listed))]
pub fn fields<'a, F: TermForm<'a>>(
    alloc: Global,
    form: &F,
    cursor: &mut Cursor<'_, 'a>,
) -> Result<Vec<F::Term>, Refusal>
    ensures { Gives (λ x. (map F.seen x.items, cursor.new)) result ((fields (F.terms form.now)).read cursor.old) }
{
    let mut items = Vec::new(alloc);
    items.push(form.read_term(cursor)?)?;
    let items = more_terms(form, items, cursor)?;
    cursor.symbol(")")?;
    Ok(items)
}

/// Reads terms and the closing parenthesis.
#[tactic(auto, unfolding(crate::specs::Grammar::arguments))]
pub fn arguments<'a, F: TermForm<'a>>(
    alloc: Global,
    form: &F,
    cursor: &mut Cursor<'_, 'a>,
) -> Result<Vec<F::Term>, Refusal>
    ensures { Gives (λ x. (map F.seen x.items, cursor.new)) result ((arguments (F.terms form.now)).read cursor.old) }
{
    if cursor.is_symbol_next(")") {
        cursor.symbol(")")?;
        return Ok(Vec::new(alloc));
    }
    fields(alloc, form, cursor)
}

/// Reads a spatial atom where no term begins with a name.
#[tactic(auto, unfolding(crate::specs::Grammar::spatial, crate::specs::Grammar::predicate, crate::specs::Grammar::cell))]
pub fn spatial<'a, F: TermForm<'a>>(
    alloc: Global,
    form: &F,
    cursor: &mut Cursor<'_, 'a>,
) -> Result<SpatialTree<'a, F::Term>, Refusal>
    ensures { Gives (λ x. (spatial_of F.seen x, cursor.new)) result ((spatial (F.terms form.now)).read cursor.old) }
{
    if cursor.is_name_next(reserved_words()) {
        let name = free_name(cursor)?;
        cursor.symbol("(")?;
        let arguments = arguments(alloc, form, cursor)?;
        return Ok(SpatialTree::Predicate(name, arguments));
    }
    let address = form.read_term(cursor)?;
    cursor.symbol("->")?;
    cursor.symbol("(")?;
    let fields = fields(alloc, form, cursor)?;
    Ok(SpatialTree::Cell(address, fields))
}
