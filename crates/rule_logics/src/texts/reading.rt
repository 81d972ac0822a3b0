// Reading judgements and proofs.
ghost use Rattle.std.specs.Prelude.{◌≡◌, ◌<◌, ◌-◌, ◌^◌, [], ◌∷◌, length, map};
ghost use Rattle.cyc_lex.specs.Word.{EndsOnce, word_of};
ghost use Rattle.cyc_grammar.specs.Giving.{Gives, with_front};
ghost use Rattle.rule_logics.specs.Grammar.{read_reason, read_more, read_numbers, read_node, read_nodes, read_file};
ghost use Rattle.rule_logics.specs.Grammar.{read_problem, read_proof};
ghost use Rattle.rule_logics.specs.Reading.{IsFaultOf, Reads, ReadsFrom, whole};

use crate::Reason;
use crate::texts::text::RuleText;
use cyc_grammar::{Cursor, Refusal, read_fault};
use cyc_lex::{ReadFault, Tokens, tokens};
use logics::{Numbers, ProofNode};
use std::alloc::Global;

/// A node of a proof.
pub type RuleNode<J, R> = ProofNode<J, Reason<R>>;

fn reason<T: RuleText>(
    alloc: Global,
    texts: &T,
    cursor: &mut Cursor<'_, '_>,
) -> Result<Reason<T::Rule>, Refusal>
    ensures { Gives (λ x. (x, cursor.new)) result (read_reason (T.text texts.now) cursor.old) }
{
    if cursor.is_keyword_next("Link") {
        cursor.keyword("Link")?;
        return Ok(Reason::Link(cursor.number()?));
    }
    Ok(Reason::Rule(texts.read_rule(alloc, cursor)?))
}

/// The first number, and as many of those behind it as there may be.
fn more_numbers(
    alloc: Global,
    most: usize,
    first: u32,
    cursor: &mut Cursor<'_, '_>,
) -> Result<Vec<u32>, Refusal>
    ensures { Gives (λ x. (x.items, cursor.new)) result (with_front (first ∷ []) (read_more most cursor.old)) }
{
    let mut numbers = Vec::new(alloc);
    numbers.push(first)?;
    for _ in 0..most {
        if !cursor.is_number_next() {
            return Ok(numbers);
        }
        numbers.push(cursor.number()?)?;
    }
    Ok(numbers)
}

/// The numbers of the premises.
fn numbers<T: RuleText>(
    alloc: Global,
    texts: &T,
    cursor: &mut Cursor<'_, '_>,
) -> Result<Vec<u32>, Refusal>
    ensures { Gives (λ x. (x.items, cursor.new)) result (read_numbers (T.text texts.now) cursor.old) }
{
    if !cursor.is_keyword_next("to") {
        return Ok(Vec::new(alloc));
    }
    cursor.keyword("to")?;
    let first = cursor.number()?;
    more_numbers(alloc, texts.more_premises(), first, cursor)
}

fn node<T: RuleText>(
    alloc: Global,
    texts: &T,
    cursor: &mut Cursor<'_, '_>,
) -> Result<RuleNode<T::Judgement, T::Rule>, Refusal>
    ensures { Gives (λ x. (x, cursor.new)) result (read_node (T.text texts.now) cursor.old) }
{
    cursor.keyword("node")?;
    let judgement = texts.read_judgement(alloc, cursor)?;
    cursor.keyword("by")?;
    let reason = reason(alloc, texts, cursor)?;
    let premises = Numbers::from_vec(numbers(alloc, texts, cursor)?);
    cursor.symbol(";")?;
    Ok(ProofNode {
        judgement,
        reason,
        premises,
    })
}

fn nodes<T: RuleText>(
    alloc: Global,
    texts: &T,
    cursor: &mut Cursor<'_, '_>,
) -> Result<Vec<RuleNode<T::Judgement, T::Rule>>, Refusal>
    ensures { Gives (λ x. (x.items, cursor.new)) result (read_nodes (T.text texts.now) cursor.old) }
{
    let mut items = Vec::new(alloc);
    for _ in 0..cursor.left() {
        if !cursor.is_keyword_next("node") {
            return Ok(items);
        }
        items.push(node(alloc, texts, cursor)?)?;
    }
    if cursor.is_keyword_next("node") {
        return Err(Refusal::Dead(cursor.left()));
    }
    Ok(items)
}

fn file<T: RuleText>(
    alloc: Global,
    texts: &T,
    cursor: &mut Cursor<'_, '_>,
) -> Result<Vec<RuleNode<T::Judgement, T::Rule>>, Refusal>
    ensures { Gives (λ x. (x.items, cursor.new)) result (read_file (T.text texts.now) cursor.old) }
{
    cursor.keyword(texts.title())?;
    cursor.keyword("proof")?;
    cursor.symbol(";")?;
    let nodes = nodes(alloc, texts, cursor)?;
    cursor.keyword("end")?;
    cursor.symbol(";")?;
    Ok(nodes)
}

fn whole_problem<T: RuleText>(
    alloc: Global,
    texts: &T,
    mut cursor: Cursor<'_, '_>,
) -> Result<T::Judgement, Refusal>
    ensures { Gives (λ x. x) result (whole (read_problem (T.text texts.now) cursor.entry)) }
{
    let judgement = texts.read_judgement(alloc, &mut cursor)?;
    cursor.end()?;
    if cursor.left() > 0 {
        return Err(Refusal::Dead(cursor.left()));
    }
    Ok(judgement)
}

fn whole_proof<T: RuleText>(
    alloc: Global,
    texts: &T,
    mut cursor: Cursor<'_, '_>,
) -> Result<Vec<RuleNode<T::Judgement, T::Rule>>, Refusal>
    ensures { Gives (λ x. x.items) result (whole (read_proof (T.text texts.now) cursor.entry)) }
{
    let nodes = file(alloc, texts, &mut cursor)?;
    cursor.end()?;
    if cursor.left() > 0 {
        return Err(Refusal::Dead(cursor.left()));
    }
    Ok(nodes)
}

/// The fault of a text that is refused so, at the dead token.
fn fault_of(tokens: &Tokens<'_>, refusal: Refusal) -> ReadFault
    requires { length tokens.now < 2 ^ 32 }
    ensures { IsFaultOf tokens.now refusal result }
{
    match refusal {
        Refusal::Dead(left) if left == 0 || left > tokens.as_slice().len() => ReadFault::Syntax {
            token: 0,
            line: 1,
            column: 1,
        },
        refusal => read_fault(tokens, refusal),
    }
}

fn problem_from<T: RuleText>(
    alloc: Global,
    texts: &T,
    tokens: &Tokens<'_>,
) -> Result<T::Judgement, ReadFault>
    requires few { length tokens.now < 2 ^ 32 }
    requires words { EndsOnce (map word_of tokens.now) }
    ensures { ReadsFrom (λ i. i) (read_problem (T.text texts.now)) tokens.now result }
{
    match whole_problem(alloc, texts, Cursor::new(tokens.as_slice())) {
        Ok(judgement) => Ok(judgement),
        Err(refusal) => Err(fault_of(tokens, refusal)),
    }
}

fn proof_from<T: RuleText>(
    alloc: Global,
    texts: &T,
    tokens: &Tokens<'_>,
) -> Result<Vec<RuleNode<T::Judgement, T::Rule>>, ReadFault>
    requires few { length tokens.now < 2 ^ 32 }
    requires words { EndsOnce (map word_of tokens.now) }
    ensures { ReadsFrom (λ v. v.items) (read_proof (T.text texts.now)) tokens.now result }
{
    match whole_proof(alloc, texts, Cursor::new(tokens.as_slice())) {
        Ok(nodes) => Ok(nodes),
        Err(refusal) => Err(fault_of(tokens, refusal)),
    }
}

/// The judgement that the bytes spell, or the first fault of the text, of its tokens or of its grammar.
pub fn read_problem<T: RuleText>(
    alloc: Global,
    texts: &T,
    bytes: &[u8],
) -> Result<T::Judgement, ReadFault>
    requires { length bytes.now < 2 ^ 32 - 1 }
    ensures { Reads (λ i. i) (read_problem (T.text texts.now)) bytes.now result }
{
    let tokens = tokens(alloc, bytes)?;
    problem_from(alloc, texts, &tokens)
}

/// The nodes of the proof that the bytes spell, or the first fault of the text, of its tokens or of its grammar.
pub fn read_proof<T: RuleText>(
    alloc: Global,
    texts: &T,
    bytes: &[u8],
) -> Result<Vec<RuleNode<T::Judgement, T::Rule>>, ReadFault>
    requires { length bytes.now < 2 ^ 32 - 1 }
    ensures { Reads (λ v. v.items) (read_proof (T.text texts.now)) bytes.now result }
{
    let tokens = tokens(alloc, bytes)?;
    proof_from(alloc, texts, &tokens)
}
