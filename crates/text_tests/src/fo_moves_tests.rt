// What goals are offered.
ghost use Rattle.std.specs.Prelude.{ℕ, ◌≤◌, length, IfOk};
ghost use Rattle.fo_formula.specs.Meaning.{cases_of};
ghost use Rattle.fo_logic.specs.Files.{IsFoProof};

use derivations::search::Cursor;
use fo_file::read_fo;
use fo_formula::{FoFile, FoLink, FoNode, FoReason, FoRule, FoSequent, FoTheory};
use fo_rules::parts::size_of_sequent;
use fo_search::moves::{links_to, rules_after, rules_before};
use std::alloc::Global;
use std::test::Fail;

/// Which offers are listed.
#[derive(Clone, Copy)]
enum Line {
    Before,
    Links,
    After,
}

/// The definitions of each file.
const THEORY: &[u8] = b"cyclist fo 1;
con z 0;
con s 1;
pred nat(1) { $0 = z() | $0 = s(?0), nat(?0) };
pred even(1) { $0 = z() | $0 = s(s(?0)), even(?0) };
pred two(0) { nat(?0), nat(?1) };
";

/// Nodes of one goal, each by one of its offers in order. The reason of the first node is none of them; where links are
/// listed it is the companion.
static TABLE: &[(Line, &[u8])] = &[
    (Line::Before, b"node even($0) |- nat($0) by Refl 0;"),
    (
        Line::After,
        b"node even($0) |- nat($0) by Refl 0;
node even($0) |- nat($0) by Unfold 0;",
    ),
    (
        Line::Before,
        b"node $0 = z() |- nat($0) by Refl 0;
node $0 = z() |- nat($0) by Replace 0 left;",
    ),
    (
        Line::After,
        b"node true |- nat(z()) by Refl 0;
node true |- nat(z()) by Right 0 0 [];",
    ),
    (
        Line::Before,
        b"node true |- z() = z() by Axiom 0 0;
node true |- z() = z() by Refl 0;",
    ),
    (
        Line::After,
        b"node even($1) |- nat(s(s($1))) by Refl 0;
node even($1) |- nat(s(s($1))) by Right 0 1 [s($1)];
node even($1) |- nat(s(s($1))) by Unfold 0;",
    ),
    (
        Line::Links,
        b"node even($0) |- nat($0) by Unfold 0;
node even($1) |- nat($1) by Link 0 { $0 := $1 } [0] [0];",
    ),
    (
        Line::Before,
        b"node nat($1), nat($0) |- nat($0), nat($1) by Refl 0;
node nat($1), nat($0) |- nat($0), nat($1) by Axiom 0 1;",
    ),
    (
        Line::Before,
        b"node $0 = z(), s($0) = s($1), $1 = s($1), z() = s($1) |- false by Refl 0;
node $0 = z(), s($0) = s($1), $1 = s($1), z() = s($1) |- false by Clash 2;",
    ),
    (
        Line::Before,
        b"node $0 = z(), s($0) = s($1), s($1) = s(z()) |- nat($0) by Refl 0;
node $0 = z(), s($0) = s($1), s($1) = s(z()) |- nat($0) by Decompose 1;",
    ),
    (
        Line::Before,
        b"node nat($0), s($0) = $1, $2 = z() |- false by Refl 0;
node nat($0), s($0) = $1, $2 = z() |- false by Replace 1 right;",
    ),
    (
        Line::Before,
        b"node $0 = $1 |- false by Refl 0;
node $0 = $1 |- false by Replace 0 left;",
    ),
    (
        Line::Links,
        b"node even($0), even($1) |- nat($0) by Unfold 0;
node even($2), even($3) |- nat($2) by Link 0 { $0 := $2, $1 := $2 } [0 0] [0];
node even($2), even($3) |- nat($2) by Link 0 { $0 := $2, $1 := $3 } [0 1] [0];",
    ),
    (
        Line::After,
        b"node $0 = s($1) |- nat($0) by Refl 0;
node $0 = s($1) |- nat($0) by Right 0 1 [$1];",
    ),
    (
        Line::After,
        b"node nat($0), nat(s($0)) |- two() by Refl 0;
node nat($0), nat(s($0)) |- two() by Right 0 0 [$0, $0];
node nat($0), nat(s($0)) |- two() by Right 0 0 [$0, s($0)];
node nat($0), nat(s($0)) |- two() by Right 0 0 [s($0), $0];
node nat($0), nat(s($0)) |- two() by Right 0 0 [s($0), s($0)];
node nat($0), nat(s($0)) |- two() by Unfold 0;
node nat($0), nat(s($0)) |- two() by Unfold 1;",
    ),
];

fn file_of(alloc: Global, nodes: &[u8]) -> Result<FoFile, Fail>
    ensures { IfOk result IsFoProof }
{
    let mut text = Vec::from_slice(alloc, THEORY)?;
    text.extend_from_slice(nodes)?;
    text.extend_from_slice(b"\nend;\n")?;
    if text.len() > 10000 {
        return Err("long".into());
    }
    match read_fo(alloc, &text) {
        Ok(file) => Ok(file),
        Err(_) => Err("not read".into()),
    }
}

fn is_same_rule(a: &FoRule, b: &FoRule) -> bool {
    match (a, b) {
        (FoRule::Axiom { left, right }, FoRule::Axiom { left: i, right: j }) => {
            *left == *i && *right == *j
        }
        (FoRule::Refl(j), FoRule::Refl(k)) => *j == *k,
        (FoRule::Clash(i), FoRule::Clash(k)) => *i == *k,
        (FoRule::Decompose(i), FoRule::Decompose(k)) => *i == *k,
        (
            FoRule::Replace { atom, side },
            FoRule::Replace {
                atom: i,
                side: other,
            },
        ) => { *atom == *i && *side == *other }
        (FoRule::Unfold(i), FoRule::Unfold(k)) => *i == *k,
        (
            FoRule::Right { atom, case, terms },
            FoRule::Right {
                atom: j,
                case: c,
                terms: others,
            },
        ) => *atom == *j && *case == *c && *terms == *others,
        _ => false,
    }
}

fn is_same_link(a: &FoLink, b: &FoLink) -> bool {
    a.to == b.to
        && a.substitution.as_slice() == b.substitution.as_slice()
        && a.left_map.as_slice() == b.left_map.as_slice()
        && a.right_map.as_slice() == b.right_map.as_slice()
}

/// Whether the nodes go by these rules, in order.
fn go_by_rules(nodes: &[FoNode], rules: &[FoRule]) -> bool {
    if nodes.len() != rules.len() {
        return false;
    }
    for (node, rule) in nodes.iter().zip(rules.iter()) {
        let FoReason::Rule(other) = &node.reason else {
            return false;
        };
        if !is_same_rule(rule, other) {
            return false;
        }
    }
    true
}

/// Whether the nodes go by these links, in order.
fn go_by_links(nodes: &[FoNode], links: &[FoLink]) -> bool {
    if nodes.len() != links.len() {
        return false;
    }
    for (node, link) in nodes.iter().zip(links.iter()) {
        let FoReason::Link(other) = &node.reason else {
            return false;
        };
        if !is_same_link(link, other) {
            return false;
        }
    }
    true
}

fn links_are_offered(alloc: Global, companion: &FoSequent, nodes: &[FoNode]) -> Result<bool, Fail> {
    let bud = &nodes.first().ok_or("no bud")?.judgement;
    if bud.left.as_slice().len() > 32 || bud.right.as_slice().len() > 16 {
        return Err("long".into());
    }
    if companion.left.as_slice().len() > 32 || companion.right.as_slice().len() > 16 {
        return Err("long".into());
    }
    if size_of_sequent(bud) > 4096 || size_of_sequent(companion) > 4096 {
        return Err("large".into());
    }
    let links = links_to(alloc, bud, companion, 0, 1000000)?;
    Ok(go_by_links(nodes, &links))
}

/// The rules that come where no link is admitted, the first thousand of them.
fn all_after(alloc: Global, theory: &FoTheory, goal: &FoSequent) -> Result<Vec<FoRule>, Fail>
    requires left_fits { length goal.now.left ≤ 32 }
    requires right_fits { length goal.now.right ≤ 16 }
    requires few_cases { (p : ℕ) → length (cases_of theory.now.definitions p) ≤ 65536 }
{
    let mut left = rules_after(alloc, theory, goal, usize::MAX)?;
    let mut rules = Vec::new(alloc);
    for _ in 0..1_000 {
        match left.next(alloc)? {
            Some(rule) => rules.push(rule)?,
            None => break,
        }
    }
    Ok(rules)
}

fn is_offered(alloc: Global, line: Line, file: &FoFile) -> Result<bool, Fail>
    requires { IsFoProof file.now }
{
    let [first, rest @ ..] = file.nodes.as_slice() else {
        return Err("no goal".into());
    };
    let goal = &first.judgement;
    if goal.left.as_slice().len() > 32 || goal.right.as_slice().len() > 16 {
        return Err("long".into());
    }
    match line {
        Line::Before => Ok(go_by_rules(rest, &rules_before(alloc, &file.theory, goal)?)),
        Line::Links => links_are_offered(alloc, goal, rest),
        Line::After => Ok(go_by_rules(rest, &all_after(alloc, &file.theory, goal)?)),
    }
}

#[test]
fn offers_come_in_order(rt: HostRuntime) -> Result<(), Fail> {
    let alloc = rt.alloc();
    for (line, nodes) in TABLE {
        let file = file_of(alloc, nodes)?;
        assert!(rt; is_offered(alloc, *line, &file)?);
    }
    Ok(())
}
