// What the commands answer to their input.
ghost use Rattle.std.specs.Prelude.{◌≡◌, ◌<◌, true, count_by, IfOk};
ghost use Rattle.cyc_runs.specs.Endings.{is_answer};
ghost use Rattle.rule_logics.specs.Answers.{fault_name_of, fault_line, accepted_line as accepted_text, verdict_status};
ghost use Rattle.rule_logics.specs.Answers.{verdict_text, is_link as is_link_node, AreProof, IsAccepted, IsProofAnswer};
ghost use Rattle.rule_logics.specs.Answers.{IsGiven, IsFoundAnswer};

use crate::texts::reading::{RuleNode, read_proof};
use crate::texts::text::RuleText;
use crate::texts::writing::proof_text;
use crate::{ByRules, NodeFault, Reason, RuleLogic, prove};
use cyc_basics::memory::OutOfMemory;
use cyc_runs::texts::{Line, not_found_line, path_refused_line};
use cyc_runs::{Answer, INPUT_LIMIT, Status, Tool, answer_to_fault, fixed_answer};
use derivations::found::Proved;
use logics::{ProofNode, Verdict, check_proof};
use std::alloc::Global;

/// The most nodes of a proof that is checked.
pub const MOST_FILE_NODES: usize = 1_000_000;

fn fault_name<X: RuleText>(texts: &X, fault: NodeFault<X::Fault>) -> &'static str
    ensures { result.now ≡ fault_name_of (X.text texts.now) fault }
{
    match fault {
        NodeFault::Rule(fault) => texts.fault_name(fault),
        NodeFault::LinkDiffers => "LinkDiffers",
        NodeFault::PremiseCount => "PremiseCount",
        NodeFault::PremiseDiffers(_) => "PremiseDiffers",
        NodeFault::NoSuchNode => "NoSuchNode",
    }
}

/// The line for a node that is not right.
fn node_refused_line<X: RuleText>(
    alloc: Global,
    texts: &X,
    node: u32,
    fault: NodeFault<X::Fault>,
) -> Result<Vec<u8>, OutOfMemory>
    ensures { IfOk result (λ v. v.items ≡ fault_line (X.text texts.now) node fault) }
{
    let mut line = Line::new(alloc);
    line.text("refused node ")?;
    line.number(u64::from(node))?;
    line.text(" ")?;
    line.text(fault_name(texts, fault))?;
    if let NodeFault::PremiseDiffers(place) = fault {
        line.text(" ")?;
        line.number(u64::from(place))?;
    }
    line.end()
}

fn is_link<J, R>(node: &ProofNode<J, Reason<R>>) -> bool
    ensures { result ≡ is_link_node node.now }
{
    match node.reason {
        Reason::Rule(_) => false,
        Reason::Link(_) => true,
    }
}

fn links_of<J, R>(nodes: &[ProofNode<J, Reason<R>>]) -> usize
    ensures { result ≡ count_by is_link_node nodes.now }
{
    let mut links = 0;
    for node in nodes {
        if is_link(node) {
            links += 1;
        }
    }
    links
}

/// The line for a proof that is right.
fn accepted_line<X: RuleText>(
    alloc: Global,
    texts: &X,
    nodes: &[RuleNode<X::Judgement, X::Rule>],
) -> Result<Vec<u8>, OutOfMemory>
    ensures { IfOk result (λ v. v.items ≡ accepted_text (X.text texts.now) nodes.now) }
{
    let links = links_of(nodes);
    let mut line = Line::new(alloc);
    line.text("accepted ")?;
    line.text(texts.kind())?;
    line.text(" nodes ")?;
    line.number(nodes.len() as u64)?;
    line.text(" links ")?;
    line.number(links as u64)?;
    line.end()
}

fn answer_to_verdict<X: RuleText>(
    alloc: Global,
    texts: &X,
    nodes: &[RuleNode<X::Judgement, X::Rule>],
    verdict: Verdict<NodeFault<X::Fault>>,
) -> Result<Answer, OutOfMemory>
    ensures status { IfOk result (λ a. a.status ≡ verdict_status verdict) }
    ensures ending { IfOk result (λ a. is_answer a.status ≡ true) }
    ensures text { IfOk result (λ a. a.text.items ≡ verdict_text (X.text texts.now) nodes.now verdict) }
{
    let (status, text) = match verdict {
        Verdict::Accepted => (Status::Success, accepted_line(alloc, texts, nodes)?),
        Verdict::RuleRefused { node, fault } => (
            Status::Refused,
            node_refused_line(alloc, texts, node, fault)?,
        ),
        Verdict::PathRefused { lasso } => (Status::Refused, path_refused_line(alloc, &lasso)?),
        Verdict::TooManyStates => return fixed_answer(alloc, Status::Limit, "limit states\n"),
    };
    Ok(Answer { status, text })
}

/// The verdict on the nodes of a proof, as a line; without a node there is no node 0.
fn answer_to_proof<
    L: RuleLogic,
    X: RuleText<Judgement = L::Judgement, Rule = L::Rule, Fault = L::Fault>,
>(
    alloc: Global,
    logic: &L,
    texts: &X,
    nodes: &[RuleNode<L::Judgement, L::Rule>],
) -> Result<Answer, OutOfMemory>
    ensures answered { IfOk result (λ a.
        IsProofAnswer (L.rules logic.now) (X.text texts.now) (L.holds logic.now) nodes.now a.status a.text.items) }
    ensures ending { IfOk result (λ a. is_answer a.status ≡ true) }
{
    if nodes.len() == 0 {
        return fixed_answer(alloc, Status::Refused, "refused node 0 NoSuchNode\n");
    }
    if nodes.len() > MOST_FILE_NODES {
        return fixed_answer(alloc, Status::Limit, "limit nodes\n");
    }
    let verdict = check_proof(alloc, &ByRules { logic: *logic }, nodes)?;
    answer_to_verdict(alloc, texts, nodes, verdict)
}

/// The command `check`.
#[derive(Drop)]
pub struct Checker<L, X> {
    pub logic: L,
    pub texts: X,
}

impl<L: RuleLogic, X: RuleText<Judgement = L::Judgement, Rule = L::Rule, Fault = L::Fault>> Tool
    for Checker<L, X> {
    ghost use Rattle.rule_logics.specs.Answers.{IsChecked};

    ghost answers = { λ s. IsChecked (L.rules s.logic) (X.text s.texts) (L.holds s.logic) };

    fn answer(&self, alloc: Global, input: &[u8]) -> Result<Answer, OutOfMemory> {
        match read_proof(alloc, &self.texts, input) {
            Ok(nodes) => answer_to_proof(alloc, &self.logic, &self.texts, &nodes),
            Err(fault) => answer_to_fault(alloc, fault),
        }
    }
}

fn is_accepting<F>(verdict: &Verdict<F>) -> bool
    ensures { result ≡ true → verdict.now ≡ Verdict.Accepted }
{
    match verdict {
        Verdict::Accepted => true,
        _ => false,
    }
}

/// Whether the nodes are a proof of the goal that is accepted.
fn are_proof<L: RuleLogic>(
    alloc: Global,
    logic: &L,
    goal: &L::Judgement,
    nodes: &[RuleNode<L::Judgement, L::Rule>],
) -> Result<bool, OutOfMemory>
    ensures { IfOk result (λ b. b ≡ true → AreProof (L.rules logic.now) (L.holds logic.now) goal.now nodes.now) }
{
    if nodes.len() == 0 || nodes.len() > MOST_FILE_NODES {
        return Ok(false);
    }
    let root = &nodes[0];
    if !logic.is_same(&root.judgement, goal) {
        return Ok(false);
    }
    let verdict = check_proof(alloc, &ByRules { logic: *logic }, nodes)?;
    Ok(is_accepting(&verdict))
}

/// Whether `check` accepts the text as a proof of the goal.
fn is_accepted<
    L: RuleLogic,
    X: RuleText<Judgement = L::Judgement, Rule = L::Rule, Fault = L::Fault>,
>(
    alloc: Global,
    logic: &L,
    texts: &X,
    goal: &L::Judgement,
    text: &[u8],
) -> Result<bool, OutOfMemory>
    ensures { IfOk result (λ b. b ≡ true
        → IsAccepted (L.rules logic.now) (X.text texts.now) (L.holds logic.now) goal.now text.now) }
{
    if text.len() > INPUT_LIMIT {
        return Ok(false);
    }
    match read_proof(alloc, texts, text) {
        Ok(nodes) => are_proof(alloc, logic, goal, &nodes),
        Err(_) => Ok(false),
    }
}

/// The text of a proof that was found, if it is within the limits of a text.
fn answer_with<
    L: RuleLogic,
    X: RuleText<Judgement = L::Judgement, Rule = L::Rule, Fault = L::Fault>,
>(
    alloc: Global,
    logic: &L,
    texts: &X,
    goal: &L::Judgement,
    nodes: &[RuleNode<L::Judgement, L::Rule>],
) -> Result<Answer, OutOfMemory>
    ensures answered { IfOk result (λ a.
        IsGiven (L.rules logic.now) (X.text texts.now) (L.holds logic.now) goal.now a.status a.text.items) }
    ensures ending { IfOk result (λ a. is_answer a.status ≡ true) }
{
    let text = proof_text(alloc, texts, nodes)?;
    if !is_accepted(alloc, logic, texts, goal, &text)? {
        return fixed_answer(alloc, Status::Limit, "limit text\n");
    }
    let status = Status::Success;
    Ok(Answer { status, text })
}

/// A proof of the goal, or that none was found, as the search ends.
pub fn answer_to_problem<
    L: RuleLogic,
    X: RuleText<Judgement = L::Judgement, Rule = L::Rule, Fault = L::Fault>,
>(
    alloc: Global,
    logic: &L,
    texts: &X,
    goal: &L::Judgement,
    depth: u32,
) -> Result<Answer, OutOfMemory>
    requires { depth < 4294967295 }
    ensures answered { IfOk result (λ a. IsFoundAnswer (L.rules logic.now) (X.text texts.now)
        (L.holds logic.now) depth goal.now a.status a.text.items) }
    ensures ending { IfOk result (λ a. is_answer a.status ≡ true) }
{
    match prove(alloc, logic, goal, depth)? {
        Proved::Found(nodes) => answer_with(alloc, logic, texts, goal, &nodes),
        Proved::NotFound => {
            let text = not_found_line(alloc, depth)?;
            let status = Status::NotFound;
            Ok(Answer { status, text })
        }
        Proved::TooManyDerivations => fixed_answer(alloc, Status::Limit, "limit derivations\n"),
        Proved::TooManyStates => fixed_answer(alloc, Status::Limit, "limit states\n"),
    }
}
