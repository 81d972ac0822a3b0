// The first fault of a link.
ghost use Rattle.std.specs.Prelude.{◌≡◌, ◌≤◌, [], ◌∷◌, List, None, length, map, true};
ghost use Rattle.heap_formula.specs.Definitions.{Definition};
ghost use Rattle.heap_formula.specs.Judgements.{IsLocallySound};
ghost use Rattle.heap_formula.specs.declared.commands.Command.{Command};
ghost use Rattle.rule_table.specs.LinkTable.{keeps_below as bindings_keep, parts_fault as first_parts_fault};
ghost use Rattle.rule_table.specs.LinkTable.{link_fault as first_link_fault, link_premise};
ghost use Rattle.rule_table.specs.RuleBook.{leaves_nothing};
ghost use Rattle.rule_table.specs.Soundness.{AreUniversal, HasVariables};

use crate::covering::disjunct_fault;
use crate::matching::{pure_fault, spatial_fault};
use cyc_basics::limits::MOST_DISJUNCTS;
use heap_formula::{Heap, Judgement, Link, RuleFault, Subst, Term, apply_to_term};
use rule_table::same_term;

fn keeps_below(subst: &Subst, p: u16) -> bool
    ensures { result ≡ bindings_keep subst.now p }
{
    let mut left = p;
    while left > 0 {
        left -= 1;
        if !same_term(apply_to_term(Term::Univ(left), subst), Term::Univ(left)) {
            return false;
        }
    }
    true
}

fn parts_fault(
    a: &Heap,
    bs: &[Heap],
    b: &Heap,
    cs: &[Heap],
    whole: bool,
    link: &Link,
) -> Option<RuleFault>
    requires { length cs.now ≤ MOST_DISJUNCTS }
    ensures { result ≡ first_parts_fault a.now bs.now b.now cs.now whole link.now }
{
    if let Some(fault) = pure_fault(a.pure(), &link.subst, b.pure()) {
        return Some(fault);
    }
    let entries = link.map.as_slice();
    if let Some(fault) = spatial_fault(
        a.pure(),
        a.spatial(),
        whole,
        entries,
        &link.subst,
        b.spatial(),
    ) {
        return Some(fault);
    }
    disjunct_fault(bs, link.disjuncts.as_slice(), &link.subst, cs)
}

fn first_fault(bud: &Judgement, companion: &Judgement, link: &Link, p: u16) -> Option<RuleFault>
    ensures { result ≡ first_link_fault bud.now companion.now link.now p }
{
    match (bud, companion) {
        (Judgement::Entail(a, bs), Judgement::Entail(b, cs)) => {
            let whole = a.spatial().len() <= b.spatial().len();
            parts_fault(a, bs.heaps(), b, cs.heaps(), whole, link)
        }
        (Judgement::Term(i, a), Judgement::Term(k, b)) => {
            if *i != *k {
                return Some(RuleFault::LineDiffers);
            }
            if !keeps_below(&link.subst, p) {
                return Some(RuleFault::LinkProgramVariable);
            }
            parts_fault(a, &[], b, &[], true, link)
        }
        _ => Some(RuleFault::WrongJudgement),
    }
}

/// The first fault of a link from a bud to its companion; `p` is the number of program variables for `from` judgements
/// and 0 for entailments. That the link's target is a node is the caller's to see, and in a program with an end that no
/// atom of the bud's is over.
pub fn link_fault(bud: &Judgement, companion: &Judgement, link: &Link, p: u16) -> Option<RuleFault>
    ensures fault { result ≡ first_link_fault bud.now companion.now link.now p }
    ensures sound { result ≡ None → AreUniversal link.now.subst → (ds : List Definition) (lines : List Command)
        → HasVariables lines p bud.now → leaves_nothing lines bud.now companion.now ≡ true
        → IsLocallySound ds lines bud.now (link_premise companion.now link.now ∷ []) }
{
    first_fault(bud, companion, link, p)
}
