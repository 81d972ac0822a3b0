// The moves at an entailment, stage by stage.
use crate::entailments::applying::push_applications;
use crate::entailments::disjuncts::disjunct_stage;
use crate::entailments::dividing::push_divisions;
use crate::entailments::forced::{Sight, first_stage, look_at};
use crate::entailments::offers::{MoveOffers, deepening, no_moves, one_move};
use crate::entailments::predicates::{
    is_all_cells, push_addresses, push_frames, push_predicate_moves, wanted_address,
    wanted_disequation,
};
use crate::entailments::sequents::Sequent;
use crate::entailments::unfolding::push_unfolds;
use crate::{Aim, Draft, Move, Setting, Stage, Strategy};
use cyc_basics::memory::OutOfMemory;
use heap_formula::{Heap, Judgement, Pure, Rule};
use pred_defs::Defs;

/// The moves at entailments. A shy search does not frame cells by itself, since a framed cell can no longer give a
/// disequation; a narrow one does not divide antecedents.
#[derive(Clone, Copy)]
pub struct Entailments<'a> {
    pub setting: Setting<'a>,
    pub is_shy: bool,
    pub is_narrow: bool,
}

fn has_disequation(heap: &Heap) -> bool {
    for atom in heap.pure() {
        if let Pure::Neq(_, _) = atom {
            return true;
        }
    }
    false
}

fn some_has_disequation(heaps: &[Heap]) -> bool {
    for heap in heaps {
        if has_disequation(heap) {
            return true;
        }
    }
    false
}

/// Whether some case of a definition has a disequation.
fn has_disequations(defs: &Defs) -> bool {
    for def in defs.as_slice() {
        if some_has_disequation(def.cases.heaps()) {
            return true;
        }
    }
    false
}

/// The stage of an entailment with one disjunct before which all but Unfold was offered.
pub const LAST_STAGE: u32 = 9;

impl<'a> Entailments<'a> {
    /// The moves of the whole search.
    pub fn new(setting: Setting<'a>) -> Entailments<'a> {
        Entailments {
            setting,
            is_shy: has_disequations(setting.defs),
            is_narrow: false,
        }
    }

    /// The moves of the short searches on the way.
    pub fn narrow(&self) -> Entailments<'a> {
        Entailments {
            setting: self.setting,
            is_shy: self.is_shy,
            is_narrow: true,
        }
    }

    fn forced(&self, offers: &mut MoveOffers, sequent: &Sequent<'_>) {
        match look_at(sequent, self.is_shy) {
            Sight::Go(rule) => offers.push_alone(rule, sequent.same()),
            Sight::Dead => offers.is_last = true,
            Sight::Open if self.is_shy => push_frames(offers, sequent, true),
            Sight::Open => {}
        }
    }

    /// The moves at one disjunct.
    fn single_stage(
        &self,
        offers: &mut MoveOffers,
        sequent: &Sequent<'_>,
        draft: &Draft,
        heaps: &[Heap],
        stage: u32,
    ) {
        match stage {
            1 => self.forced(offers, sequent),
            2 => push_for_cells(offers, sequent, heaps),
            3 => push_split(offers, sequent, heaps),
            4 => push_without_atoms(offers, sequent, heaps),
            5 => push_frames(offers, sequent, false),
            6 if self.is_narrow => {}
            6 => push_divisions(offers, sequent),
            7 => push_predicate_moves(offers, sequent),
            8 => push_applications(offers, sequent, draft),
            _ => push_unfolds(offers, sequent.left, heaps, None, sequent.fuel),
        }
    }

    /// Offers the moves of a stage, and says so if no others come after them.
    fn offer(
        &self,
        offers: &mut MoveOffers,
        draft: &Draft,
        judgement: &Judgement,
        fuel: u32,
        stage: u32,
    ) {
        let Judgement::Entail(left, succedents) = judgement else {
            offers.is_last = true;
            return;
        };
        let setting = self.setting;
        if stage == 0 {
            return first_stage(offers, &setting, draft, judgement, left, Aim::Entail(fuel));
        }
        let heaps = succedents.heaps();
        match heaps {
            [right] => {
                let sequent = Sequent {
                    setting,
                    judgement,
                    left,
                    right,
                    fuel,
                };
                self.single_stage(offers, &sequent, draft, heaps, stage)
            }
            _ => disjunct_stage(offers, left, heaps, fuel, stage),
        }
    }

    fn entail(
        &self,
        draft: &Draft,
        judgement: &Judgement,
        fuel: u32,
        stage: u32,
    ) -> Result<Stage, OutOfMemory> {
        let mut offers = MoveOffers::new(self.setting.alloc);
        self.offer(&mut offers, draft, judgement, fuel, stage);
        offers.into_stage()
    }
}

/// A cell of the succedent without a partner, if there is one; else cells whose addresses are existentials.
fn push_for_cells(offers: &mut MoveOffers, sequent: &Sequent<'_>, heaps: &[Heap]) {
    match wanted_address(sequent) {
        None => push_addresses(offers, sequent),
        address => push_unfolds(offers, sequent.left, heaps, address, sequent.fuel),
    }
}

fn push_split(offers: &mut MoveOffers, sequent: &Sequent<'_>, heaps: &[Heap]) {
    let Some((t, u)) = wanted_disequation(sequent.right) else {
        return;
    };
    if sequent.fuel > 0 {
        offers.push_rule(Rule::Split(t, u), sequent.less());
    }
    push_unfolds(offers, sequent.left, heaps, None, sequent.fuel)
}

/// Without spatial atoms on the right cells of the left stay for ever.
fn push_without_atoms(offers: &mut MoveOffers, sequent: &Sequent<'_>, heaps: &[Heap]) {
    if !sequent.right.spatial().is_empty() {
        return;
    }
    if is_all_cells(sequent.left) {
        offers.is_last = true;
        return;
    }
    push_unfolds(offers, sequent.left, heaps, None, sequent.fuel)
}

impl Strategy for Entailments<'_> {
    fn stage(
        &mut self,
        draft: &Draft,
        node: u32,
        aim: Aim,
        stage: u32,
    ) -> Result<Stage, OutOfMemory> {
        let alloc = self.setting.alloc;
        let Some(goal) = draft.node(node) else {
            return Ok(no_moves(alloc));
        };
        match aim {
            Aim::Entail(fuel) => self.entail(draft, &goal.judgement, fuel, stage),
            Aim::Deepen(most) | Aim::Aside(most) => deepening(alloc, most, stage),
            Aim::Link(companion) => one_move(alloc, Move::Link(companion)),
            _ => Ok(no_moves(alloc)),
        }
    }
}
