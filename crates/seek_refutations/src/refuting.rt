// The moves of a refutation.
use crate::maps::has_few_maps;
use crate::unfolds::{Unfolding, ordered_unfoldings};
use cyc_basics::memory::OutOfMemory;
use heap_formula::{Heap, Judgement, Positions, Pure, Rule, Spatial, Term};
use rule_table::{antecedent, has_pure};
use seek_engine::{
    Aim, Draft, Entailments, LAST_STAGE, Move, Setting, Stage, Step, Strategy, last_stage,
    mentions, no_moves, one_move, one_rule, search, stage_of,
};
use seek_shapes::{number_of, sides};
use std::alloc::Global;

/// The fuel of each round.
const FUELS: [u32; 10] = [1, 2, 3, 4, 5, 6, 8, 12, 20, 40];

/// The most atoms of which pairs are tried, and all together; of more only single ones.
const MOST_ATOMS: u32 = 12;

/// How many atoms are looked at for one step.
const ATOMS_FOR_STEP: u32 = 2;

/// The stage at which the moves at entailments cut by what a companion says.
const LEMMAS: u32 = LAST_STAGE - 1;

/// The moves of a refutation, over those at entailments.
#[derive(Clone, Copy)]
struct Refutations<'a> {
    setting: Setting<'a>,
    moves: Entailments<'a>,
}

fn contradiction(alloc: Global) -> Result<Heap, OutOfMemory> {
    Heap::from_slices(alloc, &[Pure::Neq(Term::Nil, Term::Nil)], &[])
}

/// Cut of the atoms at these places by a contradiction, which is to be shown with so much fuel.
fn cut(alloc: Global, places: &[u32], fuel: u32) -> Result<Move, OutOfMemory> {
    let places = Positions::from_vec(Vec::from_slice(alloc, places)?);
    let rules = vec![in alloc; Rule::Cut(places, contradiction(alloc)?)]?;
    Ok(Move::Step(Step {
        rules,
        side: Some(Aim::Entail(fuel)),
        aim: Aim::Entail(0),
    }))
}

fn is_predicate_at(heap: &Heap, place: u32) -> bool {
    matches!(heap.spatial_at(place), Some(Spatial::Pred(_, _)))
}

fn push_pairs(
    moves: &mut Vec<Move>,
    alloc: Global,
    first: u32,
    count: u32,
    fuel: u32,
) -> Result<(), OutOfMemory> {
    for second in first.saturating_add(1)..count {
        moves.push(cut(alloc, &[first, second], fuel)?)?;
    }
    Ok(())
}

fn push_all(
    moves: &mut Vec<Move>,
    alloc: Global,
    count: u32,
    fuel: u32,
) -> Result<(), OutOfMemory> {
    let mut places = Vec::new(alloc);
    for place in 0..count {
        places.push(place)?;
    }
    moves.push(cut(alloc, &places, fuel)?)?;
    Ok(())
}

/// A round: single atoms, pairs, all.
fn round(alloc: Global, heap: &Heap, fuel: u32) -> Result<Vec<Move>, OutOfMemory> {
    let mut moves = Vec::new(alloc);
    let count = number_of(heap.spatial().len());
    for place in 0..count {
        if is_predicate_at(heap, place) {
            moves.push(cut(alloc, &[place], fuel)?)?;
        }
    }
    if count > 2 && count <= MOST_ATOMS {
        for first in 0..count {
            push_pairs(&mut moves, alloc, first, count, fuel)?;
        }
    }
    if count != 1 && count <= MOST_ATOMS {
        push_all(&mut moves, alloc, count, fuel)?;
    }
    Ok(moves)
}

fn stands_in(heap: &Heap, term: Term) -> bool {
    for atom in heap.spatial() {
        if mentions(atom, term) {
            return true;
        }
    }
    term == Term::Nil
}

/// The first pure atom that is about nothing that is there, or that stood before.
fn idle(heap: &Heap) -> Option<u32> {
    for (k, atom) in heap.pure().iter().enumerate() {
        let (t, u) = sides(*atom);
        let is_idle = !stands_in(heap, t) || !stands_in(heap, u);
        if is_idle || has_pure(&heap.pure()[..k], *atom) {
            return Some(number_of(k));
        }
    }
    None
}

/// Unfold after all pure atoms were weakened, so that a companion asks for none.
fn bare_unfold(alloc: Global, heap: &Heap, place: u32, aim: Aim) -> Result<Move, OutOfMemory> {
    let mut rules = vec![in alloc; Rule::Weaken(0); heap.pure().len()]?;
    rules.push(Rule::Unfold(place))?;
    Ok(Move::Step(Step {
        rules,
        side: None,
        aim,
    }))
}

/// Unfold after all pure atoms but this one were weakened, so that a companion asks for it alone.
fn unfold_keeping(
    alloc: Global,
    heap: &Heap,
    kept: u32,
    place: u32,
    aim: Aim,
) -> Result<Move, OutOfMemory> {
    let mut rules = vec![in alloc; Rule::Weaken(0); kept as usize]?;
    for _ in kept as usize + 1..heap.pure().len() {
        rules.push(Rule::Weaken(1))?;
    }
    rules.push(Rule::Unfold(place))?;
    Ok(Move::Step(Step {
        rules,
        side: None,
        aim,
    }))
}

/// Whether a move is none that looks for a link among too many maps.
fn is_light(draft: &Draft, bud: &Heap, offered: &Move) -> bool {
    match offered {
        Move::Link(companion) => match draft.node(*companion) {
            Some(node) => has_few_maps(bud, antecedent(&node.judgement)),
            None => false,
        },
        _ => true,
    }
}

impl Refutations<'_> {
    fn unfold(&self, place: u32, fuel: u32) -> Result<Move, OutOfMemory> {
        one_rule(self.setting.alloc, Rule::Unfold(place), Aim::Entail(fuel))
    }

    /// The first atom to be unfolded without a choice that matters: no case is left, or the predicate is not recursive
    /// and at most so many cases are left.
    fn plain(&self, unfoldings: &[Unfolding], most: usize) -> Option<u32> {
        for unfolding in unfoldings {
            if unfolding.cases == 0 {
                return Some(unfolding.place);
            }
        }
        match unfoldings.first() {
            Some(first) if !first.is_recursive && first.cases <= most => Some(first.place),
            _ => None,
        }
    }

    fn forced(&self, heap: &Heap, fuel: u32, most: usize) -> Result<Stage, OutOfMemory> {
        let alloc = self.setting.alloc;
        if let Some(k) = idle(heap) {
            return one_move(alloc, one_rule(alloc, Rule::Weaken(k), Aim::Entail(fuel))?);
        }
        let unfoldings = ordered_unfoldings(alloc, self.setting.defs, heap)?;
        match self.plain(&unfoldings, most) {
            Some(place) => one_move(alloc, self.unfold(place, fuel)?),
            None => Ok(stage_of(Vec::new(alloc))),
        }
    }

    fn singles(&self, heap: &Heap, fuel: u32) -> Result<Stage, OutOfMemory> {
        let alloc = self.setting.alloc;
        let mut moves = Vec::new(alloc);
        if fuel > 0 && heap.spatial().len() > 1 {
            for unfolding in &ordered_unfoldings(alloc, self.setting.defs, heap)? {
                moves.push(cut(alloc, &[unfolding.place], fuel - 1)?)?;
            }
        }
        Ok(stage_of(moves))
    }

    fn unfolds(&self, heap: &Heap, fuel: u32) -> Result<Stage, OutOfMemory> {
        let alloc = self.setting.alloc;
        let mut moves = Vec::new(alloc);
        if fuel > 0 {
            for unfolding in &ordered_unfoldings(alloc, self.setting.defs, heap)? {
                moves.push(self.unfold(unfolding.place, fuel - 1)?)?;
                if !heap.pure().is_empty() {
                    moves.push(bare_unfold(alloc, heap, unfolding.place, Aim::Entail(fuel - 1))?)?;
                }
            }
        }
        Ok(stage_of(moves))
    }

    /// One atom is unfolded, and of the pure atoms that are about it one is kept.
    fn push_narrow_unfolds(
        &self,
        moves: &mut Vec<Move>,
        heap: &Heap,
        unfolding: &Unfolding,
        fuel: u32,
    ) -> Result<(), OutOfMemory> {
        let Some(atom) = heap.spatial_at(unfolding.place) else {
            return Ok(());
        };
        for (k, fact) in heap.pure().iter().enumerate() {
            let (t, u) = sides(*fact);
            if mentions(atom, t) || mentions(atom, u) {
                let aim = Aim::Entail(fuel);
                let kept = number_of(k);
                moves.push(unfold_keeping(self.setting.alloc, heap, kept, unfolding.place, aim)?)?;
            }
        }
        Ok(())
    }

    fn narrow_unfolds(&self, heap: &Heap, fuel: u32) -> Result<Stage, OutOfMemory> {
        let alloc = self.setting.alloc;
        let mut moves = Vec::new(alloc);
        if fuel > 0 && heap.pure().len() > 1 {
            for unfolding in &ordered_unfoldings(alloc, self.setting.defs, heap)? {
                if unfolding.is_recursive {
                    self.push_narrow_unfolds(&mut moves, heap, unfolding, fuel - 1)?;
                }
            }
        }
        Ok(last_stage(moves))
    }

    /// The first look at a node, which costs the more the more atoms there are.
    fn first_look(&self, heap: &Heap, fuel: u32) -> Result<Stage, OutOfMemory> {
        let mut stage = self.forced(heap, fuel, 1)?;
        stage.cost = number_of(heap.spatial().len()) / ATOMS_FOR_STEP;
        Ok(stage)
    }

    /// What closes a node: a rule, or a link.
    fn closing(
        &mut self,
        draft: &Draft,
        node: u32,
        heap: &Heap,
        fuel: u32,
    ) -> Result<Stage, OutOfMemory> {
        let mut stage = self.moves.stage(draft, node, Aim::Entail(fuel), 0)?;
        stage.moves.retain(|offered| is_light(draft, heap, offered));
        Ok(stage)
    }

    fn refute(
        &mut self,
        draft: &Draft,
        node: u32,
        heap: &Heap,
        fuel: u32,
        stage: u32,
    ) -> Result<Stage, OutOfMemory> {
        match stage {
            0 => self.closing(draft, node, heap, fuel),
            1 => self.first_look(heap, fuel),
            2 => self
                .moves
                .stage(draft, node, Aim::Entail(fuel.max(1)), LEMMAS),
            3 => self.forced(heap, fuel, usize::MAX),
            4 => self.singles(heap, fuel),
            5 => self.unfolds(heap, fuel),
            _ => self.narrow_unfolds(heap, fuel),
        }
    }
}

impl Strategy for Refutations<'_> {
    fn stage(
        &mut self,
        draft: &Draft,
        node: u32,
        aim: Aim,
        stage: u32,
    ) -> Result<Stage, OutOfMemory> {
        let alloc = self.setting.alloc;
        let Some(goal) = draft.node(node) else {
            return Ok(no_moves(alloc));
        };
        let heap = antecedent(&goal.judgement);
        match aim {
            Aim::Entail(fuel) => self.refute(draft, node, heap, fuel, stage),
            _ => match FUELS.get(stage as usize) {
                Some(fuel) => Ok(stage_of(round(alloc, heap, *fuel)?)),
                None => Ok(no_moves(alloc)),
            },
        }
    }
}

/// Searches for a contradiction in an entailment's antecedent, in so many steps at most.
pub fn refutation(
    setting: Setting<'_>,
    goal: &Judgement,
    most: u32,
) -> Result<Option<Draft>, OutOfMemory> {
    let mut strategy = Refutations {
        setting,
        moves: Entailments::new(setting),
    };
    let mut draft = Draft::new(setting.alloc, goal)?;
    let outcome = search(&setting, &mut strategy, &mut draft, Aim::Deepen(0), most)?;
    if outcome.is_found {
        Ok(Some(draft))
    } else {
        Ok(None)
    }
}
