// The states that runs from one state reach.
use crate::choosing::{Addresses, Offer, offers};
use crate::ends::{breaks, compared_at};
use crate::faulty_runs::{Finish, Tail, fields_of, made_picks, number_of};
use cyc_basics::memory::OutOfMemory;
use general_models::runs::{Ending, Pick};
use goto_lang::{Config, Program, Stepped, step};
use heap_formula::{Command, Disjuncts};
use indexmap::IndexSet;
use pred_defs::Defs;
use std::alloc::Global;

/// The headroom of all runs, and the greatest number in a state.
const HEADROOM: u64 = 4_294_967_296;

const GREATEST: u64 = 4_611_686_018_427_387_904;

/// The work that it takes to reach a state, and to ask whether it breaks an end.
const WORK_PER_STATE: u32 = 5;

const WORK_PER_END: u32 = 50;

/// The most states of which it is asked whether they break an end.
const MOST_ENDS: u32 = 100;

/// Above this no numbers of states and steps are told.
pub const MOST_COUNT: usize = 1_000_000_000;

/// A step to the state with this number.
#[derive(Drop)]
pub struct RunStep {
    pub target: usize,
    pub pick: Option<Pick>,
}

/// A state that was reached: by this pick from the state with this number, after so many steps. `steps` lead on from
/// it.
#[derive(Drop)]
pub struct Visit {
    pub config: Config,
    pub from: usize,
    pick: Option<Pick>,
    pub depth: u32,
    deviations: u32,
    pub steps: Vec<RunStep>,
}

/// States breadth first, each once, with their steps; the pairs of values that were compared and differ; of how many
/// states it was asked whether they break an end; and whether a state, a pick or such a question was left out.
#[derive(Drop)]
pub struct Exploration<'a> {
    alloc: Global,
    defs: &'a Defs,
    program: &'a Program,
    keys: IndexSet<Vec<u64>>,
    pub visits: Vec<Visit>,
    addresses: Addresses,
    deviations: u32,
    pub compared: Vec<(u64, u64)>,
    ends: u32,
    pub is_cut: bool,
}

/// A state as numbers.
fn key_of(alloc: Global, config: &Config) -> Result<Vec<u64>, OutOfMemory> {
    let mut key = vec![in alloc; u64::from(config.line)]?;
    key.extend_from_slice(config.stack.as_slice())?;
    for address in &config.heap.addresses(alloc)? {
        key.push(*address)?;
        if let Some(fields) = config.heap.get(*address) {
            key.push(fields.len() as u64)?;
            key.extend_from_slice(fields)?;
        }
    }
    Ok(key)
}

impl<'a> Exploration<'a> {
    /// The first state alone. Of the picks on a way at most so many parts are not the usual ones.
    pub fn new(
        alloc: Global,
        defs: &'a Defs,
        program: &'a Program,
        first: Config,
        addresses: Addresses,
        deviations: u32,
    ) -> Result<Exploration<'a>, OutOfMemory> {
        let mut keys = IndexSet::new(alloc);
        keys.insert(key_of(alloc, &first)?)?;
        let visit = Visit {
            config: first,
            from: 0,
            pick: None,
            depth: 0,
            deviations: 0,
            steps: Vec::new(alloc),
        };
        Ok(Exploration {
            alloc,
            defs,
            program,
            keys,
            visits: vec![in alloc; visit]?,
            addresses,
            deviations,
            compared: Vec::new(alloc),
            ends: 0,
            is_cut: false,
        })
    }

    /// How many states were reached.
    pub fn count(&self) -> u32 {
        self.visits.len().min(MOST_COUNT) as u32
    }

    /// How much work it was.
    pub fn work(&self) -> u32 {
        let states = self.count().saturating_mul(WORK_PER_STATE);
        states.saturating_add(self.ends.saturating_mul(WORK_PER_END))
    }

    /// The picks on the way to a state.
    pub fn picks_to(&self, number: usize) -> Result<Vec<Pick>, OutOfMemory> {
        let mut picks = Vec::new(self.alloc);
        let mut at = number;
        for _ in 0..self.visits.len() {
            let Some(visit) = self.visits.get(at) else {
                break;
            };
            picks.push(visit.pick.clone()?)?;
            at = visit.from;
        }
        picks.reverse();
        made_picks(self.alloc, &picks)
    }

    /// What a step comes to.
    fn stepped(&self, config: &Config, pick: &Option<Pick>) -> Result<Stepped, OutOfMemory> {
        if !config.is_state_of(self.program) || config.greatest() > GREATEST {
            return Ok(Stepped::BadPick);
        }
        let alloc = self.alloc;
        match pick {
            Some(pick) => {
                let number = number_of(pick);
                step(
                    alloc,
                    self.program,
                    config,
                    HEADROOM,
                    number,
                    fields_of(pick),
                )
            }
            None => step(alloc, self.program, config, HEADROOM, 0, &[]),
        }
    }

    /// The command at a state; there is none past the last line.
    fn command(&self, config: &Config) -> Option<&'a Command> {
        let place = (config.line as usize).saturating_sub(1);
        self.program.lines().get(place)
    }

    fn note_compared(&mut self, number: usize) -> Result<(), OutOfMemory> {
        let Some(visit) = self.visits.get(number) else {
            return Ok(());
        };
        let Some(command) = self.command(&visit.config) else {
            return Ok(());
        };
        for pair in compared_at(self.alloc, &visit.config, command)? {
            if !self.compared.contains(&pair) {
                self.compared.push(pair)?;
            }
        }
        Ok(())
    }

    /// Adds a state, unless it is there, and a step to it.
    fn reach(&mut self, number: usize, offer: Offer, config: Config) -> Result<(), OutOfMemory> {
        let (target, is_new) = self.keys.insert_full(key_of(self.alloc, &config)?)?;
        let pick = offer.pick.clone()?;
        let Some(visit) = self.visits.get_mut(number) else {
            return Ok(());
        };
        visit.steps.push(RunStep { target, pick })?;
        let depth = visit.depth.saturating_add(1);
        if is_new {
            self.visits.push(Visit {
                config,
                from: number,
                pick: offer.pick,
                depth,
                deviations: offer.deviations,
                steps: Vec::new(self.alloc),
            })?;
        }
        Ok(())
    }

    /// Makes the step with an offer; whether it is a fault.
    fn take(&mut self, number: usize, mut offer: Offer) -> Result<bool, OutOfMemory> {
        let Some(visit) = self.visits.get(number) else {
            return Ok(false);
        };
        offer.deviations = offer.deviations.saturating_add(visit.deviations);
        if offer.deviations > self.deviations {
            self.is_cut = true;
            return Ok(false);
        }
        match self.stepped(&visit.config, &offer.pick)? {
            Stepped::Fault => Ok(true),
            Stepped::To(config) => {
                self.reach(number, offer, config)?;
                Ok(false)
            }
            Stepped::Stop | Stepped::BadPick => Ok(false),
        }
    }

    fn offers_at(&self, number: usize) -> Result<Vec<Offer>, OutOfMemory> {
        let Some(visit) = self.visits.get(number) else {
            return Ok(Vec::new(self.alloc));
        };
        match self.command(&visit.config) {
            Some(command) => offers(self.alloc, &visit.config, command, self.addresses),
            None => Ok(Vec::new(self.alloc)),
        }
    }

    /// The end of a state's line, if that is a `stop` with one.
    fn end_at(&self, number: usize) -> Option<&'a Disjuncts> {
        match self.command(&self.visits.get(number)?.config) {
            Some(Command::Ends(ends)) => Some(ends),
            _ => None,
        }
    }

    /// Whether it is found out that the run stops at a state and breaks the end there.
    fn breaks_end(&mut self, number: usize) -> Result<bool, OutOfMemory> {
        let Some(ends) = self.end_at(number) else {
            return Ok(false);
        };
        if self.ends >= MOST_ENDS {
            self.is_cut = true;
            return Ok(false);
        }
        self.ends += 1;
        match self.visits.get(number) {
            Some(visit) => breaks(self.alloc, self.defs, &visit.config, ends),
            None => Ok(false),
        }
    }

    /// The run to a state, and how it ends there.
    fn tail(&self, number: usize, finish: Finish) -> Result<Option<Tail>, OutOfMemory> {
        Ok(Some(Tail {
            picks: self.picks_to(number)?,
            finish,
        }))
    }

    fn depth(&self, number: usize) -> u32 {
        match self.visits.get(number) {
            Some(visit) => visit.depth,
            None => 0,
        }
    }

    /// Makes the steps of a state; a run that faults or breaks an end there, if there is one.
    fn visit(&mut self, number: usize) -> Result<Option<Tail>, OutOfMemory> {
        let depth = self.depth(number);
        self.note_compared(number)?;
        if self.breaks_end(number)? {
            return self.tail(number, Finish::BreaksEnd(depth));
        }
        for offer in self.offers_at(number)? {
            if self.take(number, offer)? {
                return self.tail(number, Finish::Refutes(Ending::FaultAfter(depth)));
            }
        }
        Ok(None)
    }

    /// Goes on until so many states were reached; a run that faults or breaks an end, if there is one.
    pub fn failure(&mut self, most: usize) -> Result<Option<Tail>, OutOfMemory> {
        for number in 0..most {
            if number >= self.visits.len() {
                return Ok(None);
            }
            let tail = self.visit(number)?;
            if tail.is_some() {
                return Ok(tail);
            }
        }
        self.is_cut = true;
        Ok(None)
    }
}
