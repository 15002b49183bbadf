// The flows of a choice of states.
use crate::fixing::fix;
use crate::net::Net;
use crate::plan::Plan;
use crate::rounds::{Given, Sheet};
use crate::way::{Way, flow_bounds};
use clamped::{number_at, put_number, root_below};
use gas_model::{ArcState, NoMemory, Problem};
use std::alloc::Global;

// How often arcs are changed that carry flow past their bounds.
const FIXES: u32 = 6;

// A few rounds show which arcs run past their bounds.
const FEW_ROUNDS: u32 = 6;

/// As many rounds as flows are given to come near.
pub const ROUNDS: u32 = 20;

// The pressure in Pa near which a constant loss is taken to work at first.
const FIRST_LEVEL: i64 = 5_000_000;

/// Flows that balance the supplies, and how arcs take part.
#[derive(Debug, Drop)]
pub struct Guess {
    pub ways: Vec<Way>,
    pub flows: Vec<i64>,
    pub net: Net,
    /// What it took so far, in units of a node or an arc that is touched in a round.
    pub work: u64,
    supplies: Vec<i64>,
    levels: Vec<i64>,
    sheet: Sheet,
}

fn ways_of(alloc: Global, p: &Problem, states: &[ArcState]) -> Result<Vec<Way>, NoMemory> {
    let mut ways = Vec::new(alloc);
    for (row, state) in p.arcs().iter().zip(states.iter()) {
        ways.push(Way::of(&row.kind, *state))?;
    }
    Ok(ways)
}

fn first_flows(alloc: Global, p: &Problem, warm: Option<&[i64]>) -> Result<Vec<i64>, NoMemory> {
    match warm {
        Some(flows) => Ok(flows.to_vec(alloc)?),
        None => Ok(vec![in alloc; 0i64; p.arcs().len()]?),
    }
}

impl Guess {
    /// The flows of a choice of states, from those of another one where they are given. Arcs that carry flow past their
    /// bounds are changed, as far as the picks allow it.
    pub fn of(
        alloc: Global,
        p: &Problem,
        plan: &Plan,
        picks: &[u32],
        states: &mut [ArcState],
        supplies: Vec<i64>,
        warm: Option<&[i64]>,
    ) -> Result<Guess, NoMemory> {
        let ways = ways_of(alloc, p, states)?;
        let net = Net::of(alloc, p, plan, &ways)?;
        let sheet = Sheet::new(alloc, p, &net)?;
        let mut guess = Guess {
            ways,
            flows: first_flows(alloc, p, warm)?,
            net,
            work: 0,
            supplies,
            levels: vec![in alloc; FIRST_LEVEL; p.arcs().len()]?,
            sheet,
        };
        guess.stop_idle(p, states);
        guess.settle(alloc, p, plan, picks, states, warm.is_none())?;
        Ok(guess)
    }

    // The flow of an arc that the rounds don't tell: none, or the least that its bounds ask for.
    fn idle_flow(&self, p: &Problem, states: &[ArcState], arc: usize) -> Option<i64> {
        let (Some(way), Some(row), Some(state)) = (
            self.ways.get(arc),
            p.arcs().get(arc),
            states.get(arc),
        ) else {
            return Some(0);
        };
        if way.is_dead() {
            return Some(0);
        }
        if self.net.forest.has(arc) || !self.is_within_place(p, arc) {
            return None;
        }
        let (low, high) = flow_bounds(row, *state);
        Some(low.max(0).min(high))
    }

    // Arcs that carry nothing, or whose flow is free, take none.
    fn stop_idle(&mut self, p: &Problem, states: &[ArcState]) {
        for arc in 0..p.arcs().len() {
            if let Some(flow) = self.idle_flow(p, states, arc) {
                put_number(&mut self.flows, arc, flow);
            }
        }
    }

    // Whether both ends of an arc are at one place.
    fn is_within_place(&self, p: &Problem, arc: usize) -> bool {
        match p.arcs().get(arc) {
            Some(row) => self.net.place_of(row.from) == self.net.place_of(row.to),
            None => true,
        }
    }

    // At most so many rounds; whether the flows come near enough.
    fn rounds(&mut self, p: &Problem, plan: &Plan, blank: bool, most: u32) -> bool {
        let given = Given {
            supplies: &self.supplies,
            levels: &self.levels,
            ways: &self.ways,
        };
        let (done, made) = self
            .sheet
            .run(p, plan, &self.net, given, &mut self.flows, blank, most);
        let size = (p.nodes().len() as u64).saturating_add(p.arcs().len() as u64);
        let each = self.net.mesh.work().saturating_add(size.saturating_mul(2));
        self.work = self
            .work
            .saturating_add(each.saturating_mul(u64::from(made)));
        done
    }

    // Builds the network anew after arcs were changed.
    fn renew(
        &mut self,
        alloc: Global,
        p: &Problem,
        plan: &Plan,
        states: &[ArcState],
    ) -> Result<(), NoMemory> {
        self.net = Net::of(alloc, p, plan, &self.ways)?;
        self.sheet = Sheet::new(alloc, p, &self.net)?;
        self.stop_idle(p, states);
        Ok(())
    }

    // Changes arcs that carry flow past their bounds; whether there was one.
    fn mend(
        &mut self,
        alloc: Global,
        p: &Problem,
        plan: &Plan,
        picks: &[u32],
        states: &mut [ArcState],
    ) -> Result<bool, NoMemory> {
        let (tried, changed) = fix(alloc, p, picks, states, &mut self.ways, &self.flows)?;
        let size = (p.nodes().len() as u64).saturating_add(p.arcs().len() as u64);
        self.work = self
            .work
            .saturating_add(size.saturating_mul(u64::from(tried)));
        if changed {
            self.renew(alloc, p, plan, states)?;
        }
        Ok(changed)
    }

    // Rounds, and one more time where they end with arcs that were changed.
    fn settle(
        &mut self,
        alloc: Global,
        p: &Problem,
        plan: &Plan,
        picks: &[u32],
        states: &mut [ArcState],
        blank: bool,
    ) -> Result<(), NoMemory> {
        let mut blank = blank;
        for _ in 1..FIXES {
            let done = self.rounds(p, plan, blank, FEW_ROUNDS);
            blank = false;
            if self.mend(alloc, p, plan, picks, states)? {
                continue;
            }
            if done {
                return Ok(());
            }
            self.rounds(p, plan, blank, ROUNDS);
            if !self.mend(alloc, p, plan, picks, states)? {
                return Ok(());
            }
        }
        self.rounds(p, plan, blank, ROUNDS);
        Ok(())
    }

    /// Whether a constant loss carries flow.
    pub fn has_losses(&self) -> bool {
        self.ways.iter().any(|way| *way == Way::Loss)
    }

    // Takes each constant loss to work near the lower of the squares at its ends.
    fn put_levels(&mut self, p: &Problem, squares: &[i64]) {
        for (arc, row) in p.arcs().iter().enumerate() {
            let from = number_at(squares, row.from as usize);
            let to = number_at(squares, row.to as usize);
            put_number(&mut self.levels, arc, root_below(from.min(to), 1));
        }
    }

    /// More rounds, where constant losses work near the pressures of these squares.
    pub fn improve(&mut self, p: &Problem, plan: &Plan, squares: &[i64]) {
        self.put_levels(p, squares);
        self.rounds(p, plan, false, ROUNDS);
    }
}
