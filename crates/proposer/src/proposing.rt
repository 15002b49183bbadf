// The search over choices.
ghost use Rattle.std.specs.Prelude.{◌≤◌, ◌^◌, IfOk, IfSome};
ghost use Rattle.proposer.specs.Proposed.{IsProposed};

use crate::choice::{Choice, Grouped, Work, size_of};
use crate::evaluate::{Far, Outcome, evaluate};
use crate::pool::{Spot, best, holds};
use flow_guess::{Plan, stranded};
use gas_model::{NoMemory, Problem, Setting};
use std::alloc::Global;

// At most so many proposals are made.
const PROPOSALS: u32 = 128;

// What proposing takes at most, in units of a node or an arc that is touched in a round.
const MOST_WORK: u64 = 2_500_000;

// So many changes are looked at, at most.
const CHANGES: u32 = 1 << 20;

// Choices that were tried, all that were seen, and what it took.
#[derive(Drop)]
struct Pool {
    grouped: Grouped,
    spots: Vec<Spot>,
    seen: Vec<Choice>,
    work: Work,
    proposals: u32,
    is_over: bool,
}

// The flows of the spot at a place, to begin with.
fn flows_at(spots: &[Spot], place: Option<usize>) -> Option<&[i64]> {
    let spot = spots.get(place?)?;
    if spot.flows.is_empty() {
        None
    } else {
        Some(&spot.flows)
    }
}

impl Pool {
    // Takes in a choice that is so far off.
    fn take(&mut self, alloc: Global, choice: Choice, far: Far) -> Result<(), NoMemory> {
        if !holds(&self.seen, &choice) {
            self.seen.push(choice.copy(alloc)?)?;
        }
        self.spots.push(Spot::new(alloc, choice, far))?;
        Ok(())
    }

    fn is_spent(&self) -> bool {
        self.is_over || self.proposals >= PROPOSALS || self.work.is_spent()
    }

    // Proposes a setting for a choice; the setting, where it is near.
    fn try_choice(
        &mut self,
        alloc: Global,
        p: &Problem,
        plan: &Plan,
        tol: u64,
        choice: Choice,
        from: Option<usize>,
    ) -> Result<Option<Setting>, NoMemory>
        requires { tol ≤ 10 ^ 16 }
        ensures { IfOk result (λ o. IfSome o (IsProposed p.now tol)) }
    {
        let mut choice = choice;
        self.proposals = self.proposals.saturating_add(1);
        self.seen.push(choice.copy(alloc)?)?;
        let warm = flows_at(&self.spots, from);
        match evaluate(alloc, p, plan, tol, &mut choice, warm, &mut self.work)? {
            Outcome::Near(setting) => Ok(Some(setting)),
            Outcome::Far(far) => {
                self.take(alloc, choice, far)?;
                Ok(None)
            }
        }
    }

    // The next choice of the best spot, where it wasn't seen and strands no more supply.
    fn next_choice(
        &mut self,
        alloc: Global,
        p: &Problem,
        place: usize,
    ) -> Result<Option<Choice>, NoMemory> {
        let Some(spot) = self.spots.get_mut(place) else {
            return Ok(None);
        };
        let Some(change) = spot.next(alloc, p, &self.grouped, &mut self.work)? else {
            return Ok(None);
        };
        let next = change.made(alloc, p, &self.grouped, &spot.choice)?;
        let most = spot.score.stranded;
        self.work.take(size_of(p) / 2);
        if holds(&self.seen, &next) || stranded(alloc, p, &next.states)? > most {
            return Ok(None);
        }
        Ok(Some(next))
    }

    // Tries the next change of the best spot; the setting, where one is near.
    fn turn(
        &mut self,
        alloc: Global,
        p: &Problem,
        plan: &Plan,
        tol: u64,
    ) -> Result<Option<Setting>, NoMemory>
        requires { tol ≤ 10 ^ 16 }
        ensures { IfOk result (λ o. IfSome o (IsProposed p.now tol)) }
    {
        let Some(place) = best(&self.spots) else {
            self.is_over = true;
            return Ok(None);
        };
        match self.next_choice(alloc, p, place)? {
            Some(choice) => self.try_choice(alloc, p, plan, tol, choice, Some(place)),
            None => Ok(None),
        }
    }

    fn run(
        &mut self,
        alloc: Global,
        p: &Problem,
        plan: &Plan,
        tol: u64,
    ) -> Result<Option<Setting>, NoMemory>
        requires { tol ≤ 10 ^ 16 }
        ensures { IfOk result (λ o. IfSome o (IsProposed p.now tol)) }
    {
        let first = Choice::first(alloc, p, &self.grouped, &mut self.work)?;
        if let Some(setting) = self.try_choice(alloc, p, plan, tol, first, None)? {
            return Ok(Some(setting));
        }
        for _ in 0..CHANGES {
            if self.is_spent() {
                break;
            }
            if let Some(setting) = self.turn(alloc, p, plan, tol)? {
                return Ok(Some(setting));
            }
        }
        Ok(None)
    }
}

/// Proposes whole settings for a problem, at most 128 and for at most 2,500,000 units of work, where a unit is a node or an arc
/// that is touched in a round of flows. A setting is answered where it fits the problem and is near within `tol`, in Pa^2, up
/// to 10^16; none says nothing. The same problem and tolerance have the same answer.
pub fn propose(alloc: Global, p: &Problem, tol: u64) -> Result<Option<Setting>, NoMemory>
    requires { tol ≤ 10 ^ 16 }
    ensures { IfOk result (λ o. IfSome o (IsProposed p.now tol)) }
{
    let plan = Plan::of(alloc, p, tol as i64)?;
    let mut pool = Pool {
        grouped: Grouped::of(alloc, p)?,
        spots: Vec::new(alloc),
        seen: Vec::new(alloc),
        work: Work {
            done: 0,
            most: MOST_WORK,
        },
        proposals: 0,
        is_over: false,
    };
    pool.run(alloc, p, &plan, tol)
}
