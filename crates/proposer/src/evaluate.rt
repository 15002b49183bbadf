// Proposals: a setting for a choice, and what it breaks.
ghost use Rattle.std.specs.Prelude.{◌≤◌, ◌^◌, IfOk};
ghost use Rattle.proposer.specs.Outcomes.{IsOutcome};

use crate::blame::Blame;
use crate::choice::{Choice, Work, size_of};
use crate::fitting::judged;
use clamped::{difference, index_of, number_at, portion, sum};
use flow_guess::{Guess, Plan, Supply, flow_bounds, joined};
use gas_model::{ArcState, NoMemory, Problem, Setting};
use square_guess::Squares;
use star_mesh::Parts;
use std::alloc::Global;

// So often constant losses are put near the pressures that they work at.
const LEVELS: u32 = 12;

// 60 bar squared stand against the supply of 16 typical nodes.
const SQUARE_OF_FLOW: i64 = 36_000_000_000_000 / 16;

/// How bad a proposal is: the supply that is stranded in l/h, which counts most, and then how far squares and flows exceed
/// their bounds, in Pa^2.
#[derive(Clone, Copy, Debug, PartialEq, Eq, PartialOrd, Ord)]
pub struct Score {
    pub stranded: i64,
    pub excess: i64,
}

/// What a proposal comes to: a setting that is near, or how far it is from one.
#[derive(Drop)]
pub enum Outcome {
    Near(Setting),
    Far(Far),
}

/// A proposal that isn't near: how bad it is, its flows, and the arcs to blame.
#[derive(Drop)]
pub struct Far {
    pub score: Score,
    pub flows: Vec<i64>,
    pub blame: Vec<u32>,
}

// An arc whose flow strays, by so much in l/h.
#[derive(Clone, Copy, Debug, PartialEq, Eq, PartialOrd, Ord)]
struct Stray {
    by: i64,
    arc: u32,
}

fn strays(
    alloc: Global,
    p: &Problem,
    states: &[ArcState],
    flows: &[i64],
) -> Result<Vec<Stray>, NoMemory> {
    let mut list = Vec::new(alloc);
    for (arc, (row, state)) in p.arcs().iter().zip(states.iter()).enumerate() {
        let flow = number_at(flows, arc);
        let (low, high) = flow_bounds(row, *state);
        let by = difference(low, flow).max(difference(flow, high));
        if by > 0 {
            let arc = index_of(arc);
            list.push(Stray { by, arc })?;
        }
    }
    list.sort_unstable();
    list.reverse();
    Ok(list)
}

fn total(strays: &[Stray]) -> i64 {
    let mut total = 0;
    for stray in strays {
        total = sum(total, stray.by);
    }
    total
}

fn blame_strays(p: &Problem, strays: &[Stray], blame: &mut Blame) -> Result<(), NoMemory> {
    for stray in strays {
        blame.add(p, stray.arc)?;
    }
    Ok(())
}

// The squares for the flows, where constant losses are put near the pressures that they work at.
fn squares_of(
    alloc: Global,
    p: &Problem,
    plan: &Plan,
    guess: &mut Guess,
) -> Result<Squares, NoMemory> {
    let tol = plan.tol;
    let mut squares = Squares::of(alloc, p, guess, tol)?;
    let mut before = i64::MAX;
    for _ in 0..LEVELS {
        if squares.by_losses == 0 || squares.by_losses >= before {
            break;
        }
        before = squares.by_losses;
        guess.improve(p, plan, &squares.squares);
        squares = Squares::of(alloc, p, guess, tol)?;
    }
    Ok(squares)
}

// How far a choice is off that strands supply: it has no flows.
fn stranding(
    alloc: Global,
    p: &Problem,
    parts: &Parts,
    supply: &Supply,
    states: &[ArcState],
) -> Result<Far, NoMemory> {
    let mut blame = Blame::new(alloc, p)?;
    blame.blame_stranded(p, parts, supply, states)?;
    let Blame { arcs, .. } = blame;
    let score = Score {
        stranded: supply.stranded(),
        excess: 0,
    };
    Ok(Far {
        score,
        flows: Vec::new(alloc),
        blame: arcs,
    })
}

// How far flows and squares are off.
fn straying(
    alloc: Global,
    p: &Problem,
    plan: &Plan,
    choice: &Choice,
    guess: Guess,
    squares: &Squares,
    work: &mut Work,
) -> Result<Far, NoMemory> {
    let strays = strays(alloc, p, &choice.states, &guess.flows)?;
    let mut blame = Blame::new(alloc, p)?;
    blame_strays(p, &strays, &mut blame)?;
    if squares.excess > 0 {
        blame.blame_squares(alloc, p, &guess, squares, work)?;
    }
    let flow = portion(total(&strays), SQUARE_OF_FLOW, plan.typical);
    let score = Score {
        stranded: 0,
        excess: sum(squares.excess, flow),
    };
    let Guess { flows, .. } = guess;
    let Blame { arcs, .. } = blame;
    Ok(Far {
        score,
        flows,
        blame: arcs,
    })
}

/// Proposes a setting for a choice, whose states may change, from the flows of another proposal where they are given.
pub fn evaluate(
    alloc: Global,
    p: &Problem,
    plan: &Plan,
    tol: u64,
    choice: &mut Choice,
    warm: Option<&[i64]>,
    work: &mut Work,
) -> Result<Outcome, NoMemory>
    requires { tol ≤ 10 ^ 16 }
    ensures { IfOk result (IsOutcome p.now tol) }
{
    work.take(size_of(p));
    let parts = joined(alloc, p, &choice.states)?;
    let supply = Supply::of(alloc, p, &parts)?;
    if supply.stranded() > 0 {
        let far = stranding(alloc, p, &parts, &supply, &choice.states)?;
        return Ok(Outcome::Far(far));
    }
    let supplies = supply.balanced(alloc, p, &parts)?;
    let mut guess = Guess::of(
        alloc,
        p,
        plan,
        &choice.picks,
        &mut choice.states,
        supplies,
        warm,
    )?;
    let squares = squares_of(alloc, p, plan, &mut guess)?;
    work.take(guess.work);
    match judged(alloc, p, choice, &guess.flows, &squares.squares, tol)? {
        Some(setting) => Ok(Outcome::Near(setting)),
        None => {
            let far = straying(alloc, p, plan, choice, guess, &squares, work)?;
            Ok(Outcome::Far(far))
        }
    }
}
