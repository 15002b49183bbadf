// Which arcs are to blame for what a proposal breaks.
use crate::choice::{Work, kind_of};
use crate::climb::Climb;
use clamped::{flag_at, index_of, put_flag};
use flow_guess::{Guess, Supply, Way};
use gas_model::{ArcState, NoMemory, Problem, states_of};
use square_guess::{Clash, Squares};
use star_mesh::Parts;
use std::alloc::Global;

// So many parts that exceed their caps are looked into, the worst first.
const CLASHES: usize = 4;

/// Arcs with choices, each once, the likeliest to blame first.
#[derive(Debug, Drop)]
pub struct Blame {
    pub arcs: Vec<u32>,
    seen: Vec<bool>,
    // The arcs on a path between a node that pulls up and the one that caps.
    marked: Vec<bool>,
}

fn has_choices(p: &Problem, arc: u32) -> bool {
    let kind = kind_of(p, arc);
    states_of(&kind).len() > 1
}

impl Blame {
    /// Nobody yet.
    pub fn new(alloc: Global, p: &Problem) -> Result<Blame, NoMemory> {
        let count = p.arcs().len();
        Ok(Blame {
            arcs: Vec::new(alloc),
            seen: vec![in alloc; false; count]?,
            marked: vec![in alloc; false; count]?,
        })
    }

    /// Blames an arc.
    pub fn add(&mut self, p: &Problem, arc: u32) -> Result<(), NoMemory> {
        if has_choices(p, arc) && !flag_at(&self.seen, arc as usize) {
            put_flag(&mut self.seen, arc as usize, true);
            self.arcs.push(arc)?;
        }
        Ok(())
    }

    /// Blames arcs.
    pub fn add_all(&mut self, p: &Problem, arcs: &[u32]) -> Result<(), NoMemory> {
        for arc in arcs {
            self.add(p, *arc)?;
        }
        Ok(())
    }

    fn mark(&mut self, arcs: &[u32]) {
        for arc in arcs {
            put_flag(&mut self.marked, *arc as usize, true);
        }
    }

    fn is_marked(&self, arcs: &[u32]) -> bool {
        arcs.iter().any(|arc| flag_at(&self.marked, *arc as usize))
    }

    // The path between the node that pulls up and the one that caps, and the arc that raised the part.
    fn blame_clash(
        &mut self,
        alloc: Global,
        p: &Problem,
        climb: &Climb,
        clash: Clash,
    ) -> Result<(), NoMemory> {
        let (Some(low), Some(high)) = (clash.low, clash.high) else {
            return Ok(());
        };
        let path = climb.path(alloc, high, low)?;
        self.add_all(p, &path)?;
        self.mark(&path);
        match clash.pulled_by {
            Some(arc) => self.add(p, arc),
            None => Ok(()),
        }
    }

    fn blame_clashes(
        &mut self,
        alloc: Global,
        p: &Problem,
        climb: &Climb,
        clashes: &[Clash],
    ) -> Result<(), NoMemory> {
        for clash in clashes.iter().take(CLASHES) {
            self.blame_clash(alloc, p, climb, *clash)?;
        }
        Ok(())
    }

    // An arc outside of the forest, where its loop has a marked arc; and the arcs of the loop.
    fn blame_loop(
        &mut self,
        alloc: Global,
        p: &Problem,
        guess: &Guess,
        climb: &Climb,
        arc: u32,
    ) -> Result<u64, NoMemory> {
        let Some(row) = p.arcs().get(arc as usize) else {
            return Ok(0);
        };
        let path = climb.path(alloc, row.from, row.to)?;
        if self.is_marked(&path) {
            self.add(p, arc)?;
            if guess.ways.get(arc as usize) != Some(&Way::Shut) {
                self.add_all(p, &path)?;
            }
        }
        Ok(path.len() as u64)
    }

    fn blame_loops(
        &mut self,
        alloc: Global,
        p: &Problem,
        guess: &Guess,
        climb: &Climb,
        work: &mut Work,
    ) -> Result<(), NoMemory> {
        for arc in 0..index_of(p.arcs().len()) {
            if !guess.net.forest.has(arc as usize) && has_choices(p, arc) {
                work.take(self.blame_loop(alloc, p, guess, climb, arc)?);
            }
        }
        Ok(())
    }

    fn blame_missed(&mut self, p: &Problem, squares: &Squares) -> Result<(), NoMemory> {
        for missed in &squares.missed {
            self.add(p, missed.arc)?;
        }
        Ok(())
    }

    /// Blames the arcs that act on squares which exceed their caps or miss a law.
    pub fn blame_squares(
        &mut self,
        alloc: Global,
        p: &Problem,
        guess: &Guess,
        squares: &Squares,
        work: &mut Work,
    ) -> Result<(), NoMemory> {
        let climb = Climb::of(alloc, &guess.net.forest, p.nodes().len())?;
        let clashes = worst_first(alloc, &squares.clashes)?;
        self.blame_clashes(alloc, p, &climb, &clashes)?;
        self.blame_missed(p, squares)?;
        self.blame_loops(alloc, p, guess, &climb, work)
    }

    /// Blames the shut arcs at the edges of parts whose supplies can't be balanced.
    pub fn blame_stranded(
        &mut self,
        p: &Problem,
        parts: &Parts,
        supply: &Supply,
        states: &[ArcState],
    ) -> Result<(), NoMemory> {
        for (arc, row) in p.arcs().iter().enumerate() {
            let (x, y) = (parts.of(row.from), parts.of(row.to));
            let is_shut = states.get(arc) == Some(&ArcState::Shut);
            if is_shut && x != y && (supply.is_stranded(x) || supply.is_stranded(y)) {
                self.add(p, index_of(arc))?;
            }
        }
        Ok(())
    }
}

fn worst_first(alloc: Global, clashes: &[Clash]) -> Result<Vec<Clash>, NoMemory> {
    let mut sorted = clashes.to_vec(alloc)?;
    sorted.sort_unstable_by_key(|clash| clash.excess);
    sorted.reverse();
    Ok(sorted)
}
