// Choices that were tried, and which of their changes are left.
use crate::choice::{Choice, Grouped, Work};
use crate::evaluate::{Far, Score};
use crate::moves::{Move, moves_of};
use clamped::index_at;
use gas_model::{NoMemory, Problem};
use std::alloc::Global;

/// A choice that was tried, with its flows, the arcs to blame, how many of them were gone into, and the changes of the last of
/// these that are left.
#[derive(Drop)]
pub struct Spot {
    pub choice: Choice,
    pub score: Score,
    pub flows: Vec<i64>,
    blame: Vec<u32>,
    at: usize,
    moves: Vec<Move>,
}

impl Spot {
    /// A choice that is so far off, and of which no change was tried.
    pub fn new(alloc: Global, choice: Choice, far: Far) -> Spot {
        let Far {
            score,
            flows,
            blame,
        } = far;
        Spot {
            choice,
            score,
            flows,
            blame,
            at: 0,
            moves: Vec::new(alloc),
        }
    }

    fn is_open(&self) -> bool {
        self.at < self.blame.len() || !self.moves.is_empty()
    }

    /// The next change that is left.
    pub fn next(
        &mut self,
        alloc: Global,
        p: &Problem,
        grouped: &Grouped,
        work: &mut Work,
    ) -> Result<Option<Move>, NoMemory> {
        for _ in self.at..self.blame.len() {
            if !self.moves.is_empty() {
                break;
            }
            let arc = index_at(&self.blame, self.at);
            self.at = self.at.saturating_add(1);
            self.moves = moves_of(alloc, p, grouped, &self.choice, work, arc)?;
        }
        Ok(self.moves.pop())
    }
}

/// The place of the best spot that has changes left.
pub fn best(pool: &[Spot]) -> Option<usize> {
    let mut best: Option<(Score, usize)> = None;
    for (i, spot) in pool.iter().enumerate() {
        let is_better = match &best {
            Some((score, _)) => spot.score < *score,
            None => true,
        };
        if is_better && spot.is_open() {
            best = Some((spot.score, i));
        }
    }
    let (_, place) = best?;
    Some(place)
}

/// Whether a choice is among these.
pub fn holds(choices: &[Choice], choice: &Choice) -> bool {
    choices.iter().any(|seen| seen == choice)
}
