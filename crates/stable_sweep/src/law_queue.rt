// The laws that wait, by their slots.
ghost use Rattle.std.specs.Prelude.{◌≡◌, ◌<◌, true, [], IfOk, MatchOption};
ghost use Rattle.link_queue.specs.Queue.{holds, IsQueue};
ghost use Rattle.stable_sweep.specs.Waiting.{KeepsHeld, NoneFrom, IsFirstFrom, IsFew, IsTaken};

use gas_model::NoMemory;
use link_queue::LinkQueue;
use std::alloc::Global;
use std::marker::Model;

/// Laws that wait, each in its slot below a size. In the first round they are taken in the order of their slots. A law that
/// is put in after its turn in that round is taken behind the round, in the order in which such laws were put in.
/// It stands for the queue that holds all laws at first, without those that are known to have nothing to do.
#[derive(Drop)]
pub struct LawQueue {
    size: u32,
    turn: u32,
    round: LinkQueue,
    later: LinkQueue,
}

impl Model for LawQueue {
    ghost use Rattle.std.specs.Prelude.{◌++◌};
    ghost use Rattle.link_queue.specs.Queue.{Queue};
    ghost use Rattle.stable_sweep.specs.Waiting.{IsInRounds};

    ghost Value = { Queue };

    ghost view = { λ q. record { size = q.size; held = q.round.held ++ q.later.held } };

    ghost invariant = { λ q. IsInRounds q.size q.turn q.round q.later };
}

// An empty queue over this many slots.
fn no_slots(alloc: Global, size: u32) -> Result<LinkQueue, NoMemory>
    ensures empty { IfOk result (λ q. (q.size ≡ size) × (q.held ≡ [])) }
    ensures queue { IfOk result IsQueue }
{
    match LinkQueue::new(alloc, size) {
        Ok(queue) => Ok(queue),
        Err(_) => Err(NoMemory),
    }
}

// Takes all slots out.
fn emptied(queue: &mut LinkQueue)
    ensures size { queue.new.size ≡ queue.old.size }
    ensures queue { IsQueue queue.new }
    ensures none { queue.new.held ≡ [] }
{
    'drain: while queue.pop_front().is_some() {}
}

// The first slot from `turn` on that is held.
fn first_from(round: &LinkQueue, turn: u32, size: u32) -> Option<u32>
    requires { round.now.size ≡ size }
    ensures { MatchOption result (NoneFrom turn size round.now.held) (IsFirstFrom turn size round.now.held) }
{
    for slot in turn..size {
        if round.holds(slot) {
            return Some(slot);
        }
    }
    None
}

impl LawQueue {
    /// An empty queue over this many slots.
    pub fn new(alloc: Global, size: u32) -> Result<LawQueue, NoMemory>
        ensures size { IfOk result (λ q. q.size ≡ size) }
        ensures none { IfOk result (λ q. q.held ≡ []) }
    {
        let round = no_slots(alloc, size)?;
        let later = no_slots(alloc, size)?;
        Ok(LawQueue {
            size,
            turn: 0,
            round,
            later,
        })
    }

    /// Takes all laws out, and begins the first round. It takes as long as there are laws that wait.
    pub fn clear(&mut self)
        ensures size { self.new.size ≡ self.old.size }
        ensures none { self.new.held ≡ [] }
    {
        emptied(&mut self.round);
        emptied(&mut self.later);
        self.turn = 0;
    }

    /// Puts a law in. One that waits keeps its place.
    pub fn put(&mut self, slot: u32)
        requires { slot < self.old.size }
        ensures size { self.new.size ≡ self.old.size }
        ensures few { IsFew self.new }
        ensures kept { KeepsHeld self.old.held self.new.held }
        ensures put { holds slot self.new.held ≡ true }
    {
        if slot < self.turn {
            self.later.push_back(slot);
        } else {
            self.round.push_back(slot);
        }
    }

    /// Takes the next law out. `None` exactly where none waits.
    pub fn take(&mut self) -> Option<u32>
        ensures size { self.new.size ≡ self.old.size }
        ensures few { IsFew self.new }
        ensures value { MatchOption result (self.old.held ≡ []) (λ i. (i < self.new.size) × IsTaken i self.old.held self.new.held) }
    {
        match first_from(&self.round, self.turn, self.size) {
            Some(slot) => {
                self.turn = slot + 1;
                self.round.take_out(slot);
                Some(slot)
            }
            None => {
                self.turn = self.size;
                self.later.pop_front()
            }
        }
    }
}
