//! A queue of distinct numbers below a size, in slots that are linked to each other by index, both ways.
//!
//! Contracts see the size, and the list of the numbers that are held, the front one first. Each call but the
//! making of the queue takes the same few steps at every size.
#![tactic(auto)]

ghost use Rattle.std.specs.Prelude.{◌≡◌, ℕ, ◌+◌, ◌<◌, ◌≤◌, [], ◌∷◌, ◌++◌, length, IfOk, slice_index_or, not, MatchOption, if◌then◌else◌};
ghost use Rattle.link_queue.specs.Queue.{holds, without, IsQueue};
ghost use Rattle.link_queue.specs.Numbered.{IsNumbered};

use std::alloc::{AllocError, Global};
use std::marker::Model;

/// Memory for the slots could not be had. It is tied to nothing else.
#[derive(Clone, Copy, Debug, PartialEq, Eq)]
pub struct NoMemory;

impl From<AllocError> for NoMemory {
    fn from(_: AllocError) -> Self {
        NoMemory
    }
}

/// Distinct numbers below a size, in order, each held at most once.
///
/// Each number has a slot, and slot `size` stands for both ends of the list, so that the slots of the numbers that
/// are held form a ring with it. The slot of a number that isn't held is linked to itself.
#[derive(Drop)]
pub struct LinkQueue {
    size: u32,
    next: Vec<u32>,
    prev: Vec<u32>,
}

impl Model for LinkQueue {
    ghost use Rattle.link_queue.specs.Queue.{Queue};
    ghost use Rattle.link_queue.specs.Ring.{held_by, IsRing};

    ghost Value = { Queue };

    ghost view = { λ a. record { size = a.size; held = held_by a.size a.next.items } };

    ghost invariant = { λ a. IsRing a.size a.next.items a.prev.items (held_by a.size a.next.items) };
}

/// The numbers from 0 to `size`, each at its own place.
fn numbered(alloc: Global, size: u32) -> Result<Vec<u32>, AllocError>
    ensures { IfOk result (λ v. IsNumbered size v.items) }
{
    let mut numbers = Vec::with_capacity(alloc, size as usize + 1)?;
    for i in 0..size {
        numbers.push(i)?;
    }
    numbers.push(size)?;
    Ok(numbers)
}

impl LinkQueue {
    /// An empty queue over the numbers below `n`, of which it takes 8 bytes each. `NoMemory` is its only refusal.
    pub fn new(alloc: Global, n: u32) -> Result<LinkQueue, NoMemory>
        ensures empty { IfOk result (λ q. (q.size ≡ n) × (q.held ≡ [])) }
        ensures queue { IfOk result IsQueue }
    {
        let next = numbered(alloc, n)?;
        let prev = numbered(alloc, n)?;
        Ok(LinkQueue {
            size: n,
            next,
            prev,
        })
    }

    /// Whether `i`, which must lie below the size, is held.
    pub fn holds(&self, i: u32) -> bool
        requires { i < self.now.size }
        ensures value { result ≡ holds i self.now.held }
        ensures queue { IsQueue self.now }
    {
        self.next[i as usize] != i
    }

    /// Puts `i`, which must lie below the size, at the back. `false` exactly where `i` is held, which then keeps
    /// its place.
    pub fn push_back(&mut self, i: u32) -> bool
        requires { i < self.old.size }
        ensures value { result ≡ not (holds i self.old.held) }
        ensures held { self.new.held ≡ (if result then self.old.held ++ i ∷ [] else self.old.held) }
        ensures size { self.new.size ≡ self.old.size }
        ensures queue { IsQueue self.new }
    {
        if self.holds(i) {
            return false;
        }
        let last = self.prev[self.size as usize];
        self.next[last as usize] = i;
        self.next[i as usize] = self.size;
        self.prev[i as usize] = last;
        self.prev[self.size as usize] = i;
        true
    }

    /// Takes the front number out. `None` exactly where none is held.
    pub fn pop_front(&mut self) -> Option<u32>
        ensures value { MatchOption result ((self.old.held ≡ []) × (self.new.held ≡ [])) (λ i. (self.old.held ≡ i ∷ self.new.held) × (i < self.new.size)) }
        ensures size { self.new.size ≡ self.old.size }
        ensures queue { IsQueue self.new }
    {
        let front = self.next[self.size as usize];
        if front == self.size {
            return None;
        }
        self.take_out(front);
        Some(front)
    }

    /// Takes `i`, which must lie below the size, out of the list. `false` exactly where `i` isn't held, and the list
    /// stays as it was then.
    pub fn take_out(&mut self, i: u32) -> bool
        requires { i < self.old.size }
        ensures value { result ≡ holds i self.old.held }
        ensures held { self.new.held ≡ without i self.old.held }
        ensures size { self.new.size ≡ self.old.size }
        ensures queue { IsQueue self.new }
    {
        let held = self.holds(i);
        let before = self.prev[i as usize];
        let behind = self.next[i as usize];
        self.next[before as usize] = behind;
        self.next[i as usize] = i;
        self.prev[behind as usize] = before;
        self.prev[i as usize] = i;
        held
    }
}
