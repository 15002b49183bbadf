// The laws that wait at first.
ghost use Rattle.std.specs.Prelude.{◌≡◌, ℕ, ◌+◌, ◌<◌, true, length};
ghost use Rattle.gas_model.specs.Choices.{PartFits};
ghost use Rattle.link_queue.specs.Queue.{holds};
ghost use Rattle.stable_sweep.specs.Children.{IsHeadOf};
ghost use Rattle.stable_sweep.specs.Waiting.{HoldsAll, IsFew, IsWoken, KeepsHeld, speaks_of};

use crate::law_queue::LawQueue;
use crate::waiting::put_back;
use gas_model::{PartState, Problem};
use tree_cert::Head;

// Puts all laws in.
fn wake_all(queue: &mut LawQueue, size: u32)
    requires size { queue.old.size ≡ size }
    requires few { IsFew queue.old }
    ensures size { queue.new.size ≡ size }
    ensures few { IsFew queue.new }
    ensures all { HoldsAll size queue.new.held }
{
    for slot in 0..size {
        queue.put(slot);
    }
}

// Whether a group speaks of an arc.
fn speaks_of(p: &Problem, group: u32, arc: u32) -> bool
    requires { arc < length p.now.arcs }
    ensures { result ≡ speaks_of p.now group arc }
{
    p.rulings_at(arc).iter().any(|ruling| ruling.group == group)
}

// Puts the law of an arc in, if the group speaks of it.
fn wake_arc(p: &Problem, queue: &mut LawQueue, group: u32, arc: u32)
    requires arc { arc < length p.now.arcs }
    requires size { queue.old.size ≡ length p.now.nodes + length p.now.arcs }
    requires few { IsFew queue.old }
    ensures size { queue.new.size ≡ queue.old.size }
    ensures few { IsFew queue.new }
    ensures kept { KeepsHeld queue.old.held queue.new.held }
    ensures put { speaks_of p.now group arc ≡ true → holds (length p.now.nodes + arc) queue.new.held ≡ true }
{
    if speaks_of(p, group, arc) {
        queue.put(p.nodes().len() as u32 + arc);
    }
}

// Puts the law of each arc in that the group speaks of.
fn wake_group(p: &Problem, queue: &mut LawQueue, group: u32)
    requires size { queue.old.size ≡ length p.now.nodes + length p.now.arcs }
    requires few { IsFew queue.old }
    ensures size { queue.new.size ≡ queue.old.size }
    ensures few { IsFew queue.new }
    ensures put { (a : ℕ) → a < length p.now.arcs → speaks_of p.now group a ≡ true → holds (length p.now.nodes + a) queue.new.held ≡ true }
{
    let count = p.arcs().len() as u32;
    for arc in 0..count {
        wake_arc(p, queue, group, arc);
    }
}

/// Puts the laws in that wait at first in a box with this head, and takes all others out.
pub fn wake(p: &Problem, state: &PartState, queue: &mut LawQueue, head: Option<Head>)
    requires part { PartFits p.now state.now }
    requires head { IsHeadOf p.now head }
    requires size { queue.old.size ≡ length p.now.nodes + length p.now.arcs }
    ensures size { queue.new.size ≡ queue.old.size }
    ensures few { IsFew queue.new }
    ensures woken { IsWoken p.now state.now head queue.new.held }
{
    let nodes = p.nodes().len() as u32;
    let size = nodes + p.arcs().len() as u32;
    queue.clear();
    match head {
        None => wake_all(queue, size),
        Some(Head::Take { group, .. }) => wake_group(p, queue, group),
        Some(Head::State { arc, .. }) => queue.put(nodes + arc),
        Some(Head::Half { var, .. }) => put_back(p, state, queue, var, size),
    }
}
