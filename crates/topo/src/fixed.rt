// The fixed states of arcs.
ghost use Rattle.std.specs.Prelude.{◌≡◌, ◌<◌, ◌≤◌, ℕ, length, IfOk};
ghost use Rattle.gas_model.specs.Choices.{PartFits};
ghost use Rattle.topo.specs.States.{fixed_at, state_in};

use gas_model::{ArcState, NoMemory, PartState, Problem};
use std::alloc::Global;

/// The fixed state of each arc.
pub fn fixed_states(
    alloc: Global,
    p: &Problem,
    part: &PartState,
) -> Result<Vec<Option<ArcState>>, NoMemory>
    requires { PartFits p.now part.now }
    ensures count { IfOk result (λ states. length states.items ≡ length p.now.arcs) }
    ensures each { IfOk result (λ states. (a : ℕ) → a < length p.now.arcs → state_in states.items a ≡ fixed_at p.now part.now a) }
{
    let count = p.arcs().len();
    let mut states = Vec::with_capacity(alloc, count)?;
    for a in 0..count {
        states.push(p.state_of(part, a as u32))?;
    }
    Ok(states)
}
