// What follows from the choices of a probe alone.
ghost use Rattle.std.specs.Prelude.{◌≡◌, IfOk};
ghost use Rattle.std.specs.Bool.{Decides};
ghost use Rattle.gas_model.specs.Choices.{ArePicks, PartFits};
ghost use Rattle.topo.specs.Shapes.{IsShapeOf};
ghost use Rattle.probe_point.specs.Chosen.{picks_of, with_picks, all_chosen, AreChosen};
ghost use Rattle.probe_point.specs.Choices.{AreChoicesOf};

use crate::choices::{all_chosen, chosen_states, picks_of, with_picks};
use gas_model::{ArcState, List, NoMemory, PartState, Problem};
use std::alloc::Global;
use topo::Shape;

/// What follows from the choices of a probe alone, so that all boxes with the same part state have it in common: the
/// decision of each group and the state of each arc, what is open being its first option, and the shape of the network
/// with all of these choices made.
#[derive(Drop)]
pub struct Chosen {
    pub picks: List<u32>,
    pub states: List<ArcState>,
    pub shape: Shape,
}

// The picked decision of each group, or its first one.
fn picks_in(alloc: Global, p: &Problem, part: &PartState) -> Result<List<u32>, NoMemory>
    requires { PartFits p.now part.now }
    ensures value { IfOk result (λ picks. picks ≡ picks_of part.now) }
    ensures fits { IfOk result (λ picks. ArePicks p.now.groups picks) }
{
    let picks = picks_of(alloc, part)?;
    let one_each = picks.as_slice().len() == p.groups().len();
    prove!(one_each);
    Ok(picks)
}

// The state of each arc, where these decisions are picked.
fn states_of(
    alloc: Global,
    p: &Problem,
    part: &PartState,
    picks: &[u32],
) -> Result<List<ArcState>, NoMemory>
    requires part { PartFits p.now part.now }
    requires picks { ArePicks p.now.groups picks.now }
    ensures { IfOk result (λ states. AreChosen p.now (with_picks picks.now part.now) states) }
{
    let picked = with_picks(alloc, part, picks)?;
    chosen_states(alloc, p, &picked)
}

// The shape with all choices made.
fn shape_of(
    alloc: Global,
    p: &Problem,
    picks: &[u32],
    states: &[ArcState],
) -> Result<Shape, NoMemory>
    requires { PartFits p.now (all_chosen picks.now states.now) }
    ensures { IfOk result (λ shape. IsShapeOf p.now (all_chosen picks.now states.now) shape) }
{
    let whole = all_chosen(alloc, picks, states)?;
    Shape::of(alloc, p, &whole)
}

impl Chosen {
    /// The choices of a probe in a part state that fits the problem. Their time and their memory grow as the number of
    /// nodes and arcs, but for a factor that stays small. `NoMemory` is the only refusal.
    pub fn of(alloc: Global, p: &Problem, part: &PartState) -> Result<Chosen, NoMemory>
        requires { PartFits p.now part.now }
        ensures { IfOk result (AreChoicesOf p.now part.now) }
    {
        let picks = picks_in(alloc, p, part)?;
        let states = states_of(alloc, p, part, picks.as_slice())?;
        let shape = shape_of(alloc, p, picks.as_slice(), states.as_slice())?;
        Ok(Chosen {
            picks,
            states,
            shape,
        })
    }
}

/// Whether two part states pick and name the same. Its time is that of going over both, at most.
pub fn is_same_part(a: &PartState, b: &PartState) -> bool
    ensures { Decides result (a.now ≡ b.now) }
{
    a.picks.as_slice() == b.picks.as_slice() && a.states.as_slice() == b.states.as_slice()
}
