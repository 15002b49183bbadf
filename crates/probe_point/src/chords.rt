// The flows of chords, which are the middles of their boxes.
ghost use Rattle.std.specs.Prelude.{◌≡◌, ◌<◌, ◌≤◌, ◌+◌, ℕ, ℤ, length};
ghost use Rattle.integer_laws.specs.Sizes.{IsWithin};
ghost use Rattle.gas_model.specs.Near.{number_at};
ghost use Rattle.box_ends.specs.Middle.{middle};
ghost use Rattle.probe_point.specs.Probes.{box_at, AreNeeds, AreSmall, AreFlowBoxes, AreGraphEnds};
ghost use Rattle.probe_point.specs.Chords.{HasMiddles, KeepsTheRest, AreDistinctArcs, HaveNoFlow};

use crate::flows::give;
use box_ends::middle;
use gas_model::{ArcRow, Ends};

// The middle of the box of an arc.
fn chord_flow(boxes: &[Ends], arc: u32) -> i128
    requires has_box { arc < length boxes.now }
    requires boxes { AreFlowBoxes boxes.now }
    ensures value { result ≡ middle (box_at boxes.now arc) }
    ensures size { IsWithin 1000000000000 result }
{
    middle(boxes[arc as usize])
}

/// Gives each chord the middle of its box. `need` has what each node still needs, before and after.
pub fn chord_flows(
    arcs: &[ArcRow],
    boxes: &[Ends],
    chords: &[u32],
    flows: &mut [i128],
    need: &mut [i128],
)
    requires ends { AreGraphEnds arcs.now (length need.old) }
    requires boxes { AreFlowBoxes boxes.now }
    requires box_of_each { length boxes.now ≡ length arcs.now }
    requires flow_of_each { length flows.old ≡ length arcs.now }
    requires chords { AreDistinctArcs arcs.now chords.now }
    requires few { length chords.now ≤ 2000 }
    requires none { HaveNoFlow chords.now (number_at flows.old) }
    requires flows { AreSmall 1 flows.old }
    requires need { AreSmall 1 need.old }
    ensures middles { HasMiddles (box_at boxes.now) chords.now (number_at flows.new) }
    ensures need { (supply : ℕ → ℤ) → AreNeeds arcs.now supply (number_at flows.old) need.old → AreNeeds arcs.now supply (number_at flows.new) need.new }
    ensures others { KeepsTheRest chords.now (number_at flows.old) (number_at flows.new) }
    ensures flows { AreSmall 1 flows.new }
    ensures small { AreSmall (1 + length chords.now) need.new }
{
    for chord in chords {
        let flow = chord_flow(boxes, *chord);
        give(flows, need, arcs, *chord, flow);
    }
}
