// The flows that a resistance allows.
ghost use Rattle.std.specs.Prelude.{◌≡◌, ◌^◌, IsTrue};
ghost use Rattle.integer_laws.specs.Sizes.{IsWithin};
ghost use Rattle.gas_model.specs.declared.law_forms.LawForm.TheVariants.{Drags};
ghost use Rattle.gas_model.specs.Limits.{is_drag_within};
ghost use Rattle.gas_model.specs.Laws.{is_pipe_within};
ghost use Rattle.box_rules.specs.ArcLimits.{AreBoxSides};
ghost use Rattle.tree_cert.specs.declared.line.Rule.TheVariants.{Pipe};
ghost use Rattle.tree_rules.specs.declared.arc_vars.ArcVar.TheVariants.{OfFlow};
ghost use Rattle.tight_steps.specs.Best.{IsBound};
ghost use Rattle.tight_steps.specs.Moves.{allows};
ghost use Rattle.flow_propagate.specs.Drops.{IsLeastFlow, IsGreatestFlow};

use element_laws::drop_gap;
use gas_model::{Drag, PipeLaw};
use gas_units::{ceil_div, floor_div, root_down, root_up};
use tree_rules::ArcEnds;

// The least flow whose least drop, times the denominator, is at least the gap: forward the root of the gap's part by
// the least factor, rounded up, and back the root of its part by the greatest factor, rounded down.
fn least_flow(law: &Drag, gap: i128) -> i128
    requires law { IsTrue (is_drag_within law.now) }
    requires gap { IsWithin (2 ^ 126) gap }
    ensures least { IsLeastFlow law.now gap result }
    ensures size { IsWithin (2 ^ 64) result }
{
    if gap > 0 {
        let ratio = ceil_div(gap, law.lo as i128);
        root_up(ratio as u128) as i128
    } else {
        let ratio = floor_div(-gap, law.hi as i128);
        -(root_down(ratio as u128) as i128)
    }
}

// The greatest flow whose greatest drop, times the denominator, is at most the gap: the greatest drop of a flow is the
// least drop of that flow back.
fn greatest_flow(law: &Drag, gap: i128) -> i128
    requires law { IsTrue (is_drag_within law.now) }
    requires gap { IsWithin (2 ^ 126) gap }
    ensures { IsGreatestFlow law.now gap result }
{
    -least_flow(law, -gap)
}

/// Up to where the squares let an end of the flow go along a resistance.
pub fn flow_to(law: &PipeLaw, scale: i128, e: ArcEnds, low: bool) -> i128
    requires law { IsTrue (is_pipe_within law.now) }
    requires ends { AreBoxSides scale e }
    ensures { IsBound low e.q (allows Pipe (Drags law.now) scale e OfFlow low) result }
{
    if low {
        greatest_flow(&law.drag, drop_gap(law, scale, e.u.lo, e.v.hi))
    } else {
        least_flow(&law.drag, drop_gap(law, scale, e.u.hi, e.v.lo))
    }
}
