// The rows of a problem at a position.
ghost use Rattle.std.specs.Prelude.{◌≡◌, ◌≤◌, None, Some, length, slice_get, MatchOption};

use gas_model::{ArcRow, Group, Problem};

/// The arc at this position, if there is one.
pub fn arc_at(p: &Problem, arc: u32) -> Option<&ArcRow>
    ensures { MatchOption result (slice_get p.now.arcs arc ≡ None) (λ row. slice_get p.now.arcs arc ≡ Some row.now) }
{
    p.arcs().get(arc as usize)
}

/// The group at this position, if there is one.
pub fn group_at(p: &Problem, group: u32) -> Option<&Group>
    ensures { MatchOption result (slice_get p.now.groups group ≡ None) (λ row. slice_get p.now.groups group ≡ Some row.now) }
{
    p.groups().get(group as usize)
}

/// How many decisions a group has.
pub fn count_decisions(group: &Group) -> u32
    requires { length group.now.decisions ≤ 1024 }
    ensures { result ≡ length group.now.decisions }
{
    group.decisions.as_slice().len() as u32
}
