// The state of an arc that is fixed in a box, and the states that are left to it.
ghost use Rattle.std.specs.Prelude.{◌≡◌, ◌<◌, length, slice_get, Some, IfOk};
ghost use Rattle.gas_model.specs.Choices.{allowed_states, fixed_state};
ghost use Rattle.gas_model.specs.Rulings.{is_free};
ghost use Rattle.gas_model.specs.declared.rows.ArcRow.{ArcRow};
ghost use Rattle.tree_check.specs.Held.{IsBoxAt};

use crate::open_box::OpenBox;
use crate::stack::Stack;
use gas_model::{ArcState, NoMemory, Problem};

/// The state of an arc that is fixed in a box: that of a kind with one state, or the one that is named, or the only one
/// that the picked decisions allow.
pub fn fixed_state(p: &Problem, b: &OpenBox, arc: u32) -> Option<ArcState>
    requires fits { IsBoxAt p.now b.now }
    requires arc { arc < length p.now.arcs }
    ensures { (row : ArcRow) → slice_get p.now.arcs arc ≡ Some row → result ≡ fixed_state p.now b.now.part arc row }
{
    p.state_of(b.part(), arc)
}

/// Whether the state of an arc isn't fixed, and each group that has a word for it is picked.
pub fn is_free(p: &Problem, b: &OpenBox, arc: u32) -> bool
    requires fits { IsBoxAt p.now b.now }
    requires arc { arc < length p.now.arcs }
    ensures { (row : ArcRow) → slice_get p.now.arcs arc ≡ Some row → result ≡ is_free p.now b.now.part arc row }
{
    p.is_free(b.part(), arc)
}

/// The states of an arc that the picked decisions allow, the first on top.
pub fn states_left(p: &Problem, b: &OpenBox, arc: u32) -> Result<Stack<ArcState>, NoMemory>
    requires { arc < length p.now.arcs }
    ensures { (row : ArcRow) → slice_get p.now.arcs arc ≡ Some row → IfOk result (λ left. left ≡ allowed_states p.now b.now.part arc row) }
{
    let mut left = p.allowed_states(b.part(), arc)?;
    left.reverse();
    Ok(Stack::of(left))
}
