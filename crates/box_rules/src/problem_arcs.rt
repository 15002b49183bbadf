// The law of an arc of a problem, and the ends of its variables.
ghost use Rattle.std.specs.Prelude.{◌≡◌, slice_get, Some, IfSome};
ghost use Rattle.gas_model.specs.Boxes.{BoxFits};
ghost use Rattle.gas_model.specs.Choices.{PartFits};
ghost use Rattle.gas_model.specs.Within.{IsWithin as AreWithin};
ghost use Rattle.tree_rules.specs.Rules as spec;
ghost use Rattle.box_rules.specs.ArcLimits.{IsFormWithin, AreSafeSides, AreBoxSides};

use crate::forms::form_of;
use box_ends::ScaledBox;
use gas_model::{ArcRow, LawForm, PartState, Problem, Var};
use tree_rules::ArcEnds;

/// The law of an arc in its state, if that is fixed.
pub fn fixed_form(p: &Problem, part: &PartState, arc: u32, row: &ArcRow) -> Option<LawForm>
    requires within { AreWithin p.now }
    requires part { PartFits p.now part.now }
    requires row { slice_get p.now.arcs arc ≡ Some row.now }
    ensures form { result ≡ spec.fixed_form p.now part.now arc row.now }
    ensures within { IfSome result IsFormWithin }
{
    match p.state_of(part, arc) {
        None => None,
        Some(state) => Some(form_of(&row.kind, state)),
    }
}

/// The ends of the variables of an arc.
pub fn sides(p: &Problem, b: &ScaledBox, arc: u32, row: &ArcRow) -> ArcEnds
    requires within { AreWithin p.now }
    requires bounds { BoxFits p.now b.now.bounds }
    requires row { slice_get p.now.arcs arc ≡ Some row.now }
    ensures ends { result ≡ spec.arc_ends b.now.bounds arc row.now }
    ensures safe { AreSafeSides result }
    ensures limits { AreBoxSides b.now.scale result }
{
    let q = b.ends(Var::Flow(arc));
    let u = b.ends(Var::Square(row.from));
    let v = b.ends(Var::Square(row.to));
    ArcEnds { q, u, v }
}
