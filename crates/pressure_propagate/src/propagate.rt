// The first step of an arc on a square, and its first closing, on a grid.
ghost use Rattle.std.specs.Prelude.{◌≡◌, ◌<◌, Some, slice_get, length, MatchOption};
ghost use Rattle.gas_model.specs.Boxes.{BoxFits};
ghost use Rattle.gas_model.specs.Choices.{PartFits};
ghost use Rattle.gas_model.specs.declared.rows.ArcRow.{ArcRow};
ghost use Rattle.gas_model.specs.declared.rows.PartState.{PartState};
ghost use Rattle.box_rules.specs.ArcLimits.{IsFormWithin, IsLawOf};
ghost use Rattle.tight_steps.specs.Moves.{is_square, square_number, part_box, HasNoMove, IsFirstMove};
ghost use Rattle.tight_steps.specs.declared.law.Law.TheVariants.{AtArc};
ghost use Rattle.pressure_propagate.specs.SquareRules.{ArcClosesNothing, IsFirstAtArc};

use crate::arcs::{best_at_arc, best_by_form, closing_at_arc, closing_by_form};
use box_core::VarBox;
use gas_model::{LawForm, PartState, Problem};
use interval_core::Grid;
use tree_cert::{Closing, Step};

/// The first step of an arc on a square that shrinks its width by an eighth, with the tightest value of its rule: the
/// square at its `from` before that at its `to`, the lower end before the upper one, then the order of the rules. `None`
/// exactly where there is no such step, so where the state isn't fixed.
///
/// The part state and the box fit the problem, and the arc is one of it. Widths may be negative.
pub fn best_square<G: Grid>(p: &Problem, state: &PartState, b: &VarBox<G>, arc: u32) -> Option<Step>
    requires part { PartFits p.now state.now }
    requires bounds { BoxFits p.now b.now }
    requires arc { arc < length p.now.arcs }
    ensures { (row : ArcRow) → slice_get p.now.arcs arc ≡ Some row → MatchOption result
        (HasNoMove p.now (part_box G.SCALE state.now b.now) (AtArc arc) is_square)
        (IsFirstMove p.now (part_box G.SCALE state.now b.now) (AtArc arc) is_square (square_number row)) }
{
    best_at_arc(p, state, b.scaled(), arc)
}

/// The first closing of an arc that holds, in the order of the rules. `None` exactly where none does, so where the state
/// isn't fixed.
///
/// The part state and the box fit the problem, and the arc is one of it. Widths may be negative.
pub fn shut_square<G: Grid>(
    p: &Problem,
    state: &PartState,
    b: &VarBox<G>,
    arc: u32,
) -> Option<Closing>
    requires part { PartFits p.now state.now }
    requires bounds { BoxFits p.now b.now }
    requires arc { arc < length p.now.arcs }
    ensures { MatchOption result
        (ArcClosesNothing p.now (part_box G.SCALE state.now b.now) arc)
        (IsFirstAtArc p.now (part_box G.SCALE state.now b.now) arc) }
{
    closing_at_arc(p, state, b.scaled(), arc)
}

/// The first step of an arc on a square, as `best_square` gives it, where the arc's law is known. A caller that works the
/// laws of a part state out once needs no part state here.
///
/// The box fits the problem, the arc is one of it, and the numbers of the law are within their limits.
pub fn best_square_by_law<G: Grid>(
    p: &Problem,
    form: &LawForm,
    b: &VarBox<G>,
    arc: u32,
) -> Option<Step>
    requires within { IsFormWithin form.now }
    requires bounds { BoxFits p.now b.now }
    requires arc { arc < length p.now.arcs }
    ensures { (part : PartState) → IsLawOf p.now part arc form.now → (row : ArcRow) → slice_get p.now.arcs arc ≡ Some row → MatchOption result
        (HasNoMove p.now (part_box G.SCALE part b.now) (AtArc arc) is_square)
        (IsFirstMove p.now (part_box G.SCALE part b.now) (AtArc arc) is_square (square_number row)) }
{
    best_by_form(p, form, b.scaled(), arc)
}

/// The first closing of an arc that holds, as `shut_square` gives it, where the arc's law is known.
///
/// The box fits the problem, the arc is one of it, and the numbers of the law are within their limits.
pub fn shut_square_by_law<G: Grid>(
    p: &Problem,
    form: &LawForm,
    b: &VarBox<G>,
    arc: u32,
) -> Option<Closing>
    requires within { IsFormWithin form.now }
    requires bounds { BoxFits p.now b.now }
    requires arc { arc < length p.now.arcs }
    ensures { (part : PartState) → IsLawOf p.now part arc form.now → MatchOption result
        (ArcClosesNothing p.now (part_box G.SCALE part b.now) arc)
        (IsFirstAtArc p.now (part_box G.SCALE part b.now) arc) }
{
    closing_by_form(p, form, b.scaled(), arc)
}
