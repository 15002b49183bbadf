// The first step of an arc on a square, and its first closing.
ghost use Rattle.std.specs.Prelude.{◌≡◌, ◌<◌, Some, slice_get, length, MatchOption};
ghost use Rattle.gas_model.specs.Boxes.{BoxFits};
ghost use Rattle.gas_model.specs.Choices.{PartFits};
ghost use Rattle.gas_model.specs.declared.rows.ArcRow.{ArcRow};
ghost use Rattle.gas_model.specs.declared.rows.PartState.{PartState};
ghost use Rattle.box_rules.specs.ArcLimits.{IsFormWithin, IsLawOf};
ghost use Rattle.tight_steps.specs.Moves.{is_square, square_number, part_box, HasNoMove, IsFirstMove};
ghost use Rattle.tight_steps.specs.declared.law.Law.TheVariants.{AtArc};
ghost use Rattle.pressure_propagate.specs.SquareRules.{ArcClosesNothing, IsFirstAtArc};

use crate::closings::first_closing;
use crate::ends::first_end;
use box_ends::ScaledBox;
use box_rules::{fixed_form, sides};
use gas_model::{LawForm, PartState, Problem, Var};
use tree_cert::{Closing, Step};

/// The first step of an arc on a square by its law, which shrinks its width by an eighth.
pub fn best_by_form(p: &Problem, form: &LawForm, b: &ScaledBox, arc: u32) -> Option<Step>
    requires within { IsFormWithin form.now }
    requires bounds { BoxFits p.now b.now.bounds }
    requires arc { arc < length p.now.arcs }
    ensures { (part : PartState) → IsLawOf p.now part arc form.now → (row : ArcRow) → slice_get p.now.arcs arc ≡ Some row → MatchOption result
        (HasNoMove p.now (part_box b.now.scale part b.now.bounds) (AtArc arc) is_square)
        (IsFirstMove p.now (part_box b.now.scale part b.now.bounds) (AtArc arc) is_square (square_number row)) }
{
    let row = &p.arcs()[arc as usize];
    let scale = b.scale();
    let e = sides(p, b, arc, row);
    if let Some(end) = first_end(form, scale, e, true) {
        return Some(Step {
            var: Var::Square(row.from),
            low: end.low,
            value: end.value,
            rule: end.rule,
            place: arc,
        });
    }
    let end = first_end(form, scale, e, false)?;
    Some(Step {
        var: Var::Square(row.to),
        low: end.low,
        value: end.value,
        rule: end.rule,
        place: arc,
    })
}

/// The first step of an arc on a square, which shrinks its width by an eighth.
pub fn best_at_arc(p: &Problem, state: &PartState, b: &ScaledBox, arc: u32) -> Option<Step>
    requires part { PartFits p.now state.now }
    requires bounds { BoxFits p.now b.now.bounds }
    requires arc { arc < length p.now.arcs }
    ensures { (row : ArcRow) → slice_get p.now.arcs arc ≡ Some row → MatchOption result
        (HasNoMove p.now (part_box b.now.scale state.now b.now.bounds) (AtArc arc) is_square)
        (IsFirstMove p.now (part_box b.now.scale state.now b.now.bounds) (AtArc arc) is_square (square_number row)) }
{
    let form = fixed_form(p, state, arc, &p.arcs()[arc as usize])?;
    best_by_form(p, &form, b, arc)
}

/// The first closing of an arc, by its law, that holds.
pub fn closing_by_form(p: &Problem, form: &LawForm, b: &ScaledBox, arc: u32) -> Option<Closing>
    requires within { IsFormWithin form.now }
    requires bounds { BoxFits p.now b.now.bounds }
    requires arc { arc < length p.now.arcs }
    ensures { (part : PartState) → IsLawOf p.now part arc form.now → MatchOption result
        (ArcClosesNothing p.now (part_box b.now.scale part b.now.bounds) arc)
        (IsFirstAtArc p.now (part_box b.now.scale part b.now.bounds) arc) }
{
    let row = &p.arcs()[arc as usize];
    let rule = first_closing(form, b.scale(), sides(p, b, arc, row))?;
    Some(Closing::At { rule, place: arc })
}

/// The first closing of an arc that holds.
pub fn closing_at_arc(p: &Problem, state: &PartState, b: &ScaledBox, arc: u32) -> Option<Closing>
    requires part { PartFits p.now state.now }
    requires bounds { BoxFits p.now b.now.bounds }
    requires arc { arc < length p.now.arcs }
    ensures { MatchOption result
        (ArcClosesNothing p.now (part_box b.now.scale state.now b.now.bounds) arc)
        (IsFirstAtArc p.now (part_box b.now.scale state.now b.now.bounds) arc) }
{
    let form = fixed_form(p, state, arc, &p.arcs()[arc as usize])?;
    closing_by_form(p, &form, b, arc)
}
