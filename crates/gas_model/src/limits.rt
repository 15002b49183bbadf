// The limits of the numbers and ids of a problem.
ghost use Rattle.std.specs.Prelude.{◌≡◌};
ghost use Rattle.std.specs.List.{list_all};
ghost use Rattle.base_types.specs.Ids.{is_id, has_id_form, is_id_byte};
ghost use Rattle.base_types.specs.Numbers.{between, is_pressure, is_difference, is_flow, is_drag_part, is_ratio_part};
ghost use Rattle.gas_model.specs.Limits.{is_ratio_within, are_station_pressures, is_drag_within, is_kind_within, is_node_within, is_arc_within};

use crate::rows::{ArcKind, ArcText, Drag, NodeRow};
use base_types::{is_difference, is_drag_part, is_flow, is_id, is_pressure, is_ratio_part};

fn is_ratio_within(num: i64, den: i64) -> bool
    ensures { result ≡ is_ratio_within num den }
{
    is_ratio_part(num) && is_ratio_part(den)
}

fn is_drag_within(law: &Drag) -> bool
    ensures { result ≡ is_drag_within law.now }
{
    is_drag_part(law.lo) && is_drag_part(law.hi) && is_drag_part(law.den) && law.lo <= law.hi
}

fn is_loss_within(low: i64, high: i64) -> bool
    ensures { result ≡ is_kind_within (ArcKind.Loss low high) }
{
    is_difference(low) && is_difference(high) && low <= high
}

fn is_control_within(in_min: i64, out_max: i64, red_min: i64, red_max: i64) -> bool
    ensures { result ≡ is_kind_within (ArcKind.Control in_min out_max red_min red_max) }
{
    is_difference(in_min)
        && is_pressure(out_max)
        && is_difference(red_min)
        && is_difference(red_max)
}

fn are_station_pressures(in_min: i64, out_max: i64, rise_max: i64) -> bool
    ensures { result ≡ are_station_pressures in_min out_max rise_max }
{
    is_difference(in_min) && is_pressure(out_max) && is_difference(rise_max)
}

fn is_station_within(
    in_min: i64,
    out_max: i64,
    ratio_num: i64,
    ratio_den: i64,
    rise_max: i64,
) -> bool
    ensures { result ≡ is_kind_within (ArcKind.Station in_min out_max ratio_num ratio_den rise_max) }
{
    are_station_pressures(in_min, out_max, rise_max) && is_ratio_within(ratio_num, ratio_den)
}

/// Whether the numbers of a kind of arc lie in their limits.
pub fn is_kind_within(kind: &ArcKind) -> bool
    ensures { result ≡ is_kind_within kind.now }
{
    match kind {
        ArcKind::Pipe { law } | ArcKind::Resist { law } => is_drag_within(law),
        ArcKind::Short | ArcKind::Valve => true,
        ArcKind::Loss { low, high } => is_loss_within(*low, *high),
        ArcKind::Control {
            in_min,
            out_max,
            red_min,
            red_max,
        } => is_control_within(*in_min, *out_max, *red_min, *red_max),
        ArcKind::Station {
            in_min,
            out_max,
            ratio_num,
            ratio_den,
            rise_max,
        } => is_station_within(*in_min, *out_max, *ratio_num, *ratio_den, *rise_max),
    }
}

/// Whether the id and the numbers of a node lie in their limits.
pub fn is_node_within(row: &NodeRow) -> bool
    ensures { result ≡ is_node_within row.now }
{
    is_id(row.id.as_str())
        && is_pressure(row.p_min)
        && is_pressure(row.p_max)
        && is_flow(row.b_min)
        && is_flow(row.b_max)
}

/// Whether the id and the numbers of an arc lie in their limits.
pub fn is_arc_within(arc: &ArcText) -> bool
    ensures { result ≡ is_arc_within arc.now }
{
    is_id(arc.id.as_str()) && is_flow(arc.q_min) && is_flow(arc.q_max) && is_kind_within(&arc.kind)
}
