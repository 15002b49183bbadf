// Connections of a network file.
ghost use Rattle.std.specs.Prelude.{◌≡◌, IfOk, IfSome};
ghost use Rattle.element_fields.specs.Answers.{Gives};
ghost use Rattle.element_fields.specs.Quantities.{IsLimited, AreLimited};
ghost use Rattle.element_fields.specs.declared.quantity.Sort.TheVariants as sort;
ghost use Rattle.net_reader.specs.Arcs.{connection_of, ends_in, p_max_of, optional_bounds, loss_bounds, inner_bounds, reductions, reduced, control_in, station_in, resistor_in, own_word, arc_of, arc_in, arc_rows};

use crate::node::flow_bounds;
use crate::rows::{ArcWord, NetArc};
use base_types::{List, Name};
use element_fields::{
    Sort, bad_word, bound_of, bounds_in, child, default_of, id_in, label, next_child, too_large,
};
use gas_units::Side;
use std::alloc::Global;
use tag_outline::{Element, FileFault};

// The word of a connection.
#[derive(Clone, Copy, Debug, PartialEq, Eq)]
pub enum Connection {
    Pipe,
    ShortPipe,
    Resistor,
    Valve,
    ControlValve,
    CompressorStation,
}

fn connection_of(name: &str) -> Option<Connection>
    ensures { result ≡ connection_of name.now }
{
    if name == "pipe" {
        Some(Connection::Pipe)
    } else if name == "shortPipe" {
        Some(Connection::ShortPipe)
    } else if name == "resistor" {
        Some(Connection::Resistor)
    } else if name == "valve" {
        Some(Connection::Valve)
    } else if name == "controlValve" {
        Some(Connection::ControlValve)
    } else if name == "compressorStation" {
        Some(Connection::CompressorStation)
    } else {
        None
    }
}

// The ids of a connection and of the nodes at its ends.
#[tactic(auto, unfolding(crate::specs::Arcs::ends_in))]
fn ends_in(alloc: Global, e: &Element) -> Result<(Name, Name, Name), FileFault>
    ensures { Gives result (ends_in e.now) }
{
    let id = id_in(alloc, "id", e)?;
    let from = id_in(alloc, "from", e)?;
    let to = id_in(alloc, "to", e)?;
    Ok((id, from, to))
}

fn p_max_of(
    alloc: Global,
    word: Connection,
    e: &Element,
    below: &[Element],
) -> Result<i64, FileFault>
    ensures { Gives result (p_max_of word e.now below.now) }
{
    match word {
        Connection::Pipe => bound_of(alloc, Sort::Pressure, Side::Up, "pressureMax", e, below),
        _ => Ok(default_of(Sort::Pressure, Side::Up)),
    }
}

// The bounds that a difference gives, if it is there.
fn optional_bounds(
    alloc: Global,
    name: &str,
    e: &Element,
    below: &[Element],
) -> Result<Option<(i64, i64)>, FileFault>
    ensures exact { Gives result (optional_bounds name.now e.now below.now) }
    ensures limits { IfOk result (λ o. IfSome o (AreLimited sort.Difference)) }
{
    match child(e.depth, name, below) {
        Some((q, _)) => Ok(Some(bounds_in(alloc, Sort::Difference, label(e), q)?)),
        None => Ok(None),
    }
}

// The bounds of a loss, which is 0 if it isn't there.
#[tactic(auto, unfolding(crate::specs::Arcs::loss_bounds))]
fn loss_bounds(
    alloc: Global,
    name: &str,
    e: &Element,
    below: &[Element],
) -> Result<(i64, i64), FileFault>
    ensures exact { Gives result (loss_bounds name.now e.now below.now) }
    ensures limits { IfOk result (AreLimited sort.Difference) }
{
    let loss = optional_bounds(alloc, name, e, below)?;
    Ok(loss.unwrap_or((0, 0)))
}

// The least pressure before an active connection, and the greatest after it.
#[tactic(auto, unfolding(crate::specs::Arcs::inner_bounds))]
fn inner_bounds(alloc: Global, e: &Element, below: &[Element]) -> Result<(i64, i64), FileFault>
    ensures exact { Gives result (inner_bounds e.now below.now) }
    ensures limits { IfOk result (AreLimited sort.Pressure) }
{
    let in_min = bound_of(alloc, Sort::Pressure, Side::Down, "pressureInMin", e, below)?;
    let out_max = bound_of(alloc, Sort::Pressure, Side::Up, "pressureOutMax", e, below)?;
    Ok((in_min, out_max))
}

// The least and the greatest reduction of a control valve.
#[tactic(auto, unfolding(crate::specs::Arcs::reductions))]
fn reductions(alloc: Global, e: &Element, below: &[Element]) -> Result<(i64, i64), FileFault>
    ensures exact { Gives result (reductions e.now below.now) }
    ensures limits { IfOk result (AreLimited sort.Difference) }
{
    let low = bound_of(
        alloc,
        Sort::Difference,
        Side::Down,
        "pressureDifferentialMin",
        e,
        below,
    )?;
    let high = bound_of(
        alloc,
        Sort::Difference,
        Side::Up,
        "pressureDifferentialMax",
        e,
        below,
    )?;
    Ok((low, high))
}

// The bounds of a control valve with its losses before and after it.
fn reduced(
    inner: (i64, i64),
    reduction: (i64, i64),
    loss_in: (i64, i64),
    loss_out: (i64, i64),
) -> Option<ArcWord>
    requires inner { AreLimited sort.Pressure inner }
    requires reduction { AreLimited sort.Difference reduction }
    requires loss_in { AreLimited sort.Difference loss_in }
    requires loss_out { AreLimited sort.Difference loss_out }
    ensures { result ≡ reduced inner reduction loss_in loss_out }
{
    if inner.1 < loss_out.0 {
        return None;
    }
    Some(ArcWord::Control {
        in_min: inner.0 + loss_in.0,
        out_max: inner.1 - loss_out.0,
        red_min: reduction.0 + loss_in.0 + loss_out.0,
        red_max: reduction.1 + loss_in.1 + loss_out.1,
    })
}

#[tactic(auto, unfolding(crate::specs::Arcs::control_in))]
fn control_in(alloc: Global, e: &Element, below: &[Element]) -> Result<ArcWord, FileFault>
    ensures { Gives result (control_in e.now below.now) }
{
    let inner = inner_bounds(alloc, e, below)?;
    let reduction = reductions(alloc, e, below)?;
    let loss_in = loss_bounds(alloc, "pressureLossIn", e, below)?;
    let loss_out = loss_bounds(alloc, "pressureLossOut", e, below)?;
    match reduced(inner, reduction, loss_in, loss_out) {
        Some(word) => Ok(word),
        None => Err(too_large(alloc, label(e), "pressureLossOut")),
    }
}

#[tactic(auto, unfolding(crate::specs::Arcs::station_in))]
fn station_in(alloc: Global, e: &Element, below: &[Element]) -> Result<ArcWord, FileFault>
    ensures { Gives result (station_in e.now below.now) }
{
    let (in_min, out_max) = inner_bounds(alloc, e, below)?;
    Ok(ArcWord::Station { in_min, out_max })
}

#[tactic(auto, unfolding(crate::specs::Arcs::resistor_in))]
fn resistor_in(alloc: Global, e: &Element, below: &[Element]) -> Result<ArcWord, FileFault>
    ensures { Gives result (resistor_in e.now below.now) }
{
    let loss = optional_bounds(alloc, "pressureLoss", e, below)?;
    Ok(ArcWord::Resistor { loss })
}

fn own_word(
    alloc: Global,
    word: Connection,
    e: &Element,
    below: &[Element],
) -> Result<ArcWord, FileFault>
    ensures { Gives result (own_word word e.now below.now) }
{
    match word {
        Connection::Pipe => Ok(ArcWord::Pipe),
        Connection::ShortPipe => Ok(ArcWord::Short),
        Connection::Resistor => resistor_in(alloc, e, below),
        Connection::Valve => Ok(ArcWord::Valve),
        Connection::ControlValve => control_in(alloc, e, below),
        Connection::CompressorStation => station_in(alloc, e, below),
    }
}

#[tactic(auto, unfolding(crate::specs::Arcs::arc_of))]
fn arc_of(
    alloc: Global,
    word: Connection,
    e: &Element,
    below: &[Element],
) -> Result<NetArc, FileFault>
    ensures { Gives result (arc_of word e.now below.now) }
{
    let (id, from, to) = ends_in(alloc, e)?;
    let (q_min, q_max) = flow_bounds(alloc, e, below)?;
    let p_max = p_max_of(alloc, word, e, below)?;
    let word = own_word(alloc, word, e, below)?;
    Ok(NetArc {
        id,
        from,
        to,
        q_min,
        q_max,
        p_max,
        word,
    })
}

// The row of a child of an element of this name.
#[tactic(auto, unfolding(crate::specs::Arcs::arc_in))]
fn arc_in(alloc: Global, parent: &str, e: &Element, below: &[Element]) -> Result<NetArc, FileFault>
    ensures { Gives result (arc_in parent.now (e.now, below.now)) }
{
    let Some(word) = connection_of(e.name.as_str()) else {
        return Err(bad_word(alloc, parent, e.name.as_str()));
    };
    arc_of(alloc, word, e, below)
}

/// The rows of all children of an element, which `below` follow.
pub fn arc_rows(
    alloc: Global,
    parent: &Element,
    below: &[Element],
) -> Result<List<NetArc>, FileFault>
    ensures { Gives result (arc_rows parent.now below.now) }
{
    let mut rows = List::new(alloc);
    let mut rest = below;
    while let Some((e, after)) = next_child(parent.depth, rest) {
        let row = arc_in(alloc, parent.name.as_str(), e, after)?;
        rows.push(row)?;
        rest = after;
    }
    Ok(rows)
}
