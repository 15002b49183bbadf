// Quantities: a child element with a value and a unit.
ghost use Rattle.std.specs.Prelude.{◌≡◌, IfSome, IfOk};
ghost use Rattle.gas_units.specs.Grid.{grid_value, IsFar};
ghost use Rattle.element_fields.specs.Answers.{Gives};
ghost use Rattle.element_fields.specs.Quantities.{flow_unit, pressure_unit, difference_unit, as_sort, unit_of, flow_within, lower_within, upper_within, within, far_within, quantity_in, bound_in, bounds_in, bound_of, default_of, IsLimited, AreLimited};

use crate::faults::{bad_unit, bad_value, missing, too_large};
use crate::lookup::{child, value_of};
use crate::names::label;
use gas_units::{Decimal, Side, Unit, read_decimal, read_unit, to_grid};
use std::alloc::Global;
use tag_outline::{Element, FileFault};

/// What sort of quantity is asked for.
#[derive(Clone, Copy, Debug, PartialEq, Eq)]
pub enum Sort {
    /// A flow at norm conditions.
    Flow,
    /// An absolute pressure. `barg` is over the normal pressure of the air.
    Pressure,
    /// A difference of pressures, for which `barg` is `bar`.
    Difference,
}

// The greatest flow either way, in l/h.
const MAX_FLOW: i64 = 1_000_000_000_000;

// The greatest pressure, in Pa.
const MAX_PRESSURE: i64 = 100_000_000;

fn flow_unit(unit: Unit) -> Option<Unit>
    ensures { result ≡ flow_unit unit }
{
    match unit {
        Unit::KiloCube | Unit::Cube => Some(unit),
        Unit::Bar | Unit::Barg | Unit::Pa => None,
    }
}

fn pressure_unit(unit: Unit) -> Option<Unit>
    ensures { result ≡ pressure_unit unit }
{
    match unit {
        Unit::Bar | Unit::Barg | Unit::Pa => Some(unit),
        Unit::KiloCube | Unit::Cube => None,
    }
}

fn difference_unit(unit: Unit) -> Option<Unit>
    ensures { result ≡ difference_unit unit }
{
    match unit {
        Unit::Bar | Unit::Barg => Some(Unit::Bar),
        Unit::Pa => Some(Unit::Pa),
        Unit::KiloCube | Unit::Cube => None,
    }
}

// The unit that a word names for a sort of quantity.
fn unit_of(sort: Sort, word: &str) -> Option<Unit>
    ensures { result ≡ unit_of sort word.now }
{
    let unit = read_unit(word)?;
    match sort {
        Sort::Flow => flow_unit(unit),
        Sort::Pressure => pressure_unit(unit),
        Sort::Difference => difference_unit(unit),
    }
}

fn flow_within(grid: i128) -> Option<i64>
    ensures exact { result ≡ flow_within grid }
    ensures limits { IfSome result (IsLimited Sort.Flow) }
{
    if -(MAX_FLOW as i128) <= grid && grid <= MAX_FLOW as i128 {
        Some(grid as i64)
    } else {
        None
    }
}

fn lower_within(grid: i128) -> Option<i64>
    ensures exact { result ≡ lower_within grid }
    ensures limits { IfSome result (IsLimited Sort.Pressure) }
{
    if grid < 0 {
        Some(0)
    } else if grid <= MAX_PRESSURE as i128 {
        Some(grid as i64)
    } else {
        None
    }
}

fn upper_within(grid: i128) -> Option<i64>
    ensures exact { result ≡ upper_within grid }
    ensures limits { IfSome result (IsLimited Sort.Pressure) }
{
    if 0 <= grid && grid <= MAX_PRESSURE as i128 {
        Some(grid as i64)
    } else {
        None
    }
}

// The bound on a side that a whole grid value gives, if it lies within the limits.
fn grid_within(sort: Sort, side: Side, grid: i128) -> Option<i64>
    ensures exact { result ≡ within sort side grid }
    ensures limits { IfSome result (IsLimited sort) }
{
    match (sort, side) {
        (Sort::Flow, _) => flow_within(grid),
        (_, Side::Down) => lower_within(grid),
        (_, Side::Up) => upper_within(grid),
    }
}

// The same where the grid value is past -10^18 or 10^18, on the side of its sign.
fn far_within(sort: Sort, side: Side, negative: bool) -> Option<i64>
    ensures exact { result ≡ far_within sort side negative }
    ensures limits { IfSome result (IsLimited sort) }
{
    if sort != Sort::Flow && side == Side::Down && negative {
        Some(0)
    } else {
        None
    }
}

// The bound on a side that a value gives, if it lies within the limits.
fn value_within(sort: Sort, side: Side, value: &Decimal, unit: Unit) -> Option<i64>
    ensures exact { result ≡ within sort side (grid_value side value.now unit) }
    ensures limits { IfSome result (IsLimited sort) }
{
    match to_grid(value, unit, side) {
        Ok(grid) => grid_within(sort, side, grid),
        Err(_) => far_within(sort, side, value.negative),
    }
}

// The value and the unit of a quantity of an element that is called so.
#[tactic(auto, unfolding(crate::specs::Quantities::quantity_in))]
fn quantity_in(
    alloc: Global,
    sort: Sort,
    called: &str,
    q: &Element,
) -> Result<(Decimal, Unit), FileFault>
    ensures { Gives result (quantity_in sort called.now q.now) }
{
    let name = q.name.as_str();
    let attributes = q.attributes.as_slice();
    let Some(value) = value_of("value", attributes) else {
        return Err(missing(alloc, called, name));
    };
    let Some(word) = value_of("unit", attributes) else {
        return Err(missing(alloc, called, name));
    };
    let Some(unit) = unit_of(sort, word) else {
        return Err(bad_unit(alloc, called, name));
    };
    match read_decimal(value) {
        Ok(value) => Ok((value, unit)),
        Err(_) => Err(bad_value(alloc, called, name)),
    }
}

/// The bound that a quantity of an element that is called so gives on a side.
#[tactic(auto, unfolding(crate::specs::Quantities::bound_in))]
pub fn bound_in(
    alloc: Global,
    sort: Sort,
    side: Side,
    called: &str,
    q: &Element,
) -> Result<i64, FileFault>
    ensures exact { Gives result (bound_in sort side called.now q.now) }
    ensures limits { IfOk result (IsLimited sort) }
{
    let (value, unit) = quantity_in(alloc, sort, called, q)?;
    match value_within(sort, side, &value, unit) {
        Some(bound) => Ok(bound),
        None => Err(too_large(alloc, called, q.name.as_str())),
    }
}

/// The lower and the upper bound that a quantity of an element that is called so gives.
#[tactic(auto, unfolding(crate::specs::Quantities::bounds_in))]
pub fn bounds_in(
    alloc: Global,
    sort: Sort,
    called: &str,
    q: &Element,
) -> Result<(i64, i64), FileFault>
    ensures exact { Gives result (bounds_in sort called.now q.now) }
    ensures limits { IfOk result (AreLimited sort) }
{
    let (value, unit) = quantity_in(alloc, sort, called, q)?;
    let Some(low) = value_within(sort, Side::Down, &value, unit) else {
        return Err(too_large(alloc, called, q.name.as_str()));
    };
    match value_within(sort, Side::Up, &value, unit) {
        Some(high) => Ok((low, high)),
        None => Err(too_large(alloc, called, q.name.as_str())),
    }
}

/// The bound on a side where none is given: the widest within the limits.
pub fn default_of(sort: Sort, side: Side) -> i64
    ensures exact { result ≡ default_of sort side }
    ensures limits { IsLimited sort result }
{
    match (sort, side) {
        (Sort::Flow, Side::Down) => -MAX_FLOW,
        (Sort::Flow, Side::Up) => MAX_FLOW,
        (_, Side::Down) => 0,
        (_, Side::Up) => MAX_PRESSURE,
    }
}

/// The bound on a side that the first child of a name gives, or the widest one without such a
/// child. `below` are the elements that follow the element.
pub fn bound_of(
    alloc: Global,
    sort: Sort,
    side: Side,
    name: &str,
    e: &Element,
    below: &[Element],
) -> Result<i64, FileFault>
    ensures exact { Gives result (bound_of sort side name.now e.now below.now) }
    ensures limits { IfOk result (IsLimited sort) }
{
    match child(e.depth, name, below) {
        Some((q, _)) => bound_in(alloc, sort, side, label(e), q),
        None => Ok(default_of(sort, side)),
    }
}
