ghost use Rattle.std.specs.Prelude.{◌≡◌, ◌≤◌, ◌<◌, ◌+◌, ◌*◌, ◌^◌, ◌↔◌, ℕ, ℤ, pos, negsuc, ◌≤ℤ◌, ◌+ℤ◌, true, IsTrue, MatchOption, MatchResult, IfOk, OnErr};
ghost use Rattle.gas_units.specs.Grid.{read_unit, unit_power, unit_offset, place, up_part, down_part, IsSize, is_away, Rounds, signed_size, num, den, IsWithin, IsGrid, HasNoGrid, IsPast, IsFar, grid_value, GridValueRounds};
ghost use Rattle.gas_units.specs.declared.decimal.NumFault.TheVariants as fault;

use crate::decimal::{Decimal, NumFault};

/// A unit of pressure, or of flow at norm conditions.
#[derive(Clone, Copy, Debug, PartialEq, Eq)]
pub enum Unit {
    /// `bar`: 100,000 Pa.
    Bar,
    /// `barg`, over the normal pressure of the air: bar, plus 101,325 Pa.
    Barg,
    /// `Pa`.
    Pa,
    /// `1000m_cube_per_hour`: 1,000,000 l/h.
    KiloCube,
    /// `m_cube_per_hour`: 1,000 l/h.
    Cube,
}

/// To which side a value that isn't whole is rounded.
#[derive(Clone, Copy, Debug, PartialEq, Eq)]
pub enum Side {
    /// To the greatest whole number at most at the value.
    Down,
    /// To the least whole number at least at the value.
    Up,
}

// The greatest size of a grid value.
const MOST: i128 = 1_000_000_000_000_000_000;

/// The unit that a word names, and `None` exactly for every other word.
pub fn read_unit(text: &str) -> Option<Unit>
    ensures { result ≡ read_unit text.now }
{
    if text == "bar" {
        Some(Unit::Bar)
    } else if text == "barg" {
        Some(Unit::Barg)
    } else if text == "Pa" {
        Some(Unit::Pa)
    } else if text == "1000m_cube_per_hour" {
        Some(Unit::KiloCube)
    } else if text == "m_cube_per_hour" {
        Some(Unit::Cube)
    } else {
        None
    }
}

fn unit_power(unit: Unit) -> i64
    ensures { result ≡ pos (unit_power unit) }
{
    match unit {
        Unit::Bar | Unit::Barg => 5,
        Unit::Pa => 0,
        Unit::KiloCube => 6,
        Unit::Cube => 3,
    }
}

fn unit_offset(unit: Unit) -> i128
    ensures { result ≡ pos (unit_offset unit) }
{
    match unit {
        Unit::Barg => 101_325,
        Unit::Bar | Unit::Pa | Unit::KiloCube | Unit::Cube => 0,
    }
}

// The whole part of a size, and whether nothing is left.
#[derive(Clone, Copy, Debug, PartialEq, Eq)]
pub struct Size {
    pub whole: u128,
    pub is_exact: bool,
}

// A size of whole places, or none where it is past each grid value.
fn whole_size(digits: u128, place: u32) -> Option<Size>
    ensures { MatchOption result (10 ^ 19 ≤ digits * 10 ^ place)
        (λ s. IsSize (digits * 10 ^ place) 1 s) }
{
    if digits == 0 {
        return Some(Size {
            whole: 0,
            is_exact: true,
        });
    }
    if place > 18 || digits > 10_000_000_000_000_000_000 {
        return None;
    }
    Some(Size {
        whole: digits * 10u128.pow(place),
        is_exact: true,
    })
}

// A size with places after the point.
fn part_size(digits: u128, place: u32) -> Size
    requires { 0 < place }
    ensures { IsSize digits (10 ^ place) result }
{
    if place > 38 {
        return Size {
            whole: 0,
            is_exact: digits == 0,
        };
    }
    let den = 10u128.pow(place);
    Size {
        whole: digits / den,
        is_exact: digits % den == 0,
    }
}

// The power of ten of a value in grid units.
fn grid_place(value: &Decimal, unit: Unit) -> i64
    ensures exact { result ≡ place value.now unit }
    ensures low { negsuc 2147483647 ≤ℤ result }
    ensures high { result ≤ℤ pos 2147483653 }
{
    value.shift as i64 + unit_power(unit)
}

// The places below the line.
fn down_places(place: i64) -> u32
    requires below { place ≤ℤ negsuc 0 }
    requires low { negsuc 2147483647 ≤ℤ place }
    ensures exact { result ≡ down_part place }
    ensures some { 0 < result }
{
    place.unsigned_abs() as u32
}

// The places above the line.
fn up_places(place: i64) -> u32
    requires above { pos 0 ≤ℤ place }
    requires high { place ≤ℤ pos 2147483653 }
    ensures { result ≡ up_part place }
{
    place as u32
}

// The size of a value in grid units, or none where it is past each grid value.
fn size_in(value: &Decimal, unit: Unit) -> Option<Size>
    ensures { MatchOption result (IsPast value.now unit) (λ s.
        IsSize (value.now.digits * 10 ^ up_part (place value.now unit)) (den value.now unit) s) }
{
    let place = grid_place(value, unit);
    if place >= 0 {
        whole_size(value.digits, up_places(place))
    } else {
        Some(part_size(value.digits, down_places(place)))
    }
}

// A size with its sign, rounded.
fn signed_size(negative: bool, side: Side, size: Size) -> i128
    requires { size.whole < 10 ^ 38 }
    ensures exact { result ≡ signed_size negative side size }
    ensures low { negsuc (10 ^ 38) ≤ℤ result }
    ensures high { result ≤ℤ pos (10 ^ 38) }
{
    let away = match side {
        Side::Down => negative,
        Side::Up => !negative,
    };
    let whole = if !size.is_exact && away {
        size.whole + 1
    } else {
        size.whole
    };
    let whole = whole as i128;
    if negative { -whole } else { whole }
}

fn with_offset(size: i128, unit: Unit) -> i128
    requires low { negsuc (10 ^ 38) ≤ℤ size }
    requires high { size ≤ℤ pos (10 ^ 38) }
    ensures { result ≡ size +ℤ pos (unit_offset unit) }
{
    size + unit_offset(unit)
}

fn is_within(grid: i128) -> bool
    ensures { IsTrue result ↔ IsWithin grid }
{
    -MOST <= grid && grid <= MOST
}

/// The whole number of Pa or l/h next to a value in a unit, on a side.
///
/// A value that is whole is itself on both sides. `TooLarge` comes exactly where that whole number
/// lies outside -10^18 to 10^18: below them for a negative value, above them for any other.
pub fn to_grid(value: &Decimal, unit: Unit, side: Side) -> Result<i128, NumFault>
    ensures grid { MatchResult result
        (λ q. IsGrid side value.now unit q × IsWithin q)
        (λ e. (e ≡ fault.TooLarge) × HasNoGrid side value.now unit) }
    ensures value { IfOk result (λ q. q ≡ grid_value side value.now unit) }
    ensures far { OnErr result (IsFar value.now.negative (grid_value side value.now unit)) }
{
    let Some(size) = size_in(value, unit) else {
        return Err(NumFault::TooLarge);
    };
    let grid = with_offset(signed_size(value.negative, side, size), unit);
    if !is_within(grid) {
        return Err(NumFault::TooLarge);
    }
    Ok(grid)
}

/// The whole value on a side is the one whole number that rounds to that side.
#[tactic(auto, using(crate::proofs::Rounding::grid_value_rounds))]
pub fn grid_value_rounds()
    ensures { GridValueRounds }
{}
