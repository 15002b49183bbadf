// Squares whose root is at most, or at least, that of another square and some Pa, each by one root.
ghost use Rattle.std.specs.Prelude.{◌≡◌, ◌↔◌, ℤ, pos, ◌≤ℤ◌, Bool, false, IsTrue};
ghost use Rattle.gas_model.specs.BoxLimits.{IsScale};
ghost use Rattle.gas_model.specs.Curves.{at_least_zero, at_most, at_least};
ghost use Rattle.base_types.specs.Numbers.{is_difference};
ghost use Rattle.element_laws.specs.Sizes.{is_wide_square, is_wide_difference};
ghost use Rattle.tree_rules.specs.TightestRoots.{under_root};
ghost use Rattle.tree_rules.specs.Looser.{reaches};
ghost use Rattle.pressure_propagate.specs.SquareRules.{in_reach, apart};

use element_laws::root_times;
use gas_units::{root_down, root_up};

// Four times the squares of `e` and of a pressure, or 0 where that is below.
fn under_root(e: i128, x: i128) -> u128
    requires e { IsTrue (is_wide_difference e) }
    requires x { IsTrue (is_wide_square x) }
    ensures { pos result ≡ at_least_zero (under_root e x) }
{
    let product = 4 * (e * e) * x;
    if product >= 0 { product as u128 } else { 0 }
}

// The greatest C whose root is at most the root of `x` and `d` Pa.
fn greatest_at_most(scale: i128, x: i128, d: i64) -> i128
    requires scale { IsScale scale }
    requires x { IsTrue (is_wide_square x) }
    requires d { IsTrue (is_difference d) }
    ensures { (C : ℤ) → IsTrue (at_most scale C x d) ↔ (C ≤ℤ result) }
{
    let e = root_times(scale, d);
    x + e * e + root_down(under_root(e, x)) as i128
}

// The least C whose root is at least the root of `x` and `d` Pa.
fn least_at_least(scale: i128, x: i128, d: i64) -> i128
    requires scale { IsScale scale }
    requires x { IsTrue (is_wide_square x) }
    requires d { IsTrue (is_difference d) }
    ensures { (C : ℤ) → IsTrue (at_least scale C x d) ↔ (result ≤ℤ C) }
{
    let e = root_times(scale, d);
    x + e * e + root_up(under_root(e, x)) as i128
}

// The greatest C from 0 on to whose root and `d` Pa the root of `y` comes, or -1 where there is none.
fn greatest_at_least(scale: i128, y: i128, d: i64) -> i128
    requires scale { IsScale scale }
    requires y { IsTrue (is_wide_square y) }
    requires d { IsTrue (is_difference d) }
    ensures { (C : ℤ) → pos 0 ≤ℤ C → IsTrue (at_least scale y C d) ↔ (C ≤ℤ result) }
{
    let e = root_times(scale, d);
    if y < e * e {
        return -1;
    }
    y + e * e - root_up(under_root(e, y)) as i128
}

// The least C from 0 on beyond whose root and `d` Pa the root of `y` doesn't come.
fn least_at_most(scale: i128, y: i128, d: i64) -> i128
    requires scale { IsScale scale }
    requires y { IsTrue (is_wide_square y) }
    requires d { IsTrue (is_difference d) }
    ensures bound { (C : ℤ) → pos 0 ≤ℤ C → IsTrue (at_most scale y C d) ↔ (result ≤ℤ C) }
    ensures natural { pos 0 ≤ℤ result }
{
    let e = root_times(scale, d);
    if y < e * e {
        return 0;
    }
    y + e * e - root_down(under_root(e, y)) as i128
}

/// Up to where an end of a square may go so that it stays within `d` Pa of the other one.
pub fn reach_bound(scale: i128, other: i128, d: i64, low: bool) -> i128
    requires scale { IsScale scale }
    requires other { IsTrue (is_wide_square other) }
    requires d { IsTrue (is_difference d) }
    ensures bound { (C : ℤ) → pos 0 ≤ℤ C → IsTrue (in_reach scale other d low C) ↔ IsTrue (reaches low result C) }
    ensures natural { low ≡ false → pos 0 ≤ℤ result }
{
    if low {
        greatest_at_least(scale, other, d)
    } else {
        least_at_least(scale, other, d).max(0)
    }
}

/// Up to where an end of a square may go so that it stays apart from the other one by `d` Pa.
pub fn apart_bound(scale: i128, other: i128, d: i64, low: bool) -> i128
    requires scale { IsScale scale }
    requires other { IsTrue (is_wide_square other) }
    requires d { IsTrue (is_difference d) }
    ensures bound { (C : ℤ) → pos 0 ≤ℤ C → IsTrue (apart scale other d low C) ↔ IsTrue (reaches low result C) }
    ensures natural { low ≡ false → pos 0 ≤ℤ result }
{
    if low {
        greatest_at_most(scale, other, d)
    } else {
        least_at_most(scale, other, d)
    }
}
