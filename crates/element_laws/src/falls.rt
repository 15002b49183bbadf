// Pressures that fall by a constant loss, or by what an active control valve takes.
ghost use Rattle.std.specs.Prelude.{◌≡◌, pos, IsTrue};
ghost use Rattle.base_types.specs.Numbers.{is_difference, is_square};
ghost use Rattle.gas_model.specs.Curves.{falls_between, at_least_zero, nears_fall, is_close, nears_loss};

use crate::root_tests::{at_least, at_most};

// Whether the pressure falls from the square `x` to the square `y` by `low` to `high` Pa.
pub fn falls_between(low: i64, high: i64, x: i128, y: i128) -> bool
    requires low { IsTrue (is_difference low) }
    requires high { IsTrue (is_difference high) }
    requires x { IsTrue (is_square x) }
    requires y { IsTrue (is_square y) }
    ensures { result ≡ falls_between low high (pos 1) x y }
{
    at_least(x, y, low as i128) && at_most(x, y, high as i128)
}

fn at_least_zero(z: i128) -> i128
    ensures { result ≡ at_least_zero z }
{
    if z >= 0 { z } else { 0 }
}

// The same, where the square `x` may be off by `tol`.
fn nears_fall(low: i64, high: i64, tol: i128, x: i128, y: i128) -> bool
    requires low { IsTrue (is_difference low) }
    requires high { IsTrue (is_difference high) }
    requires tol { IsTrue (is_square tol) }
    requires x { IsTrue (is_square x) }
    requires y { IsTrue (is_square y) }
    ensures { result ≡ nears_fall low high tol x y }
{
    at_least(x + tol, y, low as i128) && at_most(at_least_zero(x - tol), y, high as i128)
}

// Whether two squares differ by at most `tol`.
fn is_close(tol: i128, x: i128, y: i128) -> bool
    requires x { IsTrue (is_square x) }
    requires y { IsTrue (is_square y) }
    ensures { result ≡ is_close tol x y }
{
    x - y <= tol && y - x <= tol
}

// Whether the law of a constant loss from `low` to `high` Pa holds of the flow `q`, where a square may be off by `tol`.
pub fn nears_loss(low: i64, high: i64, tol: i128, q: i128, u: i128, v: i128) -> bool
    requires low { IsTrue (is_difference low) }
    requires high { IsTrue (is_difference high) }
    requires tol { IsTrue (is_square tol) }
    requires from { IsTrue (is_square u) }
    requires to { IsTrue (is_square v) }
    ensures { result ≡ nears_loss low high tol q u v }
{
    if q > 0 {
        nears_fall(low, high, tol, u, v)
    } else if q < 0 {
        nears_fall(low, high, tol, v, u)
    } else {
        is_close(tol, u, v)
    }
}
