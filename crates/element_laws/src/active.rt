// The flow and the pressures at the ends of an active arc.
ghost use Rattle.std.specs.Prelude.{◌≡◌, pos, ◌&&◌, int_le, IsTrue};
ghost use Rattle.base_types.specs.Numbers.{is_difference, is_ratio_part, is_square};
ghost use Rattle.gas_model.specs.Curves.{at_most, falls_between, keeps_inner, keeps_ratio, rises_within};

use crate::falls::falls_between;
use crate::numbers::square;
use crate::root_tests::at_most;

// Whether the pressure before an active arc is at least `in_min` Pa, and that after it at most `out_max` Pa.
pub fn keeps_inner(in_min: i64, out_max: i64, u: i128, v: i128) -> bool
    ensures { result ≡ keeps_inner in_min out_max (pos 1) u v }
{
    square(in_min) <= u && v <= square(out_max)
}

// Whether the square `v` is at most the square `u` times the square of the ratio `num / den`.
fn keeps_ratio(num: i64, den: i64, u: i128, v: i128) -> bool
    requires num { IsTrue (is_ratio_part num) }
    requires den { IsTrue (is_ratio_part den) }
    requires from { IsTrue (is_square u) }
    requires to { IsTrue (is_square v) }
    ensures { result ≡ keeps_ratio num den u v }
{
    square(den) * v <= square(num) * u
}

// Whether the pressure rises from the square `u` to the square `v`, by at most `rise_max` Pa.
fn rises_at_most(rise_max: i64, u: i128, v: i128) -> bool
    requires rise { IsTrue (is_difference rise_max) }
    requires from { IsTrue (is_square u) }
    requires to { IsTrue (is_square v) }
    ensures { result ≡ (int_le u v && at_most (pos 1) v u rise_max) }
{
    u <= v && at_most(v, u, rise_max as i128)
}

// The same, where it rises at most to its `num / den`-fold.
fn rises_within(num: i64, den: i64, rise_max: i64, u: i128, v: i128) -> bool
    requires num { IsTrue (is_ratio_part num) }
    requires den { IsTrue (is_ratio_part den) }
    requires rise { IsTrue (is_difference rise_max) }
    requires from { IsTrue (is_square u) }
    requires to { IsTrue (is_square v) }
    ensures { result ≡ rises_within num den rise_max (pos 1) u v }
{
    rises_at_most(rise_max, u, v) && keeps_ratio(num, den, u, v)
}

// Whether the flow goes forward, and the pressure rises so.
pub fn flows_up(num: i64, den: i64, rise_max: i64, q: i128, u: i128, v: i128) -> bool
    requires num { IsTrue (is_ratio_part num) }
    requires den { IsTrue (is_ratio_part den) }
    requires rise { IsTrue (is_difference rise_max) }
    requires from { IsTrue (is_square u) }
    requires to { IsTrue (is_square v) }
    ensures { result ≡ (int_le (pos 0) q && rises_within num den rise_max (pos 1) u v) }
{
    q >= 0 && rises_within(num, den, rise_max, u, v)
}

// Whether the flow goes forward, and the pressure falls by `low` to `high` Pa.
pub fn flows_down(low: i64, high: i64, q: i128, u: i128, v: i128) -> bool
    requires low { IsTrue (is_difference low) }
    requires high { IsTrue (is_difference high) }
    requires from { IsTrue (is_square u) }
    requires to { IsTrue (is_square v) }
    ensures { result ≡ (int_le (pos 0) q && falls_between low high (pos 1) u v) }
{
    q >= 0 && falls_between(low, high, u, v)
}
