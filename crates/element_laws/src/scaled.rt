// The tests of the laws on numbers that count parts of 1/scale.
ghost use Rattle.std.specs.Prelude.{◌≡◌, ◌-ℤ◌, ◌*ℤ◌, IsTrue};
ghost use Rattle.gas_model.specs.BoxLimits.{IsScale};
ghost use Rattle.gas_model.specs.Curves.{square, at_most, at_least};
ghost use Rattle.base_types.specs.Numbers.{is_difference, is_ratio_part};
ghost use Rattle.gas_model.specs.Laws.{is_pipe_within};
ghost use Rattle.element_laws.specs.Sizes.{is_wide_square, is_wide_difference, BoxEndsAreSafe};

use crate::root_tests;
use gas_model::PipeLaw;

/// The square `high` less the square `low`, times the denominator of a resistance and the scale: what the least and the
/// greatest drop of the law are compared with. The squares lie from -16 to 32 * 10^16 + 16 parts of a Pa^2.
pub fn drop_gap(law: &PipeLaw, scale: i128, high: i128, low: i128) -> i128
    requires law { IsTrue (is_pipe_within law.now) }
    requires scale { IsScale scale }
    requires high { IsTrue (is_wide_square high) }
    requires low { IsTrue (is_wide_square low) }
    ensures { result ≡ law.now.drag.den *ℤ scale *ℤ (high -ℤ low) }
{
    law.drag.den as i128 * scale * (high - low)
}

/// A squared pressure times the square of a number of a ratio. The square lies from -16 to 32 * 10^16 + 16.
pub fn ratio_square(part: i64, s: i128) -> i128
    requires part { IsTrue (is_ratio_part part) }
    requires s { IsTrue (is_wide_square s) }
    ensures { result ≡ square part *ℤ s }
{
    let part = part as i128;
    part * part * s
}

/// A difference of pressures `d`, from 0 to 4 * 10^8 Pa, times the root of the scale.
pub fn root_times(scale: i128, d: i64) -> i128
    requires scale { IsScale scale }
    requires d { IsTrue (is_difference d) }
    ensures wide { IsTrue (is_wide_difference result) }
    ensures square { square result ≡ scale *ℤ square d }
{
    let d = d as i128;
    if scale == 16 { 4 * d } else { d }
}

/// Whether the root of the square `y` is at most the root of the square `x` plus `d` Pa, where squares count parts of
/// 1/scale. They lie from -16 to 32 * 10^16 + 16, and `d` from 0 to 4 * 10^8.
pub fn scaled_at_most(scale: i128, y: i128, x: i128, d: i64) -> bool
    requires scale { IsScale scale }
    requires y { IsTrue (is_wide_square y) }
    requires x { IsTrue (is_wide_square x) }
    requires d { IsTrue (is_difference d) }
    ensures { result ≡ at_most scale y x d }
{
    root_tests::at_most(y, x, root_times(scale, d))
}

/// Whether the root of the square `y` is at least the root of the square `x` plus `d` Pa, where squares count parts of
/// 1/scale. They lie from -16 to 32 * 10^16 + 16, and `d` from 0 to 4 * 10^8.
pub fn scaled_at_least(scale: i128, y: i128, x: i128, d: i64) -> bool
    requires scale { IsScale scale }
    requires y { IsTrue (is_wide_square y) }
    requires x { IsTrue (is_wide_square x) }
    requires d { IsTrue (is_difference d) }
    ensures { result ≡ at_least scale y x d }
{
    root_tests::at_least(y, x, root_times(scale, d))
}

/// The number calls take all ends that a box may have, in ones and in sixteenths.
#[tactic(auto, using(crate::proofs::BoxEnds::box_ends_are_safe))]
pub fn box_ends_are_safe()
    ensures { BoxEndsAreSafe }
{}
