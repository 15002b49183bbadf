// Tests of the roots of squares, which are worked in whole numbers.
ghost use Rattle.std.specs.Prelude.{◌≡◌, ◌*◌, ◌^◌, pos, ◌*ℤ◌, IsTrue};
ghost use Rattle.integer_laws.specs.Sizes.{IsWithin};
ghost use Rattle.gas_model.specs.Curves.{square, excess, at_most, at_least};
ghost use Rattle.element_laws.specs.Sizes.{is_wide_square, is_wide_difference};

// The square `y` less the square `x` less the square of `d`.
fn excess(y: i128, x: i128, d: i128) -> i128
    requires y { IsTrue (is_wide_square y) }
    requires x { IsTrue (is_wide_square x) }
    requires d { IsTrue (is_wide_difference d) }
    ensures value { result ≡ excess (pos 1) y x d }
    ensures size { IsWithin (4 * 10 ^ 18) result }
{
    y - x - d * d
}

// Four times the square of `d`, times `x`.
fn four_squares(x: i128, d: i128) -> i128
    requires x { IsTrue (is_wide_square x) }
    requires d { IsTrue (is_wide_difference d) }
    ensures { result ≡ pos 4 *ℤ square d *ℤ (pos 1 *ℤ x) }
{
    4 * (d * d) * x
}

/// Whether the root of `y` is at most the root of `x` plus `d`, worked without a root: `y - x - d^2` is at most 0, or
/// its square is at most `4 * d^2 * x`. The squares `y` and `x` lie from -16 to 32 * 10^16 + 16, and `d` from 0 to
/// 16 * 10^8.
pub fn at_most(y: i128, x: i128, d: i128) -> bool
    requires y { IsTrue (is_wide_square y) }
    requires x { IsTrue (is_wide_square x) }
    requires d { IsTrue (is_wide_difference d) }
    ensures { result ≡ at_most (pos 1) y x d }
{
    let excess = excess(y, x, d);
    excess <= 0 || excess * excess <= four_squares(x, d)
}

/// Whether the root of `y` is at least the root of `x` plus `d`, worked without a root: `y - x - d^2` is at least 0, and
/// its square at least `4 * d^2 * x`. The squares `y` and `x` lie from -16 to 32 * 10^16 + 16, and `d` from 0 to
/// 16 * 10^8.
pub fn at_least(y: i128, x: i128, d: i128) -> bool
    requires y { IsTrue (is_wide_square y) }
    requires x { IsTrue (is_wide_square x) }
    requires d { IsTrue (is_wide_difference d) }
    ensures { result ≡ at_least (pos 1) y x d }
{
    let excess = excess(y, x, d);
    excess >= 0 && four_squares(x, d) <= excess * excess
}
