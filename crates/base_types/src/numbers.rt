// The limits of numbers, each with its name.
ghost use Rattle.std.specs.Prelude.{◌≡◌};
ghost use Rattle.base_types.specs.Numbers.{between, is_pressure, is_difference, is_flow, is_square, is_drag_part, is_ratio_part};

/// The greatest pressure bound, in Pa.
pub const MAX_PRESSURE: i64 = 100_000_000;

/// The greatest difference of pressures, loss or rise, in Pa.
pub const MAX_DIFFERENCE: i64 = 400_000_000;

/// The greatest flow or supply either way, in l/h.
pub const MAX_FLOW: i64 = 1_000_000_000_000;

/// The greatest squared pressure, in Pa^2.
pub const MAX_SQUARE: i64 = 10_000_000_000_000_000;

/// The greatest tolerance, in Pa^2.
pub const MAX_TOLERANCE: u64 = 10_000_000_000_000_000;

/// The greatest number of a resistance.
pub const MAX_DRAG_PART: i64 = 1 << 38;

/// The greatest number of a ratio.
pub const MAX_RATIO_PART: i64 = 1 << 20;

/// How many boxes a search may split at the most.
pub const MAX_BOXES: u64 = 16_384;

fn is_between(low: i64, x: i64, high: i64) -> bool
    ensures { result ≡ between low x high }
{
    low <= x && x <= high
}

/// Whether a pressure bound lies in its limits, 0 to 10^8 Pa.
pub fn is_pressure(x: i64) -> bool
    ensures { result ≡ is_pressure x }
{
    is_between(0, x, MAX_PRESSURE)
}

/// Whether a difference of pressures, a loss or a rise lies in its limits, 0 to 4 * 10^8 Pa.
pub fn is_difference(x: i64) -> bool
    ensures { result ≡ is_difference x }
{
    is_between(0, x, MAX_DIFFERENCE)
}

/// Whether a flow or a supply lies within 10^12 l/h either way.
pub fn is_flow(x: i64) -> bool
    ensures { result ≡ is_flow x }
{
    is_between(-MAX_FLOW, x, MAX_FLOW)
}

/// Whether a squared pressure lies in its limits, 0 to 10^16 Pa^2.
pub fn is_square(x: i64) -> bool
    ensures { result ≡ is_square x }
{
    is_between(0, x, MAX_SQUARE)
}

/// Whether a number of a resistance lies in its limits, 1 to 2^38.
pub fn is_drag_part(x: i64) -> bool
    ensures { result ≡ is_drag_part x }
{
    is_between(1, x, MAX_DRAG_PART)
}

/// Whether a number of a ratio lies in its limits, 1 to 2^20.
pub fn is_ratio_part(x: i64) -> bool
    ensures { result ≡ is_ratio_part x }
{
    is_between(1, x, MAX_RATIO_PART)
}
