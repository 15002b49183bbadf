// Whole quotients and roots with their rounding.
ghost use Rattle.std.specs.Prelude.{◌≡◌, ℕ, ◌+◌, ◌*◌, ◌<◌, ◌≤◌, ◌^◌, pos, ◌≤ℤ◌};
ghost use Rattle.gas_units.specs.Rounds.{IsFloor, IsCeiling, IsRootDown, IsRootUp};

/// The greatest whole number at most at `n / d`.
///
/// `d` is at least 1.
pub fn floor_div(n: i128, d: i128) -> i128
    requires { pos 1 ≤ℤ d }
    ensures { IsFloor n d result }
{
    n.div_euclid(d)
}

/// The least whole number at least at `n / d`.
///
/// `d` is at least 1.
pub fn ceil_div(n: i128, d: i128) -> i128
    requires { pos 1 ≤ℤ d }
    ensures { IsCeiling n d result }
{
    let quotient = n.div_euclid(d);
    if n.rem_euclid(d) == 0 {
        quotient
    } else {
        quotient + 1
    }
}

/// The greatest `r` with `r * r <= n`. It is below 2^64.
pub fn root_down(n: u128) -> u128
    ensures root { IsRootDown n result }
    ensures bound { result < 2 ^ 64 }
{
    n.isqrt()
}

/// The least `r` with `r * r >= n`. It is at most 2^64.
pub fn root_up(n: u128) -> u128
    ensures root { IsRootUp n result }
    ensures bound { result ≤ 2 ^ 64 }
{
    let root = n.isqrt();
    if root * root == n { root } else { root + 1 }
}
