// The numbers.
ghost use Rattle.std.specs.Prelude.{◌≤◌, ◌^◌, unsigned_abs};

/// The greatest number.
pub const MOST: i64 = 1 << 62;

/// The number within 2^62 either way that is next to `x`.
pub fn clamped(x: i128) -> i64
    ensures { unsigned_abs result ≤ 2 ^ 62 }
{
    if x > MOST as i128 {
        MOST
    } else if x < -(MOST as i128) {
        -MOST
    } else {
        x as i64
    }
}

/// The sum, clamped.
pub fn sum(a: i64, b: i64) -> i64
    ensures { unsigned_abs result ≤ 2 ^ 62 }
{
    clamped(a as i128 + b as i128)
}

/// The first less the second, clamped.
pub fn difference(a: i64, b: i64) -> i64
    ensures { unsigned_abs result ≤ 2 ^ 62 }
{
    clamped(a as i128 - b as i128)
}

/// The product divided by 2^shift, rounded down and clamped.
pub fn scaled(a: i64, b: i64, shift: u32) -> i64
    requires { shift ≤ 126 }
    ensures { unsigned_abs result ≤ 2 ^ 62 }
{
    clamped((a as i128 * b as i128) >> shift)
}

/// What a share of `whole` the `part` is, in units of 2^-60, clamped; 0 where `whole` isn't above 0.
pub fn share(part: i64, whole: i64) -> i64
    ensures { unsigned_abs result ≤ 2 ^ 62 }
{
    if whole <= 0 {
        return 0;
    }
    clamped(part as i128 * 0x1000_0000_0000_0000 / whole as i128)
}

// A number that counts as 0 at least.
fn natural(x: i64) -> u64 {
    x.max(0).unsigned_abs()
}

// The number within 2^62 that is next to `x`.
fn capped(x: u128) -> i64
    ensures { unsigned_abs result ≤ 2 ^ 62 }
{
    if x > MOST as u128 { MOST } else { x as i64 }
}

// The product of two numbers that count as 0 at least.
fn product(a: i64, b: i64) -> u128 {
    natural(a) as u128 * natural(b) as u128
}

/// What a share of the product of `a` and `b` the `part` is, in units of 2^-60, clamped; 0 where the product is 0. Each of
/// the three counts as 0 at least.
pub fn share_of_product(part: i64, a: i64, b: i64) -> i64
    ensures { unsigned_abs result ≤ 2 ^ 62 }
{
    let whole = product(a, b);
    if whole == 0 {
        return 0;
    }
    capped(product(part, 1 << 60) / whole)
}

/// The product of `a` and `b` divided by `whole`, rounded towards 0 and clamped; 0 where `whole` isn't above 0.
pub fn portion(a: i64, b: i64, whole: i64) -> i64
    ensures { unsigned_abs result ≤ 2 ^ 62 }
{
    if whole <= 0 {
        return 0;
    }
    clamped(a as i128 * b as i128 / whole as i128)
}

/// The least whole number that is at least the product of `a` and `b` divided by `whole`, clamped; 0 where `whole` isn't
/// above 0. `a` and `b` count as 0 at least.
pub fn portion_above(a: i64, b: i64, whole: i64) -> i64
    ensures { unsigned_abs result ≤ 2 ^ 62 }
{
    let whole = natural(whole) as u128;
    if whole == 0 {
        return 0;
    }
    capped(product(a, b).saturating_add(whole - 1) / whole)
}

/// `rate` times the square of `x`, divided by `whole`, rounded down and clamped; 0 where `whole` isn't above 0. The rate
/// counts as 0 at least, and a product past 2^128 as that.
pub fn square_over(rate: i64, x: i64, whole: i64) -> i64
    ensures { unsigned_abs result ≤ 2 ^ 62 }
{
    let whole = natural(whole) as u128;
    if whole == 0 {
        return 0;
    }
    let size = x.unsigned_abs() as u128;
    let square = size * size;
    capped(square.saturating_mul(natural(rate) as u128) / whole)
}

/// The greatest whole number whose square is at most the product of `a` and `b`, clamped. Each of them counts as 0 at
/// least.
pub fn root_below(a: i64, b: i64) -> i64
    ensures { unsigned_abs result ≤ 2 ^ 62 }
{
    capped(product(a, b).isqrt())
}

/// The least whole number whose square is at least the product of `a` and `b`, clamped. Each of them counts as 0 at
/// least.
pub fn root_above(a: i64, b: i64) -> i64
    ensures { unsigned_abs result ≤ 2 ^ 62 }
{
    let square = product(a, b);
    let root = square.isqrt();
    if root * root == square {
        capped(root)
    } else {
        capped(root + 1)
    }
}
