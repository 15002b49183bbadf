ghost use Rattle.std.specs.Prelude.{◌≡◌, ◌⊎◌, ℤ, pos, ◌*ℤ◌, ◌≤ℤ◌};
ghost use Rattle.std.proofs.Common.{inl, inr, refl};
ghost use Rattle.interval_core.specs.Enclosures.{IsSmall};
ghost use Rattle.gas_units.specs.Rounds.{IsFloor, IsCeiling};

use gas_units::{ceil_div, floor_div};

/// The numbers that the ends of an interval may be: the whole numbers divided by `SCALE`, which is 1 or 16.
pub trait Grid {
    const SCALE: i128;

    ghost SCALE: { ℤ };

    /// The greatest number of the grid at most `num / den`, times `SCALE`. `den` is at least 1, and `num * SCALE`
    /// within 2^126.
    fn down(num: i128, den: i128) -> i128
        requires den { pos 1 ≤ℤ den }
        requires size { IsSmall (num *ℤ SCALE) }
        ensures { IsFloor (num *ℤ SCALE) den result };

    /// The least number of the grid at least `num / den`, times `SCALE`. `den` is at least 1, and `num * SCALE`
    /// within 2^126.
    fn up(num: i128, den: i128) -> i128
        requires den { pos 1 ≤ℤ den }
        requires size { IsSmall (num *ℤ SCALE) }
        ensures { IsCeiling (num *ℤ SCALE) den result };

    ghost scale_is: { (SCALE ≡ pos 1) ⊎ (SCALE ≡ pos 16) };
}

/// The whole numbers.
pub struct Ones;

impl Grid for Ones {
    const SCALE: i128 = 1;

    ghost SCALE = { pos 1 };

    fn down(num: i128, den: i128) -> i128 {
        floor_div(num, den)
    }

    fn up(num: i128, den: i128) -> i128 {
        ceil_div(num, den)
    }

    ghost scale_is = { inl refl };
}

/// The sixteenths.
pub struct Sixteenths;

impl Grid for Sixteenths {
    const SCALE: i128 = 16;

    ghost SCALE = { pos 16 };

    fn down(num: i128, den: i128) -> i128 {
        floor_div(num * 16, den)
    }

    fn up(num: i128, den: i128) -> i128 {
        ceil_div(num * 16, den)
    }

    ghost scale_is = { inr refl };
}
