ghost use Rattle.std.specs.Prelude.{◌≡◌, ℤ, pos, ◌+ℤ◌, ◌-ℤ◌, ◌*ℤ◌, ◌≤ℤ◌, ◌<ℤ◌, IfSome, IsNone, IsTrue, ◌↔◌};
ghost use Rattle.interval_core.specs.Enclosures.{IsPair, IsSmall, Has, HaveCommon, IsSum, IsDifference, IsNegative, IsProduct, IsMeet, IsLeastOf, IsGreatestOf, HaveSmallProducts};
ghost use Rattle.interval_core.specs.Squares.{IsFactorRange, HaveSmallSquares, IsSignedSquare, IsLowest, IsHighest};
ghost use Rattle.gas_units.specs.Rounds.{IsFloor};

use crate::grid::Grid;
use gas_units::{ceil_div, floor_div};
use std::marker::{Model, PhantomData};
use std::ops::{Add, Neg, Sub};

/// The fractions from a lower to an upper end, both counted in units of the grid: `lo <= SCALE * x <= hi`. The ends
/// are in order and within 2^126, which is to say that their sizes are below it.
#[derive_where(Clone, Copy)]
#[derive(Drop)]
pub struct Interval<G: Grid> {
    lo: i128,
    hi: i128,
    grid: PhantomData<G>,
}

impl<G: Grid> Model for Interval<G> {
    ghost Value = { ℤ × ℤ };

    ghost view = { λ a. (a.lo, a.hi) };

    ghost inverse = { λ d. record { lo = d.0; hi = d.1; grid = record {} } };

    ghost invariant = { λ a. IsPair (a.lo, a.hi) };
}

impl<G: Grid> Interval<G> {
    /// The interval of these ends, in units of the grid. `None` exactly where they are out of order or not within
    /// 2^126.
    pub fn of(lo: i128, hi: i128) -> Option<Interval<G>>
        ensures some { IfSome result (λ r. (r.0 ≡ lo) × (r.1 ≡ hi) × IsPair r) }
        ensures none { IsNone result ↔ (IsPair (lo, hi) → ⊥) }
    {
        if lo <= hi && lo.unsigned_abs() < 1 << 126 && hi.unsigned_abs() < 1 << 126 {
            Some(Interval {
                lo,
                hi,
                grid: PhantomData,
            })
        } else {
            None
        }
    }

    /// The lower end, in units of the grid.
    pub fn lo(&self) -> i128
        ensures value { result ≡ self.now.0 }
        ensures pair { IsPair self.now }
    {
        self.lo
    }

    /// The upper end, in units of the grid.
    pub fn hi(&self) -> i128
        ensures value { result ≡ self.now.1 }
        ensures pair { IsPair self.now }
    {
        self.hi
    }

    /// The upper end less the lower one, in units of the grid.
    pub fn width(&self) -> i128
        ensures { result ≡ self.now.1 -ℤ self.now.0 }
    {
        self.hi - self.lo
    }

    /// The sum of the ends halved and rounded down, in units of the grid.
    pub fn mid(&self) -> i128
        ensures { IsFloor (self.now.0 +ℤ self.now.1) (pos 2) result }
    {
        floor_div(self.lo + self.hi, 2)
    }

    /// Whether the fraction `num / d` lies inside. `d` is at least 1, and the products of `d` and the ends, and of
    /// `num` and `SCALE`, lie within 2^126.
    pub fn contains(&self, num: i128, d: i128) -> bool
        requires d { pos 1 ≤ℤ d }
        requires low { IsSmall (self.now.0 *ℤ d) }
        requires high { IsSmall (self.now.1 *ℤ d) }
        requires number { IsSmall (G.SCALE *ℤ num) }
        ensures { IsTrue result ↔ Has G.SCALE self.now num d }
    {
        let scaled = G::SCALE * num;
        self.lo * d <= scaled && scaled <= self.hi * d
    }

    /// What both have in common. `None` exactly where that is nothing.
    pub fn meet(self, other: Interval<G>) -> Option<Interval<G>>
        ensures some { IfSome result (λ r. IsMeet G.SCALE self other r) }
        ensures none { IsNone result ↔ (HaveCommon G.SCALE self other → ⊥) }
    {
        let lo = self.lo.max(other.lo);
        let hi = self.hi.min(other.hi);
        if lo <= hi {
            Some(Interval {
                lo,
                hi,
                grid: PhantomData,
            })
        } else {
            None
        }
    }
}

/// The sums of the fractions of both. The ends of the result must lie within 2^126.
impl<G: Grid> Add for Interval<G> {
    type Output = Interval<G>;

    ghost can_add = { λ a b. IsSmall (a.0 +ℤ b.0) × IsSmall (a.1 +ℤ b.1) };

    ghost add_gives = { λ a b r. IsSum G.SCALE a b r };

    fn add(self, other: Interval<G>) -> Interval<G> {
        Interval {
            lo: self.lo + other.lo,
            hi: self.hi + other.hi,
            grid: PhantomData,
        }
    }
}

/// The fractions of the first less those of the second. The ends of the result must lie within 2^126.
impl<G: Grid> Sub for Interval<G> {
    type Output = Interval<G>;

    ghost can_sub = { λ a b. IsSmall (a.0 -ℤ b.1) × IsSmall (a.1 -ℤ b.0) };

    ghost sub_gives = { λ a b r. IsDifference G.SCALE a b r };

    fn sub(self, other: Interval<G>) -> Interval<G> {
        Interval {
            lo: self.lo - other.hi,
            hi: self.hi - other.lo,
            grid: PhantomData,
        }
    }
}

/// The negated fractions.
impl<G: Grid> Neg for Interval<G> {
    type Output = Interval<G>;

    ghost neg_gives = { λ a r. IsNegative G.SCALE a r };

    fn neg(self) -> Interval<G> {
        Interval {
            lo: -self.hi,
            hi: -self.lo,
            grid: PhantomData,
        }
    }
}

/// The least of four numbers.
fn least_of(w: i128, x: i128, y: i128, z: i128) -> i128
    ensures { IsLeastOf result w x y z }
{
    w.min(x).min(y.min(z))
}

/// The greatest of four numbers.
fn greatest_of(w: i128, x: i128, y: i128, z: i128) -> i128
    ensures { IsGreatestOf result w x y z }
{
    w.max(x).max(y.max(z))
}

impl<G: Grid> Interval<G> {
    /// The products of the fractions of both. Each product of an end of the one and an end of the other lies within
    /// 2^126.
    pub fn times(self, other: Interval<G>) -> Interval<G>
        requires { HaveSmallProducts self other }
        ensures { IsProduct G.SCALE self other result }
    {
        let low_low = self.lo * other.lo;
        let low_high = self.lo * other.hi;
        let high_low = self.hi * other.lo;
        let high_high = self.hi * other.hi;
        let least = least_of(low_low, low_high, high_low, high_high);
        let greatest = greatest_of(low_low, low_high, high_low, high_high);
        Interval {
            lo: floor_div(least, G::SCALE),
            hi: ceil_div(greatest, G::SCALE),
            grid: PhantomData,
        }
    }
}

/// The least of `r * x * |x|` over the factors r from `lo` to `hi`.
fn lowest(x: i128, lo: i128, hi: i128) -> i128
    requires range { (pos 1 ≤ℤ lo) × (lo ≤ℤ hi) }
    requires size { IsSmall (hi *ℤ (x *ℤ x)) }
    ensures { IsLowest lo hi x result }
{
    if x < 0 { -(hi * (x * x)) } else { lo * (x * x) }
}

/// The greatest of `r * x * |x|` over the factors r from `lo` to `hi`.
fn highest(x: i128, lo: i128, hi: i128) -> i128
    requires range { (pos 1 ≤ℤ lo) × (lo ≤ℤ hi) }
    requires size { IsSmall (hi *ℤ (x *ℤ x)) }
    ensures { IsHighest lo hi x result }
{
    if x < 0 { -(lo * (x * x)) } else { hi * (x * x) }
}

impl<G: Grid> Interval<G> {
    /// `r * q * |q|` for each fraction q inside and each factor r from `lo / den` to `hi / den`. `lo`, `hi` and
    /// `den` lie from 1 to 2^38, `lo` isn't greater than `hi`, and `hi` times the square of each end of the interval
    /// lies within 2^126.
    pub fn signed_square_over(self, lo: i128, hi: i128, den: i128) -> Interval<G>
        requires range { IsFactorRange lo hi den }
        requires size { HaveSmallSquares hi self }
        ensures { IsSignedSquare G.SCALE lo hi den self result }
    {
        let least = lowest(self.lo, lo, hi);
        let greatest = highest(self.hi, lo, hi);
        let unit = den * G::SCALE;
        Interval {
            lo: floor_div(least, unit),
            hi: ceil_div(greatest, unit),
            grid: PhantomData,
        }
    }
}
