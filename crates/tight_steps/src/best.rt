// The tightest value of an end, where it shrinks the width by an eighth.
ghost use Rattle.std.specs.Prelude.{◌≡◌, ◌⊎◌, ◌^◌, pos, ◌+ℤ◌, ◌*ℤ◌, ◌≤ℤ◌, ◌<ℤ◌, MatchOption};
ghost use Rattle.tight_steps.specs.Best.{cut, IsLoosest, Best, AreSmallEnds};
ghost use Rattle.tree_rules.specs.Looser.{reaches};

use gas_model::Ends;

/// The lower (`low`) or the upper end of a variable becomes `value`.
#[derive(Clone, Copy, Debug, PartialEq, Eq)]
pub struct NewEnd {
    pub low: bool,
    pub value: i128,
}

// The least number that is at least 1 and at least an eighth of the width.
fn least_gain(width: i128) -> i128
    requires from { pos 0 ≤ℤ width }
    requires to { width ≤ℤ pos (2 ^ 64) }
    ensures one { pos 1 ≤ℤ result }
    ensures eighth { width ≤ℤ (pos 8 *ℤ result) }
    ensures least { ((pos 8 *ℤ result) <ℤ (width +ℤ pos 8)) ⊎ (result ≡ pos 1) }
    ensures size { result ≤ℤ pos (2 ^ 64) }
{
    let eighth = (width as u128 + 7) / 8;
    (eighth as i128).max(1)
}

/// The loosest value of the lower (`low`) or the upper end that shrinks the width by an eighth: inward by an eighth of
/// the width, rounded up, and by at least one. `None` exactly where the width is negative, for then the end may not
/// move.
pub fn loosest(low: bool, e: Ends) -> Option<i128>
    requires { AreSmallEnds e }
    ensures { MatchOption result (e.hi <ℤ e.lo) (IsLoosest low e) }
{
    let width = e.hi - e.lo;
    if width < 0 {
        return None;
    }
    let gain = least_gain(width);
    if low {
        Some(e.lo + gain)
    } else {
        Some(e.hi - gain)
    }
}

/// The bound of an end, or one past the other end where that comes first.
pub fn cut(low: bool, e: Ends, bound: i128) -> i128
    requires { AreSmallEnds e }
    ensures { result ≡ cut low e bound }
{
    if low {
        bound.min(e.hi + 1)
    } else {
        bound.max(e.lo - 1)
    }
}

// Whether the value is no tighter than the bound.
fn reaches(low: bool, bound: i128, value: i128) -> bool
    ensures { result ≡ reaches low bound value }
{
    if low { value <= bound } else { bound <= value }
}

/// The tightest value of an end up to a bound, where it shrinks the width by an eighth.
pub fn best_to(low: bool, e: Ends, bound: i128) -> Option<i128>
    requires { AreSmallEnds e }
    ensures { Best low e (reaches low bound) result }
{
    let value = loosest(low, e)?;
    if reaches(low, bound, value) {
        Some(cut(low, e, bound))
    } else {
        None
    }
}
