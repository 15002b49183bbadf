// Intervals in ones and in sixteenths.
ghost use Rattle.std.specs.Prelude.{◌≡◌, IfOk};

use interval_core::{Grid, Interval, Ones, Sixteenths};
use std::test::Fail;

fn interval<G: Grid>(lo: i128, hi: i128) -> Result<Interval<G>, Fail>
    ensures { IfOk result (λ r. (r.0 ≡ lo) × (r.1 ≡ hi)) }
{
    Ok(Interval::of(lo, hi).ok_or("ends out of order")?)
}

// -7 / 2 = -3.5 lies between -4 and -3, and is -56 sixteenths.
#[test]
fn grids_give_their_next_numbers(rt: HostRuntime) {
    assert_eq!(rt; (Ones::down(-7, 2), Ones::up(-7, 2)), (-4, -3));
    assert_eq!(rt;
        (Sixteenths::down(-7, 2), Sixteenths::up(-7, 2)),
        (-56, -56)
    );
}

// The least of 2, -8, -3, 12 is -8, and the greatest 12. The sum of -3 and 0 halved is -1.5.
#[test]
fn operations_give_the_least_enclosing_ends(rt: HostRuntime) -> Result<(), Fail> {
    let a = interval::<Ones>(-2, 3)?;
    let b = interval::<Ones>(-1, 4)?;
    let product = a.times(b);
    assert_eq!(rt; (product.lo(), product.hi()), (-8, 12));
    let sum = a + b;
    assert_eq!(rt; (sum.lo(), sum.hi()), (-3, 7));
    let difference = a - b;
    assert_eq!(rt; (difference.lo(), difference.hi()), (-6, 4));
    let negative = -a;
    assert_eq!(rt; (negative.lo(), negative.hi()), (-3, 2));
    assert_eq!(rt; a.width(), 5);
    assert_eq!(rt; interval::<Ones>(-3, 0)?.mid(), -2);
    Ok(())
}

#[test]
fn nothing_is_common_past_the_ends(rt: HostRuntime) -> Result<(), Fail> {
    let far = interval::<Ones>(2, 3)?;
    assert!(rt; interval::<Ones>(0, 1)?.meet(far).is_none());
    let common = interval::<Ones>(0, 2)?.meet(far).ok_or("common")?;
    assert_eq!(rt; (common.lo(), common.hi()), (2, 2));
    assert!(rt; Interval::<Ones>::of(1, 0).is_none());
    Ok(())
}

// 2/3 * -4 = -8/3 and 2/3 * 9 = 6. 1/3 * 1 = 1/3 and 2/3 * 4 = 8/3.
#[test]
fn signed_squares_take_the_factor_that_encloses(rt: HostRuntime) -> Result<(), Fail> {
    let across = interval::<Ones>(-2, 3)?.signed_square_over(1, 2, 3);
    assert_eq!(rt; (across.lo(), across.hi()), (-3, 6));
    let up = interval::<Ones>(1, 2)?.signed_square_over(1, 2, 3);
    assert_eq!(rt; (up.lo(), up.hi()), (0, 3));
    Ok(())
}

// From 0.5 to 1.5 in sixteenths: the squares go from 0.25 to 2.25, and half of it from 0.25 to 0.75.
#[test]
fn sixteenths_count_sixteen_to_a_unit(rt: HostRuntime) -> Result<(), Fail> {
    let a = interval::<Sixteenths>(8, 24)?;
    let square = a.signed_square_over(1, 1, 1);
    assert_eq!(rt; (square.lo(), square.hi()), (4, 36));
    let half = interval::<Sixteenths>(8, 8)?;
    let product = a.times(half);
    assert_eq!(rt; (product.lo(), product.hi()), (4, 12));
    assert!(rt; a.contains(3, 2) && !a.contains(7, 4));
    Ok(())
}
