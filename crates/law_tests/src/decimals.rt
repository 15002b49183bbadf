// Decimals, units and rounded numbers.
use gas_units::{
    Decimal, NumFault, Side, Unit, ceil_div, floor_div, read_decimal, read_unit, root_down,
    root_up, to_grid,
};
use std::test::Fail;

// -7 / 2 lies between -4 and -3. The root of 8 lies between 2 and 3, that of the greatest u128 just below 2^64.
#[test]
fn quotients_and_roots_lie_on_their_sides(rt: HostRuntime) -> Result<(), Fail> {
    assert_eq!(rt; floor_div(-7, 2), -4);
    assert_eq!(rt; ceil_div(-7, 2), -3);
    assert_eq!(rt; ceil_div(8, 2), 4);
    assert_eq!(rt; (root_down(8), root_up(8)), (2, 3));
    assert_eq!(rt; (root_down(0), root_up(0)), (0, 0));
    assert_eq!(rt; root_up(u128::MAX), 18_446_744_073_709_551_616);
    Ok(())
}

fn decimal(negative: bool, digits: u128, shift: i32) -> Result<Decimal, NumFault> {
    Ok(Decimal {
        negative,
        digits,
        shift,
    })
}

// The second point of 1.2.3 stands at byte 3. An exponent may have a sign and ends too early without a digit.
#[test]
fn decimals_are_read_or_their_first_fault_is_named(rt: HostRuntime) -> Result<(), Fail> {
    assert_eq!(rt; read_decimal("1e5"), decimal(false, 1, 5));
    assert_eq!(rt; read_decimal(" -12.50E-3\n"), decimal(true, 1250, -5));
    assert_eq!(rt; read_decimal("+.5"), decimal(false, 5, -1));
    assert_eq!(rt; read_decimal("1.2.3"), Err(NumFault::NotDecimal { at: 3 }));
    assert_eq!(rt; read_decimal("1e+"), Err(NumFault::NotDecimal { at: 3 }));
    assert_eq!(rt;
        read_decimal("1234567890123456789012345678901"),
        Err(NumFault::TooLong)
    );
    assert_eq!(rt; read_decimal("1e123"), Err(NumFault::TooLong));
    Ok(())
}

// The value that a text writes in the unit of a word, where both are read.
fn grid(text: &str, word: &str, side: Side) -> Option<i128> {
    let unit = read_unit(word)?;
    let value = read_decimal(text).ok()?;
    to_grid(&value, unit, side).ok()
}

// 70 * 100,000 + 101,325 is whole. Half a liter lies between none and one.
#[test]
fn values_are_rounded_to_the_side_asked_for(rt: HostRuntime) -> Result<(), Fail> {
    assert_eq!(rt; grid("70", "barg", Side::Down), Some(7_101_325));
    assert_eq!(rt; grid("70", "barg", Side::Up), Some(7_101_325));
    assert_eq!(rt;
        grid("0.0000005", "1000m_cube_per_hour", Side::Down),
        Some(0)
    );
    assert_eq!(rt; grid("0.0000005", "1000m_cube_per_hour", Side::Up), Some(1));
    assert_eq!(rt; grid("-0.0015", "m_cube_per_hour", Side::Down), Some(-2));
    assert_eq!(rt; grid("1e5", "Pa", Side::Up), Some(100_000));
    assert_eq!(rt; grid("1", "psi", Side::Up), None);
    let too_far = Decimal {
        negative: false,
        digits: 10_000_000_000_001,
        shift: 0,
    };
    assert_eq!(rt;
        to_grid(&too_far, Unit::Bar, Side::Down),
        Err(NumFault::TooLarge)
    );
    Ok(())
}
