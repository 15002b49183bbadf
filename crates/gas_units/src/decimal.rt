ghost use Rattle.std.specs.Prelude.{◌≡◌, ◌==◌, ◌||◌, ◌≤◌, ◌<◌, ◌^◌, ◌≤ℤ◌, ◌+◌, ◌*◌, pos, negsuc, ℕ, List, length, position, false, true, IfSome, Ok, Err};
ghost use Rattle.std.specs.List.{list_any, filter, before_first, after_first, position_or_len};
ghost use Rattle.std.specs.Char.{is_ascii_digit, digit_value};
ghost use Rattle.std.specs.Str.Parse.{digits_value};
ghost use Rattle.gas_units.specs.Decimals.{digit_count, next, is_whole, form_fault, FaultsAreFirst, is_exponent_mark, mantissa, exponent, places, power_of, is_too_long, decimal_of, read_decimal};
ghost use Rattle.gas_units.specs.DecimalForm.{FormIsDecimal};
ghost use Rattle.gas_units.specs.declared.decimal.Mode.TheVariants as mode;

use thiserror::Error;

/// Why a text is no decimal, or a value none of the grid.
#[derive(Clone, Copy, Debug, PartialEq, Eq, Error)]
pub enum NumFault {
    /// The text is no decimal: no decimal goes on with the byte at this place, from 0, or the text
    /// ends too early and this is its length.
    #[error("not a decimal at byte {at}")]
    NotDecimal { at: u64 },
    /// The decimal has more than 30 digits, or more than 2 in its exponent.
    #[error("the decimal has too many digits")]
    TooLong,
    /// The whole value lies outside -10^18 to 10^18.
    #[error("the value is too large")]
    TooLarge,
}

/// `digits * 10^shift`, negated where `negative`.
#[derive(Clone, Copy, Debug, PartialEq, Eq)]
pub struct Decimal {
    /// Whether the value is negated.
    pub negative: bool,
    /// The number that the digits write, without the point.
    pub digits: u128,
    /// The exponent, less the count of digits after the point.
    pub shift: i32,
}

// How far a text of the form has come.
#[derive(Clone, Copy, Debug, PartialEq, Eq)]
pub enum Mode {
    Front,
    Signed,
    Whole,
    Point,
    Part,
    Exponent,
    ExponentSign,
    Power,
    Tail,
}

fn is_sign(b: u8) -> bool
    ensures { result ≡ (b == 43 || b == 45) }
{
    b == b'+' || b == b'-'
}

fn is_exponent_mark(b: u8) -> bool
    ensures { result ≡ is_exponent_mark b }
{
    b == b'e' || b == b'E'
}

// How a text goes on after white space alone.
fn after_front(b: u8) -> Option<Mode>
    ensures { result ≡ next mode.Front b }
{
    if b.is_ascii_whitespace() {
        Some(Mode::Front)
    } else if is_sign(b) {
        Some(Mode::Signed)
    } else if b.is_ascii_digit() {
        Some(Mode::Whole)
    } else if b == b'.' {
        Some(Mode::Point)
    } else {
        None
    }
}

// How a text goes on after its sign.
fn after_sign(b: u8) -> Option<Mode>
    ensures { result ≡ next mode.Signed b }
{
    if b.is_ascii_digit() {
        Some(Mode::Whole)
    } else if b == b'.' {
        Some(Mode::Point)
    } else {
        None
    }
}

// How a text goes on after digits without a point.
fn after_whole(b: u8) -> Option<Mode>
    ensures { result ≡ next mode.Whole b }
{
    if b.is_ascii_digit() {
        Some(Mode::Whole)
    } else if b == b'.' {
        Some(Mode::Part)
    } else if is_exponent_mark(b) {
        Some(Mode::Exponent)
    } else if b.is_ascii_whitespace() {
        Some(Mode::Tail)
    } else {
        None
    }
}

// How a text goes on after a point that no digit precedes.
fn after_point(b: u8) -> Option<Mode>
    ensures { result ≡ next mode.Point b }
{
    if b.is_ascii_digit() {
        Some(Mode::Part)
    } else {
        None
    }
}

// How a text goes on after digits with a point.
fn after_part(b: u8) -> Option<Mode>
    ensures { result ≡ next mode.Part b }
{
    if b.is_ascii_digit() {
        Some(Mode::Part)
    } else if is_exponent_mark(b) {
        Some(Mode::Exponent)
    } else if b.is_ascii_whitespace() {
        Some(Mode::Tail)
    } else {
        None
    }
}

// How a text goes on after the mark of its exponent.
fn after_mark(b: u8) -> Option<Mode>
    ensures { result ≡ next mode.Exponent b }
{
    if is_sign(b) {
        Some(Mode::ExponentSign)
    } else if b.is_ascii_digit() {
        Some(Mode::Power)
    } else {
        None
    }
}

// How a text goes on after the sign of its exponent.
fn after_exponent_sign(b: u8) -> Option<Mode>
    ensures { result ≡ next mode.ExponentSign b }
{
    if b.is_ascii_digit() {
        Some(Mode::Power)
    } else {
        None
    }
}

// How a text goes on after digits of its exponent.
fn after_power(b: u8) -> Option<Mode>
    ensures { result ≡ next mode.Power b }
{
    if b.is_ascii_digit() {
        Some(Mode::Power)
    } else if b.is_ascii_whitespace() {
        Some(Mode::Tail)
    } else {
        None
    }
}

// How a text goes on after white space at its end.
fn after_tail(b: u8) -> Option<Mode>
    ensures { result ≡ next mode.Tail b }
{
    if b.is_ascii_whitespace() {
        Some(Mode::Tail)
    } else {
        None
    }
}

// How the form goes on with a byte, if it does.
fn next(mode: Mode, b: u8) -> Option<Mode>
    ensures { result ≡ next mode b }
{
    match mode {
        Mode::Front => after_front(b),
        Mode::Signed => after_sign(b),
        Mode::Whole => after_whole(b),
        Mode::Point => after_point(b),
        Mode::Part => after_part(b),
        Mode::Exponent => after_mark(b),
        Mode::ExponentSign => after_exponent_sign(b),
        Mode::Power => after_power(b),
        Mode::Tail => after_tail(b),
    }
}

// Whether a text of the form may end here.
fn is_whole(mode: Mode) -> bool
    ensures { result ≡ is_whole mode }
{
    mode == Mode::Whole || mode == Mode::Part || mode == Mode::Power || mode == Mode::Tail
}

// The place where bytes leave the form.
fn form_fault(bytes: &[u8]) -> Option<usize>
    ensures { result ≡ form_fault mode.Front 0 bytes.now }
{
    let mut mode = Mode::Front;
    for (i, b) in bytes.iter().enumerate() {
        match next(mode, *b) {
            Some(on) => mode = on,
            None => return Some(i),
        }
    }
    if is_whole(mode) {
        None
    } else {
        Some(bytes.len())
    }
}

fn digit_count(bytes: &[u8]) -> usize
    ensures { result ≡ digit_count bytes.now }
{
    bytes.iter().filter(|b| b.is_ascii_digit()).count()
}

// A number with one more digit.
fn with_digit(size: u128, b: u8) -> u128
    requires room { size < 10 ^ 29 }
    requires digit { is_ascii_digit b ≡ true }
    ensures { result ≡ size * 10 + digit_value b }
{
    size * 10 + (b - b'0') as u128
}

// The number that the digits among the bytes write.
fn size_of(bytes: &[u8]) -> u128
    requires { digit_count bytes.now ≤ 30 }
    ensures exact { result ≡ digits_value 10 (filter is_ascii_digit bytes.now) }
    ensures bound { result < 10 ^ digit_count bytes.now }
{
    let mut size: u128 = 0;
    for b in bytes {
        if b.is_ascii_digit() {
            size = with_digit(size, *b);
        }
    }
    size
}

// Where the exponent's mark stands, or the length.
fn mark_place(bytes: &[u8]) -> Option<usize>
    ensures place { result ≡ position is_exponent_mark bytes.now }
    ensures within { IfSome result (λ i. i < length bytes.now) }
{
    bytes.iter().position(|b| is_exponent_mark(*b))
}

fn point_place(bytes: &[u8]) -> Option<usize>
    ensures place { result ≡ position (λ b. b == 46) bytes.now }
    ensures within { IfSome result (λ i. i < length bytes.now) }
{
    bytes.iter().position(|b| *b == b'.')
}

// What comes before the exponent's mark.
fn mantissa(bytes: &[u8]) -> &[u8]
    ensures { result.now ≡ mantissa bytes.now }
{
    match mark_place(bytes) {
        Some(n) => bytes.split_at(n).0,
        None => bytes,
    }
}

// What comes after the exponent's mark.
fn exponent(bytes: &[u8]) -> &[u8]
    ensures { result.now ≡ exponent bytes.now }
{
    match mark_place(bytes) {
        Some(n) => bytes.split_at(n + 1).1,
        None => b"".as_slice(),
    }
}

// What comes after the point.
fn places(bytes: &[u8]) -> &[u8]
    ensures { result.now ≡ places bytes.now }
{
    match point_place(bytes) {
        Some(n) => bytes.split_at(n + 1).1,
        None => b"".as_slice(),
    }
}

fn has_minus(bytes: &[u8]) -> bool
    ensures { result ≡ list_any (λ b. b == 45) bytes.now }
{
    bytes.iter().any(|b| *b == b'-')
}

// The power of ten that an exponent of at most two digits writes.
fn power_of(bytes: &[u8]) -> i32
    requires { digit_count bytes.now ≤ 2 }
    ensures exact { result ≡ power_of bytes.now }
    ensures small { (result ≤ℤ pos 99) × (negsuc 98 ≤ℤ result) }
{
    let size = size_of(bytes) as i32;
    if has_minus(bytes) { -size } else { size }
}

fn is_too_long(bytes: &[u8]) -> bool
    ensures { result ≡ is_too_long bytes.now }
{
    digit_count(mantissa(bytes)) > 30 || digit_count(exponent(bytes)) > 2
}

// What bytes of the form stand for.
fn decimal_of(bytes: &[u8]) -> Decimal
    requires { is_too_long bytes.now ≡ false }
    ensures { result ≡ decimal_of bytes.now }
{
    let front = mantissa(bytes);
    let negative = has_minus(front);
    let digits = size_of(front);
    let power = power_of(exponent(bytes));
    let shift = power - digit_count(places(front)) as i32;
    Decimal {
        negative,
        digits,
        shift,
    }
}

/// The decimal that a text writes.
///
/// That is an optional sign, digits with at most one point and at least one digit, and optionally
/// `e` or `E`, an optional sign and at least one digit; ASCII white space at both ends is passed
/// over. `NotDecimal` comes exactly where the text isn't of this form, `TooLong` exactly where a
/// text of the form has more than 30 digits, or more than 2 in its exponent.
#[tactic(auto, unfolding(crate::specs::Decimals::read_decimal))]
pub fn read_decimal(text: &str) -> Result<Decimal, NumFault>
    ensures { result ≡ read_decimal text.now }
{
    let bytes = text.as_bytes();
    if let Some(at) = form_fault(bytes) {
        return Err(NumFault::NotDecimal { at: at as u64 });
    }
    if is_too_long(bytes) {
        return Err(NumFault::TooLong);
    }
    Ok(decimal_of(bytes))
}

/// The place of a fault is the first at which no decimal goes on: what comes before it begins some
/// decimal, and with the byte at it nothing does.
#[tactic(auto, using(crate::proofs::Faults::faults_are_first))]
pub fn faults_are_first()
    ensures { FaultsAreFirst }
{}

/// A text has no fault exactly where it is a decimal: white space, a sign or none, digits with at
/// most one point and at least one digit, an exponent or none, and white space.
#[tactic(auto, using(crate::proofs::Forms::form_is_decimal))]
pub fn form_is_decimal()
    ensures { FormIsDecimal }
{}
