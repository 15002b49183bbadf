// Whole numbers as text: `0`, or digits with no zero in front, after a `-` where the number is below 0.
ghost use Rattle.std.specs.Prelude.{true, ◌≡◌, ◌≢◌, ◌<◌, ◌∷◌, ◌++◌, ◌^◌, ◌-◌, ℤ, min, length, ℕ, List, Some, MatchOption, IfSome, OnOk, OnErr, option_map, option_and_then};
ghost use Rattle.std.specs.Int.{w64, saturate_signed};
ghost use Rattle.std.specs.List.{list_all};
ghost use Rattle.std.specs.Char.{is_ascii_digit};
ghost use Rattle.std.specs.Str.Parse.{digits_value};
ghost use Rattle.line_text.specs.Numerals.{numeral, signed_numeral, begins_well, size_of, up_to_max, below_zero, size_at, number_at};

use base_types::{Bytes, NoMemory};
use itoa::Buffer;

/// At least one byte, of which the first is no needless zero.
fn begins_well(digits: &[u8]) -> bool
    ensures { result ≡ begins_well digits.now }
{
    !digits.is_empty() && (digits[0] != b'0' || digits.len() == 1)
}

/// The size that digits write, up to the greatest of 64 bits; none where another byte stands among them.
fn size_of(digits: &[u8]) -> Option<u64>
    ensures { result ≡ size_of digits.now }
{
    let mut size: u64 = 0;
    for digit in digits {
        if !digit.is_ascii_digit() {
            return None;
        }
        size = size
            .saturating_mul(10)
            .saturating_add(u64::from(*digit - b'0'));
    }
    Some(size)
}

/// A size as a number.
fn up_to_max(size: Option<u64>) -> Option<i64>
    ensures { result ≡ option_map up_to_max size }
{
    let size = size?;
    if size <= i64::MAX as u64 {
        Some(size as i64)
    } else {
        Some(i64::MAX)
    }
}

/// Minus a size, which isn't 0.
fn below_zero(size: Option<u64>) -> Option<i64>
    ensures { result ≡ option_and_then below_zero size }
{
    let size = size?;
    if size == 0 {
        None
    } else if size <= i64::MAX as u64 {
        Some(-(size as i64))
    } else {
        Some(i64::MIN)
    }
}

/// The number that bytes are as a word of digits.
pub fn size_in(digits: &[u8]) -> Option<u64>
    ensures { result ≡ size_at digits.now }
{
    if begins_well(digits) {
        size_of(digits)
    } else {
        None
    }
}

/// The number that a word of digits is: `0`, or digits with no zero in front. A word of another form is none.
/// A number past 64 bits counts as the greatest of 64 bits.
pub fn size_at(word: &str) -> Option<u64>
    ensures exact { result ≡ size_at word.now }
    // What a number of any size spells is read.
    ensures spelled { (n : ℕ) → word.now ≡ numeral n → result ≡ Some (min n (2 ^ 64 - 1)) }
    // What is read was spelled so.
    ensures read { IfSome result (λ k. (n : ℕ) × (word.now ≡ numeral n) × (k ≡ min n (2 ^ 64 - 1))) }
{
    size_in(word.as_bytes())
}

fn after_minus(word: &str) -> Option<&str>
    ensures { MatchOption result
        ((rest : List ℕ) → word.now ≢ 45 ∷ rest)
        (λ x. word.now ≡ 45 ∷ x.now) }
{
    word.strip_prefix('-')
}

/// The number that a word is: `0`, or digits with no zero in front, after a `-` where it is below 0. A word of
/// another form, as `-0`, `00` or `+1`, is none. A number past 64 bits counts as the nearest of 64 bits.
pub fn number_at(word: &str) -> Option<i64>
    ensures exact { result ≡ number_at word.now }
    // What a number of any size spells is read.
    ensures spelled { (z : ℤ) → word.now ≡ signed_numeral z → result ≡ Some (saturate_signed w64 z) }
    // What is read was spelled so.
    ensures read { IfSome result (λ k. (z : ℤ) × (word.now ≡ signed_numeral z) × (k ≡ saturate_signed w64 z)) }
{
    match after_minus(word) {
        Some(digits) => below_zero(size_at(digits)),
        None => up_to_max(size_at(word)),
    }
}

/// Writes a position at the end: its digits, with no zero in front. An error leaves the bytes as before.
pub fn put_position(out: &mut Bytes, position: u32) -> Result<(), NoMemory>
    ensures ok { OnOk result (out.new ≡ out.old ++ numeral position) }
    ensures err { OnErr result (out.new ≡ out.old) }
{
    out.append(Buffer::new().format(position).as_bytes())
}

/// Writes a number at the end: its digits with no zero in front, after a `-` where it is below 0. An error leaves
/// the bytes as before.
pub fn put_number(out: &mut Bytes, number: i64) -> Result<(), NoMemory>
    ensures ok { OnOk result (out.new ≡ out.old ++ signed_numeral number) }
    ensures err { OnErr result (out.new ≡ out.old) }
{
    out.append(Buffer::new().format(number).as_bytes())
}
