// Positions of 32 bits, and numbers of 128 bits, as text.
ghost use Rattle.std.specs.Prelude.{◌≡◌, ◌++◌, ◌-◌, ◌^◌, ◌&&◌, int_lt, ℕ, ℤ, pos, negsuc, Some, IfSome, OnOk, OnErr};
ghost use Rattle.line_text.specs.Numerals.{numeral, signed_numeral, number_at};
ghost use Rattle.line_text.specs.Long.{fits_position, fits_long, fitting, position_at, long_at};

use crate::numerals::{number_at, size_in};
use base_types::{Bytes, NoMemory};
use itoa::Buffer;

/// The position that a word of digits is: `0`, or digits with no zero in front. A word of another form is none. A
/// position past 32 bits is none within.
pub fn position_at(word: &str) -> Option<Option<u32>>
    ensures exact { result ≡ position_at word.now }
    // What a number of any size spells is read.
    ensures spelled { (n : ℕ) → word.now ≡ numeral n → result ≡ Some (fitting fits_position n) }
    // What is read was spelled so.
    ensures read { IfSome result (λ o. (n : ℕ) × (word.now ≡ numeral n) × (o ≡ fitting fits_position n)) }
{
    position_in(word.as_bytes())
}

/// The position that bytes are as a word of digits.
pub fn position_in(digits: &[u8]) -> Option<Option<u32>>
    ensures { result ≡ position_at digits.now }
{
    let size = size_in(digits)?;
    Some(u32::try_from(size).ok())
}

/// Whether a number is neither the least nor the greatest of 64 bits.
fn is_inner(near: i64) -> bool
    ensures { result ≡ int_lt (negsuc (2 ^ 63 - 1)) near && int_lt near (pos (2 ^ 63 - 1)) }
{
    i64::MIN < near && near < i64::MAX
}

/// The number of a word of which the nearest number of 64 bits is known.
fn long_of(near: i64, word: &str) -> Option<i128>
    requires { number_at word.now ≡ Some near }
    ensures { Some result ≡ long_at word.now }
{
    if is_inner(near) {
        Some(i128::from(near))
    } else {
        word.parse::<i128>().ok()
    }
}

/// The number that a word is: `0`, or digits with no zero in front, after a `-` where it is below 0. A word of another
/// form, as `-0`, `00` or `+1`, is none. A number past 128 bits is none within.
pub fn long_at(word: &str) -> Option<Option<i128>>
    ensures exact { result ≡ long_at word.now }
    // What a number of any size spells is read.
    ensures spelled { (z : ℤ) → word.now ≡ signed_numeral z → result ≡ Some (fitting fits_long z) }
    // What is read was spelled so.
    ensures read { IfSome result (λ o. (z : ℤ) × (word.now ≡ signed_numeral z) × (o ≡ fitting fits_long z)) }
{
    match number_at(word) {
        Some(near) => Some(long_of(near, word)),
        None => None,
    }
}

/// Writes a number at the end: its digits with no zero in front, after a `-` where it is below 0. An error leaves
/// the bytes as before.
pub fn put_long(out: &mut Bytes, number: i128) -> Result<(), NoMemory>
    ensures ok { OnOk result (out.new ≡ out.old ++ signed_numeral number) }
    ensures err { OnErr result (out.new ≡ out.old) }
{
    out.append(Buffer::new().format(number).as_bytes())
}
