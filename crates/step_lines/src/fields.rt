// The fields of a step, each with the byte behind it.
ghost use Rattle.std.specs.Prelude.{◌≡◌, ◌∷◌, ◌++◌, ◌<◌, ◌^◌, true, IfSome};
ghost use Rattle.line_text.specs.Numerals.{numeral, signed_numeral};
ghost use Rattle.line_text.specs.Long.{fits_position, fits_long};
ghost use Rattle.tree_cert.specs.Spelling.{end_text, var_text, rule_text, fits_var};

use crate::digits::number_before;
use base_types::Var;
use tree_cert::Rule;

/// The word of an end in front of bytes, and what comes after the space behind it.
pub fn end_before(bytes: &[u8]) -> Option<(bool, &[u8])>
    ensures { IfSome result (λ x. bytes.now ≡ end_text x.0 ++ 32 ∷ x.1.now) }
{
    match bytes {
        [b'l', b'o', b' ', rest @ ..] => Some((true, rest)),
        [b'h', b'i', b' ', rest @ ..] => Some((false, rest)),
        _ => None,
    }
}

/// The position in front of bytes, and what comes after the byte `stop` behind it.
pub fn position_before(bytes: &[u8], stop: u8) -> Option<(u32, &[u8])>
    ensures text { IfSome result (λ x. bytes.now ≡ numeral x.0 ++ stop ∷ x.1.now) }
    ensures fits { IfSome result (λ x. fits_position x.0 ≡ true) }
{
    let (number, rest) = number_before(bytes, stop)?;
    match u32::try_from(number) {
        Ok(position) => Some((position, rest)),
        Err(_) => None,
    }
}

/// The variable in front of bytes, and what comes after the space behind it.
pub fn var_before(bytes: &[u8]) -> Option<(Var, &[u8])>
    ensures text { IfSome result (λ x. bytes.now ≡ var_text x.0 ++ 32 ∷ x.1.now) }
    ensures fits { IfSome result (λ x. fits_var x.0 ≡ true) }
{
    match bytes {
        [b'q', rest @ ..] => {
            let (arc, rest) = position_before(rest, b' ')?;
            Some((Var::Flow(arc), rest))
        }
        [b's', rest @ ..] => {
            let (node, rest) = position_before(rest, b' ')?;
            Some((Var::Square(node), rest))
        }
        _ => None,
    }
}

/// The value in front of bytes, and what comes after the space behind it.
pub fn value_before(bytes: &[u8]) -> Option<(i128, &[u8])>
    ensures text { IfSome result (λ x. bytes.now ≡ signed_numeral x.0 ++ 32 ∷ x.1.now) }
    ensures fits { IfSome result (λ x. fits_long x.0 ≡ true) }
{
    match bytes {
        [b'-', rest @ ..] => {
            let (size, rest) = number_before(rest, b' ')?;
            if size == 0 {
                return None;
            }
            Some((-i128::from(size), rest))
        }
        _ => {
            let (size, rest) = number_before(bytes, b' ')?;
            Some((i128::from(size), rest))
        }
    }
}

/// The name of a rule in front of bytes, and what comes after the space behind it.
pub fn rule_before(bytes: &[u8]) -> Option<(Rule, &[u8])>
    ensures { IfSome result (λ x. bytes.now ≡ rule_text x.0 ++ 32 ∷ x.1.now) }
{
    match bytes {
        [b'b', b'a', b'l', b'a', b'n', b'c', b'e', b' ', rest @ ..] => Some((Rule::Balance, rest)),
        [b'p', b'i', b'p', b'e', b' ', rest @ ..] => Some((Rule::Pipe, rest)),
        [b'e', b'q', b'u', b'a', b'l', b' ', rest @ ..] => Some((Rule::Equal, rest)),
        [b'z', b'e', b'r', b'o', b' ', rest @ ..] => Some((Rule::Zero, rest)),
        [b'w', b'a', b'y', b' ', rest @ ..] => Some((Rule::Way, rest)),
        [b'i', b'n', b'n', b'e', b'r', b' ', rest @ ..] => Some((Rule::Inner, rest)),
        [b'f', b'a', b'l', b'l', b' ', rest @ ..] => Some((Rule::Fall, rest)),
        [b'o', b'r', b'd', b'e', b'r', b' ', rest @ ..] => Some((Rule::Order, rest)),
        [b'r', b'i', b's', b'e', b' ', rest @ ..] => Some((Rule::Rise, rest)),
        [b'r', b'a', b't', b'i', b'o', b' ', rest @ ..] => Some((Rule::Ratio, rest)),
        [b's', b'i', b'g', b'n', b' ', rest @ ..] => Some((Rule::Sign, rest)),
        [b'r', b'e', b'a', b'c', b'h', b' ', rest @ ..] => Some((Rule::Reach, rest)),
        [b'a', b'l', b'o', b'n', b'g', b' ', rest @ ..] => Some((Rule::Along, rest)),
        [b'd', b'r', b'o', b'p', b' ', rest @ ..] => Some((Rule::Drop, rest)),
        _ => None,
    }
}
