// Numbers in front of bytes.
ghost use Rattle.std.specs.Prelude.{◌≡◌, ◌≤◌, ◌∷◌, ◌++◌, length, IfSome, IsTrue};
ghost use Rattle.line_text.specs.Numerals.{numeral};
ghost use Rattle.step_lines.specs.Fronts.{AreDigits};

// The most digits that are read here. Their number fits 64 bits.
const MOST: usize = 18;

/// The digits in front of bytes: how many, and the number that they write.
#[derive(Clone, Copy, Debug, PartialEq, Eq)]
struct Digits {
    len: usize,
    size: u64,
}

// Not inlined, so that the loop has the registers that it needs.
#[inline(never)]
fn digits_in(front: &[u8]) -> Digits
    requires { length front.now ≤ 18 }
    ensures digits { AreDigits front.now result.len result.size }
    ensures within { result.len ≤ length front.now }
{
    let mut size: u64 = 0;
    let mut len = 0;
    for digit in front {
        if !digit.is_ascii_digit() {
            return Digits { len, size };
        }
        size = size * 10 + u64::from(*digit - b'0');
        len += 1;
    }
    Digits { len, size }
}

// Whether digits that begin so have no needless zero in front.
fn leads(first: u8, len: usize) -> bool
    ensures { IsTrue result → first ≡ 48 → len ≡ 1 }
{
    first != b'0' || len == 1
}

/// The number in front of bytes, the byte behind it, and what comes after that. No answer where there are too many digits.
pub fn number_front(bytes: &[u8]) -> Option<(u64, u8, &[u8])>
    ensures { IfSome result (λ x. bytes.now ≡ numeral x.0 ++ x.1 ∷ x.2.now) }
{
    let front = bytes.split_at(bytes.len().min(MOST)).0;
    let digits = digits_in(front);
    let len = digits.len;
    if len == 0 || len == bytes.len() || !leads(bytes[0], len) {
        return None;
    }
    Some((digits.size, bytes[len], bytes.split_at(len + 1).1))
}

/// The number in front of bytes, and what comes after the byte `stop` behind it.
pub fn number_before(bytes: &[u8], stop: u8) -> Option<(u64, &[u8])>
    ensures { IfSome result (λ x. bytes.now ≡ numeral x.0 ++ stop ∷ x.1.now) }
{
    let (number, byte, rest) = number_front(bytes)?;
    if byte == stop {
        Some((number, rest))
    } else {
        None
    }
}
