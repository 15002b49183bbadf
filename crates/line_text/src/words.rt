// The words of a line, parted by one space.
ghost use Rattle.std.specs.Prelude.{◌≡◌, ◌==◌, ◌≤◌, length, take, drop, position, false, true, MatchOption};
ghost use Rattle.std.specs.List.{position_or_len};
ghost use Rattle.std.specs.Option.{option_map};
ghost use Rattle.std.specs.Str.{is_utf8};
ghost use Rattle.line_text.specs.Words.{word_len, bytes_at, field_at, number_field};

use crate::numerals::number_at;

fn text_of(bytes: &[u8]) -> Option<&str>
    ensures { MatchOption result
        (is_utf8 bytes.now ≡ false)
        (λ s. (s.now ≡ bytes.now) × (is_utf8 bytes.now ≡ true)) }
{
    match str::from_utf8(bytes) {
        Ok(text) => Some(text),
        Err(_) => None,
    }
}

fn first(bytes: &[u8], stop: u8) -> Option<usize>
    ensures { result ≡ position (λ b. b == stop) bytes.now }
{
    bytes.iter().position(|b| *b == stop)
}

/// How many bytes come before the first one of a kind.
pub fn run_len(bytes: &[u8], stop: u8) -> usize
    ensures len { result ≡ position_or_len (λ b. b == stop) bytes.now }
    ensures within { result ≤ length bytes.now }
{
    first(bytes, stop).unwrap_or(bytes.len())
}

/// The bytes before the first space, and the others: the first word of a line, and its fields.
pub fn cut_word(bytes: &[u8]) -> (&[u8], &[u8])
    ensures word { result.0.now ≡ take (word_len bytes.now) bytes.now }
    ensures rest { result.1.now ≡ drop (word_len bytes.now) bytes.now }
{
    bytes.split_at(run_len(bytes, b' '))
}

/// A field of any bytes, which comes after one space and goes to the next one, and what comes after it. None where the
/// bytes begin with no space, or the field is empty.
#[tactic(auto, unfolding(crate::specs::Words::bytes_at))]
pub fn bytes_at(bytes: &[u8]) -> Option<(&[u8], &[u8])>
    ensures { option_map (λ x. (x.0.now, x.1.now)) result ≡ bytes_at bytes.now }
{
    let [b' ', rest @ ..] = bytes else {
        return None;
    };
    let (field, rest) = cut_word(rest);
    if field.is_empty() {
        return None;
    }
    Some((field, rest))
}

/// A field of text, likewise. None also where it isn't UTF-8.
#[tactic(auto, unfolding(crate::specs::Words::field_at))]
pub fn field_at(bytes: &[u8]) -> Option<(&str, &[u8])>
    ensures { option_map (λ x. (x.0.now, x.1.now)) result ≡ field_at bytes.now }
{
    let (field, rest) = bytes_at(bytes)?;
    let text = text_of(field)?;
    Some((text, rest))
}

/// A field that is a number, and what comes after it.
#[tactic(auto, unfolding(crate::specs::Words::number_field))]
pub fn number_field(bytes: &[u8]) -> Option<(i64, &[u8])>
    ensures { option_map (λ x. (x.0, x.1.now)) result ≡ number_field bytes.now }
{
    let (field, rest) = field_at(bytes)?;
    let number = number_at(field)?;
    Some((number, rest))
}
