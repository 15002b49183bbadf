// What a field of a record is.
ghost use Rattle.std.specs.Prelude.{◌≡◌, option_map, true, false, MatchOption};
ghost use Rattle.std.specs.Str.{is_utf8};
ghost use Rattle.res_table.specs.Fields.{word_named, id_named, number_named};

use crate::rows::ResWord;
use gas_model::is_id;
use line_text::size_in;

/// The word of a row.
pub fn word_named(field: &[u8]) -> Option<ResWord>
    ensures { result ≡ word_named field.now }
{
    if field == b"pipe".as_slice() {
        Some(ResWord::Pipe)
    } else if field == b"resistor".as_slice() {
        Some(ResWord::Resistor)
    } else if field == b"station".as_slice() {
        Some(ResWord::Station)
    } else {
        None
    }
}

/// The text that a field is.
fn text_of(field: &[u8]) -> Option<&str>
    ensures { MatchOption result
        (is_utf8 field.now ≡ false)
        (λ text. (text.now ≡ field.now) × (is_utf8 field.now ≡ true)) }
{
    match str::from_utf8(field) {
        Ok(text) => Some(text),
        Err(_) => None,
    }
}

/// The id of a row: UTF-8, and within the limits of an id.
pub fn id_named(field: &[u8]) -> Option<&str>
    ensures { option_map (λ id. id.now) result ≡ id_named field.now }
{
    let id = text_of(field)?;
    if is_id(id) { Some(id) } else { None }
}

/// A number of a row: digits, with no needless zero in front and no sign.
pub fn number_named(field: &[u8]) -> Option<i64>
    ensures { result ≡ number_named field.now }
{
    i64::try_from(size_in(field)?).ok()
}
