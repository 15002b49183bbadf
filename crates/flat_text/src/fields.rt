// The fields of a line.
ghost use Rattle.std.specs.Prelude.{◌≡◌};
ghost use Rattle.flat_text.specs.Fields.{Gives, text_field, number_field, ended, head_text, head_at, drag_at};

use crate::fault::LineFault;
use gas_model::Drag;

/// A field of text, and what comes after it.
pub fn text_field(bytes: &[u8]) -> Result<(&str, &[u8]), LineFault>
    ensures { Gives (λ x. (x.0.now, x.1.now)) result (text_field bytes.now) }
{
    line_text::field_at(bytes).ok_or(LineFault::NotFlat)
}

/// A field that is a number, and what comes after it.
pub fn number_field(bytes: &[u8]) -> Result<(i64, &[u8]), LineFault>
    ensures { Gives (λ x. (x.0, x.1.now)) result (number_field bytes.now) }
{
    line_text::number_field(bytes).ok_or(LineFault::NotFlat)
}

/// The end of a line.
pub fn ended(bytes: &[u8]) -> Result<(), LineFault>
    ensures { Gives (λ x. x) result (ended bytes.now) }
{
    if bytes.is_empty() {
        Ok(())
    } else {
        Err(LineFault::NotFlat)
    }
}

/// What the line of every arc begins with.
#[derive(Clone, Copy, Debug)]
pub struct ArcHead<'a> {
    pub id: &'a str,
    pub from: &'a str,
    pub to: &'a str,
    pub q_min: i64,
    pub q_max: i64,
}

/// The id of an arc, its ends and its bounds of the flow.
#[tactic(auto, unfolding(crate::specs::Fields::head_at))]
pub fn head_at(bytes: &[u8]) -> Result<(ArcHead<'_>, &[u8]), LineFault>
    ensures { Gives (λ x. (head_text x.0, x.1.now)) result (head_at bytes.now) }
{
    let (id, rest) = text_field(bytes)?;
    let (from, rest) = text_field(rest)?;
    let (to, rest) = text_field(rest)?;
    let (q_min, rest) = number_field(rest)?;
    let (q_max, rest) = number_field(rest)?;
    let head = ArcHead {
        id,
        from,
        to,
        q_min,
        q_max,
    };
    Ok((head, rest))
}

/// The three numbers of a resistance.
#[tactic(auto, unfolding(crate::specs::Fields::drag_at))]
pub fn drag_at(bytes: &[u8]) -> Result<(Drag, &[u8]), LineFault>
    ensures { Gives (λ x. (x.0, x.1.now)) result (drag_at bytes.now) }
{
    let (lo, rest) = number_field(bytes)?;
    let (hi, rest) = number_field(rest)?;
    let (den, rest) = number_field(rest)?;
    Ok((Drag { lo, hi, den }, rest))
}
