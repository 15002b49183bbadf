// The words of kinds and of decisions, and the numbers of a kind.
ghost use Rattle.std.specs.Prelude.{◌≡◌};
ghost use Rattle.flat_text.specs.Fields.{Gives};
ghost use Rattle.flat_text.specs.Kinds.{loss_at, control_at, station_at, kind_at, allow_of};
ghost use Rattle.flat_text.specs.Spelling.{kind_word, allow_word};

use crate::fault::LineFault;
use crate::fields::{drag_at, number_field};
use gas_model::{Allow, ArcKind, ArcState, state_word};

/// The least and the greatest loss.
#[tactic(auto, unfolding(crate::specs::Kinds::loss_at))]
fn loss_at(bytes: &[u8]) -> Result<(ArcKind, &[u8]), LineFault>
    ensures { Gives (λ x. (x.0, x.1.now)) result (loss_at bytes.now) }
{
    let (low, rest) = number_field(bytes)?;
    let (high, rest) = number_field(rest)?;
    Ok((ArcKind::Loss { low, high }, rest))
}

/// The numbers of a control valve.
#[tactic(auto, unfolding(crate::specs::Kinds::control_at))]
fn control_at(bytes: &[u8]) -> Result<(ArcKind, &[u8]), LineFault>
    ensures { Gives (λ x. (x.0, x.1.now)) result (control_at bytes.now) }
{
    let (in_min, rest) = number_field(bytes)?;
    let (out_max, rest) = number_field(rest)?;
    let (red_min, rest) = number_field(rest)?;
    let (red_max, rest) = number_field(rest)?;
    let kind = ArcKind::Control {
        in_min,
        out_max,
        red_min,
        red_max,
    };
    Ok((kind, rest))
}

/// The numbers of a station.
#[tactic(auto, unfolding(crate::specs::Kinds::station_at))]
fn station_at(bytes: &[u8]) -> Result<(ArcKind, &[u8]), LineFault>
    ensures { Gives (λ x. (x.0, x.1.now)) result (station_at bytes.now) }
{
    let (in_min, rest) = number_field(bytes)?;
    let (out_max, rest) = number_field(rest)?;
    let (ratio_num, rest) = number_field(rest)?;
    let (ratio_den, rest) = number_field(rest)?;
    let (rise_max, rest) = number_field(rest)?;
    let kind = ArcKind::Station {
        in_min,
        out_max,
        ratio_num,
        ratio_den,
        rise_max,
    };
    Ok((kind, rest))
}

/// The kind that the word of a line names, with its numbers, and what comes after them.
#[tactic(auto, unfolding(crate::specs::Kinds::kind_at))]
pub fn kind_at<'a>(word: &[u8], bytes: &'a [u8]) -> Result<(ArcKind, &'a [u8]), LineFault>
    ensures { Gives (λ x. (x.0, x.1.now)) result (kind_at word.now bytes.now) }
{
    if word == b"pipe".as_slice() {
        let (law, rest) = drag_at(bytes)?;
        return Ok((ArcKind::Pipe { law }, rest));
    }
    if word == b"short".as_slice() {
        return Ok((ArcKind::Short, bytes));
    }
    if word == b"drag".as_slice() {
        let (law, rest) = drag_at(bytes)?;
        return Ok((ArcKind::Resist { law }, rest));
    }
    if word == b"loss".as_slice() {
        return loss_at(bytes);
    }
    if word == b"valve".as_slice() {
        return Ok((ArcKind::Valve, bytes));
    }
    if word == b"control".as_slice() {
        return control_at(bytes);
    }
    if word == b"station".as_slice() {
        return station_at(bytes);
    }
    Err(LineFault::NotFlat)
}

/// What the word of a decision allows.
#[tactic(auto, unfolding(crate::specs::Kinds::allow_of))]
pub fn allow_of(word: &str) -> Option<Allow>
    ensures { result ≡ allow_of word.now }
{
    if word == state_word(ArcState::Opened) {
        Some(Allow::Opened)
    } else if word == state_word(ArcState::Shut) {
        Some(Allow::Shut)
    } else if word == state_word(ArcState::Active) {
        Some(Allow::Active)
    } else if word == state_word(ArcState::Bypass) {
        Some(Allow::Bypass)
    } else if word == "on" {
        Some(Allow::On)
    } else {
        None
    }
}

/// The word with which the line of an arc of this kind begins.
pub fn kind_word(kind: &ArcKind) -> &'static str
    ensures { result.now ≡ kind_word kind.now }
{
    match kind {
        ArcKind::Pipe { .. } => "pipe",
        ArcKind::Short => "short",
        ArcKind::Resist { .. } => "drag",
        ArcKind::Loss { .. } => "loss",
        ArcKind::Valve => "valve",
        ArcKind::Control { .. } => "control",
        ArcKind::Station { .. } => "station",
    }
}

/// The word of a decision.
pub fn allow_word(allow: Allow) -> &'static str
    ensures { result.now ≡ allow_word allow }
{
    match allow {
        Allow::Opened => state_word(ArcState::Opened),
        Allow::Shut => state_word(ArcState::Shut),
        Allow::Active => state_word(ArcState::Active),
        Allow::Bypass => state_word(ArcState::Bypass),
        Allow::On => "on",
    }
}
