// The fields of a line.
ghost use Rattle.std.specs.Prelude.{◌≡◌, ◌≢◌, ◌<◌, ◌∷◌, ℕ, List, MatchOption};
ghost use Rattle.tree_cert.specs.Fields.{Gives, text_field, ended, position_field, number_field, var_at, var_field, rule_field, state_field, end_field};

use crate::fault::LineFault;
use crate::line::Rule;
use crate::words::{end_at, rule_at};
use base_types::{ArcState, Var, state_named};
use line_text::{field_at, long_at, position_at};

/// A field of text, and what comes after it.
pub fn text_field(bytes: &[u8]) -> Result<(&str, &[u8]), LineFault>
    ensures { Gives (λ x. (x.0.now, x.1.now)) result (text_field bytes.now) }
{
    field_at(bytes).ok_or(LineFault::NotLine)
}

/// The end of a line.
pub fn ended(bytes: &[u8]) -> Result<(), LineFault>
    ensures { Gives (λ x. x) result (ended bytes.now) }
{
    if bytes.is_empty() {
        Ok(())
    } else {
        Err(LineFault::NotLine)
    }
}

/// A field that is a position, and what comes after it. A position past 32 bits is none.
#[tactic(auto, unfolding(crate::specs::Fields::position_field))]
pub fn position_field(bytes: &[u8]) -> Result<(Option<u32>, &[u8]), LineFault>
    ensures { Gives (λ x. (x.0, x.1.now)) result (position_field bytes.now) }
{
    let (word, rest) = text_field(bytes)?;
    let position = position_at(word).ok_or(LineFault::NotLine)?;
    Ok((position, rest))
}

/// A field that is a number, and what comes after it. A number past 128 bits is none.
#[tactic(auto, unfolding(crate::specs::Fields::number_field))]
pub fn number_field(bytes: &[u8]) -> Result<(Option<i128>, &[u8]), LineFault>
    ensures { Gives (λ x. (x.0, x.1.now)) result (number_field bytes.now) }
{
    let (word, rest) = text_field(bytes)?;
    let number = long_at(word).ok_or(LineFault::NotLine)?;
    Ok((number, rest))
}

fn after_letter(word: &str, letter: char) -> Option<&str>
    requires { letter < 128 }
    ensures { MatchOption result
        ((rest : List ℕ) → word.now ≢ letter ∷ rest)
        (λ x. word.now ≡ letter ∷ x.now) }
{
    word.strip_prefix(letter)
}

/// The variable that a word is: `q` and the position of an arc, or `s` and the position of a node.
pub fn var_at(word: &str) -> Option<Option<Var>>
    ensures { result ≡ var_at word.now }
{
    if let Some(digits) = after_letter(word, 'q') {
        let position = position_at(digits)?;
        Some(position.map(Var::Flow))
    } else if let Some(digits) = after_letter(word, 's') {
        let position = position_at(digits)?;
        Some(position.map(Var::Square))
    } else {
        None
    }
}

/// A field that is a variable, and what comes after it.
#[tactic(auto, unfolding(crate::specs::Fields::var_field))]
pub fn var_field(bytes: &[u8]) -> Result<(Option<Var>, &[u8]), LineFault>
    ensures { Gives (λ x. (x.0, x.1.now)) result (var_field bytes.now) }
{
    let (word, rest) = text_field(bytes)?;
    let var = var_at(word).ok_or(LineFault::NotLine)?;
    Ok((var, rest))
}

/// A field that is the name of a rule, and what comes after it.
#[tactic(auto, unfolding(crate::specs::Fields::rule_field))]
pub fn rule_field(bytes: &[u8]) -> Result<(Rule, &[u8]), LineFault>
    ensures { Gives (λ x. (x.0, x.1.now)) result (rule_field bytes.now) }
{
    let (word, rest) = text_field(bytes)?;
    let rule = rule_at(word).ok_or(LineFault::NotLine)?;
    Ok((rule, rest))
}

/// A field that is the word of a state, and what comes after it.
#[tactic(auto, unfolding(crate::specs::Fields::state_field))]
pub fn state_field(bytes: &[u8]) -> Result<(ArcState, &[u8]), LineFault>
    ensures { Gives (λ x. (x.0, x.1.now)) result (state_field bytes.now) }
{
    let (word, rest) = text_field(bytes)?;
    let state = state_named(word).ok_or(LineFault::NotLine)?;
    Ok((state, rest))
}

/// A field that is the word of an end, and what comes after it.
#[tactic(auto, unfolding(crate::specs::Fields::end_field))]
pub fn end_field(bytes: &[u8]) -> Result<(bool, &[u8]), LineFault>
    ensures { Gives (λ x. (x.0, x.1.now)) result (end_field bytes.now) }
{
    let (word, rest) = text_field(bytes)?;
    let low = end_at(word).ok_or(LineFault::NotLine)?;
    Ok((low, rest))
}
