// Lines as they are read.
ghost use Rattle.std.specs.Prelude.{◌≡◌, option_map};
ghost use Rattle.tree_cert.specs.declared.line.Line.{Line as LineOf};
ghost use Rattle.tree_cert.specs.Fields.{Gives};
ghost use Rattle.tree_cert.specs.Spelling.{Spells};
ghost use Rattle.tree_cert.specs.Reading.{step_of, step_at, empty_at, cut_at, rule_closing_at, closing_at, lone, of_position, halve_at, take_of, take_at, state_at, half_of, half_at, first_line, first_at, after_word, line_at, before_feed, line_of, answer_of, Means};

use crate::fault::LineFault;
use crate::fields::{
    end_field, ended, number_field, position_field, rule_field, state_field, text_field, var_field,
};
use crate::line::{Closing, Head, Line, Rule, Step};
use crate::nodes::nodes_at;
use crate::words::{LineWord, first_word_at, rule_at};
use base_types::Var;
use line_text::cut_word;
use std::alloc::Global;

fn step_of(
    low: bool,
    var: Option<Var>,
    value: Option<i128>,
    rule: Rule,
    place: Option<u32>,
) -> Option<Line>
    ensures { result ≡ step_of low var value rule place }
{
    Some(Line::Step(Step {
        var: var?,
        low,
        value: value?,
        rule,
        place: place?,
    }))
}

/// After `lo` and `hi`.
#[tactic(auto, unfolding(crate::specs::Reading::step_at))]
fn step_at(low: bool, bytes: &[u8]) -> Result<Option<Line>, LineFault>
    ensures { Gives (λ x. x) result (step_at low bytes.now) }
{
    let (var, rest) = var_field(bytes)?;
    let (value, rest) = number_field(rest)?;
    let (rule, rest) = rule_field(rest)?;
    let (place, rest) = position_field(rest)?;
    ended(rest)?;
    Ok(step_of(low, var, value, rule, place))
}

/// After `close empty`.
#[tactic(auto, unfolding(crate::specs::Reading::empty_at))]
fn empty_at(bytes: &[u8]) -> Result<Option<Line>, LineFault>
    ensures { Gives (λ x. x) result (empty_at bytes.now) }
{
    let (var, rest) = var_field(bytes)?;
    ended(rest)?;
    Ok(var.map(|var| Line::Close(Closing::Empty(var))))
}

/// After `close cut`.
#[tactic(auto, unfolding(crate::specs::Reading::cut_at))]
fn cut_at(alloc: Global, bytes: &[u8]) -> Result<Option<Line>, LineFault>
    ensures { Gives (λ x. x) result (cut_at bytes.now) }
{
    let nodes = nodes_at(alloc, bytes)?;
    Ok(nodes.map(|nodes| Line::Close(Closing::Cut(nodes))))
}

/// After `close` and the name of a rule.
#[tactic(auto, unfolding(crate::specs::Reading::rule_closing_at))]
fn rule_closing_at(word: &str, bytes: &[u8]) -> Result<Option<Line>, LineFault>
    ensures { Gives (λ x. x) result (rule_closing_at word.now bytes.now) }
{
    let rule = rule_at(word).ok_or(LineFault::NotLine)?;
    let (place, rest) = position_field(bytes)?;
    ended(rest)?;
    Ok(place.map(|place| Line::Close(Closing::At { rule, place })))
}

/// After `close`.
#[tactic(auto, unfolding(crate::specs::Reading::closing_at))]
fn closing_at(alloc: Global, bytes: &[u8]) -> Result<Option<Line>, LineFault>
    ensures { Gives (λ x. x) result (closing_at bytes.now) }
{
    let (word, rest) = text_field(bytes)?;
    if word == "empty" {
        empty_at(rest)
    } else if word == "cut" {
        cut_at(alloc, rest)
    } else {
        rule_closing_at(word, rest)
    }
}

/// After a line's only word.
#[tactic(auto, unfolding(crate::specs::Reading::lone))]
fn lone(line: Line, bytes: &[u8]) -> Result<Option<Line>, LineFault>
    ensures { Gives (λ x. x) result (lone line bytes.now) }
{
    ended(bytes)?;
    Ok(Some(line))
}

/// After `group`.
#[tactic(auto, unfolding(crate::specs::Reading::of_position))]
fn group_at(bytes: &[u8]) -> Result<Option<Line>, LineFault>
    ensures { Gives (λ x. x) result (of_position LineOf.Group bytes.now) }
{
    let (group, rest) = position_field(bytes)?;
    ended(rest)?;
    Ok(group.map(Line::Group))
}

/// After `arc`.
#[tactic(auto, unfolding(crate::specs::Reading::of_position))]
fn arc_at(bytes: &[u8]) -> Result<Option<Line>, LineFault>
    ensures { Gives (λ x. x) result (of_position LineOf.Arc bytes.now) }
{
    let (arc, rest) = position_field(bytes)?;
    ended(rest)?;
    Ok(arc.map(Line::Arc))
}

/// After `halve`.
#[tactic(auto, unfolding(crate::specs::Reading::halve_at))]
fn halve_at(bytes: &[u8]) -> Result<Option<Line>, LineFault>
    ensures { Gives (λ x. x) result (halve_at bytes.now) }
{
    let (var, rest) = var_field(bytes)?;
    ended(rest)?;
    Ok(var.map(Line::Halve))
}

fn take_of(group: Option<u32>, decision: Option<u32>) -> Option<Line>
    ensures { result ≡ take_of group decision }
{
    Some(Line::Head(Head::Take {
        group: group?,
        decision: decision?,
    }))
}

/// After `take`.
#[tactic(auto, unfolding(crate::specs::Reading::take_at))]
fn take_at(bytes: &[u8]) -> Result<Option<Line>, LineFault>
    ensures { Gives (λ x. x) result (take_at bytes.now) }
{
    let (group, rest) = position_field(bytes)?;
    let (decision, rest) = position_field(rest)?;
    ended(rest)?;
    Ok(take_of(group, decision))
}

/// After `state`.
#[tactic(auto, unfolding(crate::specs::Reading::state_at))]
fn state_at(bytes: &[u8]) -> Result<Option<Line>, LineFault>
    ensures { Gives (λ x. x) result (state_at bytes.now) }
{
    let (arc, rest) = position_field(bytes)?;
    let (state, rest) = state_field(rest)?;
    ended(rest)?;
    Ok(arc.map(|arc| Line::Head(Head::State { arc, state })))
}

fn half_of(var: Option<Var>, low: bool, value: Option<i128>) -> Option<Line>
    ensures { result ≡ half_of var low value }
{
    Some(Line::Head(Head::Half {
        var: var?,
        low,
        value: value?,
    }))
}

/// After `half`.
#[tactic(auto, unfolding(crate::specs::Reading::half_at))]
fn half_at(bytes: &[u8]) -> Result<Option<Line>, LineFault>
    ensures { Gives (λ x. x) result (half_at bytes.now) }
{
    let (var, rest) = var_field(bytes)?;
    let (low, rest) = end_field(rest)?;
    let (value, rest) = number_field(rest)?;
    ended(rest)?;
    Ok(half_of(var, low, value))
}

fn first_line(version: &str) -> Option<Line>
    ensures { result ≡ first_line version.now }
{
    if version == "1" {
        Some(Line::First)
    } else if version == "2" {
        Some(Line::FirstSixteenths)
    } else {
        None
    }
}

/// After `gastree`.
#[tactic(auto, unfolding(crate::specs::Reading::first_at))]
fn first_at(bytes: &[u8]) -> Result<Option<Line>, LineFault>
    ensures { Gives (λ x. x) result (first_at bytes.now) }
{
    let (version, rest) = text_field(bytes)?;
    let line = first_line(version).ok_or(LineFault::NotLine)?;
    ended(rest)?;
    Ok(Some(line))
}

/// After the first word of a line.
fn after_word(alloc: Global, word: LineWord, rest: &[u8]) -> Result<Option<Line>, LineFault>
    ensures { Gives (λ x. x) result (after_word word rest.now) }
{
    match word {
        LineWord::Lo => step_at(true, rest),
        LineWord::Hi => step_at(false, rest),
        LineWord::Close => closing_at(alloc, rest),
        LineWord::Open => lone(Line::LeftOpen, rest),
        LineWord::Group => group_at(rest),
        LineWord::Arc => arc_at(rest),
        LineWord::Halve => halve_at(rest),
        LineWord::Take => take_at(rest),
        LineWord::State => state_at(rest),
        LineWord::Half => half_at(rest),
        LineWord::End => lone(Line::End, rest),
        LineWord::Gastree => first_at(rest),
    }
}

/// A line without its line feed. A line with a number that doesn't fit is none.
#[tactic(auto, unfolding(crate::specs::Reading::line_at))]
fn line_at(alloc: Global, bytes: &[u8]) -> Result<Option<Line>, LineFault>
    ensures { Gives (λ x. x) result (line_at bytes.now) }
{
    let (word, rest) = cut_word(bytes);
    let first = first_word_at(word).ok_or(LineFault::NotLine)?;
    after_word(alloc, first, rest)
}

fn before_feed(bytes: &[u8]) -> Option<&[u8]>
    ensures { option_map (λ x. x.now) result ≡ before_feed bytes.now }
{
    match bytes {
        [body @ .., b'\n'] => Some(body),
        _ => None,
    }
}

/// The line that the bytes are.
#[tactic(auto, unfolding(crate::specs::Reading::line_of))]
fn line_in(alloc: Global, bytes: &[u8]) -> Result<Line, LineFault>
    ensures { Gives (λ l. l) result (line_of bytes.now) }
{
    let body = before_feed(bytes).ok_or(LineFault::NotLine)?;
    let line = line_at(alloc, body)?;
    line.ok_or(LineFault::Wide)
}

/// The line whose one spelling the bytes are, its line feed included.
///
/// A line is a word and its fields, parted by one space: `gastree 1` and `gastree 2`; `lo X C RULE P` and `hi X C RULE P`;
/// `close empty X`, `close cut N1 N2 ..` and `close RULE P`; `open`; `group K`, `arc A` and `halve X`; `take K J`,
/// `state A WORD`, `half X hi C` and `half X lo C`; `end`. X is `q` and the position of an arc, or `s` and the position
/// of a node. RULE is the name of a rule, and WORD is `open`, `closed`, `active` or `bypass`. The nodes N1 N2 .. ascend
/// strictly, and are at least one. C is a number: `0`, or digits with no zero in front, after a `-` where it is below 0.
/// The others are positions: numbers without a `-`.
///
/// Bytes that spell no line, whatever the size of its numbers, are `NotLine`; so are bytes without their line feed. Bytes
/// that spell a line with a number outside 128 signed bits, or a position past 4,294,967,295, are `Wide`; the nodes of
/// its cut ascend too, however large they are.
pub fn read_line(alloc: Global, bytes: &[u8]) -> Result<Line, LineFault>
    ensures exact { Gives (λ l. l) result (line_of bytes.now) }
    // A line that is answered is spelled so, and fits. `Wide`: a line with a number that doesn't fit is spelled so.
    // `NotLine`: no line is spelled so.
    ensures means { Means bytes.now result }
    // What is spelled so is answered: the line where its numbers fit, and else `Wide`.
    ensures spelled { (l : LineOf) → Spells bytes.now l → Gives (λ l. l) result (answer_of l) }
{
    line_in(alloc, bytes)
}
