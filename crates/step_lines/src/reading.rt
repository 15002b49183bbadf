// The lines of a text, one after the other.
ghost use Rattle.std.specs.Prelude.{◌≡◌, [], MatchOption, IfSome};
ghost use Rattle.step_lines.specs.Fronts.{IsNext, IsLineBefore, IsStepBefore};

use crate::cuts::cut_before;
use crate::fields::{end_before, position_before, rule_before, value_before, var_before};
use std::alloc::Global;
use tree_cert::{Closing, Line, LineFault, Step, cut_piece, read_line};

// The step that the first line spells, and what comes after it. No answer where it spells none, or one with more digits
// than are read here.
fn step_before(bytes: &[u8]) -> Option<(Step, &[u8])>
    ensures { IfSome result (λ x. IsStepBefore bytes.now x.0 x.1.now) }
{
    let (low, rest) = end_before(bytes)?;
    let (var, rest) = var_before(rest)?;
    let (value, rest) = value_before(rest)?;
    let (rule, rest) = rule_before(rest)?;
    let (place, rest) = position_before(rest, b'\n')?;
    let step = Step {
        var,
        low,
        value,
        rule,
        place,
    };
    Some((step, rest))
}

// The first line of a text, where it is one of the commonest, and what comes after it.
fn common_line(alloc: Global, bytes: &[u8]) -> Option<(Line, &[u8])>
    ensures { IfSome result (λ x. IsLineBefore bytes.now x.0 x.1.now) }
{
    match step_before(bytes) {
        Some((step, rest)) => Some((Line::Step(step), rest)),
        None => match cut_before(alloc, bytes) {
            Some((nodes, rest)) => Some((Line::Close(Closing::Cut(nodes)), rest)),
            None => None,
        },
    }
}

/// What the first line of a text is read as, and what comes after it; none where there are no bytes. It is what
/// `cut_piece` cuts off, read as `read_line` reads it, for all bytes; but a step or a closing by a cut is read in one pass,
/// without looking for its line feed first.
pub fn next_line(alloc: Global, bytes: &[u8]) -> Option<(Result<Line, LineFault>, &[u8])>
    ensures { MatchOption result (bytes.now ≡ []) (λ x. IsNext bytes.now x.0 x.1.now) }
{
    match common_line(alloc, bytes) {
        Some((line, rest)) => Some((Ok(line), rest)),
        None => match cut_piece(bytes) {
            Some((piece, rest)) => Some((read_line(alloc, piece), rest)),
            None => None,
        },
    }
}
