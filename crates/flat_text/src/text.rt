ghost use Rattle.std.specs.Prelude.{◌≡◌, ◌^◌, ℕ, List, [], ◌≤◌, ◌<◌, ◌+◌, ◌==◌, length, Ok, IfOk};
ghost use Rattle.gas_model.specs.Rows.{Network, IsProblem};
ghost use Rattle.flat_text.specs.Text.{Gives, IsRead, placed, no_more, after_head, rows_at, flat_of};
ghost use Rattle.flat_text.specs.Spelling.{flat_text};

use crate::draft::Draft;
use crate::fault::LineFault;
use crate::line::{Item, Part, line_in};
use gas_model::{ModelFault, Problem, Rows};
use line_text::cut_line;
use problem_faults::FlatFault;
use std::alloc::Global;

/// A line at its place and number.
fn placed(alloc: Global, line: u64, part: Part, bytes: &[u8]) -> Result<Option<Item>, FlatFault>
    ensures { Gives (λ x. x) result (placed line part bytes.now) }
{
    match line_in(alloc, part, bytes) {
        Ok(x) => Ok(x),
        Err(LineFault::NotFlat) => Err(FlatFault::NotFlat { line }),
        Err(LineFault::OverLimit) => Err(FlatFault::OverLimit { line }),
        Err(LineFault::NoMemory) => Err(FlatFault::NoMemory),
    }
}

/// What comes after the head line.
#[tactic(auto, unfolding(crate::specs::Text::after_head))]
fn after_head(bytes: &[u8]) -> Result<&[u8], FlatFault>
    ensures exact { Gives (λ x. x.now) result (after_head bytes.now) }
    ensures shorter { IfOk result (λ x. length x.now + 2 ≤ length bytes.now) }
{
    match bytes.strip_prefix(b"gasflat 1\n".as_slice()) {
        Some(rest) => Ok(rest),
        None => Err(FlatFault::NotFlat { line: 1 }),
    }
}

/// Nothing comes after the line `end`.
fn nothing_after(line: u64, after: &[u8]) -> Result<(), FlatFault>
    requires { line + 1 < 2 ^ 64 }
    ensures { Gives (λ x. []) result (no_more line (length after.now == 0)) }
{
    if after.is_empty() {
        Ok(())
    } else {
        Err(FlatFault::NotFlat { line: line + 1 })
    }
}

/// The rows that the lines after the head line spell, or the first line at fault.
fn read_rows(alloc: Global, bytes: &[u8]) -> Result<Rows, FlatFault>
    requires { length bytes.now + 2 < 2 ^ 64 }
    ensures { Gives (λ r. r) result (rows_at bytes.now) }
{
    let mut draft = Draft::new(alloc);
    let mut line = 2;
    let mut rest = bytes;
    while let Some((text, after)) = cut_line(rest) {
        match placed(alloc, line, draft.part(), text)? {
            Some(item) => draft = draft.add(alloc, item)?,
            None => {
                nothing_after(line, after)?;
                let rows = draft.finish()?;
                return Ok(rows);
            }
        }
        line += 1;
        rest = after;
    }
    Err(FlatFault::NotFlat { line })
}

/// The problem that the bytes spell, or the first fault.
#[tactic(auto, unfolding(crate::specs::Text::flat_of))]
fn problem_in(alloc: Global, bytes: &[u8]) -> Result<Problem, FlatFault>
    ensures { Gives (λ p. p) result (flat_of bytes.now) }
{
    let rest = after_head(bytes)?;
    let rows = read_rows(alloc, rest)?;
    match Problem::make(alloc, rows) {
        Ok(problem) => Ok(problem),
        Err(ModelFault::NoMemory) => Err(FlatFault::NoMemory),
        Err(fault) => Err(FlatFault::Model(fault)),
    }
}

/// The problem whose one text the bytes are, or the first line at fault, or what is wrong with the rows.
///
/// The text is the line `gasflat 1`, then a line for each node, then one for each arc, then the groups, each with its
/// decisions and their words, then `end`:
///
/// ```text
/// node ID P_MIN P_MAX B_MIN B_MAX
/// pipe ID FROM TO Q_MIN Q_MAX LO HI DEN
/// short ID FROM TO Q_MIN Q_MAX
/// drag ID FROM TO Q_MIN Q_MAX LO HI DEN
/// loss ID FROM TO Q_MIN Q_MAX LOW HIGH
/// valve ID FROM TO Q_MIN Q_MAX
/// control ID FROM TO Q_MIN Q_MAX IN_MIN OUT_MAX RED_MIN RED_MAX
/// station ID FROM TO Q_MIN Q_MAX IN_MIN OUT_MAX RATIO_NUM RATIO_DEN RISE_MAX
/// group ID
/// decision ID
/// set ARC WORD
/// ```
///
/// WORD is `open`, `closed`, `active`, `bypass` or `on`. Each line has a line feed, and fields are parted by one space.
/// A number is `0` or has no zero in front, after a `-` where it is below 0.
pub fn read_flat(alloc: Global, bytes: &[u8]) -> Result<Problem, FlatFault>
    ensures exact { Gives (λ p. p) result (flat_of bytes.now) }
    // What is read was spelled so.
    ensures read { IfOk result (λ p. bytes.now ≡ flat_text p) }
    // What is spelled so is read.
    ensures spelled { (q : Network) → IsProblem q → bytes.now ≡ flat_text q → IsRead q result }
{
    problem_in(alloc, bytes)
}
