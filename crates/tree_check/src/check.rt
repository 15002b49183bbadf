// The checker: it reads the lines of a text in order, and answers at the first that offends.
ghost use Rattle.std.specs.Prelude.{◌≡◌, Some, Result, Ok, Err, IfOk};
ghost use Rattle.gas_model.specs.Points.{IsInfeasible};
ghost use Rattle.gas_model.specs.Rows.{Network};
ghost use Rattle.gas_model.specs.Within.{IsWithin};
ghost use Rattle.tree_cert.specs.declared.fault.LineFault.{LineFault as FaultOf};
ghost use Rattle.tree_cert.specs.declared.line.Line.{Line as LineOf};
ghost use Rattle.tree_cert.specs.Fields.{Gives};
ghost use Rattle.tree_cert.specs.Place.{Start};
ghost use Rattle.tree_cert.specs.Reading.{line_of};
ghost use Rattle.tree_cert.specs.Texts.{Fails, told, next};
ghost use Rattle.tree_rules.specs.Branches.{rules_of};
ghost use Rattle.tree_check.specs.Reading.{place_of, IsReaderOf, SaysLine, SaysFirst};
ghost use Rattle.tree_check.specs.Verdicts.{finding_of, stopped, passing, or_open, Answers, IsAnswered};

use crate::open_box::OpenBox;
use crate::reader::{Mark, Reader, Stop, read};
use crate::verdict::Verdict;
use gas_model::Problem;
use std::alloc::Global;
use step_lines::next_line;
use tree_cert::{FaultKind, Line, LineFault, TreeFault, cut_piece, read_line};

// A fault with the number of its line.
fn fault_at(kind: FaultKind, line: u64) -> TreeFault
    ensures { finding_of (Err result) ≡ Some (Fails line kind) }
{
    match kind {
        FaultKind::NotTree => TreeFault::NotTree { line },
        FaultKind::WideNumber => TreeFault::WideNumber { line },
        FaultKind::BadStep => TreeFault::BadStep { line },
        FaultKind::WrongBranch => TreeFault::WrongBranch { line },
        FaultKind::WrongEnd => TreeFault::WrongEnd { line },
    }
}

// What a stop at a line is.
fn stopped_at(stop: Stop, line: u64) -> TreeFault
    ensures { finding_of (Err result) ≡ stopped stop line }
{
    match stop {
        Stop::NoMemory => TreeFault::NoMemory,
        Stop::Offends(kind) => fault_at(kind, line),
    }
}

// What a tree that passes shows, with this first open line.
fn verdict_of(first_open: Option<u64>) -> Verdict
    ensures { finding_of (Ok result) ≡ Some (passing first_open) }
{
    match first_open {
        None => Verdict::Refutes,
        Some(first_open) => Verdict::Partial { first_open },
    }
}

// The first open line, where this line comes next.
fn or_open(first_open: Option<u64>, number: u64, line: &Line) -> Option<u64>
    ensures { result ≡ or_open first_open number line.now }
{
    match first_open {
        Some(first) => Some(first),
        None => match line {
            Line::LeftOpen => Some(number),
            _ => None,
        },
    }
}

// In how many parts a unit is counted, by the first line of a text.
fn read_first(alloc: Global, piece: &[u8]) -> Result<i128, Stop>
    ensures { (p : Network) → SaysFirst p result (next (rules_of p) Start (told (line_of piece.now))) }
{
    match read_line(alloc, piece) {
        Ok(Line::First) => Ok(1),
        Ok(Line::FirstSixteenths) => Ok(16),
        Ok(_) => Err(Stop::Offends(FaultKind::NotTree)),
        Err(LineFault::NotLine) => Err(Stop::Offends(FaultKind::NotTree)),
        Err(LineFault::Wide) => Err(Stop::Offends(FaultKind::WideNumber)),
        Err(LineFault::NoMemory) => Err(Stop::NoMemory),
    }
}

// Takes the next line of a text, as it was read.
fn take_line(
    alloc: Global,
    p: &Problem,
    r: &mut Reader,
    given: Result<Line, LineFault>,
) -> Result<Line, Stop>
    requires { IsReaderOf p.now r.old }
    ensures said { (exact : Result LineOf FaultOf) → Gives (λ l. l) given exact → SaysLine result exact (place_of p.now r.new) (next (rules_of p.now) (place_of p.now r.old) (told exact)) }
    ensures kept { IfOk result (λ line. IsReaderOf p.now r.new) }
{
    match given {
        Ok(line) => {
            read(alloc, p, r, &line)?;
            Ok(line)
        }
        Err(LineFault::NotLine) => Err(Stop::Offends(FaultKind::NotTree)),
        Err(LineFault::Wide) => Err(Stop::Offends(FaultKind::WideNumber)),
        Err(LineFault::NoMemory) => Err(Stop::NoMemory),
    }
}

/// Judges the text of a tree, by the rules of a problem. Its first line says in which units it counts: `gastree 1` in
/// whole ones, `gastree 2` in sixteenths. The lines are read in order, and the first that offends is named. Memory grows
/// with the steps and branches above the next line, and not with the lines.
pub fn check_tree(alloc: Global, p: &Problem, text: &[u8]) -> Result<Verdict, TreeFault>
    // The answer is what the text is found to be, which is one thing alone; a want of memory says nothing.
    ensures exact { Answers p.now text.now result }
    // And what the text is found to be is the answer, unless memory runs out.
    ensures each { IsAnswered p.now text.now result }
    // What is refuted has no listed decisions and states, and no flows and squared pressures over any denominator.
    ensures sound { result ≡ Ok Verdict.Refutes → IsInfeasible p.now }
{
    judge(alloc, p, text)
}

// The same, of which the soundness follows.
fn judge(alloc: Global, p: &Problem, text: &[u8]) -> Result<Verdict, TreeFault>
    ensures exact { Answers p.now text.now result }
    ensures within { IfOk result (λ verdict. IsWithin p.now) }
{
    let Some((piece, mut rest)) = cut_piece(text) else {
        return Err(TreeFault::WrongEnd { line: 1 });
    };
    let scale = match read_first(alloc, piece) {
        Ok(scale) => scale,
        Err(stop) => return Err(stopped_at(stop, 1)),
    };
    let Ok(here) = OpenBox::opening(alloc, scale, p) else {
        return Err(TreeFault::NoMemory);
    };
    let mut r = Reader::new(alloc, here);
    let mut first_open = None;
    let mut number: u64 = 2;
    while let Some((given, after)) = next_line(alloc, rest) {
        match take_line(alloc, p, &mut r, given) {
            Ok(line) => first_open = or_open(first_open, number, &line),
            Err(stop) => return Err(stopped_at(stop, number)),
        }
        number += 1;
        rest = after;
    }
    match r.mark {
        Mark::Ended => Ok(verdict_of(first_open)),
        _ => Err(TreeFault::WrongEnd { line: number }),
    }
}
