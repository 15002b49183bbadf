// A text that refutes, as its lines.
ghost use Rattle.std.specs.Prelude.{ℕ, Ok, Err, List as ListOf, IfOk, OnOk, ◌≡◌};
ghost use Rattle.gas_model.specs.Points.{IsInfeasible};
ghost use Rattle.tree_cert.specs.declared.fault.LineFault.{LineFault as FaultOf};
ghost use Rattle.tree_cert.specs.declared.line.Line.{Line as LineOf};
ghost use Rattle.tree_cert.specs.Fields.{Gives};
ghost use Rattle.tree_cert.specs.Spelling.{AreLines};
ghost use Rattle.gas_model.specs.Rows.{Network};
ghost use Rattle.tree_cert.specs.Texts.{Finding};
ghost use Rattle.tree_check.specs.Verdicts.{Answers, IsAnswerTo};
ghost use Rattle.refuting_tree.specs.Refusals.{IsRefusal, Says, IsSaid, Tells};

use crate::fault::RefutingFault;
use gas_model::{List, NoMemory, Problem};
use std::alloc::Global;
use step_lines::next_line;
use tree_cert::{Line, LineFault};
use tree_check::{TreeFault, Verdict, check_tree};

// What a fault that the checker finds says of the text.
fn refused(fault: TreeFault) -> RefutingFault
    ensures says { (p : Network) (text : ListOf ℕ) → Answers p text (Err fault) → IsRefusal p text result }
    ensures said { (f : Finding) → IsAnswerTo f (Err fault) → Tells {A = Unit {0}} f (Err result) }
{
    match fault {
        TreeFault::NoMemory => RefutingFault::NoMemory,
        _ => RefutingFault::Tree(fault),
    }
}

// Whether a text refutes the problem.
fn check(alloc: Global, p: &Problem, text: &[u8]) -> Result<(), RefutingFault>
    ensures says { Says p.now text.now result }
    ensures said { IsSaid p.now text.now result }
    ensures sound { OnOk result (IsInfeasible p.now) }
{
    match check_tree(alloc, p, text) {
        Ok(Verdict::Refutes) => Ok(()),
        Ok(Verdict::Partial { first_open }) => Err(RefutingFault::LeftOpen { line: first_open }),
        Err(fault) => Err(refused(fault)),
    }
}

// A line that is known to be read.
fn line_read(given: Result<Line, LineFault>) -> Result<Line, NoMemory>
    requires { (line : LineOf) × Gives (λ l. l) given (Ok line) }
    ensures { (line : LineOf) → Gives (λ l. l) given (Ok line) → IfOk result (λ l. l ≡ line) }
{
    match given {
        Ok(line) => Ok(line),
        Err(LineFault::NoMemory) => Err(NoMemory),
        Err(LineFault::NotLine) => unreachable!(),
        Err(LineFault::Wide) => unreachable!(),
    }
}

// The lines of a text that is made of lines.
fn read_lines(alloc: Global, text: &[u8]) -> Result<List<Line>, NoMemory>
    requires { (lines : ListOf LineOf) × AreLines text.now lines }
    ensures { IfOk result (λ lines. AreLines text.now lines) }
{
    let mut lines = List::new(alloc);
    let mut rest = text;
    while let Some((given, after)) = next_line(alloc, rest) {
        lines.push(line_read(given)?)?;
        rest = after;
    }
    Ok(lines)
}

/// The lines of a text that refutes a problem, in order, or why it doesn't refute it: the checker's fault, or the first line
/// that leaves a box open.
pub fn lines_of_refuting(
    alloc: Global,
    p: &Problem,
    text: &[u8],
) -> Result<List<Line>, RefutingFault>
    ensures lines { IfOk result (λ lines. AreLines text.now lines) }
    // The text refutes where lines are answered, and else it is what the fault says; a want of memory says nothing.
    ensures says { Says p.now text.now result }
    // And what the text is found to be is answered, unless memory runs out.
    ensures said { IsSaid p.now text.now result }
    // What is refuted has no listed decisions and states, and no flows and squared pressures over any denominator.
    ensures sound { OnOk result (IsInfeasible p.now) }
{
    check(alloc, p, text)?;
    Ok(read_lines(alloc, text)?)
}
