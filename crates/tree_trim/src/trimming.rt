// The steps that are left out, and the text of the other lines.
ghost use Rattle.std.specs.Prelude.{◌≡◌, ◌≢◌, ◌<◌, ℕ, true, false, length, slice_index_or, slice_set, List as ListOf, IfOk, OnOk, IsTrue, ◌↔◌};
ghost use Rattle.std.specs.List.{list_all};
ghost use Rattle.gas_model.specs.Points.{IsInfeasible};
ghost use Rattle.gas_model.specs.Within.{IsWithin};
ghost use Rattle.tree_cert.specs.declared.line.Line.{Line as LineOf};
ghost use Rattle.tree_cert.specs.Spelling.{has_ordered_cut, AreLines};
ghost use Rattle.tree_cert.specs.Texts.{PassesWholeText};
ghost use Rattle.tree_cert.specs.TreeRules.{PassesWhole};
ghost use Rattle.tree_rules.specs.Branches.{rules_of};
ghost use Rattle.refuting_tree.specs.Refusals.{Says, IsSaid};
ghost use Rattle.trim_rules.specs.Trimming.{IsTrimOf, HasSomeLinesOf, NeedsEachStep};
ghost use Rattle.tree_trim.specs.Kept.{kept_of, is_step, Decides, LeavesOut};

use crate::kept::kept_text;
use gas_model::{Bytes, List, NoMemory, Problem};
use refuting_tree::{RefutingFault, lines_of_refuting};
use std::alloc::Global;
use tree_cert::Line;
use tree_check::{TreeFault, Verdict, check_tree};

fn is_step(line: &Line) -> bool
    ensures { result ≡ is_step line.now }
{
    match line {
        Line::Step(_) => true,
        _ => false,
    }
}

// A text with a fault doesn't pass, if it isn't want of memory.
fn fails(fault: TreeFault) -> Result<bool, NoMemory>
    ensures { IfOk result (λ goes. (goes ≡ false) × (fault ≢ TreeFault.NoMemory)) }
{
    match fault {
        TreeFault::NoMemory => Err(NoMemory),
        _ => Ok(false),
    }
}

// Whether a text passes, with no box left open.
fn refutes(alloc: Global, p: &Problem, text: &[u8]) -> Result<bool, NoMemory>
    ensures { IfOk result (λ goes. IsTrue goes ↔ PassesWholeText (rules_of p.now) text.now) }
{
    match check_tree(alloc, p, text) {
        Ok(Verdict::Refutes) => Ok(true),
        Ok(Verdict::Partial { .. }) => Ok(false),
        Err(fault) => fails(fault),
    }
}

// Whether the lines that aren't left out pass.
fn pass(alloc: Global, p: &Problem, lines: &[Line], left_out: &[bool]) -> Result<bool, NoMemory>
    requires ordered { list_all has_ordered_cut lines.now ≡ true }
    requires marks { length left_out.now ≡ length lines.now }
    ensures { IfOk result (λ goes. IsTrue goes ↔ PassesWhole (rules_of p.now) (kept_of lines.now left_out.now)) }
{
    let text = kept_text(alloc, lines, left_out)?;
    refutes(alloc, p, text.as_slice())
}

// The rows of a problem lie within their limits.
fn within(p: &Problem)
    ensures { IsWithin p.now }
{
    let _rows = p.nodes();
}

// Leaves a line out, if it is a step and the lines that are left pass without it.
fn try_line(
    alloc: Global,
    p: &Problem,
    lines: &[Line],
    left_out: &mut List<bool>,
    i: usize,
) -> Result<(), NoMemory>
    requires ordered { list_all has_ordered_cut lines.now ≡ true }
    requires marks { length left_out.old ≡ length lines.now }
    requires place { i < length lines.now }
    requires there { slice_index_or left_out.old i false ≡ false }
    ensures { OnOk result (LeavesOut (rules_of p.now) lines.now i left_out.old left_out.new) }
{
    if is_step(&lines[i]) {
        left_out.put(i, true);
        if !pass(alloc, p, lines, left_out.as_slice())? {
            left_out.put(i, false);
        }
    }
    Ok(())
}

// Which lines are left out, from the last to the first.
fn left_out(alloc: Global, p: &Problem, lines: &[Line]) -> Result<List<bool>, NoMemory>
    requires { list_all has_ordered_cut lines.now ≡ true }
    ensures { IfOk result (λ marks. Decides (rules_of p.now) lines.now marks) }
{
    let mut left_out = List::filled(alloc, false, lines.len())?;
    let mut i = lines.len();
    while i > 0 {
        i -= 1;
        try_line(alloc, p, lines, &mut left_out, i)?;
    }
    Ok(left_out)
}

/// The trimmed text of a refutation: its step lines are gone through from the last to the first, and each is left out where
/// the text that is left without it passes. All other lines stay. A text that refutes nothing is refused by the checker's
/// fault, or by the first line that leaves a box open.
pub fn trim(alloc: Global, p: &Problem, text: &[u8]) -> Result<Bytes, RefutingFault>
    ensures trimmed { IfOk result (λ trimmed. IsTrimOf (rules_of p.now) text.now trimmed) }
    // It passes, with no box left open, and its lines are some of the text's, in their order.
    ensures passes { IfOk result (λ trimmed. PassesWholeText (rules_of p.now) trimmed) }
    ensures part { IfOk result (λ trimmed. HasSomeLinesOf text.now trimmed) }
    // Without any one of its step lines it doesn't pass.
    ensures needs { IfOk result (λ trimmed. NeedsEachStep (rules_of p.now) trimmed) }
    // The text refutes where it is trimmed, and else it is what the fault says; a want of memory says nothing. And what the
    // text is found to be is answered, unless memory runs out.
    ensures says { Says p.now text.now result }
    ensures said { IsSaid p.now text.now result }
    // What is refuted has no listed decisions and states, and no flows and squared pressures over any denominator.
    ensures sound { OnOk result (IsInfeasible p.now) }
{
    within(p);
    let lines = lines_of_refuting(alloc, p, text)?;
    let left_out = left_out(alloc, p, lines.as_slice())?;
    Ok(kept_text(alloc, lines.as_slice(), left_out.as_slice())?)
}
