// A reader of the lines of a tree after the first: it keeps the box of the next line and the branches above it.
ghost use Rattle.std.specs.Prelude.{◌≡◌, [], ◌∷◌, option_map, OnOk, IfSome, IsTrue};
ghost use Rattle.gas_model.specs.Boxes.{ends_of, is_var, may_become, tightened};
ghost use Rattle.gas_model.specs.Rows.{Network};
ghost use Rattle.tree_cert.specs.declared.line.Line.TheVariants as lines;
ghost use Rattle.tree_cert.specs.Tree.{Branch};
ghost use Rattle.tree_cert.specs.Place.{Place, after, read, read_branch, read_inside, read_expected, read_whole, read_ended};
ghost use Rattle.tree_rules.specs.Branches.{rules_of, after_branch};
ghost use Rattle.tree_check.specs.Held.{IsBoxAt};
ghost use Rattle.tree_check.specs.Undo.{before, undone, wait_at, waits_at, with_bounds, AreChangesOf, AreFramesOf, IsExpectedOf, IsChangeOf};
ghost use Rattle.tree_check.specs.Reading.{place_of, IsReaderOf, Says};

use crate::branches::{advance, after_arc, after_group, after_halve, is_over, take_head};
use crate::frames::{Change, Expected, Frame, note_change};
use crate::open_box::OpenBox;
use crate::stack::Stack;
use crate::steps::{closing_holds, step_holds};
use box_ends::with_end;
use gas_model::{NoMemory, Problem, Var};
use std::alloc::Global;
use tree_cert::{FaultKind, Head, Line, Step};

/// Where the next line stands.
#[derive(Clone, Copy, Debug, PartialEq, Eq)]
pub enum Mark {
    Inside,
    Expecting,
    Whole,
    Ended,
}

#[derive(Drop)]
pub struct Reader {
    pub mark: Mark,
    pub here: OpenBox,
    pub frames: Stack<Frame>,
}

/// Why a reader stops.
#[derive(Clone, Copy, Debug, PartialEq, Eq)]
pub enum Stop {
    Offends(FaultKind),
    NoMemory,
}

impl From<NoMemory> for Stop {
    ghost use Rattle.tree_check.specs.declared.reader.Stop.TheVariants as stops;

    ghost from_gives = { λ _ e. e ≡ stops.NoMemory };

    fn from(_: NoMemory) -> Stop {
        Stop::NoMemory
    }
}

impl Reader {
    /// A reader that stands before the first line of the root's box.
    pub fn new(alloc: Global, here: OpenBox) -> Reader
        ensures mark { result.mark ≡ Mark.Inside }
        ensures here { result.here ≡ here }
        ensures frames { result.frames ≡ [] }
    {
        Reader {
            mark: Mark::Inside,
            here,
            frames: Stack::new(alloc),
        }
    }
}

// Puts the box back to what it was before a change.
fn undo(p: &Problem, b: &mut OpenBox, change: Change)
    requires fits { IsBoxAt p.now b.old }
    requires change { IsChangeOf p.now b.old.scale change }
    ensures back { b.new ≡ undone b.old change }
    ensures scale { b.new.scale ≡ b.old.scale }
    ensures fits { IsBoxAt p.now b.new }
{
    match change {
        Change::Moved { var, ends } => b.put_ends(var, ends),
        Change::Picked { group, pick } => b.put_pick(group, pick),
        Change::Named { arc, state } => b.put_state(arc, state),
    }
}

// The same of changes, the newest first.
fn undo_all(p: &Problem, b: &mut OpenBox, mut changes: Stack<Change>)
    requires fits { IsBoxAt p.now b.old }
    requires changes { AreChangesOf p.now b.old.scale changes }
    ensures back { b.new ≡ before b.old changes }
    ensures scale { b.new.scale ≡ b.old.scale }
    ensures fits { IsBoxAt p.now b.new }
{
    while let Some(change) = changes.pop() {
        undo(p, b, change);
    }
}

// Goes on after a box has ended.
fn end_box(alloc: Global, p: &Problem, r: &mut Reader) -> Result<(), NoMemory>
    requires { IsReaderOf p.now r.old }
    ensures goes_on { OnOk result (place_of p.now r.new ≡ after (rules_of p.now) (waits_at r.old.here r.old.frames)) }
    ensures kept { OnOk result (IsReaderOf p.now r.new) }
{
    while let Some(frame) = r.frames.pop() {
        undo_all(p, &mut r.here, frame.changes);
        if !is_over(&frame.expected) {
            let changes = Stack::new(alloc);
            r.frames.push(Frame {
                expected: frame.expected,
                changes,
            })?;
            r.mark = Mark::Expecting;
            return Ok(());
        }
    }
    r.mark = Mark::Whole;
    Ok(())
}

// Goes on after a branch.
fn begin(alloc: Global, p: &Problem, r: &mut Reader, expected: Expected) -> Result<(), NoMemory>
    requires reader { IsReaderOf p.now r.old }
    requires expected { IsExpectedOf p.now r.old.here.scale expected }
    ensures goes_on { OnOk result (place_of p.now r.new ≡ after (rules_of p.now) (wait_at r.old.here expected ∷ waits_at r.old.here r.old.frames)) }
    ensures kept { OnOk result (IsReaderOf p.now r.new) }
{
    let changes = Stack::new(alloc);
    r.frames.push(Frame { expected, changes })?;
    end_box(alloc, p, r)
}

// Gives an end of a variable a value.
fn move_end(p: &Problem, r: &mut Reader, var: Var, low: bool, value: i128) -> Result<(), NoMemory>
    requires reader { IsReaderOf p.now r.old }
    requires var { IsTrue (is_var p.now var) }
    requires ends { IsTrue (may_become low value (ends_of r.old.here.bounds var)) }
    ensures moved { OnOk result (r.new.here ≡ with_bounds r.old.here (tightened r.old.here.bounds var low value)) }
    ensures waits { OnOk result (waits_at r.new.here r.new.frames ≡ waits_at r.old.here r.old.frames) }
    ensures kept { OnOk result (IsReaderOf p.now r.new) }
{
    let ends = r.here.ends(var);
    note_change(&mut r.frames, Change::Moved { var, ends })?;
    r.here.put_ends(var, with_end(low, value, ends));
    Ok(())
}

fn read_step(p: &Problem, r: &mut Reader, s: Step) -> Result<(), Stop>
    requires { IsReaderOf p.now r.old }
    ensures said { Says result (place_of p.now r.new) (read_inside (rules_of p.now) r.old.here (waits_at r.old.here r.old.frames) (lines.Step s)) }
    ensures kept { OnOk result (IsReaderOf p.now r.new) }
{
    if !step_holds(p, &r.here, s) {
        return Err(Stop::Offends(FaultKind::BadStep));
    }
    move_end(p, r, s.var, s.low, s.value)?;
    r.mark = Mark::Inside;
    Ok(())
}

// Begins a branch, if it is allowed.
fn read_branch(
    alloc: Global,
    p: &Problem,
    r: &mut Reader,
    expected: Option<Expected>,
) -> Result<(), Stop>
    requires reader { IsReaderOf p.now r.old }
    requires expected { IfSome expected (IsExpectedOf p.now r.old.here.scale) }
    ensures said { (branch : Branch) → option_map (wait_at r.old.here) expected ≡ after_branch p.now r.old.here branch
        → Says result (place_of p.now r.new) (read_branch (rules_of p.now) r.old.here (waits_at r.old.here r.old.frames) branch) }
    ensures kept { OnOk result (IsReaderOf p.now r.new) }
{
    match expected {
        None => Err(Stop::Offends(FaultKind::WrongBranch)),
        Some(expected) => Ok(begin(alloc, p, r, expected)?),
    }
}

// A line within a box.
fn read_inside(alloc: Global, p: &Problem, r: &mut Reader, line: &Line) -> Result<(), Stop>
    requires { IsReaderOf p.now r.old }
    ensures said { Says result (place_of p.now r.new) (read_inside (rules_of p.now) r.old.here (waits_at r.old.here r.old.frames) line.now) }
    ensures kept { OnOk result (IsReaderOf p.now r.new) }
{
    match line {
        Line::First => Err(Stop::Offends(FaultKind::NotTree)),
        Line::FirstSixteenths => Err(Stop::Offends(FaultKind::NotTree)),
        Line::Step(s) => read_step(p, r, *s),
        Line::Close(c) => {
            if closing_holds(p, &r.here, c) {
                Ok(end_box(alloc, p, r)?)
            } else {
                Err(Stop::Offends(FaultKind::BadStep))
            }
        }
        Line::LeftOpen => Ok(end_box(alloc, p, r)?),
        Line::Group(group) => {
            let expected = after_group(p, &r.here, *group);
            read_branch(alloc, p, r, expected)
        }
        Line::Arc(arc) => {
            let expected = after_arc(p, &r.here, *arc)?;
            read_branch(alloc, p, r, expected)
        }
        Line::Halve(var) => {
            let expected = after_halve(p, &r.here, *var);
            read_branch(alloc, p, r, expected)
        }
        Line::Head(_) => Err(Stop::Offends(FaultKind::WrongBranch)),
        Line::End => Err(Stop::Offends(FaultKind::WrongEnd)),
    }
}

// A line where the tree is whole.
fn read_whole(r: &mut Reader, line: &Line) -> Result<(), Stop>
    ensures said { (p : Network) → Says result (place_of p r.new) (read_whole (rules_of p) line.now) }
    ensures kept { (p : Network) → IsReaderOf p r.old → OnOk result (IsReaderOf p r.new) }
{
    match line {
        Line::First => Err(Stop::Offends(FaultKind::NotTree)),
        Line::FirstSixteenths => Err(Stop::Offends(FaultKind::NotTree)),
        Line::End => {
            r.mark = Mark::Ended;
            Ok(())
        }
        _ => Err(Stop::Offends(FaultKind::WrongEnd)),
    }
}

// A line after `end`.
fn read_ended(line: &Line) -> Result<(), Stop>
    ensures { (p : Network) (next : Place (rules_of p)) → Says result next (read_ended (rules_of p) line.now) }
{
    match line {
        Line::First => Err(Stop::Offends(FaultKind::NotTree)),
        Line::FirstSixteenths => Err(Stop::Offends(FaultKind::NotTree)),
        _ => Err(Stop::Offends(FaultKind::WrongEnd)),
    }
}

// The head of the next child, where that is expected.
fn read_head(
    alloc: Global,
    p: &Problem,
    r: &mut Reader,
    frame: Frame,
    head: Head,
) -> Result<(), Stop>
    requires reader { IsReaderOf p.now r.old }
    requires frame { AreFramesOf p.now r.old.here.scale (frame ∷ r.old.frames) }
    ensures said { Says result (place_of p.now r.new) (read_expected (rules_of p.now) (wait_at (before r.old.here frame.changes) frame.expected) (waits_at (before r.old.here frame.changes) r.old.frames) (lines.Head head)) }
    ensures kept { OnOk result (IsReaderOf p.now r.new) }
{
    undo_all(p, &mut r.here, frame.changes);
    match advance(p, &r.here, frame.expected, head) {
        None => Err(Stop::Offends(FaultKind::WrongBranch)),
        Some(expected) => {
            let change = take_head(p, &mut r.here, head);
            let mut changes = Stack::new(alloc);
            changes.push(change)?;
            r.frames.push(Frame { expected, changes })?;
            r.mark = Mark::Inside;
            Ok(())
        }
    }
}

// A line where a head is expected.
fn read_expected(
    alloc: Global,
    p: &Problem,
    r: &mut Reader,
    frame: Frame,
    line: &Line,
) -> Result<(), Stop>
    requires reader { IsReaderOf p.now r.old }
    requires frame { AreFramesOf p.now r.old.here.scale (frame ∷ r.old.frames) }
    ensures said { Says result (place_of p.now r.new) (read_expected (rules_of p.now) (wait_at (before r.old.here frame.changes) frame.expected) (waits_at (before r.old.here frame.changes) r.old.frames) line.now) }
    ensures kept { OnOk result (IsReaderOf p.now r.new) }
{
    match line {
        Line::First => Err(Stop::Offends(FaultKind::NotTree)),
        Line::FirstSixteenths => Err(Stop::Offends(FaultKind::NotTree)),
        Line::Head(head) => read_head(alloc, p, r, frame, *head),
        Line::End => Err(Stop::Offends(FaultKind::WrongEnd)),
        _ => Err(Stop::Offends(FaultKind::WrongBranch)),
    }
}

/// Reads the next line.
pub fn read(alloc: Global, p: &Problem, r: &mut Reader, line: &Line) -> Result<(), Stop>
    requires { IsReaderOf p.now r.old }
    ensures said { Says result (place_of p.now r.new) (read (rules_of p.now) (place_of p.now r.old) line.now) }
    ensures kept { OnOk result (IsReaderOf p.now r.new) }
{
    match r.mark {
        Mark::Inside => read_inside(alloc, p, r, line),
        Mark::Expecting => match r.frames.pop() {
            None => read_whole(r, line),
            Some(frame) => read_expected(alloc, p, r, frame, line),
        },
        Mark::Whole => read_whole(r, line),
        Mark::Ended => read_ended(line),
    }
}
