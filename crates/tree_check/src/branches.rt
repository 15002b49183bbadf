// The branches that are allowed at a box, and the heads of their children.
ghost use Rattle.std.specs.Prelude.{◌≡◌, None, Some, option_map, IfOk, IfSome, MatchOption, IsTrue};
ghost use Rattle.tree_cert.specs.Tree.{ByGroup, ByArc, ByHalves};
ghost use Rattle.tree_rules.specs.Branches.{Halves, after_branch, after_head, headed, is_over, lies_inside};
ghost use Rattle.tree_rules.specs.Rules.{PartBox};
ghost use Rattle.gas_model.specs.Boxes.{is_var};
ghost use Rattle.tree_check.specs.Held.{IsBoxAt};
ghost use Rattle.tree_check.specs.Undo.{wait_at, undone, IsExpectedOf, IsChangeOf, IsHeadOf};

use crate::frames::{Change, Expected};
use crate::lookup::{arc_at, count_decisions, group_at};
use crate::open_box::OpenBox;
use crate::states::{is_free, states_left};
use crate::steps::is_var;
use box_ends::with_end;
use gas_model::{Ends, NoMemory, Problem, Var};
use tree_cert::Head;

/// What is expected after `group`, where the group isn't picked.
pub fn after_group(p: &Problem, b: &OpenBox, group: u32) -> Option<Expected>
    requires { IsBoxAt p.now b.now }
    ensures after { option_map (wait_at b.now) result ≡ after_branch p.now b.now (ByGroup group) }
    ensures fits { IfSome result (IsExpectedOf p.now b.now.scale) }
{
    match group_at(p, group) {
        None => None,
        Some(row) => {
            if b.pick(group).is_some() {
                return None;
            }
            let count = count_decisions(row);
            Some(Expected::Decisions {
                group,
                next: 0,
                count,
            })
        }
    }
}

/// What is expected after `arc`, where the state of the arc isn't fixed and each group that has a word for it is picked.
pub fn after_arc(p: &Problem, b: &OpenBox, arc: u32) -> Result<Option<Expected>, NoMemory>
    requires { IsBoxAt p.now b.now }
    ensures after { IfOk result (λ o. option_map (wait_at b.now) o ≡ after_branch p.now b.now (ByArc arc)) }
    ensures fits { IfOk result (λ o. IfSome o (IsExpectedOf p.now b.now.scale)) }
{
    match arc_at(p, arc) {
        None => Ok(None),
        Some(_) => {
            if is_free(p, b, arc) {
                let left = states_left(p, b, arc)?;
                Ok(Some(Expected::States { arc, left }))
            } else {
                Ok(None)
            }
        }
    }
}

/// What is expected after `halve`, where the variable is one of the problem.
pub fn after_halve(p: &Problem, b: &OpenBox, var: Var) -> Option<Expected>
    ensures after { option_map (wait_at b.now) result ≡ after_branch p.now b.now (ByHalves var) }
    ensures fits { IfSome result (IsExpectedOf p.now b.now.scale) }
{
    if is_var(p, var) {
        Some(Expected::Halves { var })
    } else {
        None
    }
}

fn lies_inside(ends: Ends, value: i128) -> bool
    ensures { result ≡ lies_inside ends value }
{
    ends.lo < value && value < ends.hi
}

/// Whether no more heads are expected.
pub fn is_over(expected: &Expected) -> bool
    ensures { (b : PartBox) → result ≡ is_over (wait_at b expected.now) }
{
    match expected {
        Expected::Decisions { next, count, .. } => *count <= *next,
        Expected::States { left, .. } => left.is_empty(),
        Expected::Halves { .. } => false,
        Expected::UpperHalf { .. } => false,
        Expected::Over => true,
    }
}

// What is expected after the lower half of a variable, which names the value at which the halves meet.
fn after_lower(p: &Problem, b: &OpenBox, var: Var, head: Head) -> Option<Expected>
    requires fits { IsBoxAt p.now b.now }
    requires var { IsTrue (is_var p.now var) }
    ensures after { MatchOption result (after_head (Halves b.now var) head ≡ None) (λ next. after_head (Halves b.now var) head ≡ Some (headed b.now head, wait_at b.now next)) }
    ensures fits { IfSome result (λ next. IsExpectedOf p.now b.now.scale next × IsHeadOf p.now b.now.scale head) }
{
    match head {
        Head::Take { .. } => None,
        Head::State { .. } => None,
        Head::Half {
            var: of,
            low,
            value,
        } => {
            if of == var && !low && lies_inside(b.ends(var), value) {
                Some(Expected::UpperHalf { var, value })
            } else {
                None
            }
        }
    }
}

/// What is expected after a head, where that is the expected one.
pub fn advance(p: &Problem, b: &OpenBox, expected: Expected, head: Head) -> Option<Expected>
    requires fits { IsBoxAt p.now b.now }
    requires expected { IsExpectedOf p.now b.now.scale expected }
    ensures after { MatchOption result (after_head (wait_at b.now expected) head ≡ None) (λ next. after_head (wait_at b.now expected) head ≡ Some (headed b.now head, wait_at b.now next)) }
    ensures fits { IfSome result (λ next. IsExpectedOf p.now b.now.scale next × IsHeadOf p.now b.now.scale head) }
{
    match expected {
        Expected::Decisions { group, next, count } => {
            let decision = next;
            if next < count && head == (Head::Take { group, decision }) {
                let next = next + 1;
                Some(Expected::Decisions { group, next, count })
            } else {
                None
            }
        }
        Expected::States { arc, mut left } => match left.pop() {
            None => None,
            Some(state) => {
                if head == (Head::State { arc, state }) {
                    Some(Expected::States { arc, left })
                } else {
                    None
                }
            }
        },
        Expected::Halves { var } => after_lower(p, b, var, head),
        Expected::UpperHalf { var, value } => {
            let low = true;
            if head == (Head::Half { var, low, value }) {
                Some(Expected::Over)
            } else {
                None
            }
        }
        Expected::Over => None,
    }
}

/// Makes the box that of the child with this head, and tells what it takes to go back.
pub fn take_head(p: &Problem, b: &mut OpenBox, head: Head) -> Change
    requires fits { IsBoxAt p.now b.old }
    requires head { IsHeadOf p.now b.old.scale head }
    ensures headed { b.new ≡ headed b.old head }
    ensures scale { b.new.scale ≡ b.old.scale }
    ensures back { undone b.new result ≡ b.old }
    ensures change { IsChangeOf p.now b.old.scale result }
    ensures fits { IsBoxAt p.now b.new }
{
    match head {
        Head::Take { group, decision } => {
            let pick = b.pick(group);
            b.put_pick(group, Some(decision));
            Change::Picked { group, pick }
        }
        Head::State { arc, state } => {
            let old = b.named(arc);
            b.put_state(arc, Some(state));
            Change::Named { arc, state: old }
        }
        Head::Half { var, low, value } => {
            let ends = b.ends(var);
            b.put_ends(var, with_end(low, value, ends));
            Change::Moved { var, ends }
        }
    }
}
