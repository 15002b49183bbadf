// The squares that a probe gives from the roots outward.
ghost use Rattle.std.specs.Prelude.{◌≡◌, ◌<◌, ◌+◌, ◌*◌, ◌^◌, ◌==◌, if◌then◌else◌, Bool, ℕ, ℤ, pos, ◌+ℤ◌, ◌-ℤ◌, ◌*ℤ◌, ◌≤ℤ◌, length, slice_index_or, int_lt, unsigned_abs, IsTrue};
ghost use Rattle.std.specs.Int.{int_div_euclid};
ghost use Rattle.std.specs.Ordering.{int_eq};
ghost use Rattle.integer_laws.specs.Sizes.{IsWithin};
ghost use Rattle.gas_units.specs.Rounds.{IsRootDown};
ghost use Rattle.base_types.specs.declared.states.ArcState.TheVariants.{Opened, Active};
ghost use Rattle.gas_model.specs.declared.rows.Ends.{Ends};
ghost use Rattle.gas_model.specs.Curves.{square};
ghost use Rattle.gas_model.specs.Limits.{is_drag_within, is_kind_within};
ghost use Rattle.base_types.specs.Numbers.{is_difference, is_square};
ghost use Rattle.gas_model.specs.Laws.{form_of, is_pipe_within};
ghost use Rattle.gas_model.specs.Near.{number_at};
ghost use Rattle.topo.specs.Graphs.{graph_of, no_arc};
ghost use Rattle.topo.specs.Walks.{step_at, far, InOrder};
ghost use Rattle.probe_point.specs.Probes.{nearest, box_at, AreSmall, AreGraphEnds};
ghost use Rattle.probe_point.specs.Squares.{middle_drop, leads_out, dragged, lossy, IsGiven, IsFarSquare, HasSquares, AreSquareBoxes, AreSquares, AreKindsWithin, IsStepSquare, KeepsNearSquares};

use crate::numbers::nearest;
use box_ends::middle;
use gas_model::{ArcKind, ArcRow, ArcState, Drag, Ends, PipeLaw, level};
use gas_units::root_down;
use topo::far;

// The square of a flow.
fn square(q: i128) -> i128
    requires { IsWithin 1000000000000 q }
    ensures value { result ≡ square q }
    ensures size { IsWithin (10 ^ 24) result }
{
    q * q
}

// Both ends of a resistance, added.
fn both_ends(law: &Drag) -> i128
    requires { IsTrue (is_drag_within law.now) }
    ensures value { result ≡ law.now.lo +ℤ law.now.hi }
    ensures size { IsWithin (2 ^ 39) result }
{
    law.lo as i128 + law.hi as i128
}

fn product(a: i128, b: i128) -> i128
    requires a { IsWithin (2 ^ 64) a }
    requires b { IsWithin (10 ^ 24) b }
    requires fits { IsWithin (10 ^ 36) (a *ℤ b) }
    ensures value { result ≡ a *ℤ b }
{
    a * b
}

// Both ends of a resistance, times the square of a flow.
fn drag_times(law: &Drag, q: i128) -> i128
    requires law { IsTrue (is_drag_within law.now) }
    requires flow { IsWithin 1000000000000 q }
    ensures value { result ≡ (law.now.lo +ℤ law.now.hi) *ℤ square q }
    ensures size { IsWithin (10 ^ 36) result }
{
    product(both_ends(law), square(q))
}

// Half of a quotient, rounded down.
fn half_quotient(n: i128, den: i64) -> i128
    requires n { IsWithin (10 ^ 36) n }
    requires den { pos 1 ≤ℤ den }
    ensures value { result ≡ int_div_euclid n (pos 2 *ℤ den) }
    ensures size { IsWithin (10 ^ 36 + 1) result }
{
    n.div_euclid(2 * den as i128)
}

// What the squares fall by at the flow `q` by the middle of a resistance, rounded down.
fn middle_drop(law: &Drag, q: i128) -> i128
    requires law { IsTrue (is_drag_within law.now) }
    requires flow { IsWithin 1000000000000 q }
    ensures value { result ≡ middle_drop law.now q }
    ensures size { IsWithin (10 ^ 36 + 1) result }
{
    half_quotient(drag_times(law, q), law.den)
}

// Whether the flow leads from the near end to the far end.
fn leads_out(at_from: bool, q: i128) -> bool
    ensures { result ≡ leads_out at_from q }
{
    if at_from { q >= 0 } else { q < 0 }
}

// The square behind a resistance, or before it.
fn dragged(law: &PipeLaw, at_from: bool, q: i128, x: i128) -> i128
    requires law { IsTrue (is_pipe_within law.now) }
    requires flow { IsWithin 1000000000000 q }
    requires near { IsTrue (is_square x) }
    ensures { result ≡ dragged law.now at_from q x }
{
    let drop = middle_drop(&law.drag, q);
    if leads_out(at_from, q) {
        x - drop
    } else {
        x + drop
    }
}

// Twice the product of a loss and a root.
fn twice(low: i128, r: i128) -> i128
    requires low { IsWithin 400000000 low }
    requires root { IsWithin (2 ^ 64) r }
    ensures value { result ≡ pos 2 *ℤ (low *ℤ r) }
    ensures size { IsWithin (10 ^ 30) result }
{
    2 * (low * r)
}

// The square of a loss.
fn loss_square(low: i128) -> i128
    requires { IsWithin 400000000 low }
    ensures value { result ≡ square low }
    ensures size { IsWithin (10 ^ 18) result }
{
    low * low
}

// The square before a constant loss.
fn before_loss(low: i128, r: i128, x: i128) -> i128
    requires low { IsWithin 400000000 low }
    requires near { IsTrue (is_square x) }
    requires root { IsWithin (2 ^ 64) r }
    ensures { result ≡ x +ℤ pos 2 *ℤ (low *ℤ r) +ℤ square low }
{
    x + twice(low, r) + loss_square(low)
}

// The square behind a constant loss, which isn't below 0.
fn behind_loss(low: i128, r: i128, x: i128) -> i128
    requires low { IsWithin 400000000 low }
    requires near { IsTrue (is_square x) }
    requires root { IsWithin (2 ^ 64) r }
    ensures { result ≡ (if int_lt r low then pos 0 else x -ℤ pos 2 *ℤ (low *ℤ r) +ℤ square low) }
{
    if r < low {
        return 0;
    }
    x - twice(low, r) + loss_square(low)
}

fn is_zero(q: i128) -> bool
    ensures { result ≡ int_eq q (pos 0) }
{
    q == 0
}

// The square behind a constant loss, or before it, where `r` is the root of `x`.
fn rooted(low: i128, at_from: bool, q: i128, r: i128, x: i128) -> i128
    requires low { IsWithin 400000000 low }
    requires near { IsTrue (is_square x) }
    requires root { IsWithin (2 ^ 64) r }
    ensures { result ≡ lossy low at_from q r x }
{
    if is_zero(q) {
        x
    } else if leads_out(at_from, q) {
        behind_loss(low, r, x)
    } else {
        before_loss(low, r, x)
    }
}

// The root of a square, rounded down.
fn root_of(x: i128) -> i128
    requires { IsTrue (is_square x) }
    ensures root { (r : ℕ) × IsRootDown (unsigned_abs x) r × (result ≡ pos r) }
    ensures size { IsWithin (2 ^ 64) result }
{
    root_down(x as u128) as i128
}

// The square behind a constant loss, or before it.
fn lossy(low: i64, at_from: bool, q: i128, x: i128) -> i128
    requires low { IsTrue (is_difference low) }
    requires near { IsTrue (is_square x) }
    ensures { (r : ℕ) × IsRootDown (unsigned_abs x) r × (result ≡ lossy low at_from q (pos r) x) }
{
    rooted(low as i128, at_from, q, root_of(x), x)
}

// The square that the far end of an open arc gets from the near end's square `x`.
fn given_opened(kind: &ArcKind, at_from: bool, q: i128, x: i128) -> i128
    requires kind { IsTrue (is_kind_within kind.now) }
    requires flow { IsWithin 1000000000000 q }
    requires near { IsTrue (is_square x) }
    ensures { (e : Ends) → IsGiven (form_of kind.now Opened) at_from e q x result }
{
    match kind {
        ArcKind::Pipe { law } | ArcKind::Resist { law } => dragged(&level(law), at_from, q, x),
        ArcKind::Loss { low, .. } => lossy(*low, at_from, q, x),
        _ => x,
    }
}

// The square that the far end of an active arc gets, by the box of that end, or from the near end's square `x`.
fn given_active(kind: &ArcKind, ends: Ends, x: i128) -> i128
    requires low { IsTrue (is_square ends.lo) }
    requires high { IsTrue (is_square ends.hi) }
    ensures { (at_from : Bool) (q : ℤ) → IsGiven (form_of kind.now Active) at_from ends q x result }
{
    match kind {
        ArcKind::Control { .. } | ArcKind::Station { .. } => middle(ends),
        _ => x,
    }
}

// The square that the far end of an arc in this state gets from the near end's square `x`.
fn given(kind: &ArcKind, state: ArcState, at_from: bool, ends: Ends, q: i128, x: i128) -> i128
    requires kind { IsTrue (is_kind_within kind.now) }
    requires low { IsTrue (is_square ends.lo) }
    requires high { IsTrue (is_square ends.hi) }
    requires flow { IsWithin 1000000000000 q }
    requires near { IsTrue (is_square x) }
    ensures { IsGiven (form_of kind.now state) at_from ends q x result }
{
    match state {
        ArcState::Opened => given_opened(kind, at_from, q, x),
        ArcState::Active => given_active(kind, ends, x),
        ArcState::Shut | ArcState::Bypass => x,
    }
}

// The value of the far end's box that is nearest to the square that it gets.
fn far_square(row: &ArcRow, state: ArcState, near: u32, ends: Ends, q: i128, x: i128) -> i128
    requires kind { IsTrue (is_kind_within row.now.kind) }
    requires low { IsTrue (is_square ends.lo) }
    requires high { IsTrue (is_square ends.hi) }
    requires order { ends.lo ≤ℤ ends.hi }
    requires flow { IsWithin 1000000000000 q }
    requires near { IsTrue (is_square x) }
    ensures value { IsFarSquare (form_of row.now.kind state) (row.now.from == near) ends q x result }
    ensures size { IsTrue (is_square result) }
{
    nearest(ends, given(&row.kind, state, row.from == near, ends, q, x))
}

// The square of a far end, where the flow and the near end's square are known.
fn step_square(
    arcs: &[ArcRow],
    states: &[ArcState],
    boxes: &[Ends],
    flows: &[i128],
    squares: &[i128],
    arc: u32,
    near: u32,
    node: u32,
) -> i128
    requires arc { arc < length arcs.now }
    requires states { length states.now ≡ length arcs.now }
    requires flow_of_each { length flows.now ≡ length arcs.now }
    requires near { near < length squares.now }
    requires node { node < length boxes.now }
    requires kinds { AreKindsWithin arcs.now }
    requires boxes { AreSquareBoxes boxes.now }
    requires flows { AreSmall 1 flows.now }
    requires squares { AreSquares squares.now }
    ensures value { IsStepSquare arcs.now states.now (box_at boxes.now) (number_at flows.now) (number_at squares.now) arc near node result }
    ensures size { IsTrue (is_square result) }
{
    far_square(
        &arcs[arc as usize],
        states[arc as usize],
        near,
        boxes[node as usize],
        flows[arc as usize],
        squares[near as usize],
    )
}

/// Gives the far ends of a walk their squares, from its first step to its last: each the value of its box that is
/// nearest to what the near end's square gives.
pub fn far_squares(
    arcs: &[ArcRow],
    states: &[ArcState],
    boxes: &[Ends],
    walk: &[(u32, u32)],
    flows: &[i128],
    squares: &mut [i128],
)
    requires ends { AreGraphEnds arcs.now (length squares.old) }
    requires states { length states.now ≡ length arcs.now }
    requires flow_of_each { length flows.now ≡ length arcs.now }
    requires box_of_each { length boxes.now ≡ length squares.old }
    requires walk { InOrder (graph_of arcs.now) walk.now }
    requires kinds { AreKindsWithin arcs.now }
    requires boxes { AreSquareBoxes boxes.now }
    requires flows { AreSmall 1 flows.now }
    requires squares { AreSquares squares.old }
    ensures given { HasSquares arcs.now states.now (box_at boxes.now) (number_at flows.now) walk.now (number_at squares.new) }
    ensures others { KeepsNearSquares arcs.now walk.now (number_at squares.old) (number_at squares.new) }
    ensures squares { AreSquares squares.new }
{
    for (arc, near) in walk {
        let node = far(arcs, *arc, *near);
        let square = step_square(arcs, states, boxes, flows, squares, *arc, *near, node);
        squares[node as usize] = square;
    }
}
