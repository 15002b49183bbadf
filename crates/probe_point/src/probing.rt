// The setting that is tried in a box.
ghost use Rattle.std.specs.Prelude.{◌≡◌, pos, length, replicate, IfOk};
ghost use Rattle.gas_model.specs.Boxes.{BoxFits};
ghost use Rattle.gas_model.specs.declared.rows.PartState.{PartState};
ghost use Rattle.gas_model.specs.Choices.{PartFits};
ghost use Rattle.gas_model.specs.Near.{SettingFits, number_at};
ghost use Rattle.box_ends.specs.Empty.{LeavesAll};
ghost use Rattle.probe_point.specs.Probes.{box_at, AreSmall, AreFlowBoxes};
ghost use Rattle.probe_point.specs.Squares.{AreSquares, AreSquareBoxes, HasSquares};
ghost use Rattle.probe_point.specs.Choices.{AreChoicesOf};
ghost use Rattle.probe_point.specs.Points.{middle_supplies, AreProbeSquares, IsProbe};
ghost use Rattle.probe_point.specs.Chords.{HasMiddles};
ghost use Rattle.probe_point.specs.Given.{IsSomeShape, AreGivenFlows, HasGivenFlows};

use crate::choices::copied;
use crate::choosing::Chosen;
use crate::chords::chord_flows;
use crate::flows::tree_flows;
use crate::hull::{flow_hulls, square_hulls};
use crate::squares::far_squares;
use crate::supplies::{middle_supplies, whole_numbers, zeros};
use crate::tree_roots::root_squares;
use box_core::VarBox;
use box_ends::ScaledBox;
use gas_model::{ArcState, Ends, NoMemory, PartState, Problem, Setting};
use interval_core::Grid;
use std::alloc::Global;
use topo::Shape;

// Gives chords and tree arcs their flows. `flows` has none before, and `need` the middle supplies.
fn give_flows(p: &Problem, shape: &Shape, hulls: &[Ends], flows: &mut [i128], need: &mut [i128])
    requires shape { IsSomeShape p.now shape.now }
    requires hulls { AreFlowBoxes hulls.now }
    requires hull_of_each { length hulls.now ≡ length p.now.arcs }
    requires flows { flows.old ≡ replicate (length p.now.arcs) (pos 0) }
    requires need { need.old ≡ middle_supplies p.now.nodes }
    requires small { AreSmall 1 need.old }
    ensures value { AreGivenFlows p.now shape.now hulls.now flows.new }
    ensures size { AreSmall 1 flows.new }
{
    let arcs = p.arcs();
    chord_flows(arcs, hulls, shape.chords(), flows, need);
    tree_flows(arcs, hulls, shape.walk(), flows, need);
}

// The flows of chords and of tree arcs. All other arcs have none.
fn flows_of(alloc: Global, p: &Problem, shape: &Shape, b: &ScaledBox) -> Result<Vec<i128>, NoMemory>
    requires shape { IsSomeShape p.now shape.now }
    requires fits { BoxFits p.now b.now.bounds }
    requires all { LeavesAll b.now.bounds }
    ensures value { IfOk result (λ flows. HasGivenFlows b.now.scale p.now shape.now b.now.bounds.flows flows.items) }
    ensures size { IfOk result (λ flows. AreSmall 1 flows.items) }
{
    let arcs = p.arcs().len();
    let hulls = flow_hulls(alloc, b, arcs)?;
    let mut need = middle_supplies(alloc, p)?;
    let mut flows = zeros(alloc, arcs)?;
    give_flows(
        p,
        shape,
        hulls.as_slice(),
        flows.as_mut_slice(),
        need.as_mut_slice(),
    );
    Ok(flows)
}

// Gives roots and far ends their squares. `squares` has zeros before.
fn give_squares(
    p: &Problem,
    shape: &Shape,
    states: &[ArcState],
    hulls: &[Ends],
    flows: &[i128],
    squares: &mut [i128],
)
    requires shape { IsSomeShape p.now shape.now }
    requires states { length states.now ≡ length p.now.arcs }
    requires hulls { AreSquareBoxes hulls.now }
    requires hull_of_each { length hulls.now ≡ length p.now.nodes }
    requires flow_of_each { length flows.now ≡ length p.now.arcs }
    requires flows { AreSmall 1 flows.now }
    requires squares { squares.old ≡ replicate (length p.now.nodes) (pos 0) }
    ensures roots { HasMiddles (box_at hulls.now) shape.now.roots (number_at squares.new) }
    ensures others { HasSquares p.now.arcs states.now (box_at hulls.now) (number_at flows.now) shape.now.walk (number_at squares.new) }
    ensures size { AreSquares squares.new }
{
    root_squares(hulls, shape.roots(), squares);
    far_squares(p.arcs(), states, hulls, shape.walk(), flows, squares);
}

// The squares of roots and of far ends.
fn squares_of(
    alloc: Global,
    p: &Problem,
    shape: &Shape,
    states: &[ArcState],
    flows: &[i128],
    b: &ScaledBox,
) -> Result<Vec<i128>, NoMemory>
    requires shape { IsSomeShape p.now shape.now }
    requires states { length states.now ≡ length p.now.arcs }
    requires flow_of_each { length flows.now ≡ length p.now.arcs }
    requires flows { AreSmall 1 flows.now }
    requires fits { BoxFits p.now b.now.bounds }
    requires all { LeavesAll b.now.bounds }
    ensures value { IfOk result (λ squares. AreProbeSquares b.now.scale p.now states.now shape.now b.now.bounds.squares flows.now squares.items) }
    ensures size { IfOk result (λ squares. AreSquares squares.items) }
{
    let nodes = p.nodes().len();
    let hulls = square_hulls(alloc, b, nodes)?;
    let mut squares = zeros(alloc, nodes)?;
    give_squares(
        p,
        shape,
        states,
        hulls.as_slice(),
        flows,
        squares.as_mut_slice(),
    );
    Ok(squares)
}

// The setting with these choices, flows and squares.
fn setting(
    alloc: Global,
    chosen: &Chosen,
    flows: &[i128],
    squares: &[i128],
) -> Result<Setting, NoMemory>
    requires flows { AreSmall 1 flows.now }
    requires squares { AreSquares squares.now }
    ensures { IfOk result (λ s. s ≡ record { picks = chosen.now.picks; states = chosen.now.states; flows = flows.now; squares = squares.now }) }
{
    Ok(Setting {
        picks: copied(alloc, chosen.picks.as_slice())?,
        states: copied(alloc, chosen.states.as_slice())?,
        flows: whole_numbers(alloc, flows)?,
        squares: whole_numbers(alloc, squares)?,
    })
}

// The probe of a box with its scale, where the choices are made.
fn probe_of(alloc: Global, p: &Problem, chosen: &Chosen, b: &ScaledBox) -> Result<Setting, NoMemory>
    requires chosen { (part : PartState) × AreChoicesOf p.now part chosen.now }
    requires bounds { BoxFits p.now b.now.bounds }
    requires all { LeavesAll b.now.bounds }
    ensures probe { (part : PartState) → AreChoicesOf p.now part chosen.now → IfOk result (λ s. IsProbe b.now.scale p.now part b.now.bounds s) }
    ensures fits { IfOk result (λ s. SettingFits p.now s) }
{
    let shape = &chosen.shape;
    let states = chosen.states.as_slice();
    let flows = flows_of(alloc, p, shape, b)?;
    let squares = squares_of(alloc, p, shape, states, flows.as_slice(), b)?;
    setting(alloc, chosen, flows.as_slice(), squares.as_slice())
}

/// The setting that is tried in a box. Groups that aren't picked take their first decision, and then arcs whose state
/// isn't fixed their first allowed state. A shut arc has no flow. Each other variable takes a value between the whole
/// numbers next to its ends, outward: the flow of a chord and the square of a root the middle, the flow of a tree arc
/// the value that is nearest to the one which balances its far node at the middle supply, and the square of a far node
/// the value that is nearest to the one which its near node gives. Its time and its memory grow as the number of nodes
/// and arcs, but for a factor that stays small. `NoMemory` is its only refusal.
///
/// The part state and the box fit the problem, and no width is negative.
pub fn probe<G: Grid>(
    alloc: Global,
    p: &Problem,
    part: &PartState,
    b: &VarBox<G>,
) -> Result<Setting, NoMemory>
    requires part { PartFits p.now part.now }
    requires bounds { BoxFits p.now b.now }
    requires all { LeavesAll b.now }
    ensures probe { IfOk result (λ s. IsProbe G.SCALE p.now part.now b.now s) }
    ensures fits { IfOk result (λ s. SettingFits p.now s) }
{
    let chosen = Chosen::of(alloc, p, part)?;
    probe_chosen(alloc, p, &chosen, b)
}

/// The probe of a box in a part state whose choices are made: the same setting as `probe` gives, for less work.
///
/// The choices are those of a part state of the problem, the box fits the problem, and no width is negative.
pub fn probe_chosen<G: Grid>(
    alloc: Global,
    p: &Problem,
    chosen: &Chosen,
    b: &VarBox<G>,
) -> Result<Setting, NoMemory>
    requires chosen { (part : PartState) × AreChoicesOf p.now part chosen.now }
    requires bounds { BoxFits p.now b.now }
    requires all { LeavesAll b.now }
    ensures probe { (part : PartState) → AreChoicesOf p.now part chosen.now → IfOk result (λ s. IsProbe G.SCALE p.now part b.now s) }
    ensures fits { IfOk result (λ s. SettingFits p.now s) }
{
    probe_of(alloc, p, chosen, b.scaled())
}
