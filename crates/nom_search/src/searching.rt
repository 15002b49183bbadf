// The search over the boxes of a pool.
ghost use Rattle.std.specs.Prelude.{◌≡◌, ◌≢◌, true, ℕ, ℤ, pos, ◌+◌, ◌-◌, ◌*◌, ◌<◌, ◌≤◌, ◌^◌, [], length, Some, IfOk, OnOk, slice_get};
ghost use Rattle.gas_model.specs.Within.{IsWithin};
ghost use Rattle.tree_rules.specs.Rules.{PartBox, closing_holds};
ghost use Rattle.stable_sweep.specs.Children.{ComesBy, IsHeadOf};
ghost use Rattle.tree_pool.specs.Rows.{splits};
ghost use Rattle.tree_pool.specs.Calls.{IsHeld};
ghost use Rattle.search_order.specs.Searches.{NoneQuit};
ghost use Rattle.box_split.specs.declared.forks.Fork.TheVariants.{Least};
ghost use Rattle.box_pool.specs.Forks.{HasFork};
ghost use Rattle.box_pool.specs.Origins.{Origin};
ghost use Rattle.box_pool.specs.Pools.{PoolFits, ViewFits, box_of_view};
ghost use Rattle.box_pool.specs.PoolOf.{IsPoolOf};
ghost use Rattle.nom_search.specs.Sought.{IsCalm};
ghost use Rattle.nom_search.specs.Halted.{Begins, Answers};
ghost use Rattle.nom_search.specs.Texts.{IsHalt, NamesBox, IsFound};
ghost use Rattle.nom_search.specs.LastChoices.{AreTools};
ghost use Rattle.nom_search.specs.Searched.{AreOfStable, LeadsTo, IsSearched, IsSettled, Turns, Ends};

use crate::trial::{LastChoices, tried};
use box_core::VarBox;
use box_pool::{BoxView, Pool, PoolGrid, Work, WorkEnd, shared};
use box_split::{Fork, branch};
use gas_model::{Bytes, List, NoMemory, Problem, Setting};
use stable_sweep::{LawQueue, Settled, settle_child};
use std::alloc::Global;
use tree_cert::{Closing, Step};

/// Why a search leaves a box open: its budget is spent; or no box is left to split, since all variables of the open ones
/// are at most one sixteenth of a unit wide.
#[derive(Clone, Copy, Debug, PartialEq, Eq)]
pub enum Why {
    Budget,
    Grid,
}

/// What a search finds: a setting that carries the nomination, the text of a refutation tree, or that of a partial tree
/// with the line of an open box.
#[derive(Drop)]
pub enum Found {
    Carried(Setting),
    Refuted(Bytes),
    Left { why: Why, tree: Bytes, line: u64 },
}

/// What a turn comes to: the box was shut or split; it is left open, since it can't be split further, or for want of
/// budget; or a setting was found in it.
#[derive(Drop)]
pub enum Turn {
    Done,
    Least,
    Full,
    Carried(Setting),
}

/// What the work on boxes takes along: the queue of laws, and the choices of the probe that was made last.
#[derive(Drop)]
pub struct Tools {
    pub queue: LawQueue,
    pub kept: Option<LastChoices>,
}

/// How the boxes of a pool end: none waits any more, and this is the first one that was left open; this one was left for
/// want of budget; or a setting was found.
#[derive(Drop)]
pub enum Outcome {
    Dry(Option<u32>),
    Full(u32),
    Carried(Setting),
}

// Gives a view the ends to which steps led. Without a step they are those that it has, and stay shared.
fn move_to(
    alloc: Global,
    view: &mut BoxView,
    bounds: VarBox<PoolGrid>,
    steps: &[Step],
) -> Result<(), NoMemory>
    requires { steps.now ≡ [] → bounds ≡ view.old.bounds.value }
    ensures part { OnOk result (view.new.part ≡ view.old.part) }
    ensures shape { OnOk result (view.new.shape ≡ view.old.shape) }
    ensures turn { OnOk result (view.new.turn ≡ view.old.turn) }
    ensures bounds { OnOk result (view.new.bounds.value ≡ bounds) }
{
    if !steps.is_empty() {
        view.bounds = shared(alloc, bounds)?;
    }
    Ok(())
}

// Settles a view, which where it has a head is the child of a stable box, and gives the steps.
fn settled(
    alloc: Global,
    p: &Problem,
    queue: &mut LawQueue,
    view: &mut BoxView,
) -> Result<(List<Step>, Settled), NoMemory>
    requires fits { ViewFits p.now view.old }
    requires head { IsHeadOf p.now view.old.head }
    requires comes { ComesBy p.now (box_of_view view.old) view.old.head }
    requires size { queue.old.size ≡ length p.now.nodes + length p.now.arcs }
    ensures size { queue.new.size ≡ queue.old.size }
    ensures settled { IfOk result (λ r. IsSettled p.now view.old view.new r.0 r.1) }
{
    let mut steps = List::new(alloc);
    let mut bounds = view.bounds.copy()?;
    let end = settle_child(
        alloc,
        p,
        &view.shape,
        &view.part,
        &mut bounds,
        view.head,
        queue,
        &mut steps,
    )?;
    move_to(alloc, view, bounds, steps.as_slice())?;
    Ok((steps, end))
}

// Gives back a held box in which a closing holds.
fn shut_box(
    alloc: Global,
    p: &Problem,
    pool: &mut Pool,
    id: u32,
    steps: List<Step>,
    closing: Closing,
    view: BoxView,
    boxes: u64,
) -> Result<Turn, NoMemory>
    requires problem { IsWithin p.now }
    requires held { IsHeld pool.old.rows id }
    requires origin { (o : Origin) × (slice_get pool.old.origins id ≡ Some (Some o)) × LeadsTo p.now o steps view }
    requires closing { closing_holds p.now (box_of_view view) closing ≡ true }
    requires within { splits pool.old.rows ≤ boxes }
    ensures turn { (tol : ℤ) → Turns p.now tol boxes pool.old pool.new id result }
    ensures keeps { (root : PartBox) → IsPoolOf p.now root pool.old → IsPoolOf p.now root pool.new }
{
    let end = WorkEnd::Shut(closing);
    pool.give_back(alloc, p, id, Work { steps, end }, view)?;
    Ok(Turn::Done)
}

// Gives back a held box that is stable, in which nothing that was tried is near, and which has this fork. Where the
// budget is spent it stays open.
fn split_box(
    alloc: Global,
    p: &Problem,
    pool: &mut Pool,
    id: u32,
    steps: List<Step>,
    view: BoxView,
    boxes: u64,
    fork: Fork,
) -> Result<Turn, NoMemory>
    requires problem { IsWithin p.now }
    requires held { IsHeld pool.old.rows id }
    requires room { length pool.old.rows + 1024 < 2 ^ 32 }
    requires origin { (o : Origin) × (slice_get pool.old.origins id ≡ Some (Some o)) × LeadsTo p.now o steps view }
    requires within { splits pool.old.rows ≤ boxes }
    requires fork { HasFork p.now view.part.value view.bounds.value view.turn fork }
    requires wide { fork ≢ Least }
    ensures turn { (tol : ℤ) → IsCalm p.now tol (box_of_view view) → Turns p.now tol boxes pool.old pool.new id result }
    ensures keeps { (root : PartBox) → IsPoolOf p.now root pool.old → IsPoolOf p.now root pool.new }
{
    if pool.branched() >= boxes {
        let end = WorkEnd::Left;
        pool.give_back(alloc, p, id, Work { steps, end }, view)?;
        return Ok(Turn::Full);
    }
    let end = WorkEnd::Split(fork);
    pool.give_back(alloc, p, id, Work { steps, end }, view)?;
    Ok(Turn::Done)
}

// Gives back a held box that is stable, and in which nothing that was tried is near.
fn branch_box(
    alloc: Global,
    p: &Problem,
    pool: &mut Pool,
    id: u32,
    steps: List<Step>,
    view: BoxView,
    boxes: u64,
) -> Result<Turn, NoMemory>
    requires problem { IsWithin p.now }
    requires held { IsHeld pool.old.rows id }
    requires room { length pool.old.rows + 1024 < 2 ^ 32 }
    requires origin { (o : Origin) × (slice_get pool.old.origins id ≡ Some (Some o)) × LeadsTo p.now o steps view }
    requires within { splits pool.old.rows ≤ boxes }
    ensures turn { (tol : ℤ) → IsCalm p.now tol (box_of_view view) → Turns p.now tol boxes pool.old pool.new id result }
    ensures keeps { (root : PartBox) → IsPoolOf p.now root pool.old → IsPoolOf p.now root pool.new }
{
    match branch(p, &view.shape, &view.part, &view.bounds, view.turn) {
        Fork::Least => {
            let end = WorkEnd::Left;
            pool.give_back(alloc, p, id, Work { steps, end }, view)?;
            Ok(Turn::Least)
        }
        fork => split_box(alloc, p, pool, id, steps, view, boxes, fork),
    }
}

// Works a held box.
fn work_box(
    alloc: Global,
    p: &Problem,
    pool: &mut Pool,
    tools: &mut Tools,
    id: u32,
    tol: u64,
    boxes: u64,
) -> Result<Turn, NoMemory>
    requires problem { IsWithin p.now }
    requires held { IsHeld pool.old.rows id }
    requires fits { PoolFits p.now pool.old }
    requires stable { AreOfStable p.now pool.old }
    requires origin { (o : Origin) × (slice_get pool.old.origins id ≡ Some (Some o)) }
    requires room { length pool.old.rows + 1024 < 2 ^ 32 }
    requires within { splits pool.old.rows ≤ boxes }
    requires tools { AreTools p.now tools.old }
    requires tol { tol ≤ 10 ^ 16 }
    ensures tools { AreTools p.now tools.new }
    ensures turn { Turns p.now (pos tol) boxes pool.old pool.new id result }
    ensures keeps { (root : PartBox) → IsPoolOf p.now root pool.old → IsPoolOf p.now root pool.new }
{
    let Some(mut view) = pool.look(alloc, p, id)? else {
        return Err(NoMemory);
    };
    let (steps, end) = settled(alloc, p, &mut tools.queue, &mut view)?;
    match end {
        Settled::Shut(closing) => shut_box(alloc, p, pool, id, steps, closing, view, boxes),
        Settled::Stable => match tried(alloc, p, &view, &mut tools.kept, tol)? {
            Some(setting) => Ok(Turn::Carried(setting)),
            None => branch_box(alloc, p, pool, id, steps, view, boxes),
        },
    }
}

// Works the boxes of a pool in order.
fn drain(
    alloc: Global,
    p: &Problem,
    pool: &mut Pool,
    tools: &mut Tools,
    tol: u64,
    boxes: u64,
) -> Result<Outcome, NoMemory>
    requires problem { IsWithin p.now }
    requires searched { (root : PartBox) × IsSearched p.now (pos tol) root boxes pool.old }
    requires room { length pool.old.rows + 1024 * (boxes - splits pool.old.rows) + 1024 < 2 ^ 32 }
    requires tools { AreTools p.now tools.old }
    requires tol { tol ≤ 10 ^ 16 }
    requires fresh { NoneQuit pool.old.rows }
    ensures keeps { (root : PartBox) → IsPoolOf p.now root pool.old → IsPoolOf p.now root pool.new }
    ensures ends { (root : PartBox) → IsSearched p.now (pos tol) root boxes pool.old → Ends p.now (pos tol) root boxes pool.new result }
{
    let mut first = None;
    while let Some(id) = pool.take() {
        match work_box(alloc, p, pool, tools, id, tol, boxes)? {
            Turn::Done => {}
            Turn::Least => first = first.or(Some(id)),
            Turn::Full => return Ok(Outcome::Full(id)),
            Turn::Carried(setting) => return Ok(Outcome::Carried(setting)),
        }
    }
    Ok(Outcome::Dry(first))
}

// The text of a pool, with the line of an open box.
fn halted(alloc: Global, pool: &Pool, why: Why, id: u32) -> Result<Found, NoMemory>
    requires { id < length pool.now.rows }
    ensures { IfOk result (IsHalt pool.now.rows why id) }
{
    Ok(Found::Left {
        why,
        tree: pool.write(alloc)?,
        line: pool.line_of(id),
    })
}

// What is found, by how the boxes of a pool ended.
fn answered(alloc: Global, pool: &Pool, outcome: Outcome) -> Result<Found, NoMemory>
    requires { NamesBox pool.now.rows outcome }
    ensures { IfOk result (IsFound pool.now.rows outcome) }
{
    match outcome {
        Outcome::Carried(setting) => Ok(Found::Carried(setting)),
        Outcome::Full(id) => halted(alloc, pool, Why::Budget, id),
        Outcome::Dry(Some(id)) => halted(alloc, pool, Why::Grid, id),
        Outcome::Dry(None) => Ok(Found::Refuted(pool.write(alloc)?)),
    }
}

/// Works the boxes of a pool in breadth-first order: each is settled; where it stays open its probe is tried, and where
/// that isn't near within the tolerance `tol`, in Pa^2, the box is split by its branch. A setting that is near ends the
/// search. So does the box at which `boxes` boxes have been split. A box that can't be split further stays open for good.
/// Where no box waits any more, and none stays open, the tree of the pool refutes.
///
/// The pool is as `new` or `at` makes it of `p`. The text of an answer is that which `write` then gives of the pool, and
/// the line is `line_of` one of its boxes. After `NoMemory`, too, the pool is still one of the problem and its root: its boxes
/// can be looked at.
pub fn search(
    alloc: Global,
    p: &Problem,
    pool: &mut Pool,
    tol: u64,
    boxes: u64,
) -> Result<Found, NoMemory>
    requires begins { (root : PartBox) × Begins p.now root pool.old }
    requires tol { tol ≤ 10 ^ 16 }
    requires boxes { boxes ≤ 16384 }
    ensures within { IsWithin p.now }
    ensures keeps { (root : PartBox) → Begins p.now root pool.old → IsPoolOf p.now root pool.new }
    ensures answers { (root : PartBox) → Begins p.now root pool.old → IfOk result (Answers p.now (pos tol) root boxes pool.new) }
{
    let size = (p.nodes().len() + p.arcs().len()) as u32;
    let queue = LawQueue::new(alloc, size)?;
    let mut tools = Tools { queue, kept: None };
    let outcome = drain(alloc, p, pool, &mut tools, tol, boxes)?;
    answered(alloc, pool, outcome)
}
