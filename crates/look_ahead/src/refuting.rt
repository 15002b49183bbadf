// The tree, depth first.
ghost use Rattle.std.specs.Prelude.{◌≡◌, ◌+◌, length, IfOk, IfSome};
ghost use Rattle.tree_cert.specs.Texts.{PassesWholeText};
ghost use Rattle.tree_rules.specs.Branches.{rules_of};
ghost use Rattle.look_ahead.specs.Views.{IsReady, IsStableView};
ghost use Rattle.look_ahead.specs.Ends.{Leaves};

use crate::children::child_of;
use crate::forks::fork_of;
use crate::settling::settled;
use crate::tools::Tools;
use base_types::shared;
use box_core::VarBox;
use box_pool::{BoxView, Children, children_of};
use gas_model::{Bytes, NoMemory, Problem};
use stable_sweep::Settled;
use std::alloc::Global;
use topo::Shape;
use tree_cert::Line;
use tree_check::{Verdict, check_tree};

// No more boxes are split than this.
const MOST_SPLITS: u64 = 1_024;

// No box lies deeper than this.
const DEEPEST: u32 = 1_024;

// How work on a box ends: a closing holds; it is split into these children; or there is no fork, or no budget.
#[derive(Drop)]
pub enum End {
    Shut,
    Split(Children),
    Stuck,
}

// Splits a stable box, and writes by what.
fn split(alloc: Global, p: &Problem, view: &BoxView, tools: &mut Tools) -> Result<End, NoMemory>
    requires view { IsStableView p.now view.now }
    requires size { tools.old.queue.size ≡ length p.now.nodes + length p.now.arcs }
    ensures size { tools.new.queue.size ≡ tools.old.queue.size }
    ensures end { IfOk result (Leaves p.now view.now) }
{
    if !tools.take_split() {
        return Ok(End::Stuck);
    }
    let fork = fork_of(alloc, p, view, tools)?;
    match children_of(alloc, p, &view.part, fork)? {
        Some(children) => {
            tools.write_branch(children.by)?;
            Ok(End::Split(children))
        }
        None => Ok(End::Stuck),
    }
}

// Settles a box, splits it where it stays open, and writes the steps and how it ends.
#[tactic(auto, using(crate::proofs::Closings::ordered_closing))]
fn work(alloc: Global, p: &Problem, view: &mut BoxView, tools: &mut Tools) -> Result<End, NoMemory>
    requires ready { IsReady p.now view.old }
    requires size { tools.old.queue.size ≡ length p.now.nodes + length p.now.arcs }
    ensures size { tools.new.queue.size ≡ tools.old.queue.size }
    ensures end { IfOk result (Leaves p.now view.new) }
{
    let (steps, end) = settled(alloc, p, &mut tools.queue, view)?;
    tools.write_steps(steps.as_slice())?;
    match end {
        Settled::Shut(closing) => {
            tools.write_closing(closing)?;
            Ok(End::Shut)
        }
        Settled::Stable => split(alloc, p, view, tools),
    }
}

// Writes the tree of a box; `false` where a box is left open.
fn refute(
    alloc: Global,
    p: &Problem,
    view: BoxView,
    depth: u32,
    tools: &mut Tools,
) -> Result<bool, NoMemory>
    requires ready { IsReady p.now view }
    requires size { tools.old.queue.size ≡ length p.now.nodes + length p.now.arcs }
    ensures { tools.new.queue.size ≡ tools.old.queue.size }
{
    if depth == 0 {
        return Ok(false);
    }
    let mut view = view;
    let children = match work(alloc, p, &mut view, tools)? {
        End::Shut => return Ok(true),
        End::Stuck => return Ok(false),
        End::Split(children) => children,
    };
    for head in children.heads.as_slice() {
        let child = child_of(alloc, p, &view, *head, children.next)?;
        tools.write(&Line::Head(*head))?;
        if !refute(alloc, p, child, depth - 1, tools)? {
            return Ok(false);
        }
    }
    Ok(true)
}

// The box of the whole problem.
fn root(alloc: Global, p: &Problem) -> Result<BoxView, NoMemory>
    ensures { IfOk result (IsReady p.now) }
{
    let part = p.fresh()?;
    let shape = Shape::of(alloc, p, &part)?;
    Ok(BoxView {
        part: shared(alloc, part)?,
        shape: shared(alloc, shape)?,
        bounds: shared(alloc, VarBox::opening(alloc, p)?)?,
        turn: 0,
        head: None,
    })
}

// The text, where the checker passes it whole.
fn checked(alloc: Global, p: &Problem, text: Bytes) -> Result<Option<Bytes>, NoMemory>
    ensures { IfOk result (λ o. IfSome o (PassesWholeText (rules_of p.now))) }
{
    match check_tree(alloc, p, text.as_slice()) {
        Ok(Verdict::Refutes) => Ok(Some(text)),
        _ => Ok(None),
    }
}

/// The text of a tree that refutes a problem, where one is found by at most `boxes` splits, and never more than 1,024:
/// the checker passes it whole. The tree goes depth first. A box that is settled and stays open is split by that group of
/// decisions that isn't picked, or that free arc, whose children stay open least once they are settled for trial; after
/// the choices, by its branch. It gives up where a box is left that can't be split, or where the budget is spent; no answer
/// says nothing.
pub fn look_ahead(alloc: Global, p: &Problem, boxes: u64) -> Result<Option<Bytes>, NoMemory>
    ensures { IfOk result (λ o. IfSome o (PassesWholeText (rules_of p.now))) }
{
    let mut tools = Tools::new(alloc, p, boxes.min(MOST_SPLITS))?;
    let root = root(alloc, p)?;
    if !refute(alloc, p, root, DEEPEST, &mut tools)? {
        return Ok(None);
    }
    tools.write(&Line::End)?;
    let Tools { text, .. } = tools;
    checked(alloc, p, text)
}
