// The pool of the boxes of a problem.
ghost use Rattle.std.specs.Prelude.{◌≡◌, ℕ, ◌+◌, ◌<◌, ◌^◌, [], ◌∷◌, ◌++◌, Some, None, length, slice_set, IfOk, IfSome, IfNone, OnOk, OnErr};
ghost use Rattle.gas_model.specs.Rows.{Network};
ghost use Rattle.gas_model.specs.Within.{IsWithin};
ghost use Rattle.gas_model.specs.Boxes.{BoxFits, opening};
ghost use Rattle.gas_model.specs.Choices.{PartFits, fresh_part};
ghost use Rattle.tree_cert.specs.Tree.{Tree, tree_lines};
ghost use Rattle.tree_cert.specs.Spelling.{AreLines};
ghost use Rattle.tree_rules.specs.Rules.{PartBox};
ghost use Rattle.tree_rules.specs.Branches.{root_box};
ghost use Rattle.box_pool.specs.Grid.{pool_scale, pool_line};
ghost use Rattle.tree_pool.specs.Rows.{Waiting, Held, update, stand, splits, IsFirstWaiting, NoneWaits, IsMap};
ghost use Rattle.tree_pool.specs.Calls.{IfRow, IsHeld, HasOrderedEnd, HasRoom, given_rows};
ghost use Rattle.tree_pool.specs.Shown.{works, Shows};
ghost use Rattle.tree_pool.specs.Lines.{IsLineOf};
ghost use Rattle.tree_pool.specs.Laws.{ShowOneTree, IsWholeWhereNoneOpen};
ghost use Rattle.box_pool.specs.Forks.{AreChildren};
ghost use Rattle.box_pool.specs.Origins.{origins_of, origin_by, child_origins};
ghost use Rattle.box_pool.specs.Pools.{Boxed, end_as, IsNew, PoolFits, Looks, ViewFits, CanEnd, IsGiven, SplitsNone, base_of};
ghost use Rattle.box_pool.specs.PoolOf.{IsPoolOf, root_at, IsWorkOn};
ghost use Rattle.tree_pool.specs.declared.node.WorkEnd.TheVariants as tree_ends;
ghost use Rattle.box_split.specs.declared.forks.Fork.{Fork as AFork};

use crate::forks::{Children, children_of};
use crate::grid::{PoolGrid, first_line};
use crate::open_box::{BoxView, OpenBox, ParentBox, shared, spots};
use box_core::VarBox;
use box_split::Fork;
use gas_model::{Bytes, List, NoMemory, PartState, Problem};
use std::alloc::Global;
use std::marker::Model;
use topo::Shape;
use tree_cert::{Closing, Step};
use tree_pool::BranchBy;

/// How work on a box ends: a closing holds; the box is split by its fork; or it stays open for good.
#[derive(Drop)]
pub enum WorkEnd {
    Shut(Closing),
    Split(Fork),
    Left,
}

/// Work on a box: its steps in order, and how it ends.
#[derive(Drop)]
pub struct Work {
    pub steps: List<Step>,
    pub end: WorkEnd,
}

/// The boxes of a problem by number, with the one refutation tree that they show. Those that wait or are held can be
/// looked at; of the others only what is written is kept.
#[derive(Drop)]
pub struct Pool {
    tree: tree_pool::TreePool,
    spots: Vec<Option<OpenBox>>,
}

impl Model for Pool {
    ghost use Rattle.std.specs.Prelude.{◌≡◌, length};
    ghost use Rattle.box_pool.specs.Origins.{origins_of};
    ghost use Rattle.box_pool.specs.Pools.{Boxed};

    ghost Value = { Boxed };

    ghost view = { λ p. record { rows = p.tree; origins = origins_of p.spots.items } };

    ghost invariant = { λ p. length p.spots.items ≡ length p.tree };
}

// What the children have in common of a box that work left. The halves have its shape too.
fn base_of(left: BoxView, by: BranchBy, next: u32) -> ParentBox
    ensures { result ≡ base_of left by next }
{
    let BoxView {
        part,
        shape,
        bounds,
        turn: _,
        head: _,
    } = left;
    let shape = match by {
        BranchBy::Halves(_) => Some(shape),
        BranchBy::Group(_) | BranchBy::Arc(_) => None,
    };
    ParentBox {
        part,
        shape,
        bounds,
        next,
    }
}

// One waiting box.
fn one_spot(alloc: Global, base: ParentBox) -> Result<Vec<Option<OpenBox>>, NoMemory>
    ensures { IfOk result (λ all. origins_of all.items ≡ Some (origin_by base None) ∷ []) }
{
    let mut spots = Vec::new(alloc);
    spots.push(Some(OpenBox {
        base: shared(alloc, base)?,
        head: None,
    }))?;
    Ok(spots)
}

impl Pool {
    /// A pool of the root box alone, waiting: nothing is picked, no state is named, and all variables have their bounds.
    pub fn new(alloc: Global, p: &Problem) -> Result<Pool, NoMemory>
        ensures new { IfOk result (IsNew p.now (fresh_part p.now) (opening pool_scale p.now)) }
        ensures keeps { IfOk result (IsPoolOf p.now (root_box pool_scale p.now)) }
    {
        Pool::at(alloc, p, p.fresh()?, VarBox::opening(alloc, p)?)
    }

    // A pool of one box alone, waiting, with the turn 0.
    fn of_one_box(
        alloc: Global,
        p: &Problem,
        part: PartState,
        bounds: VarBox<PoolGrid>,
    ) -> Result<Pool, NoMemory>
        requires part { PartFits p.now part }
        ensures { IfOk result (IsNew p.now part bounds) }
    {
        let shape = Shape::of(alloc, p, &part)?;
        let base = ParentBox {
            part: shared(alloc, part)?,
            shape: Some(shared(alloc, shape)?),
            bounds: shared(alloc, bounds)?,
            next: 0,
        };
        Ok(Pool {
            tree: tree_pool::TreePool::new(alloc)?,
            spots: one_spot(alloc, base)?,
        })
    }

    /// A pool of one box alone, waiting, with the turn 0.
    pub fn at(
        alloc: Global,
        p: &Problem,
        part: PartState,
        bounds: VarBox<PoolGrid>,
    ) -> Result<Pool, NoMemory>
        requires part { PartFits p.now part }
        ensures new { IfOk result (IsNew p.now part bounds) }
        ensures keeps { BoxFits p.now bounds → IfOk result (IsPoolOf p.now (root_at part bounds)) }
    {
        Pool::of_one_box(alloc, p, part, bounds)
    }

    /// Holds the first waiting box in breadth-first order, and answers its number. `None` comes exactly where none waits.
    pub fn take(&mut self) -> Option<u32>
        ensures none { IfNone result (NoneWaits self.old.rows × (self.new.rows ≡ self.old.rows)) }
        ensures some { IfSome result (λ n. IsFirstWaiting self.old.rows n × (self.new.rows ≡ update self.old.rows n (stand Held))) }
        ensures origins { self.new.origins ≡ self.old.origins }
        ensures keeps { (p : Network) (root : PartBox) → IsPoolOf p root self.old → IsPoolOf p root self.new }
    {
        self.tree.take()
    }

    /// Makes a held box wait again at its old place. It takes no memory.
    pub fn lose(&mut self, id: u32)
        requires { IsHeld self.old.rows id }
        ensures rows { self.new.rows ≡ update self.old.rows id (stand Waiting) }
        ensures origins { self.new.origins ≡ self.old.origins }
        ensures keeps { (p : Network) (root : PartBox) → IsPoolOf p root self.old → IsPoolOf p root self.new }
    {
        self.tree.lose(id);
    }

    /// How many boxes were split.
    pub fn branched(&self) -> u64
        ensures { result ≡ splits self.now.rows }
    {
        self.tree.branched()
    }

    /// The depth of a box.
    pub fn depth_of(&self, id: u32) -> u32
        requires { id < length self.now.rows }
        ensures { IfRow self.now.rows id (λ r. result ≡ length r.path) }
    {
        self.tree.depth_of(id)
    }

    /// The text of the one tree that the pool shows. A box that waits, is held or was left ends in `open`.
    pub fn write(&self, alloc: Global) -> Result<Bytes, NoMemory>
        ensures text { IfOk result (λ bytes. (t : Tree) → Shows (works self.now.rows) [] t → AreLines bytes (tree_lines pool_line t)) }
        ensures shown { IfOk result (λ bytes. (t : Tree) × Shows (works self.now.rows) [] t × AreLines bytes (tree_lines pool_line t)) }
    {
        self.tree.shows_one_tree();
        self.tree.write(alloc, &first_line())
    }

    /// The number of the line that ends a box, in the text that `write` gives.
    pub fn line_of(&self, id: u32) -> u64
        requires { id < length self.now.rows }
        ensures { (t : Tree) → Shows (works self.now.rows) [] t → IsLineOf self.now.rows id result t }
    {
        self.tree.line_of(id)
    }

    /// A box that waits or is held, with its part state, its ends, its turn and its head; `None` for one that was worked.
    pub fn look(&self, alloc: Global, p: &Problem, id: u32) -> Result<Option<BoxView>, NoMemory>
        requires id { id < length self.now.rows }
        requires fits { PoolFits p.now self.now }
        ensures { IfOk result (Looks p.now self.now id) }
    {
        match &self.spots[id as usize] {
            None => Ok(None),
            Some(spot) => Ok(Some(spot.view(alloc, p)?)),
        }
    }

    // Gives a box back that isn't split.
    fn end(&mut self, alloc: Global, id: u32, work: tree_pool::Work) -> Result<(), NoMemory>
        requires held { IsHeld self.old.rows id }
        requires ordered { HasOrderedEnd work.end }
        requires room { HasRoom self.old.rows work.end }
        requires whole { SplitsNone work.end }
        ensures rows { OnOk result (IfRow self.old.rows id (λ r. self.new.rows ≡ given_rows self.old.rows id r.path work.steps work.end)) }
        ensures origins { OnOk result (self.new.origins ≡ slice_set self.old.origins id None) }
        ensures err { OnErr result (self.new ≡ self.old) }
    {
        self.tree.give_back(alloc, id, work)?;
        self.spots[id as usize] = None;
        Ok(())
    }

    // Splits a held box, of which the view is left.
    fn split(
        &mut self,
        alloc: Global,
        id: u32,
        steps: List<Step>,
        children: Children,
        left: BoxView,
    ) -> Result<(), NoMemory>
        requires held { IsHeld self.old.rows id }
        requires room { length self.old.rows + length children.heads < 2 ^ 32 }
        ensures rows { OnOk result (IfRow self.old.rows id (λ r. self.new.rows ≡ given_rows self.old.rows id r.path steps (tree_ends.Split children.by children.heads))) }
        ensures origins { OnOk result (self.new.origins ≡ slice_set self.old.origins id None ++ child_origins (base_of left children.by children.next) children.heads) }
        ensures err { OnErr result (self.new ≡ self.old) }
    {
        let Children { by, heads, next } = children;
        let base = base_of(left, by, next);
        let mut fresh = spots(alloc, base, heads.as_slice())?;
        let count = self.spots.len();
        self.spots.append(&mut fresh)?;
        let end = tree_pool::WorkEnd::Split { by, heads };
        match self
            .tree
            .give_back(alloc, id, tree_pool::Work { steps, end })
        {
            Err(NoMemory) => {
                self.spots.truncate(count);
                Err(NoMemory)
            }
            Ok(()) => {
                self.spots[id as usize] = None;
                Ok(())
            }
        }
    }

    // Puts work into a held box.
    fn put_work(
        &mut self,
        alloc: Global,
        p: &Problem,
        id: u32,
        work: Work,
        left: BoxView,
    ) -> Result<(), NoMemory>
        requires held { IsHeld self.old.rows id }
        requires ordered { HasOrderedEnd (end_as p.now left.part.value work.end) }
        requires room { HasRoom self.old.rows (end_as p.now left.part.value work.end) }
        requires end { CanEnd p.now left work.end }
        ensures ok { OnOk result (IsGiven p.now self.old self.new id work.steps work.end left) }
        ensures err { OnErr result (self.new ≡ self.old) }
    {
        let Work { steps, end } = work;
        match end {
            WorkEnd::Shut(closing) => {
                let end = tree_pool::WorkEnd::Shut(closing);
                self.end(alloc, id, tree_pool::Work { steps, end })
            }
            WorkEnd::Split(fork) => match children_of(alloc, p, &left.part, fork)? {
                Some(children) => self.split(alloc, id, steps, children, left),
                None => Ok(()),
            },
            WorkEnd::Left => {
                let end = tree_pool::WorkEnd::Left;
                self.end(alloc, id, tree_pool::Work { steps, end })
            }
        }
    }

    /// Gives a held box back: its steps, its end, and what they leave of its view. The children of a split box get the next
    /// unused numbers in order, and wait. All boxes have numbers below 2^32. The nodes of a cut ascend strictly, and are at
    /// least one; a split is by the fork of the box that is left, which isn't `Least`. Where the steps lead from that box to
    /// the one that is left, with the same turn, and a closing holds there, the pool stays one of its problem and root. After
    /// want of memory the box is still held, and the work is lost.
    pub fn give_back(
        &mut self,
        alloc: Global,
        p: &Problem,
        id: u32,
        work: Work,
        left: BoxView,
    ) -> Result<(), NoMemory>
        requires held { IsHeld self.old.rows id }
        requires ordered { HasOrderedEnd (end_as p.now left.part.value work.end) }
        requires room { HasRoom self.old.rows (end_as p.now left.part.value work.end) }
        requires end { CanEnd p.now left work.end }
        ensures ok { OnOk result (IsGiven p.now self.old self.new id work.steps work.end left) }
        ensures err { OnErr result (self.new ≡ self.old) }
        ensures keeps { (root : PartBox) → IsWithin p.now → IsPoolOf p.now root self.old → IsWorkOn p.now self.old id work.steps work.end left → IsPoolOf p.now root self.new }
    {
        self.put_work(alloc, p, id, work, left)
    }

    /// The boxes of a pool are a map from paths, which shows one tree, whole exactly where no box waits, is held or was left.
    pub fn shows_one_tree(&self)
        ensures map { IsMap self.now.rows }
        ensures small { length self.now.rows < 2 ^ 32 }
        ensures one { ShowOneTree self.now.rows }
        ensures whole { IsWholeWhereNoneOpen self.now.rows }
    {
        self.tree.shows_one_tree();
    }
}
