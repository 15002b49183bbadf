ghost use Rattle.std.specs.Prelude.{◌≡◌, ◌≢◌, ℕ, ◌+◌, ◌*◌, ◌<◌, ◌≤◌, ◌^◌, ◌∷◌, [], ◌++◌, true, false, length, OnOk, OnErr, IfOk, IfSome, IfNone, Some, slice_get};
ghost use Rattle.tree_pool.specs.Rows.{Row, Waiting, Held, Splits, NotSplit, update, stand, fill, after, first_row, splits, IsFirstWaiting, NoneWaits, IsMap};
ghost use Rattle.tree_pool.specs.Nodes.{rows_of, standing_of, branch_of, is_waiting, IsFirstBelow, AreInOrder};
ghost use Rattle.tree_pool.specs.declared.node.Node.{Node as ANode};
ghost use Rattle.tree_pool.specs.Calls.{IsHeld, IfRow, HasOrderedCut, HasOrderedEnd, HasRoom, given_rows, fresh_nodes, root_node, NodesPass, LastBefore};
ghost use Rattle.tree_pool.specs.Laws.{ShowOneTree, IsWholeWhereNoneOpen};
ghost use Rattle.tree_pool.specs.Lines.{IsLineOf};
ghost use Rattle.tree_pool.specs.Shown.{works, Shows};
ghost use Rattle.tree_cert.specs.Tree.{Tree, tree_lines};
ghost use Rattle.tree_cert.specs.Spelling.{has_ordered_cut, AreLines};

use crate::lineage::Lineage;
use crate::node::{
    BranchBy, Node, Standing, Work, WorkEnd, count_children, fill_node, set_standing, waits,
};
use crate::walk::{count_lines, next_box, put_boxes};
use base_types::{Bytes, List, NoMemory};
use std::alloc::Global;
use std::cmp::Ordering;
use std::marker::Model;
use tree_cert::{Head, Line, Step, write_line};

/// A pool of the boxes of a tree, each with a number. Contracts see the list of its boxes by number, each with its path,
/// which is the list of child numbers from the box up to the root; the root has number 0.
#[derive(Drop)]
pub struct TreePool {
    places: Lineage,
    nodes: Vec<Node>,
    /// No box below it waits.
    from: usize,
    /// The numbers ascend in breadth-first order.
    in_order: bool,
    branched: u64,
    /// The text has no more lines.
    lines: u64,
}

impl Model for TreePool {
    ghost use Rattle.std.specs.Prelude.{List as ListOf};
    ghost use Rattle.tree_pool.specs.Rows.{Row};

    ghost Value = { ListOf Row };

    ghost use Rattle.tree_pool.specs.Nodes.{rows_of, IsPool};

    ghost view = { λ p. rows_of p.places p.nodes.items };

    ghost invariant = { λ p. IsPool p.places p.nodes.items p.from p.in_order p.branched p.lines };
}

fn lesser(a: usize, b: usize) -> usize
    ensures left { result ≤ a }
    ensures right { result ≤ b }
{
    if a < b { a } else { b }
}

/// The number of the first node from this one on that waits, or the count of nodes.
fn next_waiting(nodes: &[Node], from: usize) -> usize
    requires { from ≤ length nodes.now }
    ensures within { (from ≤ result) × (result ≤ length nodes.now) }
    ensures passed { NodesPass nodes.now from result }
    ensures waits { (x : ANode) → slice_get nodes.now result ≡ Some x → is_waiting (standing_of x.standing) ≡ true }
{
    for i in from..nodes.len() {
        let node = &nodes[i];
        if waits(&node.standing) {
            return i;
        }
    }
    nodes.len()
}

/// The first waiting node up to node i, which `best` is up to the one before.
fn better(places: &Lineage, nodes: &[Node], best: usize, i: usize) -> usize
    requires sized { length places.now ≡ length nodes.now }
    requires within { i < length nodes.now }
    requires small { length nodes.now < 2 ^ 32 }
    requires apart { IsMap (rows_of places.now nodes.now) }
    requires before { IsFirstBelow (rows_of places.now nodes.now) i best }
    requires inside { best < length nodes.now }
    ensures first { IsFirstBelow (rows_of places.now nodes.now) (i + 1) result }
    ensures inside { result < length nodes.now }
{
    let node = &nodes[i];
    if !waits(&node.standing) {
        return best;
    }
    match places.compare(i as u32, best as u32) {
        Ordering::Less => i,
        _ => best,
    }
}

/// The number of the first waiting node in breadth-first order, where this one waits and none before it.
fn earliest(places: &Lineage, nodes: &[Node], in_order: bool, from: usize) -> usize
    requires sized { length places.now ≡ length nodes.now }
    requires small { length nodes.now < 2 ^ 32 }
    requires apart { IsMap (rows_of places.now nodes.now) }
    requires before { IsFirstBelow (rows_of places.now nodes.now) (from + 1) from }
    requires within { from < length nodes.now }
    requires ordered { in_order ≡ true → AreInOrder (rows_of places.now nodes.now) }
    ensures first { IsFirstBelow (rows_of places.now nodes.now) (length nodes.now) result }
    ensures inside { result < length nodes.now }
{
    if in_order {
        return from;
    }
    let mut best = from;
    for i in from + 1..nodes.len() {
        best = better(places, nodes, best, i);
    }
    best
}

/// Whether numbers still ascend in breadth-first order once a node, of so many, has children: the last node is the root, or
/// stands below a node before this one.
fn stays_in_order(in_order: bool, places: &Lineage, count: u32, id: u32) -> bool
    requires count { count ≡ length places.now }
    requires within { id < length places.now }
    ensures { result ≡ true → (in_order ≡ true) × LastBefore places.now id }
{
    if !in_order {
        return false;
    }
    let last = count - 1;
    if last == 0 {
        return true;
    }
    places.at(last).parent < id
}

/// The nodes of children with these heads.
fn child_nodes(alloc: Global, heads: &[Head]) -> Result<Vec<Node>, NoMemory>
    ensures { IfOk result (λ ns. ns.items ≡ fresh_nodes heads.now) }
{
    let mut nodes = Vec::new(alloc);
    for head in heads {
        nodes.push(Node {
            head: Some(*head),
            steps: List::new(alloc),
            standing: Standing::Waiting,
        })?;
    }
    Ok(nodes)
}

/// The root's node.
fn root_nodes(alloc: Global) -> Result<Vec<Node>, NoMemory>
    ensures { IfOk result (λ ns. ns.items ≡ root_node ∷ []) }
{
    let mut nodes = Vec::new(alloc);
    nodes.push(Node {
        head: None,
        steps: List::new(alloc),
        standing: Standing::Waiting,
    })?;
    Ok(nodes)
}

/// Puts nodes at the end.
fn append_nodes(nodes: &mut Vec<Node>, mut fresh: Vec<Node>) -> Result<(), NoMemory>
    ensures ok { OnOk result (nodes.new.items ≡ nodes.old.items ++ fresh.items) }
    ensures err { OnErr result (nodes.new.items ≡ nodes.old.items) }
{
    match nodes.append(&mut fresh) {
        Ok(()) => Ok(()),
        Err(_) => Err(NoMemory),
    }
}

/// The count of lines with that of the steps of a box, and two for each of its children. Where it is too large no memory
/// would hold the lines.
fn more_lines(lines: u64, steps: usize, children: u32) -> Result<u64, NoMemory>
    ensures sum { IfOk result (λ n. n ≡ lines + steps + 2 * children) }
    ensures fits { IfOk result (λ n. n < 2 ^ 64) }
{
    let Some(own) = lines.checked_add(steps as u64) else {
        return Err(NoMemory);
    };
    let Some(all) = own.checked_add(2 * u64::from(children)) else {
        return Err(NoMemory);
    };
    Ok(all)
}

impl TreePool {
    /// A pool of the root's box alone, waiting.
    pub fn new(alloc: Global) -> Result<TreePool, NoMemory>
        ensures { IfOk result (λ pool. pool ≡ first_row ∷ []) }
    {
        let places = Lineage::new(alloc)?;
        let nodes = root_nodes(alloc)?;
        let pool = TreePool {
            places,
            nodes,
            from: 0,
            in_order: true,
            branched: 0,
            lines: 3,
        };
        Ok(pool)
    }

    /// Holds the first waiting box in breadth-first order, and answers its number. `None` comes exactly where none waits.
    pub fn take(&mut self) -> Option<u32>
        ensures none { IfNone result (NoneWaits self.old × (self.new ≡ self.old)) }
        ensures some { IfSome result (λ n. IsFirstWaiting self.old n × (self.new ≡ update self.old n (stand Held))) }
    {
        let nodes = self.nodes.as_slice();
        let from = next_waiting(nodes, self.from);
        let count = nodes.len();
        if from == count {
            self.from = from;
            return None;
        }
        let n = earliest(&self.places, nodes, self.in_order, from);
        self.from = from;
        set_standing(&mut self.nodes[n], Standing::Held);
        Some(n as u32)
    }

    /// Makes a held box wait again at its old place. It takes no memory.
    pub fn lose(&mut self, id: u32)
        requires { IsHeld self.old id }
        ensures { self.new ≡ update self.old id (stand Waiting) }
    {
        self.from = lesser(self.from, id as usize);
        set_standing(&mut self.nodes[id as usize], Standing::Waiting);
    }

    /// How many boxes were split.
    pub fn branched(&self) -> u64
        ensures { result ≡ splits self.now }
    {
        self.branched
    }

    /// The depth of a box.
    pub fn depth_of(&self, id: u32) -> u32
        requires { id < length self.now }
        ensures { IfRow self.now id (λ r. result ≡ length r.path) }
    {
        self.places.depth(id)
    }

    /// Puts work that splits nothing into a held box.
    fn end(&mut self, id: u32, steps: List<Step>, standing: Standing) -> Result<(), NoMemory>
        requires held { IsHeld self.old id }
        requires whole { NotSplit (standing_of standing) }
        requires worked { is_waiting (standing_of standing) ≡ false }
        requires ordered { HasOrderedCut (standing_of standing) }
        ensures ok { OnOk result (self.new ≡ update self.old id (fill steps (standing_of standing))) }
        ensures err { OnErr result (self.new ≡ self.old) }
    {
        let lines = more_lines(self.lines, steps.as_slice().len(), 0)?;
        fill_node(&mut self.nodes[id as usize], steps, standing);
        self.lines = lines;
        Ok(())
    }

    /// Splits a held box.
    fn split(
        &mut self,
        alloc: Global,
        id: u32,
        steps: List<Step>,
        by: BranchBy,
        heads: List<Head>,
    ) -> Result<(), NoMemory>
        requires held { IsHeld self.old id }
        requires room { length self.old + length heads < 2 ^ 32 }
        ensures ok { OnOk result (IfRow self.old id (λ r. self.new ≡ after self.old id r.path (fill steps (Splits (branch_of by) (length self.old) (length heads))) heads)) }
        ensures err { OnErr result (self.new ≡ self.old) }
    {
        let first = self.nodes.len() as u32;
        let count = heads.as_slice().len() as u32;
        let lines = more_lines(self.lines, steps.as_slice().len(), count)?;
        let fresh = child_nodes(alloc, heads.as_slice())?;
        let in_order = stays_in_order(self.in_order, &self.places, first, id);
        append_nodes(&mut self.nodes, fresh)?;
        match self.places.add_children(alloc, id, count) {
            Err(NoMemory) => {
                self.nodes.truncate(first as usize);
                Err(NoMemory)
            }
            Ok(()) => {
                let standing = Standing::Split { by, first, count };
                fill_node(&mut self.nodes[id as usize], steps, standing);
                self.in_order = in_order;
                self.branched += 1;
                self.lines = lines;
                Ok(())
            }
        }
    }

    /// Puts work into a held box: its steps, and its end, so that it is shut, left open for good, or split. The children of a
    /// split box get the next unused numbers in order, and wait. All boxes have numbers below 2^32. The nodes of a cut ascend
    /// strictly, and are at least one. After want of memory the box is still held, and the work is lost.
    pub fn give_back(&mut self, alloc: Global, id: u32, work: Work) -> Result<(), NoMemory>
        requires held { IsHeld self.old id }
        requires ordered { HasOrderedEnd work.end }
        requires room { HasRoom self.old work.end }
        ensures ok { OnOk result (IfRow self.old id (λ r. self.new ≡ given_rows self.old id r.path work.steps work.end)) }
        ensures err { OnErr result (self.new ≡ self.old) }
    {
        let Work { steps, end } = work;
        match end {
            WorkEnd::Shut(closing) => self.end(id, steps, Standing::Shut(closing)),
            WorkEnd::Split { by, heads } => self.split(alloc, id, steps, by, heads),
            WorkEnd::Left => self.end(id, steps, Standing::Quit),
        }
    }

    /// The text of the tree that the pool shows, below this first line. A box that waits, is held or was left ends in an open
    /// end.
    pub fn write(&self, alloc: Global, first: &Line) -> Result<Bytes, NoMemory>
        requires { has_ordered_cut first.now ≡ true }
        ensures { IfOk result (λ bytes. (t : Tree) → Shows (works self.now) [] t → AreLines bytes (tree_lines first.now t)) }
    {
        let mut out = Bytes::new(alloc);
        write_line(first, &mut out)?;
        put_boxes(alloc, &self.places, self.nodes.as_slice(), &mut out)?;
        write_line(&Line::End, &mut out)?;
        Ok(out)
    }

    /// The number of the line that ends a box, in the text that `write` gives.
    pub fn line_of(&self, id: u32) -> u64
        requires { id < length self.now }
        ensures { (t : Tree) → Shows (works self.now) [] t → IsLineOf self.now id result t }
    {
        let nodes = self.nodes.as_slice();
        let all = count_lines(&self.places, nodes, Some(0));
        let next = next_box(&self.places, nodes, id);
        let below = count_lines(&self.places, nodes, next);
        all - below + 1
    }

    /// The boxes of a pool are a map from paths, which shows one tree, whole exactly where no box waits, is held or was left.
    pub fn shows_one_tree(&self)
        ensures map { IsMap self.now }
        ensures small { length self.now < 2 ^ 32 }
        ensures one { ShowOneTree self.now }
        ensures whole { IsWholeWhereNoneOpen self.now }
    {
        let _count = self.branched;
    }
}
