// The boxes of a pool in the order of the text, without a stack: down to the first child, else on to the next box.
ghost use Rattle.std.specs.Prelude.{◌≡◌, ◌+◌, ◌<◌, ◌≤◌, ◌^◌, List as ListOf, [], ◌∷◌, ◌++◌, true, false, length, OnOk, IfOk, IfSome, Some, slice_get};
ghost use Rattle.tree_cert.specs.declared.line.Line.{Line as ALine};
ghost use Rattle.tree_cert.specs.declared.line.Line.TheVariants as lines;
ghost use Rattle.tree_pool.specs.Shown.{end_of};
ghost use Rattle.tree_pool.specs.Lines.{Pending, Writes, all_lines, own_lines, head_lines, end_line};
ghost use Rattle.tree_pool.specs.Nodes.{rows_of, row_of, standing_of, branch_of, children_count, AreRows, FirstIs, node_size};
ghost use Rattle.tree_cert.specs.TreeRules.{Holds};
ghost use Rattle.tree_pool.specs.Calls.{HasOrderedCut};
ghost use Rattle.tree_pool.specs.Walks.{IsAfter, IsNext};
ghost use Rattle.std.specs.List.{flat_map, list_all};
ghost use Rattle.tree_cert.specs.Tree.{branch_line};
ghost use Rattle.tree_cert.specs.Spelling.{spelling, is_spelled};

use crate::lineage::Lineage;
use crate::node::{BranchBy, Node, Standing, count_children};
use base_types::{Bytes, List, NoMemory};
use std::alloc::Global;
use tree_cert::{Closing, Head, Line, Step, write_line};

/// The number of the first child, where there is one.
fn first_child(standing: &Standing) -> Option<u32>
    ensures { FirstIs (standing_of standing.now) result }
{
    match standing {
        Standing::Split { first, count, .. } => { if *count > 0 { Some(*first) } else { None } }
        _ => None,
    }
}

/// How many children a node has.
fn count_at(nodes: &[Node], n: u32) -> u32
    requires { n < length nodes.now }
    ensures { Holds (slice_get nodes.now n) (λ x. result ≡ children_count (standing_of x.standing)) }
{
    let node = &nodes[n as usize];
    count_children(&node.standing)
}

/// Whether of so many children there are any after this one.
fn has_later(nth: u32, count: u32) -> bool
    ensures some { result ≡ true → nth + 1 < count }
    ensures none { result ≡ false → count ≤ nth + 1 }
{
    u64::from(nth) + 1 < u64::from(count)
}

/// The box after one and all that is below it.
fn after_box(places: &Lineage, nodes: &[Node], n: u32) -> Option<u32>
    requires rows { AreRows places.now nodes.now }
    requires within { n < length nodes.now }
    ensures { IsAfter places.now nodes.now n result }
{
    let mut n = n;
    while n != 0 {
        let place = places.at(n);
        let count = count_at(nodes, place.parent);
        if has_later(place.nth, count) {
            let next = n + 1;
            return Some(next);
        }
        n = place.parent;
    }
    None
}

/// The next box.
pub fn next_box(places: &Lineage, nodes: &[Node], n: u32) -> Option<u32>
    requires rows { AreRows places.now nodes.now }
    requires within { n < length nodes.now }
    ensures { IsNext places.now nodes.now n result }
{
    let node = &nodes[n as usize];
    match first_child(&node.standing) {
        Some(first) => Some(first),
        None => after_box(places, nodes, n),
    }
}

/// How many lines a box has of its own.
fn count_own(node: &Node) -> u64
    requires { node_size node.now < 2 ^ 64 }
    ensures { result ≡ node_size node.now }
{
    let head = if node.head.is_some() { 1 } else { 0 };
    node.steps.as_slice().len() as u64 + 1 + head
}

/// How many lines the text of the boxes has from this one on.
pub fn count_lines(places: &Lineage, nodes: &[Node], next: Option<u32>) -> u64
    requires rows { AreRows places.now nodes.now }
    requires within { IfSome next (λ n. n < length nodes.now) }
    requires few { all_lines (rows_of places.now nodes.now) < 2 ^ 64 }
    ensures number { (ls : ListOf ALine) → Pending (rows_of places.now nodes.now) next ls → result ≡ length ls }
    ensures few { result ≤ all_lines (rows_of places.now nodes.now) }
{
    let mut next = next;
    let mut count = 0;
    'boxes: while let Some(n) = next {
        let node = &nodes[n as usize];
        let own = count_own(node);
        count += own;
        next = next_box(places, nodes, n);
    }
    count
}

fn put_head(head: &Option<Head>, out: &mut Bytes) -> Result<(), NoMemory>
    ensures { OnOk result (Writes out.old out.new (head_lines head.now)) }
{
    match head {
        Some(head) => {
            write_line(&Line::Head(*head), out)?;
            Ok(())
        }
        None => Ok(()),
    }
}

fn put_steps(steps: &[Step], out: &mut Bytes) -> Result<(), NoMemory>
    ensures text { OnOk result (out.new ≡ out.old ++ flat_map (λ step. spelling (lines.Step step)) steps.now) }
    ensures spelled { OnOk result (list_all (λ step. is_spelled (lines.Step step)) steps.now ≡ true) }
{
    for step in steps {
        write_line(&Line::Step(*step), out)?;
    }
    Ok(())
}

fn copy_list(alloc: Global, items: &[u32]) -> Result<List<u32>, NoMemory>
    ensures { IfOk result (λ list. list ≡ items.now) }
{
    let mut list = List::new(alloc);
    for item in items {
        list.push(*item)?;
    }
    Ok(list)
}

fn copy_closing(alloc: Global, closing: &Closing) -> Result<Closing, NoMemory>
    ensures { IfOk result (λ copy. copy ≡ closing.now) }
{
    match closing {
        Closing::Empty(var) => Ok(Closing::Empty(*var)),
        Closing::Cut(nodes) => Ok(Closing::Cut(copy_list(alloc, nodes.as_slice())?)),
        Closing::At { rule, place } => Ok(Closing::At {
            rule: *rule,
            place: *place,
        }),
    }
}

fn line_of_branch(by: BranchBy) -> Line
    ensures { result ≡ branch_line (branch_of by) }
{
    match by {
        BranchBy::Group(group) => Line::Group(group),
        BranchBy::Arc(arc) => Line::Arc(arc),
        BranchBy::Halves(var) => Line::Halve(var),
    }
}

/// The line that ends a box.
fn line_of_end(alloc: Global, standing: &Standing) -> Result<Line, NoMemory>
    ensures { IfOk result (λ line. line ≡ end_line (end_of (standing_of standing.now))) }
{
    match standing {
        Standing::Shut(closing) => Ok(Line::Close(copy_closing(alloc, closing)?)),
        Standing::Split { by, .. } => Ok(line_of_branch(*by)),
        _ => Ok(Line::LeftOpen),
    }
}

fn put_end(alloc: Global, standing: &Standing, out: &mut Bytes) -> Result<(), NoMemory>
    requires { HasOrderedCut (standing_of standing.now) }
    ensures { OnOk result (Writes out.old out.new (end_line (end_of (standing_of standing.now)) ∷ [])) }
{
    let line = line_of_end(alloc, standing)?;
    write_line(&line, out)?;
    Ok(())
}

fn put_box(alloc: Global, node: &Node, out: &mut Bytes) -> Result<(), NoMemory>
    requires { HasOrderedCut (standing_of node.now.standing) }
    ensures { OnOk result (Writes out.old out.new (own_lines (row_of [] node.now))) }
{
    put_head(&node.head, out)?;
    put_steps(node.steps.as_slice(), out)?;
    put_end(alloc, &node.standing, out)?;
    Ok(())
}

/// Adds the lines of all boxes at the end, in the order of the text.
pub fn put_boxes(
    alloc: Global,
    places: &Lineage,
    nodes: &[Node],
    out: &mut Bytes,
) -> Result<(), NoMemory>
    requires rows { AreRows places.now nodes.now }
    ensures { OnOk result ((ls : ListOf ALine) → Pending (rows_of places.now nodes.now) (Some 0) ls → Writes out.old out.new ls) }
{
    let mut next = Some(0);
    'boxes: while let Some(n) = next {
        let node = &nodes[n as usize];
        put_box(alloc, node, out)?;
        next = next_box(places, nodes, n);
    }
    Ok(())
}
