// The lines of a flat text, and one reader for each.
ghost use Rattle.std.specs.Prelude.{◌≡◌, Ok};
ghost use Rattle.flat_text.specs.Fields.{Gives, head_text, arc_text};
ghost use Rattle.flat_text.specs.Line.{node_at, arc_at, id_at, set_at, line_at, item_in, line_in, may_stand, is_item_within};

use crate::fault::LineFault;
use crate::fields::{ArcHead, ended, head_at, number_field, text_field};
use crate::kinds::{allow_of, kind_at};
use gas_model::{ArcKind, ArcText, Name, NodeRow, SetText, is_arc_within, is_id, is_node_within};
use line_text::cut_word;
use std::alloc::Global;

/// What a line after the head line says. The line `end` says no item.
#[derive(Debug, Drop)]
pub enum Item {
    Node(NodeRow),
    Arc(ArcText),
    Group(Name),
    Decision(Name),
    Set(SetText),
}

/// Where the next line stands: after nodes, after arcs, in a group that has no decision yet, or in a decision.
#[derive(Clone, Copy, Debug, PartialEq, Eq)]
pub enum Part {
    Nodes,
    Arcs,
    Group,
    Decision,
}

#[tactic(auto, unfolding(crate::specs::Line::node_at))]
fn node_at(alloc: Global, bytes: &[u8]) -> Result<NodeRow, LineFault>
    ensures { Gives (λ n. n) result (node_at bytes.now) }
{
    let (id, rest) = text_field(bytes)?;
    let (p_min, rest) = number_field(rest)?;
    let (p_max, rest) = number_field(rest)?;
    let (b_min, rest) = number_field(rest)?;
    let (b_max, rest) = number_field(rest)?;
    ended(rest)?;
    let id = Name::of(alloc, id)?;
    Ok(NodeRow {
        id,
        p_min,
        p_max,
        b_min,
        b_max,
    })
}

/// An arc of its own from what its line says.
fn arc_of(alloc: Global, head: ArcHead<'_>, kind: ArcKind) -> Result<ArcText, LineFault>
    ensures { Gives (λ a. a) result (Ok (arc_text (head_text head.entry) kind)) }
{
    let id = Name::of(alloc, head.id)?;
    let from = Name::of(alloc, head.from)?;
    let to = Name::of(alloc, head.to)?;
    Ok(ArcText {
        id,
        from,
        to,
        q_min: head.q_min,
        q_max: head.q_max,
        kind,
    })
}

#[tactic(auto, unfolding(crate::specs::Line::arc_at))]
fn arc_at(alloc: Global, word: &[u8], bytes: &[u8]) -> Result<ArcText, LineFault>
    ensures { Gives (λ a. a) result (arc_at word.now bytes.now) }
{
    let (head, rest) = head_at(bytes)?;
    let (kind, rest) = kind_at(word, rest)?;
    ended(rest)?;
    arc_of(alloc, head, kind)
}

#[tactic(auto, unfolding(crate::specs::Line::id_at))]
fn id_at(alloc: Global, bytes: &[u8]) -> Result<Name, LineFault>
    ensures { Gives (λ id. id) result (id_at bytes.now) }
{
    let (id, rest) = text_field(bytes)?;
    ended(rest)?;
    let id = Name::of(alloc, id)?;
    Ok(id)
}

#[tactic(auto, unfolding(crate::specs::Line::set_at))]
fn set_at(alloc: Global, bytes: &[u8]) -> Result<SetText, LineFault>
    ensures { Gives (λ s. s) result (set_at bytes.now) }
{
    let (arc, rest) = text_field(bytes)?;
    let (word, rest) = text_field(rest)?;
    ended(rest)?;
    let allow = allow_of(word).ok_or(LineFault::NotFlat)?;
    let arc = Name::of(alloc, arc)?;
    Ok(SetText { arc, allow })
}

#[tactic(auto, unfolding(crate::specs::Line::line_at))]
fn line_at(alloc: Global, bytes: &[u8]) -> Result<Option<Item>, LineFault>
    ensures { Gives (λ x. x) result (line_at bytes.now) }
{
    let (word, rest) = cut_word(bytes);
    if word == b"node".as_slice() {
        let row = node_at(alloc, rest)?;
        return Ok(Some(Item::Node(row)));
    }
    if word == b"group".as_slice() {
        let id = id_at(alloc, rest)?;
        return Ok(Some(Item::Group(id)));
    }
    if word == b"decision".as_slice() {
        let id = id_at(alloc, rest)?;
        return Ok(Some(Item::Decision(id)));
    }
    if word == b"set".as_slice() {
        let set = set_at(alloc, rest)?;
        return Ok(Some(Item::Set(set)));
    }
    if word == b"end".as_slice() {
        ended(rest)?;
        return Ok(None);
    }
    let arc = arc_at(alloc, word, rest)?;
    Ok(Some(Item::Arc(arc)))
}

fn may_stand(part: Part, item: &Item) -> bool
    ensures { result ≡ may_stand part item.now }
{
    match item {
        Item::Node(_) => part == Part::Nodes,
        Item::Arc(_) => part == Part::Nodes || part == Part::Arcs,
        Item::Group(_) => true,
        Item::Decision(_) => part == Part::Group || part == Part::Decision,
        Item::Set(_) => part == Part::Decision,
    }
}

fn is_item_within(item: &Item) -> bool
    ensures { result ≡ is_item_within item.now }
{
    match item {
        Item::Node(row) => is_node_within(row),
        Item::Arc(arc) => {
            is_arc_within(arc) && is_id(arc.from.as_str()) && is_id(arc.to.as_str())
        }
        Item::Group(id) | Item::Decision(id) => is_id(id.as_str()),
        Item::Set(set) => is_id(set.arc.as_str()),
    }
}

/// An item, if it may stand in the part and lies within its limits.
fn item_in(part: Part, item: Item) -> Result<Option<Item>, LineFault>
    ensures { Gives (λ x. x) result (item_in part item) }
{
    if !may_stand(part, &item) {
        return Err(LineFault::NotFlat);
    }
    if !is_item_within(&item) {
        return Err(LineFault::OverLimit);
    }
    Ok(Some(item))
}

/// A line without its line feed, at its place and within its limits.
#[tactic(auto, unfolding(crate::specs::Line::line_in))]
pub fn line_in(alloc: Global, part: Part, bytes: &[u8]) -> Result<Option<Item>, LineFault>
    ensures { Gives (λ x. x) result (line_in part bytes.now) }
{
    match line_at(alloc, bytes)? {
        Some(item) => item_in(part, item),
        None => Ok(None),
    }
}
