// Rows of the items so far.
ghost use Rattle.std.specs.Prelude.{◌≡◌, [], ◌++◌, List, true, IfOk};
ghost use Rattle.flat_text.specs.Line.{may_stand};
ghost use Rattle.flat_text.specs.Items.{rows_in};
ghost use Rattle.flat_text.specs.Draft.{part_of, closed, opened, with_decision, with_set, drafted, Adds};
ghost use Rattle.flat_text.specs.declared.line.Item.{Item};
ghost use Rattle.flat_text.specs.declared.line.Item.TheVariants as item;
ghost use Rattle.flat_text.specs.declared.line.Part.TheVariants as part;

use crate::line::{Item, Part};
use gas_model::{ArcText, DecisionText, GroupText, List, Name, NoMemory, NodeRow, Rows, SetText};
use std::alloc::Global;

/// The part of the text at its end so far, with the group and the decision to which further lines may add.
#[derive(Debug, Drop)]
pub enum Tail {
    Nodes,
    Arcs,
    Group(GroupText),
    Decision(GroupText, DecisionText),
}

/// The rows of the items so far.
#[derive(Debug, Drop)]
pub struct Draft {
    pub nodes: List<NodeRow>,
    pub arcs: List<ArcText>,
    pub groups: List<GroupText>,
    pub tail: Tail,
}

/// The open group with all that it has so far.
fn closed(tail: Tail) -> Result<Option<GroupText>, NoMemory>
    ensures { IfOk result (λ g. g ≡ closed tail) }
{
    match tail {
        Tail::Nodes | Tail::Arcs => Ok(None),
        Tail::Group(group) => Ok(Some(group)),
        Tail::Decision(mut group, decision) => {
            group.decisions.push(decision)?;
            Ok(Some(group))
        }
    }
}

/// These groups, and the open one.
fn all_groups(mut groups: List<GroupText>, tail: Tail) -> Result<List<GroupText>, NoMemory>
    ensures { IfOk result (λ all. all ≡ groups ++ opened tail []) }
{
    if let Some(group) = closed(tail)? {
        groups.push(group)?;
    }
    Ok(groups)
}

/// The open group with one more decision.
fn with_decision(alloc: Global, tail: Tail, id: Name) -> Result<Tail, NoMemory>
    ensures { IfOk result (λ after. after ≡ with_decision tail id) }
{
    match closed(tail)? {
        Some(group) => {
            let decision = DecisionText {
                id,
                sets: List::new(alloc),
            };
            Ok(Tail::Decision(group, decision))
        }
        None => Ok(Tail::Arcs),
    }
}

/// The open decision with one more set.
fn with_set(tail: Tail, set: SetText) -> Result<Tail, NoMemory>
    ensures { IfOk result (λ after. after ≡ with_set tail set) }
{
    match tail {
        Tail::Decision(group, mut decision) => {
            decision.sets.push(set)?;
            Ok(Tail::Decision(group, decision))
        }
        other => Ok(other),
    }
}

impl Draft {
    /// No rows.
    pub fn new(alloc: Global) -> Draft
        ensures rows { (items : List Item) → drafted result items ≡ rows_in items }
        ensures part { part_of result.tail ≡ part.Nodes }
    {
        Draft {
            nodes: List::new(alloc),
            arcs: List::new(alloc),
            groups: List::new(alloc),
            tail: Tail::Nodes,
        }
    }

    /// The part of the text in which the next line stands.
    pub fn part(&self) -> Part
        ensures { result ≡ part_of self.now.tail }
    {
        match &self.tail {
            Tail::Nodes => Part::Nodes,
            Tail::Arcs => Part::Arcs,
            Tail::Group(_) => Part::Group,
            Tail::Decision(_, _) => Part::Decision,
        }
    }

    fn add_node(mut self, row: NodeRow) -> Result<Draft, NoMemory>
        requires { may_stand (part_of self.tail) (item.Node row) ≡ true }
        ensures { IfOk result (Adds self (item.Node row)) }
    {
        self.nodes.push(row)?;
        Ok(self)
    }

    fn add_arc(mut self, arc: ArcText) -> Result<Draft, NoMemory>
        requires { may_stand (part_of self.tail) (item.Arc arc) ≡ true }
        ensures { IfOk result (Adds self (item.Arc arc)) }
    {
        self.arcs.push(arc)?;
        self.tail = Tail::Arcs;
        Ok(self)
    }

    fn add_group(self, alloc: Global, id: Name) -> Result<Draft, NoMemory>
        ensures { IfOk result (Adds self (item.Group id)) }
    {
        let Draft {
            nodes,
            arcs,
            groups,
            tail,
        } = self;
        let groups = all_groups(groups, tail)?;
        let decisions = List::new(alloc);
        let tail = Tail::Group(GroupText { id, decisions });
        Ok(Draft {
            nodes,
            arcs,
            groups,
            tail,
        })
    }

    fn add_decision(self, alloc: Global, id: Name) -> Result<Draft, NoMemory>
        requires { may_stand (part_of self.tail) (item.Decision id) ≡ true }
        ensures { IfOk result (Adds self (item.Decision id)) }
    {
        let Draft {
            nodes,
            arcs,
            groups,
            tail,
        } = self;
        let tail = with_decision(alloc, tail, id)?;
        Ok(Draft {
            nodes,
            arcs,
            groups,
            tail,
        })
    }

    fn add_set(self, set: SetText) -> Result<Draft, NoMemory>
        requires { may_stand (part_of self.tail) (item.Set set) ≡ true }
        ensures { IfOk result (Adds self (item.Set set)) }
    {
        let Draft {
            nodes,
            arcs,
            groups,
            tail,
        } = self;
        let tail = with_set(tail, set)?;
        Ok(Draft {
            nodes,
            arcs,
            groups,
            tail,
        })
    }

    /// These rows and one more item.
    pub fn add(self, alloc: Global, item: Item) -> Result<Draft, NoMemory>
        requires { may_stand (part_of self.tail) item ≡ true }
        ensures { IfOk result (Adds self item) }
    {
        match item {
            Item::Node(row) => self.add_node(row),
            Item::Arc(arc) => self.add_arc(arc),
            Item::Group(id) => self.add_group(alloc, id),
            Item::Decision(id) => self.add_decision(alloc, id),
            Item::Set(set) => self.add_set(set),
        }
    }

    /// The rows, of which no more come.
    pub fn finish(self) -> Result<Rows, NoMemory>
        ensures { IfOk result (λ rows. rows ≡ drafted self []) }
    {
        let groups = all_groups(self.groups, self.tail)?;
        Ok(Rows {
            nodes: self.nodes,
            arcs: self.arcs,
            groups,
        })
    }
}
