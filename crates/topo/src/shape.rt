// The shape of a network in a part state.
ghost use Rattle.std.specs.Prelude.{◌≡◌, ◌<◌, [], length, slice_index, slice_index_or, IfOk};
ghost use Rattle.gas_model.specs.Choices.{PartFits};
ghost use Rattle.topo.specs.Shapes.{IsShapeOf};

use crate::fixed::fixed_states;
use crate::roles::{chords_of, own_roots, parts_of};
use crate::split::split_list;
use crate::walking::{at_node, walk_of};
use gas_model::{ArcsAt, NoMemory, PartState, Problem, Var};
use std::alloc::Global;
use std::marker::Model;
use std::rc::Rc;

/// The shape of a network in a part state.
///
/// Arcs whose state is fixed as shut are away, and all others are there. A component is a greatest set of nodes that
/// arcs which are there join, and its root is its first node. A chord is an arc that is there, whose ends are joined by
/// earlier arcs that are there. The other arcs that are there are tree arcs.
#[derive(Drop)]
pub struct Shape {
    roots: Vec<u32>,
    root_of: Vec<u32>,
    chords: Vec<u32>,
    walk: Vec<(u32, u32)>,
    at_node: Rc<Vec<ArcsAt>>,
    split_list: Vec<Var>,
}

impl Model for Shape {
    ghost use Rattle.topo.specs.Shapes.{Layout};

    ghost Value = { Layout };

    ghost use Rattle.topo.specs.Layouts.{layout};

    ghost view = { layout };
}

impl Shape {
    /// The shape of a network in a part state. Its time and its memory grow as the number of nodes and arcs, but for a
    /// factor that stays small. `NoMemory` is its only refusal.
    pub fn of(alloc: Global, p: &Problem, state: &PartState) -> Result<Shape, NoMemory>
        requires { PartFits p.now state.now }
        ensures { IfOk result (λ shape. IsShapeOf p.now state.now shape) }
    {
        let nodes = p.nodes().len();
        let arcs = p.arcs();
        let states = fixed_states(alloc, p, state)?;
        let parts = parts_of(alloc, nodes, arcs, states.as_slice())?;
        let at_node = p.shared_arcs_at()?;
        let roots = own_roots(alloc, parts.root_of.as_slice())?;
        let chords = chords_of(alloc, parts.roles.as_slice())?;
        let walk = walk_of(
            alloc,
            arcs,
            at_node.as_slice(),
            parts.roles.as_slice(),
            roots.as_slice(),
        )?;
        let split_list = split_list(
            alloc,
            nodes,
            chords.as_slice(),
            roots.as_slice(),
            arcs,
            states.as_slice(),
        )?;
        Ok(Shape {
            roots,
            root_of: parts.root_of,
            chords,
            walk,
            at_node,
            split_list,
        })
    }

    /// The first node of each component, in order.
    pub fn roots(&self) -> &[u32]
        ensures { result.now ≡ self.now.roots }
    {
        self.roots.as_slice()
    }

    /// The root of the component of a node.
    pub fn root_of(&self, node: u32) -> u32
        requires { node < length self.now.root_of }
        ensures { result ≡ slice_index self.now.root_of node }
    {
        self.root_of[node as usize]
    }

    /// The chords, in order.
    pub fn chords(&self) -> &[u32]
        ensures { result.now ≡ self.now.chords }
    {
        self.chords.as_slice()
    }

    /// The tree arcs, each with the end of it that is nearer to the root: component by component in the order of the
    /// roots, and in each in the order in which a breadth-first walk over tree arcs in arc order reaches their far ends.
    pub fn walk(&self) -> &[(u32, u32)]
        ensures { result.now ≡ self.now.walk }
    {
        self.walk.as_slice()
    }

    /// The arcs that leave or enter a node, in order, those that are away too.
    pub fn at_node(&self, node: u32) -> &[u32]
        requires { node < length self.now.at_node }
        ensures { result.now ≡ slice_index_or self.now.at_node node [] }
    {
        at_node(self.at_node.as_slice(), node)
    }

    /// The variables that a box is split at first: the flows of chords in order, the squares of roots in order, and the
    /// squares of the nodes that active control valves and stations lead to, in the order of the arcs, each variable
    /// once.
    pub fn split_list(&self) -> &[Var]
        ensures { result.now ≡ self.now.split_list }
    {
        self.split_list.as_slice()
    }
}
