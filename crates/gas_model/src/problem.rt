// Problems: rows within the limits, with positions in place of names.
ghost use Rattle.std.specs.Prelude.{◌≡◌, ◌<◌, Some, length, map, slice_get, IfOk, IsTrue};
ghost use Rattle.gas_model.specs.Rows.{problem_of, Gives, IsProblem};
ghost use Rattle.gas_model.specs.Points.{arcs_at};
ghost use Rattle.gas_model.specs.Choices.{may_be, picks_allow, allowed_states, fixed_state, fresh_part, PartFits};
ghost use Rattle.gas_model.specs.Rulings.{rulings_at, is_free, word_allows, AreInOrder};
ghost use Rattle.gas_model.specs.Incidence.{KeepsArcsAt};
ghost use Rattle.gas_model.specs.Within.{IsWithin};
ghost use Rattle.gas_model.specs.Supplies.{with_supply};
ghost use Rattle.base_types.specs.Numbers.{is_flow};
ghost use Rattle.gas_model.specs.declared.rows.ArcRow.{ArcRow};
ghost use Rattle.base_types.specs.declared.states.ArcState.{ArcState};

use crate::copies::{copy_arcs, copy_groups, supplied_nodes};
use crate::incidence::{ArcsAt, arcs_at_nodes};
use crate::placing::place_rows;
use crate::rows::{ArcRow, Group, ModelFault, NodeRow, PartState, Rows, Ruling};
use crate::rulings::{are_picked, picked_word, rulings_of_arcs};
use crate::states::{has_state, only_left, only_state, pick_in, pick_of, states_left, word_allows};
use base_types::{Allow, ArcState, List, NoMemory, another_owner};
use std::alloc::Global;
use std::marker::Model;
use std::rc::Rc;

/// A network with its nomination. Contracts see its rows, with positions in place of names.
/// It also keeps which arcs leave or enter each node, and what decisions say of each arc.
#[derive(Drop)]
pub struct Problem {
    nodes: List<NodeRow>,
    arcs: List<ArcRow>,
    groups: List<Group>,
    arcs_at: Rc<Vec<ArcsAt>>,
    rulings: Vec<Vec<Ruling>>,
}

impl Model for Problem {
    ghost use Rattle.gas_model.specs.Rows.{Network};

    ghost Value = { Network };

    ghost use Rattle.gas_model.specs.Problems.{network, IsWhole};

    ghost view = { network };

    ghost invariant = { IsWhole };
}

impl Problem {
    /// The problem of these rows, in their order, or their first offence. The order is: too many nodes, arcs, groups or
    /// decisions of a group; the nodes, each over its limits, then named twice; the arcs, each named twice, then
    /// without its `from`, then without its `to`, then from a node to itself, then over its limits; the groups, each
    /// with a bad id, then named twice, then without a decision, then its decisions, each with a bad id, then named
    /// twice in its group, then its sets, each for an arc that isn't there, then for one that doesn't take the word,
    /// then for one that stands twice in the decision or stands in an earlier group.
    pub fn make(alloc: Global, rows: Rows) -> Result<Problem, ModelFault>
        ensures exact { Gives (λ p. p) result (problem_of rows) }
    {
        let placed = place_rows(alloc, &rows)?;
        let arcs = placed.arcs;
        let groups = placed.groups;
        let arcs_at = arcs_at_nodes(alloc, rows.nodes.as_slice().len(), arcs.as_slice())?;
        let rulings = rulings_of_arcs(alloc, arcs.as_slice().len(), groups.as_slice())?;
        Ok(Problem {
            nodes: rows.nodes,
            arcs,
            groups,
            arcs_at,
            rulings,
        })
    }

    /// The nodes in order.
    pub fn nodes(&self) -> &[NodeRow]
        ensures rows { result.now ≡ self.now.nodes }
        ensures problem { IsProblem self.now }
        ensures within { IsWithin self.now }
    {
        self.nodes.as_slice()
    }

    /// The arcs in order.
    pub fn arcs(&self) -> &[ArcRow]
        ensures rows { result.now ≡ self.now.arcs }
        ensures problem { IsProblem self.now }
        ensures within { IsWithin self.now }
    {
        self.arcs.as_slice()
    }

    /// The groups in order.
    pub fn groups(&self) -> &[Group]
        ensures rows { result.now ≡ self.now.groups }
        ensures problem { IsProblem self.now }
        ensures within { IsWithin self.now }
    {
        self.groups.as_slice()
    }

    /// The arcs that leave or enter a node, in order.
    pub fn arcs_at(&self, node: u32) -> &[u32]
        requires { node < length self.now.nodes }
        ensures arcs { result.now ≡ arcs_at self.now.arcs node }
        ensures within { IsWithin self.now }
    {
        self.arcs_at[node as usize].as_slice()
    }

    /// The arcs at each node, in order, for one more owner.
    pub fn shared_arcs_at(&self) -> Result<Rc<Vec<ArcsAt>>, NoMemory>
        ensures { IfOk result (λ lists. KeepsArcsAt (map (λ v. v.items) lists.value.items) (length self.now.nodes) self.now.arcs) }
    {
        another_owner(&self.arcs_at)
    }

    /// What the decisions of all groups say of an arc: one group says all of it, each of its decisions at most once, in
    /// the order of the decisions.
    pub fn rulings_at(&self, arc: u32) -> &[Ruling]
        requires { arc < length self.now.arcs }
        ensures rulings { result.now ≡ rulings_at self.now.groups arc }
        ensures order { AreInOrder result.now }
        ensures within { IsWithin self.now }
    {
        self.rulings[arc as usize].as_slice()
    }

    // The word that the picked decisions have for an arc.
    fn word_for(&self, picks: &[Option<u32>], arc: u32) -> Option<Allow>
        requires { arc < length self.now.arcs }
        ensures { (state : ArcState) → word_allows result state ≡ picks_allow self.now.groups picks.now arc state }
    {
        let rulings = self.rulings_at(arc);
        match rulings.first() {
            None => None,
            Some(ruling) => picked_word(rulings, pick_in(picks, ruling.group)),
        }
    }

    // The word that picks of all groups have for an arc.
    fn word_in(&self, picks: &[u32], arc: u32) -> Option<Allow>
        requires { arc < length self.now.arcs }
        ensures { (state : ArcState) → word_allows result state ≡ picks_allow self.now.groups (map Some picks.now) arc state }
    {
        let rulings = self.rulings_at(arc);
        match rulings.first() {
            None => None,
            Some(ruling) => picked_word(rulings, pick_of(picks, ruling.group)),
        }
    }

    /// Whether an arc may be in the state under the picks: it is one of its kind, and the picked decisions allow it.
    pub fn may_be(&self, picks: &[u32], arc: u32, state: ArcState) -> bool
        requires { arc < length self.now.arcs }
        ensures { (row : ArcRow) → slice_get self.now.arcs arc ≡ Some row → result ≡ may_be self.now picks.now arc row state }
    {
        let kind = &self.arcs()[arc as usize].kind;
        has_state(kind, state) && word_allows(self.word_in(picks, arc), state)
    }

    /// The state of an arc that is fixed: that of a kind with one state, or the one that the part state names, or the
    /// only one that its picked decisions allow. `None` exactly where no state is fixed.
    pub fn state_of(&self, part: &PartState, arc: u32) -> Option<ArcState>
        requires fits { PartFits self.now part.now }
        requires within { arc < length self.now.arcs }
        ensures { (row : ArcRow) → slice_get self.now.arcs arc ≡ Some row → result ≡ fixed_state self.now part.now arc row }
    {
        let kind = &self.arcs()[arc as usize].kind;
        let named = part.states.as_slice()[arc as usize];
        match only_state(kind).or(named) {
            Some(state) => Some(state),
            None => only_left(kind, self.word_for(part.picks.as_slice(), arc)),
        }
    }

    /// The states of an arc that the picked decisions of a part state allow, in the order of its kind.
    pub fn allowed_states(&self, part: &PartState, arc: u32) -> Result<Vec<ArcState>, NoMemory>
        requires { arc < length self.now.arcs }
        ensures { (row : ArcRow) → slice_get self.now.arcs arc ≡ Some row → IfOk result (λ left. left.items ≡ allowed_states self.now part.now arc row) }
    {
        let alloc = *self.rulings.allocator();
        let kind = &self.arcs()[arc as usize].kind;
        states_left(alloc, kind, self.word_for(part.picks.as_slice(), arc))
    }

    /// Whether the state of an arc isn't fixed, and each group that has a word for it is picked.
    pub fn is_free(&self, part: &PartState, arc: u32) -> bool
        requires fits { PartFits self.now part.now }
        requires within { arc < length self.now.arcs }
        ensures { (row : ArcRow) → slice_get self.now.arcs arc ≡ Some row → result ≡ is_free self.now part.now arc row }
    {
        match self.state_of(part, arc) {
            Some(_) => false,
            None => are_picked(part.picks.as_slice(), self.rulings_at(arc)),
        }
    }

    /// The part state in which nothing is picked and no state is named.
    #[tactic(auto, using(crate::proofs::FreshPart::fresh_fits))]
    pub fn fresh(&self) -> Result<PartState, NoMemory>
        ensures part { IfOk result (λ part. part ≡ fresh_part self.now) }
        ensures fits { IfOk result (λ part. PartFits self.now part) }
    {
        let alloc = *self.rulings.allocator();
        Ok(PartState {
            picks: List::filled(alloc, None, self.groups.as_slice().len())?,
            states: List::filled(alloc, None, self.arcs.as_slice().len())?,
        })
    }

    /// The same problem, but for the bounds of the supply of one node, each within 10^12 l/h either way.
    pub fn with_supply(&self, node: u32, b_min: i64, b_max: i64) -> Result<Problem, NoMemory>
        requires node { node < length self.now.nodes }
        requires low { IsTrue (is_flow b_min) }
        requires high { IsTrue (is_flow b_max) }
        ensures { IfOk result (λ p. p ≡ with_supply self.now node b_min b_max) }
    {
        let alloc = *self.rulings.allocator();
        let nodes = supplied_nodes(alloc, self.nodes(), node as usize, b_min, b_max)?;
        let arcs = copy_arcs(alloc, self.arcs())?;
        let groups = copy_groups(alloc, self.groups())?;
        let arcs_at = arcs_at_nodes(alloc, nodes.as_slice().len(), arcs.as_slice())?;
        let rulings = rulings_of_arcs(alloc, arcs.as_slice().len(), groups.as_slice())?;
        Ok(Problem {
            nodes,
            arcs,
            groups,
            arcs_at,
            rulings,
        })
    }
}
