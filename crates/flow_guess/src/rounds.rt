// Rounds of flows.
use crate::forest::MOST_FLOW;
use crate::linear::{
    EASY, Linear, active_law, calm_loss, drag_law, drop_of, fine, first_drag, flow_at, rough_loss,
};
use crate::net::{Edge, Net};
use crate::plan::{Plan, size_of};
use crate::way::Way;
use clamped::{
    MOST, add_number, difference, index_at, index_of, number_at, put_number, scaled, sum,
};
use gas_model::{ArcKind, NoMemory, Problem};
use std::alloc::Global;

/// What rounds work on: the law of each edge and how often its flow turned, then numbers by slot, by place and by node.
#[derive(Debug, Drop)]
pub struct Sheet {
    laws: Vec<Linear>,
    turns: Vec<i64>,
    conductances: Vec<i64>,
    sources: Vec<i64>,
    shares: Vec<i64>,
    squares: Vec<i64>,
    left: Vec<i64>,
}

/// What rounds are about: the supplies of nodes, the pressure near which each constant loss works, and how arcs take part.
#[derive(Clone, Copy)]
pub struct Given<'a> {
    pub supplies: &'a [i64],
    pub levels: &'a [i64],
    pub ways: &'a [Way],
}

// Where in a row of rounds one stands, and whether no flow is known before it.
#[derive(Clone, Copy)]
struct Round {
    number: u32,
    blank: bool,
}

fn clear(list: &mut [i64]) {
    for x in list {
        *x = 0;
    }
}

impl Sheet {
    pub fn new(alloc: Global, p: &Problem, net: &Net) -> Result<Sheet, NoMemory> {
        let none = Linear {
            conductance: 0,
            kept: 0,
        };
        let nodes = p.nodes().len();
        Ok(Sheet {
            laws: vec![in alloc; none; net.edges.len()]?,
            turns: vec![in alloc; 0i64; net.edges.len()]?,
            conductances: vec![in alloc; 0i64; net.mesh.slots()]?,
            sources: vec![in alloc; 0i64; nodes]?,
            shares: vec![in alloc; 0i64; net.mesh.reach()]?,
            squares: vec![in alloc; 0i64; nodes]?,
            left: vec![in alloc; 0i64; nodes]?,
        })
    }

    // The law of a constant loss.
    fn loss_law(
        &self,
        plan: &Plan,
        losses: (i64, i64, i64),
        flow: i64,
        turns: i64,
        round: Round,
    ) -> Linear {
        let (low, high, level) = losses;
        if round.blank {
            rough_loss(low, high, level, plan.typical)
        } else if round.number < 2 || flow == 0 || turns > 1 {
            rough_loss(low, high, level, size_of(flow).max(plan.typical >> 8))
        } else {
            calm_loss(low, high, level, flow)
        }
    }

    // The law of an edge at its last flow.
    fn law_of(
        &self,
        p: &Problem,
        plan: &Plan,
        given: Given<'_>,
        edge: Edge,
        flow: i64,
        turns: i64,
        round: Round,
    ) -> Linear {
        let arc = edge.arc as usize;
        let Some(row) = p.arcs().get(arc) else {
            return active_law(0, true);
        };
        match (row.kind, given.ways.get(arc)) {
            (ArcKind::Pipe { law } | ArcKind::Resist { law }, _) => {
                if round.blank {
                    first_drag(&law, plan.typical)
                } else {
                    drag_law(&law, flow, plan.typical)
                }
            }
            (ArcKind::Loss { low, high }, _) => {
                let level = number_at(given.levels, arc);
                self.loss_law(plan, (low, high, level), flow, turns, round)
            }
            (ArcKind::Station { .. }, _) => active_law(flow, true),
            _ => active_law(flow, false),
        }
    }

    fn lay_edge(&mut self, place: usize, slot: u32, edge: Edge, law: Linear) {
        if let Some(own) = self.laws.get_mut(place) {
            *own = law;
        }
        add_number(&mut self.conductances, slot as usize, law.conductance);
        add_number(
            &mut self.sources,
            edge.from as usize,
            difference(0, law.kept),
        );
        add_number(&mut self.sources, edge.to as usize, law.kept);
    }

    fn lay_supplies(&mut self, net: &Net, supplies: &[i64]) {
        for (node, supply) in supplies.iter().enumerate() {
            add_number(
                &mut self.sources,
                net.place_of(index_of(node)),
                fine(*supply),
            );
        }
    }

    // Makes all laws linear at the last flows.
    fn lay(
        &mut self,
        p: &Problem,
        plan: &Plan,
        net: &Net,
        given: Given<'_>,
        flows: &[i64],
        round: Round,
    ) {
        clear(&mut self.conductances);
        clear(&mut self.sources);
        self.lay_supplies(net, given.supplies);
        for (place, edge) in net.edges.iter().enumerate() {
            let flow = number_at(flows, edge.arc as usize);
            let turns = number_at(&self.turns, place);
            let law = self.law_of(p, plan, given, *edge, flow, turns, round);
            self.lay_edge(place, index_at(&net.slot_of, place), *edge, law);
        }
    }

    // How far the law of an edge is missed where its flow changes so, in Pa^2.
    fn missed(
        &self,
        p: &Problem,
        way: Option<&Way>,
        arc: usize,
        law: Linear,
        change: i64,
        round: Round,
    ) -> i64 {
        match (way, p.arcs().get(arc)) {
            (Some(Way::Drag), Some(row)) => match row.kind {
                ArcKind::Pipe { law } | ArcKind::Resist { law } => drop_of(&law, change),
                _ => 0,
            },
            (Some(Way::Loss), _) => {
                if law.conductance == EASY {
                    scaled(change, 1 << 8, 0)
                } else if round.number > 3 {
                    scaled(change, 1 << 20, 0)
                } else {
                    MOST
                }
            }
            _ => 0,
        }
    }

    // The new flow of a constant loss, halfway where it turns.
    fn turned(&mut self, place: usize, last: i64, next: i64, round: Round) -> i64 {
        if round.number > 2 && (next > 0) != (last > 0) {
            add_number(&mut self.turns, place, 1);
            sum(next / 2, last / 2)
        } else {
            next
        }
    }

    // The new flow of an edge, and how far its law is missed.
    fn move_edge(
        &mut self,
        p: &Problem,
        given: Given<'_>,
        place: usize,
        edge: Edge,
        last: i64,
        round: Round,
    ) -> (i64, i64) {
        let arc = edge.arc as usize;
        let Some(law) = self.laws.get(place).copied() else {
            return (last, 0);
        };
        let from = number_at(&self.squares, edge.from as usize);
        let to = number_at(&self.squares, edge.to as usize);
        let next = flow_at(law, difference(from, to)).clamp(-MOST_FLOW, MOST_FLOW);
        let way = given.ways.get(arc);
        let next = if way == Some(&Way::Loss) {
            self.turned(place, last, next, round)
        } else {
            next
        };
        let change = size_of(difference(next, last));
        (next, self.missed(p, way, arc, law, change, round))
    }

    // Moves all flows of edges; how far a law is missed at most.
    fn move_all(
        &mut self,
        p: &Problem,
        net: &Net,
        given: Given<'_>,
        flows: &mut [i64],
        round: Round,
    ) -> i64 {
        let mut worst = 0;
        for (place, edge) in net.edges.iter().enumerate() {
            let arc = edge.arc as usize;
            let last = number_at(flows, arc);
            let (next, missed) = self.move_edge(p, given, place, *edge, last, round);
            put_number(flows, arc, next);
            worst = missed.max(worst);
        }
        worst
    }

    // One round; how far a law is missed at most.
    fn round(
        &mut self,
        p: &Problem,
        plan: &Plan,
        net: &Net,
        given: Given<'_>,
        flows: &mut [i64],
        round: Round,
    ) -> i64 {
        self.lay(p, plan, net, given, flows, round);
        net.mesh.solve(
            &mut self.conductances,
            &mut self.sources,
            &mut self.shares,
            &mut self.squares,
        );
        let worst = self.move_all(p, net, given, flows, round);
        net.forest.balance(p, given.supplies, flows, &mut self.left);
        worst
    }

    /// At most so many rounds, from the last flows or from none: flows that balance and nearly meet the laws. Whether they
    /// come near enough, and how many rounds were made.
    pub fn run(
        &mut self,
        p: &Problem,
        plan: &Plan,
        net: &Net,
        given: Given<'_>,
        flows: &mut [i64],
        blank: bool,
        most: u32,
    ) -> (bool, u32) {
        if !net.has_loops {
            net.forest.balance(p, given.supplies, flows, &mut self.left);
            return (true, 0);
        }
        let enough = plan.tol / 256;
        for number in 0..most {
            let round = Round {
                number,
                blank: blank && number == 0,
            };
            let worst = self.round(p, plan, net, given, flows, round);
            if worst <= enough && number > 0 {
                return (true, number + 1);
            }
        }
        (false, most)
    }
}
