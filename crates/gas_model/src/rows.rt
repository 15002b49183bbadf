// The rows that a problem is made of, and what may be wrong with them.
ghost use Rattle.std.specs.Prelude.{◌≡◌};
ghost use Rattle.gas_model.specs.declared.rows.ModelFault.TheVariants as fault;

use base_types::{Allow, ArcState, List, Name, NoMemory};

/// A node: bounds of its pressure in Pa, from 0 to 10^8, and of its supply in l/h, within 10^12.
/// The supply is what the node brings into the network, so that of a sink is negative.
#[derive(Debug, Drop)]
pub struct NodeRow {
    pub id: Name,
    pub p_min: i64,
    pub p_max: i64,
    pub b_min: i64,
    pub b_max: i64,
}

/// A resistance between `lo / den` and `hi / den`, in Pa^2 per (l/h)^2. Each number lies from 1 to 2^38.
#[derive(Clone, Copy, Debug, PartialEq, Eq)]
pub struct Drag {
    pub lo: i64,
    pub hi: i64,
    pub den: i64,
}

/// What an arc is, with the numbers of its law: pressures, losses and rises in Pa.
#[derive(Clone, Copy, Debug, PartialEq, Eq)]
pub enum ArcKind {
    Pipe {
        law: Drag,
    },
    Short,
    Resist {
        law: Drag,
    },
    Loss {
        low: i64,
        high: i64,
    },
    Valve,
    Control {
        in_min: i64,
        out_max: i64,
        red_min: i64,
        red_max: i64,
    },
    Station {
        in_min: i64,
        out_max: i64,
        ratio_num: i64,
        ratio_den: i64,
        rise_max: i64,
    },
}

/// An arc from the node named `from` to the node named `to`, with bounds of its flow in l/h, within 10^12.
#[derive(Debug, Drop)]
pub struct ArcText {
    pub id: Name,
    pub from: Name,
    pub to: Name,
    pub q_min: i64,
    pub q_max: i64,
    pub kind: ArcKind,
}

/// An arc, with the positions of its ends among the nodes.
#[derive(Debug, Drop)]
pub struct ArcRow {
    pub id: Name,
    pub from: u32,
    pub to: u32,
    pub q_min: i64,
    pub q_max: i64,
    pub kind: ArcKind,
}

/// What a decision says of the arc of this name.
#[derive(Debug, Drop)]
pub struct SetText {
    pub arc: Name,
    pub allow: Allow,
}

/// A decision by the names of its arcs.
#[derive(Debug, Drop)]
pub struct DecisionText {
    pub id: Name,
    pub sets: List<SetText>,
}

/// A group of decisions, of which exactly one is taken.
#[derive(Debug, Drop)]
pub struct GroupText {
    pub id: Name,
    pub decisions: List<DecisionText>,
}

/// A decision by the positions of its arcs.
#[derive(Debug, Drop)]
pub struct Decision {
    pub id: Name,
    pub sets: List<(u32, Allow)>,
}

/// A group of decisions, with positions in place of the names of arcs.
#[derive(Debug, Drop)]
pub struct Group {
    pub id: Name,
    pub decisions: List<Decision>,
}

/// What a decision of a group says of an arc: the positions of the group and of its decision, and the word.
#[derive(Clone, Copy, Debug, PartialEq, Eq)]
pub struct Ruling {
    pub group: u32,
    pub decision: u32,
    pub allow: Allow,
}

/// All rows of a problem.
#[derive(Debug, Drop)]
pub struct Rows {
    pub nodes: List<NodeRow>,
    pub arcs: List<ArcText>,
    pub groups: List<GroupText>,
}

/// A decision picked for some groups, and a state fixed for some arcs.
#[derive(Debug, Drop)]
pub struct PartState {
    pub picks: List<Option<u32>>,
    pub states: List<Option<ArcState>>,
}

/// A decision for each group, a state and a flow in l/h for each arc, a squared pressure in Pa^2 for each node.
#[derive(Debug, Drop)]
pub struct Setting {
    pub picks: List<u32>,
    pub states: List<ArcState>,
    pub flows: List<i64>,
    pub squares: List<i64>,
}

/// The lower and the upper end of a variable in a box, in units of 1/K.
#[derive(Clone, Copy, Debug, PartialEq, Eq)]
pub struct Ends {
    pub lo: i128,
    pub hi: i128,
}

/// What there may be too many of.
#[derive(Clone, Copy, Debug, PartialEq, Eq)]
pub enum Many {
    Nodes,
    Arcs,
    Groups,
    Decisions,
}

/// The first offence of rows that make no problem.
#[derive(Debug, Drop)]
pub enum ModelFault {
    TooMany { what: Many },
    TwiceNamed { id: Name },
    OverLimit { id: Name },
    NoSuchNode { arc: Name, id: Name },
    SameEnds { arc: Name },
    EmptyGroup { group: Name },
    NoSuchArc { group: Name, id: Name },
    NotActive { group: Name, arc: Name },
    TwiceDecided { arc: Name },
    NoMemory,
}

impl From<NoMemory> for ModelFault {
    ghost from_gives = { λ _ e. e ≡ fault.NoMemory };

    fn from(_: NoMemory) -> ModelFault {
        ModelFault::NoMemory
    }
}
