// What a network file says.
use base_types::{List, Name};

/// What a node is.
#[derive(Clone, Copy, Debug, PartialEq, Eq)]
pub enum NodeWord {
    /// `source`: gas may enter here.
    Source,
    /// `sink`: gas may leave here.
    Sink,
    /// `innode`: neither.
    Inner,
}

/// A node. Pressures lie from 0 to 10^8 Pa, flows within 10^12 l/h either way.
#[derive(Debug, Drop)]
pub struct NetNode {
    pub id: Name,
    pub word: NodeWord,
    /// The least pressure, rounded down.
    pub p_min: i64,
    /// The greatest pressure, rounded up.
    pub p_max: i64,
    /// The least flow that enters or leaves, rounded down; 0 at an inner node.
    pub f_min: i64,
    /// The greatest one, rounded up; 0 at an inner node.
    pub f_max: i64,
}

/// What a connection is, with what it says of its own. Pressures and differences are in Pa.
#[derive(Clone, Copy, Debug, PartialEq, Eq)]
pub enum ArcWord {
    /// `pipe`.
    Pipe,
    /// `shortPipe`.
    Short,
    /// `resistor`, with its loss of pressure rounded down and up, or without one.
    Resistor {
        loss: Option<(i64, i64)>,
    },
    /// `valve`.
    Valve,
    /// `controlValve`, its losses taken into the bounds.
    Control {
        in_min: i64,
        out_max: i64,
        red_min: i64,
        red_max: i64,
    },
    /// `compressorStation`.
    Station {
        in_min: i64,
        out_max: i64,
    },
}

/// A connection of two nodes. Flows lie within 10^12 l/h either way.
#[derive(Debug, Drop)]
pub struct NetArc {
    pub id: Name,
    pub from: Name,
    pub to: Name,
    /// The least flow, rounded down.
    pub q_min: i64,
    /// The greatest flow, rounded up.
    pub q_max: i64,
    /// The greatest pressure within a pipe, rounded up; 10^8 for any other connection.
    pub p_max: i64,
    pub word: ArcWord,
}

/// The nodes and the connections of a network file, in file order.
#[derive(Debug, Drop)]
pub struct NetRows {
    pub nodes: List<NetNode>,
    pub arcs: List<NetArc>,
}
