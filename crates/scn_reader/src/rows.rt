// What a scenario file says.
use base_types::{List, Name};

/// A nominated node. Pressures lie from 0 to 10^8 Pa, flows within 10^12 l/h either way.
#[derive(Debug, Drop)]
pub struct ScnNode {
    pub id: Name,
    /// Whether gas enters here, and doesn't leave.
    pub entry: bool,
    /// The greatest of the lower bounds of the flow, rounded down.
    pub f_min: i64,
    /// The least of its upper bounds, rounded up.
    pub f_max: i64,
    /// The greatest of the lower bounds of the pressure, rounded down.
    pub p_min: i64,
    /// The least of its upper bounds, rounded up.
    pub p_max: i64,
}

/// The nodes of the first scenario of a file, in file order.
#[derive(Debug, Drop)]
pub struct ScnRows {
    pub nodes: List<ScnNode>,
}
