// Plans.

/// What of a blueprint runs together, and what joins it. An island is a connected component of the graph once the wires with a
/// lane are removed, whichever way wires run.
#[derive(Drop)]
pub struct Plan {
    /// The islands. An island's number is its place here, from 0; they are in the order of their least nodes.
    pub islands: Vec<IslandPlan>,
    /// All wires with a lane, in ascending order, also those with both ends in one island.
    pub lanes: Vec<LanePlan>,
}

/// One island.
#[derive(Drop)]
pub struct IslandPlan {
    /// The numbers of its nodes, in ascending order. There is one at least.
    pub nodes: Vec<u32>,
    /// The numbers of the wires without a lane between its nodes, in ascending order.
    pub wires: Vec<u32>,
}

/// One lane.
#[derive(Clone, Copy)]
pub struct LanePlan {
    /// The number of its wire.
    pub wire: u32,
    /// How many elements it has room for.
    pub size: u32,
    /// Whether a failure on it waits behind the elements that came before it.
    pub keep: bool,
    /// The island of the node whose output it is.
    pub from: u32,
    /// The island of the node whose input it is.
    pub to: u32,
    /// The number of the hub that it belongs to, where it belongs to one.
    pub hub: Option<u32>,
}
