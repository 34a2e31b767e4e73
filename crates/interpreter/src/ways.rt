// The places of the connections at which lanes come in and go out.
ghost use Rattle.std.specs.Prelude.{◌≡◌};
ghost use Rattle.interpreter.specs.LanePlaces.{HasEachOnce, lane_place_of};

/// A lane of an island, and the connection at which it comes in or goes out.
#[derive(Clone, Copy)]
pub struct LanePlace {
    /// The number of the wire that the lane is.
    pub wire: u32,
    /// The place of the connection.
    pub place: u32,
}

// Choice: docs/DECISIONS.md#lanes-of-an-island-are-listed
/// The lanes of an island that come in, and those that go out, each list in the order of the island's links.
#[derive(Drop)]
pub struct Ways {
    pub(crate) ins: Vec<LanePlace>,
    pub(crate) outs: Vec<LanePlace>,
    ghost ins_apart: { HasEachOnce ins.items },
    ghost outs_apart: { HasEachOnce outs.items },
}

// The place of the connection of the lane that is wire `wire`: each is looked at.
fn look_through(lanes: &[LanePlace], wire: u32) -> u32
    requires { HasEachOnce lanes.now }
    ensures { result ≡ lane_place_of lanes.now wire }
{
    for i in 0..lanes.len() {
        let lane = lanes[i];
        if lane.wire == wire {
            return lane.place;
        }
    }
    0
}

// The same, where it mostly is the lane at place `near` of the list.
#[inline(always)]
fn find_near(lanes: &[LanePlace], wire: u32, near: usize) -> u32
    requires { HasEachOnce lanes.now }
    ensures { result ≡ lane_place_of lanes.now wire }
{
    if let Some(lane) = lanes.get(near) {
        if lane.wire == wire {
            return lane.place;
        }
    }
    look_through(lanes, wire)
}

impl Ways {
    // The place of the connection at which the lane that is wire `wire` comes in; mostly it is the lane at place `near` of the list.
    #[inline(always)]
    pub(crate) fn place_in(&self, wire: u32, near: usize) -> u32
        ensures { result ≡ lane_place_of self.now.ins.items wire }
    {
        find_near(&self.ins, wire, near)
    }

    // The same of that at which it goes out.
    #[inline(always)]
    pub(crate) fn place_out(&self, wire: u32, near: usize) -> u32
        ensures { result ≡ lane_place_of self.now.outs.items wire }
    {
        find_near(&self.outs, wire, near)
    }
}
