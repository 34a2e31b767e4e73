// What a run leaves.
ghost use Rattle.lane_core.specs.Bodies.{EachOf};
ghost use Rattle.lane_core.specs.Crossings.{AreCrossings, AllJoined};

use lane_core::crossing::Crossing;
use lane_core::settle::settle;
use lane_core::turning::Turning;

/// What a run leaves.
#[derive(Drop)]
pub struct Finish<B> {
    /// The bodies, in order.
    pub bodies: Vec<B>,
    /// The units that all turns used.
    pub used: u32,
    /// Whether an event is left, for which the budget has no unit.
    pub more: bool,
}

/// The bodies, once the ends of all lanes were brought together.
pub fn settled<B: Turning>(mut bodies: Vec<B>, lanes: &[Crossing]) -> Vec<B>
    requires lanes { AreCrossings B.may_meet bodies.items lanes.now }
    ensures stands { EachOf B.stands bodies.items result.items }
    ensures goes { EachOf B.goes bodies.items result.items }
    ensures joined { AllJoined B.joined result.items lanes.now }
{
    settle(bodies.as_mut_slice(), lanes);
    bodies
}
