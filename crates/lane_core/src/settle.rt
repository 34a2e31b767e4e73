// The ends of all lanes are brought together, and the first body that has an event is found.
ghost use Rattle.std.specs.Prelude.{◌≡◌, ◌≤◌, ◌<◌, ◌⊎◌, ℕ, Bool, true, IsTrue, IfNone, IfSome, Some, length, slice_get};
ghost use Rattle.lane_core.specs.Bodies.{EachOf};
ghost use Rattle.lane_core.specs.Crossings.{MeetsAt, IsWithin, AreCrossings, JoinedAt, AllJoined, LanesFrom, LaneEvent, AtRest, FirstEvent};

use crate::crossing::Crossing;
use crate::pairs::meet_at;
use crate::room::Waits;
use crate::turning::Turning;

// The two ends of one lane.
pub(crate) fn join<B: Turning>(bodies: &mut [B], lane: &Crossing) -> Waits
    requires within { IsWithin B.may_meet bodies.old lane.now }
    ensures stands { EachOf B.stands bodies.old bodies.new }
    ensures goes { EachOf B.goes bodies.old bodies.new }
    ensures joined { JoinedAt B.joined bodies.new lane.now result }
    ensures met { MeetsAt B.met bodies.old lane.now bodies.new result }
{
    match meet_at(
        bodies,
        lane.from as usize,
        lane.out as usize,
        lane.to as usize,
        lane.inp as usize,
    ) {
        Ok(waits) => waits,
        Err(_) => Waits {
            item: false,
            demand: false,
        },
    }
}

// The least of a place and of the bodies for which something waits at a lane.
fn least(first: usize, lane: &Crossing, waits: &Waits) -> usize
    ensures first { result ≤ first }
    ensures item { IsTrue waits.now.item → result ≤ lane.now.to }
    ensures demand { IsTrue waits.now.demand → result ≤ lane.now.from }
    ensures one { (result ≡ first) ⊎ (((lane.now.to ≡ result) × IsTrue waits.now.item) ⊎ ((lane.now.from ≡ result) × IsTrue waits.now.demand)) }
{
    let mut result = first;
    let to = lane.to as usize;
    if waits.item && to < result {
        result = to;
    }
    let from = lane.from as usize;
    if waits.demand && from < result {
        result = from;
    }
    result
}

// Brings the ends of all lanes together, and answers the first body for which something waits at a lane, or the count of bodies.
fn join_all<B: Turning>(bodies: &mut [B], lanes: &[Crossing]) -> usize
    requires lanes { AreCrossings B.may_meet bodies.old lanes.now }
    ensures stands { EachOf B.stands bodies.old bodies.new }
    ensures goes { EachOf B.goes bodies.old bodies.new }
    ensures within { result ≤ length bodies.new }
    ensures before { LanesFrom B.joined bodies.new lanes.now (length lanes.now) result }
    ensures event { result < length bodies.new → LaneEvent B.joined bodies.new lanes.now result }
{
    let mut first = bodies.len();
    for n in 0..lanes.len() {
        let lane = &lanes[n];
        let waits = join(bodies, lane);
        first = least(first, lane, &waits);
    }
    first
}

// The first body in whose ring an event is pending, below `end`, or `end`.
pub(crate) fn first_pending<B: Turning>(bodies: &[B], end: usize) -> usize
    requires { end ≤ length bodies.now }
    ensures within { result ≤ end }
    ensures before { (k : ℕ) (b : B) → slice_get bodies.now k ≡ Some b → B.pending b ≡ true → k < end → result ≤ k }
    ensures event { result < end → (b : B) → slice_get bodies.now result ≡ Some b → B.pending b ≡ true }
{
    for k in 0..end {
        if bodies[k].has_event() {
            return k;
        }
    }
    end
}

// Choice: docs/DECISIONS.md#met-before-a-turn
/// Brings the two ends of every lane together, once, and answers the first body that has an event: one that is pending in its ring,
/// an item at a lane that it takes from, or demand at one that it sends on. It answers none exactly where no body has one. It uses no
/// unit and takes no memory.
pub fn settle<B: Turning>(bodies: &mut [B], lanes: &[Crossing]) -> Option<usize>
    requires lanes { AreCrossings B.may_meet bodies.old lanes.now }
    ensures stands { EachOf B.stands bodies.old bodies.new }
    ensures goes { EachOf B.goes bodies.old bodies.new }
    ensures joined { AllJoined B.joined bodies.new lanes.now }
    ensures none { IfNone result (AtRest B.pending B.joined bodies.new lanes.now) }
    ensures some { IfSome result (λ k. FirstEvent B.pending B.joined bodies.new lanes.now k) }
{
    let waiting = join_all(bodies, lanes);
    let first = first_pending(bodies, waiting);
    if first < bodies.len() {
        Some(first)
    } else {
        None
    }
}
