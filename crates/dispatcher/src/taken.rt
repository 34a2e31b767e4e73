// Bodies are put in places, and the places taken apart behind the workers.
ghost use Rattle.std.specs.Prelude.{◌≡◌, ◌+◌, ◌<◌, ◌≤◌, [], ◌∷◌, ◌++◌, ℕ, false, map, reverse, box_value, vec_len, vec_capacity, IfOk, IfErr};
ghost use Rattle.std.specs.List.{All, sum_by};
ghost use Rattle.elem_core.specs.declared.count.TheConstants.{MOST_COUNT};
ghost use Rattle.dispatcher.specs.PublicBudget.{budget_id, seat_id, used_by, budget_parts, limit_of, HasNoClaim};
ghost use Rattle.lane_core.specs.Bodies.{AllOf, EachOf};
ghost use Rattle.dispatcher.specs.Places.{Paid, Belongs, BodyWentOn, WentOrBroke, body_start};

use crate::budget::{Budget, BudgetSeat};
use crate::place::{TableParts, TablePlace};
use lane_core::turning::Turning;
use std::alloc::Global;

/// What the workers left: the bodies in order, the units that all used, and whether memory was wanting.
pub struct TurnsTaken<B> {
    /// The bodies, in order.
    pub bodies: Vec<B>,
    /// The units that all turns used.
    pub used: u32,
    /// Whether memory was wanting.
    pub lack: bool,
}

// Whether one of them holds.
fn either(a: bool, b: bool) -> bool
    ensures none { result ≡ false → (a ≡ false) × (b ≡ false) }
{
    a || b
}

/// Bodies that took no turn.
pub fn untaken<B: Turning>(bodies: Vec<B>, lack: bool) -> TurnsTaken<B>
    requires keeps { AllOf B.keeps bodies.items }
    requires unspent { AllOf (λ b. B.spent b ≡ 0) bodies.items }
    ensures lack { result.lack ≡ lack }
    ensures used { result.used ≡ 0 }
    ensures spent { result.used ≡ sum_by B.spent result.bodies.items }
    ensures each { EachOf (BodyWentOn B.keeps B.goes) bodies.items result.bodies.items }
{
    TurnsTaken {
        bodies,
        used: 0,
        lack,
    }
}

// Choice: docs/DECISIONS.md#bodies-in-boxes
/// Each body in memory of its own, in order. Where memory was wanting the bodies come back, in order.
pub fn box_all<B: Drop>(alloc: Global, bodies: Vec<B>) -> Result<Vec<Box<B>>, Vec<B>>
    ensures boxed { IfOk result (λ boxes. map box_value boxes.items ≡ bodies.items) }
    ensures len { IfOk result (λ boxes. vec_len boxes ≡ vec_len bodies) }
    ensures back { IfErr result (λ back. back.items ≡ bodies.items) }
{
    let Ok(mut boxes) = Vec::with_capacity(alloc, bodies.len()) else {
        return Err(bodies);
    };
    let mut left = bodies;
    while let Some(body) = left.pop() {
        match Box::new(alloc, body) {
            Ok(boxed) => boxes.push_reserved(boxed),
            Err(failed) => return Err(unbox_all(boxes, left, failed.value)),
        }
    }
    boxes.as_mut_slice().reverse();
    Ok(boxes)
}

// This body, and behind it those in boxes, of which the last comes first, go behind the bodies that are left.
fn unbox_all<B: Drop>(boxes: Vec<Box<B>>, left: Vec<B>, next: B) -> Vec<B>
    requires room { vec_len left + vec_len boxes < vec_capacity left }
    ensures { result.items ≡ left.items ++ next ∷ map box_value (reverse boxes.items) }
{
    let mut boxes = boxes;
    let mut bodies = left;
    bodies.push_reserved(next);
    while let Some(boxed) = boxes.pop() {
        bodies.push_reserved(Box::into_inner(boxed));
    }
    bodies
}

/// Each body with a seat of its own, in the room that is handed in.
pub fn place_all<B: Turning>(
    purse: &Budget,
    first: &mut BudgetSeat,
    bodies: Vec<Box<B>>,
    mut places: Vec<TablePlace<B>>,
) -> Vec<TablePlace<B>>
    requires seat { (seat_id first.old ≡ budget_id purse.now) × HasNoClaim first.old × (budget_parts first.old ≡ vec_len bodies + 1) × (used_by first.old ≡ 0)
        × (limit_of first.old ≡ purse.now.limit) }
    requires room { (places.items ≡ []) × (vec_len bodies ≤ vec_capacity places) }
    requires keeps { AllOf B.keeps (map box_value bodies.items) }
    requires unspent { AllOf (λ b. B.spent b ≡ 0) (map box_value bodies.items) }
    ensures seat { (seat_id first.new ≡ budget_id purse.now) × HasNoClaim first.new × (budget_parts first.new ≡ 1) × (used_by first.new ≡ 0)
        × (limit_of first.new ≡ purse.now.limit) }
    ensures starts { map body_start result.items ≡ map box_value bodies.items }
    ensures belong { All (Belongs (budget_id purse.now) purse.now.limit) result.items }
    ensures len { vec_len result ≡ vec_len bodies }
{
    for body in bodies {
        let seat = purse.split(first);
        places.push_reserved(TablePlace::new(body, seat));
    }
    places
}

/// The bodies of places, in the room that is handed in, and the units that all of them used.
pub fn take_apart<B: Turning>(
    purse: &Budget,
    mut first: BudgetSeat,
    places: Vec<TablePlace<B>>,
    room: Vec<B>,
    refused: bool,
) -> TurnsTaken<B>
    requires seat { (seat_id first ≡ budget_id purse.now) × HasNoClaim first × (budget_parts first ≡ 1) × (used_by first ≡ 0)
        × (limit_of first ≡ purse.now.limit) }
    requires limit { purse.now.limit ≤ MOST_COUNT }
    requires belong { All (Belongs (budget_id purse.now) purse.now.limit) places.items }
    requires room { (room.items ≡ []) × (vec_len places ≤ vec_capacity room) }
    ensures each { EachOf (WentOrBroke B.keeps B.goes B.breaks) (map body_start places.items) result.bodies.items }
    ensures whole { result.lack ≡ false → EachOf (BodyWentOn B.keeps B.goes) (map body_start places.items) result.bodies.items }
    ensures spent { result.lack ≡ false → result.used ≡ sum_by B.spent result.bodies.items }
    ensures within { result.used ≤ purse.now.limit }
{
    let mut bodies = room;
    let mut total = 0u32;
    let mut lack = refused;
    for place in places {
        let TableParts {
            body,
            seat,
            used,
            broken,
        } = place.into_parts();
        purse.join(&mut first, seat);
        purse.look(&mut first);
        total += used;
        lack = either(lack, broken);
        bodies.push_reserved(body);
    }
    TurnsTaken {
        bodies,
        used: total,
        lack,
    }
}
