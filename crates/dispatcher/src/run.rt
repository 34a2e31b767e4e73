// Runs by workers.
ghost use Rattle.std.specs.Prelude.{◌≡◌, ◌+◌, ◌<◌, ◌≤◌, [], ℕ, true, false, map, length, vec_len, vec_capacity, IfOk, IfErr};
ghost use Rattle.std.specs.List.{All, sum_by};
ghost use Rattle.elem_core.specs.declared.count.TheConstants.{MOST_COUNT};
ghost use Rattle.dispatcher.specs.PublicTurns.{IsFree, handed_in, seat_count};
ghost use Rattle.dispatcher.specs.PublicBudget.{budget_id, seat_id, used_by, budget_parts, limit_of, HasNoClaim};
ghost use Rattle.lane_core.specs.Bodies.{AllOf, EachOf};
ghost use Rattle.lane_core.specs.Crossings.{AreCrossings, AllJoined, AtRest, FirstEvent};
ghost use Rattle.dispatcher.specs.Broken.{WholeOrBroken};
ghost use Rattle.dispatcher.specs.Places.{BodyWentOn, WentOrBroke};
ghost use Rattle.dispatcher.specs.Crew.{IsCrew};

use crate::budget::{Budget, BudgetSeat};
use crate::crew::{wake_each, work_all};
use crate::finish::{Finish, settled};
use crate::place::TablePlace;
use crate::ready::ReadyList;
use crate::taken::{TurnsTaken, box_all, place_all, take_apart, untaken};
use crate::turns::{TurnSeat, Turns};
use crate::waking::Waking;
use elem_core::why::NoMemory;
use lane_core::crossing::Crossing;
use lane_core::run::go_on;
use std::alloc::Global;
use std::sync::Wait;
use std::thread::Threads;

// All the memory that a run takes before bodies move, but the turn table.
struct RunRoom<B: Waking> {
    purse: Budget,
    first: BudgetSeat,
    list: ReadyList,
    places: Vec<TablePlace<B>>,
    back: Vec<TablePlace<B>>,
    bodies: Vec<B>,
}

impl<B: Waking> RunRoom<B> {
    fn of(alloc: Global, count: u32, budget: u32) -> Result<RunRoom<B>, NoMemory>
        requires some { 0 < count }
        requires few { count < 4294967295 }
        ensures seat { IfOk result (λ r. (seat_id r.first ≡ budget_id r.purse) × HasNoClaim r.first × (budget_parts r.first ≡ count + 1) × (used_by r.first ≡ 0)
            × (limit_of r.first ≡ budget)) }
        ensures limit { IfOk result (λ r. (r.purse.limit ≡ budget) × (r.list.count ≡ count)) }
        ensures places { IfOk result (λ r. (r.places.items ≡ []) × (count ≤ vec_capacity r.places)) }
        ensures back { IfOk result (λ r. (r.back.items ≡ []) × (count ≤ vec_capacity r.back)) }
        ensures bodies { IfOk result (λ r. (r.bodies.items ≡ []) × (count ≤ vec_capacity r.bodies)) }
    {
        let (purse, first) = Budget::new(alloc, budget as u64, count + 1)?;
        Ok(RunRoom {
            purse,
            first,
            list: ReadyList::new(alloc, count)?,
            places: Vec::with_capacity(alloc, count as usize)?,
            back: Vec::with_capacity(alloc, count as usize)?,
            bodies: Vec::with_capacity(alloc, count as usize)?,
        })
    }
}

// All islands are woken, the workers take turns until none is ready any more, and the table is closed.
fn take_turns<B: Waking + Send, R: Threads + Wait + Sync>(
    rt: &R,
    alloc: Global,
    turns: Turns<TablePlace<B>>,
    mut seats: Vec<TurnSeat>,
    purse: &Budget,
    list: &ReadyList,
    back: Vec<TablePlace<B>>,
) -> Vec<TablePlace<B>>
    requires crew { IsCrew turns (budget_id purse.now) purse.now.limit list.now.count }
    requires few { purse.now.limit ≤ MOST_COUNT }
    requires some { (0 < list.now.count) × (1 < vec_len seats) }
    requires seats { (vec_len seats ≡ seat_count turns) × All (IsFree turns) seats.items }
    requires back { (back.items ≡ []) × (list.now.count ≤ vec_capacity back) }
    ensures { result.items ≡ handed_in turns }
{
    let mut mine = seats.pop().unwrap();
    wake_each(rt, &turns, list, &mut mine);
    work_all(rt, alloc, &turns, purse, list, seats.as_mut_slice());
    seats.push_reserved(mine);
    turns.close(seats, back)
}

// The greatest number of bodies of a run.
// Choice: docs/DECISIONS.md#bodies-without-bound
const MOST_BODIES: usize = 4294967294;

// The workers' part of a run, by no more of them than there are bodies. There is none where one worker runs, or one body at most: nobody
// takes a turn beside another then, and the caller's thread needs no table for it. Where memory was wanting at first no turn was taken.
// Choice: docs/DECISIONS.md#workers-by-islands
fn run_workers<B: Waking + Send, R: Threads + Wait + Sync>(
    rt: &R,
    alloc: Global,
    bodies: Vec<B>,
    workers: u32,
    budget: u32,
) -> TurnsTaken<B>
    requires workers { (0 < workers) × (workers ≤ 64) }
    requires budget { budget ≤ MOST_COUNT }
    requires keeps { AllOf B.keeps bodies.items }
    requires unspent { AllOf (λ b. B.spent b ≡ 0) bodies.items }
    ensures few { result.lack ≡ false → vec_len bodies < 4294967295 }
    ensures each { EachOf (WentOrBroke B.keeps B.goes B.breaks) bodies.items result.bodies.items }
    ensures whole { result.lack ≡ false → EachOf (BodyWentOn B.keeps B.goes) bodies.items result.bodies.items }
    ensures spent { result.lack ≡ false → result.used ≡ sum_by B.spent result.bodies.items }
    ensures within { result.used ≤ budget }
{
    if bodies.len() > MOST_BODIES {
        return untaken(bodies, true);
    }
    let count = bodies.len() as u32;
    if workers == 1 || count < 2 {
        return untaken(bodies, false);
    }
    let Ok(room) = RunRoom::of(alloc, count, budget) else {
        return untaken(bodies, true);
    };
    let RunRoom {
        purse,
        mut first,
        list,
        places,
        back,
        bodies: room,
    } = room;
    let bodies = match box_all(alloc, bodies) {
        Ok(boxes) => boxes,
        Err(bodies) => return untaken(bodies, true),
    };
    let places = place_all(&purse, &mut first, bodies, places);
    match Turns::new(alloc, places, workers.min(count) + 1) {
        Ok((turns, seats)) => {
            let places = take_turns(rt, alloc, turns, seats, &purse, &list, back);
            take_apart(&purse, first, places, room, false)
        }
        Err(places) => take_apart(&purse, first, places, room, true),
    }
}

// Choice: docs/DECISIONS.md#one-worker
/// Runs bodies by workers until none has an event or `budget` units are used: each worker takes a body that is ready, and gives it a
/// turn of at most 1000 units, until none is ready and none can become so; there are no more workers than bodies. What is left the
/// caller's thread does, in rounds, and it does all of it where there is one worker or one body at most. Where no thread can be made
/// the caller's thread works. Where memory was wanting all bodies come back, in order, each whole or broken off in a turn, and the ends
/// of all lanes are brought together too. That their number is out of 32 bits is want of memory.
pub fn run<B: Waking + Send, R: Threads + Wait + Sync>(
    rt: &R,
    alloc: Global,
    bodies: Vec<B>,
    lanes: &[Crossing],
    workers: u32,
    budget: u32,
) -> Result<Finish<B>, Vec<B>>
    requires workers { (0 < workers) × (workers ≤ 64) }
    requires budget { budget ≤ MOST_COUNT }
    requires keeps { AllOf B.keeps bodies.items }
    requires unspent { AllOf (λ b. B.spent b ≡ 0) bodies.items }
    requires lanes { AreCrossings B.may_meet bodies.items lanes.now }
    ensures keeps { IfOk result (λ f. AllOf B.keeps f.bodies.items) }
    ensures goes { IfOk result (λ f. EachOf B.goes bodies.items f.bodies.items) }
    ensures joined { IfOk result (λ f. AllJoined B.joined f.bodies.items lanes.now) }
    ensures spent { IfOk result (λ f. f.used ≡ sum_by B.spent f.bodies.items) }
    ensures within { IfOk result (λ f. f.used ≤ budget) }
    ensures rest { IfOk result (λ f. f.more ≡ false → AtRest B.pending B.joined f.bodies.items lanes.now) }
    ensures more { IfOk result (λ f. f.more ≡ true → (f.used ≡ budget) × ((k : ℕ) × FirstEvent B.pending B.joined f.bodies.items lanes.now k)) }
    ensures few { IfOk result (λ f. vec_len bodies < 4294967295) }
    ensures broke { IfErr result (λ bs. WholeOrBroken B.keeps B.goes B.breaks bodies.items bs.items) }
    ensures broke_joined { IfErr result (λ bs. AllJoined B.joined bs.items lanes.now) }
{
    let TurnsTaken {
        mut bodies,
        used,
        lack,
    } = run_workers(rt, alloc, bodies, workers, budget);
    if lack {
        return Err(settled(bodies, lanes));
    }
    let Ok(end) = go_on(alloc, bodies.as_mut_slice(), lanes, used, budget) else {
        return Err(bodies);
    };
    Ok(Finish {
        bodies,
        used: end.used,
        more: !end.at_rest,
    })
}
