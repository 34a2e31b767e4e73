// What the workers share, and what one of them does.
ghost use Rattle.std.specs.Prelude.{◌≡◌, ◌<◌, ◌≤◌, length};
ghost use Rattle.std.specs.List.{All};
ghost use Rattle.elem_core.specs.declared.count.TheConstants.{MOST_COUNT};
ghost use Rattle.dispatcher.specs.PublicBudget.{budget_id};
ghost use Rattle.dispatcher.specs.PublicTurns.{IsSeatOf, IsFree, held_turns, handed_in};
ghost use Rattle.dispatcher.specs.Crew.{IsCrew};

use crate::budget::Budget;
use crate::place::{Came, TablePlace};
use crate::ready::ReadyList;
use crate::turns::{TurnSeat, Turns};
use crate::waking::Waking;
use std::alloc::Global;
use std::sync::Wait;
use std::thread::{Threads, for_each_mut};

// Wakes the islands that a body names, of those that there are, and puts those on the ready list that were at rest. True where some
// were. The worker itself comes for the first of them, and behind a long turn it wakes a worker that sleeps for each further one.
fn wake_peers<B: Waking, R: Wait>(
    rt: &R,
    turns: &Turns<TablePlace<B>>,
    list: &ReadyList,
    seat: &mut TurnSeat,
    peers: &[u32],
    long: bool,
) -> bool
    requires count { length (handed_in turns.now) ≡ list.now.count }
    requires seat { IsSeatOf turns.now seat.old }
    ensures { IsSeatOf turns.now seat.new × (held_turns seat.new ≡ held_turns seat.old) }
{
    let mut some = false;
    for i in 0..peers.len() {
        let peer = peers[i];
        if peer < list.count && turns.wake(seat, peer) {
            list.put(rt, peer);
            if some && long {
                list.call_one();
            }
            some = true;
        }
    }
    some
}

/// Wakes every island, before any worker is there.
pub fn wake_each<B: Waking, R: Wait>(
    rt: &R,
    turns: &Turns<TablePlace<B>>,
    list: &ReadyList,
    seat: &mut TurnSeat,
)
    requires count { length (handed_in turns.now) ≡ list.now.count }
    requires seat { IsFree turns.now seat.old }
    ensures { IsFree turns.now seat.new }
{
    for id in 0..list.count {
        if turns.wake(seat, id) {
            list.put(rt, id);
        }
    }
}

// One turn of an island, if it is ready: its turn begins, claims units, is taken, wakes others, and ends. True where the worker may go
// on, and false where memory was wanting.
fn serve<B: Waking, R: Wait>(
    rt: &R,
    alloc: Global,
    turns: &Turns<TablePlace<B>>,
    budget: &Budget,
    list: &ReadyList,
    seat: &mut TurnSeat,
    id: u32,
) -> bool
    requires crew { IsCrew turns.now (budget_id budget.now) budget.now.limit list.now.count }
    requires few { budget.now.limit ≤ MOST_COUNT }
    requires inside { id < list.now.count }
    requires seat { IsFree turns.now seat.old }
    ensures { IsFree turns.now seat.new }
{
    let Ok(mut turn) = turns.begin(seat, id) else {
        return true;
    };
    let came = turn.value().turn(alloc, budget, list);
    let some = wake_peers(rt, turns, list, seat, turn.value().wakes(&came), came.long);
    if came.again {
        turns.wake(seat, id);
    }
    if turns.end(seat, turn) {
        list.put(rt, id);
        if some && came.long {
            list.call_one();
        }
    }
    !came.broke
}

// One worker. It leaves where no island is on the list and no worker is busy, so that none will be, and where memory was wanting.
// Choice: docs/DECISIONS.md#idle-turns-wake-none
fn work<B: Waking, R: Wait>(
    rt: &R,
    alloc: Global,
    turns: &Turns<TablePlace<B>>,
    budget: &Budget,
    list: &ReadyList,
    seat: &mut TurnSeat,
)
    requires crew { IsCrew turns.now (budget_id budget.now) budget.now.limit list.now.count }
    requires few { budget.now.limit ≤ MOST_COUNT }
    requires seat { IsFree turns.now seat.old }
    ensures { IsFree turns.now seat.new }
{
    list.join();
    let mut taken = 0u32;
    for _ in rt.forever() {
        match list.take(rt) {
            Some(id) => {
                taken = list.stride(taken);
                if !serve(rt, alloc, turns, budget, list, seat, id) {
                    list.call_one();
                    list.rest();
                    break;
                }
            }
            None => {
                if !list.rest() || !list.wait(rt) {
                    break;
                }
                list.join();
            }
        }
    }
}

// Choice: docs/DECISIONS.md#threads-are-not-refused
/// A worker for each seat, each on a thread of its own where one can be made; one is on the caller's thread.
pub fn work_all<B: Waking + Send, R: Threads + Wait + Sync>(
    rt: &R,
    alloc: Global,
    turns: &Turns<TablePlace<B>>,
    budget: &Budget,
    list: &ReadyList,
    seats: &mut [TurnSeat],
)
    requires crew { IsCrew turns.now (budget_id budget.now) budget.now.limit list.now.count }
    requires few { budget.now.limit ≤ MOST_COUNT }
    requires some { 0 < length seats.old }
    requires free { All (IsFree turns.now) seats.old }
    ensures len { length seats.new ≡ length seats.old }
    ensures free { All (IsFree turns.now) seats.new }
{
    let threads = seats.len();
    for_each_mut(
        rt,
        seats,
        threads,
        &|_: usize, seat: &mut TurnSeat|
            requires { IsCrew turns.now (budget_id budget.now) budget.now.limit list.now.count × (budget.now.limit ≤ MOST_COUNT) × IsFree turns.now seat.now }
            ensures { IsFree turns.entry.now seat.exit.now }
        { work(rt, alloc, turns, budget, list, seat) },
    );
}
