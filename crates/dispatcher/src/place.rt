// A body beside its seat of the budget.
ghost use Rattle.std.specs.Prelude.{◌≡◌, ◌≤◌, false};
ghost use Rattle.elem_core.specs.declared.count.TheConstants.{MOST_COUNT};
ghost use Rattle.dispatcher.specs.PublicBudget.{budget_id, seat_id, limit_of};
ghost use Rattle.dispatcher.specs.Places.{Paid, PlaceStands, Belongs};

use crate::budget::{Budget, BudgetSeat};
use crate::origin::PlaceOrigin;
use crate::ready::ReadyList;
use crate::turn_rule::Kept;
use crate::waking::Waking;
use lane_core::turning::Turning;
use std::alloc::Global;
use std::marker::Model;
use std::snapshot::Snapshot;

// Choice: docs/DECISIONS.md#no-body-is-lost
/// A body with its seat of the budget, and the units that its turns used. Where memory was wanting in one it is broken, and takes no
/// turn any more.
#[derive(Drop)]
pub struct TablePlace<B: Turning> {
    // In memory of its own, so that a turn moves no body.
    body: Box<B>,
    seat: BudgetSeat,
    start: Snapshot<B>,
    used: u32,
    broken: bool,
    // Whether its last turn lasted, as one does that waits in a read.
    slow: bool,
    // How often in a row its turn was put off, since it may wait.
    put_off: u32,
}

impl<B: Turning> Model for TablePlace<B> {
    ghost use Rattle.std.specs.Coded.{codes};
    ghost use Rattle.dispatcher.specs.PublicBudget.{seat_id, limit_of};
    ghost use Rattle.dispatcher.specs.Places.{PlaceHolds, place_origin};
    ghost use Rattle.dispatcher.specs.declared.origin.PlaceOrigin.{PlaceOrigin};

    ghost Value = { PlaceOrigin B };

    ghost view = { λ p. place_origin p.start (seat_id p.seat) (limit_of p.seat) };

    ghost invariant = { λ p. PlaceHolds B.keeps B.goes B.breaks B.spent p.start.value p.body.value p.seat p.used p.broken };
}

impl<B: Turning> Kept for TablePlace<B> {
    type Origin = PlaceOrigin<B>;

    ghost origin = { λ p. p };
}

/// What a turn came to.
#[derive(Clone, Copy)]
pub struct Came {
    /// Whether it used some unit.
    pub told: bool,
    /// Whether it is to come again: it used up what it claimed, and that was some, or an event is left, or it was put off.
    pub again: bool,
    /// Whether it used so many units that what it woke is worth another worker.
    pub long: bool,
    /// Whether memory was wanting.
    pub broke: bool,
}

/// What a place is made of.
pub struct TableParts<B> {
    /// The body.
    pub body: B,
    /// Its seat.
    pub seat: BudgetSeat,
    /// The units that its turns used.
    pub used: u32,
    /// Whether memory was wanting in one.
    pub broken: bool,
}

impl<B: Turning> TablePlace<B> {
    /// A body that took no turn yet.
    pub fn new(body: Box<B>, seat: BudgetSeat) -> TablePlace<B>
        requires keeps { B.keeps body.value }
        requires unspent { B.spent body.value ≡ 0 }
        requires seat { Paid 0 seat }
        ensures is { (result.start.value ≡ body.value) × (result.table ≡ seat_id seat) × (result.limit ≡ limit_of seat) }
    {
        let start = Snapshot::of(body.as_ref());
        TablePlace {
            body,
            seat,
            start,
            used: 0,
            broken: false,
            slow: false,
            put_off: 0,
        }
    }

    /// One turn of at most 1000 units, all of which the budget has. After a turn in which memory was wanting there is none. A turn that
    /// may wait is put off while the list has an island that no other worker comes for, as often as there are islands: so often, at
    /// the most, is an item handed on from lane to lane.
    pub fn turn(&mut self, alloc: Global, budget: &Budget, list: &ReadyList) -> Came
        requires belongs { Belongs (budget_id budget.now) budget.now.limit self.old }
        requires few { budget.now.limit ≤ MOST_COUNT }
        ensures same { self.new ≡ self.old }
    {
        if !self.body.may_wait() {
            return self.timed_turn(alloc, budget, list);
        }
        if !list.begin_wait() && self.put_off < list.count {
            self.put_off += 1;
            list.end_wait();
            return Came {
                told: false,
                again: true,
                long: false,
                broke: false,
            };
        }
        self.put_off = 0;
        let came = self.timed_turn(alloc, budget, list);
        list.end_wait();
        came
    }

    // A turn, behind which it is known whether it lasted. Where its last one did, another worker is called first for what else is on the
    // list.
    fn timed_turn(&mut self, alloc: Global, budget: &Budget, list: &ReadyList) -> Came
        requires belongs { Belongs (budget_id budget.now) budget.now.limit self.old }
        requires few { budget.now.limit ≤ MOST_COUNT }
        ensures same { self.new ≡ self.old }
    {
        if self.slow {
            list.call_for_more();
        }
        let naps = list.naps();
        let came = self.take_turn(alloc, budget, list.long_turn());
        self.slow = list.lasted(naps);
        came
    }

    // A turn; one that uses `long` units is worth another worker for what it woke.
    fn take_turn(&mut self, alloc: Global, budget: &Budget, long: u32) -> Came
        requires belongs { Belongs (budget_id budget.now) budget.now.limit self.old }
        requires few { budget.now.limit ≤ MOST_COUNT }
        ensures same { self.new ≡ self.old }
    {
        if self.broken {
            return Came {
                told: false,
                again: false,
                long: false,
                broke: false,
            };
        }
        let granted = budget.claim(&mut self.seat);
        match self.body.turn(alloc, granted as u32) {
            Ok(used) => {
                budget.settle(&mut self.seat, used as u64);
                self.used += used;
                Came {
                    told: used > 0,
                    again: granted > 0 && (used as u64 == granted || self.body.has_event()),
                    long: used >= long,
                    broke: false,
                }
            }
            Err(_) => {
                budget.settle(&mut self.seat, 0);
                self.broken = true;
                Came {
                    told: false,
                    again: false,
                    long: false,
                    broke: true,
                }
            }
        }
    }

    /// The body and its seat.
    pub fn into_parts(self) -> TableParts<B>
        ensures seat { (seat_id result.seat ≡ self.table) × (limit_of result.seat ≡ self.limit) × Paid result.used result.seat }
        ensures stands { PlaceStands B.keeps B.goes B.breaks B.spent self.start.value result.body result.used result.broken }
    {
        let TablePlace {
            body,
            seat,
            start: _,
            used,
            broken,
            slow: _,
            put_off: _,
        } = self;
        TableParts {
            body: Box::into_inner(body),
            seat,
            used,
            broken,
        }
    }
}

impl<B: Waking> TablePlace<B> {
    /// The islands that are to be woken behind a turn: none where it used no unit.
    pub fn wakes(&self, came: &Came) -> &[u32] {
        if came.told { self.body.wakes() } else { &[] }
    }
}
