// Budgets: one word, to which each seat adds its claim, and from which it takes what it did not use.
ghost use Rattle.std.specs.Prelude.{◌≡◌, ◌+◌, ◌*◌, ◌^◌, ◌<◌, ◌≤◌, [], IfOk, vec_len, vec_capacity};
ghost use Rattle.std.specs.List.{All};
ghost use Rattle.dispatcher.specs.Rule.{share};

use crate::budget_rule::{Claim, Fairly, Purse, Settle, UnitDeal, UnitLook};
use crate::share::Share;
use atomic_table::{Seat, Table};
use std::alloc::{AllocError, Global};
use std::cmp::min;

/// What one claim asks for, in units.
pub const MOST: u64 = 1000;

// Choice: docs/DECISIONS.md#budget-is-a-table
/// A number of units that many seats draw on at once, each by single atomic steps.
#[derive(Drop)]
pub struct Budget {
    table: Table<(), Share, Purse, Fairly, Global>,
    limit: u64,
    ghost words: { table.shared.table_id.words ≡ 1 },
    ghost limit_is: { limit ≡ table.shared.key.limit },
}

/// The right to draw on a budget. It has no bytes. Contracts see the units that were used with it, and its claim.
#[derive(Drop)]
pub struct BudgetSeat {
    seat: Seat<(), Share>,
}

impl Budget {
    ghost use Rattle.dispatcher.specs.PublicBudget.{budget_id, seat_id, used_by, budget_parts, limit_of, granted_to, HasNoClaim};

    /// A budget of so many units, and its first seat, which has all parts and used none. No other call takes memory.
    pub fn new(alloc: Global, limit: u64, seats: u32) -> Result<(Budget, BudgetSeat), AllocError>
        requires { limit < 2 ^ 61 }
        ensures seat { IfOk result (λ r. (seat_id r.1 ≡ budget_id r.0) × HasNoClaim r.1 × (budget_parts r.1 ≡ seats) × (used_by r.1 ≡ 0)
            × (limit_of r.1 ≡ limit)) }
        ensures limit { IfOk result (λ r. r.0.limit ≡ limit) }
    {
        let purse = Purse {
            limit,
            seats: seats as u64,
        };
        let (table, seat) = Table::of_words(alloc, &[0], &purse)?;
        Ok((Budget { table, limit }, BudgetSeat { seat }))
    }

    /// A seat with one part of this one, which used none.
    pub fn split(&self, seat: &mut BudgetSeat) -> BudgetSeat
        requires seat { (seat_id seat.old ≡ budget_id self.now) × HasNoClaim seat.old }
        requires parts { 1 < budget_parts seat.old }
        ensures seat { (seat_id seat.new ≡ budget_id self.now) × HasNoClaim seat.new × (budget_parts seat.new + 1 ≡ budget_parts seat.old)
            × (used_by seat.new ≡ used_by seat.old) × (limit_of seat.new ≡ limit_of seat.old) }
        ensures given { (seat_id result ≡ budget_id self.now) × HasNoClaim result × (budget_parts result ≡ 1) × (used_by result ≡ 0)
            × (limit_of result ≡ limit_of seat.old) }
    {
        BudgetSeat {
            seat: self.table.shared.split_seat::<UnitDeal>(&mut seat.seat),
        }
    }

    /// Puts two seats together, neither of which has a claim: their parts, and the units that were used with them.
    pub fn join(&self, seat: &mut BudgetSeat, other: BudgetSeat)
        requires seat { (seat_id seat.old ≡ budget_id self.now) × HasNoClaim seat.old }
        requires part { 0 < budget_parts seat.old }
        requires other { (seat_id other ≡ budget_id self.now) × HasNoClaim other }
        ensures { (seat_id seat.new ≡ budget_id self.now) × HasNoClaim seat.new × (budget_parts seat.new ≡ budget_parts seat.old + budget_parts other)
            × (used_by seat.new ≡ used_by seat.old + used_by other) × (limit_of seat.new ≡ limit_of seat.old) }
    {
        let BudgetSeat { seat: other } = other;
        self.table
            .shared
            .join_seat::<UnitDeal>(&mut seat.seat, other);
    }

    /// Claims 1000 units, and answers how many of them may be used: never more than is left of the budget. One step; it waits for
    /// nobody.
    pub fn claim(&self, seat: &mut BudgetSeat) -> u64
        requires seat { (seat_id seat.old ≡ budget_id self.now) × HasNoClaim seat.old }
        requires part { 0 < budget_parts seat.old }
        requires limit { limit_of seat.old ≡ self.now.limit }
        ensures most { result ≤ 1000 }
        ensures within { used_by seat.old + result ≤ limit_of seat.old }
        ensures seat { (seat_id seat.new ≡ budget_id self.now) × (seat.new.seat.me ≡
            (share (budget_parts seat.old) (used_by seat.old) 1000 result (limit_of seat.old), [])) }
    {
        let found = self
            .table
            .shared
            .fetch_add::<Claim>(&mut seat.seat, 0, MOST);
        min(MOST, self.limit.saturating_sub(found))
    }

    /// Ends a claim, of which so many units were used: gives back the others. One step; it waits for nobody.
    pub fn settle(&self, seat: &mut BudgetSeat, used: u64)
        requires seat { (seat_id seat.old ≡ budget_id self.now) × (seat.old.seat.me ≡
            (share (budget_parts seat.old) (used_by seat.old) 1000 (granted_to seat.old) (limit_of seat.old), [])) }
        requires part { 0 < budget_parts seat.old }
        requires used { (used ≤ granted_to seat.old) × (used ≤ 1000) }
        ensures { (seat_id seat.new ≡ budget_id self.now) × HasNoClaim seat.new × (budget_parts seat.new ≡ budget_parts seat.old)
            × (used_by seat.new ≡ used_by seat.old + used) × (limit_of seat.new ≡ limit_of seat.old) }
    {
        self.table
            .shared
            .fetch_sub::<Settle>(&mut seat.seat, 0, MOST - used);
    }

    /// That the units of a seat are within the budget. Where it has all parts these are the units of all. One step.
    pub fn look(&self, seat: &mut BudgetSeat)
        requires { (seat_id seat.old ≡ budget_id self.now) × HasNoClaim seat.old × (0 < budget_parts seat.old) }
        ensures { (seat_id seat.new ≡ budget_id self.now) × (seat.new.seat.me ≡ seat.old.seat.me) × (used_by seat.old ≤ limit_of seat.old) }
    {
        self.table.shared.load::<UnitLook>(&mut seat.seat, 0);
    }
}
