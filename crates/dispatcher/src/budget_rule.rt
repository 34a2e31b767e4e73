// The rule of a budget's word, and the names of its steps. No value of these types is made, but of `Purse`.
ghost use Rattle.std.specs.Prelude.{◌+◌, ◌-◌};
ghost use Rattle.dispatcher.specs.Rule.{share, Fair, claimed, given_back, looked};

use crate::share::Share;
use atomic_table::{Join, Play, Split, TableRule};

/// The whole budget, and the number of seats.
#[derive(Drop)]
pub struct Purse {
    /// The units that may be used in all.
    pub limit: u64,
    /// The number of seats.
    pub seats: u64,
}

/// The units that were used and the claims are the word; those that were used and those that were granted are within the budget.
pub struct Fairly;

impl TableRule<(), Share, Purse> for Fairly {
    ghost holds = { λ purse. Fair purse.limit purse.seats };

    ghost first = { λ purse. share purse.seats 0 0 0 purse.limit };
}

/// The add of a claim.
pub struct Claim;

impl Play<(), Share> for Claim {
    ghost then = { claimed };
}

/// The subtraction of what was not used.
pub struct Settle;

impl Play<(), Share> for Settle {
    ghost then = { given_back };
}

/// The load.
pub struct UnitLook;

impl Play<(), Share> for UnitLook {
    ghost then = { looked };
}

/// A seat is split off, and put back.
pub struct UnitDeal;

impl Split<Share> for UnitDeal {
    ghost left = { λ v. share (v.parts - 1) v.used v.claim v.granted v.limit };

    ghost right = { λ v. share 1 0 0 0 v.limit };
}

impl Join<Share> for UnitDeal {
    ghost both = { λ v w. share (v.parts + w.parts) (v.used + w.used) 0 0 v.limit };

    ghost spent = { share 0 0 0 0 0 };
}
