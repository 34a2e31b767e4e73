// The rule of a switch's word, and the names of its steps. No value of these types is made.
ghost use Rattle.std.specs.Prelude.{◌+◌, ◌-◌, [], ◌++◌};
ghost use Rattle.stage_switch.specs.Rule.{known, OneOrder, looked, ordered};

use crate::known::Known;
use atomic_table::{Join, Play, Split, TableRule};

/// At most one order stands, which one of the seats gave. The key is the number of seats.
pub struct OnceOrdered;

impl TableRule<(), Known, u64> for OnceOrdered {
    ghost holds = { OneOrder };

    ghost first = { λ seats. known seats seats [] [] 0 };
}

/// The load.
pub struct OrderLook;

impl Play<(), Known> for OrderLook {
    ghost then = { looked };
}

/// The exchange of no order to an order.
pub struct Give;

impl Play<(), Known> for Give {
    ghost then = { ordered };
}

/// A seat is split off, and put back.
pub struct OrderDeal;

impl Split<Known> for OrderDeal {
    ghost left = { λ v. known (v.parts - 1) v.all v.gave v.knows v.looks };

    ghost right = { λ v. known 1 v.all [] [] 0 };
}

impl Join<Known> for OrderDeal {
    ghost both = { λ v w. known (v.parts + w.parts) v.all (v.gave ++ w.gave) (v.knows ++ w.knows) (v.looks + w.looks) };

    ghost spent = { known 0 0 [] [] 0 };
}
