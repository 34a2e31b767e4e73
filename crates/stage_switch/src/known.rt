// What a seat of a switch knows.
ghost use Rattle.std.specs.Prelude.{ℕ, List};
ghost use Rattle.std.specs.Borrow.{ftrue};
ghost use Rattle.stage_switch.specs.declared.order.Order.{Order};

use std::marker::Model;

// Choice: docs/DECISIONS.md#known-orders
/// What a seat of a switch gave and knows. No value of it is made. A seat that others were joined into has what each of them had.
pub struct Known {
    /// Its parts of all seats.
    pub ghost parts: { ℕ },
    /// How many seats were made.
    pub ghost all: { ℕ },
    /// The orders that it gave.
    pub ghost gave: { List Order },
    /// The orders that it knows.
    pub ghost knows: { List Order },
    /// How many loads it made.
    pub ghost looks: { ℕ },
}

impl Model for Known {
    ghost also_owns = { λ _. ftrue };
}
