// What a seat of a budget knows.
ghost use Rattle.std.specs.Prelude.{ℕ};
ghost use Rattle.std.specs.Borrow.{ftrue};

use std::marker::Model;

/// What a seat used, and what it claims. No value of it is made.
pub struct Share {
    /// Its parts of all seats.
    pub ghost parts: { ℕ },
    /// The units that were used with it.
    pub ghost used: { ℕ },
    /// What it claims.
    pub ghost claim: { ℕ },
    /// What it may use of its claim.
    pub ghost granted: { ℕ },
    /// The whole budget.
    pub ghost limit: { ℕ },
}

impl Model for Share {
    ghost also_owns = { λ _. ftrue };
}
