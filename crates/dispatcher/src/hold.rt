// What a seat of a turn table holds.
ghost use Rattle.std.specs.Prelude.{ℕ, List};
ghost use Rattle.std.specs.Borrow.{ftrue};

use std::marker::Model;

// Choice: docs/DECISIONS.md#words-are-kept
/// What a seat holds, and what it found. No value of it is made.
pub struct Hold {
    /// Its parts of all seats: 1, until seats are gathered.
    pub ghost parts: { ℕ },
    /// The places whose turn it has.
    pub ghost held: { List ℕ },
    /// One more than the place whose slot is with it, or 0.
    pub ghost out: { ℕ },
    /// Each step that it made for a wake, a begin or an end: the place, and the word that was found there. The latest first.
    pub ghost found: { List (ℕ × ℕ) },
    /// The place of each turn that ever began on it. The latest first.
    pub ghost began: { List ℕ },
    /// Of each wake that it made: the place, and how many turns of that place had begun by then. The latest first.
    pub ghost woke: { List (ℕ × ℕ) },
}

impl Model for Hold {
    ghost also_owns = { λ _. ftrue };
}
