// The places of a lane, in turn.
ghost use Rattle.std.specs.Prelude.{◌≡◌, ℕ, ◌+◌, ◌%◌};

/// The place behind this one, where the last is that of the number `last`.
pub fn next_place(place: u64, last: u64) -> u64
    ensures { (k : ℕ) → place ≡ k % (last + 1) → result ≡ (k + 1) % (last + 1) }
{
    if place < last { place + 1 } else { 0 }
}
