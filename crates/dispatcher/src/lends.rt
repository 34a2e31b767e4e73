// `value` has a file of its own: its clause names the row of `Turn`, which the file that declares `Turn` cannot import.
ghost use Rattle.std.specs.Prelude.{◌≡◌};
ghost use Rattle.std.specs.Borrow.{Lends, sem};
ghost use Rattle.dispatcher.specs.contracts.turns.Turn.{the_row};
ghost use Rattle.dispatcher.specs.Lent.{turn_with};

use crate::turns::Turn;

impl<T> Turn<T> {
    /// The value. What is written through it stays.
    pub fn value(&mut self) -> &mut T
        ensures* writes_back { sem 𝓛 (Lends (the_row T.row) T.row self.entry result (turn_with self.old.id)) }
        ensures value { result.now ≡ self.old.value }
    {
        &mut self.value
    }
}
