// The seats of a switch.
ghost use Rattle.std.specs.Prelude.{◌≡◌, []};
ghost use Rattle.stage_switch.specs.Rule.{first_order};

use crate::known::Known;
use atomic_table::Seat;
use std::marker::Model;

// Choice: docs/DECISIONS.md#loads-are-counted
/// The right to step on a switch, of one of its trips or valves. It has no bytes. Contracts see which switch it is of, the
/// order that it gave, the one that it knows, and how often it looked.
#[derive(Drop)]
pub struct SwitchSeat {
    pub(crate) seat: Seat<(), Known>,
}

impl Model for SwitchSeat {
    ghost use Rattle.std.specs.Prelude.{◌≡◌, []};
    ghost use Rattle.stage_switch.specs.Rule.{first_order};
    ghost use Rattle.std.specs.Coded.{codes};
    ghost use Rattle.atomic_table.specs.Seated.{table_id_coded};
    ghost use Rattle.stage_switch.specs.Public.{SeatState};

    ghost Value = { SeatState };

    ghost coded = { Prim.hlevel (codes, table_id_coded) };

    ghost view = { λ s. record {
      switch = record { id = s.seat.table_id; seats = s.seat.me.0.all };
      gave = first_order s.seat.me.0.gave;
      knows = first_order s.seat.me.0.knows;
      looks = s.seat.me.0.looks;
    } };

    ghost invariant = { λ s. (s.seat.me.1 ≡ []) × (s.seat.me.0.parts ≡ 1) };
}

impl SwitchSeat {
    /// The seat at the table.
    pub(crate) fn into_seat(self) -> Seat<(), Known>
        ensures seat { (result.table_id ≡ self.switch.id) × (result.me.1 ≡ []) × (result.me.0.parts ≡ 1) × (result.me.0.all ≡ self.switch.seats) }
        ensures orders { (first_order result.me.0.gave ≡ self.gave) × (first_order result.me.0.knows ≡ self.knows) × (result.me.0.looks ≡ self.looks) }
    {
        self.seat
    }
}
