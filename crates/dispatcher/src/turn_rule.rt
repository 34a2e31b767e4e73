// The rule of a turn table, and the names of its steps. No value of these types is made, but of `TurnPlan`.
ghost use Rattle.std.specs.Prelude.{ℕ, List, [], ◌++◌, ◌+◌, ◌-◌, length};
ghost use Rattle.dispatcher.specs.Table.{hold, OriginFits, Orderly, woken, turn_begun, turn_left, fetched, turn_ended};

use crate::hold::Hold;
use atomic_table::{Join, Play, Split, TableRule};
use std::marker::{Brand, PhantomData};
use std::snapshot::Snapshot;

/// A value that a turn table keeps. It is told from others by its origin, which is plain data and stays as it is while turns
/// change the value.
pub trait Kept: Drop {
    /// What the origin is.
    type Origin;

    /// The origin of a value.
    ghost origin: { Self → Self.Origin };
}

/// The values as they were handed in, and the number of seats.
#[derive(Drop)]
pub struct TurnPlan<T> {
    /// The values: of each its origin is known at any later time. It has no bytes.
    pub values: Snapshot<Vec<T>>,
    /// The number of seats.
    pub seats: u64,
}

/// RUNNING is set exactly where one seat has the turn of the place; where it is clear the value is in its slot.
pub struct TurnOrder<T> {
    marker: PhantomData<T>,
}

impl<T: Kept> TableRule<Option<T>, Hold, TurnPlan<T>> for TurnOrder<T> {
    ghost holds = { λ plan. Orderly (OriginFits T.origin plan.values.value.items) (length plan.values.value.items) plan.seats };

    ghost first = { λ plan. hold plan.seats [] 0 [] [] [] };
}

/// Which values a step may tell of. A call picks it.
pub trait Told<T> {
    /// The values, each at its place.
    ghost values: { List T };
}

impl<T> Told<T> for Brand {
    ghost values = { [] };
}

/// The or of READY.
pub struct Wake;

impl<T> Play<Option<T>, Hold> for Wake {
    ghost then = { woken };
}

/// The exchange of READY to RUNNING, which takes the value out of its slot.
pub struct Begin<T, J> {
    marker: PhantomData<(T, J)>,
}

impl<T: Kept, J: Told<T>> Play<Option<T>, Hold> for Begin<T, J> {
    ghost then = { turn_begun (OriginFits T.origin J.values) };
}

/// The load that gives the empty slot back.
pub struct Leave;

impl<T> Play<Option<T>, Hold> for Leave {
    ghost then = { turn_left };
}

/// The load that takes the empty slot again.
pub struct Fetch;

impl<T> Play<Option<T>, Hold> for Fetch {
    ghost then = { fetched };
}

/// The and-not of RUNNING, which puts the value into its slot.
pub struct End;

impl<T> Play<Option<T>, Hold> for End {
    ghost then = { turn_ended };
}

/// A seat is split off, and put back.
pub struct TurnDeal;

impl Split<Hold> for TurnDeal {
    ghost left = { λ v. hold (v.parts - 1) v.held v.out v.found v.began v.woke };

    ghost right = { λ v. hold 1 [] 0 [] [] [] };
}

impl Join<Hold> for TurnDeal {
    ghost both = { λ v w. hold (v.parts + w.parts) v.held v.out v.found (v.began ++ w.began) v.woke };

    ghost spent = { hold 0 [] 0 [] [] [] };
}
