// What the calls of a turn table find, by the word of a place: READY is 1 and RUNNING is 2.
ghost use Rattle.std.specs.Prelude.{◌≡◌, ◌<◌, ◌∷◌, [], IfSome, IsTrue, length};
ghost use Rattle.std.specs.List.{All};
ghost use Rattle.dispatcher.specs.Table.{OriginFits};
ghost use Rattle.dispatcher.specs.PublicTurns.{held_turns, handed_in, IsSeatOf, IsFree};

use dispatcher::turn_rule::Kept;
use dispatcher::turns::{Turn, TurnSeat, Turns};
use elem_core::why::NoMemory;
use std::alloc::{AllocError, Global};
use std::test::Fail;

/// A number that takes turns.
#[derive(Drop)]
struct Ticket {
    number: u64,
}

impl Kept for Ticket {
    type Origin = u64;

    ghost origin = { λ t. t.number };
}

// The last of these seats.
fn last_seat(turns: &Turns<Ticket>, seats: &mut Vec<TurnSeat>) -> Option<TurnSeat>
    requires free { All (IsFree turns.now) seats.old.items }
    ensures left { All (IsFree turns.now) seats.new.items }
    ensures seat { IfSome result (IsFree turns.now) }
{
    seats.pop()
}

// The turn of place 0, which begins once it was woken.
fn begins_once_woken(turns: &Turns<Ticket>, seat: &mut TurnSeat) -> Option<Turn<Ticket>>
    requires seat { IsFree turns.now seat.old }
    requires inside { 0 < length (handed_in turns.now) }
    ensures turn { IfSome result (λ t. (t.id ≡ 0) × OriginFits (λ x. x.number) (handed_in turns.now) 0 t.value) }
    ensures held { IfSome result (λ _. IsSeatOf turns.now seat.new × (held_turns seat.new ≡ 0 ∷ [])) }
{
    let Err(0) = turns.begin(seat, 0) else {
        return None;
    };
    if !turns.wake(seat, 0) || turns.wake(seat, 0) {
        return None;
    }
    turns.begin(seat, 0).ok()
}

// Whether no other turn of place 0 begins meanwhile, and a wake is kept for it.
fn waits_meanwhile(turns: &Turns<Ticket>, seat: &mut TurnSeat) -> bool
    requires seat { IsFree turns.now seat.old }
    requires inside { 0 < length (handed_in turns.now) }
    ensures { IsTrue result → IsFree turns.now seat.new }
{
    let Err(2) = turns.begin(seat, 0) else {
        return false;
    };
    if turns.wake(seat, 0) {
        return false;
    }
    matches!(turns.begin(seat, 0), Err(3))
}

// Whether the turn ends with that wake, and the next one, on another seat, without any.
fn ends_twice(
    turns: &Turns<Ticket>,
    one: &mut TurnSeat,
    two: &mut TurnSeat,
    turn: Turn<Ticket>,
) -> bool
    requires one { IsSeatOf turns.now one.old × (held_turns one.old ≡ 0 ∷ []) }
    requires two { IsFree turns.now two.old }
    requires turn { (turn.id ≡ 0) × OriginFits (λ x. x.number) (handed_in turns.now) 0 turn.value }
    requires inside { 0 < length (handed_in turns.now) }
    ensures { IsTrue result → IsFree turns.now one.new × IsFree turns.now two.new }
{
    if !turns.end(one, turn) {
        return false;
    }
    let Ok(next) = turns.begin(two, 0) else {
        return false;
    };
    !turns.end(two, next)
}

// Whether the value comes back from a table of one value and two seats on which all this was so.
fn goes_round(alloc: Global) -> Result<bool, NoMemory> {
    let values = vec![in alloc; Ticket { number: 7 }]?;
    let Ok((turns, mut seats)) = Turns::new(alloc, values, 2) else {
        return Err(AllocError);
    };
    let Some(mut one) = last_seat(&turns, &mut seats) else {
        return Ok(false);
    };
    let Some(mut two) = last_seat(&turns, &mut seats) else {
        return Ok(false);
    };
    let Some(turn) = begins_once_woken(&turns, &mut one) else {
        return Ok(false);
    };
    if !waits_meanwhile(&turns, &mut two) || !ends_twice(&turns, &mut one, &mut two, turn) {
        return Ok(false);
    }
    let seats = vec![in alloc; one, two]?;
    let back = turns.close(seats, Vec::with_capacity(alloc, 1)?);
    Ok(back.len() == 1 && back.iter().all(|ticket| ticket.number == 7))
}

#[test]
fn a_table_of_one_value(rt: HostRuntime) -> Result<(), Fail> {
    assert!(rt; goes_round(rt.alloc())?);
    Ok(())
}
