// Turn tables. `wake`, `begin` and `end` take no memory, wait for nobody, and work through a shared reference.
ghost use Rattle.std.specs.Prelude.{◌≡◌, ◌==◌, ◌%◌, ◌≢◌, ℕ, ◌+◌, ◌^◌, ◌<◌, ◌≤◌, [], ◌∷◌, length, map, slice_get, IfOk, IfErr, Some, vec_len, vec_capacity, slice_index_or, IsTrue, IsSome, false, replicate};
ghost use Rattle.std.specs.Slots.{slots_items, slots_filled, slots_len, IsFull};
ghost use mathlib.Core.Option.{some};
ghost use lib.ListN.{get_elem?};
ghost use Rattle.std.specs.List.{All};
ghost use Rattle.dispatcher.specs.Sums.{times, without};
ghost use Rattle.dispatcher.specs.Table.{hold, OriginFits};

use crate::hold::Hold;
use crate::turn_rule::{Begin, End, Fetch, Kept, Leave, Told, TurnDeal, TurnOrder, TurnPlan, Wake};
use atomic_table::{Badge, Closed, Refused, Seat, Table};
use std::alloc::{AllocError, Global};
use std::marker::Brand;
use std::mem::replace;
use std::snapshot::Snapshot;

// The bit of a place that is wanted.
const READY: u64 = 1;

// The bit of a place whose turn has begun.
const RUNNING: u64 = 2;

// Choice: docs/DECISIONS.md#atomic-tables
/// Values that take turns. At every moment a value is in its slot, or its turn has begun on one seat. Each place has a word:
/// READY (1) where it is wanted, RUNNING (2) where its turn has begun.
#[derive(Drop)]
pub struct Turns<T: Kept> {
    table: Table<Option<T>, Hold, TurnPlan<T>, TurnOrder<T>, Global>,
    ghost words: { table.shared.table_id.words ≡ length table.shared.key.values.value.items },
    ghost slots: { table.shared.table_id.slots ≡ length table.shared.key.values.value.items },
}

/// The right to wake places and to take turns, for one thread at a time. It has no bytes. Contracts see the turns that have
/// begun on it and not ended, and the words that its calls found.
#[derive(Drop)]
pub struct TurnSeat {
    badge: Badge<Hold>,
}

// Choice: docs/DECISIONS.md#any-values
/// A value whose turn has begun.
#[derive(Drop)]
pub struct Turn<T> {
    pub(crate) id: u32,
    pub(crate) value: T,
}

impl<T> Turn<T> {
    /// The place of the value, from 0.
    pub fn id(&self) -> u32
        ensures { result ≡ self.now.id }
    {
        self.id
    }
}

impl<T: Kept> Turns<T> {
    ghost use Rattle.dispatcher.specs.PublicTurns.{held_turns, found_by, began_by, woke_by, NoneBegan, Woke, FindsWord, handed_in, seat_count, IsSeatOf, IsFree};

    /// A table of these values, at places from 0, each in its slot and not wanted, and so many seats, on which no turn has begun.
    /// Where memory was wanting the values come back, in order.
    pub fn new(
        alloc: Global,
        values: Vec<T>,
        seats: u32,
    ) -> Result<(Turns<T>, Vec<TurnSeat>), Vec<T>>
        requires some { 0 < vec_len values }
        requires few { vec_len values < 2 ^ 32 }
        requires seats { 0 < seats }
        ensures values { IfOk result (λ r. handed_in r.0 ≡ values.items) }
        ensures seats { IfOk result (λ r. (seat_count r.0 ≡ seats) × (vec_len r.1 ≡ seats) × All (IsFree r.0) r.1.items) }
        ensures refused { IfErr result (λ back. back.items ≡ values.items) }
    {
        let Ok(room) = TableRoom::of(alloc, values.len(), seats) else {
            return Err(values);
        };
        let TableRoom {
            words,
            slots,
            seats: free,
            back,
        } = room;
        let plan = TurnPlan {
            values: Snapshot::of(&values),
            seats: seats as u64,
        };
        match Table::new(alloc, words.as_slice(), wrap(values, slots), &plan) {
            Ok((table, first)) => {
                let turns = Turns { table };
                let seats = turns.deal(first, seats, free);
                Ok((turns, seats))
            }
            Err(Refused { slots }) => Err(unwrap_all(slots, back)),
        }
    }

    /// The first seat, which has all parts, is cut into so many.
    fn deal(
        &self,
        mut first: Seat<Option<T>, Hold>,
        count: u32,
        mut seats: Vec<TurnSeat>,
    ) -> Vec<TurnSeat>
        requires count { 0 < count }
        requires first { (first.table_id ≡ self.now.table.shared.table_id) × (first.me ≡ (hold count [] 0 [] [] [], [])) }
        requires inside { 0 < length (handed_in self.now) }
        requires room { (seats.items ≡ []) × (count ≤ vec_capacity seats) }
        ensures { (vec_len result ≡ count) × All (IsFree self.now) result.items }
    {
        for _ in 1..count {
            let other = self.table.shared.split_seat::<TurnDeal>(&mut first);
            seats.push_reserved(TurnSeat {
                badge: other.into_badge(),
            });
        }
        seats.push_reserved(TurnSeat {
            badge: first.into_badge(),
        });
        seats
    }

    /// The values in order, each with the origin that was handed in for its place, in the room that is handed in: it takes no
    /// memory. It wants all seats of the table, and that each turn has ended.
    pub fn close(self, seats: Vec<TurnSeat>, room: Vec<T>) -> Vec<T>
        requires all { vec_len seats ≡ seat_count self }
        requires free { All (IsFree self) seats.items }
        requires some { (0 < vec_len seats) × (0 < length (handed_in self)) }
        requires room { (room.items ≡ []) × (length (handed_in self) ≤ vec_capacity room) }
        ensures { map T.origin result.items ≡ map T.origin (handed_in self) }
    {
        let seat = self.gather(seats);
        let Turns { table } = self;
        let closed = table.close_with(seat);
        take_all(closed, room)
    }

    /// All these seats as one.
    fn gather(&self, mut seats: Vec<TurnSeat>) -> Seat<Option<T>, Hold>
        requires some { (0 < vec_len seats) × (0 < length (handed_in self.now)) }
        requires free { All (IsFree self.now) seats.items }
        ensures { (result.table_id ≡ self.now.table.shared.table_id) × (result.me ≡
            (hold (vec_len seats) [] 0 result.me.0.found result.me.0.began result.me.0.woke, [])) }
    {
        let mut all = seats.pop().unwrap().badge.into_seat();
        while let Some(TurnSeat { badge }) = seats.pop() {
            self.table
                .shared
                .join_seat::<TurnDeal>(&mut all, badge.into_seat());
        }
        all
    }

    // Choice: docs/DECISIONS.md#wakes-count-turns
    /// Marks a place as wanted: an or of READY. True exactly where the word was 0, so that the caller puts the place on its
    /// list. One step; it waits for nobody.
    pub fn wake(&self, seat: &mut TurnSeat, id: u32) -> bool
        requires seat { IsSeatOf self.now seat.old }
        requires inside { id < length (handed_in self.now) }
        ensures seat { IsSeatOf self.now seat.new × (held_turns seat.new ≡ held_turns seat.old) }
        ensures found { FindsWord id (λ w. result ≡ (w == 0)) seat.old seat.new }
        ensures woke { Woke id seat.old seat.new }
    {
        let mut mine = replace(&mut seat.badge, Badge::blank()).into_seat();
        let found = self
            .table
            .shared
            .fetch_or::<Wake>(&mut mine, id as usize, READY);
        seat.badge = mine.into_badge();
        found == 0
    }

    // Choice: docs/DECISIONS.md#one-load-more
    /// Begins the turn of a place that is wanted and whose turn has not begun: an exchange of READY to RUNNING, by which the seat
    /// alone has the value. Or else the word that was found, which is another one. It waits for nobody.
    pub fn begin(&self, seat: &mut TurnSeat, id: u32) -> Result<Turn<T>, u64>
        requires seat { IsSeatOf self.now seat.old }
        requires inside { id < length (handed_in self.now) }
        ensures seat { IsSeatOf self.now seat.new }
        ensures turn { IfOk result (λ t. (t.id ≡ id) × OriginFits T.origin (handed_in self.now) id t.value × (held_turns seat.new ≡ id ∷ held_turns seat.old)
            × (found_by seat.new ≡ (id, 1) ∷ found_by seat.old) × (began_by seat.new ≡ id ∷ began_by seat.old) × (woke_by seat.new ≡ woke_by seat.old)) }
        ensures none { IfErr result (λ w. (w ≢ 1) × (held_turns seat.new ≡ held_turns seat.old) × (found_by seat.new ≡ (id, w) ∷ found_by seat.old)
            × NoneBegan seat.old seat.new) }
    {
        let mut mine = replace(&mut seat.badge, Badge::blank()).into_seat();
        let taken = self.take_out::<Brand>(&mut mine, id);
        seat.badge = mine.into_badge();
        let value = taken?;
        Ok(Turn { id, value })
    }

    /// The value out of its slot, which stays in the table.
    fn take_out<J: Told<T>>(&self, mine: &mut Seat<Option<T>, Hold>, id: u32) -> Result<T, u64>
        requires told { J.values ≡ handed_in self.now }
        requires seat { (mine.old.table_id ≡ self.now.table.shared.table_id) × (mine.old.me ≡
            (hold 1 mine.old.me.0.held 0 mine.old.me.0.found mine.old.me.0.began mine.old.me.0.woke, [])) }
        requires inside { id < length (handed_in self.now) }
        ensures seat { (mine.new.table_id ≡ mine.old.table_id) × (mine.new.id ≡ mine.old.id) }
        ensures taken { IfOk result (λ x. OriginFits T.origin (handed_in self.now) id x
            × (mine.new.me ≡ (hold 1 (id ∷ mine.old.me.0.held) 0 ((id, 1) ∷ mine.old.me.0.found) (id ∷ mine.old.me.0.began) mine.old.me.0.woke, []))) }
        ensures none { IfErr result (λ w. (w ≢ 1) × (mine.new.me ≡ (
          hold 1 mine.old.me.0.held 0
              ((id, w) ∷ mine.old.me.0.found) mine.old.me.0.began mine.old.me.0.woke,
          [],
        ))) }
    {
        let shared = &self.table.shared;
        let at = id as usize;
        let found = shared.compare_exchange::<Begin<T, J>>(mine, at, READY, RUNNING);
        if found != READY {
            return Err(found);
        }
        let value = shared.exchange(mine, at, None).unwrap();
        shared.load::<Leave>(mine, at);
        Ok(value)
    }

    /// Puts the value back and ends its turn, which has begun on this seat: an and-not of RUNNING. True exactly where the word
    /// had READY, so that the caller puts the place on its list. It waits for nobody.
    pub fn end(&self, seat: &mut TurnSeat, turn: Turn<T>) -> bool
        requires seat { IsSeatOf self.now seat.old }
        requires begun { 0 < times turn.id (held_turns seat.old) }
        requires inside { turn.id < length (handed_in self.now) }
        requires origin { OriginFits T.origin (handed_in self.now) turn.id turn.value }
        ensures seat { IsSeatOf self.now seat.new × (held_turns seat.new ≡ without turn.id (held_turns seat.old)) }
        ensures found { FindsWord turn.id (λ w. result ≡ (w % 2 == 1)) seat.old seat.new }
        ensures none { NoneBegan seat.old seat.new }
    {
        let Turn { id, value } = turn;
        let shared = &self.table.shared;
        let at = id as usize;
        let mut mine: Seat<Option<T>, Hold> = replace(&mut seat.badge, Badge::blank()).into_seat();
        shared.load::<Fetch>(&mut mine, at);
        let None = shared.exchange(&mut mine, at, Some(value)) else {
            unreachable!()
        };
        let found = shared.fetch_and::<End>(&mut mine, at, !RUNNING);
        seat.badge = mine.into_badge();
        found % 2 == 1
    }
}

// All the memory that a table of so many values takes but the table itself.
struct TableRoom<T> {
    words: Vec<u64>,
    slots: Vec<Option<T>>,
    seats: Vec<TurnSeat>,
    back: Vec<T>,
}

impl<T: Drop> TableRoom<T> {
    fn of(alloc: Global, count: usize, seats: u32) -> Result<TableRoom<T>, AllocError>
        ensures words { IfOk result (λ r. r.words.items ≡ replicate count 0) }
        ensures slots { IfOk result (λ r. (r.slots.items ≡ []) × (count ≤ vec_capacity r.slots)) }
        ensures seats { IfOk result (λ r. (r.seats.items ≡ []) × (seats ≤ vec_capacity r.seats)) }
        ensures back { IfOk result (λ r. (r.back.items ≡ []) × (count ≤ vec_capacity r.back)) }
    {
        Ok(TableRoom {
            words: Vec::from_elem(alloc, 0u64, count)?,
            slots: Vec::with_capacity(alloc, count)?,
            seats: Vec::with_capacity(alloc, seats as usize)?,
            back: Vec::with_capacity(alloc, count)?,
        })
    }
}

// Each value as it stands in a slot, in order.
fn wrap<T: Drop>(values: Vec<T>, mut slots: Vec<Option<T>>) -> Vec<Option<T>>
    requires room { (slots.items ≡ []) × (vec_len values ≤ vec_capacity slots) }
    ensures { result.items ≡ map Some values.items }
{
    for value in values {
        slots.push_reserved(Some(value));
    }
    slots
}

// The values as they stood in the slots, in order.
fn unwrap_all<T: Drop>(slots: Vec<Option<T>>, mut values: Vec<T>) -> Vec<T>
    requires full { All IsSome slots.items }
    requires room { (values.items ≡ []) × (vec_len slots ≤ vec_capacity values) }
    ensures { map Some result.items ≡ slots.items }
{
    for slot in slots {
        values.push_reserved(slot.unwrap());
    }
    values
}

// The values out of all slots, in order.
fn take_all<T: Drop>(mut closed: Closed<Option<T>, Global>, mut values: Vec<T>) -> Vec<T>
    requires full { IsFull closed.slots }
    requires room { (values.items ≡ []) × (slots_len closed.slots ≤ vec_capacity values) }
    requires each { (k : ℕ) → k < slots_len closed.slots → (x : T) × (get_elem? (slots_items closed.slots) k ≡ some (Some x)) }
    ensures { map Some result.items ≡ slots_items closed.slots }
{
    for i in 0..closed.slot_count() {
        values.push_reserved(closed.take(i).unwrap());
    }
    closed.free();
    values
}
