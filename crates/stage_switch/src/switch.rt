// Kill switches.
ghost use Rattle.std.specs.Prelude.{◌≡◌, ◌≢◌, ◌+◌, ◌<◌, ◌≤◌, [], ◌∷◌, Some, None, IfOk, IfSome, IfNone, vec_len, vec_capacity, length, map};
ghost use Rattle.std.specs.List.{All};
ghost use Rattle.stage_switch.specs.declared.order.Order.TheVariants.{Shutdown, Abort};
ghost use Rattle.stage_switch.specs.Rule.{known, code, orders_at, first_order, GivesOrder};
ghost use Rattle.stage_switch.specs.Public.{IsSeatOf, IsNewSeat, AnswersOrder, GaveIt, Gathers};

use crate::known::Known;
use crate::order::Order;
use crate::rule::{Give, OnceOrdered, OrderDeal, OrderLook};
use crate::seat::SwitchSeat;
use atomic_table::{Seat, Table};
use std::alloc::{AllocError, Global};
use std::marker::Model;

/// A kill switch: one word, which is 0, or 1 for Shutdown or 2 for Abort once that was ordered. Contracts see its identity
/// and the number of its seats.
#[derive(Drop)]
pub struct Switch {
    table: Table<(), Known, u64, OnceOrdered, Global>,
    ghost words: { table.shared.table_id.words ≡ 1 },
}

impl Model for Switch {
    ghost use Rattle.std.specs.Coded.{codes};
    ghost use Rattle.atomic_table.specs.Seated.{table_id_coded};
    ghost use Rattle.stage_switch.specs.Public.{SwitchState};

    ghost Value = { SwitchState };

    ghost coded = { Prim.hlevel (codes, table_id_coded) };

    ghost view = { λ s. record { id = s.table.shared.table_id; seats = s.table.shared.key } };
}

impl Switch {
    /// A switch without an order, and so many seats, which gave and know nothing. No other call takes memory.
    pub fn new(alloc: Global, seats: u32) -> Result<(Switch, Vec<SwitchSeat>), AllocError>
        requires some { 0 < seats }
        ensures seats { IfOk result (λ r. (r.0.seats ≡ seats) × (vec_len r.1 ≡ seats) × All (IsNewSeat r.0) r.1.items) }
    {
        let count = seats as u64;
        let dealt = Vec::with_capacity(alloc, seats as usize)?;
        let (table, first) = Table::of_words(alloc, &[0], &count)?;
        let switch = Switch { table };
        let seats = switch.deal(first, seats, dealt);
        Ok((switch, seats))
    }

    /// The first seat, which has all parts, is cut into so many.
    fn deal(
        &self,
        mut first: Seat<(), Known>,
        count: u32,
        mut seats: Vec<SwitchSeat>,
    ) -> Vec<SwitchSeat>
        requires some { 0 < count }
        requires first { (first.table_id ≡ self.now.id) × (first.me ≡ (known count self.now.seats [] [] 0, [])) }
        requires room { (seats.items ≡ []) × (count ≤ vec_capacity seats) }
        ensures { (vec_len result ≡ count) × All (IsNewSeat self.now) result.items }
    {
        for _ in 1..count {
            let other = self.table.shared.split_seat::<OrderDeal>(&mut first);
            seats.push_reserved(SwitchSeat { seat: other });
        }
        seats.push_reserved(SwitchSeat { seat: first });
        seats
    }

    /// Orders a shutdown, unless an order stands. The order that stands: this one exactly where none stood before, and then
    /// this seat gave it. One step; it waits for nobody.
    pub fn shutdown(&self, seat: &mut SwitchSeat) -> Order
        requires { IsSeatOf self.now seat.old }
        ensures { AnswersOrder Shutdown result seat.old seat.new }
    {
        self.give(&mut seat.seat, Order::Shutdown)
    }

    /// Orders an abort, unless an order stands, and answers as `shutdown` does. One step; it waits for nobody.
    pub fn abort(&self, seat: &mut SwitchSeat) -> Order
        requires { IsSeatOf self.now seat.old }
        ensures { AnswersOrder Abort result seat.old seat.new }
    {
        self.give(&mut seat.seat, Order::Abort)
    }

    /// Exchanges no order for this one.
    fn give(&self, seat: &mut Seat<(), Known>, order: Order) -> Order
        requires { (seat.old.table_id ≡ self.now.id) × (1 ≤ seat.old.me.0.parts) }
        ensures { (seat.new.table_id ≡ seat.old.table_id) × GivesOrder order result seat.old.me seat.new.me }
    {
        let found = self
            .table
            .shared
            .compare_exchange::<Give>(seat, 0, 0, number(order));
        match order_at(found) {
            None => order,
            Some(other) => other,
        }
    }

    /// The order that stands, if one does. One step; it waits for nobody.
    pub fn look(&self, seat: &mut SwitchSeat) -> Option<Order>
        requires { IsSeatOf self.now seat.old }
        ensures seat { (seat.new.switch ≡ seat.old.switch) × (seat.new.gave ≡ seat.old.gave) × (seat.new.looks ≡ seat.old.looks + 1) }
        ensures found { seat.new.knows ≡ result }
        ensures one { IfSome seat.old.knows (λ o. result ≡ Some o) }
    {
        order_at(self.table.shared.load::<OrderLook>(&mut seat.seat, 0))
    }

    /// The order that stands, if one does, once all seats are put together: each order that one of them knew is this one, and one of
    /// them gave it. It takes no memory.
    pub fn settle(&self, seats: Vec<SwitchSeat>) -> Option<Order>
        requires all { vec_len seats ≡ self.now.seats }
        requires some { 0 < self.now.seats }
        requires seats { All (IsSeatOf self.now) seats.items }
        ensures known { All (λ s. IfSome s.knows (λ o. result ≡ Some o)) seats.items }
        ensures given { IfSome result (λ o. GaveIt o seats.items) }
    {
        let mut all = self.gather(seats);
        order_at(self.table.shared.load::<OrderLook>(&mut all, 0))
    }

    /// All these seats as one.
    fn gather(&self, mut seats: Vec<SwitchSeat>) -> Seat<(), Known>
        requires some { 0 < vec_len seats }
        requires seats { All (IsSeatOf self.now) seats.items }
        ensures seat { (result.table_id ≡ self.now.id) × (result.me.1 ≡ []) × (result.me.0.parts ≡ vec_len seats) × (result.me.0.all ≡ self.now.seats) }
        ensures gathers { Gathers result.me.0 seats.items }
    {
        let mut all = seats.pop().unwrap().into_seat();
        while let Some(seat) = seats.pop() {
            self.table
                .shared
                .join_seat::<OrderDeal>(&mut all, seat.into_seat());
        }
        all
    }
}

/// The word of an order.
fn number(order: Order) -> u64
    ensures { result ≡ code order }
{
    match order {
        Order::Shutdown => 1,
        Order::Abort => 2,
    }
}

/// The order of a word.
fn order_at(word: u64) -> Option<Order>
    requires { word ≤ 2 }
    ensures { result ≡ first_order (orders_at word) }
{
    match word {
        0 => None,
        1 => Some(Order::Shutdown),
        _ => Some(Order::Abort),
    }
}
