// The end of a lane that takes.
ghost use Rattle.std.specs.Prelude.{◌≡◌, ℕ, ◌+◌, ◌-◌, ◌^◌, ◌%◌, ◌<◌, ◌≤◌, true, false, cond, length, IfSome, IfNone};
ghost use Rattle.std.specs.Arc.{arc_value};
ghost use Rattle.lane_core.specs.Lane.{weight, empty_hand, HasTaken, HasFound};
ghost use Rattle.elem_core.specs.Items.{elements};

use crate::ring::next_place;
use crate::sight::{
    ASKED, Ask, Cancel, Compare, LaneRule, LaneSeat, LaneTable, Note, SENT, SeeSent, Sight,
};
use atomic_table::Shared;
use elem_core::item::Item;
use std::sync::Arc;

// Choice: docs/DECISIONS.md#last-place-goes-back
/// The end of a lane that takes items. It may be moved to another thread.
#[derive(Drop)]
pub struct LaneIn {
    pub(crate) table: Arc<LaneTable>,
    pub(crate) seat: LaneSeat,
    size: u64,
    // How many items were taken.
    pub(crate) taken: u64,
    // The place of the next one.
    place: u64,
    // How many elements were asked for.
    pub(crate) asked: u64,
    pub(crate) cancelled: bool,
    ghost same_table: { (seat.table_id ≡ (arc_value table).shared.table_id) × ((arc_value table).shared.key ≡ size) × (seat.table_id.words ≡ 17)
        × (seat.table_id.slots ≡ size + 1) },
    ghost sized: { (1 ≤ size) × (size ≤ 1024) },
    ghost role: { (seat.me.0.gets ≡ true) × (seat.me.0.sends ≡ false) },
    ghost count: { length seat.me.0.items ≡ taken },
    ghost next: { place ≡ taken % (size + 1) },
    ghost asked_is: { (seat.me.0.number ≡ asked) × (seat.me.0.cancel ≡ cond cancelled 1 0) × (asked ≤ elements seat.me.0.items + size) × (asked < 2 ^ 62) },
    ghost hand: { seat.me.1 ≡ empty_hand seat.me.0.slots ((length seat.me.0.items - 1) % (size + 1)) },
}

impl LaneIn {
    ghost use Rattle.std.specs.Prelude.{[], ◌∷◌, ◌++◌};
    ghost use Rattle.lane_core.specs.Lane.{note, informed, input_sight, both_ends};
    ghost use Rattle.lane_core.specs.Ends.{taken_items, asked_in_all, ask_calls, has_cancelled, found_sent, told_sent, in_looks, in_lane, in_size, IsSameIn};

    pub(crate) fn new(table: Arc<LaneTable>, seat: LaneSeat, size: u64) -> LaneIn
        requires table { (seat.table_id ≡ (arc_value table).shared.table_id) × ((arc_value table).shared.key ≡ size) × (seat.table_id.words ≡ 17)
            × (seat.table_id.slots ≡ size + 1) }
        requires size { (1 ≤ size) × (size ≤ 1024) }
        requires seat { seat.me ≡ (input_sight both_ends, []) }
        ensures { (in_lane result ≡ seat.table_id) × (in_size result ≡ size) × (taken_items result ≡ []) × (asked_in_all result ≡ 0) × (ask_calls result ≡ 0)
            × (has_cancelled result ≡ 0) }
    {
        LaneIn {
            table,
            seat,
            size,
            taken: 0,
            place: 0,
            asked: 0,
            cancelled: false,
        }
    }

    // A note for the other end.
    pub(crate) fn tell(&mut self) -> LaneSeat
        ensures same { IsSameIn self.old self.new × (self.new.taken ≡ self.old.taken) × (self.new.asked ≡ self.old.asked)
            × (self.new.cancelled ≡ self.old.cancelled) × (self.new.seat.me ≡ self.old.seat.me) }
        ensures note { (result.table_id ≡ in_lane self.old) × (result.me ≡ (note self.old.seat.me.0, [])) }
    {
        self.table.shared.split_seat::<Note>(&mut self.seat)
    }

    // Compares a note of the other end with what this one knows.
    pub(crate) fn hear(&mut self, told: LaneSeat)
        requires { (told.table_id ≡ in_lane self.old) × (told.me.1 ≡ []) }
        ensures same { IsSameIn self.old self.new × (self.new.taken ≡ self.old.taken) × (self.new.asked ≡ self.old.asked)
            × (self.new.cancelled ≡ self.old.cancelled) }
        ensures seat { self.new.seat.me ≡ (informed self.old.seat.me.0 told.me.0, self.old.seat.me.1) }
        ensures told { (told.me.0.number ≤ asked_in_all self.new) × (told.me.0.cancel ≤ has_cancelled self.new)
            × (told.me.0.finds ≤ ask_calls self.new + has_cancelled self.new) × (told.me.0.cancel ≡ 1 → told.me.0.number ≡ asked_in_all self.new) }
    {
        let shared = &self.table.shared;
        shared.join_seat::<Note>(&mut self.seat, told);
        shared.load::<Compare>(&mut self.seat, ASKED);
    }

    /// Takes the next item. `None` comes only where, when it looked, all that was sent had been taken;
    /// each call looks once. It takes no memory.
    pub fn take(&mut self) -> Option<Item>
        ensures lane { IsSameIn self.old self.new × (asked_in_all self.new ≡ asked_in_all self.old) × (ask_calls self.new ≡ ask_calls self.old)
            × (has_cancelled self.new ≡ has_cancelled self.old) }
        ensures looks { in_looks self.new ≡ in_looks self.old + 1 }
        ensures some { IfSome result (λ x. taken_items self.new ≡ taken_items self.old ++ x ∷ []) }
        ensures counts { IfSome result (λ x. elements (taken_items self.new) ≡ elements (taken_items self.old) + weight x) }
        ensures few { IfSome result (λ _. elements (taken_items self.new) ≤ asked_in_all self.new) }
        ensures none { IfNone result ((taken_items self.new ≡ taken_items self.old) × (found_sent self.new ≡ length (taken_items self.new))
            × (told_sent self.old ≤ found_sent self.new)) }
        ensures told { told_sent self.new ≡ told_sent self.old }
    {
        // Not by `?`, which moves the item once more.
        match fetch(&self.table.shared, &mut self.seat, self.taken, self.place) {
            None => None,
            Some(item) => {
                self.taken += 1;
                self.place = next_place(self.place, self.size);
                Some(item)
            }
        }
    }

    // Choice: docs/DECISIONS.md#asked-by-calls
    /// Asks for n more elements: at most as many as have a place beside those that were asked for and not taken. It takes no memory.
    pub fn ask(&mut self, n: u64)
        requires { (1 ≤ n) × (asked_in_all self.old + n ≤ elements (taken_items self.old) + in_size self.old) × (asked_in_all self.old + n < 2 ^ 62)
            × (has_cancelled self.old ≡ 0) }
        ensures lane { IsSameIn self.old self.new × (taken_items self.new ≡ taken_items self.old) × (has_cancelled self.new ≡ 0) }
        ensures asked { (asked_in_all self.new ≡ asked_in_all self.old + n) × (ask_calls self.new ≡ ask_calls self.old + 1)
            × (in_looks self.new ≡ in_looks self.old) }
        ensures known { (found_sent self.new ≡ found_sent self.old) × (told_sent self.new ≡ told_sent self.old) }
    {
        self.table
            .shared
            .fetch_add::<Ask>(&mut self.seat, ASKED, 2 * n);
        self.asked += n;
    }

    /// Tells the other end that no more is wanted. It takes no memory.
    pub fn cancel(&mut self)
        requires { has_cancelled self.old ≡ 0 }
        ensures lane { IsSameIn self.old self.new × (taken_items self.new ≡ taken_items self.old) × (asked_in_all self.new ≡ asked_in_all self.old)
            × (ask_calls self.new ≡ ask_calls self.old) }
        ensures cancelled { (has_cancelled self.new ≡ 1) × (in_looks self.new ≡ in_looks self.old) }
        ensures known { (found_sent self.new ≡ found_sent self.old) × (told_sent self.new ≡ told_sent self.old) }
    {
        self.table
            .shared
            .fetch_or::<Cancel>(&mut self.seat, ASKED, 1);
        self.cancelled = true;
    }

    /// How many elements were asked for in all. It does not look at the lane.
    pub fn asked(&self) -> u64
        ensures { result ≡ asked_in_all self.now }
    {
        self.asked
    }

    /// The size with which the lane was made, in elements.
    pub fn size(&self) -> u32
        ensures { result ≡ in_size self.now }
    {
        self.size as u32
    }
}

// The item in the next place, where one was sent.
fn fetch(
    shared: &Shared<Option<Item>, Sight, u64, LaneRule>,
    seat: &mut LaneSeat,
    taken: u64,
    place: u64,
) -> Option<Item>
    requires table { (seat.old.table_id ≡ shared.now.table_id) × (shared.now.table_id.words ≡ 17) × (shared.now.table_id.slots ≡ shared.now.key + 1) }
    requires ready { (seat.old.me.0.gets ≡ true) × (seat.old.me.0.sends ≡ false)
        × (seat.old.me.1 ≡ empty_hand seat.old.me.0.slots ((length seat.old.me.0.items - 1) % (shared.now.key + 1))) }
    requires count { (taken ≡ length seat.old.me.0.items) × (place ≡ taken % (shared.now.key + 1)) }
    ensures table { seat.new.table_id ≡ seat.old.table_id }
    ensures some { IfSome result (λ x. (r : ℕ) × HasTaken shared.now.key seat.old.me x r seat.new.me) }
    ensures below { IfSome result (λ _. taken + 1 < 2 ^ 64) }
    ensures few { IfSome result (λ _. elements seat.new.me.0.items ≤ seat.old.me.0.number) }
    ensures none { IfNone result (HasFound seat.old.me seat.new.me × (length seat.old.me.0.told ≤ length seat.old.me.0.items)) }
{
    let sent = shared.load::<SeeSent>(seat, SENT);
    if sent == taken {
        return None;
    }
    shared.exchange(seat, place as usize, None)
}
