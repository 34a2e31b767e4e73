// The end of a lane that sends.
ghost use Rattle.std.specs.Prelude.{◌≡◌, ℕ, ◌+◌, ◌/◌, ◌%◌, ◌^◌, ◌<◌, ◌≤◌, true, false, cond, length, take, [], ◌∷◌, None};
ghost use Rattle.std.specs.Arc.{arc_value};
ghost use Rattle.lane_core.specs.Lane.{empty_hand, ends, weight, HasSent};
ghost use Rattle.elem_core.specs.Items.{elements};

use crate::ring::next_place;
use crate::room::Room;
use crate::sight::{
    ASKED, Compare, LaneRule, LaneSeat, LaneTable, Note, SENT, SeeAsked, Send, Sight,
};
use atomic_table::Shared;
use elem_core::item::Item;
use std::sync::Arc;

// Choice: docs/DECISIONS.md#place-of-the-next-item
/// The end of a lane that sends items. It may be moved to another thread.
#[derive(Drop)]
pub struct LaneOut {
    pub(crate) table: Arc<LaneTable>,
    pub(crate) seat: LaneSeat,
    size: u64,
    // How many elements were sent.
    used: u64,
    // The place of the next one.
    place: u64,
    // The asked word as it was last seen.
    pub(crate) word: u64,
    // What was asked, as this end last learnt it by a look or from the other end.
    learnt: u64,
    ended: bool,
    ghost same_table: { (seat.table_id ≡ (arc_value table).shared.table_id) × ((arc_value table).shared.key ≡ size) × (seat.table_id.words ≡ 17)
        × (seat.table_id.slots ≡ size + 1) },
    ghost sized: { (1 ≤ size) × (size ≤ 1024) },
    ghost role: { (seat.me.0.sends ≡ true) × (seat.me.0.gets ≡ false) },
    ghost count: { (elements seat.me.0.items ≡ used) × (length seat.me.0.items ≡ used + cond ended 1 0) },
    ghost seen_is: { (seat.me.0.number ≡ word / 2) × (seat.me.0.cancel ≡ word % 2) × (used ≤ word / 2) },
    ghost learns: { word / 2 ≤ learnt },
    ghost all_elements: { elements (take used seat.me.0.items) ≡ used },
    ghost next: { place ≡ used % (size + 1) },
    ghost hand: { (seat.me.0.slots ≡ cond ended 0 1) × (seat.me.1 ≡ empty_hand (cond ended 0 1) place) },
}

impl LaneOut {
    ghost use Rattle.std.specs.Prelude.{◌++◌, IfOk, IfErr};
    ghost use Rattle.elem_core.specs.Prefix.{IsPrefix};
    ghost use Rattle.lane_core.specs.Lane.{note, informed, new_output_seat, is_new};
    ghost use Rattle.lane_core.specs.Ends.{sent, seen_count, saw_cancel, finds, has_ended, learnt, told_asked, told_cancel, out_looks, out_lane, out_size, IsSameOut, RoomIs};

    pub(crate) fn new(table: Arc<LaneTable>, seat: LaneSeat, size: u64) -> LaneOut
        requires table { (seat.table_id ≡ (arc_value table).shared.table_id) × ((arc_value table).shared.key ≡ size) × (seat.table_id.words ≡ 17)
            × (seat.table_id.slots ≡ size + 1) }
        requires size { (1 ≤ size) × (size ≤ 1024) }
        requires seat { seat.me ≡ new_output_seat }
        ensures { (out_lane result ≡ seat.table_id) × (out_size result ≡ size) × (sent result ≡ []) × (has_ended result ≡ false) × (seen_count result ≡ 0)
            × (saw_cancel result ≡ 0) × (finds result ≡ 0) }
    {
        LaneOut {
            table,
            seat,
            size,
            used: 0,
            place: 0,
            word: 0,
            learnt: 0,
            ended: false,
        }
    }

    // How many items were sent.
    pub(crate) fn count(&self) -> u64
        ensures { result ≡ length (sent self.now) }
    {
        if self.ended { self.used + 1 } else { self.used }
    }

    /// How many more elements may be sent by the demand that was seen. It does not look at the lane.
    pub fn left(&self) -> u64
        ensures { elements (sent self.now) + result ≡ seen_count self.now }
    {
        self.word / 2 - self.used
    }

    /// Whether this end saw that the other cancelled. It does not look at the lane.
    pub fn is_cancelled(&self) -> bool
        ensures { cond result 1 0 ≡ saw_cancel self.now }
    {
        self.word % 2 == 1
    }

    /// How many elements were asked for in all, as this end last learnt it: by a look, or where it met the other end.
    pub fn asked(&self) -> u64
        ensures { result ≡ learnt self.now }
    {
        self.learnt
    }

    // The other end says what it asked in all.
    pub(crate) fn learn(&mut self, asked: u64)
        requires { seen_count self.old ≤ asked }
        ensures same { IsSameOut self.old self.new × (has_ended self.new ≡ has_ended self.old) × (self.new.word ≡ self.old.word)
            × (self.new.seat.me ≡ self.old.seat.me) }
        ensures learnt { learnt self.new ≡ asked }
    {
        self.learnt = asked;
    }

    // A note for the other end.
    pub(crate) fn tell(&mut self) -> LaneSeat
        ensures same { IsSameOut self.old self.new × (has_ended self.new ≡ has_ended self.old) × (self.new.word ≡ self.old.word)
            × (self.new.seat.me ≡ self.old.seat.me) }
        ensures note { (result.table_id ≡ out_lane self.old) × (result.me ≡ (note self.old.seat.me.0, [])) }
    {
        self.table.shared.split_seat::<Note>(&mut self.seat)
    }

    // Compares a note of the other end with what this one knows.
    pub(crate) fn hear(&mut self, told: LaneSeat)
        requires { (told.table_id ≡ out_lane self.old) × (told.me.1 ≡ []) }
        ensures same { IsSameOut self.old self.new × (has_ended self.new ≡ has_ended self.old) × (self.new.word ≡ self.old.word) }
        ensures seat { self.new.seat.me ≡ (informed self.old.seat.me.0 told.me.0, self.old.seat.me.1) }
        ensures told { IsPrefix told.me.0.items (sent self.new) }
    {
        let shared = &self.table.shared;
        shared.join_seat::<Note>(&mut self.seat, told);
        shared.load::<Compare>(&mut self.seat, ASKED);
    }

    /// Looks how many elements were asked for and not sent, or whether the input end cancelled. Each call looks
    /// once. It takes no memory.
    pub fn room(&mut self) -> Room
        ensures lane { IsSameOut self.old self.new × (sent self.new ≡ sent self.old) × (has_ended self.new ≡ has_ended self.old) }
        ensures later { (learnt self.new ≡ seen_count self.new) × (seen_count self.old ≤ seen_count self.new) × (saw_cancel self.old ≤ saw_cancel self.new) }
        ensures told { (told_asked self.old ≤ seen_count self.new) × (told_cancel self.old ≤ saw_cancel self.new) }
        ensures looks { out_looks self.new ≡ out_looks self.old + 1 }
        ensures finds { finds self.new ≡ finds self.old + is_new (seen_count self.old) (saw_cancel self.old) (seen_count self.new) (saw_cancel self.new) }
        ensures room { RoomIs result (λ n. (saw_cancel self.new ≡ 0) × (elements (sent self.new) + n ≡ seen_count self.new)) (saw_cancel self.new ≡ 1) }
    {
        let word = self.table.shared.load::<SeeAsked>(&mut self.seat, ASKED);
        self.word = word;
        self.learnt = word / 2;
        if word % 2 == 1 {
            Room::Cancelled
        } else {
            Room::Asked(self.learnt - self.used)
        }
    }

    /// Sends an item. An element comes back where all demand that was seen is used; an end needs no demand. It takes no memory.
    pub fn offer(&mut self, item: Item) -> Result<(), Item>
        requires { (has_ended self.old ≡ false) × (saw_cancel self.old ≡ 0) }
        ensures lane { IsSameOut self.old self.new × (seen_count self.new ≡ seen_count self.old) × (saw_cancel self.new ≡ saw_cancel self.old)
            × (finds self.new ≡ finds self.old) × (out_looks self.new ≡ out_looks self.old) × (learnt self.new ≡ learnt self.old) }
        ensures ok { IfOk result (λ _. (sent self.new ≡ sent self.old ++ item ∷ []) × (elements (sent self.new) ≤ seen_count self.new)
            × (has_ended self.new ≡ ends item)) }
        ensures counts { IfOk result (λ _. elements (sent self.new) ≡ elements (sent self.old) + weight item) }
        ensures err { IfErr result (λ x. (x ≡ item) × (ends item ≡ false) × (elements (sent self.old) ≡ seen_count self.old) × (sent self.new ≡ sent self.old)
            × (has_ended self.new ≡ false)) }
    {
        if is_end(&item) {
            announce(&self.table.shared, &mut self.seat, self.place, item);
            self.ended = true;
            return Ok(());
        }
        if self.used == self.word / 2 {
            return Err(item);
        }
        announce(&self.table.shared, &mut self.seat, self.place, item);
        self.used += 1;
        self.place = next_place(self.place, self.size);
        Ok(())
    }
}

fn is_end(item: &Item) -> bool
    ensures { (result ≡ ends item.now) × (weight item.now ≡ cond result 0 1) }
{
    match item {
        Item::Elem(_) => false,
        Item::Ended | Item::Failed(_) => true,
    }
}

// Puts an item into the place that the seat holds, and counts it as sent.
fn announce(
    shared: &Shared<Option<Item>, Sight, u64, LaneRule>,
    seat: &mut LaneSeat,
    place: u64,
    item: Item,
)
    requires table { (seat.old.table_id ≡ shared.now.table_id) × (shared.now.table_id.words ≡ 17) × (shared.now.table_id.slots ≡ shared.now.key + 1) }
    requires hand { (seat.old.me.1 ≡ (place, None) ∷ []) × (place ≡ length seat.old.me.0.items % (shared.now.key + 1)) }
    requires ready { (seat.old.me.0.sends ≡ true) × (seat.old.me.0.gets ≡ false) × (seat.old.me.0.slots ≡ 1)
        × (elements seat.old.me.0.items + weight item ≤ seat.old.me.0.number) × (seat.old.me.0.number < 2 ^ 63) × (1 ≤ shared.now.key) }
    ensures { (seat.new.table_id ≡ seat.old.table_id) × HasSent shared.now.key seat.old.me item seat.new.me }
{
    match shared.exchange(seat, place as usize, Some(item)) {
        None => {}
        Some(_) => unreachable!(),
    }
    shared.fetch_add::<Send>(seat, SENT, 1);
}
