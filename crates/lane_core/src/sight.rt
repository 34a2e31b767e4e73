// The rule of a lane's table, and what each step tells. No value of these types is made.
ghost use Rattle.std.specs.Prelude.{ℕ};

use atomic_table::{Join, Play, Seat, Split, Table, TableRule};
use elem_core::item::Item;
use std::alloc::Global;
use std::collections::LinkedList;

/// What a seat at the table of a lane knows.
pub struct Sight {
    /// It is the output end's.
    pub sends: bool,
    /// It is the input end's.
    pub gets: bool,
    /// What the output end sent, or the input end took; else a beginning of what was sent.
    pub items: LinkedList<Item>,
    /// How many elements the output end has seen asked for, or the input end asked for.
    pub number: u64,
    /// 1 where the input end cancelled, or the output end saw that.
    pub cancel: u64,
    /// By how many calls the input end asked.
    pub asks: u64,
    /// How many looks of the output end found new demand or a cancel.
    pub finds: u64,
    /// How often the output end looked what was asked, or the input end what was sent.
    pub looks: u64,
    /// How many slots the seat holds.
    pub slots: u64,
    /// The sent word as the input end last loaded it.
    pub known: u64,
    /// What the other end's last note said of its items.
    pub told: LinkedList<Item>,
    /// What it said of its number.
    pub told_number: u64,
    /// What it said of a cancel.
    pub told_cancel: u64,
    /// What it said of its finds.
    pub told_finds: u64,
}

/// The rule, over the size of the lane.
pub struct LaneRule;

impl TableRule<Option<Item>, Sight, u64> for LaneRule {
    ghost use Rattle.lane_core.specs.Lane.{IsLaneState, both_ends};

    ghost holds = { IsLaneState };

    ghost first = { λ size. both_ends };
}

/// The table that both ends of a lane share.
pub type LaneTable = Table<Option<Item>, Sight, u64, LaneRule, Global>;

/// The seat of one end.
pub type LaneSeat = Seat<Option<Item>, Sight>;

/// The word that is twice what was asked, and 1 more where the input end cancelled.
pub const ASKED: usize = 0;

/// The word that is the number of items sent. The two words are 128 bytes apart, so that the ends do not write to one line of memory.
pub const SENT: usize = 16;

/// How many words the table has. Those between the two stay 0.
pub const WORDS: usize = 17;

/// The first seat is cut into those of the two ends.
pub struct Ends;

impl Split<Sight> for Ends {
    ghost use Rattle.lane_core.specs.Lane.{input_sight, output_end};

    ghost left = { input_sight };

    ghost right = { output_end };
}

/// One end tells the other what it knows.
pub struct Note;

impl Split<Sight> for Note {
    ghost use Rattle.lane_core.specs.Lane.{note};

    ghost left = { λ v. v };

    ghost right = { note };
}

impl Join<Sight> for Note {
    ghost use Rattle.lane_core.specs.Lane.{informed, nobody};

    ghost both = { informed };

    ghost spent = { nobody };
}

/// The output end takes place 0.
pub struct Sit;

impl Play<Option<Item>, Sight> for Sit {
    ghost use Rattle.lane_core.specs.Lane.{sat};

    ghost then = { sat };
}

/// The output end looks at what was asked and cancelled.
pub struct SeeAsked;

impl Play<Option<Item>, Sight> for SeeAsked {
    ghost use Rattle.lane_core.specs.Lane.{saw_asked};

    ghost then = { saw_asked };
}

/// The output end counts the item in hand as sent.
pub struct Send;

impl Play<Option<Item>, Sight> for Send {
    ghost use Rattle.lane_core.specs.Lane.{sent_one};

    ghost then = { sent_one };
}

/// The input end looks how many items were sent, and takes the next.
pub struct SeeSent;

impl Play<Option<Item>, Sight> for SeeSent {
    ghost use Rattle.lane_core.specs.Lane.{saw_sent};

    ghost then = { saw_sent };
}

/// The input end asks for more.
pub struct Ask;

impl Play<Option<Item>, Sight> for Ask {
    ghost use Rattle.lane_core.specs.Lane.{asked_more};

    ghost then = { asked_more };
}

/// The input end cancels.
pub struct Cancel;

impl Play<Option<Item>, Sight> for Cancel {
    ghost use Rattle.lane_core.specs.Lane.{cancelled};

    ghost then = { cancelled };
}

/// An end compares what it was told with what it knows.
pub struct Compare;

impl Play<Option<Item>, Sight> for Compare {
    ghost use Rattle.lane_core.specs.Lane.{compared};

    ghost then = { compared };
}
