// The ends of lanes of an island.
ghost use Rattle.lane_core.specs.Meeting.{MayMeet, MeetsOne};

use crate::lane::meet;
use crate::lane_in::LaneIn;
use crate::lane_out::LaneOut;
use crate::pairs::Meet;
use crate::room::Waits;
use std::alloc::AllocError;

/// The ends of lanes of an island, each list in an order of its own.
#[derive(Drop)]
pub struct LaneEnds {
    /// Those that take.
    pub ins: Vec<LaneIn>,
    /// Those that send.
    pub outs: Vec<LaneOut>,
}

impl Meet for LaneEnds {
    ghost may_meet = { MayMeet };

    ghost met = { MeetsOne };

    // Choice: docs/DECISIONS.md#meeting-changes-nothing
    fn meet_other(
        &mut self,
        out: usize,
        other: &mut LaneEnds,
        inp: usize,
    ) -> Result<Waits, AllocError> {
        let waits = meet(&mut self.outs[out], &mut other.ins[inp])?;
        Ok(waits)
    }

    fn meet_own(&mut self, out: usize, inp: usize) -> Result<Waits, AllocError> {
        let waits = meet(&mut self.outs[out], &mut self.ins[inp])?;
        Ok(waits)
    }
}
