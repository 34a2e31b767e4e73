// Bodies whose lanes are brought together, and which take turns.
ghost use Rattle.island_body.specs.Keeping.{is_pending, BodyKeeps, BodyGoes, BodyBreaks, IsIdle};
ghost use Rattle.island_body.specs.Meeting.{BodiesMayMeet, BodiesMeet, BodiesJoined, OnlyMet};
ghost use Rattle.island_body.specs.Telling.{HasTold, Wakes};
ghost use Rattle.island_body.specs.Lasting as lasting;
ghost use Rattle.island_body.specs.Waking as waking;
ghost use Rattle.std.specs.Prelude.{◌≡◌, refl};

use crate::body::Body;
use dispatcher::waking::Waking;
use elem_core::why::NoMemory;
use graph_stage::handlers::Handlers;
use lane_core::pairs::Meet;
use lane_core::room::Waits;
use lane_core::turning::Turning;
use plug_logic::book::PlugBook;
use plug_logic::logic::Logic;
use std::alloc::{AllocError, Global};
use stream_io::outside::{Drain, Source};

impl<S: Source, D: Drain, L: Logic, H: Handlers, B: PlugBook> Meet for Body<S, D, L, H, B> {
    ghost may_meet = { BodiesMayMeet };

    ghost met = { BodiesMeet };

    fn meet_other(
        &mut self,
        out: usize,
        other: &mut Body<S, D, L, H, B>,
        inp: usize,
    ) -> Result<Waits, AllocError> {
        let waits = other.ins[inp].boundary.meet(&mut self.outs[out].lane)?;
        Ok(waits)
    }

    fn meet_own(&mut self, out: usize, inp: usize) -> Result<Waits, AllocError> {
        let waits = self.ins[inp].boundary.meet(&mut self.outs[out].lane)?;
        Ok(waits)
    }
}

impl<S: Source, D: Drain, L: Logic, H: Handlers, B: PlugBook> Turning for Body<S, D, L, H, B> {
    ghost keeps = { BodyKeeps S.state D.state B.lists };

    ghost goes = { BodyGoes };

    ghost stands = { OnlyMet };

    ghost breaks = { BodyBreaks S.state D.state B.lists };

    ghost joined = { BodiesJoined };

    ghost idle = { IsIdle };

    ghost tells = { Wakes };

    ghost pending = { is_pending };

    ghost spent = { λ b. b.spent };

    fn turn(&mut self, alloc: Global, limit: u32) -> Result<u32, NoMemory> {
        self.take_part(alloc, limit)
    }

    fn may_wait(&self) -> bool {
        self.island.may_wait()
    }

    fn has_event(&self) -> bool {
        self.is_pending()
    }

    ghost goes_still = { lasting.goes_still };

    ghost goes_on = { lasting.goes_on };

    ghost stands_still = { lasting.only_still };

    ghost stands_on = { lasting.only_on };

    ghost meets = { lasting.meets_tells };

    ghost keeps_stands = { lasting.keeps_met S.state D.state B.lists };

    ghost pending_stands = { lasting.pending_met };

    ghost spent_stands = { λ a b m. m.spent };

    ghost joined_out = { lasting.joined_out };

    ghost joined_inp = { lasting.joined_in };

    ghost meet_goes_out = { lasting.may_goes_out };

    ghost meet_goes_inp = { lasting.may_goes_in };

    ghost meet_stands_out = { lasting.may_stands_out };

    ghost meet_stands_inp = { lasting.may_stands_in };

    ghost meet_breaks_out = { lasting.may_breaks_out S.state D.state B.lists };

    ghost meet_breaks_inp = { lasting.may_breaks_in S.state D.state B.lists };

    ghost breaks_stands = { lasting.breaks_met S.state D.state B.lists };

    ghost goes_breaks = { lasting.goes_breaks S.state D.state B.lists };

    ghost idle_item = { waking.idle_item };

    ghost idle_demand = { waking.idle_demand };

    ghost idle_event = { waking.idle_event };
}

impl<S: Source, D: Drain, L: Logic, H: Handlers, B: PlugBook> Waking for Body<S, D, L, H, B> {
    ghost informs = { HasTold };

    fn wakes(&self) -> &[u32] {
        self.woken()
    }
}
