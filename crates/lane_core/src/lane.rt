// A lane is made, and its ends are brought together.
ghost use Rattle.std.specs.Prelude.{◌≡◌, ℕ, ◌+◌, ◌*◌, ◌<◌, ◌≤◌, [], false, IfOk, IsOk, IsTrue, length, replicate, None};
ghost use Rattle.lane_core.specs.Lane.{IsLaneState, both_ends};
ghost use Rattle.lane_core.specs.Ends.{sent, seen_count, saw_cancel, finds, has_ended, learnt, told_asked, told_cancel, told_sent, out_lane, out_size, taken_items, asked_in_all, ask_calls, has_cancelled, out_looks, in_looks, in_lane, in_size, AreOneLane, IsSameOut, IsSameIn, IsLaneHistory, WaitsAre};

use crate::lane_in::LaneIn;
use crate::lane_out::LaneOut;
use crate::room::Waits;
use crate::sight::{ASKED, Ends, LaneTable, Sit, WORDS};
use atomic_table::Table;
use std::alloc::{AllocError, Global};
use std::sync::Arc;

// Choices: docs/DECISIONS.md#one-atomic-table, docs/DECISIONS.md#any-size
/// The two ends of a lane of that many elements, from 1 to 1024, with nothing asked, sent or taken. All its places are made here, and
/// no other call on an end takes memory or waits.
pub fn lane(alloc: Global, size: u32) -> Result<(LaneOut, LaneIn), AllocError>
    requires { (1 ≤ size) × (size ≤ 1024) }
    ensures { IfOk result (λ r. AreOneLane r.0 r.1 × (out_size r.0 ≡ size) × (in_size r.1 ≡ size) × (sent r.0 ≡ []) × (has_ended r.0 ≡ false)
        × (seen_count r.0 ≡ 0) × (saw_cancel r.0 ≡ 0) × (finds r.0 ≡ 0) × (taken_items r.1 ≡ []) × (asked_in_all r.1 ≡ 0) × (ask_calls r.1 ≡ 0)
        × (has_cancelled r.1 ≡ 0)) }
{
    let size = size as u64;
    let made = Table::vacant(alloc, &[0; WORDS], size as usize + 1, &size)?;
    let (table, mut first): (LaneTable, _) = made;
    let mut second = table.shared.split_seat::<Ends>(&mut first);
    table.shared.load::<Sit>(&mut second, ASKED);
    let table = Arc::new(alloc, table)?;
    let other = Arc::try_clone(&table)?;
    Ok((
        LaneOut::new(table, second, size),
        LaneIn::new(other, first, size),
    ))
}

// Choice: docs/DECISIONS.md#named-by-its-table
/// Brings the two ends of a lane together, and says what one did that the other has not seen. From then on the caller knows what holds
/// of both, and the next look of each end finds what waits. Nothing that an end keeps changes, but what the output end has learnt of all
/// that was asked. It takes no memory.
pub fn meet(out: &mut LaneOut, inp: &mut LaneIn) -> Result<Waits, AllocError>
    requires { AreOneLane out.old inp.old }
    ensures out { IsSameOut out.old out.new × (sent out.new ≡ sent out.old) × (has_ended out.new ≡ has_ended out.old)
        × (seen_count out.new ≡ seen_count out.old) × (saw_cancel out.new ≡ saw_cancel out.old) × (finds out.new ≡ finds out.old)
        × (out_looks out.new ≡ out_looks out.old) }
    ensures inp { IsSameIn inp.old inp.new × (taken_items inp.new ≡ taken_items inp.old) × (asked_in_all inp.new ≡ asked_in_all inp.old)
        × (ask_calls inp.new ≡ ask_calls inp.old) × (has_cancelled inp.new ≡ has_cancelled inp.old) × (in_looks inp.new ≡ in_looks inp.old) }
    ensures ok { IsOk result }
    ensures learnt { learnt out.new ≡ asked_in_all inp.new }
    ensures told { (told_asked out.new ≡ asked_in_all inp.new) × (told_cancel out.new ≡ has_cancelled inp.new) × (told_sent inp.new ≡ length (sent out.new)) }
    ensures waits { IfOk result (WaitsAre out.new inp.new) }
    ensures history { IsLaneHistory out.new inp.new }
{
    out.hear(inp.tell());
    inp.hear(out.tell());
    out.learn(inp.asked);
    Ok(Waits {
        item: inp.taken < out.count(),
        demand: out.word != 2 * inp.asked + inp.cancelled as u64,
    })
}
