// Two of several values are borrowed at once, and their ends brought together.
ghost use Rattle.std.specs.Prelude.{◌≡◌, ◌<◌, ℕ, IfOk, IsOk, length};
ghost use Rattle.lane_core.specs.declared.room.Waits.{Waits};
ghost use Rattle.lane_core.specs.Pairs.{MayMeetAt, MetAt};

use crate::room::Waits;
use std::alloc::AllocError;

/// A value that has ends of lanes, some that send and some that take, each in an order.
pub trait Meet: Drop {
    ghost may_meet: { Self → ℕ → Self → ℕ → Type 0 };

    ghost met: { Self → ℕ → Self → ℕ → Self → Self → Waits → Type 0 };

    /// Brings together output end `out` of this value and input end `inp` of another.
    fn meet_other(&mut self, out: usize, other: &mut Self, inp: usize) -> Result<Waits, AllocError>
        requires { may_meet self.old out other.old inp }
        ensures ok { IsOk result }
        ensures met { IfOk result (met self.old out other.old inp self.new other.new) };

    /// The same where both ends are of this value.
    fn meet_own(&mut self, out: usize, inp: usize) -> Result<Waits, AllocError>
        requires { may_meet self.old out self.old inp }
        ensures ok { IsOk result }
        ensures met { IfOk result (met self.old out self.old inp self.new self.new) };
}

// The output end's value stands first.
fn meet_forth<B: Meet>(
    all: &mut [B],
    from: usize,
    out: usize,
    to: usize,
    inp: usize,
) -> Result<Waits, AllocError>
    requires order { from < to }
    requires to { to < length all.old }
    requires may { MayMeetAt B.may_meet all.old from out to inp }
    ensures { MetAt B.met all.old from out to inp all.new result }
{
    let (left, right) = all.split_at_mut(to);
    let first = &mut left[from];
    first.meet_other(out, &mut right[0], inp)
}

// The input end's value stands first.
fn meet_back<B: Meet>(
    all: &mut [B],
    from: usize,
    out: usize,
    to: usize,
    inp: usize,
) -> Result<Waits, AllocError>
    requires order { to < from }
    requires from { from < length all.old }
    requires may { MayMeetAt B.may_meet all.old from out to inp }
    ensures { MetAt B.met all.old from out to inp all.new result }
{
    let (left, right) = all.split_at_mut(from);
    let second = &mut right[0];
    second.meet_other(out, &mut left[to], inp)
}

// One value has both ends.
fn meet_alone<B: Meet>(
    all: &mut [B],
    at: usize,
    out: usize,
    inp: usize,
) -> Result<Waits, AllocError>
    requires at { at < length all.old }
    requires may { MayMeetAt B.may_meet all.old at out at inp }
    ensures { MetAt B.met all.old at out at inp all.new result }
{
    let one = &mut all[at];
    one.meet_own(out, inp)
}

// Choice: docs/DECISIONS.md#two-of-one-list
/// Brings together output end `out` of the value at `from` and input end `inp` of the one at `to`, which may be the same. No other
/// value is touched. It takes no memory.
pub fn meet_at<B: Meet>(
    all: &mut [B],
    from: usize,
    out: usize,
    to: usize,
    inp: usize,
) -> Result<Waits, AllocError>
    requires from { from < length all.old }
    requires to { to < length all.old }
    requires may { MayMeetAt B.may_meet all.old from out to inp }
    ensures { MetAt B.met all.old from out to inp all.new result }
{
    if from < to {
        meet_forth(all, from, out, to, inp)
    } else if to < from {
        meet_back(all, from, out, to, inp)
    } else {
        meet_alone(all, from, out, inp)
    }
}
