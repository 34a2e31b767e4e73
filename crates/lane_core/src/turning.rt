// What the rounds ask of a body.
ghost use Rattle.std.specs.Prelude.{◌≡◌, ◌≤◌, ◌+◌, ℕ, Bool, true, IsTrue, IfOk, OnOk, OnErr};
ghost use Rattle.elem_core.specs.declared.count.TheConstants.{MOST_COUNT};
ghost use Rattle.lane_core.specs.declared.room.Waits.{Waits};

use crate::pairs::Meet;
use elem_core::why::NoMemory;
use std::alloc::Global;

// Choice: docs/DECISIONS.md#turn-of-1000
/// A body: an island with the ends of its lanes. A turn does what there is to do, up to a limit of units; a meeting of lane ends uses
/// no unit. `keeps` holds of a body that is whole, between two turns; `goes` says that one went on, by turns and meetings, `stands`
/// that it only met, `breaks` that memory was wanting in a turn, and `idle` that a turn found nothing to do; `tells`
/// says what a turn told the other ends of the body's lanes. `joined` says of an
/// output end and an input end of a lane that they were brought together, and what waits there.
pub trait Turning: Meet {
    ghost keeps: { Self → Type 0 };

    ghost goes: { Self → Self → Type 0 };

    ghost stands: { Self → Self → Type 0 };

    ghost breaks: { Self → Self → Type 0 };

    ghost joined: { Self → ℕ → Self → ℕ → Waits → Type 0 };

    ghost idle: { Self → Self → Type 0 };

    ghost tells: { Self → Self → Type 0 };

    ghost pending: { Self → Bool };

    ghost spent: { Self → ℕ };

    /// Takes a turn of at most `limit` units, and answers how many it used. It may end sooner where what it would do next may wait, as
    /// for a read, and others have something to hear of first. After `NoMemory` the body's lane ends are still met, but it takes no turn
    /// any more.
    fn turn(&mut self, alloc: Global, limit: u32) -> Result<u32, NoMemory>
        requires keeps { keeps self.old }
        requires few { spent self.old + limit ≤ MOST_COUNT }
        ensures keeps { OnOk result (keeps self.new) }
        ensures goes { OnOk result (goes self.old self.new) }
        ensures spent { IfOk result (λ used. spent self.new ≡ spent self.old + used) }
        ensures within { IfOk result (λ used. used ≤ limit) }
        ensures idle { IfOk result (λ used. used ≡ 0 → 1 ≤ limit → idle self.old self.new) }
        ensures tells { OnOk result (tells self.old self.new) }
        ensures breaks { OnErr result (breaks self.old self.new) };

    /// Whether its next turn may wait, as for a read: others are to have their turns first. A hint, on which no clause rests. It takes no
    /// memory.
    fn may_wait(&self) -> bool;

    /// Whether an event is pending in its ring. It takes no memory.
    fn has_event(&self) -> bool
        ensures { result ≡ pending self.now };

    // Going on and standing still are reflexive and transitive.
    ghost goes_still: { (a : Self) → goes a a };

    ghost goes_on: { (a b c : Self) → goes a b → goes b c → goes a c };

    ghost stands_still: { (a : Self) → stands a a };

    ghost stands_on: { (a b c : Self) → stands a b → stands b c → stands a c };

    // What a meeting does to the two bodies, which may be one.
    ghost meets: { (a b c d : Self) (o i : ℕ) (w : Waits) → Self.met a o b i c d w
        → (goes a c) × (stands a c) × (goes b d) × (stands b d) × (joined c o d i w) };

    // What stands while a body only meets.
    ghost keeps_stands: { (a b : Self) → stands a b → keeps a → keeps b };

    ghost pending_stands: { (a b : Self) → stands a b → pending b ≡ pending a };

    ghost spent_stands: { (a b : Self) → stands a b → spent b ≡ spent a };

    ghost joined_out: { (a b c : Self) (o i : ℕ) (w : Waits) → stands a c → joined a o b i w → joined c o b i w };

    ghost joined_inp: { (a b d : Self) (o i : ℕ) (w : Waits) → stands b d → joined a o b i w → joined a o d i w };

    // Two ends may meet whatever became of their bodies.
    ghost meet_goes_out: { (a b c : Self) (o i : ℕ) → goes a c → Self.may_meet a o b i → Self.may_meet c o b i };

    ghost meet_goes_inp: { (a b d : Self) (o i : ℕ) → goes b d → Self.may_meet a o b i → Self.may_meet a o d i };

    ghost meet_stands_out: { (a b c : Self) (o i : ℕ) → stands a c → Self.may_meet a o b i → Self.may_meet c o b i };

    ghost meet_stands_inp: { (a b d : Self) (o i : ℕ) → stands b d → Self.may_meet a o b i → Self.may_meet a o d i };

    ghost meet_breaks_out: { (a b c : Self) (o i : ℕ) → breaks a c → Self.may_meet a o b i → Self.may_meet c o b i };

    ghost meet_breaks_inp: { (a b d : Self) (o i : ℕ) → breaks b d → Self.may_meet a o b i → Self.may_meet a o d i };

    // A break is told of the body as it began, and as it stands after later meetings.
    ghost breaks_stands: { (a b c : Self) → breaks a b → stands b c → breaks a c };

    ghost goes_breaks: { (a b c : Self) → goes a b → breaks b c → breaks a c };

    // A turn behind a meeting that found nothing to do came where neither an item nor demand waited, and no event was pending.
    ghost idle_item: { (a b c d e : Self) (o i : ℕ) (w : Waits) → Self.may_meet a o b i → Self.met a o b i c d w → IsTrue w.item → goes d e → idle d e → ⊥ };

    ghost idle_demand: { (a b c d e : Self) (o i : ℕ) (w : Waits) → Self.may_meet a o b i → Self.met a o b i c d w → IsTrue w.demand → goes c e → idle c e
        → ⊥ };

    ghost idle_event: { (a b : Self) → pending a ≡ true → idle a b → ⊥ };
}
