// The end of a lane at which what enters an island is taken.
ghost use Rattle.std.specs.Prelude.{◌≡◌, ◌⊎◌, ◌+◌, ◌<◌, ◌≤◌, ◌/◌, ◌^◌, ◌++◌, [], ◌∷◌, ℕ, max, true, false, cond, length, IfOk, IfSome, IfNone, IsOk};
ghost use Rattle.elem_core.specs.Items.{elements};
ghost use Rattle.elem_core.specs.declared.item.Item.{Item};
ghost use Rattle.elem_core.specs.declared.item.Item.TheVariants as item;
ghost use Rattle.elem_core.specs.declared.count.TheConstants.{MOST_COUNT};
ghost use Rattle.lane_core.specs.Lane.{ends};
ghost use Rattle.lane_core.specs.Ends.{taken_items, asked_in_all, ask_calls, has_cancelled, found_sent, told_sent, in_size, learnt, IsSameIn, AreOneLane, IsLaneHistory, WaitsAre};
ghost use Rattle.lane_core.specs.Meeting.{KeepsIn, KeepsOut, AreTold};
ghost use Rattle.lane_core.specs.Flow.{Flow, AsksByHalves};
ghost use Rattle.lane_core.specs.declared.state.State.TheVariants.{Flowing, Closed, Cancelled};

use crate::held::{drop_all, drop_one, end_with, hold, next_held};
use crate::lane::meet;
use crate::lane_in::LaneIn;
use crate::lane_out::LaneOut;
use crate::room::Waits;
use crate::state::State;
use circular_buffer::HeapCircularBuffer;
use elem_core::elem::Elem;
use elem_core::item::Item;
use elem_core::trace::Trace;
use std::alloc::{AllocError, Global};
use std::cmp::max;

// Choice: docs/DECISIONS.md#keep-beside-the-size
/// The input end of a lane with its batching buffer. It asks for as many elements as the lane has places at first, and for half
/// of them, but at least one, each time that so many were handed on. What it takes off the lane waits until it is handed on: an
/// element where one was asked, a normal end behind the elements, a failure at once, with what waited dropped, or, where the lane
/// keeps what came before it, behind the elements too. Rule: Akka Streams 2.6 reference, chapter on asynchronous boundaries; half
/// of the size, and what is kept: own.
#[derive(Drop)]
pub struct InputBoundary {
    pub(crate) lane: LaneIn,
    buffer: HeapCircularBuffer<Elem>,
    pending: Option<Item>,
    over: bool,
    state: State,
    // Whether what came before a failure is handed on before it.
    keep: bool,
    half: u64,
    // How many elements were handed on and not asked for again.
    passed: u64,
    gave: Trace<Item>,
    lost: Trace<Item>,
    ending: Trace<Item>,
    ghost wide: { buffer.capacity ≡ in_size lane },
    ghost halves: { half ≡ max 1 (in_size lane / 2) },
    ghost asking: { AsksByHalves (in_size lane) half (asked_in_all lane) (ask_calls lane) (elements gave.items) passed },
    ghost flow: { Flow keep (in_size lane) (taken_items lane) gave.items lost.items buffer.items ending.items pending over state (has_cancelled lane) },
}

impl InputBoundary {
    ghost use Rattle.lane_core.specs.Boundary.{given, waits, is_over, state, keeps_all, BoundaryKeeps};

    /// The boundary at this end of a lane, to which nothing came and which asked for nothing. It takes the memory of all places,
    /// and asks for as many elements.
    pub fn new(alloc: Global, lane: LaneIn, keep: bool) -> Result<InputBoundary, AllocError>
        requires unused { (taken_items lane ≡ []) × (asked_in_all lane ≡ 0) × (ask_calls lane ≡ 0) × (has_cancelled lane ≡ 0) }
        ensures lane { IfOk result (λ b. IsSameIn lane b.lane × (taken_items b.lane ≡ []) × (asked_in_all b.lane ≡ in_size lane) × (has_cancelled b.lane ≡ 0)) }
        ensures nothing { IfOk result (λ b. (given b ≡ []) × (waits b ≡ []) × (is_over b ≡ false) × (state b ≡ Flowing) × (keeps_all b ≡ keep)) }
    {
        let mut lane = lane;
        let size = lane.size() as u64;
        let buffer = HeapCircularBuffer::with_capacity(alloc, size as usize)?;
        lane.ask(size);
        Ok(InputBoundary {
            lane,
            buffer,
            pending: None,
            over: false,
            state: State::Flowing,
            keep,
            half: max(1, size / 2),
            passed: 0,
            gave: Trace::empty(),
            lost: Trace::empty(),
            ending: Trace::empty(),
        })
    }

    /// How many elements its lane was asked for in all.
    pub fn asked(&self) -> u64
        ensures { result ≡ asked_in_all self.now.lane }
    {
        self.lane.asked()
    }

    /// Whether it still hands on what it takes.
    pub fn state(&self) -> State
        ensures { result ≡ state self.now }
    {
        self.state
    }

    // Choice: docs/DECISIONS.md#no-look-behind-an-end
    /// Takes the next item off the lane, where one was sent and no end was taken; false comes exactly where none was. An element waits,
    /// and an end behind it; a failure drops what waits. What comes behind a cancel is dropped. It takes no memory.
    pub fn look(&mut self) -> bool
        ensures lane { IsSameIn self.old.lane self.new.lane × (asked_in_all self.new.lane ≡ asked_in_all self.old.lane)
            × (ask_calls self.new.lane ≡ ask_calls self.old.lane) × (has_cancelled self.new.lane ≡ has_cancelled self.old.lane) }
        ensures given { (given self.new ≡ given self.old) × (state self.new ≡ state self.old) × (keeps_all self.new ≡ keeps_all self.old) }
        ensures took { result ≡ true → (is_over self.old ≡ false) × ((x : Item) × ((taken_items self.new.lane ≡ taken_items self.old.lane ++ x ∷ [])
            × (is_over self.new ≡ ends x))) }
        ensures still { result ≡ false → waits self.new ≡ waits self.old }
        ensures none { result ≡ false → (taken_items self.new.lane ≡ taken_items self.old.lane)
            × ((is_over self.old ≡ true) ⊎ ((found_sent self.new.lane ≡ length (taken_items self.new.lane))
            × (told_sent self.old.lane ≤ found_sent self.new.lane))) }
        ensures over { result ≡ false → is_over self.new ≡ is_over self.old }
        ensures told { told_sent self.new.lane ≡ told_sent self.old.lane }
        ensures behind { result ≡ true → taken_items self.old.lane ≡ given self.old → length (waits self.new) ≤ 1 }
    {
        if self.over {
            return false;
        }
        match self.lane.take() {
            None => false,
            Some(Item::Elem(e)) => {
                match self.state {
                    State::Flowing => hold(&mut self.buffer, e),
                    _ => drop_one(e, &mut self.lost),
                }
                true
            }
            Some(end) => {
                self.over = true;
                self.ending = self.ending.and(&end);
                end_with(
                    self.keep,
                    self.state,
                    end,
                    &mut self.buffer,
                    &mut self.pending,
                    &mut self.lost,
                );
                true
            }
        }
    }

    /// Whether no element waits before what came last, so that this may be the next that is handed on. It takes no memory.
    #[inline(always)]
    pub fn is_next(&self) -> bool
        ensures { result ≡ false → 2 ≤ length (waits self.now) }
    {
        self.buffer.len() <= 1
    }

    // Choice: docs/DECISIONS.md#ask-behind-an-end
    /// The first element that waits, which is to be handed on where one is asked for, and whether the lane was asked for more: where half
    /// of the places were handed on, it is asked for as many. It takes no memory.
    #[inline(always)]
    pub fn next(&mut self) -> Option<(Elem, bool)>
        requires few { elements (given self.old) < MOST_COUNT }
        ensures lane { IsSameIn self.old.lane self.new.lane × (taken_items self.new.lane ≡ taken_items self.old.lane)
            × (has_cancelled self.new.lane ≡ has_cancelled self.old.lane) }
        ensures keep { keeps_all self.new ≡ keeps_all self.old }
        ensures some { IfSome result (λ r. given self.new ≡ given self.old ++ item.Elem r.0 ∷ []) }
        ensures flows { IfSome result (λ r. state self.new ≡ Flowing) }
        ensures asks { IfSome result (λ r. ask_calls self.new.lane ≡ ask_calls self.old.lane + cond r.1 1 0) }
        ensures known { (found_sent self.new.lane ≡ found_sent self.old.lane) × (told_sent self.new.lane ≡ told_sent self.old.lane)
            × (is_over self.new ≡ is_over self.old) }
        ensures none { IfNone result ((self.new ≡ self.old) × (waits self.old ≡ [])) }
    {
        let item = Item::Elem(next_held(&mut self.buffer)?);
        self.gave = self.gave.and(&item);
        let asks = refill(&mut self.lane, &mut self.passed, self.half);
        match item {
            Item::Elem(e) => Some((e, asks)),
            _ => unreachable!(),
        }
    }

    /// Whether an end waits, and no element before it. It takes no memory.
    #[inline(always)]
    pub fn is_at_end(&self) -> bool
        ensures at_end { result ≡ true → (waits self.now ≡ []) × (state self.now ≡ Flowing) }
        ensures none { result ≡ false → state self.now ≡ Flowing → waits self.now ≡ [] → taken_items self.now.lane ≡ given self.now }
    {
        self.pending.is_some() && self.buffer.is_empty()
    }

    /// The end that waits, where no element waits before it. It is to be handed on, also where no element is asked for. It takes no
    /// memory.
    pub fn next_end(&mut self) -> Option<Item>
        requires none { waits self.old ≡ [] }
        ensures lane { self.new.lane ≡ self.old.lane }
        ensures over { (is_over self.new ≡ is_over self.old) × (keeps_all self.new ≡ keeps_all self.old) }
        ensures some { IfSome result (λ x. (given self.new ≡ given self.old ++ x ∷ []) × (ends x ≡ true) × (state self.new ≡ Closed)) }
        ensures none { IfNone result ((self.new ≡ self.old) × (state self.old ≡ Flowing → taken_items self.old.lane ≡ given self.old)) }
    {
        let end = self.pending.take()?;
        self.state = State::Closed;
        Some(end)
    }

    /// Nothing more is wanted: the lane is cancelled, and what waits is dropped. It takes no memory.
    pub fn cancel(&mut self)
        requires flowing { state self.old ≡ Flowing }
        ensures lane { IsSameIn self.old.lane self.new.lane × (taken_items self.new.lane ≡ taken_items self.old.lane)
            × (asked_in_all self.new.lane ≡ asked_in_all self.old.lane) × (ask_calls self.new.lane ≡ ask_calls self.old.lane)
            × (has_cancelled self.new.lane ≡ 1) }
        ensures given { (given self.new ≡ given self.old) × (state self.new ≡ Cancelled) × (waits self.new ≡ [])
            × (keeps_all self.new ≡ keeps_all self.old) }
        ensures known { (found_sent self.new.lane ≡ found_sent self.old.lane) × (told_sent self.new.lane ≡ told_sent self.old.lane)
            × (is_over self.new ≡ is_over self.old) }
    {
        self.lane.cancel();
        self.state = State::Cancelled;
        self.pending = None;
        drop_all(&mut self.buffer, &mut self.lost);
    }

    /// Brings its end of a lane and the other end together, and says what one did that the other has not seen. Nothing that it keeps
    /// changes. It takes no memory.
    pub fn meet(&mut self, out: &mut LaneOut) -> Result<Waits, AllocError>
        requires { AreOneLane out.old self.old.lane }
        ensures out { KeepsOut out.old out.new }
        ensures lane { KeepsIn self.old.lane self.new.lane }
        ensures given { (given self.new ≡ given self.old) × (waits self.new ≡ waits self.old) × (is_over self.new ≡ is_over self.old)
            × (state self.new ≡ state self.old) × (keeps_all self.new ≡ keeps_all self.old) }
        ensures ok { IsOk result }
        ensures learnt { learnt out.new ≡ asked_in_all self.new.lane }
        ensures told { AreTold out.new self.new.lane }
        ensures waits { IfOk result (WaitsAre out.new self.new.lane) }
        ensures history { IsLaneHistory out.new self.new.lane }
    {
        meet(out, &mut self.lane)
    }

    /// What an island keeps of it holds between any two calls. It does nothing.
    pub fn keeps(&self)
        ensures { BoundaryKeeps self.now }
    {}
}

// One element more was handed on. Where that makes half of the places, the lane is asked for as many.
fn refill(lane: &mut LaneIn, passed: &mut u64, half: u64) -> bool
    requires less { passed.old < half }
    requires asks { passed.old + 1 ≡ half → (asked_in_all lane.old + half ≤ elements (taken_items lane.old) + in_size lane.old)
        × (asked_in_all lane.old + half < 2 ^ 62) × (has_cancelled lane.old ≡ 0) }
    ensures lane { IsSameIn lane.old lane.new × (taken_items lane.new ≡ taken_items lane.old) × (has_cancelled lane.new ≡ has_cancelled lane.old) }
    ensures asked { result ≡ true → (passed.old + 1 ≡ half) × (passed.new ≡ 0) × (asked_in_all lane.new ≡ asked_in_all lane.old + half)
        × (ask_calls lane.new ≡ ask_calls lane.old + 1) }
    ensures less { result ≡ false → (passed.new ≡ passed.old + 1) × (passed.new < half) × (asked_in_all lane.new ≡ asked_in_all lane.old)
        × (ask_calls lane.new ≡ ask_calls lane.old) }
    ensures known { (found_sent lane.new ≡ found_sent lane.old) × (told_sent lane.new ≡ told_sent lane.old) }
{
    *passed += 1;
    if *passed < half {
        return false;
    }
    lane.ask(half);
    *passed = 0;
    true
}
