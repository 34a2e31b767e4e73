// Rounds of turns.
ghost use Rattle.std.specs.Prelude.{◌≡◌, ◌≤◌, ◌<◌, ◌+◌, ◌-◌, ℕ, true, false, IfNone, IfSome, IfOk, OnOk, OnErr, Some, length, slice_get};
ghost use Rattle.std.specs.List.{sum_by};
ghost use Rattle.elem_core.specs.declared.count.TheConstants.{MOST_COUNT};
ghost use Rattle.lane_core.specs.Bodies.{AllOf, EachOf, BrokeOff};
ghost use Rattle.lane_core.specs.Crossings.{QuietBelow, AreCrossings, AllJoined, AtRest, FirstEvent};

use crate::crossing::Crossing;
use crate::settle::{first_pending, join, settle};
use crate::turning::Turning;
use elem_core::why::NoMemory;
use std::alloc::Global;

/// The most units of one turn.
pub const TURN_UNITS: u32 = 1000;

/// How a run in rounds ended.
#[derive(Clone, Copy)]
pub struct RoundsEnd {
    /// The units that all bodies used.
    pub used: u32,
    /// Whether no body has an event; else the budget is used.
    pub at_rest: bool,
}

// One body's turn.
fn turn_at<B: Turning>(
    alloc: Global,
    bodies: &mut [B],
    k: usize,
    limit: u32,
) -> Result<u32, NoMemory>
    requires there { k < length bodies.old }
    requires keeps { AllOf B.keeps bodies.old }
    requires few { sum_by B.spent bodies.old + limit ≤ MOST_COUNT }
    ensures keeps { OnOk result (AllOf B.keeps bodies.new) }
    ensures goes { OnOk result (EachOf B.goes bodies.old bodies.new) }
    ensures spent { IfOk result (λ used. sum_by B.spent bodies.new ≡ sum_by B.spent bodies.old + used) }
    ensures within { IfOk result (λ used. used ≤ limit) }
    ensures idle { IfOk result (λ used. used ≡ 0 → 1 ≤ limit → (a : B) → slice_get bodies.old k ≡ Some a
        → (b : B) × ((slice_get bodies.new k ≡ Some b) × (B.goes a b × B.idle a b))) }
    ensures broke { OnErr result (BrokeOff B.keeps B.goes B.breaks bodies.old bodies.new) }
{
    let body = &mut bodies[k];
    body.turn(alloc, limit)
}

// What one turn may use of what is left.
fn portion(left: u32) -> u32
    ensures within { result ≤ left }
    ensures some { 0 < left → 0 < result }
{
    if left < TURN_UNITS { left } else { TURN_UNITS }
}

// One body's turn, where it does not wait for a read.
fn quiet_turn<B: Turning>(
    alloc: Global,
    bodies: &mut [B],
    k: usize,
    left: u32,
) -> Result<u32, NoMemory>
    requires there { k < length bodies.old }
    requires keeps { AllOf B.keeps bodies.old }
    requires few { sum_by B.spent bodies.old + left ≤ MOST_COUNT }
    ensures keeps { OnOk result (AllOf B.keeps bodies.new) }
    ensures goes { OnOk result (EachOf B.goes bodies.old bodies.new) }
    ensures spent { IfOk result (λ used. sum_by B.spent bodies.new ≡ sum_by B.spent bodies.old + used) }
    ensures within { IfOk result (λ used. used ≤ left) }
    ensures broke { OnErr result (BrokeOff B.keeps B.goes B.breaks bodies.old bodies.new) }
{
    if bodies[k].may_wait() {
        return Ok(0);
    }
    turn_at(alloc, bodies, k, portion(left))
}

// A turn of each body that does not wait for a read, in order.
fn quiet_round<B: Turning>(alloc: Global, bodies: &mut [B], left: u32) -> Result<u32, NoMemory>
    requires keeps { AllOf B.keeps bodies.old }
    requires few { sum_by B.spent bodies.old + left ≤ MOST_COUNT }
    ensures keeps { OnOk result (AllOf B.keeps bodies.new) }
    ensures goes { OnOk result (EachOf B.goes bodies.old bodies.new) }
    ensures spent { IfOk result (λ used. sum_by B.spent bodies.new ≡ sum_by B.spent bodies.old + used) }
    ensures within { IfOk result (λ used. used ≤ left) }
    ensures broke { OnErr result (BrokeOff B.keeps B.goes B.breaks bodies.old bodies.new) }
{
    let mut used = 0;
    for k in 0..bodies.len() {
        used += quiet_turn(alloc, bodies, k, left - used)?;
    }
    Ok(used)
}

// The same round after round, until one uses no unit, or each body could hear by then of what the first one sent.
fn quiet_rounds<B: Turning>(alloc: Global, bodies: &mut [B], left: u32) -> Result<u32, NoMemory>
    requires keeps { AllOf B.keeps bodies.old }
    requires few { sum_by B.spent bodies.old + left ≤ MOST_COUNT }
    ensures keeps { OnOk result (AllOf B.keeps bodies.new) }
    ensures goes { OnOk result (EachOf B.goes bodies.old bodies.new) }
    ensures spent { IfOk result (λ used. sum_by B.spent bodies.new ≡ sum_by B.spent bodies.old + used) }
    ensures within { IfOk result (λ used. used ≤ left) }
    ensures broke { OnErr result (BrokeOff B.keeps B.goes B.breaks bodies.old bodies.new) }
{
    let mut used = 0;
    'rounds: for _ in 0..bodies.len() {
        let last = quiet_round(alloc, bodies, left - used)?;
        if last == 0 {
            return Ok(used);
        }
        used += last;
    }
    Ok(used)
}

// One body's turn, where it may wait for a read, and rounds of the others behind it.
fn waiting_turn<B: Turning>(
    alloc: Global,
    bodies: &mut [B],
    k: usize,
    left: u32,
) -> Result<u32, NoMemory>
    requires there { k < length bodies.old }
    requires keeps { AllOf B.keeps bodies.old }
    requires few { sum_by B.spent bodies.old + left ≤ MOST_COUNT }
    ensures keeps { OnOk result (AllOf B.keeps bodies.new) }
    ensures goes { OnOk result (EachOf B.goes bodies.old bodies.new) }
    ensures spent { IfOk result (λ used. sum_by B.spent bodies.new ≡ sum_by B.spent bodies.old + used) }
    ensures within { IfOk result (λ used. used ≤ left) }
    ensures broke { OnErr result (BrokeOff B.keeps B.goes B.breaks bodies.old bodies.new) }
{
    if !bodies[k].may_wait() {
        return Ok(0);
    }
    let used = turn_at(alloc, bodies, k, portion(left))?;
    if used == 0 {
        return Ok(0);
    }
    let more = quiet_rounds(alloc, bodies, left - used)?;
    Ok(used + more)
}

// A turn of each body that may wait for a read, in order.
fn waiting_round<B: Turning>(alloc: Global, bodies: &mut [B], left: u32) -> Result<u32, NoMemory>
    requires keeps { AllOf B.keeps bodies.old }
    requires few { sum_by B.spent bodies.old + left ≤ MOST_COUNT }
    ensures keeps { OnOk result (AllOf B.keeps bodies.new) }
    ensures goes { OnOk result (EachOf B.goes bodies.old bodies.new) }
    ensures spent { IfOk result (λ used. sum_by B.spent bodies.new ≡ sum_by B.spent bodies.old + used) }
    ensures within { IfOk result (λ used. used ≤ left) }
    ensures broke { OnErr result (BrokeOff B.keeps B.goes B.breaks bodies.old bodies.new) }
{
    let mut used = 0;
    for k in 0..bodies.len() {
        used += waiting_turn(alloc, bodies, k, left - used)?;
    }
    Ok(used)
}

// Rounds of those that do not wait for a read, and then a turn of each that may.
fn round<B: Turning>(alloc: Global, bodies: &mut [B], left: u32) -> Result<u32, NoMemory>
    requires keeps { AllOf B.keeps bodies.old }
    requires few { sum_by B.spent bodies.old + left ≤ MOST_COUNT }
    ensures keeps { OnOk result (AllOf B.keeps bodies.new) }
    ensures goes { OnOk result (EachOf B.goes bodies.old bodies.new) }
    ensures spent { IfOk result (λ used. sum_by B.spent bodies.new ≡ sum_by B.spent bodies.old + used) }
    ensures within { IfOk result (λ used. used ≤ left) }
    ensures broke { OnErr result (BrokeOff B.keeps B.goes B.breaks bodies.old bodies.new) }
{
    let quiet = quiet_rounds(alloc, bodies, left)?;
    let waited = waiting_round(alloc, bodies, left - quiet)?;
    Ok(quiet + waited)
}

// Rounds until one uses no unit.
fn rounds<B: Turning>(alloc: Global, bodies: &mut [B], left: u32) -> Result<u32, NoMemory>
    requires keeps { AllOf B.keeps bodies.old }
    requires few { sum_by B.spent bodies.old + left ≤ MOST_COUNT }
    ensures keeps { OnOk result (AllOf B.keeps bodies.new) }
    ensures goes { OnOk result (EachOf B.goes bodies.old bodies.new) }
    ensures spent { IfOk result (λ used. sum_by B.spent bodies.new ≡ sum_by B.spent bodies.old + used) }
    ensures within { IfOk result (λ used. used ≤ left) }
    ensures broke { OnErr result (BrokeOff B.keeps B.goes B.breaks bodies.old bodies.new) }
{
    let mut used = 0;
    let mut last = 1;
    while last > 0 && used < left {
        last = round(alloc, bodies, left - used)?;
        used += last;
    }
    Ok(used)
}

// The ends of all lanes are brought together, and the bodies stay whole.
fn settle_whole<B: Turning>(bodies: &mut [B], lanes: &[Crossing]) -> Option<usize>
    requires keeps { AllOf B.keeps bodies.old }
    requires lanes { AreCrossings B.may_meet bodies.old lanes.now }
    ensures keeps { AllOf B.keeps bodies.new }
    ensures goes { EachOf B.goes bodies.old bodies.new }
    ensures spent { sum_by B.spent bodies.new ≡ sum_by B.spent bodies.old }
    ensures lanes { AreCrossings B.may_meet bodies.new lanes.now }
    ensures joined { AllJoined B.joined bodies.new lanes.now }
    ensures none { IfNone result (AtRest B.pending B.joined bodies.new lanes.now) }
    ensures some { IfSome result (λ k. FirstEvent B.pending B.joined bodies.new lanes.now k) }
{
    settle(bodies, lanes)
}

// Brings the ends of the lanes together, one after another, and lets the first body take a turn for which something waits there. It
// uses a unit at least where there is one.
fn stir_lanes<B: Turning>(
    alloc: Global,
    bodies: &mut [B],
    lanes: &[Crossing],
    limit: u32,
) -> Result<u32, NoMemory>
    requires keeps { AllOf B.keeps bodies.old }
    requires few { sum_by B.spent bodies.old + limit ≤ MOST_COUNT }
    requires some { 0 < limit }
    requires lanes { AreCrossings B.may_meet bodies.old lanes.now }
    ensures keeps { OnOk result (AllOf B.keeps bodies.new) }
    ensures goes { OnOk result (EachOf B.goes bodies.old bodies.new) }
    ensures spent { IfOk result (λ used. sum_by B.spent bodies.new ≡ sum_by B.spent bodies.old + used) }
    ensures within { IfOk result (λ used. used ≤ limit) }
    ensures none { IfOk result (λ used. used ≡ 0 → QuietBelow B.joined bodies.new lanes.now (length lanes.now)) }
    ensures broke { OnErr result (BrokeOff B.keeps B.goes B.breaks bodies.old bodies.new) }
{
    for n in 0..lanes.len() {
        let lane = &lanes[n];
        let waits = join(bodies, lane);
        if waits.item {
            return turn_at(alloc, bodies, lane.to as usize, limit);
        }
        if waits.demand {
            return turn_at(alloc, bodies, lane.from as usize, limit);
        }
    }
    Ok(0)
}

// Lets the first body take a turn in whose ring an event is pending. It uses a unit at least where there is one.
fn stir_rings<B: Turning>(alloc: Global, bodies: &mut [B], limit: u32) -> Result<u32, NoMemory>
    requires keeps { AllOf B.keeps bodies.old }
    requires few { sum_by B.spent bodies.old + limit ≤ MOST_COUNT }
    requires some { 0 < limit }
    ensures keeps { OnOk result (AllOf B.keeps bodies.new) }
    ensures goes { OnOk result (EachOf B.goes bodies.old bodies.new) }
    ensures spent { IfOk result (λ used. sum_by B.spent bodies.new ≡ sum_by B.spent bodies.old + used) }
    ensures within { IfOk result (λ used. used ≤ limit) }
    ensures none { IfOk result (λ used. used ≡ 0 → (bodies.new ≡ bodies.old) × AllOf (λ b. B.pending b ≡ false) bodies.old) }
    ensures broke { OnErr result (BrokeOff B.keeps B.goes B.breaks bodies.old bodies.new) }
{
    let count = bodies.len();
    let k = first_pending(bodies, count);
    if k < count {
        return turn_at(alloc, bodies, k, limit);
    }
    Ok(0)
}

// Lets a body that has an event take a turn, which uses a unit at least; none is used where no body has one.
fn stir<B: Turning>(
    alloc: Global,
    bodies: &mut [B],
    lanes: &[Crossing],
    limit: u32,
) -> Result<u32, NoMemory>
    requires keeps { AllOf B.keeps bodies.old }
    requires few { sum_by B.spent bodies.old + limit ≤ MOST_COUNT }
    requires some { 0 < limit }
    requires lanes { AreCrossings B.may_meet bodies.old lanes.now }
    ensures keeps { OnOk result (AllOf B.keeps bodies.new) }
    ensures goes { OnOk result (EachOf B.goes bodies.old bodies.new) }
    ensures spent { IfOk result (λ used. sum_by B.spent bodies.new ≡ sum_by B.spent bodies.old + used) }
    ensures within { IfOk result (λ used. used ≤ limit) }
    ensures none { IfOk result (λ used. used ≡ 0 → AtRest B.pending B.joined bodies.new lanes.now) }
    ensures broke { OnErr result (BrokeOff B.keeps B.goes B.breaks bodies.old bodies.new) }
{
    let used = stir_lanes(alloc, bodies, lanes, limit)?;
    if used > 0 {
        return Ok(used);
    }
    stir_rings(alloc, bodies, limit)
}

// Rounds, and behind them a turn of a body that has an event and rounds again, until no body has one or the budget is used.
fn run_on<B: Turning>(
    alloc: Global,
    bodies: &mut [B],
    lanes: &[Crossing],
    before: u32,
    budget: u32,
) -> Result<RoundsEnd, NoMemory>
    requires keeps { AllOf B.keeps bodies.old }
    requires spent { before ≡ sum_by B.spent bodies.old }
    requires few { (before ≤ budget) × (budget ≤ MOST_COUNT) }
    requires lanes { AreCrossings B.may_meet bodies.old lanes.now }
    ensures keeps { OnOk result (AllOf B.keeps bodies.new) }
    ensures goes { OnOk result (EachOf B.goes bodies.old bodies.new) }
    ensures joined { OnOk result (AllJoined B.joined bodies.new lanes.now) }
    ensures spent { IfOk result (λ end. end.used ≡ sum_by B.spent bodies.new) }
    ensures within { IfOk result (λ end. end.used ≤ budget) }
    ensures rest { IfOk result (λ end. end.at_rest ≡ true → AtRest B.pending B.joined bodies.new lanes.now) }
    ensures more { IfOk result (λ end. end.at_rest ≡ false → (end.used ≡ budget) × ((k : ℕ) × FirstEvent B.pending B.joined bodies.new lanes.now k)) }
    ensures broke { OnErr result (BrokeOff B.keeps B.goes B.breaks bodies.old bodies.new) }
{
    let mut used = before + rounds(alloc, bodies, budget - before)?;
    while used < budget {
        let stirred = stir(alloc, bodies, lanes, portion(budget - used))?;
        if stirred == 0 {
            return Ok(RoundsEnd {
                used,
                at_rest: true,
            });
        }
        used += stirred;
        used += rounds(alloc, bodies, budget - used)?;
    }
    let at_rest = settle_whole(bodies, lanes).is_none();
    Ok(RoundsEnd { used, at_rest })
}

/// Goes on with bodies that used `before` units in earlier turns, until none has an event or `budget` units are used in all: rounds of
/// turns in order, each of at most `TURN_UNITS` units, until one uses none, where a body whose turn may wait comes behind all that have
/// anything to do; then the ends of the lanes are brought together, and where a body has an event, it takes a turn at once and rounds
/// follow. After `NoMemory` one body broke off, all others are whole, and the ends of all lanes are brought together too.
pub fn go_on<B: Turning>(
    alloc: Global,
    bodies: &mut [B],
    lanes: &[Crossing],
    before: u32,
    budget: u32,
) -> Result<RoundsEnd, NoMemory>
    requires keeps { AllOf B.keeps bodies.old }
    requires spent { before ≡ sum_by B.spent bodies.old }
    requires few { (before ≤ budget) × (budget ≤ MOST_COUNT) }
    requires lanes { AreCrossings B.may_meet bodies.old lanes.now }
    ensures joined { AllJoined B.joined bodies.new lanes.now }
    ensures keeps { OnOk result (AllOf B.keeps bodies.new) }
    ensures goes { OnOk result (EachOf B.goes bodies.old bodies.new) }
    ensures spent { IfOk result (λ end. end.used ≡ sum_by B.spent bodies.new) }
    ensures within { IfOk result (λ end. end.used ≤ budget) }
    ensures rest { IfOk result (λ end. end.at_rest ≡ true → AtRest B.pending B.joined bodies.new lanes.now) }
    ensures more { IfOk result (λ end. end.at_rest ≡ false → (end.used ≡ budget) × ((k : ℕ) × FirstEvent B.pending B.joined bodies.new lanes.now k)) }
    ensures broke { OnErr result (BrokeOff B.keeps B.goes B.breaks bodies.old bodies.new) }
{
    match run_on(alloc, bodies, lanes, before, budget) {
        Ok(end) => Ok(end),
        Err(lack) => {
            settle(bodies, lanes);
            Err(lack)
        }
    }
}
