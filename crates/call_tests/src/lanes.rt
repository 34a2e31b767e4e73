// Lanes whose two ends are used by turns, and by two threads.
ghost use Rattle.std.specs.Prelude.{◌≡◌, ◌+◌, ◌≤◌, true, false, IfSome};
ghost use Rattle.lane_core.specs.Lane.{ends, weight};
ghost use Rattle.elem_core.specs.Items.{elements};
ghost use Rattle.lane_core.specs.Ends.{taken_items, asked_in_all, has_cancelled, has_ended, saw_cancel, out_lane, in_lane, AreOneLane, IsSameIn, IsSameOut};

use elem_core::elem::{Elem, Form};
use elem_core::item::Item;
use elem_core::why::NoMemory;
use lane_core::lane::{lane, meet};
use lane_core::lane_in::LaneIn;
use lane_core::lane_out::LaneOut;
use lane_core::room::{Room, Waits};
use std::test::Fail;
use std::thread::{Threads, join};

// The next item, if it is a number.
fn take_number(inp: &mut LaneIn) -> Option<i64>
    ensures same { IsSameIn inp.old inp.new × (asked_in_all inp.new ≡ asked_in_all inp.old) × (has_cancelled inp.new ≡ has_cancelled inp.old) }
    ensures some { IfSome result (λ _. elements (taken_items inp.new) ≡ elements (taken_items inp.old) + 1) }
    ensures grows { elements (taken_items inp.old) ≤ elements (taken_items inp.new) }
{
    let Some(Item::Elem(e)) = inp.take() else {
        return None;
    };
    match e.into_form() {
        Form::Num(n) => Some(n),
        _ => None,
    }
}

fn elem(n: i64) -> Item
    ensures { (ends result ≡ false) × (weight result ≡ 1) }
{
    Item::Elem(Elem::of(Form::Num(n)))
}

// Whether that many are asked for and not sent.
fn finds_room(out: &mut LaneOut, n: u64) -> bool
    ensures lane { IsSameOut out.old out.new × (has_ended out.new ≡ has_ended out.old) }
    ensures room { result ≡ true → saw_cancel out.new ≡ 0 }
{
    match out.room() {
        Room::Asked(m) => m == n,
        Room::Cancelled => false,
    }
}

// Sends a number; false where it came back.
fn send_number(out: &mut LaneOut, n: i64) -> bool
    requires { (has_ended out.old ≡ false) × (saw_cancel out.old ≡ 0) }
    ensures { IsSameOut out.old out.new × (has_ended out.new ≡ false) × (saw_cancel out.new ≡ 0) }
{
    match out.offer(elem(n)) {
        Ok(()) => true,
        Err(_) => false,
    }
}

// Whether two numbers can be sent, and no third.
fn fills_two(out: &mut LaneOut) -> bool
    requires { (has_ended out.old ≡ false) × (saw_cancel out.old ≡ 0) }
    ensures { IsSameOut out.old out.new × (has_ended out.new ≡ false) × (saw_cancel out.new ≡ 0) }
{
    send_number(out, 1) && send_number(out, 2) && !send_number(out, 3)
}

// Whether just these two come.
fn empties_two(inp: &mut LaneIn) -> bool
    ensures same { IsSameIn inp.old inp.new × (asked_in_all inp.new ≡ asked_in_all inp.old) × (has_cancelled inp.new ≡ has_cancelled inp.old) }
    ensures taken { result ≡ true → elements (taken_items inp.old) + 2 ≤ elements (taken_items inp.new) }
{
    take_number(inp) == Some(1) && take_number(inp) == Some(2) && take_number(inp).is_none()
}

// Whether an item waits, and demand.
fn are(waits: Waits, item: bool, demand: bool) -> bool {
    waits.item == item && waits.demand == demand
}

#[test]
fn a_lane_of_one(rt: HostRuntime) -> Result<(), Fail> {
    let (mut out, mut inp) = lane(rt.alloc(), 1)?;
    assert!(rt; finds_room(&mut out, 0));
    inp.ask(1);
    assert!(rt; finds_room(&mut out, 1));
    assert!(rt; send_number(&mut out, 7));
    assert!(rt; !send_number(&mut out, 8));
    assert!(rt; take_number(&mut inp) == Some(7));
    assert!(rt; inp.take().is_none());
    Ok(())
}

#[test]
fn a_lane_of_two(rt: HostRuntime) -> Result<(), Fail> {
    let (mut out, mut inp) = lane(rt.alloc(), 2)?;
    assert!(rt; finds_room(&mut out, 0));
    assert!(rt; !send_number(&mut out, 1));
    inp.ask(2);
    assert!(rt; finds_room(&mut out, 2));
    assert!(rt; fills_two(&mut out));
    assert!(rt; empties_two(&mut inp));
    inp.ask(2);
    // Without a look: an end wants no demand.
    assert!(rt; out.offer(Item::Ended).is_ok());
    assert!(rt; matches!(inp.take(), Some(Item::Ended)));
    Ok(())
}

#[test]
fn a_cancel_is_seen(rt: HostRuntime) -> Result<(), Fail> {
    let (mut out, mut inp) = lane(rt.alloc(), 1024)?;
    inp.cancel();
    assert!(rt; matches!(out.room(), Room::Cancelled));
    Ok(())
}

fn send_end(out: LaneOut) -> LaneOut
    requires { (has_ended out ≡ false) × (saw_cancel out ≡ 0) }
    ensures { out_lane result ≡ out_lane out }
{
    let mut out = out;
    drop(out.offer(Item::Ended));
    out
}

fn take_one(inp: LaneIn) -> LaneIn
    ensures { in_lane result ≡ in_lane inp }
{
    let mut inp = inp;
    drop(inp.take());
    inp
}

// One thread sends the end while another takes.
fn pass_end<R: Threads + Sync>(rt: &R, out: LaneOut, inp: LaneIn) -> Result<bool, NoMemory>
    requires { AreOneLane out inp × (has_ended out ≡ false) × (saw_cancel out ≡ 0) }
{
    let (mut out, inp) = join(
        rt,
        move || -> LaneOut
            requires { (has_ended out ≡ false) × (saw_cancel out ≡ 0) }
            ensures { out_lane result ≡ out_lane out }
        { send_end(out) },
        move || -> LaneIn
            ensures { in_lane result ≡ in_lane inp }
        { take_one(inp) },
    );
    let mut inp = take_one(inp);
    let waits = meet(&mut out, &mut inp)?;
    Ok(are(waits, false, false))
}

#[test]
fn ends_may_be_in_two_threads(rt: HostRuntime) -> Result<(), Fail> {
    let (out, inp) = lane(rt.alloc(), 1)?;
    assert!(rt; pass_end(&rt, out, inp)?);
    Ok(())
}
