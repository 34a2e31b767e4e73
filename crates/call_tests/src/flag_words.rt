// The flag word of a connection after each call.
use elem_core::elem::{Elem, Form};
use elem_core::why::{Cause, Why};
use port_core::conn::{Conn, Event};

#[derive(Clone, Copy)]
enum Call {
    Pull,
    Push,
    Complete,
    Fail,
    Cancel,
    // A delivery, with the event that is wanted.
    Decode(Event),
}

// Whether the call was allowed, and the event was the one that is wanted.
fn goes(conn: &mut Conn, call: &Call) -> bool {
    match call {
        Call::Pull => conn.can_pull() && conn.pull(),
        Call::Push => conn.can_push() && conn.push(Elem::of(Form::Num(7))),
        Call::Complete => {
            conn.complete();
            true
        }
        Call::Fail => {
            conn.fail(Cause {
                stage: 0,
                nth: 1,
                why: Why::Told,
            });
            true
        }
        Call::Cancel => {
            conn.cancel();
            true
        }
        Call::Decode(event) => conn.decode() == *event,
    }
}

// The first call that did not go, or left another word than the one that is wanted behind it.
fn first_fault(calls: &[(Call, u8)]) -> Option<usize> {
    let mut conn = Conn::new();
    for i in 0..calls.len() {
        if !goes(&mut conn, &calls[i].0) || conn.word() != calls[i].1 {
            return Some(i);
        }
    }
    None
}

// The calls of one connection each, every one with the word that is wanted behind it: an element passes; a completion; a completion behind an
// element; a failure; a cancel behind an element; and both closings, of which no event is left.
const ROWS: [&[(Call, u8)]; 6] = [
    &[
        (Call::Pull, 2),
        (Call::Decode(Event::Pull), 8),
        (Call::Push, 4),
        (Call::Decode(Event::Push), 1),
    ],
    &[
        (Call::Pull, 2),
        (Call::Decode(Event::Pull), 8),
        (Call::Complete, 40),
        (Call::Decode(Event::Finish), 56),
    ],
    &[
        (Call::Pull, 2),
        (Call::Decode(Event::Pull), 8),
        (Call::Push, 4),
        (Call::Complete, 36),
        (Call::Decode(Event::PushThenClose), 33),
        (Call::Decode(Event::Finish), 49),
    ],
    &[
        (Call::Pull, 2),
        (Call::Decode(Event::Pull), 8),
        (Call::Fail, 104),
        (Call::Decode(Event::Fail), 120),
    ],
    &[
        (Call::Pull, 2),
        (Call::Decode(Event::Pull), 8),
        (Call::Push, 4),
        (Call::Cancel, 20),
        (Call::Decode(Event::Cancel), 52),
    ],
    &[
        (Call::Pull, 2),
        (Call::Complete, 34),
        (Call::Cancel, 50),
        (Call::Decode(Event::Nothing), 50),
    ],
];

#[test]
fn words_follow_the_calls(rt: HostRuntime) {
    assert!(rt; Conn::new().word() == 1);
    for i in 0..ROWS.len() {
        assert!(rt; first_fault(ROWS[i]).is_none());
    }
}
