// How the asks of a custom stage are carried out.
ghost use Rattle.std.specs.Prelude.{◌≡◌, ◌≤◌, ◌+◌, ◌++◌, [], length, map, slice_get};
ghost use Rattle.graph_stage.specs.OwnView.{push_code, closed_in, closed_out, end_act, forbidden, acts_of, sees_behind, ports_ended, all_closed, outs_ended, ins_cancelled, carried_out};
ghost use Rattle.graph_stage.specs.Room.{acts_to_come, FewPorts, Steps};
ghost use Rattle.graph_stage.specs.Standing.{is_taken_back, first_turned, without_taken_back};

use crate::ask::Ask;
use crate::asks::Asks;
use crate::occasion::Occasion;
use crate::sight::{InSight, OutSight, Sight};
use elem_core::elem::Elem;
use elem_core::elem_type::ElemType;
use elem_core::typed::is_of_type;
use elem_core::why::{Cause, Why};
use port_core::act::Act;
use port_core::acts::Acts;

/// By which code an ask is forbidden to a stage whose outputs have these types.
pub fn forbids(types: &Vec<ElemType>, occasion: &Occasion, sight: &Sight, ask: &Ask) -> Option<u8>
    ensures { result ≡ forbidden types.now.items occasion.now sight.now ask.now }
{
    match ask {
        Ask::Pull(i) => match sight.ins.get(*i as usize) {
            None => Some(3),
            Some(x) => { if x.asked || x.closed { Some(1) } else { None } }
        },
        Ask::Push(j, e) => forbids_push(types, sight, *j as usize, e),
        Ask::Complete(j) => {
            if (*j as usize) < sight.outs.len() {
                None
            } else {
                Some(3)
            }
        }
        Ask::Cancel(i) => {
            if (*i as usize) < sight.ins.len() {
                None
            } else {
                Some(3)
            }
        }
        Ask::Finish | Ask::Fail(_) => None,
        Ask::Pass => match occasion.failure {
            None => Some(5),
            Some(_) => None,
        },
    }
}

// By which code a push is.
fn forbids_push(types: &Vec<ElemType>, sight: &Sight, j: usize, e: &Elem) -> Option<u8>
    ensures { result ≡ push_code (slice_get sight.now.outs j) (slice_get types.now.items j) e.now }
{
    match sight.outs.get(j) {
        None => Some(3),
        Some(y) => {
            if !y.asked || y.closed {
                Some(2)
            } else {
                match types.get(j) {
                    None => Some(4),
                    Some(t) => { if is_of_type(e, t) { None } else { Some(4) } }
                }
            }
        }
    }
}

// How an output is closed: it completes, or it fails.
fn ending(end: Option<Cause>, j: u8) -> Act
    ensures { result ≡ end_act end j }
{
    match end {
        None => Act::Complete(j),
        Some(cause) => Act::FailOut(j, cause),
    }
}

// Each output that is open completes, or fails.
fn end_outs(outs: &[OutSight], end: Option<Cause>, acts: &mut Acts)
    requires few { length outs.now ≤ 8 }
    requires room { length acts.old.items + length (outs_ended end 0 outs.now) ≤ acts.old.room }
    ensures { acts.new ≡ record acts.old { items = acts.old.items ++ outs_ended end 0 outs.now } }
{
    for j in 0..outs.len() {
        if !outs[j].closed {
            acts.add(ending(end, j as u8));
        }
    }
}

// Each input that is open is cancelled.
fn cancel_ins(ins: &[InSight], acts: &mut Acts)
    requires few { length ins.now ≤ 8 }
    requires room { length acts.old.items + length (ins_cancelled 0 ins.now) ≤ acts.old.room }
    ensures { acts.new ≡ record acts.old { items = acts.old.items ++ ins_cancelled 0 ins.now } }
{
    for i in 0..ins.len() {
        if !ins[i].closed {
            acts.add(Act::Cancel(i as u8));
        }
    }
}

// The inputs are seen as closed from now on.
#[tactic(auto, using(std::proofs::lemmas::List::Edits::map_over_more))]
fn close_ins(ins: &mut [InSight])
    ensures { ins.new ≡ map closed_in ins.old }
{
    for x in ins.iter_mut() {
        x.closed = true;
    }
}

// The outputs are.
#[tactic(auto, using(std::proofs::lemmas::List::Edits::map_over_more))]
fn close_outs(outs: &mut [OutSight])
    ensures { outs.new ≡ map closed_out outs.old }
{
    for y in outs.iter_mut() {
        y.closed = true;
    }
}

// All ports are closed: the outputs complete, or they fail, and the inputs are cancelled.
fn end_all(sight: &mut Sight, end: Option<Cause>, acts: &mut Acts)
    requires few { FewPorts sight.old }
    requires room { length acts.old.items + length (ports_ended end sight.old) ≤ acts.old.room }
    ensures acts { acts.new ≡ record acts.old { items = acts.old.items ++ ports_ended end sight.old } }
    ensures sight { sight.new ≡ all_closed sight.old }
{
    end_outs(&sight.outs, end, acts);
    cancel_ins(&sight.ins, acts);
    close_ins(&mut sight.ins);
    close_outs(&mut sight.outs);
}

// Carries out an ask.
fn carry_out(occasion: &Occasion, sight: &mut Sight, ask: Ask, acts: &mut Acts)
    requires few { FewPorts sight.old }
    requires room { length acts.old.items + length (acts_of occasion.now sight.old ask) ≤ acts.old.room }
    ensures acts { acts.new ≡ record acts.old { items = acts.old.items ++ acts_of occasion.now sight.old ask } }
    ensures sight { sight.new ≡ sees_behind sight.old ask }
{
    match ask {
        Ask::Pull(i) => {
            sight.set_input(
                i,
                InSight {
                    asked: true,
                    ..sight.input(i)
                },
            );
            acts.add(Act::Pull(i));
        }
        Ask::Push(j, e) => {
            sight.set_output(
                j,
                OutSight {
                    asked: false,
                    ..sight.output(j)
                },
            );
            acts.add(Act::Push(j, e));
        }
        Ask::Complete(j) => {
            let y = sight.output(j);
            sight.set_output(j, OutSight { closed: true, ..y });
            if !y.closed {
                acts.add(Act::Complete(j));
            }
        }
        Ask::Cancel(i) => {
            let x = sight.input(i);
            sight.set_input(i, InSight { closed: true, ..x });
            if !x.closed {
                acts.add(Act::Cancel(i));
            }
        }
        Ask::Finish => end_all(sight, None, acts),
        Ask::Fail(n) => {
            let cause = Cause {
                stage: occasion.node,
                nth: occasion.nth,
                why: Why::Plug(n),
            };
            end_all(sight, Some(cause), acts);
        }
        Ask::Pass => end_all(sight, occasion.failure, acts),
    }
}

// Carries out one ask, or fails the stage where it is forbidden; whether the next one is carried out.
#[tactic(auto, using(crate::proofs::Rooms::ask_room, crate::proofs::Rooms::all_room))]
fn take_ask(
    types: &Vec<ElemType>,
    occasion: &Occasion,
    sight: &mut Sight,
    ask: Ask,
    acts: &mut Acts,
) -> bool
    requires few { FewPorts sight.old }
    requires room { length acts.old.items + acts_to_come sight.old ≤ acts.old.room }
    ensures steps { Steps types.now.items occasion.now sight.old ask acts.old.items sight.new acts.new.items result }
    ensures room { acts.new.room ≡ acts.old.room }
{
    match forbids(types, occasion, sight, &ask) {
        None => {
            carry_out(occasion, sight, ask, acts);
            true
        }
        Some(code) => {
            let cause = Cause {
                stage: occasion.node,
                nth: occasion.taken,
                why: Why::IllegalCall(code),
            };
            end_all(sight, Some(cause), acts);
            false
        }
    }
}

/// Carries out asks in order, up to the first that is forbidden; where there is one the stage fails, and the rest is dropped.
pub fn answer(
    types: &Vec<ElemType>,
    occasion: &Occasion,
    sight: &mut Sight,
    asks: &mut Asks,
    acts: &mut Acts,
)
    requires few { FewPorts sight.old }
    requires room { length acts.old.items + acts_to_come sight.old ≤ acts.old.room }
    ensures acts { acts.new ≡ record acts.old { items = acts.old.items ++ (carried_out types.now.items occasion.now sight.old asks.old).acts } }
    ensures sight { sight.new ≡ (carried_out types.now.items occasion.now sight.old asks.old).sight }
    ensures none { asks.new ≡ [] }
{
    while let Some(ask) = asks.take() {
        if !take_ask(types, occasion, sight, ask, acts) {
            asks.clear();
            return;
        }
    }
}

// Whether an action is a pull of an input that is closed.
fn is_back(sight: &Sight, act: &Act) -> bool
    ensures { result ≡ is_taken_back sight.now act.now }
{
    match act {
        Act::Pull(i) => sight.input(*i).closed,
        _ => false,
    }
}

// The first action goes last, or it is taken back.
fn turn_first(sight: &Sight, acts: &mut Acts)
    requires room { length acts.old.items ≤ acts.old.room }
    ensures { acts.new ≡ record acts.old { items = first_turned sight.now acts.old.items } }
{
    if let Some(act) = acts.take() {
        if !is_back(sight, &act) {
            acts.add(act);
        }
    }
}

/// Takes back the pulls of inputs that are closed once the asks of a call were carried out. It takes no memory.
pub fn take_back(sight: &Sight, acts: &mut Acts)
    requires room { length acts.old.items ≤ acts.old.room }
    ensures { acts.new ≡ record acts.old { items = without_taken_back sight.now acts.old.items } }
{
    for _i in 0..acts.len() {
        turn_first(sight, acts);
    }
}
