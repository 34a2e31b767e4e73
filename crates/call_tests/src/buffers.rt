// That a buffer that drops is made and handles its events with ample memory. What a full one drops is proved, and shown by the cases of `rows`.
ghost use Rattle.std.specs.Prelude.{◌≡◌, ◌≤◌, [], ◌∷◌, true, IfOk};
ghost use Rattle.port_core.specs.declared.act.Act.TheVariants as act;
ghost use Rattle.stage_core.specs.declared.stage.TheConstants.{LEAST_ACTS};
ghost use Rattle.port_core.specs.View.{unpulled_ports};
ghost use Rattle.call_tests.specs.Buffers.{waiting_ports};

use elem_core::elem::{Elem, Form};
use elem_core::why::{Decider, NoMemory};
use port_core::act::Act;
use port_core::acts::Acts;
use stage_core::stage::{LEAST_ACTS, Stage};
use stage_state::logic::StateLogic;
use std::alloc::Global;
use std::test::Fail;
use stream_model::kind::{Kind, Policy};

// Whether the one action is to ask.
fn asks(acts: &mut Acts) -> bool
    ensures { result ≡ true → (acts.old.items ≡ act.Pull 0 ∷ []) × (acts.new ≡ record acts.old { items = [] }) }
{
    match acts.take() {
        Some(Act::Pull(0)) => acts.take().is_none(),
        _ => false,
    }
}

// The number that the one action gives.
fn number_given(acts: &mut Acts) -> Option<i64> {
    let Some(Act::Push(0, e)) = acts.take() else {
        return None;
    };
    if acts.take().is_some() {
        return None;
    }
    match e.into_form() {
        Form::Num(n) => Some(n),
        _ => None,
    }
}

// A stage is started, and asks.
fn begins<S: Stage>(alloc: Global, stage: &mut S, acts: &mut Acts) -> Result<bool, NoMemory>
    requires new { S.fresh stage.old unpulled_ports }
    requires empty { acts.old.items ≡ [] }
    requires room { LEAST_ACTS ≤ acts.old.room }
    ensures waits { IfOk result (λ on. on ≡ true → S.port_state stage.new waiting_ports) }
    ensures acts { IfOk result (λ on. on ≡ true → acts.new ≡ acts.old) }
{
    stage.start(alloc, acts)?;
    Ok(asks(acts))
}

// A number comes, and the stage asks again.
fn takes<S: Stage>(
    alloc: Global,
    stage: &mut S,
    number: i64,
    acts: &mut Acts,
) -> Result<bool, NoMemory>
    requires waits { S.port_state stage.old waiting_ports }
    requires empty { acts.old.items ≡ [] }
    requires room { LEAST_ACTS ≤ acts.old.room }
    ensures waits { IfOk result (λ on. on ≡ true → S.port_state stage.new waiting_ports) }
    ensures acts { IfOk result (λ on. on ≡ true → acts.new ≡ acts.old) }
{
    stage.on_push(alloc, 0, Elem::of(Form::Num(number)), acts)?;
    Ok(asks(acts))
}

// The output is asked, and the stage gives that number.
fn gives<S: Stage>(
    alloc: Global,
    stage: &mut S,
    number: i64,
    acts: &mut Acts,
) -> Result<bool, NoMemory>
    requires waits { S.port_state stage.old waiting_ports }
    requires empty { acts.old.items ≡ [] }
    requires room { LEAST_ACTS ≤ acts.old.room }
{
    stage.on_pull(alloc, 0, acts)?;
    match number_given(acts) {
        Some(n) => Ok(n == number),
        None => Ok(false),
    }
}

#[test]
fn a_buffer_that_drops_passes_an_element(rt: HostRuntime) -> Result<(), Fail> {
    let alloc = rt.alloc();
    let kind = Kind::Buffer(1, Policy::DropHead);
    let mut stage = StateLogic::new(alloc, 0, kind, Decider::Stop, None)?;
    let mut acts = Acts::new(alloc, LEAST_ACTS)?;
    assert!(rt; begins(alloc, &mut stage, &mut acts)?);
    assert!(rt; takes(alloc, &mut stage, 7, &mut acts)?);
    assert!(rt; gives(alloc, &mut stage, 7, &mut acts)?);
    assert_eq!(rt;
        stage.close(alloc).0.into_moves().as_slice(),
        [0, 1].as_slice()
    );
    Ok(())
}
