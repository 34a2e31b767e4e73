// That a switch is made with ample memory, and that its seats know its first order.
use stage_switch::order::Order;
use stage_switch::switch::Switch;
use std::alloc::AllocError;

#[test]
fn the_first_order_stands(rt: HostRuntime) -> Result<(), AllocError> {
    let (switch, mut seats) = Switch::new(rt.alloc(), 3)?;
    let mut valve = seats.pop().expect(&rt, "three seats");
    let mut late = seats.pop().expect(&rt, "three seats");
    let mut trip = seats.pop().expect(&rt, "three seats");
    assert!(rt; switch.look(&mut valve).is_none());
    assert!(rt; matches!(switch.abort(&mut trip), Order::Abort));
    assert!(rt; matches!(switch.shutdown(&mut late), Order::Abort));
    assert!(rt; matches!(switch.look(&mut valve), Some(Order::Abort)));
    Ok(())
}
