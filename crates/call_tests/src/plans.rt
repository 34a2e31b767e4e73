// That the islands of a blueprint are found with ample memory.
use crate::blueprints::{node, wire};
use blue_check::check::check;
use blue_check::islands::islands;
use elem_core::why::NoMemory;
use std::alloc::Global;
use std::test::Fail;
use stream_model::blueprint::Blueprint;
use stream_model::kind::{Base, Kind};

/// Two sources and two sinks, of which the last sink is in the island of the first source.
fn blueprint(alloc: Global) -> Result<Blueprint, NoMemory> {
    let mut nodes = Vec::new(alloc);
    nodes.push(node(alloc, b'a', Kind::Empty(Base::Num))?)?;
    nodes.push(node(alloc, b'b', Kind::Ignore)?)?;
    nodes.push(node(alloc, b'c', Kind::Empty(Base::Num))?)?;
    nodes.push(node(alloc, b'd', Kind::Ignore)?)?;
    let mut wires = Vec::new(alloc);
    wires.push(wire(alloc, b'a', b'd', None)?)?;
    wires.push(wire(alloc, b'c', b'b', Some(4))?)?;
    Ok(Blueprint {
        switches: Vec::new(alloc),
        chains: Vec::new(alloc),
        nodes,
        wires,
    })
}

#[test]
fn a_plan_is_given(rt: HostRuntime) -> Result<(), Fail> {
    let alloc = rt.alloc();
    match check(alloc, blueprint(alloc)?, &[], &[], &[]) {
        Ok(checked) => {
            let plan = islands(alloc, &checked)?;
            assert_eq!(rt; plan.islands.len(), 3);
            assert_eq!(rt; plan.lanes.len(), 1);
            let lane = plan.lanes[0];
            assert!(rt; lane.wire == 1 && lane.size == 4 && lane.from == 2 && lane.to == 1);
        }
        Err(_) => assert!(rt; false),
    }
    Ok(())
}
