// The part of a blueprint at which a fault is.
use blue_check::fault::CheckFault;
use blue_names::claims::{file_of, plug_of};
use blue_names::custom_ports::custom_of;
use blue_names::spot::Spot;
use blue_names::table::Named;
use elem_core::line::Line;
use stream_model::blueprint::{Blueprint, Node, WireDecl};
use stream_model::kind::Kind;

/// What a line declares.
#[derive(Clone, Copy, PartialEq, Eq)]
pub enum Sort {
    /// A switch.
    Switch,
    /// A chain.
    Chain,
    /// A source, a stage or a sink.
    Node,
    /// A wire.
    Wire,
    /// The beginning of a module.
    Module,
    /// An instance of a module.
    Use,
    /// A port of a module.
    Port,
    /// The end of a module.
    End,
}

/// A part of a blueprint: which of its sort, from 0.
#[derive(Clone, Copy, PartialEq, Eq)]
pub struct FaultPlace {
    /// What is declared.
    pub sort: Sort,
    /// Which one.
    pub number: usize,
}

impl FaultPlace {
    /// The part of that sort and number.
    pub fn of(sort: Sort, number: usize) -> FaultPlace {
        FaultPlace { sort, number }
    }
}

/// The first of that name, from a number on.
fn named<T: Named>(items: &[T], name: &Line, from: usize) -> Option<usize> {
    for i in from..items.len() {
        if *items[i].name() == *name {
            return Some(i);
        }
    }
    None
}

/// The second of that name.
fn named_again<T: Named>(items: &[T], name: &Line) -> Option<usize> {
    let first = named(items, name, 0)?;
    named(items, name, first.saturating_add(1))
}

/// The first node of that file, from a number on.
fn filed(nodes: &[Node], file: &Line, from: usize) -> Option<usize> {
    for i in from..nodes.len() {
        if let Some(name) = file_of(&nodes[i].kind) {
            if *name == *file {
                return Some(i);
            }
        }
    }
    None
}

/// The node that wants a file again, where the blueprint's own file is taken.
fn filed_again(nodes: &[Node], file: &Line, own: &Line) -> Option<usize> {
    let first = filed(nodes, file, 0)?;
    if *file == *own {
        Some(first)
    } else {
        filed(nodes, file, first.saturating_add(1))
    }
}

/// The lesser of two numbers, where both are there.
fn least(first: Option<usize>, second: Option<usize>) -> Option<usize> {
    match (first, second) {
        (Some(a), Some(b)) => Some(a.min(b)),
        (Some(a), None) => Some(a),
        (None, b) => b,
    }
}

/// Where a name or a file is told again.
fn told_again(b: &Blueprint, name: &Line, own: &Line) -> Option<FaultPlace> {
    if let Some(i) = named_again(&b.switches, name) {
        return Some(FaultPlace::of(Sort::Switch, i));
    }
    if let Some(i) = named_again(&b.chains, name) {
        return Some(FaultPlace::of(Sort::Chain, i));
    }
    let again = least(
        named_again(&b.nodes, name),
        filed_again(&b.nodes, name, own),
    );
    again.map(|i| FaultPlace::of(Sort::Node, i))
}

/// Whether a kind names a switch or a chain of this name that is not declared.
fn misses(b: &Blueprint, kind: &Kind, name: &Line) -> bool {
    match kind {
        Kind::Valve(switch) | Kind::TripShutdown(switch, _) | Kind::TripAbort(switch, _) => {
            *switch == *name && named(&b.switches, name, 0).is_none()
        }
        Kind::GroupBy(_, _, chain) | Kind::SplitWhen(_, chain, _) | Kind::SplitAfter(_, chain, _) =>
            { *chain == *name && named(&b.chains, name, 0).is_none() }
        _ => false,
    }
}

/// The first wire that names a node of this name.
fn wired(wires: &[WireDecl], name: &Line) -> Option<usize> {
    for i in 0..wires.len() {
        if wires[i].from == *name || wires[i].to == *name {
            return Some(i);
        }
    }
    None
}

/// Where a name is used that is not declared.
fn used(b: &Blueprint, name: &Line) -> Option<FaultPlace> {
    for i in 0..b.nodes.len() {
        if misses(b, &b.nodes[i].kind, name) {
            return Some(FaultPlace::of(Sort::Node, i));
        }
    }
    wired(&b.wires, name).map(|i| FaultPlace::of(Sort::Wire, i))
}

/// Whether it is the name of a plug, or of a custom stage, that the program does not ship.
fn is_unknown(kind: &Kind, name: &Line) -> bool {
    match kind {
        Kind::Plug(plug) => {
            *plug == *name
                && name.bytes() != b"dedup".as_slice()
                && name.bytes() != b"pairsum".as_slice()
        }
        Kind::Custom(custom) => {
            *custom == *name
                && name.bytes() != b"alternate".as_slice()
                && name.bytes() != b"rude".as_slice()
        }
        _ => false,
    }
}

/// The first node that names a plug or a custom stage of this name that the program does not ship.
fn unknown(nodes: &[Node], name: &Line) -> Option<usize> {
    for i in 0..nodes.len() {
        if is_unknown(&nodes[i].kind, name) {
            return Some(i);
        }
    }
    None
}

/// The first node of that plug, or of that custom stage, from a number on.
fn hosting(nodes: &[Node], custom: bool, name: &Line, from: usize) -> Option<usize> {
    for i in from..nodes.len() {
        let kind = &nodes[i].kind;
        let guest = if custom {
            custom_of(kind)
        } else {
            plug_of(kind)
        };
        if let Some(named) = guest {
            if *named == *name {
                return Some(i);
            }
        }
    }
    None
}

/// The second node of that plug, or of that custom stage.
fn hosting_again(nodes: &[Node], custom: bool, name: &Line) -> Option<usize> {
    let first = hosting(nodes, custom, name, 0)?;
    hosting(nodes, custom, name, first.saturating_add(1))
}

/// The place of a size.
fn sized(spot: Spot) -> FaultPlace {
    match spot {
        Spot::Node(i) => FaultPlace::of(Sort::Node, i as usize),
        Spot::Wire(i) => FaultPlace::of(Sort::Wire, i as usize),
        Spot::Chain(i) => FaultPlace::of(Sort::Chain, i as usize),
    }
}

// Choice: docs/DECISIONS.md#place-is-looked-for
/// The part of a blueprint at which a fault of it is, if it is at one. `own` is the blueprint's own file.
pub fn place_of(b: &Blueprint, own: &Line, fault: &CheckFault) -> Option<FaultPlace> {
    let node = match fault {
        CheckFault::TwoNames(name) => return told_again(b, name, own),
        CheckFault::NoSuchName(name) => return used(b, name),
        CheckFault::NoSuchPort(i)
        | CheckFault::PortTwice(i)
        | CheckFault::HubWire(i)
        | CheckFault::TypeClash(i, _, _)
        | CheckFault::ClosedWalk(i) => return Some(FaultPlace::of(Sort::Wire, *i as usize)),
        CheckFault::BadSize(spot) => return Some(sized(*spot)),
        CheckFault::PortOpen(name, _, _) | CheckFault::TooDeep(name) => named(&b.nodes, name, 0),
        CheckFault::NoSuchPlug(name) => unknown(&b.nodes, name),
        CheckFault::PlugTwice(name) => least(
            hosting_again(&b.nodes, false, name),
            hosting_again(&b.nodes, true, name),
        ),
        CheckFault::NoSuchModule(_) | CheckFault::PortName(_, _) | CheckFault::TooLarge => None,
    };
    node.map(|i| FaultPlace::of(Sort::Node, i))
}
