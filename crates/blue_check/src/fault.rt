// Why a blueprint cannot be run.
ghost use Rattle.std.specs.Prelude.{◌≡◌};
ghost use Rattle.blue_check.specs.Number.{number_of_fault};

use blue_names::spot::Spot;
use blue_names::want::Want;
use elem_core::elem_type::ElemType;
use elem_core::line::Line;

/// The first rule that a text or its blueprint breaks, at its least place.
pub enum CheckFault {
    /// A name is declared twice, or a file is wanted twice.
    TwoNames(Line),
    /// A switch, a chain or a node is named and not declared.
    NoSuchName(Line),
    /// A wire uses a port that its node does not have.
    NoSuchPort(u32),
    /// A wire uses a port that an earlier wire uses.
    PortTwice(u32),
    /// A port of a node has no wire: whether it is an output, and which.
    PortOpen(Line, bool, u32),
    /// A type arrives on a wire that its input does not accept.
    TypeClash(u32, ElemType, Want),
    /// A wire lies on a closed walk.
    ClosedWalk(u32),
    /// A type would nest too deep at a node.
    TooDeep(Line),
    /// A plug or a custom stage is named and not handed in.
    NoSuchPlug(Line),
    /// Two plugs or two custom stages have one name, or two nodes name one of them.
    PlugTwice(Line),
    /// A size is out of its limits.
    BadSize(Spot),
    /// A `use` names no module that its body may use.
    NoSuchModule(Line),
    /// A module has two inputs or two outputs of one name, or a place names a port that is none: of which module, node or instance,
    /// and the port as it is written.
    PortName(Line, Line),
    /// The blueprint would have more nodes or wires than one may have.
    TooLarge,
    /// A wire of a hub is marked as a lane itself, or goes from a broadcast hub to a merge hub.
    HubWire(u32),
}

// Dropped by a call, wherever it is dropped: else each of its variants is a path of each function that drops it.
impl Drop for CheckFault {
    fn drop(self) {
        match self {
            CheckFault::TwoNames(_)
            | CheckFault::NoSuchName(_)
            | CheckFault::TooDeep(_)
            | CheckFault::NoSuchPlug(_)
            | CheckFault::PlugTwice(_)
            | CheckFault::NoSuchModule(_) => {}
            CheckFault::PortName(_, _) => {}
            CheckFault::PortOpen(_, _, _) => {}
            CheckFault::TypeClash(_, _, _) => {}
            CheckFault::NoSuchPort(_)
            | CheckFault::PortTwice(_)
            | CheckFault::ClosedWalk(_)
            | CheckFault::BadSize(_)
            | CheckFault::HubWire(_)
            | CheckFault::TooLarge => {}
        }
    }
}

impl CheckFault {
    /// The number, from 1 to 15, by which reports name the rule.
    pub fn number(&self) -> u8
        ensures { result ≡ number_of_fault self.now }
    {
        match self {
            CheckFault::TwoNames(_) => 1,
            CheckFault::NoSuchName(_) => 2,
            CheckFault::NoSuchPort(_) => 3,
            CheckFault::PortTwice(_) => 4,
            CheckFault::PortOpen(_, _, _) => 5,
            CheckFault::TypeClash(_, _, _) => 6,
            CheckFault::ClosedWalk(_) => 7,
            CheckFault::TooDeep(_) => 8,
            CheckFault::NoSuchPlug(_) => 9,
            CheckFault::PlugTwice(_) => 10,
            CheckFault::BadSize(_) => 11,
            CheckFault::NoSuchModule(_) => 12,
            CheckFault::PortName(_, _) => 13,
            CheckFault::TooLarge => 14,
            CheckFault::HubWire(_) => 15,
        }
    }
}
