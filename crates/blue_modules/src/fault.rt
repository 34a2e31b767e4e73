// The faults of modules.
use elem_core::line::Line;

/// The first rule on modules that a text breaks, at its least place.
#[derive(Drop)]
pub enum ModuleFault {
    /// Two modules, or two nodes or instances of one body, have this name.
    TwoNames(Line),
    /// A `use` names no module that its body may use.
    NoSuchModule(Line),
    /// A wire or a port of a module names no node or instance of its body.
    NoSuchName(Line),
    /// A module has two inputs or two outputs of one name, or a place names a port that is none.
    PortName(Line, Line),
    /// The blueprint would have more nodes or wires than one may have.
    TooLarge,
}
